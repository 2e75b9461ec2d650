// The device's queue.
ghost use Rattle.std.specs.Prelude.{◌≡◌, ℕ, ◌+◌, ◌-◌, ◌≤◌, true, false, leb, length, IfSome, IfNone};
ghost use Rattle.console_text.specs.Text.{page};
ghost use Rattle.console_arrays.specs.Arrays.{showing, held, feed_of, fill_of, LiesIn, Grown, Queued};

use console_chip::answers::{WORD, error, ok};
use console_text::hex::{is_bytes, store};
use console_text::numbers::number_of;
use console_text::page::copies;

// The most bytes that it holds.
const MOST: usize = 70000;

// Where it lies in its array: from one place up to another.
#[derive(Clone, Copy)]
pub struct Queue {
    pub from: usize,
    pub to: usize,
    ghost ordered: { from ≤ to },
}

impl Queue {
    // Where it has room for n more bytes behind it: it is moved to the array's front only if it has none.
    fn with_room(self, array: &mut [u8], n: usize) -> Queue
        requires { (self.to ≤ length array.old) × (self.to - self.from + n ≤ length array.old) }
        ensures { (held array.new result.from result.to ≡ held array.old self.from self.to) × (result.to + n ≤ length array.new) }
    {
        if n <= array.len() - self.to {
            return self;
        }
        array.copy_within(self.from..self.to, 0);
        Queue {
            from: 0,
            to: self.to - self.from,
        }
    }

    // Whether n more bytes have their place in it.
    fn may_append(self, n: usize) -> bool
        ensures { result ≡ leb (self.to - self.from + n) 70000 }
    {
        (self.to - self.from).saturating_add(n) <= MOST
    }

    // The place of n more bytes behind those that it holds, if they have room; the bytes there are its own from now on.
    fn grow(&mut self, array: &mut [u8], n: usize) -> Option<usize>
        requires { LiesIn self.old.to array.old }
        ensures full { IfNone result ((leb (self.old.to - self.old.from + n) 70000 ≡ false) × (self.new ≡ self.old) × (array.new ≡ array.old)) }
        ensures grown { IfSome result (λ (place : ℕ). Grown place self.new.from self.new.to n array.new (held array.old self.old.from self.old.to) × (leb (self.old.to - self.old.from + n) 70000 ≡ true)) }
    {
        if !self.may_append(n) {
            return None;
        }
        let moved = self.with_room(array, n);
        *self = Queue {
            from: moved.from,
            to: moved.to + n,
        };
        Some(moved.to)
    }

    // The bytes of a word, behind those that it holds.
    pub fn feed(&mut self, array: &mut [u8], digits: &[u8], out: &mut [u8], at: usize) -> usize
        requires { LiesIn self.old.to array.old }
        ensures { Queued self.new.from self.new.to array.new (page out.new result) (showing (page out.old at) (feed_of (held array.old self.old.from self.old.to) digits.now)) }
    {
        if !is_bytes(digits) {
            return error(out, at);
        }
        let Some(place) = self.grow(array, digits.len() / 2) else {
            return error(out, at);
        };
        store(array, place, digits);
        ok(out, at)
    }

    // Copies of a byte, behind those that it holds.
    #[tactic(auto, using(console_text::proofs::NumberLaws::number_fits), unfolding(console_chip::specs::Answers::numbered))]
    pub fn fill(
        &mut self,
        array: &mut [u8],
        count: &[u8],
        byte: &[u8],
        out: &mut [u8],
        at: usize,
    ) -> usize
        requires { LiesIn self.old.to array.old }
        ensures { Queued self.new.from self.new.to array.new (page out.new result) (showing (page out.old at) (fill_of (held array.old self.old.from self.old.to) count.now byte.now)) }
    {
        let Some(n) = number_of(count, WORD) else {
            return error(out, at);
        };
        let Some(b) = number_of(byte, 255) else {
            return error(out, at);
        };
        let Some(place) = self.grow(array, n as usize) else {
            return error(out, at);
        };
        copies(array, place, n as usize, b as u8);
        ok(out, at)
    }
}
