// The commands on the memory, and the bytes of any array.
ghost use Rattle.std.specs.Prelude.{◌≡◌};
ghost use Rattle.console_text.specs.Text.{page, put};
ghost use Rattle.console_arrays.specs.Arrays.{lent_of, lent_text, bytes_at, peek_text, has_place, shown, showing, poke_of};

use console_chip::answers::{WORD, bytes_said, error, ok};
use console_text::hex::{is_bytes, store};
use console_text::numbers::number_of;

// How many bytes of the memory are lent.
#[tactic(auto, unfolding(console_chip::specs::Answers::numbered))]
pub fn lend(lent: &mut usize, size: &[u8], out: &mut [u8], at: usize) -> usize
    ensures { (lent.new ≡ lent_of lent.old size.now) × (page out.new result ≡ put (page out.old at) (lent_text size.now)) }
{
    let Some(n) = number_of(size, 65537) else {
        return error(out, at);
    };
    *lent = n as usize;
    ok(out, at)
}

// The bytes of an array from a place on.
fn bytes_at(array: &[u8], a: usize, n: usize, out: &mut [u8], at: usize) -> usize
    ensures { page out.new result ≡ put (page out.old at) (bytes_at array.now a n) }
{
    if array.len() < a {
        return error(out, at);
    }
    if array.len() - a < n {
        return error(out, at);
    }
    let to = a + n;
    bytes_said(out, at, &array[a..to])
}

#[tactic(auto, unfolding(console_chip::specs::Answers::numbered))]
pub fn peek(array: &[u8], place: &[u8], count: &[u8], out: &mut [u8], at: usize) -> usize
    ensures { page out.new result ≡ put (page out.old at) (peek_text array.now place.now count.now) }
{
    let Some(a) = number_of(place, WORD) else {
        return error(out, at);
    };
    let Some(n) = number_of(count, WORD) else {
        return error(out, at);
    };
    bytes_at(array, a as usize, n as usize, out, at)
}

// Whether the bytes of a word have their place in an array of this length from place a on.
fn has_place(size: usize, a: usize, digits: &[u8]) -> bool
    ensures { result ≡ has_place size a digits.now }
{
    if size < a {
        return false;
    }
    let bytes = is_bytes(digits);
    bytes & (digits.len() / 2 <= size - a)
}

#[tactic(auto, unfolding(console_chip::specs::Answers::numbered, crate::specs::Arrays::poked_at, words::specs::Choice::when))]
pub fn poke(memory: &mut [u8], place: &[u8], digits: &[u8], out: &mut [u8], at: usize) -> usize
    ensures { shown memory.new (page out.new result) ≡ showing (page out.old at) (poke_of memory.old place.now digits.now) }
{
    let Some(a) = number_of(place, WORD) else {
        return error(out, at);
    };
    let from = a as usize;
    if !has_place(memory.len(), from, digits) {
        return error(out, at);
    }
    store(memory, from, digits);
    ok(out, at)
}
