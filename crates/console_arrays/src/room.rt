// The device's room.
ghost use Rattle.std.specs.Prelude.{◌≤◌, take};
ghost use Rattle.console_text.specs.Text.{page};
ghost use Rattle.console_arrays.specs.Arrays.{showing, room_of, position_of, LiesIn, Roomed};

use console_chip::answers::{error, ok};
use console_text::numbers::number_of;
use console_text::page::copies;

// It lies at its array's front: its write position, and its size.
#[derive(Clone, Copy)]
pub struct Room {
    pub written: usize,
    pub size: usize,
    ghost ordered: { written ≤ size },
}

impl Room {
    // It is made anew, of copies of a byte.
    #[tactic(auto, using(console_text::proofs::NumberLaws::number_fits), unfolding(console_chip::specs::Answers::numbered))]
    pub fn make(
        &mut self,
        array: &mut [u8],
        count: &[u8],
        byte: &[u8],
        out: &mut [u8],
        at: usize,
    ) -> usize
        requires { LiesIn self.old.size array.old }
        ensures { Roomed self.new.written self.new.size array.new (page out.new result) (showing (page out.old at) (room_of (take self.old.size array.old) count.now byte.now)) (position_of self.old.written count.now byte.now) }
    {
        let Some(n) = number_of(count, 70000) else {
            return error(out, at);
        };
        let Some(b) = number_of(byte, 255) else {
            return error(out, at);
        };
        copies(array, 0, n as usize, b as u8);
        *self = Room {
            written: 0,
            size: n as usize,
        };
        ok(out, at)
    }
}
