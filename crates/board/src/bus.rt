// Who gets the bus.
ghost use Rattle.std.specs.Prelude.{◌≡◌};
ghost use Rattle.board.specs.Bus.{winner_of, winner, quiet};

use crate::{Board, Chip};

// Of both that want it the one not granted last, else the one that wants it.
#[tactic(auto, unfolding(words::specs::Choice::when, crate::specs::Bus::winner_of))]
pub(crate) fn winner_of(last: u8, first: bool, second: bool) -> Chip
    ensures { result ≡ winner_of last first second }
{
    if first {
        if second {
            if last == 0 {
                return Chip::Second;
            }
        }
        return Chip::First;
    }
    Chip::Second
}

impl Board {
    pub(crate) fn winner(self) -> Chip
        ensures { result ≡ winner self }
    {
        winner_of(
            self.granted_last,
            self.first.picked() != 4,
            self.second.picked() != 4,
        )
    }

    // Nobody wants it.
    pub(crate) fn quiet(self) -> bool
        ensures { result ≡ quiet self }
    {
        (self.first.picked() == 4) & (self.second.picked() == 4)
    }
}
