// The ranges of a pair.
ghost use Rattle.std.specs.Prelude.{◌≡◌};
ghost use Rattle.board.specs.Ranges.{pair_valid, serves};

use crate::Board;

impl Board {
    pub fn valid(self) -> bool
        ensures { result ≡ pair_valid self }
    {
        let both = (self.first.in_service != 0) & (self.second.in_service != 0);
        self.first.valid() & (self.second.valid() & ((self.granted_last <= 1) & !both))
    }

    // One of the two is in service.
    pub(crate) fn serves(self) -> bool
        ensures { result ≡ serves self }
    {
        (self.first.in_service != 0) | (self.second.in_service != 0)
    }
}
