// The two controllers of the board: which is which, and what one of them leaves of the pair.
ghost use Rattle.std.specs.Prelude.{◌≡◌, ◌≤◌, None, Ok, Err};
ghost use Rattle.board.specs.Chips.{number_of, chip, with_chip, addressed, channel_of};
ghost use Rattle.board.specs.Bus.{turned_to};

use crate::{Board, BoardOutcome, Chip};
use am9517::{Controller, Outcome, Refusal};
use words::choice::when;

// Its number, which is what the byte of the arbiter says.
impl From<Chip> for u8 {
    ghost from_gives = { λ which n. n ≡ number_of which };

    fn from(which: Chip) -> u8 {
        match which {
            Chip::First => 0,
            Chip::Second => 1,
        }
    }
}

// The controller that bit 4 of a register number picks.
#[tactic(auto, unfolding(crate::specs::Chips::addressed))]
pub(crate) fn addressed(reg: u32) -> Chip
    ensures { result ≡ addressed reg }
{
    when(reg / 16 % 2 == 0, Chip::First, Chip::Second)
}

// Channel n of a chip, as one of eight.
pub(crate) fn channel_of(which: Chip, n: u8) -> u8
    requires { n ≤ 4 }
    ensures { result ≡ channel_of which n }
{
    4 * u8::from(which) + n
}

impl Board {
    pub(crate) fn chip_of(self, which: Chip) -> Controller
        ensures { result ≡ chip self which }
    {
        match which {
            Chip::First => self.first,
            Chip::Second => self.second,
        }
    }

    pub(crate) fn with_chip(self, which: Chip, c: Controller) -> Board
        ensures { result ≡ with_chip self which c }
    {
        let mut next = self;
        match which {
            Chip::First => next.first = c,
            Chip::Second => next.second = c,
        }
        next
    }

    // This chip as c, and granted last.
    pub(crate) fn turned_to(self, which: Chip, c: Controller) -> Board
        ensures { result ≡ turned_to self which c }
    {
        let mut next = self.with_chip(which, c);
        next.granted_last = u8::from(which);
        next
    }
}

pub(crate) fn refused(b: Board, refusal: Refusal) -> BoardOutcome
    ensures { result ≡ record { board = b; answer = Err refusal } }
{
    BoardOutcome {
        board: b,
        answer: Err(refusal),
    }
}

// What one controller did and said, on the board.
pub(crate) fn carried(b: Board, which: Chip, done: Outcome) -> BoardOutcome
    ensures { result ≡ record { board = with_chip b which done.controller; answer = done.answer } }
{
    let c = done.controller;
    let answer = done.answer;
    BoardOutcome {
        board: b.with_chip(which, c),
        answer,
    }
}

// What both did, where nothing is said but that it is done.
pub(crate) fn settled(first: Outcome, second: Outcome, granted_last: u8) -> BoardOutcome
    ensures { result ≡ record { board = record { first = first.controller; second = second.controller; granted_last = granted_last }; answer = Ok None } }
{
    let one = first.controller;
    let two = second.controller;
    let board = Board {
        first: one,
        second: two,
        granted_last,
    };
    BoardOutcome {
        board,
        answer: Ok(None),
    }
}
