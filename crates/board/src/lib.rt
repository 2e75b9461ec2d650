// The 7009 board: two controllers, eight lines, one memory, and the arbiter between them. Above the controller's crates, of which it sees
// what their public functions promise. Each operation takes the board by value and hands the next one back.
#![tactic(auto)]

ghost use Rattle.std.specs.Prelude.{◌≡◌};
ghost use Rattle.am9517.specs.Editions.{number_of};
ghost use Rattle.am9517.specs.Refusals.{refusal};
ghost use Rattle.am9517.specs.Answers.{refusal_number};
ghost use Rattle.board.specs.Chips.{fresh_board};
ghost use Rattle.board.specs.Refusals.{board_write_grounds, board_read_grounds, board_pins_grounds, board_reset_grounds, board_waits_grounds, board_grant_grounds};
ghost use Rattle.board.specs.Answers.{board_write_of, board_read_of, board_pins_of, board_reset_of, board_waits_of, board_grant_of};

use crate::chips::{carried, channel_of, refused, settled};
use am9517::{Answer, Controller, Edition};
use am9517_service::{Counts, RoundAnswer, RunAnswer};
use am9517_sheet::SheetAnswer;

mod access;
mod bus;
mod chips;
mod ranges;
mod refusals;
mod rounds;
mod runs;
mod sheets;

pub use rounds::round;
pub use runs::run;
pub use sheets::{read_sheet, write_sheet};

// The byte of the arbiter is the number of the controller granted last: 0 the first, 1 the second.
#[repr(C)]
#[derive(Clone, Copy)]
pub struct Board {
    pub first: Controller,
    pub second: Controller,
    pub granted_last: u8,
}

// Which of the two.
#[derive(Clone, Copy, PartialEq, Eq)]
pub enum Chip {
    First,
    Second,
}

// The next board, which is the old one where the answer is a refusal.
#[derive(Clone, Copy)]
pub struct BoardOutcome {
    pub board: Board,
    pub answer: Answer,
}

// The next board, the answer, and what was counted; after a refusal the board as it was, and zeros.
#[derive(Clone, Copy)]
pub struct BoardRan {
    pub board: Board,
    pub answer: RunAnswer,
    pub counts: Counts,
}

// The next board, the answer, the services begun per channel of the eight, and the totals.
#[derive(Clone, Copy)]
pub struct BoardRounded {
    pub board: Board,
    pub answer: RoundAnswer,
    pub services: [u32; 8],
    pub totals: Counts,
}

// The board with the state that was read, which is the old one where the answer is a refusal.
#[derive(Clone, Copy)]
pub struct BoardSheetRead {
    pub board: Board,
    pub answer: SheetAnswer,
}

impl Board {
    // Fresh controllers of these editions; the first is first.
    pub fn fresh(first: Edition, second: Edition) -> Board
        ensures { result ≡ fresh_board (number_of first) (number_of second) }
    {
        let one = Controller::fresh(first);
        let two = Controller::fresh(second);
        Board {
            first: one,
            second: two,
            granted_last: 1,
        }
    }

    // A byte is written to a register of the controller that bit 4 picks.
    pub fn write(self, reg: u32, byte: u8) -> BoardOutcome
        ensures { (result ≡ board_write_of self reg byte) × (refusal_number result.answer ≡ refusal (board_write_grounds self reg byte)) }
    {
        self.accessed(reg, |c| c.write(reg % 16, byte))
    }

    // A register of the controller that bit 4 picks is read.
    pub fn read(self, reg: u32) -> BoardOutcome
        ensures { (result ≡ board_read_of self reg) × (refusal_number result.answer ≡ refusal (board_read_grounds self reg)) }
    {
        self.accessed(reg, |c| c.read(reg % 16))
    }

    // The eight lines take these levels.
    pub fn pins(self, levels: u32) -> BoardOutcome
        ensures { (result ≡ board_pins_of self levels) × (refusal_number result.answer ≡ refusal (board_pins_grounds self levels)) }
    {
        if let Some(refusal) = self.pins_refusal(levels) {
            return refused(self, refusal);
        }
        let first = self.first.pins(levels % 16);
        let second = self.second.pins(levels / 16);
        settled(first, second, self.granted_last)
    }

    // Both controllers, and the arbiter.
    pub fn reset(self) -> BoardOutcome
        ensures { (result ≡ board_reset_of self) × (refusal_number result.answer ≡ refusal (board_reset_grounds self)) }
    {
        if let Some(refusal) = self.reset_refusal() {
            return refused(self, refusal);
        }
        let first = self.first.reset();
        let second = self.second.reset();
        settled(first, second, 1)
    }

    // The memory cards hold each transfer of this controller for so many states more.
    pub fn waits(self, which: Chip, states: u8) -> BoardOutcome
        ensures { (result ≡ board_waits_of self which states) × (refusal_number result.answer ≡ refusal (board_waits_grounds self which)) }
    {
        if let Some(refusal) = self.idle_refusal() {
            return refused(self, refusal);
        }
        let c = self.chip_of(which);
        carried(self, which, c.waits(states))
    }

    // The service of the controller that gets the bus begins; the channel is one of eight.
    pub fn grant(self) -> BoardOutcome
        ensures { (result ≡ board_grant_of self) × (refusal_number result.answer ≡ refusal (board_grant_grounds self)) }
    {
        if let Some(refusal) = self.grant_refusal() {
            return refused(self, refusal);
        }
        let which = self.winner();
        let c = self.chip_of(which);
        let n = c.picked();
        let done = c.grant();
        let next = done.controller;
        let board = self.turned_to(which, next);
        BoardOutcome {
            board,
            answer: Ok(Some(channel_of(which, n))),
        }
    }
}
