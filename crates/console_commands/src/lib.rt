// The commands of a line, on all that the console holds.
#![tactic(auto)]

ghost use Rattle.std.specs.Prelude.{◌≡◌};
ghost use Rattle.console_commands.specs.Holding.{fresh_console};

use am9517::{Controller, Edition};
use board::Board;

mod arrays;
mod board_commands;
mod chip;
mod command;
mod holding;
mod people;
mod services;

pub use command::execute;
pub use holding::Executed;

// What the console holds beside its arrays: the controller; the board; how many bytes of memory are lent; where the queue begins and
// ends in its array; the room's size and its write position.
// Plain numbers, and no Queue and Room: `execute` takes any, and answers `error` where they do not stand in order.
#[derive(Clone, Copy)]
pub struct Console {
    pub controller: Controller,
    pub board: Board,
    pub lent: usize,
    pub start: usize,
    pub end: usize,
    pub size: usize,
    pub written: usize,
}

impl Console {
    pub fn fresh() -> Console
        ensures { result ≡ fresh_console }
    {
        let controller = Controller::fresh(Edition::Am9517A);
        let board = Board::fresh(Edition::Am9517A, Edition::Am9517A);
        Console {
            controller,
            board,
            lent: 65536,
            start: 0,
            end: 0,
            size: 0,
            written: 0,
        }
    }
}
