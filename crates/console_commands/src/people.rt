// The commands for people: of their texts nothing is promised but that they are put on the page.
ghost use Rattle.console_text.specs.Text.{page};
ghost use Rattle.console_commands.specs.Needs.{Tells};

use crate::Console;
use console_board_show::show_board;
use console_chip::answers::error;
use console_show::{help, help_on, help_refusals, show, show_arrays, show_room};
use console_text::forms::PeopleCommand;
use console_text::line::same;
use console_text::page::text;

// What the controller and the board are lent.
fn show_others(console: Console, out: &mut [u8], at: usize) -> usize {
    let next = show_arrays(console.lent, console.start, console.end, out, at);
    show_room(console.written, console.size, out, next)
}

fn told(console: Console, command: PeopleCommand, one: &[u8], out: &mut [u8]) -> usize {
    match command {
        PeopleCommand::Show => {
            let c = console.controller;
            let next = show(c, out, 0);
            show_others(console, out, next)
        }
        PeopleCommand::BoardShow => {
            let b = console.board;
            let next = show_board(b, out, 0);
            show_others(console, out, next)
        }
        PeopleCommand::Help => help(out, 0),
        PeopleCommand::HelpOn => {
            if same(one, b"refusals") {
                return help_refusals(out, 0);
            }
            let next = help_on(one, out, 0);
            if next == 0 {
                return error(out, 0);
            }
            next
        }
    }
}

// They are written elsewhere first, so that they can touch nothing of the page.
pub(crate) fn on_people(
    console: Console,
    command: PeopleCommand,
    one: &[u8],
    spare: &mut [u8],
    out: &mut [u8],
    at: usize,
) -> usize
    ensures { Tells (page out.old at) (page out.new result) }
{
    let n = told(console, command, one, spare);
    if spare.len() < n {
        return at;
    }
    text(out, at, &spare[0..n])
}
