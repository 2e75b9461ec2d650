// The commands on the board.
ghost use Rattle.std.specs.Prelude.{◌≤◌, ◌/◌, ◌≡◌, length};
ghost use Rattle.console_text.specs.Text.{page, put};
ghost use Rattle.console_board.specs.Commands.{board_reply};
ghost use Rattle.console_commands.specs.Needs.{with_board};

use crate::Console;
use crate::holding::Executed;
use console_board::commands::board_said;
use console_text::forms::BoardCommand;

// The twin of chip::on_chip: one function of both would be lent the field to set and the function to call, and is no shorter.
pub(crate) fn on_board(
    console: Console,
    command: BoardCommand,
    one: &[u8],
    two: &[u8],
    three: &[u8],
    spare: &mut [u8],
    out: &mut [u8],
    at: usize,
) -> Executed
    requires { (70000 ≤ length spare.old) × (length three.now / 2 ≤ length spare.old) }
    ensures { (result.console ≡ with_board console (board_reply command console.board one.now two.now three.now).next) × (page out.new result.at ≡ put (page out.old at) (board_reply command console.board one.now two.now three.now).text) }
{
    let done = board_said(console.board, command, one, two, three, spare, out, at);
    Executed {
        console: Console {
            board: done.next,
            ..console
        },
        at: done.at,
    }
}
