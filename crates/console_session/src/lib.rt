// A script comes in parts of any size: its lines are cut out of them and executed.
#![tactic(auto)]

ghost use Rattle.std.specs.Prelude.{◌≡◌, drop};
ghost use Rattle.console_text.specs.Text.{page};
ghost use Rattle.console_commands.specs.Holding.{arrays, Done};
ghost use Rattle.console_session.specs.Script.{answer_of, gathered, gather_from};

use console_chip::answers::error;
use console_commands::{Console, Executed, execute};
use console_text::line::{end_of, said};
use console_text::page::{byte, text};

// The longest line that is read; the line's array has two places more, for a carriage return and for one too many.
const LONGEST: usize = 200000;

// How far a line under way has come: its length in its array, the place in the part behind it, and whether it has ended.
// A flag beside a place: of a line that has not ended, too, `taken` tells how much of the part is gone.
#[derive(Clone, Copy)]
pub struct Reached {
    pub length: usize,
    pub taken: usize,
    pub ended: bool,
}

// Characters go to the line's array up to a newline or the part's end; those that find no room are left out.
pub fn gather(line: &mut [u8], length: usize, part: &[u8], from: usize) -> Reached
    ensures { gathered result line.new ≡ gather_from (page line.old length) (drop from part.now) from }
{
    let rest = &part[from.min(part.len())..];
    match rest.iter().position(|&b| b == b'\n') {
        Some(n) => Reached {
            length: text(line, length, &rest[..n]),
            taken: from + n + 1,
            ended: true,
        },
        None => Reached {
            length: text(line, length, rest),
            taken: from + rest.len(),
            ended: false,
        },
    }
}

// A whole line is answered; one that is too long is an error and does nothing.
pub fn answer(
    console: Console,
    line: &[u8],
    memory: &mut [u8],
    queue: &mut [u8],
    room: &mut [u8],
    spare: &mut [u8],
    out: &mut [u8],
    at: usize,
) -> Executed
    ensures { Done (answer_of line.now) console (arrays memory.old queue.old room.old spare.old) (page out.old at) result (arrays memory.new queue.new room.new spare.new) out.new }
{
    if LONGEST < end_of(line) {
        let next = error(out, at);
        let end = byte(out, next, b'\n');
        return Executed { console, at: end };
    }
    let n = said(line);
    execute(console, &line[0..n], memory, queue, room, spare, out, at)
}
