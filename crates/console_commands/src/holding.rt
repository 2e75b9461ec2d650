// What the console holds after a line, and that it lies in the console's arrays.
ghost use Rattle.std.specs.Prelude.{◌≡◌, ◌++◌};
ghost use Rattle.console_text.specs.Text.{codes, page, put};
ghost use Rattle.console_chip.specs.Answers.{error_text};
ghost use Rattle.console_commands.specs.Holding.{stands as Holding·stands};
ghost use Rattle.console_commands.specs.Doings.{ending};

use crate::Console;
use console_chip::answers::error;
use console_text::page::byte;

// What the console holds after a line, and the place behind its answer.
#[derive(Clone, Copy)]
pub struct Executed {
    pub console: Console,
    pub at: usize,
}

// Whether what the console holds lies in arrays of these lengths.
pub(crate) fn stands(
    console: Console,
    memory: usize,
    queue: usize,
    room: usize,
    spare: usize,
) -> bool
    ensures { result ≡ Holding·stands console memory queue room spare }
{
    let lent = (console.lent <= memory) & (65537 <= memory);
    let queued = (console.start <= console.end) & ((console.end <= queue) & (70000 <= queue));
    let roomed = (console.written <= console.size) & ((console.size <= room) & (70000 <= room));
    lent & (queued & (roomed & (100000 <= spare)))
}

// The end of an answer: a line of no name has none.
pub(crate) fn newline(name: &[u8], out: &mut [u8], at: usize) -> usize
    ensures { page out.new result ≡ put (page out.old at) (ending name.now) }
{
    if name.len() == 0 {
        return at;
    }
    byte(out, at, b'\n')
}

// The whole answer of a line that can't be done.
pub(crate) fn error_line(out: &mut [u8], at: usize) -> usize
    ensures { page out.new result ≡ put (page out.old at) (error_text ++ codes "\n") }
{
    let next = error(out, at);
    byte(out, next, b'\n')
}
