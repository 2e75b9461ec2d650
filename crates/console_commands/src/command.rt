// One line: what it does to what the console holds, and its answer.
ghost use Rattle.std.specs.Prelude.{ℕ, ◌≤◌, List, length};
ghost use Rattle.console_text.specs.Text.{page};
ghost use Rattle.console_commands.specs.Holding.{holds, left, arrays, Done};
ghost use Rattle.console_commands.specs.Doings.{does, execute_of};
ghost use Rattle.console_commands.specs.Needs.{Standing, ForSome};

use crate::Console;
use crate::arrays::on_arrays;
use crate::board_commands::on_board;
use crate::chip::on_chip;
use crate::holding::{Executed, error_line, newline, stands};
use crate::people::on_people;
use crate::services::{on_board_services, on_services};
use console_chip::answers::error;
use console_text::forms::{Command, command_of};
use console_text::line::words_in;

// The longest line, in characters.
const LONGEST: usize = 200000;

// Each command's own contract names the words and arrays that it is given, so they go one by one, as in `execute`'s.
fn perform(
    console: Console,
    command: Command,
    one: &[u8],
    two: &[u8],
    three: &[u8],
    memory: &mut [u8],
    queue: &mut [u8],
    room: &mut [u8],
    spare: &mut [u8],
    out: &mut [u8],
    at: usize,
) -> Executed
    requires { Standing console (length memory.old) (length queue.old) (length room.old) × (100000 ≤ length spare.old) × (length one.now ≤ 200000) × (length three.now ≤ 200000) }
    ensures { ForSome (left result memory.new queue.new room.new out.new) (λ (shown : List ℕ). does shown command one.now two.now three.now (holds console memory.old queue.old room.old)) (page out.old at) × Standing result.console (length memory.old) (length queue.old) (length room.old) }
{
    match command {
        Command::Nothing => Executed { console, at },
        Command::Chip(k) => on_chip(console, k, one, two, spare, out, at),
        Command::Arrays(k) => on_arrays(console, k, one, two, memory, queue, room, out, at),
        Command::Services(k) => {
            on_services(console, k, one, two, memory, queue, room, spare, out, at)
        }
        Command::Board(k) => on_board(console, k, one, two, three, spare, out, at),
        Command::BoardServices(k) => {
            on_board_services(console, k, one, two, memory, queue, room, out, at)
        }
        Command::People(k) => {
            let next = on_people(console, k, one, spare, out, at);
            Executed { console, at: next }
        }
        Command::Unknown => {
            let next = error(out, at);
            Executed { console, at: next }
        }
    }
}

// What a line says, without comment and carriage return. A line of no words has no answer, any other one line of it;
// only what is for people tells more.
pub fn execute(
    console: Console,
    line: &[u8],
    memory: &mut [u8],
    queue: &mut [u8],
    room: &mut [u8],
    spare: &mut [u8],
    out: &mut [u8],
    at: usize,
) -> Executed
    ensures { Done (execute_of line.now) console (arrays memory.old queue.old room.old spare.old) (page out.old at) result (arrays memory.new queue.new room.new spare.new) out.new }
{
    if !stands(console, memory.len(), queue.len(), room.len(), spare.len()) {
        let next = error_line(out, at);
        return Executed { console, at: next };
    }
    if LONGEST < line.len() {
        let next = error_line(out, at);
        return Executed { console, at: next };
    }
    let words = words_in(line);
    let name_from = words.name.from;
    let name_to = words.name.to;
    let one_from = words.one.from;
    let one_to = words.one.to;
    let two_from = words.two.from;
    let two_to = words.two.to;
    let three_from = words.three.from;
    let three_to = words.three.to;
    let name = &line[name_from..name_to];
    let one = &line[one_from..one_to];
    let two = &line[two_from..two_to];
    let three = &line[three_from..three_to];
    let command = command_of(name, words.count);
    let done = perform(
        console, command, one, two, three, memory, queue, room, spare, out, at,
    );
    let next = done.console;
    let end = newline(name, out, done.at);
    Executed {
        console: next,
        at: end,
    }
}
