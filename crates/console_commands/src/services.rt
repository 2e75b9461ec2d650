// The commands run, round and judge, and those of the board: what they are lent, and what they leave.
ghost use Rattle.std.specs.Prelude.{◌≡◌, ◌≤◌, ◌/◌, length};
ghost use Rattle.console_text.specs.Text.{page};
ghost use Rattle.console_arrays.specs.Services.{served, serving};
ghost use Rattle.console_commands.specs.Holding.{holds, left, leaving};
ghost use Rattle.console_commands.specs.Doings.{further as Doings·further, service_reply, services_do, board_services_do};
ghost use Rattle.console_commands.specs.Needs.{Standing, after_service};

use crate::Console;
use crate::holding::Executed;
use am9517::Controller;
use console_arrays::judging::judge;
use console_arrays::runs::{Served, go_round, run};
use console_board::commands::serve_board;
use console_text::forms::{BoardServiceCommand, ServiceCommand};

// A place n further on, and not past the last.
fn further(from: usize, n: usize, last: usize) -> usize
    ensures { result ≡ Doings·further from n last }
{
    if last < from {
        return from;
    }
    if last - from < n {
        return last;
    }
    from + n
}

// The console after a service: the bytes used have left the queue, and those written are behind the write position.
fn after_service(console: Console, used: usize, written: usize) -> Console
    ensures { result ≡ after_service console console.controller console.board used written }
{
    let mut next = console;
    next.start = further(console.start, used, console.end);
    next.written = further(console.written, written, console.size);
    next
}

fn serve(
    c: Controller,
    command: ServiceCommand,
    memory: &mut [u8],
    device: &[u8],
    room: &mut [u8],
    one: &[u8],
    two: &[u8],
    spare: &mut [u8],
    out: &mut [u8],
    at: usize,
) -> Served<Controller>
    requires { length one.now / 2 ≤ length spare.old }
    ensures { served result memory.new room.new out.new ≡ serving (page out.old at) (service_reply command c memory.old device.now room.old one.now two.now) }
{
    match command {
        ServiceCommand::Run => run(c, memory, device, room, one, two, out, at),
        ServiceCommand::Round => go_round(c, memory, device, room, one, out, at),
        ServiceCommand::Judge => judge(c, memory, one, spare, out, at),
    }
}

// What is lent are the memory's front, the queue, and the room behind its write position.
pub(crate) fn on_services(
    console: Console,
    command: ServiceCommand,
    one: &[u8],
    two: &[u8],
    memory: &mut [u8],
    queue: &[u8],
    room: &mut [u8],
    spare: &mut [u8],
    out: &mut [u8],
    at: usize,
) -> Executed
    requires { Standing console (length memory.old) (length queue.now) (length room.old) × (length one.now / 2 ≤ length spare.old) }
    ensures { (left result memory.new queue.now room.new out.new ≡ leaving (page out.old at) (services_do command one.now two.now (holds console memory.old queue.now room.old))) × Standing result.console (length memory.old) (length queue.now) (length room.old) }
{
    let lent = console.lent;
    let from = console.start;
    let to = console.end;
    let written = console.written;
    let size = console.size;
    let c = console.controller;
    let front = &mut memory[0..lent];
    let device = &queue[from..to];
    let rest = &mut room[written..size];
    let done = serve(c, command, front, device, rest, one, two, spare, out, at);
    let mut next = after_service(console, done.used, done.written);
    next.controller = done.next;
    Executed {
        console: next,
        at: done.at,
    }
}

// The same parts are lent to the board. A function that handed the loans out would need starred clauses on how each comes back.
pub(crate) fn on_board_services(
    console: Console,
    command: BoardServiceCommand,
    one: &[u8],
    two: &[u8],
    memory: &mut [u8],
    queue: &[u8],
    room: &mut [u8],
    out: &mut [u8],
    at: usize,
) -> Executed
    requires { Standing console (length memory.old) (length queue.now) (length room.old) }
    ensures { (left result memory.new queue.now room.new out.new ≡ leaving (page out.old at) (board_services_do command one.now two.now (holds console memory.old queue.now room.old))) × Standing result.console (length memory.old) (length queue.now) (length room.old) }
{
    let lent = console.lent;
    let from = console.start;
    let to = console.end;
    let written = console.written;
    let size = console.size;
    let b = console.board;
    let front = &mut memory[0..lent];
    let device = &queue[from..to];
    let rest = &mut room[written..size];
    let done = serve_board(b, command, front, device, rest, one, two, out, at);
    let mut next = after_service(console, done.used, done.written);
    next.board = done.next;
    Executed {
        console: next,
        at: done.at,
    }
}
