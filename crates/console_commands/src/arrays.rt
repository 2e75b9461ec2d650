// The commands on the memory, the device's queue and the device's room.
ghost use Rattle.std.specs.Prelude.{ℕ, List, [], ◌≡◌, length, take};
ghost use Rattle.console_text.specs.Text.{page, put};
ghost use Rattle.console_chip.specs.Answers.{ok_text, bytes_answer};
ghost use Rattle.console_arrays.specs.Arrays.{lent_of, lent_text, peek_text, changed, showing, held, feed_of, fill_of, room_of, position_of, Queued, Roomed};
ghost use Rattle.console_commands.specs.Holding.{holds, left, leaving};
ghost use Rattle.console_commands.specs.Doings.{arrays_do};
ghost use Rattle.console_commands.specs.Needs.{Standing, Lies, with_queue, with_room, with_lent};

use crate::Console;
use crate::holding::Executed;
use console_arrays::arrays::{lend, peek, poke};
use console_arrays::queue::Queue;
use console_arrays::room::Room;
use console_chip::answers::{bytes_said, ok};
use console_dump::dump;
use console_text::forms::ArrayCommand;

// The console with the queue, or the room, as it is next.
fn with_queue(console: Console, held: Queue, at: usize) -> Executed
    ensures { (result.console ≡ with_queue console result) × (result.console.start ≡ held.from) × (result.console.end ≡ held.to) × (result.at ≡ at) }
{
    let mut next = console;
    next.start = held.from;
    next.end = held.to;
    Executed { console: next, at }
}

fn with_room(console: Console, made: Room, at: usize) -> Executed
    ensures { (result.console ≡ with_room console result) × (result.console.written ≡ made.written) × (result.console.size ≡ made.size) × (result.at ≡ at) }
{
    let mut next = console;
    next.written = made.written;
    next.size = made.size;
    Executed { console: next, at }
}

fn fed(console: Console, queue: &mut [u8], one: &[u8], out: &mut [u8], at: usize) -> Executed
    requires { Lies console.start console.end (length queue.old) }
    ensures { (result.console ≡ with_queue console result) × Queued result.console.start result.console.end queue.new (page out.new result.at) (showing (page out.old at) (feed_of (held queue.old console.start console.end) one.now)) }
{
    let mut held = Queue {
        from: console.start,
        to: console.end,
    };
    let next = held.feed(queue, one, out, at);
    with_queue(console, held, next)
}

fn filled(
    console: Console,
    queue: &mut [u8],
    one: &[u8],
    two: &[u8],
    out: &mut [u8],
    at: usize,
) -> Executed
    requires { Lies console.start console.end (length queue.old) }
    ensures { (result.console ≡ with_queue console result) × Queued result.console.start result.console.end queue.new (page out.new result.at) (showing (page out.old at) (fill_of (held queue.old console.start console.end) one.now two.now)) }
{
    let mut held = Queue {
        from: console.start,
        to: console.end,
    };
    let next = held.fill(queue, one, two, out, at);
    with_queue(console, held, next)
}

fn roomed(
    console: Console,
    room: &mut [u8],
    one: &[u8],
    two: &[u8],
    out: &mut [u8],
    at: usize,
) -> Executed
    requires { Lies console.written console.size (length room.old) }
    ensures { (result.console ≡ with_room console result) × Roomed result.console.written result.console.size room.new (page out.new result.at) (showing (page out.old at) (room_of (take console.size room.old) one.now two.now)) (position_of console.written one.now two.now) }
{
    let mut made = Room {
        written: console.written,
        size: console.size,
    };
    let next = made.make(room, one, two, out, at);
    with_room(console, made, next)
}

fn room_shown(
    console: Console,
    room: &[u8],
    one: &[u8],
    two: &[u8],
    out: &mut [u8],
    at: usize,
) -> Executed
    requires { Lies console.written console.size (length room.now) }
    ensures { (result.console ≡ console) × (page out.new result.at ≡ put (page out.old at) (peek_text (take console.size room.now) one.now two.now)) }
{
    let size = console.size;
    let next = peek(&room[0..size], one, two, out, at);
    Executed { console, at: next }
}

fn queue_shown(console: Console, queue: &[u8], out: &mut [u8], at: usize) -> Executed
    requires { Lies console.start console.end (length queue.now) }
    ensures { (result.console ≡ console) × (page out.new result.at ≡ put (page out.old at) (bytes_answer (held queue.now console.start console.end))) }
{
    let from = console.start;
    let to = console.end;
    let next = bytes_said(out, at, &queue[from..to]);
    Executed { console, at: next }
}

fn emptied(console: Console, out: &mut [u8], at: usize) -> Executed
    ensures { (result.console ≡ with_queue console result) × ((queue : List ℕ) → Queued result.console.start result.console.end queue (page out.new result.at) (showing (page out.old at) (changed [] ok_text))) }
{
    let next = ok(out, at);
    with_queue(console, Queue { from: 0, to: 0 }, next)
}

fn lent(console: Console, one: &[u8], out: &mut [u8], at: usize) -> Executed
    ensures { (result.console ≡ with_lent console (lent_of console.lent one.now)) × (page out.new result.at ≡ put (page out.old at) (lent_text one.now)) }
{
    let mut next = console;
    let end = lend(&mut next.lent, one, out, at);
    Executed {
        console: next,
        at: end,
    }
}

pub(crate) fn on_arrays(
    console: Console,
    command: ArrayCommand,
    one: &[u8],
    two: &[u8],
    memory: &mut [u8],
    queue: &mut [u8],
    room: &mut [u8],
    out: &mut [u8],
    at: usize,
) -> Executed
    requires { Standing console (length memory.old) (length queue.old) (length room.old) }
    ensures { (left result memory.new queue.new room.new out.new ≡ leaving (page out.old at) (arrays_do command one.now two.now (holds console memory.old queue.old room.old))) × Standing result.console (length memory.old) (length queue.old) (length room.old) }
{
    match command {
        ArrayCommand::Memory => lent(console, one, out, at),
        ArrayCommand::Poke => {
            let next = poke(memory, one, two, out, at);
            Executed { console, at: next }
        }
        ArrayCommand::Peek => {
            let next = peek(memory, one, two, out, at);
            Executed { console, at: next }
        }
        ArrayCommand::Feed => fed(console, queue, one, out, at),
        ArrayCommand::Fill => filled(console, queue, one, two, out, at),
        ArrayCommand::Room => roomed(console, room, one, two, out, at),
        ArrayCommand::Out => room_shown(console, room, one, two, out, at),
        ArrayCommand::Dump => {
            let next = dump(memory, one, two, out, at);
            Executed { console, at: next }
        }
        ArrayCommand::Queue => queue_shown(console, queue, out, at),
        ArrayCommand::Empty => emptied(console, out, at),
    }
}
