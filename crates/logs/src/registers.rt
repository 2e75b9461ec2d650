// A service between two transfers: what stays, and the registers that its transfers step. As numbers beside the controller, they stay out
// of the memory in a loop.
ghost use Rattle.std.specs.Prelude.{◌≡◌, ◌<◌, length};
ghost use Rattle.logs.specs.ClosedRegisters.{service_of, registers_of, with_registers, stepped_by, stored_by, flows};

use am9517::Controller;
use am9517::modes::{
    address_hold, autoinitialize, decrement, is_cascade, is_demand, is_read, is_single, is_write,
};
use am9517_service::is_copy;
use words::bytes::high_byte;
use words::choice::when;
use words::steps::step;

// What stays over a service.
#[derive(Clone, Copy)]
pub struct Service {
    pub channel: u8,
    pub kind: u8,
    pub once: bool,
    pub hold: bool,
    pub again: bool,
    pub down: bool,
    pub to_down: bool,
    pub base_address: u16,
    pub base_count: u16,
}

// What its transfers step: the first address, the count that TC goes by, and in memory-to-memory the second address and channel 0's
// count, which else are 0; and what they leave in the temporary byte and in the latch.
#[derive(Clone, Copy)]
pub struct Registers {
    pub address: u16,
    pub count: u16,
    pub second: u16,
    pub source: u16,
    pub temporary: u8,
    pub latch_full: u8,
    pub latch: u8,
}

// The service of channel i.
#[tactic(auto, unfolding(crate::specs::Record::kind_of, am9517_service::specs::Ends::single))]
pub(crate) fn service_of(c: Controller, i: usize) -> Service
    requires { (i < 4) × (i ≡ c.serving) }
    ensures { result ≡ service_of c }
{
    let ch = c.channels[i];
    let second = c.channels[1];
    let copies = is_copy(c);
    let device = when(is_write(ch.mode), 1, when(is_read(ch.mode), 2, 0));
    Service {
        channel: c.serving,
        kind: when(copies, 3, device),
        once: !copies & is_single(ch.mode),
        hold: address_hold(c.command),
        again: autoinitialize(ch.mode),
        down: decrement(ch.mode),
        to_down: decrement(second.mode),
        base_address: ch.base_address,
        base_count: ch.base_count,
    }
}

// The registers of a service of channel i.
pub(crate) fn registers_of(c: Controller, i: usize) -> Registers
    requires { (i < 4) × (i ≡ c.serving) }
    ensures { result ≡ registers_of c }
{
    let ch = c.channels[i];
    let second = c.channels[1];
    let copies = is_copy(c);
    Registers {
        address: ch.address,
        count: when(copies, second.count, ch.count),
        second: when(copies, second.address, 0),
        source: when(copies, ch.count, 0),
        temporary: c.temporary,
        latch_full: c.latch_full,
        latch: c.latch,
    }
}

// The controller, serving channel i, with these registers.
#[tactic(auto, unfolding(words::specs::Choice::when))]
pub(crate) fn with_registers(c: Controller, i: usize, g: Registers) -> Controller
    requires { (i < 4) × (i ≡ c.serving) }
    ensures { result ≡ with_registers c g }
{
    let mut ch = c.channels[i];
    let mut second = c.channels[1];
    ch.address = g.address;
    let copies = is_copy(c);
    ch.count = when(copies, g.source, g.count);
    second.address = g.second;
    second.count = g.count;
    let mut next = c;
    next.temporary = g.temporary;
    next.latch_full = g.latch_full;
    next.latch = g.latch;
    next.channels[i] = ch;
    if copies {
        next.channels[1] = second;
    }
    next
}

// The registers after a transfer of this byte that does not end the service.
#[tactic(auto, unfolding(crate::specs::ClosedRegisters::stepped_by, words::specs::Choice::when))]
pub(crate) fn stepped_by(s: Service, g: Registers, byte: u8) -> Registers
    ensures { result ≡ stepped_by s g byte }
{
    let stepped = step(g.address, s.down);
    let count = step(g.count, true);
    if s.kind == 3 {
        let passed = (g.source == 0) & s.again;
        let on = when(s.hold, g.address, stepped);
        return Registers {
            address: when(passed, s.base_address, on),
            count,
            second: step(g.second, s.to_down),
            source: when(passed, s.base_count, step(g.source, true)),
            temporary: byte,
            latch_full: g.latch_full,
            latch: g.latch,
        };
    }
    Registers {
        address: stepped,
        count,
        second: g.second,
        source: g.source,
        temporary: g.temporary,
        latch_full: 1,
        latch: high_byte(g.address),
    }
}

// The byte of that transfer is stored, where it goes to the memory.
#[tactic(auto, unfolding(crate::specs::ClosedRegisters::stored_by, words::specs::Choice::when))]
pub(crate) fn store_by(s: Service, g: Registers, memory: &mut [u8], byte: u8)
    requires { length memory.old ≡ 65536 }
    ensures { memory.new ≡ stored_by s g memory.old byte }
{
    let address = g.address as usize;
    let to = g.second as usize;
    if s.kind == 1 {
        memory[address] = byte;
    } else if s.kind == 3 {
        memory[to] = byte;
    }
}

// The rules make a transfer next, whatever the device gives, in an open service of channel i.
#[tactic(auto, unfolding(crate::specs::ClosedRegisters::flows, am9517_service::specs::Stops::dropped))]
pub(crate) fn flows(c: Controller, i: usize) -> bool
    requires { (i < 4) × (i ≡ c.serving) }
    ensures { result ≡ flows c }
{
    let mode = c.channels[i].mode;
    let cascade = is_cascade(mode);
    let dropped = (is_demand(mode) | cascade) & !c.active(i);
    is_copy(c) | !(dropped | cascade)
}
