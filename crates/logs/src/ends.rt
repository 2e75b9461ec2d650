// The transfer that ends a service: what it leaves.
ghost use Rattle.std.specs.Prelude.{◌≡◌, ◌<◌};
ghost use Rattle.am9517_service.specs.Ends.{finished, after_tc_or_eop};
ghost use Rattle.logs.specs.Judge.{next_run};
ghost use Rattle.logs.specs.ClosedRegisters.{Flowing, last_by};

use crate::registers::{registers_of, service_of, stepped_by, store_by, with_registers};
use am9517::Controller;
use am9517_service::{bits_after, bits_of, channel_after, is_copy};
use words::bits::with_bit;
use words::choice::when;

// A service of channel n over by TC or EOP.
#[tactic(auto, unfolding(am9517_service::specs::Ends::finished))]
fn finished(c: Controller, n: usize, tc: bool, eop: bool) -> Controller
    requires { n < 4 }
    ensures { result ≡ finished c n tc eop }
{
    let ch = c.channels[n];
    let bits = bits_after(c.edition, n, ch.mode, bits_of(c), tc, eop);
    let mut next = c;
    next.channels[n] = channel_after(ch);
    next.tc = bits.tc;
    next.request = bits.request;
    next.mask = bits.mask;
    next.ended()
}

// The service of channel i over by TC or EOP: in memory-to-memory it is channel 1 that finishes.
#[tactic(auto, unfolding(am9517_service::specs::Ends::after_tc_or_eop, words::specs::Choice::when))]
fn after_tc_or_eop(c: Controller, i: usize, tc: bool, eop: bool) -> Controller
    requires { (i < 4) × (i ≡ c.serving) }
    ensures { result ≡ after_tc_or_eop c tc eop }
{
    if is_copy(c) {
        let mut next = c;
        next.request = with_bit(c.request, 0, false);
        return finished(next, 1, tc, eop);
    }
    finished(c, i, tc, eop)
}

// What a transfer leaves that has made this of the controller, by what it meets.
#[tactic(auto, unfolding(words::specs::Choice::when))]
fn last_by(c: Controller, i: usize, tc: bool, eop: bool, once: bool) -> Controller
    requires { (i < 4) × (i ≡ c.serving) }
    ensures { result ≡ last_by c tc eop once }
{
    if tc | eop {
        return after_tc_or_eop(c, i, tc, eop);
    }
    if once {
        return c.ended();
    }
    c
}

// The transfer of this byte, or in memory-to-memory of the one at the first address, and the end that it meets.
pub(crate) fn make_last(
    c: Controller,
    i: usize,
    memory: &mut [u8],
    byte: u8,
    eop: bool,
) -> Controller
    requires { (i < 4) × (i ≡ c.serving) × Flowing c memory.old }
    ensures value { result ≡ (next_run c memory.old byte eop).world.controller }
    ensures memory { memory.new ≡ (next_run c memory.old byte eop).world.memory }
{
    let s = service_of(c, i);
    let g = registers_of(c, i);
    let here = memory[g.address as usize];
    let moved = when(s.kind == 3, here, byte);
    store_by(s, g, memory, moved);
    let next = with_registers(c, i, stepped_by(s, g, moved));
    last_by(next, i, g.count == 0, eop, s.once)
}
