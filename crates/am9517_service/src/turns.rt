// One service of a round at a time, for rounds over several controllers.
ghost use Rattle.std.specs.Prelude.{◌≡◌, true, List, ℕ, ◌+◌, ◌^◌, ◌≤◌, ◌<◌, length};
ghost use Rattle.am9517.specs.Ranges.{valid};
ghost use Rattle.am9517.specs.Serving.{picked};
ghost use Rattle.am9517_service.specs.Turns.{rota_of, served_given, served_of, Ready, Serves};
ghost use Rattle.am9517_service.specs.ClosedRounds.{turned_of};
ghost use Rattle.am9517_service.specs.Bounds.{most_transfers, most_states};
ghost use Rattle.am9517_service.specs.Needs.{Chosen};

use crate::copies::{copy_bytes, copy_leg};
use crate::rounds::{
    Facts, Turn, bounded, bounded_channel, facts_of, nexts_after, nexts_of, settled, stepped,
    transfer_alone, turn_of,
};
use crate::runs::{bits_of, copied_counts, stays_open};
use crate::spans::span_of;
use crate::{Counts, Reason};
use am9517::Controller;
use am9517::modes::is_single;
use words::bits::bit;
use words::choice::when;

// A controller at rest between two services of a round, and beside it what its command, pins, modes and bits tell.
#[derive(Clone, Copy)]
pub struct Rota {
    pub controller: Controller,
    pub facts: Facts,
    pub nexts: [u8; 4],
}

// A service: the rota behind it, why it stopped, and the counts with it.
#[derive(Clone, Copy)]
pub struct Served {
    pub rota: Rota,
    pub why: Reason,
    pub counts: Counts,
}

pub fn rota_of(c: Controller) -> Rota
    ensures { result ≡ rota_of c }
{
    let facts = facts_of(c);
    Rota {
        controller: c,
        facts,
        nexts: nexts_of(facts, c.mask, c.request),
    }
}

// Who is served next; 4 where nobody is entitled.
pub fn next_of(rota: Rota) -> u8
    requires { (rota ≡ rota_of rota.controller) × (valid rota.controller ≡ true) }
    ensures { (result ≡ picked rota.controller) × (result ≤ 4) }
{
    let last = rota.controller.lowest as usize;
    let nexts = rota.nexts;
    nexts[last]
}

// A service that leaves this.
fn behind(
    controller: Controller,
    facts: Facts,
    nexts: [u8; 4],
    why: Reason,
    counts: Counts,
) -> Served
    ensures { result ≡ record { rota = record { controller = controller; facts = facts; nexts = nexts }; why = why; counts = counts } }
{
    Served {
        rota: Rota {
            controller,
            facts,
            nexts,
        },
        why,
        counts,
    }
}

// A service of memory-to-memory, up to its end; i is channel 0.
fn serve_copy(rota: Rota, i: usize, was: Counts, memory: &mut [u8]) -> Served
    requires { Chosen rota i × (i ≡ rota.facts.copier) × (length memory.old ≡ 65536) × (was.transfers + most_transfers < 2 ^ 64) × (was.states + most_states < 2 ^ 64) }
    ensures { (d r : List ℕ) → served_given result memory.new r ≡ served_of rota.controller was memory.old d r }
{
    let f = rota.facts;
    let mut next = rota.controller;
    let before = rota.nexts;
    let b = bits_of(next);
    let source = bounded_channel(next.channels[i]);
    let target = bounded_channel(next.channels[1]);
    let m = target.count as u64 + 1;
    let u = copy_leg(next.edition, source, target, b, f.hold, m, 0);
    let from = u.source;
    let to = u.target;
    next.temporary = copy_bytes(source, target, f.hold, memory, m);
    next.channels[i] = from;
    next.channels[1] = to;
    next.tc = u.bits.tc;
    next.request = u.bits.request;
    next.mask = u.bits.mask;
    next.lowest = when(f.rotating, i as u8, next.lowest);
    let counts = copied_counts(was, m, f.waits);
    let nexts = nexts_after(f, before, b, next.mask, next.request);
    behind(next, f, nexts, Reason::Ended, counts)
}

// The service of channel i whose leg left u and stopped so.
fn turned(rota: Rota, i: usize, u: Turn, why: Reason) -> Served
    requires { Chosen rota i }
    ensures { result ≡ turned_of rota i u why }
{
    let f = rota.facts;
    let mut s = rota.controller;
    let before = rota.nexts;
    let b = bits_of(s);
    let stays = stays_open(why);
    let there = u.channel;
    let counts = u.counts;
    s.channels[i] = there;
    s.tc = u.bits.tc;
    s.request = u.bits.request;
    s.mask = u.bits.mask;
    s.latch_full = when(stays, 1, 0);
    s.latch = when(stays, u.latch, 0);
    let nexts = nexts_after(f, before, b, s.mask, s.request);
    behind(settled(s, i, f.rotating, stays), f, nexts, why, counts)
}

// A service of channel i for its device, up to where its first leg stops.
fn serve_leg(
    rota: Rota,
    i: usize,
    was: Counts,
    memory: &mut [u8],
    device: &[u8],
    room: &mut [u8],
) -> Served
    requires { Ready rota was memory.old device.now room.old × Chosen rota i × (i ≡ rota.facts.copier → ⊥) }
    ensures { served_given result memory.new room.new ≡ served_of rota.controller was memory.old device.now room.old }
{
    let f = rota.facts;
    let s = rota.controller;
    let nexts = rota.nexts;
    let ch = bounded_channel(s.channels[i]);
    let active = bit(s.pins, i) != bit(s.command, 6);
    let bytes = device.len() - was.used;
    let space = room.len() - was.written;
    let l = span_of(ch, active, bytes, space, 65536, 0);
    let why = l.why;
    let n = l.transfers;
    if n == 0 {
        return behind(
            settled(s, i, f.rotating, stays_open(why)),
            f,
            nexts,
            why,
            was,
        );
    }
    let b = bits_of(s);
    let u = turn_of(s.edition, f.pace, i, ch, n, b, was, memory, device, room);
    turned(rota, i, u, why)
}

// The service of the channel that is next, granted and run.
pub fn serve(rota: Rota, was: Counts, memory: &mut [u8], device: &[u8], room: &mut [u8]) -> Served
    requires { Ready rota was memory.old device.now room.old }
    ensures { (served_given result memory.new room.new ≡ served_of rota.controller was memory.old device.now room.old) × Serves rota was device.now (length room.old) result memory.new room.new }
{
    let f = rota.facts;
    let mut s = rota.controller;
    let nexts = rota.nexts;
    let last = s.lowest as usize;
    let i = nexts[last] as usize;
    let mode = s.channels[i].mode;
    let count = bounded(s.channels[i].count);
    let address = bounded(s.channels[i].address);
    let may = is_single(mode) & ((count != 0) & (i != f.copier));
    let Some(moved) = transfer_alone(may, mode, address, was, memory, device, room) else {
        if i == f.copier {
            return serve_copy(rota, i, was, memory);
        }
        return serve_leg(rota, i, was, memory, device, room);
    };
    s.channels[i] = stepped(s.channels[i]);
    s.lowest = when(f.rotating, i as u8, s.lowest);
    let counts = Counts {
        transfers: was.transfers + 1,
        used: moved.used,
        written: moved.written,
        states: was.states + f.pace + 1,
    };
    behind(s, f, nexts, Reason::Ended, counts)
}
