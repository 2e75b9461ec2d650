// A run of the open service.
ghost use Rattle.std.specs.Prelude.{◌≡◌, true, Ok, Err, List, ℕ, ◌+◌, ◌*◌, ◌^◌, ◌≤◌, ◌<◌, length};
ghost use Rattle.words.specs.Choice.{when};
ghost use Rattle.am9517.specs.State.{ended};
ghost use Rattle.am9517.specs.Fields.{channel};
ghost use Rattle.am9517.specs.Refusals.{refused, refusal};
ghost use Rattle.am9517_service.specs.Counts.{counts, none, plus};
ghost use Rattle.am9517_service.specs.World.{memory_to_memory, start_of, stop};
ghost use Rattle.am9517_service.specs.States.{pace, copy_pace, needs_s1};
ghost use Rattle.am9517_service.specs.Bounds.{most_pace, most_copy_pace, most_transfers, most_states};
ghost use Rattle.am9517_service.specs.Transfer.{writes, reads};
ghost use Rattle.am9517_service.specs.Ends.{bits_of};
ghost use Rattle.am9517_service.specs.Run.{run_of};
ghost use Rattle.am9517_service.specs.Answers.{given, run_refusal_number, stopped, run_grounds, ran_of};
ghost use Rattle.am9517_service.specs.ClosedLegs.{counts_of, leg_of, after_leg};
ghost use Rattle.am9517_service.specs.ClosedSpans.{stays_open};
ghost use Rattle.am9517_service.specs.ClosedCopies.{after_copy};

use crate::bytes::move_bytes;
use crate::copies::{Copied, copy_bytes, copy_leg};
use crate::legs::{Bits, Leg, leg_of};
use crate::spans::{copy_span, span_of};
use crate::transfers::{needs_s1, sixteen_bits};
use crate::{Counts, Ran, Reason};
use am9517::modes::{address_hold, compressed, is_read, is_write, memory_to_memory_bit};
use am9517::{Channel, Controller, Refusal};
use words::choice::when;

pub(crate) fn no_counts() -> Counts
    ensures { result ≡ none }
{
    Counts {
        transfers: 0,
        used: 0,
        written: 0,
        states: 0,
    }
}

// The counts with n transfers of a channel in this mode.
pub(crate) fn counted(was: Counts, ch: Channel, n: u64, states: u64) -> Counts
    requires { (was.transfers + n < 2 ^ 64) × (was.used + when (writes ch) n 0 < 2 ^ 64) × (was.written + when (reads ch) n 0 < 2 ^ 64) × (was.states + states < 2 ^ 64) }
    ensures { result ≡ plus was (counts_of ch n states) }
{
    let size = n as usize;
    Counts {
        transfers: was.transfers + n,
        used: was.used + when(is_write(ch.mode), size, 0),
        written: was.written + when(is_read(ch.mode), size, 0),
        states: was.states + states,
    }
}

// The states of a transfer of memory-to-memory.
#[tactic(auto, unfolding(crate::specs::States::copy_pace))]
fn copy_pace_of(waits: u8) -> u64
    ensures { (result ≡ copy_pace waits) × (result ≤ most_copy_pace) }
{
    8 + 2 * (waits as u64)
}

// The counts with n transfers of memory-to-memory, with so many wait states.
pub(crate) fn copied_counts(was: Counts, n: u64, waits: u8) -> Counts
    requires { (n ≤ most_transfers) × (was.transfers + n < 2 ^ 64) × (was.states + most_states < 2 ^ 64) }
    ensures { result ≡ plus was (counts n 0 0 (n * copy_pace waits)) }
{
    let pace = copy_pace_of(waits);
    Counts {
        transfers: was.transfers + n,
        used: was.used,
        written: was.written,
        states: was.states + n * pace,
    }
}

fn refused(c: Controller, refusal: Refusal) -> Ran
    ensures { result ≡ record { controller = c; answer = Err refusal; counts = none } }
{
    Ran {
        controller: c,
        answer: Err(refusal),
        counts: no_counts(),
    }
}

// What refuses a run of this service over this memory, or the judging of its log, if anything does.
pub fn run_refusal(c: Controller, memory: &[u8]) -> Option<Refusal>
    ensures { result ≡ refused (refusal (run_grounds c memory.now)) }
{
    let refusal = when(c.in_service == 0, Some(Refusal::NoService), None);
    let refusal = when(memory.len() != 65536, Some(Refusal::Memory), refusal);
    when(!c.valid(), Some(Refusal::Range), refusal)
}

// Whether the open service is of memory-to-memory.
#[tactic(auto, unfolding(crate::specs::World::memory_to_memory))]
pub fn is_copy(c: Controller) -> bool
    ensures { result ≡ memory_to_memory c }
{
    memory_to_memory_bit(c.command) & (c.serving == 0)
}

// Whether the service stays open after this.
pub(crate) fn stays_open(why: Reason) -> bool
    ensures { result ≡ stays_open why }
{
    (why != Reason::Ended) & (why != Reason::Dropped)
}

// The states of a transfer without S1.
pub(crate) fn pace_of(command: u8, waits: u8) -> u64
    ensures { (result ≡ pace command waits) × (result ≤ most_pace) }
{
    when(compressed(command), 2, 3) + waits as u64
}

// The bits of the channels that a service may change, as the state has them.
pub fn bits_of(c: Controller) -> Bits
    ensures { result ≡ bits_of c }
{
    Bits {
        tc: c.tc,
        request: c.request,
        mask: c.mask,
    }
}

// The controller after a leg of channel i.
fn after_leg(c: Controller, i: usize, l: Leg, stays: bool) -> Controller
    requires { i < 4 }
    ensures { result ≡ after_leg c i l stays }
{
    let ch = l.channel;
    let mut next = c;
    next.channels[i] = ch;
    next.tc = l.bits.tc;
    next.request = l.bits.request;
    next.mask = l.bits.mask;
    next.in_service = when(stays, c.in_service, 0);
    next.serving = when(stays, c.serving, 0);
    next.latch_full = when(stays, 1, 0);
    next.latch = when(stays, l.latch, 0);
    next
}

// The controller after a leg of memory-to-memory; i is channel 0. It and channel 1 are told by a variable, and stored last: so c is kept
// whole, not field by field.
fn after_copy(c: Controller, i: usize, l: Copied, byte: u8, stays: bool) -> Controller
    requires { i ≡ 0 }
    ensures { result ≡ after_copy c l byte stays }
{
    let source = l.source;
    let target = l.target;
    let mut next = c;
    next.tc = l.bits.tc;
    next.request = l.bits.request;
    next.mask = l.bits.mask;
    next.in_service = when(stays, c.in_service, 0);
    next.latch_full = when(stays, c.latch_full, 0);
    next.latch = when(stays, c.latch, 0);
    next.temporary = byte;
    next.channels[i] = source;
    next.channels[i + 1] = target;
    next
}

// The leg of the open service of channel i.
#[tactic(auto, unfolding(crate::specs::States::needs_s1))]
fn open_leg(c: Controller, i: usize, ch: Channel, n: u64, eop_at: u64) -> Leg
    requires { (0 < n) × (n ≤ most_transfers) }
    ensures { result ≡ leg_of c.edition i ch (bits_of c) (needs_s1 c ch.address) (pace c.command c.waits) n eop_at }
{
    let first = needs_s1(c.latch_full, c.latch, ch.address);
    leg_of(
        c.edition,
        i,
        ch,
        bits_of(c),
        first,
        pace_of(c.command, c.waits),
        n,
        eop_at,
    )
}

// A service that makes no transfer: dropped, it ends; else it stays as it is. Its channel i is put back as it was, last, so that c is kept whole.
fn stood(c: Controller, i: usize, ch: Channel, why: Reason) -> Ran
    requires { (i < 4) × (ch ≡ channel c i) }
    ensures { (m room : List ℕ) → given result m room ≡ stopped (stop (start_of (when (stays_open why) c (ended c)) m room) why) }
{
    let mut next = c;
    if !stays_open(why) {
        next = next.ended();
    }
    next.channels[i] = ch;
    Ran {
        controller: next,
        answer: Ok(why),
        counts: no_counts(),
    }
}

fn ran(controller: Controller, why: Reason, n: Counts) -> Ran
    ensures { result ≡ record { controller = controller; answer = Ok why; counts = n } }
{
    Ran {
        controller,
        answer: Ok(why),
        counts: n,
    }
}

// A run of memory-to-memory; i is channel 0.
fn run_copy(
    c: Controller,
    i: usize,
    source: Channel,
    memory: &mut [u8],
    limit: u64,
    eop_at: u64,
) -> Ran
    requires { (memory_to_memory c ≡ true) × (i ≡ 0) × (source ≡ channel c 0) × (length memory.old ≡ 65536) }
    ensures { (d room : List ℕ) → given result memory.new room ≡ stopped (run_of limit eop_at d (start_of c memory.old room)) }
{
    let target = c.channels[i + 1];
    sixteen_bits(target);
    let s = copy_span(target.count, limit, eop_at);
    let n = s.transfers;
    let why = s.why;
    if n == 0 {
        return stood(c, i, source, why);
    }
    let stays = stays_open(why);
    let hold = address_hold(c.command);
    // The bytes before the leg: so every run is shorter than the other way round, by 9 instructions.
    let byte = copy_bytes(source, target, hold, memory, n);
    let l = copy_leg(c.edition, source, target, bits_of(c), hold, n, eop_at);
    {
        ran(
            after_copy(c, i, l, byte, stays),
            why,
            copied_counts(no_counts(), n, c.waits),
        )
    }
}

// A run of the open service.
pub fn run(
    c: Controller,
    memory: &mut [u8],
    device: &[u8],
    room: &mut [u8],
    limit: u64,
    eop_at: u64,
) -> Ran
    ensures { (given result memory.new room.new ≡ ran_of c memory.old device.now room.old limit eop_at) × (run_refusal_number result.answer ≡ refusal (run_grounds c memory.old)) }
{
    // Taken out before the ranges are asked: a serving channel over 3 is refused below.
    let i = (c.serving % 4) as usize;
    let ch = c.channels[i];
    if let Some(refusal) = run_refusal(c, memory) {
        return refused(c, refusal);
    }
    if is_copy(c) {
        return run_copy(c, i, ch, memory, limit, eop_at);
    }
    sixteen_bits(ch);
    let s = span_of(ch, c.active(i), device.len(), room.len(), limit, eop_at);
    let n = s.transfers;
    let why = s.why;
    if n == 0 {
        return stood(c, i, ch, why);
    }
    let l = open_leg(c, i, ch, n, eop_at);
    // Told before the bytes move: 35 instructions less than behind them. A block of its own: so c goes on as one copy, not field by field.
    let out = {
        ran(
            after_leg(c, i, l, stays_open(why)),
            why,
            counted(no_counts(), ch, n, l.states),
        )
    };
    move_bytes(ch, memory, device, room, n as usize);
    out
}
