// A round: up to k services, each granted and run.
ghost use Rattle.std.specs.Prelude.{◌≡◌, Some, None, is_some, ◌&&◌, ◌++◌, ℕ, ◌+◌, ◌-◌, ◌*◌, ◌^◌, ◌≤◌, ◌<◌, length, take, drop};
ghost use Rattle.words.specs.Choice.{when};
ghost use Rattle.words.specs.Steps.{steps};
ghost use Rattle.words.specs.Spans.{spread};
ghost use Rattle.am9517.specs.Modes.{decrement, is_write, is_read};
ghost use Rattle.am9517.specs.Refusals.{refused, refusal};
ghost use Rattle.am9517_service.specs.Round.{is_ended};
ghost use Rattle.am9517_service.specs.RoundAnswers.{round_given, round_refusal_number, round_grounds, rounded_of};
ghost use Rattle.am9517_service.specs.Bounds.{most_pace, most_states, most_services};
ghost use Rattle.am9517_service.specs.Transfer.{stepped};
ghost use Rattle.am9517_service.specs.ClosedLegs.{stored, loaded};
ghost use Rattle.am9517_service.specs.ClosedSpans.{stays_open};
ghost use Rattle.am9517_service.specs.Needs.{Stocked};
ghost use Rattle.am9517_service.specs.ClosedRounds.{facts_of, nexts_of, made_alone, turn_of, with_alone, settled_of, answer_of};

use crate::bytes::{Moved, bring, fetch, move_on};
use crate::copies::{copy_bytes, copy_leg};
use crate::legs::{Bits, leg_of};
use crate::runs::{bits_of, copied_counts, no_counts, pace_of, stays_open};
use crate::spans::span_of;
use crate::{Counts, Reason, RoundAnswer, RoundEnd, Rounded};
use am9517::modes::{
    address_hold, decrement, is_read, is_single, is_write, memory_to_memory_bit, rotating,
};
use am9517::{Channel, Controller, Refusal, entitled_of, picked_from};
use words::bits::bit;
use words::choice::when;
use words::steps::step;

fn round_refusal(c: Controller, memory: &[u8], k: u32) -> Option<Refusal>
    ensures { result ≡ refused (refusal (round_grounds c memory.now k)) }
{
    let refusal = when(c.in_service != 0, Some(Refusal::InService), None);
    let refusal = when(memory.len() != 65536, Some(Refusal::Memory), refusal);
    let refusal = when(4096 < k, Some(Refusal::TooLarge), refusal);
    when(!c.valid(), Some(Refusal::Range), refusal)
}

// What a round needs of the command, the wait states, the pins and the modes, which stay.
#[derive(Clone, Copy)]
pub struct Facts {
    pub rotating: bool,
    pub copier: usize,
    pub hold: bool,
    pub pace: u64,
    pub lines: u8,
    pub blocks: u8,
    pub waits: u8,
}

// The copier is the channel whose services are memory-to-memory: 0, or none.
pub(crate) fn facts_of(c: Controller) -> Facts
    ensures { (result ≡ facts_of c) × (result.pace ≤ most_pace) }
{
    let pace = pace_of(c.command, c.waits);
    Facts {
        rotating: rotating(c.command),
        copier: when(memory_to_memory_bit(c.command), 0, 4),
        hold: address_hold(c.command),
        pace,
        lines: c.lines(),
        blocks: c.blocks(),
        waits: c.waits,
    }
}

// Who is next behind each channel served last.
#[tactic(auto, unfolding(crate::specs::ClosedRounds::nexts_of, words::specs::Choice::when))]
pub(crate) fn nexts_of(f: Facts, mask: u8, request: u8) -> [u8; 4]
    ensures { result ≡ nexts_of f mask request }
{
    let set = entitled_of(f.lines, f.blocks, mask, request);
    let last = picked_from(3, set);
    if f.rotating {
        return [
            picked_from(0, set),
            picked_from(1, set),
            picked_from(2, set),
            last,
        ];
    }
    [last, last, last, last]
}

// The same, asked anew where a mask or request bit changed.
pub(crate) fn nexts_after(f: Facts, nexts: [u8; 4], was: Bits, mask: u8, request: u8) -> [u8; 4]
    requires { nexts ≡ nexts_of f was.mask was.request }
    ensures { result ≡ nexts_of f mask request }
{
    if (mask != was.mask) | (request != was.request) {
        return nexts_of(f, mask, request);
    }
    nexts
}

// A word and a channel that come out of an array bring their bounds along here.
pub(crate) fn bounded(w: u16) -> u16
    ensures { (result ≡ w) × (result < 65536) }
{
    w
}

pub(crate) fn bounded_channel(ch: Channel) -> Channel
    ensures { (result ≡ ch) × (result.address < 65536) × (result.count < 65536) }
{
    ch
}

// The transfer of a service that may make one alone, which meets no TC, if it finds its byte or its place.
pub(crate) fn transfer_alone(
    may: bool,
    mode: u8,
    address: u16,
    n: Counts,
    memory: &mut [u8],
    device: &[u8],
    room: &mut [u8],
) -> Option<Moved>
    requires { (length memory.old ≡ 65536) × (n.used ≤ length device.now) × (n.written ≤ length room.old) }
    ensures made_value { result ≡ when (made_alone may mode (length device.now - n.used) (length room.old - n.written)) (Some (record { used = n.used + when (is_write mode) 1 0; written = n.written + when (is_read mode) 1 0 })) None }
    ensures memory { memory.new ≡ when (is_some result && is_write mode) (spread (steps 16 (decrement mode) address) (λ (j : ℕ). j) (drop n.used device.now) memory.old 1) memory.old }
    ensures room { room.new ≡ when (is_some result && is_read mode) (take n.written room.old ++ spread (λ (j : ℕ). j) (steps 16 (decrement mode) address) memory.old (drop n.written room.old) 1) room.old }
{
    let used = n.used;
    let written = n.written;
    if may {
        // A read first, and one way out where no transfer is made: the loop has fewer instructions so.
        if is_read(mode) {
            if written < room.len() {
                fetch(mode, address, memory, &mut room[written..], 1);
                return Some(Moved {
                    used,
                    written: written + 1,
                });
            }
        } else if is_write(mode) {
            if used < device.len() {
                bring(mode, address, memory, &device[used..], 1);
                return Some(Moved {
                    used: used + 1,
                    written,
                });
            }
        } else {
            return Some(Moved { used, written });
        }
    }
    None
}

// The channel after one transfer.
pub(crate) fn stepped(ch: Channel) -> Channel
    ensures { result ≡ stepped ch }
{
    let mut next = ch;
    next.address = step(ch.address, decrement(ch.mode));
    next.count = step(ch.count, true);
    next
}

// What a leg left of its channel and of the bits, the upper byte of its last address, and the counts with it.
#[derive(Clone, Copy)]
pub struct Turn {
    pub channel: Channel,
    pub bits: Bits,
    pub latch: u8,
    pub counts: Counts,
}

// A leg of n transfers of the service of channel i that was just granted: lent the device bytes not yet used, and the room behind
// the last byte written.
pub(crate) fn turn_of(
    edition: u8,
    pace: u64,
    i: usize,
    ch: Channel,
    n: u64,
    b: Bits,
    was: Counts,
    memory: &mut [u8],
    device: &[u8],
    room: &mut [u8],
) -> Turn
    requires n_nonzero { (0 < n) × (pace ≤ most_pace) × (was.used ≤ length device.now) × (was.written ≤ length room.old) × Stocked ch memory.old (drop was.used device.now) (drop was.written room.old) n }
    requires n_bound { (was.transfers + n < 2 ^ 64) × (was.states + most_states < 2 ^ 64) }
    ensures value { result ≡ turn_of edition pace i ch n b was }
    ensures memory { memory.new ≡ stored ch (drop was.used device.now) memory.old n }
    ensures room { room.new ≡ take was.written room.old ++ loaded ch memory.old (drop was.written room.old) n }
{
    let moved = move_on(ch, memory, device, was.used, room, was.written, n as usize);
    let l = leg_of(edition, i, ch, b, true, pace, n, 0);
    let channel = l.channel;
    let bits = l.bits;
    Turn {
        channel,
        bits,
        latch: l.latch,
        counts: Counts {
            transfers: was.transfers + n,
            used: moved.used,
            written: moved.written,
            states: was.states + l.states,
        },
    }
}

// How a round closes whose last leg stopped so.
fn answer_of(why: Reason, done: bool) -> RoundAnswer
    ensures { result ≡ answer_of why done }
{
    if why != Reason::Ended {
        return Ok(RoundEnd::Stopped(why));
    }
    Ok(when(done, RoundEnd::Done, RoundEnd::Quiet))
}

pub fn is_ended(why: Reason) -> bool
    ensures { result ≡ is_ended why }
{
    why == Reason::Ended
}

// The totals with the lone services, which were not counted one by one: each a transfer, and its states.
fn totals_of(n: Counts, alone: u64, pace: u64) -> Counts
    requires { (n.transfers + most_services < 2 ^ 64) × (pace ≤ most_pace) × (alone ≤ most_services) × (n.states + most_states < 2 ^ 64) }
    ensures { result ≡ with_alone n alone pace }
{
    Counts {
        transfers: n.transfers + alone,
        used: n.used,
        written: n.written,
        states: n.states + alone * (pace + 1),
    }
}

// The controller behind the last service, channel i's, which stays open or not.
pub(crate) fn settled(s: Controller, i: usize, rotating: bool, stays: bool) -> Controller
    requires { i < 4 }
    ensures { result ≡ settled_of s i rotating stays }
{
    let mut next = s;
    next.in_service = when(stays, 1, 0);
    next.serving = when(stays, i as u8, 0);
    next.lowest = when(rotating, i as u8, s.lowest);
    next
}

fn closed(
    controller: Controller,
    answer: RoundAnswer,
    services: [u32; 4],
    totals: Counts,
) -> Rounded
    ensures { result ≡ record { controller = controller; answer = answer; services = services; totals = totals } }
{
    Rounded {
        controller,
        answer,
        services,
        totals,
    }
}

// What a round gives whose last service was channel i's and stopped so, with so many lone ones.
fn closing(
    s: Controller,
    i: usize,
    f: Facts,
    why: Reason,
    done: bool,
    services: [u32; 4],
    n: Counts,
    alone: u32,
) -> Rounded
    requires { (i < 4) × (f.pace ≤ most_pace) × (alone ≤ most_services) × (n.transfers + most_services < 2 ^ 64) × (n.states + most_states < 2 ^ 64) }
    ensures { result ≡ record { controller = settled_of s i f.rotating (stays_open why); answer = answer_of why done; services = services; totals = with_alone n alone f.pace } }
{
    let totals = totals_of(n, alone as u64, f.pace);
    let answer = answer_of(why, done);
    {
        closed(
            settled(s, i, f.rotating, stays_open(why)),
            answer,
            services,
            totals,
        )
    }
}

// A round of up to k services.
pub fn round(c: Controller, memory: &mut [u8], device: &[u8], room: &mut [u8], k: u32) -> Rounded
    ensures { (round_given result memory.new room.new ≡ rounded_of c memory.old device.now room.old k) × (round_refusal_number result.answer ≡ refusal (round_grounds c memory.old k)) }
{
    let mut s = c;
    let mut services: [u32; 4] = [0, 0, 0, 0];
    let mut n = no_counts();
    if let Some(refusal) = round_refusal(s, memory, k) {
        return closed(s, Err(refusal), services, n);
    }
    let f = facts_of(s);
    let mut nexts = nexts_of(f, s.mask, s.request);
    let mut longs: u32 = 0;
    let mut i = s.lowest as usize;
    let mut left = k;
    while (0 < left) & (nexts[i] != 4) {
        i = nexts[i] as usize;
        services[i] = services[i] + 1;
        left -= 1;
        let mode = s.channels[i].mode;
        let count = bounded(s.channels[i].count);
        let address = bounded(s.channels[i].address);
        // The parentheses save a single service 3 to 12 instructions.
        let may = is_single(mode) & ((count != 0) & (i != f.copier));
        if let Some(moved) = transfer_alone(may, mode, address, n, memory, device, room) {
            n.used = moved.used;
            n.written = moved.written;
            s.channels[i] = stepped(s.channels[i]);
        } else {
            longs += 1;
            let b = bits_of(s);
            if i == f.copier {
                let source = bounded_channel(s.channels[i]);
                let target = bounded_channel(s.channels[1]);
                let m = target.count as u64 + 1;
                let u = copy_leg(s.edition, source, target, b, f.hold, m, 0);
                let from = u.source;
                let to = u.target;
                s.temporary = copy_bytes(source, target, f.hold, memory, m);
                s.channels[i] = from;
                s.channels[1] = to;
                s.tc = u.bits.tc;
                s.request = u.bits.request;
                s.mask = u.bits.mask;
                n = copied_counts(n, m, f.waits);
                nexts = nexts_after(f, nexts, b, s.mask, s.request);
            } else {
                let ch = bounded_channel(s.channels[i]);
                let active = bit(s.pins, i) != bit(s.command, 6);
                let l = span_of(
                    ch,
                    active,
                    device.len() - n.used,
                    room.len() - n.written,
                    65536,
                    0,
                );
                let why = l.why;
                if l.transfers == 0 {
                    return closing(s, i, f, why, left == 0, services, n, k - left - longs);
                }
                let u = turn_of(
                    s.edition,
                    f.pace,
                    i,
                    ch,
                    l.transfers,
                    b,
                    n,
                    memory,
                    device,
                    room,
                );
                let there = u.channel;
                s.channels[i] = there;
                s.tc = u.bits.tc;
                s.request = u.bits.request;
                s.mask = u.bits.mask;
                let sum = u.counts;
                n = sum;
                if !is_ended(why) {
                    s.latch_full = 1;
                    s.latch = u.latch;
                    return closing(s, i, f, why, left == 0, services, n, k - left - longs);
                }
                nexts = nexts_after(f, nexts, b, s.mask, s.request);
            }
        }
    }
    {
        closing(
            s,
            i,
            f,
            Reason::Ended,
            left == 0,
            services,
            n,
            k - left - longs,
        )
    }
}
