// A leg of memory-to-memory.
ghost use Rattle.std.specs.Prelude.{◌≡◌, true, ℕ, ◌≤◌, ◌<◌, length, min};
ghost use Rattle.words.specs.Choice.{when};
ghost use Rattle.words.specs.Steps.{steps};
ghost use Rattle.words.specs.Spans.{carried};
ghost use Rattle.am9517_service.specs.Bounds.{most_transfers};
ghost use Rattle.am9517_service.specs.Copy.{source_after};
ghost use Rattle.am9517_service.specs.ClosedCopies.{source_on, restored, restores, carried_along, carried_by, straight_of, farther, begun, beginning_again, route_of, copy_leg_of, last_byte};
ghost use Rattle.am9517_service.specs.Needs.{Straight, Again};

use crate::legs::{Bits, leg_of};
use crate::transfers::address_after;
use am9517::Channel;
use am9517::modes::{autoinitialize, decrement};
use words::bits::with_bit;
use words::choice::when;
use words::spans::{carry, fill, reach};
use words::steps::steps;

// Where the bytes of memory-to-memory come from and go to: channel 0's record, held or not, and channel 1's address and direction.
#[derive(Clone, Copy)]
pub struct Route {
    pub hold: bool,
    pub source: Channel,
    pub to: u16,
    pub to_down: bool,
}

// What a leg left of channels 0 and 1 and of the bits.
#[derive(Clone, Copy)]
pub struct Copied {
    pub source: Channel,
    pub target: Channel,
    pub bits: Bits,
}

// The route from one channel to another.
fn route_of(hold: bool, source: Channel, target: Channel) -> Route
    ensures { result ≡ route_of hold source target }
{
    Route {
        hold,
        source,
        to: target.address,
        to_down: decrement(target.mode),
    }
}

// Channel 0 after n transfers that don't restore it.
fn source_on(hold: bool, source: Channel, n: u64) -> Channel
    ensures { result ≡ source_on hold source n }
{
    let mut next = source;
    next.address = when(hold, source.address, address_after(source, n));
    next.count = steps(source.count, true, n);
    next
}

// Channel 0 as it is restored.
fn restored(source: Channel) -> Channel
    ensures { result ≡ restored source }
{
    let mut next = source;
    next.address = source.base_address;
    next.count = source.base_count;
    next
}

// Channel 0 after n transfers. Narrow numbers are divided: the loop of rounds is dearer with wide ones.
fn source_after(hold: bool, source: Channel, n: u64) -> Channel
    requires { n ≤ most_transfers }
    ensures { result ≡ source_after hold source n }
{
    let first = source.count as u64 + 1;
    if autoinitialize(source.mode) & (first <= n) {
        let area = source.base_count as u32 + 1;
        let past = (n - first) as u32 % area;
        return source_on(hold, restored(source), past as u64);
    }
    source_on(hold, source, n)
}

// Whether one of n transfers before the last restores channel 0.
fn restores(source: Channel, n: u64) -> bool
    ensures { result ≡ restores source n }
{
    if autoinitialize(source.mode) {
        return source.count as u64 + 1 < n;
    }
    false
}

// How many of n bytes can be moved before an address turns over: the target's, and the source's unless it is held.
fn straight(route: Route, n: usize) -> usize
    ensures { result ≡ straight_of route n }
{
    let target = n.min(reach(65536, route.to_down, route.to as usize));
    if route.hold {
        return target;
    }
    let source = route.source;
    target.min(reach(65536, decrement(source.mode), source.address as usize))
}

// The first n bytes of a route, where no address turns over.
fn carry_straight(memory: &mut [u8], route: Route, n: usize)
    requires { (length memory.old ≡ 65536) × Straight route n }
    ensures { memory.new ≡ carried_along route memory.old n }
{
    let source = route.source;
    let from = source.address as usize;
    let to = route.to as usize;
    if route.hold {
        fill(memory, from, to, route.to_down, n);
    } else {
        carry(memory, from, decrement(source.mode), to, route.to_down, n);
    }
}

// The route n bytes on, none of which restores channel 0.
fn farther(route: Route, n: u64) -> Route
    ensures { result ≡ farther route n }
{
    Route {
        hold: route.hold,
        source: source_on(route.hold, route.source, n),
        to: steps(route.to, route.to_down, n),
        to_down: route.to_down,
    }
}

// The bytes of n transfers that don't restore channel 0, piece by piece.
fn carry_all(route: Route, memory: &mut [u8], n: u64)
    requires { (length memory.old ≡ 65536) × (n ≤ most_transfers) }
    ensures { memory.new ≡ carried_along route memory.old n }
{
    let mut here = route;
    let mut left = n as usize;
    while 0 < left {
        let piece = straight(here, left);
        carry_straight(memory, here, piece);
        left -= piece;
        if 0 < left {
            here = farther(here, piece as u64);
        }
    }
}

// The route at its place, from another source.
fn begun(route: Route, source: Channel) -> Route
    ensures { result ≡ begun route source }
{
    Route {
        hold: route.hold,
        source,
        to: route.to,
        to_down: route.to_down,
    }
}

// How many of `left` bytes come next, where `until` more come before the source begins again: one where they go one by one.
fn piece_of(route: Route, each: bool, until: usize, left: usize) -> usize
    ensures { result ≡ when each 1 (min (straight_of route left) until) }
{
    if each {
        return 1;
    }
    straight(route, left).min(until)
}

// The first n bytes of a route, where no address turns over: one by itself, or as many as there are.
fn carry_piece(memory: &mut [u8], route: Route, each: bool, n: usize)
    requires { (length memory.old ≡ 65536) × Straight route n × (each ≡ true → n ≡ 1) }
    ensures { memory.new ≡ carried_along route memory.old n }
{
    if each {
        let source = route.source;
        let from = source.address as usize;
        let to = route.to as usize;
        memory[to] = memory[from];
    } else {
        carry_straight(memory, route, n);
    }
}

// n bytes along a route whose source begins again after each `area` of them. A few, and those of small areas, go one by one: pieces cost more.
fn lay(route: Route, area: usize, memory: &mut [u8], n: usize)
    requires { (length memory.old ≡ 65536) × (0 < area) }
    ensures { (from : ℕ → ℕ) → Again route area n from → memory.new ≡ carried (steps 16 route.to_down route.to) from memory.old n }
{
    let source = route.source;
    let each = (n < 32) | (!route.hold & (area < 7));
    let mut here = route;
    let mut until = area;
    let mut left = n;
    while 0 < left {
        let piece = piece_of(here, each, until, left);
        carry_piece(memory, here, each, piece);
        here = farther(here, piece as u64);
        until -= piece;
        left -= piece;
        if until == 0 {
            here = begun(here, source);
            until = area;
        }
    }
}

// The route from where channel 0 was restored after n bytes; an area of one byte is a held one.
fn beginning_again(route: Route, n: u64) -> Route
    ensures { result ≡ beginning_again route n }
{
    Route {
        hold: route.hold | (route.source.base_count == 0),
        source: restored(route.source),
        to: steps(route.to, route.to_down, n),
        to_down: route.to_down,
    }
}

// The bytes of n transfers, of which one before the last restores channel 0: up to there, and from there on again and again.
fn carry_restoring(source: Channel, target: Channel, hold: bool, memory: &mut [u8], n: u64)
    requires { (length memory.old ≡ 65536) × (n ≤ most_transfers) × (restores source n ≡ true) }
    ensures { memory.new ≡ carried_by (route_of hold source target) memory.old n }
{
    let first = source.count as usize + 1;
    let route = route_of(hold, source, target);
    lay(route, first, memory, first);
    let again = beginning_again(route, first as u64);
    // a held source never begins again: no service has more bytes
    let area = when(again.hold, 65536, again.source.count as usize + 1);
    lay(again, area, memory, n as usize - first);
}

// The leg of n transfers, at least one: channel 1's own, and channel 0's record and request bit.
#[tactic(auto, unfolding(crate::specs::ClosedCopies::copy_leg_of))]
pub(crate) fn copy_leg(
    edition: u8,
    source: Channel,
    target: Channel,
    b: Bits,
    hold: bool,
    n: u64,
    eop_at: u64,
) -> Copied
    requires { (0 < n) × (n ≤ most_transfers) }
    ensures { result ≡ copy_leg_of edition source target b hold n eop_at }
{
    let over = (n == target.count as u64 + 1) | (n == eop_at);
    let mut asked = b;
    asked.request = when(over, with_bit(b.request, 0, false), b.request);
    // Its states are counted apart, by copied_counts.
    let l = leg_of(edition, 1, target, asked, false, 0, n, eop_at);
    let there = l.channel;
    let bits = l.bits;
    Copied {
        source: source_after(hold, source, n),
        target: there,
        bits,
    }
}

// The bytes of n transfers; the last one is given.
pub(crate) fn copy_bytes(
    source: Channel,
    target: Channel,
    hold: bool,
    memory: &mut [u8],
    n: u64,
) -> u8
    requires { (length memory.old ≡ 65536) × (0 < n) × (n ≤ most_transfers) }
    ensures value { result ≡ last_byte (route_of hold source target) memory.old n }
    ensures memory { memory.new ≡ carried_by (route_of hold source target) memory.old n }
{
    if n == 1 {
        let from = source.address as usize;
        let to = target.address as usize;
        let byte = memory[from];
        memory[to] = byte;
        return byte;
    }
    let last = address_after(target, n - 1) as usize;
    if restores(source, n) {
        carry_restoring(source, target, hold, memory, n);
        return memory[last];
    }
    // Written out: by route_of both ways share one route, and the compiler puts it on the stack.
    let route = Route {
        hold,
        source,
        to: target.address,
        to_down: decrement(target.mode),
    };
    carry_all(route, memory, n);
    memory[last]
}
