// How far a leg of a service goes, and why it stops there.
ghost use Rattle.std.specs.Prelude.{◌≡◌};
ghost use Rattle.am9517_service.specs.ClosedSpans.{until_end, stock_of, halt, span, span_of, copy_span};

use crate::Reason;
use am9517::Channel;
use am9517::modes::{is_cascade, is_demand, is_read, is_single, is_write};

// How many transfers a leg makes, and why it stops then.
#[derive(Clone, Copy)]
pub struct Span {
    pub transfers: u64,
    pub why: Reason,
}

// The transfers up to the one that ends the service.
#[tactic(auto, unfolding(crate::specs::ClosedSpans::until_end, words::specs::Choice::when))]
fn until_end(once: bool, count: u16, eop_at: u64) -> u64
    ensures { result ≡ until_end once count eop_at }
{
    let tc = count as u64 + 1;
    if once {
        return 1;
    }
    if eop_at == 0 {
        return tc;
    }
    eop_at.min(tc)
}

// The transfers that the device's bytes or its room last for.
#[tactic(auto, unfolding(crate::specs::ClosedSpans::stock_of, words::specs::Choice::when))]
fn stock_of(ch: Channel, bytes: u64, space: u64) -> u64
    ensures { result ≡ stock_of ch bytes space }
{
    if is_write(ch.mode) {
        return bytes;
    }
    if is_read(ch.mode) {
        return space;
    }
    65536
}

// Why a service stops before its end.
#[tactic(auto, unfolding(crate::specs::ClosedSpans::halt, words::specs::Choice::when))]
fn halt(limit: u64, stock: u64) -> Reason
    ensures { result ≡ halt limit stock }
{
    if limit <= stock {
        return Reason::Limit;
    }
    Reason::Short
}

fn span_to(transfers: u64, why: Reason) -> Span
    ensures { result ≡ span transfers why }
{
    Span { transfers, why }
}

// The span of a leg of a device's service that finds this many device bytes and this much room.
#[tactic(auto, unfolding(crate::specs::ClosedSpans::span_of, words::specs::Choice::when))]
pub(crate) fn span_of(
    ch: Channel,
    active: bool,
    bytes: usize,
    space: usize,
    limit: u64,
    eop_at: u64,
) -> Span
    ensures { result ≡ span_of ch active bytes space limit eop_at }
{
    if is_demand(ch.mode) | is_cascade(ch.mode) {
        if !active {
            return span_to(0, Reason::Dropped);
        }
        if is_cascade(ch.mode) {
            return span_to(0, Reason::Cascade);
        }
    }
    let stock = stock_of(ch, bytes as u64, space as u64);
    let far = limit.min(stock);
    let most = until_end(is_single(ch.mode), ch.count, eop_at);
    if most <= far {
        return span_to(most, Reason::Ended);
    }
    span_to(far, halt(limit, stock))
}

// The span of a leg of memory-to-memory.
pub(crate) fn copy_span(count: u16, limit: u64, eop_at: u64) -> Span
    ensures { result ≡ copy_span count limit eop_at }
{
    let most = until_end(false, count, eop_at);
    if most <= limit {
        return span_to(most, Reason::Ended);
    }
    span_to(limit, Reason::Limit)
}
