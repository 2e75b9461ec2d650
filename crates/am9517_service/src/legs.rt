// A leg of a service on its channel's record and bits: so many transfers, and what TC or EOP at the last one leaves.
ghost use Rattle.std.specs.Prelude.{◌≡◌, ◌≤◌, ◌<◌};
ghost use Rattle.am9517_service.specs.Bounds.{most_pace, most_transfers};
ghost use Rattle.am9517_service.specs.Ends.{sets_tc_bit, bits_after, channel_after};
ghost use Rattle.am9517_service.specs.ClosedLegs.{leg_of};

use crate::transfers::{address_after, current_after, states_of};
use am9517::Channel;
use am9517::editions::is_intel;
use am9517::modes::autoinitialize;
use words::bits::with_bit;
use words::bytes::high_byte;
use words::choice::when;

// The bits of the channels that a service may change.
#[derive(Clone, Copy)]
pub struct Bits {
    pub tc: u8,
    pub request: u8,
    pub mask: u8,
}

// What a leg left of the channel and of the bits, the upper byte of its last address, and its working states.
#[derive(Clone, Copy)]
pub struct Leg {
    pub channel: Channel,
    pub bits: Bits,
    pub latch: u8,
    pub states: u64,
}

fn sets_tc_bit(edition: u8, tc: bool, eop: bool) -> bool
    ensures { result ≡ sets_tc_bit edition tc eop }
{
    tc | (is_intel(edition) & eop)
}

// The bits of channel n, which is in this mode, where it met TC or EOP.
pub fn bits_after(edition: u8, n: usize, mode: u8, b: Bits, tc: bool, eop: bool) -> Bits
    ensures { result ≡ bits_after edition n mode b tc eop }
{
    Bits {
        tc: when(sets_tc_bit(edition, tc, eop), with_bit(b.tc, n, true), b.tc),
        request: with_bit(b.request, n, false),
        mask: when(autoinitialize(mode), b.mask, with_bit(b.mask, n, true)),
    }
}

// The record of a channel that met TC or EOP.
pub fn channel_after(ch: Channel) -> Channel
    ensures { result ≡ channel_after ch }
{
    let again = autoinitialize(ch.mode);
    let mut next = ch;
    next.address = when(again, ch.base_address, ch.address);
    next.count = when(again, ch.base_count, ch.count);
    next
}

// The leg of channel i of n transfers, at least one.
#[tactic(auto, unfolding(crate::specs::ClosedLegs::leg_of, words::specs::Choice::when))]
pub(crate) fn leg_of(
    edition: u8,
    i: usize,
    ch: Channel,
    b: Bits,
    first: bool,
    pace: u64,
    n: u64,
    eop_at: u64,
) -> Leg
    requires { (0 < n) × (n ≤ most_transfers) × (pace ≤ most_pace) }
    ensures { result ≡ leg_of edition i ch b first pace n eop_at }
{
    let mut left = current_after(ch, n);
    let mut bits = b;
    let tc = n == ch.count as u64 + 1;
    let eop = n == eop_at;
    if tc | eop {
        left = channel_after(left);
        bits = bits_after(edition, i, ch.mode, b, tc, eop);
    }
    Leg {
        channel: left,
        bits,
        latch: high_byte(address_after(ch, n - 1)),
        states: states_of(ch, pace, first, n),
    }
}
