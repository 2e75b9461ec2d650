// Many transfers of a channel at once.
ghost use Rattle.std.specs.Prelude.{◌≡◌, not, ◌||◌, ◌≤◌, ◌<◌, eqb};
ghost use Rattle.words.specs.Bytes.{high_byte};
ghost use Rattle.am9517_service.specs.Bounds.{most_pace, most_transfers};
ghost use Rattle.am9517_service.specs.ClosedLegs.{address_after, current_after, entered, states_of};

use am9517::Channel;
use am9517::modes::decrement;
use words::bytes::high_byte;
use words::choice::when;
use words::steps::steps;

// An address and a count are of 16 bits: told of a record that was taken out of an array.
pub(crate) fn sixteen_bits(ch: Channel)
    ensures { (ch.address < 65536) × (ch.count < 65536) }
{}

// The address after n transfers.
#[tactic(auto, unfolding(crate::specs::ClosedLegs::address_after))]
pub(crate) fn address_after(ch: Channel, n: u64) -> u16
    ensures { result ≡ address_after ch n }
{
    steps(ch.address, decrement(ch.mode), n)
}

// The channel after n transfers.
#[tactic(auto, unfolding(crate::specs::ClosedLegs::current_after))]
pub(crate) fn current_after(ch: Channel, n: u64) -> Channel
    ensures { result ≡ current_after ch n }
{
    let mut next = ch;
    next.address = address_after(ch, n);
    next.count = steps(ch.count, true, n);
    next
}

// The pages entered by n steps from an address.
fn entered(down: bool, address: u16, n: u64) -> u64
    requires { n ≤ most_transfers }
    ensures { (result ≡ entered down address n) × (result ≤ 257) }
{
    let place = address as u64 % 256;
    (when(down, 255 - place, place) + n) / 256
}

// The latch asks for state S1 at an address.
pub(crate) fn needs_s1(latch_full: u8, latch: u8, address: u16) -> bool
    ensures { result ≡ (not (eqb latch_full 1) || not (eqb latch (high_byte address))) }
{
    (latch_full != 1) | (latch != high_byte(address))
}

// The working states of n transfers at this pace, the first with S1 or without.
#[tactic(auto, unfolding(crate::specs::ClosedLegs::states_of))]
pub(crate) fn states_of(ch: Channel, pace: u64, first: bool, n: u64) -> u64
    requires { (0 < n) × (n ≤ most_transfers) × (pace ≤ most_pace) }
    ensures { result ≡ states_of ch pace first n }
{
    let pages = entered(decrement(ch.mode), ch.address, n - 1);
    n * pace + (when(first, 1, 0) + pages)
}
