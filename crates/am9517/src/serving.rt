// Who may be served, and the grant.
ghost use Rattle.std.specs.Prelude.{◌≡◌, ◌+◌, ◌≤◌};
ghost use Rattle.words.specs.Choice.{when};
ghost use Rattle.am9517.specs.Fields.{channel};
ghost use Rattle.am9517.specs.Modes.{is_block};
ghost use Rattle.am9517.specs.Serving.{active, set_of, status, entitled_set, picked_from, picked, granted};
ghost use Rattle.am9517.specs.ClosedSets.{lines_of, blocks_of, entitled_of};

use crate::Controller;
use crate::modes::{active_low, disabled, is_block, rotating};
use words::bits::bit;
use words::choice::when;

// Four bits: the weight of each that is set.
fn set_of(first: bool, second: bool, third: bool, fourth: bool) -> u8
    ensures { result ≡ when first 1 0 + when second 2 0 + when third 4 0 + when fourth 8 0 }
{
    when(first, 1, 0) + when(second, 2, 0) + when(third, 4, 0) + when(fourth, 8, 0)
}

// The entitled channels, of the sets that lines and blocks tell.
pub fn entitled_of(lines: u8, blocks: u8, mask: u8, request: u8) -> u8
    ensures { result ≡ entitled_of lines blocks mask request }
{
    lines & (255 - mask) | blocks & request
}

// The first channel of each set (bit n is channel n), a row for each channel that is asked last; 4 is none. The row of 3 is fixed order.
const FIRST: [[u8; 16]; 4] = [
    [4, 0, 1, 1, 2, 2, 1, 1, 3, 3, 1, 1, 2, 2, 1, 1],
    [4, 0, 1, 0, 2, 2, 2, 2, 3, 3, 3, 3, 2, 2, 2, 2],
    [4, 0, 1, 0, 2, 0, 1, 0, 3, 3, 3, 3, 3, 3, 3, 3],
    [4, 0, 1, 0, 2, 0, 1, 0, 3, 0, 1, 0, 2, 0, 1, 0],
];

// The first channel of a set, by the one that is asked last; 4 where there is none.
pub fn picked_from(last: u8, set: u8) -> u8
    ensures { result ≡ picked_from last set }
{
    FIRST[last as usize % 4][set as usize % 16]
}

impl Controller {
    // The line of channel n is active.
    pub fn active(self, n: usize) -> bool
        ensures { result ≡ active self n }
    {
        bit(self.pins, n) != bit(self.command, 6)
    }

    // The channels whose line is active.
    fn active_set(self) -> u8
        ensures { result ≡ set_of (active self) }
    {
        let high = self.pins % 16;
        when(active_low(self.command), 15 - high, high)
    }

    // The channels whose mode is block.
    fn block_set(self) -> u8
        ensures { result ≡ set_of (λ n. is_block (channel self n).mode) }
    {
        set_of(
            is_block(self.channels[0].mode),
            is_block(self.channels[1].mode),
            is_block(self.channels[2].mode),
            is_block(self.channels[3].mode),
        )
    }

    // The channels that their line entitles, unless masked.
    pub fn lines(self) -> u8
        ensures { result ≡ lines_of self }
    {
        when(disabled(self.command), 0, self.active_set())
    }

    // The channels that their request bit entitles, if set.
    pub fn blocks(self) -> u8
        ensures { result ≡ blocks_of self }
    {
        when(disabled(self.command), 0, self.block_set())
    }

    // The entitled channels, as four bits.
    pub fn entitled_set(self) -> u8
        ensures { result ≡ entitled_set self }
    {
        entitled_of(self.lines(), self.blocks(), self.mask, self.request)
    }

    // The status byte: the TC bits, and above them the requesting channels.
    pub(crate) fn status(self) -> u8
        requires { self.tc ≤ 15 }
        ensures { result ≡ status self }
    {
        let active = self.active_set();
        if self.request == 0 {
            return self.tc + 16 * active;
        }
        self.tc + 16 * (active | self.block_set() & self.request)
    }

    // The first entitled channel, or 4.
    pub fn picked(self) -> u8
        ensures { result ≡ picked self }
    {
        let last = when(rotating(self.command), self.lowest, 3);
        picked_from(last, self.entitled_set())
    }

    // The service of channel n begins.
    pub(crate) fn granted(self, n: u8) -> Controller
        ensures { result ≡ granted self n }
    {
        let mut next = self;
        next.lowest = when(rotating(self.command), n, self.lowest);
        next.in_service = 1;
        next.serving = n;
        next.latch_full = 0;
        next.latch = 0;
        next
    }
}
