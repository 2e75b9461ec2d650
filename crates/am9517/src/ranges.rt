// The ranges of a state.
ghost use Rattle.std.specs.Prelude.{◌≡◌};
ghost use Rattle.am9517.specs.Ranges.{modes_valid, valid};
ghost use Rattle.am9517.specs.ClosedMasks.{flags_of, others_of};

use crate::Controller;
use crate::modes::mode_refused;

impl Controller {
    fn modes_valid(self) -> bool
        ensures { result ≡ modes_valid self }
    {
        let first = self.channels[0].mode;
        let second = self.channels[1].mode;
        let third = self.channels[2].mode;
        let fourth = self.channels[3].mode;
        let low = (first % 4 == 0) & ((second % 4 == 0) & ((third % 4 == 0) & (fourth % 4 == 0)));
        let refused = mode_refused(first)
            | (mode_refused(second) | (mode_refused(third) | mode_refused(fourth)));
        low & !refused
    }

    // Eight fields as one number, a byte each: they lie side by side, so that this is one load.
    fn flags(self) -> u64
        ensures { result ≡ flags_of self }
    {
        u64::from_le_bytes([
            self.tc,
            self.request,
            self.mask,
            self.pins,
            self.in_service,
            self.serving,
            self.latch_full,
            self.latch,
        ])
    }

    // Four more likewise: three that have ranges, and the one that lies behind them.
    fn others(self) -> u32
        ensures { result ≡ others_of self }
    {
        u32::from_le_bytes([self.lowest, self.flip_flop, self.edition, self.temporary])
    }

    // No range is broken. A mask has the bits that must be zero: idle, then in service.
    pub fn valid(self) -> bool
        ensures { result ≡ valid self }
    {
        if !self.modes_valid() {
            return false;
        }
        let flags = self.flags();
        let others = self.others() & 0x00fe_fefc == 0;
        if (flags & 0xffff_ffff_f0f0_f0f0 == 0) & others {
            return true;
        }
        let fields = (flags & 0x00fe_fcfe_f0f0_f0f0 == 0) & others;
        fields & (self.in_service == 1) & ((self.latch_full == 1) | (self.latch == 0))
    }
}
