// What a register write changes in a channel's record.
ghost use Rattle.std.specs.Prelude.{◌≡◌};
ghost use Rattle.am9517.specs.Registers.{with_address_byte, with_count_byte, with_mode};

use crate::Channel;
use words::bytes::with_byte;

impl Channel {
    pub(crate) fn with_address_byte(self, high: bool, b: u8) -> Channel
        ensures { result ≡ with_address_byte self high b }
    {
        let mut next = self;
        next.base_address = with_byte(self.base_address, high, b);
        next.address = with_byte(self.address, high, b);
        next
    }

    pub(crate) fn with_count_byte(self, high: bool, b: u8) -> Channel
        ensures { result ≡ with_count_byte self high b }
    {
        let mut next = self;
        next.base_count = with_byte(self.base_count, high, b);
        next.count = with_byte(self.count, high, b);
        next
    }

    pub(crate) fn with_mode(self, mode: u8) -> Channel
        ensures { result ≡ with_mode self mode }
    {
        let mut next = self;
        next.mode = mode;
        next
    }
}
