// The first ground that holds, nothing where none does.
ghost use Rattle.std.specs.Prelude.{◌≡◌};
ghost use Rattle.am9517.specs.Refusals.{number_of, refused, refusal, write_grounds, read_grounds, pins_grounds, reset_grounds, waits_grounds, grant_grounds};
ghost use Rattle.am9517.specs.Serving.{picked};

use crate::Controller;
use crate::editions::is_intel;
use crate::modes::mode_refused;
use words::choice::when;

// The refusals, in the order of the paper's numbers: what each is given for. Those from Slice on are of sheets.
#[derive(Clone, Copy, PartialEq, Eq)]
pub enum Refusal {
    // The state breaks a range.
    Range,
    // Register number, pins or services asked for are over the most.
    TooLarge,
    // A register access, wait states set, a grant or a round during a service.
    InService,
    // The register isn't read, or isn't written.
    Register,
    // A mode byte that is none.
    Mode,
    // No channel is entitled.
    NobodyEntitled,
    // The memory has another size.
    Memory,
    // No service is open.
    NoService,
    // The slice is too short.
    Slice,
    EndMark,
    FormNumber,
    Distance,
    Sum,
    // The state that is stored breaks a range.
    StoredRange,
    // The form has no place for it.
    NoPlace,
}

impl Refusal {
    // The paper's number.
    pub fn number(self) -> u8
        ensures { result ≡ number_of self }
    {
        match self {
            Refusal::Range => 1,
            Refusal::TooLarge => 2,
            Refusal::InService => 3,
            Refusal::Register => 4,
            Refusal::Mode => 5,
            Refusal::NobodyEntitled => 6,
            Refusal::Memory => 7,
            Refusal::NoService => 8,
            Refusal::Slice => 9,
            Refusal::EndMark => 10,
            Refusal::FormNumber => 11,
            Refusal::Distance => 12,
            Refusal::Sum => 13,
            Refusal::StoredRange => 14,
            Refusal::NoPlace => 15,
        }
    }
}

impl Controller {
    pub(crate) fn write_refusal(self, reg: u32, byte: u8) -> Option<Refusal>
        ensures { result ≡ refused (refusal (write_grounds self reg byte)) }
    {
        if !self.valid() {
            return Some(Refusal::Range);
        }
        if 15 < reg {
            return Some(Refusal::TooLarge);
        }
        if self.in_service != 0 {
            return Some(Refusal::InService);
        }
        let unwritable = (reg == 0xE) & !is_intel(self.edition);
        if unwritable {
            return Some(Refusal::Register);
        }
        let no_mode = (reg == 0xB) & mode_refused(byte);
        if no_mode {
            return Some(Refusal::Mode);
        }
        None
    }

    pub(crate) fn read_refusal(self, reg: u32) -> Option<Refusal>
        ensures { result ≡ refused (refusal (read_grounds self reg)) }
    {
        if !self.valid() {
            return Some(Refusal::Range);
        }
        if 15 < reg {
            return Some(Refusal::TooLarge);
        }
        if self.in_service != 0 {
            return Some(Refusal::InService);
        }
        if reg <= 8 {
            return None;
        }
        if reg != 0xD {
            return Some(Refusal::Register);
        }
        None
    }

    pub(crate) fn pins_refusal(self, levels: u32) -> Option<Refusal>
        ensures { result ≡ refused (refusal (pins_grounds self levels)) }
    {
        if !self.valid() {
            return Some(Refusal::Range);
        }
        if 15 < levels {
            return Some(Refusal::TooLarge);
        }
        None
    }

    pub(crate) fn reset_refusal(self) -> Option<Refusal>
        ensures { result ≡ refused (refusal (reset_grounds self)) }
    {
        when(!self.valid(), Some(Refusal::Range), None)
    }

    pub(crate) fn waits_refusal(self) -> Option<Refusal>
        ensures { result ≡ refused (refusal (waits_grounds self)) }
    {
        if !self.valid() {
            return Some(Refusal::Range);
        }
        when(self.in_service != 0, Some(Refusal::InService), None)
    }

    // n is the channel picked.
    pub(crate) fn grant_refusal(self, n: u8) -> Option<Refusal>
        requires { n ≡ picked self }
        ensures { result ≡ refused (refusal (grant_grounds self)) }
    {
        let refusal = when(n == 4, Some(Refusal::NobodyEntitled), None);
        let refusal = when(self.in_service != 0, Some(Refusal::InService), refusal);
        when(!self.valid(), Some(Refusal::Range), refusal)
    }
}
