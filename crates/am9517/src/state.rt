// Changes of the whole state.
ghost use Rattle.std.specs.Prelude.{◌≡◌};
ghost use Rattle.am9517.specs.State.{ended, cleared};
ghost use Rattle.am9517.specs.ClosedAnswers.{answered};

use crate::{Answer, Controller, Refusal};

// The refusal, or what is told where there is none.
pub(crate) fn answered(refusal: Option<Refusal>, told: Option<u8>) -> Answer
    ensures { result ≡ answered refusal told }
{
    match refusal {
        None => Ok(told),
        Some(refusal) => Err(refusal),
    }
}

impl Controller {
    // The service ends, however it ends.
    pub fn ended(self) -> Controller
        ensures { result ≡ ended self }
    {
        let mut next = self;
        next.in_service = 0;
        next.serving = 0;
        next.latch_full = 0;
        next.latch = 0;
        next
    }

    // Reset and master clear.
    pub(crate) fn cleared(self) -> Controller
        ensures { result ≡ cleared self }
    {
        let mut next = self.ended();
        next.command = 0;
        next.tc = 0;
        next.request = 0;
        next.temporary = 0;
        next.flip_flop = 0;
        next.mask = 15;
        next.lowest = 3;
        next
    }
}
