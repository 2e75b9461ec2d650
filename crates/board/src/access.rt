// A register access on the board: what it does is the same for writes and reads.
ghost use Rattle.board.specs.Needs.{Accesses};

use crate::chips::{addressed, refused};
use crate::{Board, BoardOutcome, Chip};
use am9517::{Controller, Outcome};

impl Board {
    // What the access does to the controller that bit 4 of the register's number picks, which asks its own ranges; only the other is asked
    // here, in line, since a call would copy the board: so each access has this compiled into it, which saves it some 40 instructions.
    #[inline(always)]
    pub(crate) fn accessed<F: FnOnce(Controller) -> Outcome>(
        self,
        reg: u32,
        access: F,
    ) -> BoardOutcome
        requires { F.IsAlwaysCallable access }
        ensures { Accesses (F.post access) self reg result }
    {
        let mut next = self;
        let which = addressed(reg);
        let free = match which {
            Chip::First => next.second.valid() & (next.second.in_service == 0),
            Chip::Second => next.first.valid() & (next.first.in_service == 0),
        };
        let refusal = if free & ((next.granted_last <= 1) & (reg <= 31)) {
            None
        } else {
            next.access_refusal(reg)
        };
        let mut answer = Ok(None);
        match refusal {
            None => {
                let done = access(next.chip_of(which));
                let c = done.controller;
                match which {
                    Chip::First => next.first = c,
                    Chip::Second => next.second = c,
                }
                let said = done.answer;
                answer = said;
            }
            Some(refusal) => answer = Err(refusal),
        }
        // A block of its own: next goes out as one copy, not field by field.
        {
            BoardOutcome {
                board: next,
                answer,
            }
        }
    }
}
