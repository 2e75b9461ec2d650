// The first ground that holds, nothing where none does.
ghost use Rattle.std.specs.Prelude.{◌≡◌, []};
ghost use Rattle.am9517.specs.Refusals.{refused, refusal};
ghost use Rattle.board.specs.Refusals.{access_grounds, idle_grounds, board_pins_grounds, board_reset_grounds, board_grant_grounds, board_run_grounds, board_round_grounds};

use crate::Board;
use am9517::Refusal;
use words::choice::when;

impl Board {
    // What the board itself refuses of a register access.
    pub(crate) fn access_refusal(self, reg: u32) -> Option<Refusal>
        ensures { result ≡ refused (refusal (access_grounds self reg [])) }
    {
        let refusal = when(self.serves(), Some(Refusal::InService), None);
        let refusal = when(31 < reg, Some(Refusal::TooLarge), refusal);
        when(!self.valid(), Some(Refusal::Range), refusal)
    }

    pub(crate) fn pins_refusal(self, levels: u32) -> Option<Refusal>
        ensures { result ≡ refused (refusal (board_pins_grounds self levels)) }
    {
        let refusal = when(255 < levels, Some(Refusal::TooLarge), None);
        when(!self.valid(), Some(Refusal::Range), refusal)
    }

    pub(crate) fn reset_refusal(self) -> Option<Refusal>
        ensures { result ≡ refused (refusal (board_reset_grounds self)) }
    {
        when(!self.valid(), Some(Refusal::Range), None)
    }

    // What the board itself refuses of what asks that neither serves.
    pub(crate) fn idle_refusal(self) -> Option<Refusal>
        ensures { result ≡ refused (refusal (idle_grounds self [])) }
    {
        let refusal = when(self.serves(), Some(Refusal::InService), None);
        when(!self.valid(), Some(Refusal::Range), refusal)
    }

    pub(crate) fn grant_refusal(self) -> Option<Refusal>
        ensures { result ≡ refused (refusal (board_grant_grounds self)) }
    {
        let refusal = when(self.quiet(), Some(Refusal::NobodyEntitled), None);
        let refusal = when(self.serves(), Some(Refusal::InService), refusal);
        when(!self.valid(), Some(Refusal::Range), refusal)
    }
}

pub(crate) fn run_refusal(b: Board, memory: &[u8]) -> Option<Refusal>
    ensures { result ≡ refused (refusal (board_run_grounds b memory.now)) }
{
    let refusal = when(!b.serves(), Some(Refusal::NoService), None);
    let refusal = when(memory.len() != 65536, Some(Refusal::Memory), refusal);
    when(!b.valid(), Some(Refusal::Range), refusal)
}

pub(crate) fn round_refusal(b: Board, memory: &[u8], k: u32) -> Option<Refusal>
    ensures { result ≡ refused (refusal (board_round_grounds b memory.now k)) }
{
    let refusal = when(b.serves(), Some(Refusal::InService), None);
    let refusal = when(memory.len() != 65536, Some(Refusal::Memory), refusal);
    let refusal = when(4096 < k, Some(Refusal::TooLarge), refusal);
    when(!b.valid(), Some(Refusal::Range), refusal)
}
