// A run of the open service.
ghost use Rattle.std.specs.Prelude.{◌≡◌};
ghost use Rattle.am9517.specs.Refusals.{refusal};
ghost use Rattle.am9517_service.specs.Answers.{run_refusal_number};
ghost use Rattle.board.specs.Refusals.{board_run_grounds};
ghost use Rattle.board.specs.Runs.{server, board_given, ran_on, board_ran_of};

use crate::refusals::run_refusal;
use crate::rounds::no_counts;
use crate::{Board, BoardRan, Chip};
use am9517_service::Ran;
use words::choice::when;

impl Board {
    // The controller whose service is open.
    #[tactic(auto, unfolding(crate::specs::Runs::server))]
    pub(crate) fn server(self) -> Chip
        ensures { result ≡ server self }
    {
        when(self.first.in_service != 0, Chip::First, Chip::Second)
    }
}

fn ran_on(b: Board, which: Chip, ran: Ran) -> BoardRan
    ensures { result ≡ ran_on b which ran }
{
    let c = ran.controller;
    let answer = ran.answer;
    let counts = ran.counts;
    BoardRan {
        board: b.with_chip(which, c),
        answer,
        counts,
    }
}

// Over the memory that both share.
pub fn run(
    b: Board,
    memory: &mut [u8],
    device: &[u8],
    room: &mut [u8],
    limit: u64,
    eop_at: u64,
) -> BoardRan
    ensures { (board_given result memory.new room.new ≡ board_ran_of b memory.old device.now room.old limit eop_at) × (run_refusal_number result.answer ≡ refusal (board_run_grounds b memory.old)) }
{
    if let Some(refusal) = run_refusal(b, memory) {
        return BoardRan {
            board: b,
            answer: Err(refusal),
            counts: no_counts(),
        };
    }
    let which = b.server();
    let c = b.chip_of(which);
    let ran = am9517_service::run(c, memory, device, room, limit, eop_at);
    ran_on(b, which, ran)
}
