// A round: up to k services, the bus given anew before each.
ghost use Rattle.std.specs.Prelude.{◌≡◌};
ghost use Rattle.am9517.specs.Refusals.{refusal};
ghost use Rattle.am9517_service.specs.Counts.{none};
ghost use Rattle.am9517_service.specs.RoundAnswers.{round_refusal_number};
ghost use Rattle.board.specs.Refusals.{board_round_grounds};
ghost use Rattle.board.specs.RoundAnswers.{board_round_given, board_rounded_of};

use crate::bus::winner_of;
use crate::refusals::round_refusal;
use crate::{Board, BoardRounded};
use am9517_service::{Counts, Rota, RoundAnswer, RoundEnd, is_ended, next_of, rota_of, serve};

pub(crate) fn no_counts() -> Counts
    ensures { result ≡ none }
{
    Counts {
        transfers: 0,
        used: 0,
        written: 0,
        states: 0,
    }
}

fn closed(
    first: Rota,
    second: Rota,
    granted_last: u8,
    answer: RoundAnswer,
    services: [u32; 8],
    totals: Counts,
) -> BoardRounded
    ensures { result ≡ record { board = record { first = first.controller; second = second.controller; granted_last = granted_last }; answer = answer; services = services; totals = totals } }
{
    let one = first.controller;
    let two = second.controller;
    let board = Board {
        first: one,
        second: two,
        granted_last,
    };
    BoardRounded {
        board,
        answer,
        services,
        totals,
    }
}

// Over the memory that both share. The two rotas, and who is next of each, stand in arrays by the number of the chip.
pub fn round(b: Board, memory: &mut [u8], device: &[u8], room: &mut [u8], k: u32) -> BoardRounded
    ensures { (board_round_given result memory.new room.new ≡ board_rounded_of b memory.old device.now room.old k) × (round_refusal_number result.answer ≡ refusal (board_round_grounds b memory.old k)) }
{
    let mut services: [u32; 8] = [0, 0, 0, 0, 0, 0, 0, 0];
    let mut n = no_counts();
    if let Some(refusal) = round_refusal(b, memory, k) {
        return BoardRounded {
            board: b,
            answer: Err(refusal),
            services,
            totals: n,
        };
    }
    let one = rota_of(b.first);
    let two = rota_of(b.second);
    let mut rotas: [Rota; 2] = [one, two];
    let mut nexts: [u8; 2] = [next_of(one), next_of(two)];
    let mut last = b.granted_last;
    for _begun in 0..k {
        if (nexts[0] == 4) & (nexts[1] == 4) {
            return closed(rotas[0], rotas[1], last, Ok(RoundEnd::Quiet), services, n);
        }
        let which = winner_of(last, nexts[0] != 4, nexts[1] != 4);
        last = u8::from(which);
        let t = usize::from(last);
        let channel = 4 * t + nexts[t] as usize;
        services[channel] += 1;
        let rota = rotas[t];
        let done = serve(rota, n, memory, device, room);
        let next = done.rota;
        let sum = done.counts;
        let why = done.why;
        rotas[t] = next;
        n = sum;
        if !is_ended(why) {
            return closed(
                rotas[0],
                rotas[1],
                last,
                Ok(RoundEnd::Stopped(why)),
                services,
                n,
            );
        }
        nexts[t] = next_of(next);
    }
    closed(rotas[0], rotas[1], last, Ok(RoundEnd::Done), services, n)
}
