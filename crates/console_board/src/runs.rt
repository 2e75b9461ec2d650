// The services of the board. A trait over these two and console_arrays' would hold each machine's call, which is all that differs.
ghost use Rattle.std.specs.Prelude.{◌≡◌};
ghost use Rattle.console_text.specs.Text.{page};
ghost use Rattle.console_arrays.specs.Services.{served, serving};
ghost use Rattle.console_board.specs.Services.{board_run_reply, board_round_reply};

use board::Board;
use console_arrays::runs::{Served, round_served, run_served, unserved};
use console_chip::answers::WORD;
use console_text::numbers::number_of;

pub fn run(
    b: Board,
    memory: &mut [u8],
    device: &[u8],
    room: &mut [u8],
    limit: &[u8],
    eop: &[u8],
    out: &mut [u8],
    at: usize,
) -> Served<Board>
    ensures { served result memory.new room.new out.new ≡ serving (page out.old at) (board_run_reply b memory.old device.now room.old limit.now eop.now) }
{
    let Some(l) = number_of(limit, WORD) else {
        return unserved(b, out, at);
    };
    let Some(e) = number_of(eop, WORD) else {
        return unserved(b, out, at);
    };
    let ran = board::run(b, memory, device, room, l as u64, e as u64);
    run_served(ran.board, ran.answer, ran.counts, out, at)
}

pub fn go_round(
    b: Board,
    memory: &mut [u8],
    device: &[u8],
    room: &mut [u8],
    count: &[u8],
    out: &mut [u8],
    at: usize,
) -> Served<Board>
    ensures { served result memory.new room.new out.new ≡ serving (page out.old at) (board_round_reply b memory.old device.now room.old count.now) }
{
    let Some(k) = number_of(count, WORD) else {
        return unserved(b, out, at);
    };
    let done = board::round(b, memory, device, room, k);
    round_served(
        done.board,
        done.answer,
        &done.services,
        done.totals,
        out,
        at,
    )
}
