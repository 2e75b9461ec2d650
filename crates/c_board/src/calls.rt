// What each call does with a board by value: the next board, and the answer in numbers.
ghost use Rattle.std.specs.Prelude.{◌≡◌};
ghost use Rattle.am9517.specs.Answers.{refusal_number};
ghost use Rattle.am9517_sheet.specs.declared.forms.Form.TheVariants.{One, Two};
ghost use Rattle.board.specs.Answers.{board_write_of, board_read_of, board_pins_of, board_reset_of, board_grant_of};
ghost use Rattle.board.specs.Runs.{board_ran_of};
ghost use Rattle.board.specs.RoundAnswers.{board_rounded_of};
ghost use Rattle.c_told.specs.Numbers.{told, saved};
ghost use Rattle.c_board.specs.Host.{look_of, entitled_of, left, call_of, names_none, chip_of, waits_call_of, save_call_of, load_call_of, run_left, run_call_of, round_told_of, round_left, round_call_of};

use crate::RoundTold;
use am9517_sheet::Form;
use board::{Board, BoardOutcome, BoardRounded, Chip};
use c_told::{Left, RunTold, Told, round_pair, run_told_of, sheet_number, told_of, wide};

// The TC bits and flip-flops of both after a read, and what is told.
#[derive(Clone, Copy)]
pub struct Looked {
    pub first_tc: u8,
    pub first_flip_flop: u8,
    pub second_tc: u8,
    pub second_flip_flop: u8,
    pub said: Told,
}

fn done_of(outcome: BoardOutcome) -> Left<Board, u32>
    ensures { result ≡ record { state = outcome.board; said = refusal_number outcome.answer } }
{
    let state = outcome.board;
    let answer = outcome.answer;
    let said = told_of(answer);
    Left {
        state,
        said: said.refusal,
    }
}

fn answered_of(outcome: BoardOutcome) -> Left<Board, Told>
    ensures { left result.state result.said ≡ call_of outcome }
{
    let state = outcome.board;
    let answer = outcome.answer;
    let said = told_of(answer);
    Left { state, said }
}

fn round_told_of(rounded: BoardRounded) -> RoundTold
    ensures { result ≡ round_told_of rounded }
{
    let answer = rounded.answer;
    let pair = round_pair(answer);
    let services = rounded.services;
    RoundTold {
        refusal: pair.refusal,
        reason: pair.reason,
        services,
        transfers: rounded.totals.transfers,
        used: rounded.totals.used,
        written: rounded.totals.written,
        states: rounded.totals.states,
    }
}

// What is shown of a board, unless the pair is out of its ranges.
fn shown(b: Board, value: u32) -> Told
    ensures { result ≡ look_of b value }
{
    if b.valid() {
        return Told { refusal: 0, value };
    }
    Told {
        refusal: 1,
        value: 0,
    }
}

// Whether a number names neither chip.
fn names_none(which: u32) -> bool
    ensures { result ≡ names_none which }
{
    1 < which
}

// The chip of a number that names one.
fn chip_of(which: u32) -> Chip
    ensures { result ≡ chip_of which }
{
    if which == 0 {
        return Chip::First;
    }
    Chip::Second
}

pub(crate) fn check(b: Board) -> u32
    ensures { result ≡ (look_of b 0).refusal }
{
    shown(b, 0).refusal
}

pub(crate) fn write(b: Board, register: u32, byte: u8) -> Left<Board, u32>
    ensures { left result.state (told result.said 0) ≡ call_of (board_write_of b register byte) }
{
    done_of(b.write(register, byte))
}

pub(crate) fn read(b: Board, register: u32) -> Left<Board, Told>
    ensures { left result.state result.said ≡ call_of (board_read_of b register) }
{
    answered_of(b.read(register))
}

pub(crate) fn pins(b: Board, levels: u32) -> Left<Board, u32>
    ensures { left result.state (told result.said 0) ≡ call_of (board_pins_of b levels) }
{
    done_of(b.pins(levels))
}

pub(crate) fn reset(b: Board) -> Left<Board, u32>
    ensures { left result.state (told result.said 0) ≡ call_of (board_reset_of b) }
{
    done_of(b.reset())
}

pub(crate) fn waits(b: Board, which: u32, states: u8) -> Left<Board, u32>
    ensures { left result.state (told result.said 0) ≡ waits_call_of b which states }
{
    if b.valid() & names_none(which) {
        return Left { state: b, said: 2 };
    }
    done_of(b.waits(chip_of(which), states))
}

pub(crate) fn grant(b: Board) -> Left<Board, Told>
    ensures { left result.state result.said ≡ call_of (board_grant_of b) }
{
    answered_of(b.grant())
}

pub(crate) fn entitled(b: Board) -> Told
    ensures { result ≡ look_of b (entitled_of b) }
{
    let first = b.first.entitled_set();
    let second = b.second.entitled_set();
    shown(b, wide(first) + 16 * wide(second))
}

pub(crate) fn run(
    b: Board,
    memory: &mut [u8],
    device: &[u8],
    room: &mut [u8],
    limit: u64,
    eop_at: u64,
) -> Left<Board, RunTold>
    ensures { run_left result.state result.said memory.new room.new ≡ run_call_of (board_ran_of b memory.old device.now room.old limit eop_at) }
{
    let ran = board::run(b, memory, device, room, limit, eop_at);
    let state = ran.board;
    let answer = ran.answer;
    let counts = ran.counts;
    let said = run_told_of(answer, counts);
    Left { state, said }
}

pub(crate) fn round(
    b: Board,
    memory: &mut [u8],
    device: &[u8],
    room: &mut [u8],
    k: u32,
) -> Left<Board, RoundTold>
    ensures { round_left result.state result.said memory.new room.new ≡ round_call_of (board_rounded_of b memory.old device.now room.old k) }
{
    let rounded = board::round(b, memory, device, room, k);
    let state = rounded.board;
    let said = round_told_of(rounded);
    Left { state, said }
}

// Sheets: of form 1, and of form 2.
fn save_in(form: Form, b: Board, which: u32, sheet: &mut [u8]) -> u32
    ensures { saved result sheet.new ≡ save_call_of form b which sheet.old }
{
    if names_none(which) {
        return 2;
    }
    sheet_number(board::write_sheet(b, chip_of(which), form, sheet))
}

pub(crate) fn save(b: Board, which: u32, sheet: &mut [u8]) -> u32
    ensures { saved result sheet.new ≡ save_call_of One b which sheet.old }
{
    save_in(Form::One, b, which, sheet)
}

pub(crate) fn save2(b: Board, which: u32, sheet: &mut [u8]) -> u32
    ensures { saved result sheet.new ≡ save_call_of Two b which sheet.old }
{
    save_in(Form::Two, b, which, sheet)
}

fn load_in(form: Form, b: Board, which: u32, sheet: &[u8]) -> Left<Board, u32>
    ensures { left result.state (told result.said 0) ≡ load_call_of form b which sheet.now }
{
    if names_none(which) {
        return Left { state: b, said: 2 };
    }
    let held = board::read_sheet(b, chip_of(which), form, sheet);
    let state = held.board;
    let answer = held.answer;
    Left {
        state,
        said: sheet_number(answer),
    }
}

pub(crate) fn load(b: Board, which: u32, sheet: &[u8]) -> Left<Board, u32>
    ensures { left result.state (told result.said 0) ≡ load_call_of One b which sheet.now }
{
    load_in(Form::One, b, which, sheet)
}

pub(crate) fn load2(b: Board, which: u32, sheet: &[u8]) -> Left<Board, u32>
    ensures { left result.state (told result.said 0) ≡ load_call_of Two b which sheet.now }
{
    load_in(Form::Two, b, which, sheet)
}
