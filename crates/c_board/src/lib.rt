// The two-controller board as a C library. The host owns the board, a struct of plain numbers, and lends it to each call.
// include/am9517_board.h tells the same in words.
#![tactic(auto)]

ghost use Rattle.std.specs.Prelude.{◌≡◌};
ghost use Rattle.am9517_sheet.specs.declared.forms.Form.TheVariants.{One, Two};
ghost use Rattle.board.specs.Chips.{fresh_board};
ghost use Rattle.board.specs.Answers.{board_write_of, board_read_of, board_pins_of, board_reset_of, board_grant_of};
ghost use Rattle.board.specs.Runs.{board_ran_of};
ghost use Rattle.board.specs.RoundAnswers.{board_rounded_of};
ghost use Rattle.c_told.specs.Numbers.{version, edition_byte, told, saved};
ghost use Rattle.c_board.specs.Host.{look_of, entitled_of, left, call_of, waits_call_of, save_call_of, load_call_of, run_left, run_call_of, round_left, round_call_of};

use am9517::Edition;
use board::Board;
use c_told::{RunTold, Told, edition_byte};

mod calls;
mod reads;

// How a round went.
#[repr(C)]
#[derive(Clone, Copy)]
pub struct RoundTold {
    pub refusal: u32,
    pub reason: u32,
    pub services: [u32; 8],
    pub transfers: u64,
    pub used: usize,
    pub written: usize,
    pub states: u64,
}

// The version of the library that is linked.
pub fn am9517_board_version() -> u32
    ensures { result ≡ version }
{
    c_told::version()
}

// A board of fresh chips of these editions; one with a chip of no edition is refused by 1 in every call but a load, and a save of the other chip.
pub fn am9517_board_fresh(first: u32, second: u32) -> Board
    ensures { result ≡ fresh_board (edition_byte first) (edition_byte second) }
{
    let one = edition_byte(first);
    let two = edition_byte(second);
    let mut board = Board::fresh(Edition::Am9517A, Edition::Am9517A);
    board.first.edition = one;
    board.second.edition = two;
    board
}

// 1 where the pair is out of its ranges, else 0.
pub fn am9517_board_check(board: &Board) -> u32
    ensures { result ≡ (look_of board.now 0).refusal }
{
    calls::check(*board)
}

// A byte is written to a register of the controller that bit 4 picks.
pub fn am9517_board_write(board: &mut Board, register: u32, byte: u8) -> u32
    ensures { left board.new (told result 0) ≡ call_of (board_write_of board.old register byte) }
{
    let done = calls::write(*board, register, byte);
    *board = done.state;
    done.said
}

// A register of it is read.
pub fn am9517_board_read(board: &mut Board, register: u32) -> Told
    ensures { left board.new result ≡ call_of (board_read_of board.old register) }
{
    let done = reads::read(*board, register);
    board.first.tc = done.first_tc;
    board.first.flip_flop = done.first_flip_flop;
    board.second.tc = done.second_tc;
    board.second.flip_flop = done.second_flip_flop;
    done.said
}

// The eight lines take these levels.
pub fn am9517_board_pins(board: &mut Board, levels: u32) -> u32
    ensures { left board.new (told result 0) ≡ call_of (board_pins_of board.old levels) }
{
    let done = calls::pins(*board, levels);
    *board = done.state;
    done.said
}

// Both controllers, and the arbiter.
pub fn am9517_board_reset(board: &mut Board) -> u32
    ensures { left board.new (told result 0) ≡ call_of (board_reset_of board.old) }
{
    let done = calls::reset(*board);
    *board = done.state;
    done.said
}

// The memory cards hold each transfer of this chip for so many states more.
pub fn am9517_board_waits(board: &mut Board, which: u32, states: u8) -> u32
    ensures { left board.new (told result 0) ≡ waits_call_of board.old which states }
{
    let done = calls::waits(*board, which, states);
    *board = done.state;
    done.said
}

// The service of the controller that gets the bus begins; the channel is one of eight.
pub fn am9517_board_grant(board: &mut Board) -> Told
    ensures { left board.new result ≡ call_of (board_grant_of board.old) }
{
    let done = calls::grant(*board);
    *board = done.state;
    done.said
}

// The entitled channels, as eight bits.
pub fn am9517_board_entitled(board: &Board) -> Told
    ensures { result ≡ look_of board.now (entitled_of board.now) }
{
    calls::entitled(*board)
}

// A run of the open service.
pub fn am9517_board_run(
    board: &mut Board,
    memory: &mut [u8],
    device: &[u8],
    room: &mut [u8],
    limit: u64,
    eop_at: u64,
) -> RunTold
    ensures { run_left board.new result memory.new room.new ≡ run_call_of (board_ran_of board.old memory.old device.now room.old limit eop_at) }
{
    let done = calls::run(*board, memory, device, room, limit, eop_at);
    *board = done.state;
    done.said
}

// A round of up to k services over both controllers.
pub fn am9517_board_round(
    board: &mut Board,
    memory: &mut [u8],
    device: &[u8],
    room: &mut [u8],
    k: u32,
) -> RoundTold
    ensures { round_left board.new result memory.new room.new ≡ round_call_of (board_rounded_of board.old memory.old device.now room.old k) }
{
    let done = calls::round(*board, memory, device, room, k);
    *board = done.state;
    done.said
}

// The sheet of form 1 of this chip is written at the end of the slice.
pub fn am9517_board_save(board: &Board, which: u32, sheet: &mut [u8]) -> u32
    ensures { saved result sheet.new ≡ save_call_of One board.now which sheet.old }
{
    calls::save(*board, which, sheet)
}

// The sheet of form 1 at the end of the slice is read into this chip.
pub fn am9517_board_load(board: &mut Board, which: u32, sheet: &[u8]) -> u32
    ensures { left board.new (told result 0) ≡ load_call_of One board.old which sheet.now }
{
    let done = calls::load(*board, which, sheet);
    *board = done.state;
    done.said
}

// The same in form 2, which holds the edition and the wait states.
pub fn am9517_board_save2(board: &Board, which: u32, sheet: &mut [u8]) -> u32
    ensures { saved result sheet.new ≡ save_call_of Two board.now which sheet.old }
{
    calls::save2(*board, which, sheet)
}

pub fn am9517_board_load2(board: &mut Board, which: u32, sheet: &[u8]) -> u32
    ensures { left board.new (told result 0) ≡ load_call_of Two board.old which sheet.now }
{
    let done = calls::load2(*board, which, sheet);
    *board = done.state;
    done.said
}
