// The board's C library: each call of crate c_board under its C name. include/am9517_board.h tells the same in words.
#![tactic(auto)]

ghost use Rattle.std.specs.Prelude.{◌≡◌};
ghost use Rattle.am9517_sheet.specs.declared.forms.Form.TheVariants.{One, Two};
ghost use Rattle.board.specs.Chips.{fresh_board};
ghost use Rattle.board.specs.Answers.{board_write_of, board_read_of, board_pins_of, board_reset_of, board_grant_of};
ghost use Rattle.board.specs.Runs.{board_ran_of};
ghost use Rattle.board.specs.RoundAnswers.{board_rounded_of};
ghost use Rattle.c_told.specs.Numbers.{version, edition_byte, told, saved};
ghost use Rattle.c_board.specs.Host.{look_of, entitled_of, left, call_of, waits_call_of, save_call_of, load_call_of, run_left, run_call_of, round_left, round_call_of};

use board::Board;
use c_board::RoundTold;
use c_told::{RunTold, Told};

// The version of the library that is linked.
#[unsafe(no_mangle)]
pub extern "C" fn am9517_board_version() -> u32
    ensures { result ≡ version }
{
    c_board::am9517_board_version()
}

// A board of fresh chips of these editions; one with a chip of no edition is refused by 1 in every call but a load, and a save of the other chip.
#[unsafe(no_mangle)]
pub extern "C" fn am9517_board_fresh(first: u32, second: u32) -> Board
    ensures { result ≡ fresh_board (edition_byte first) (edition_byte second) }
{
    c_board::am9517_board_fresh(first, second)
}

// 1 where the pair is out of its ranges, else 0.
#[unsafe(no_mangle)]
pub extern "C" fn am9517_board_check(board: &Board) -> u32
    ensures { result ≡ (look_of board.now 0).refusal }
{
    c_board::am9517_board_check(board)
}

// A byte is written to a register of the controller that bit 4 picks.
#[unsafe(no_mangle)]
pub extern "C" fn am9517_board_write(board: &mut Board, register: u32, byte: u8) -> u32
    ensures { left board.new (told result 0) ≡ call_of (board_write_of board.old register byte) }
{
    c_board::am9517_board_write(board, register, byte)
}

// A register of it is read.
#[unsafe(no_mangle)]
pub extern "C" fn am9517_board_read(board: &mut Board, register: u32) -> Told
    ensures { left board.new result ≡ call_of (board_read_of board.old register) }
{
    c_board::am9517_board_read(board, register)
}

// The eight lines take these levels.
#[unsafe(no_mangle)]
pub extern "C" fn am9517_board_pins(board: &mut Board, levels: u32) -> u32
    ensures { left board.new (told result 0) ≡ call_of (board_pins_of board.old levels) }
{
    c_board::am9517_board_pins(board, levels)
}

// Both controllers, and the arbiter.
#[unsafe(no_mangle)]
pub extern "C" fn am9517_board_reset(board: &mut Board) -> u32
    ensures { left board.new (told result 0) ≡ call_of (board_reset_of board.old) }
{
    c_board::am9517_board_reset(board)
}

// The memory cards hold each transfer of this chip for so many states more.
#[unsafe(no_mangle)]
pub extern "C" fn am9517_board_waits(board: &mut Board, which: u32, states: u8) -> u32
    ensures { left board.new (told result 0) ≡ waits_call_of board.old which states }
{
    c_board::am9517_board_waits(board, which, states)
}

// The service of the controller that gets the bus begins; the channel is one of eight.
#[unsafe(no_mangle)]
pub extern "C" fn am9517_board_grant(board: &mut Board) -> Told
    ensures { left board.new result ≡ call_of (board_grant_of board.old) }
{
    c_board::am9517_board_grant(board)
}

// The entitled channels, as eight bits.
#[unsafe(no_mangle)]
pub extern "C" fn am9517_board_entitled(board: &Board) -> Told
    ensures { result ≡ look_of board.now (entitled_of board.now) }
{
    c_board::am9517_board_entitled(board)
}

// A run of the open service.
#[unsafe(no_mangle)]
pub extern "C" fn am9517_board_run(
    board: &mut Board,
    memory: &mut [u8],
    device: &[u8],
    room: &mut [u8],
    limit: u64,
    eop_at: u64,
) -> RunTold
    ensures { run_left board.new result memory.new room.new ≡ run_call_of (board_ran_of board.old memory.old device.now room.old limit eop_at) }
{
    c_board::am9517_board_run(board, memory, device, room, limit, eop_at)
}

// A round of up to k services over both controllers.
#[unsafe(no_mangle)]
pub extern "C" fn am9517_board_round(
    board: &mut Board,
    memory: &mut [u8],
    device: &[u8],
    room: &mut [u8],
    k: u32,
) -> RoundTold
    ensures { round_left board.new result memory.new room.new ≡ round_call_of (board_rounded_of board.old memory.old device.now room.old k) }
{
    c_board::am9517_board_round(board, memory, device, room, k)
}

// The sheet of form 1 of this chip is written at the end of the slice.
#[unsafe(no_mangle)]
pub extern "C" fn am9517_board_save(board: &Board, which: u32, sheet: &mut [u8]) -> u32
    ensures { saved result sheet.new ≡ save_call_of One board.now which sheet.old }
{
    c_board::am9517_board_save(board, which, sheet)
}

// The sheet of form 1 at the end of the slice is read into this chip.
#[unsafe(no_mangle)]
pub extern "C" fn am9517_board_load(board: &mut Board, which: u32, sheet: &[u8]) -> u32
    ensures { left board.new (told result 0) ≡ load_call_of One board.old which sheet.now }
{
    c_board::am9517_board_load(board, which, sheet)
}

// The same in form 2, which holds the edition and the wait states.
#[unsafe(no_mangle)]
pub extern "C" fn am9517_board_save2(board: &Board, which: u32, sheet: &mut [u8]) -> u32
    ensures { saved result sheet.new ≡ save_call_of Two board.now which sheet.old }
{
    c_board::am9517_board_save2(board, which, sheet)
}

#[unsafe(no_mangle)]
pub extern "C" fn am9517_board_load2(board: &mut Board, which: u32, sheet: &[u8]) -> u32
    ensures { left board.new (told result 0) ≡ load_call_of Two board.old which sheet.now }
{
    c_board::am9517_board_load2(board, which, sheet)
}
