// The C library: each call of crate c_am9517 under its C name. include/am9517.h tells the same in words.
#![tactic(auto)]

ghost use Rattle.std.specs.Prelude.{◌≡◌, length};
ghost use Rattle.am9517.specs.State.{fresh};
ghost use Rattle.am9517.specs.Answers.{write_of, read_of, pins_of, reset_of, waits_of, grant_of};
ghost use Rattle.am9517.specs.Serving.{entitled, set_of, status};
ghost use Rattle.am9517_service.specs.Answers.{ran_of};
ghost use Rattle.am9517_service.specs.RoundAnswers.{rounded_of};
ghost use Rattle.logs.specs.Answers.{judged_of};
ghost use Rattle.am9517_sheet.specs.declared.forms.Form.TheVariants.{One, Two};
ghost use Rattle.am9517_sheet.specs.Sheet.{sheet_write_of, sheet_read_of};
ghost use Rattle.am9517_sheet.specs.Convert.{convert_of};
ghost use Rattle.c_told.specs.Numbers.{version, edition_byte, told, saved, save_of};
ghost use Rattle.c_am9517.specs.Host.{look_of, left, call_of, load_of, run_left, run_call_of, round_left, round_call_of, judge_left, judge_call_of};

use am9517::Controller;
use c_am9517::{JudgeTold, RoundTold};
use c_told::{RunTold, Told};

// The version of the library that is linked.
#[unsafe(no_mangle)]
pub extern "C" fn am9517_version() -> u32
    ensures { result ≡ version }
{
    c_am9517::am9517_version()
}

// A fresh chip of this edition; one of no edition is refused by 1 in every call but a load.
#[unsafe(no_mangle)]
pub extern "C" fn am9517_fresh(edition: u32) -> Controller
    ensures { result ≡ fresh (edition_byte edition) }
{
    c_am9517::am9517_fresh(edition)
}

// 1 where a field is out of its range, else 0.
#[unsafe(no_mangle)]
pub extern "C" fn am9517_check(chip: &Controller) -> u32
    ensures { result ≡ (look_of chip.now 0).refusal }
{
    c_am9517::am9517_check(chip)
}

// A byte is written to a register.
#[unsafe(no_mangle)]
pub extern "C" fn am9517_write(chip: &mut Controller, register: u32, byte: u8) -> u32
    ensures { left chip.new (told result 0) ≡ call_of (write_of chip.old register byte) }
{
    c_am9517::am9517_write(chip, register, byte)
}

// A register is read.
#[unsafe(no_mangle)]
pub extern "C" fn am9517_read(chip: &mut Controller, register: u32) -> Told
    ensures { left chip.new result ≡ call_of (read_of chip.old register) }
{
    c_am9517::am9517_read(chip, register)
}

// The four DREQ pins take these levels.
#[unsafe(no_mangle)]
pub extern "C" fn am9517_pins(chip: &mut Controller, levels: u32) -> u32
    ensures { left chip.new (told result 0) ≡ call_of (pins_of chip.old levels) }
{
    c_am9517::am9517_pins(chip, levels)
}

#[unsafe(no_mangle)]
pub extern "C" fn am9517_reset(chip: &mut Controller) -> u32
    ensures { left chip.new (told result 0) ≡ call_of (reset_of chip.old) }
{
    c_am9517::am9517_reset(chip)
}

// The memory cards hold each transfer for so many states more.
#[unsafe(no_mangle)]
pub extern "C" fn am9517_waits(chip: &mut Controller, states: u8) -> u32
    ensures { left chip.new (told result 0) ≡ call_of (waits_of chip.old states) }
{
    c_am9517::am9517_waits(chip, states)
}

// The first entitled channel's service begins.
#[unsafe(no_mangle)]
pub extern "C" fn am9517_grant(chip: &mut Controller) -> Told
    ensures { left chip.new result ≡ call_of (grant_of chip.old) }
{
    c_am9517::am9517_grant(chip)
}

// The entitled channels, as four bits.
#[unsafe(no_mangle)]
pub extern "C" fn am9517_entitled(chip: &Controller) -> Told
    ensures { result ≡ look_of chip.now (set_of (entitled chip.now)) }
{
    c_am9517::am9517_entitled(chip)
}

// The status byte, during a service too; nothing is cleared.
#[unsafe(no_mangle)]
pub extern "C" fn am9517_status(chip: &Controller) -> Told
    ensures { result ≡ look_of chip.now (status chip.now) }
{
    c_am9517::am9517_status(chip)
}

// A run of the open service.
#[unsafe(no_mangle)]
pub extern "C" fn am9517_run(
    chip: &mut Controller,
    memory: &mut [u8],
    device: &[u8],
    room: &mut [u8],
    limit: u64,
    eop_at: u64,
) -> RunTold
    ensures { run_left chip.new result memory.new room.new ≡ run_call_of (ran_of chip.old memory.old device.now room.old limit eop_at) }
{
    c_am9517::am9517_run(chip, memory, device, room, limit, eop_at)
}

// The log of the open service, made by another replica, is judged.
#[unsafe(no_mangle)]
pub extern "C" fn am9517_judge(chip: &mut Controller, memory: &mut [u8], log: &[u8]) -> JudgeTold
    ensures { judge_left chip.new result memory.new ≡ judge_call_of (length log.now) (judged_of chip.old memory.old log.now) }
{
    c_am9517::am9517_judge(chip, memory, log)
}

// A round of up to k services.
#[unsafe(no_mangle)]
pub extern "C" fn am9517_round(
    chip: &mut Controller,
    memory: &mut [u8],
    device: &[u8],
    room: &mut [u8],
    k: u32,
) -> RoundTold
    ensures { round_left chip.new result memory.new room.new ≡ round_call_of (rounded_of chip.old memory.old device.now room.old k) }
{
    c_am9517::am9517_round(chip, memory, device, room, k)
}

// The chip's sheet of form 1 is written at the end of the slice.
#[unsafe(no_mangle)]
pub extern "C" fn am9517_save(chip: &Controller, sheet: &mut [u8]) -> u32
    ensures { saved result sheet.new ≡ save_of (sheet_write_of One chip.now sheet.old) }
{
    c_am9517::am9517_save(chip, sheet)
}

// The sheet of form 1 at the end of the slice is read into the chip.
#[unsafe(no_mangle)]
pub extern "C" fn am9517_load(chip: &mut Controller, sheet: &[u8]) -> u32
    ensures { left chip.new (told result 0) ≡ load_of (sheet_read_of One chip.old sheet.now) }
{
    c_am9517::am9517_load(chip, sheet)
}

// The same in form 2, which holds the edition and the wait states.
#[unsafe(no_mangle)]
pub extern "C" fn am9517_save2(chip: &Controller, sheet: &mut [u8]) -> u32
    ensures { saved result sheet.new ≡ save_of (sheet_write_of Two chip.now sheet.old) }
{
    c_am9517::am9517_save2(chip, sheet)
}

#[unsafe(no_mangle)]
pub extern "C" fn am9517_load2(chip: &mut Controller, sheet: &[u8]) -> u32
    ensures { left chip.new (told result 0) ≡ load_of (sheet_read_of Two chip.old sheet.now) }
{
    c_am9517::am9517_load2(chip, sheet)
}

// The sheet of form 1 at the end of `source` is written in form 2 at the end of `target`.
#[unsafe(no_mangle)]
pub extern "C" fn am9517_forward(source: &[u8], target: &mut [u8]) -> u32
    ensures { saved result target.new ≡ save_of (convert_of Two source.now target.old) }
{
    c_am9517::am9517_forward(source, target)
}

// And one of form 2 in form 1.
#[unsafe(no_mangle)]
pub extern "C" fn am9517_back(source: &[u8], target: &mut [u8]) -> u32
    ensures { saved result target.new ≡ save_of (convert_of One source.now target.old) }
{
    c_am9517::am9517_back(source, target)
}
