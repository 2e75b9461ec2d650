// The controller as a C library. The host owns the chip, a struct of plain numbers, and lends it to each call.
// include/am9517.h tells the same in words.
#![tactic(auto)]

ghost use Rattle.std.specs.Prelude.{◌≡◌, length};
ghost use Rattle.am9517.specs.State.{fresh};
ghost use Rattle.am9517.specs.Answers.{write_of, read_of, pins_of, reset_of, waits_of, grant_of};
ghost use Rattle.am9517.specs.Serving.{entitled, set_of, status};
ghost use Rattle.am9517_service.specs.Answers.{ran_of};
ghost use Rattle.am9517_service.specs.RoundAnswers.{rounded_of};
ghost use Rattle.logs.specs.Answers.{judged_of};
ghost use Rattle.am9517_sheet.specs.declared.forms.Form.TheVariants.{One, Two};
ghost use Rattle.am9517_sheet.specs.Sheet.{sheet_write_of, sheet_read_of};
ghost use Rattle.am9517_sheet.specs.Convert.{convert_of};
ghost use Rattle.c_told.specs.Numbers.{version, edition_byte, told, saved, save_of};
ghost use Rattle.c_am9517.specs.Host.{look_of, left, call_of, load_of, run_left, run_call_of, round_left, round_call_of, judge_left, judge_call_of};

use am9517::{Controller, Edition};
use am9517_sheet::Form;
use c_told::{RunTold, Told, edition_byte, sheet_number};

mod calls;
mod numbers;

// How a round went.
#[repr(C)]
#[derive(Clone, Copy)]
pub struct RoundTold {
    pub refusal: u32,
    pub reason: u32,
    pub services: [u32; 4],
    pub transfers: u64,
    pub used: usize,
    pub written: usize,
    pub states: u64,
}

// What is found of a log: how many of its bytes are right, which are all of them where it is accepted, and the address error of the record behind
// them.
#[repr(C)]
#[derive(Clone, Copy)]
pub struct JudgeTold {
    pub refusal: u32,
    pub error: i32,
    pub right: usize,
}

// The version of the library that is linked.
pub fn am9517_version() -> u32
    ensures { result ≡ version }
{
    c_told::version()
}

// A fresh chip of this edition; one of no edition is refused by 1 in every call but a load.
pub fn am9517_fresh(edition: u32) -> Controller
    ensures { result ≡ fresh (edition_byte edition) }
{
    let mut chip = Controller::fresh(Edition::Am9517A);
    chip.edition = edition_byte(edition);
    chip
}

// 1 where a field is out of its range, else 0.
pub fn am9517_check(chip: &Controller) -> u32
    ensures { result ≡ (look_of chip.now 0).refusal }
{
    calls::check(*chip)
}

// A byte is written to a register.
pub fn am9517_write(chip: &mut Controller, register: u32, byte: u8) -> u32
    ensures { left chip.new (told result 0) ≡ call_of (write_of chip.old register byte) }
{
    let done = calls::write(*chip, register, byte);
    *chip = done.state;
    done.said
}

// A register is read.
pub fn am9517_read(chip: &mut Controller, register: u32) -> Told
    ensures { left chip.new result ≡ call_of (read_of chip.old register) }
{
    let done = calls::read(*chip, register);
    *chip = done.state;
    done.said
}

// The four DREQ pins take these levels.
pub fn am9517_pins(chip: &mut Controller, levels: u32) -> u32
    ensures { left chip.new (told result 0) ≡ call_of (pins_of chip.old levels) }
{
    let done = calls::pins(*chip, levels);
    *chip = done.state;
    done.said
}

pub fn am9517_reset(chip: &mut Controller) -> u32
    ensures { left chip.new (told result 0) ≡ call_of (reset_of chip.old) }
{
    let done = calls::reset(*chip);
    *chip = done.state;
    done.said
}

// The memory cards hold each transfer for so many states more.
pub fn am9517_waits(chip: &mut Controller, states: u8) -> u32
    ensures { left chip.new (told result 0) ≡ call_of (waits_of chip.old states) }
{
    let done = calls::waits(*chip, states);
    *chip = done.state;
    done.said
}

// The first entitled channel's service begins.
pub fn am9517_grant(chip: &mut Controller) -> Told
    ensures { left chip.new result ≡ call_of (grant_of chip.old) }
{
    let done = calls::grant(*chip);
    *chip = done.state;
    done.said
}

// The entitled channels, as four bits.
pub fn am9517_entitled(chip: &Controller) -> Told
    ensures { result ≡ look_of chip.now (set_of (entitled chip.now)) }
{
    calls::entitled(*chip)
}

// The status byte, during a service too; nothing is cleared.
pub fn am9517_status(chip: &Controller) -> Told
    ensures { result ≡ look_of chip.now (status chip.now) }
{
    calls::status(*chip)
}

// A run of the open service.
pub fn am9517_run(
    chip: &mut Controller,
    memory: &mut [u8],
    device: &[u8],
    room: &mut [u8],
    limit: u64,
    eop_at: u64,
) -> RunTold
    ensures { run_left chip.new result memory.new room.new ≡ run_call_of (ran_of chip.old memory.old device.now room.old limit eop_at) }
{
    let done = calls::run(*chip, memory, device, room, limit, eop_at);
    *chip = done.state;
    done.said
}

// The log of the open service, made by another replica, is judged.
pub fn am9517_judge(chip: &mut Controller, memory: &mut [u8], log: &[u8]) -> JudgeTold
    ensures { judge_left chip.new result memory.new ≡ judge_call_of (length log.now) (judged_of chip.old memory.old log.now) }
{
    let done = calls::judge(*chip, memory, log);
    *chip = done.state;
    done.said
}

// A round of up to k services.
pub fn am9517_round(
    chip: &mut Controller,
    memory: &mut [u8],
    device: &[u8],
    room: &mut [u8],
    k: u32,
) -> RoundTold
    ensures { round_left chip.new result memory.new room.new ≡ round_call_of (rounded_of chip.old memory.old device.now room.old k) }
{
    let done = calls::round(*chip, memory, device, room, k);
    *chip = done.state;
    done.said
}

// The chip's sheet of form 1 is written at the end of the slice.
pub fn am9517_save(chip: &Controller, sheet: &mut [u8]) -> u32
    ensures { saved result sheet.new ≡ save_of (sheet_write_of One chip.now sheet.old) }
{
    calls::save(*chip, sheet)
}

// The sheet of form 1 at the end of the slice is read into the chip.
pub fn am9517_load(chip: &mut Controller, sheet: &[u8]) -> u32
    ensures { left chip.new (told result 0) ≡ load_of (sheet_read_of One chip.old sheet.now) }
{
    let done = calls::load(*chip, sheet);
    *chip = done.state;
    done.said
}

// The same in form 2, which holds the edition and the wait states.
pub fn am9517_save2(chip: &Controller, sheet: &mut [u8]) -> u32
    ensures { saved result sheet.new ≡ save_of (sheet_write_of Two chip.now sheet.old) }
{
    calls::save2(*chip, sheet)
}

pub fn am9517_load2(chip: &mut Controller, sheet: &[u8]) -> u32
    ensures { left chip.new (told result 0) ≡ load_of (sheet_read_of Two chip.old sheet.now) }
{
    let done = calls::load2(*chip, sheet);
    *chip = done.state;
    done.said
}

// The sheet of form 1 at the end of `source` is written in form 2 at the end of `target`.
pub fn am9517_forward(source: &[u8], target: &mut [u8]) -> u32
    ensures { saved result target.new ≡ save_of (convert_of Two source.now target.old) }
{
    sheet_number(am9517_sheet::convert(Form::Two, source, target))
}

// And one of form 2 in form 1.
pub fn am9517_back(source: &[u8], target: &mut [u8]) -> u32
    ensures { saved result target.new ≡ save_of (convert_of One source.now target.old) }
{
    sheet_number(am9517_sheet::convert(Form::One, source, target))
}
