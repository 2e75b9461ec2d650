// What each call does with a chip by value: the next chip, and the answer in numbers.
ghost use Rattle.std.specs.Prelude.{◌≡◌, length};
ghost use Rattle.am9517.specs.Answers.{refusal_number, write_of, read_of, pins_of, reset_of, waits_of, grant_of};
ghost use Rattle.am9517.specs.Serving.{entitled, set_of, status};
ghost use Rattle.am9517_service.specs.Answers.{ran_of};
ghost use Rattle.am9517_service.specs.RoundAnswers.{rounded_of};
ghost use Rattle.logs.specs.Answers.{judged_of};
ghost use Rattle.am9517_sheet.specs.declared.forms.Form.TheVariants.{One, Two};
ghost use Rattle.am9517_sheet.specs.Sheet.{sheet_write_of, sheet_read_of};
ghost use Rattle.c_told.specs.Numbers.{told, saved, save_of};
ghost use Rattle.c_am9517.specs.Host.{look_of, left, call_of, load_of, run_left, run_call_of, round_left, round_call_of, judge_left, judge_call_of};

use crate::numbers::{judge_told_of, round_told_of};
use crate::{JudgeTold, RoundTold};
use am9517::{Controller, Outcome};
use am9517_sheet::Form;
use c_told::{Left, RunTold, Told, requesting_set, run_told_of, sheet_number, told_of, wide};

// An arm for each answer: so the chip is copied once less than where the number comes first.
fn done_of(outcome: Outcome) -> Left<Controller, u32>
    ensures { result ≡ record { state = outcome.controller; said = refusal_number outcome.answer } }
{
    let state = outcome.controller;
    let answer = outcome.answer;
    match answer {
        Ok(_) => Left { state, said: 0 },
        Err(refusal) => Left {
            state,
            said: wide(refusal.number()),
        },
    }
}

fn answered_of(outcome: Outcome) -> Left<Controller, Told>
    ensures { left result.state result.said ≡ call_of outcome }
{
    let state = outcome.controller;
    let answer = outcome.answer;
    let said = told_of(answer);
    Left { state, said }
}

// What is shown of a chip, unless a field is out of its range.
fn shown(c: Controller, value: u32) -> Told
    ensures { result ≡ look_of c value }
{
    if c.valid() {
        return Told { refusal: 0, value };
    }
    Told {
        refusal: 1,
        value: 0,
    }
}

pub(crate) fn check(c: Controller) -> u32
    ensures { result ≡ (look_of c 0).refusal }
{
    shown(c, 0).refusal
}

pub(crate) fn write(c: Controller, register: u32, byte: u8) -> Left<Controller, u32>
    ensures { left result.state (told result.said 0) ≡ call_of (write_of c register byte) }
{
    done_of(c.write(register, byte))
}

pub(crate) fn read(c: Controller, register: u32) -> Left<Controller, Told>
    ensures { left result.state result.said ≡ call_of (read_of c register) }
{
    answered_of(c.read(register))
}

pub(crate) fn pins(c: Controller, levels: u32) -> Left<Controller, u32>
    ensures { left result.state (told result.said 0) ≡ call_of (pins_of c levels) }
{
    done_of(c.pins(levels))
}

pub(crate) fn reset(c: Controller) -> Left<Controller, u32>
    ensures { left result.state (told result.said 0) ≡ call_of (reset_of c) }
{
    done_of(c.reset())
}

pub(crate) fn waits(c: Controller, states: u8) -> Left<Controller, u32>
    ensures { left result.state (told result.said 0) ≡ call_of (waits_of c states) }
{
    done_of(c.waits(states))
}

pub(crate) fn grant(c: Controller) -> Left<Controller, Told>
    ensures { left result.state result.said ≡ call_of (grant_of c) }
{
    answered_of(c.grant())
}

pub(crate) fn entitled(c: Controller) -> Told
    ensures { result ≡ look_of c (set_of (entitled c)) }
{
    shown(c, wide(c.entitled_set()))
}

pub(crate) fn status(c: Controller) -> Told
    ensures { result ≡ look_of c (status c) }
{
    let requesting = requesting_set(c);
    shown(c, wide(c.tc) + 16 * wide(requesting))
}

pub(crate) fn run(
    c: Controller,
    memory: &mut [u8],
    device: &[u8],
    room: &mut [u8],
    limit: u64,
    eop_at: u64,
) -> Left<Controller, RunTold>
    ensures { run_left result.state result.said memory.new room.new ≡ run_call_of (ran_of c memory.old device.now room.old limit eop_at) }
{
    let ran = am9517_service::run(c, memory, device, room, limit, eop_at);
    let state = ran.controller;
    let answer = ran.answer;
    let counts = ran.counts;
    let said = run_told_of(answer, counts);
    Left { state, said }
}

pub(crate) fn round(
    c: Controller,
    memory: &mut [u8],
    device: &[u8],
    room: &mut [u8],
    k: u32,
) -> Left<Controller, RoundTold>
    ensures { round_left result.state result.said memory.new room.new ≡ round_call_of (rounded_of c memory.old device.now room.old k) }
{
    let rounded = am9517_service::round(c, memory, device, room, k);
    let state = rounded.controller;
    let said = round_told_of(rounded);
    Left { state, said }
}

pub(crate) fn judge(c: Controller, memory: &mut [u8], log: &[u8]) -> Left<Controller, JudgeTold>
    ensures { judge_left result.state result.said memory.new ≡ judge_call_of (length log.now) (judged_of c memory.old log.now) }
{
    let judged = logs::judge(c, memory, log);
    let state = judged.controller;
    let verdict = judged.verdict;
    let said = judge_told_of(verdict, log.len());
    Left { state, said }
}

// Sheets: of form 1, and of form 2.
pub(crate) fn save(c: Controller, sheet: &mut [u8]) -> u32
    ensures { saved result sheet.new ≡ save_of (sheet_write_of One c sheet.old) }
{
    sheet_number(am9517_sheet::write(Form::One, c, sheet))
}

pub(crate) fn save2(c: Controller, sheet: &mut [u8]) -> u32
    ensures { saved result sheet.new ≡ save_of (sheet_write_of Two c sheet.old) }
{
    sheet_number(am9517_sheet::write(Form::Two, c, sheet))
}

fn load_in(form: Form, c: Controller, sheet: &[u8]) -> Left<Controller, u32>
    ensures { left result.state (told result.said 0) ≡ load_of (sheet_read_of form c sheet.now) }
{
    let held = am9517_sheet::read(form, c, sheet);
    let state = held.controller;
    let answer = held.answer;
    Left {
        state,
        said: sheet_number(answer),
    }
}

pub(crate) fn load(c: Controller, sheet: &[u8]) -> Left<Controller, u32>
    ensures { left result.state (told result.said 0) ≡ load_of (sheet_read_of One c sheet.now) }
{
    load_in(Form::One, c, sheet)
}

pub(crate) fn load2(c: Controller, sheet: &[u8]) -> Left<Controller, u32>
    ensures { left result.state (told result.said 0) ≡ load_of (sheet_read_of Two c sheet.now) }
{
    load_in(Form::Two, c, sheet)
}
