// What the calls for C say in numbers, whichever library they are of: editions, answers, refusals, end reasons and who requests.
#![tactic(auto)]

ghost use Rattle.std.specs.Prelude.{◌≡◌, ◌≤◌, Ok};
ghost use Rattle.am9517.specs.Serving.{requests, set_of};
ghost use Rattle.am9517_service.specs.Answers.{run_refusal_number};
ghost use Rattle.am9517_service.specs.RoundAnswers.{round_refusal_number};
ghost use Rattle.am9517_sheet.specs.Sheet.{sheet_refusal_number};
ghost use Rattle.c_told.specs.Numbers.{version, edition_byte, reason_of, run_reason_of, round_reason_of, told_of, run_told_of};

use am9517::{Answer, Controller};
use am9517_service::{Counts, Reason, RoundAnswer, RoundEnd, RunAnswer};
use am9517_sheet::SheetAnswer;

// A refusal's number, and the byte read, the channel granted or the set shown.
#[repr(C)]
#[derive(Clone, Copy)]
pub struct Told {
    pub refusal: u32,
    pub value: u32,
}

// How a run went.
#[repr(C)]
#[derive(Clone, Copy)]
pub struct RunTold {
    pub refusal: u32,
    pub reason: u32,
    pub transfers: u64,
    pub used: usize,
    pub written: usize,
    pub states: u64,
}

// What a call leaves: the next state of what it was lent, and what it says.
#[derive(Clone, Copy)]
pub struct Left<S, T> {
    pub state: S,
    pub said: T,
}

// A refusal's number and a reason's.
#[derive(Clone, Copy)]
pub struct Pair {
    pub refusal: u32,
    pub reason: u32,
}

// The requesting channels, as four bits: those that are entitled once nothing is masked and the chip isn't
// disabled. Of the command bit 6, DREQ active low, stays.
pub fn requesting_set(c: Controller) -> u8
    ensures { result ≡ set_of (requests c) }
{
    let mut open = c;
    open.mask = 0;
    open.command = 64 * (c.command / 64);
    open.entitled_set()
}

// The version of the libraries, one number for all.
pub fn version() -> u32
    ensures { result ≡ version }
{
    40300
}

// A byte cast here brings its bound along.
pub fn wide(n: u8) -> u32
    ensures { (result ≡ n) × (result ≤ 255) }
{
    n as u32
}

// The state's byte for an edition; one that no byte holds is no edition, and 255 is none.
pub fn edition_byte(edition: u32) -> u8
    ensures { result ≡ edition_byte edition }
{
    if 255 < edition {
        return 255;
    }
    edition as u8
}

pub fn told_of(answer: Answer) -> Told
    ensures { result ≡ told_of answer }
{
    match answer {
        Ok(None) => Told {
            refusal: 0,
            value: 0,
        },
        Ok(Some(v)) => Told {
            refusal: 0,
            value: wide(v),
        },
        Err(refusal) => Told {
            refusal: wide(refusal.number()),
            value: 0,
        },
    }
}

// The refusal of a sheet written or read, 0 for none.
pub fn sheet_number(answer: SheetAnswer) -> u32
    ensures { result ≡ sheet_refusal_number answer }
{
    match answer {
        Ok(()) => 0,
        Err(refusal) => wide(refusal.number()),
    }
}

fn reason_of(why: Reason) -> u32
    ensures { result ≡ reason_of why }
{
    match why {
        Reason::Ended => 1,
        Reason::Dropped => 2,
        Reason::Cascade => 3,
        Reason::Limit => 4,
        Reason::Short => 5,
    }
}

// How a round ended: with the reason of its last service, or with one of its own.
fn end_of(end: RoundEnd) -> u32
    ensures { result ≡ round_reason_of (Ok end) }
{
    match end {
        RoundEnd::Done => 6,
        RoundEnd::Quiet => 7,
        RoundEnd::Stopped(why) => reason_of(why),
    }
}

fn run_pair(answer: RunAnswer) -> Pair
    ensures { result ≡ record { refusal = run_refusal_number answer; reason = run_reason_of answer } }
{
    match answer {
        Ok(why) => Pair {
            refusal: 0,
            reason: reason_of(why),
        },
        Err(refusal) => Pair {
            refusal: wide(refusal.number()),
            reason: 0,
        },
    }
}

pub fn round_pair(answer: RoundAnswer) -> Pair
    ensures { result ≡ record { refusal = round_refusal_number answer; reason = round_reason_of answer } }
{
    match answer {
        Ok(end) => Pair {
            refusal: 0,
            reason: end_of(end),
        },
        Err(refusal) => Pair {
            refusal: wide(refusal.number()),
            reason: 0,
        },
    }
}

pub fn run_told_of(answer: RunAnswer, counts: Counts) -> RunTold
    ensures { result ≡ run_told_of answer counts }
{
    let pair = run_pair(answer);
    RunTold {
        refusal: pair.refusal,
        reason: pair.reason,
        transfers: counts.transfers,
        used: counts.used,
        written: counts.written,
        states: counts.states,
    }
}
