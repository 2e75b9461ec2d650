// What the operations tell, as numbers.
ghost use Rattle.std.specs.Prelude.{◌≤◌};

use am9517::{Answer, Refusal};
use am9517_service::{Ran, RoundAnswer, RoundEnd, Rounded, RunAnswer};
use logs::{Judged, Verdict};

// Numbers are folded by their lower 32 bits.
const WORD: u64 = 1 << 32;

// What a run or a round told, its state aside.
#[derive(Clone, Copy, Default)]
pub(crate) struct Told {
    number: u64,
    transfers: u64,
    used: usize,
    written: usize,
    states: u64,
}

impl From<Ran> for Told {
    fn from(r: Ran) -> Told {
        Told {
            number: run_number(r.answer),
            transfers: r.counts.transfers,
            used: r.counts.used,
            written: r.counts.written,
            states: r.counts.states,
        }
    }
}

impl From<Rounded> for Told {
    fn from(r: Rounded) -> Told {
        Told {
            number: round_number(r.answer) + begun_of(r.services),
            transfers: r.totals.transfers,
            used: r.totals.used,
            written: r.totals.written,
            states: r.totals.states,
        }
    }
}

impl Told {
    // All of it in one number.
    pub(crate) fn folded(self) -> u64 {
        let moved = self.used as u64 % WORD * 3 + self.written as u64 % WORD * 5;
        self.number % WORD + self.transfers % WORD * 2 + moved + self.states % WORD * 7
    }
}

fn refused_number(refusal: Refusal) -> u64
    ensures { result ≤ 511 }
{
    u64::from(refusal.number()) + 256
}

pub(crate) fn answer_number(answer: Answer) -> u64 {
    match answer {
        Ok(told) => u64::from(told.unwrap_or(0)),
        Err(refusal) => refused_number(refusal),
    }
}

fn run_number(answer: RunAnswer) -> u64 {
    match answer {
        Ok(why) => why as u64,
        Err(refusal) => refused_number(refusal),
    }
}

fn round_number(answer: RoundAnswer) -> u64
    ensures { result ≤ 511 }
{
    match answer {
        Ok(RoundEnd::Done) => 5,
        Ok(RoundEnd::Quiet) => 6,
        Ok(RoundEnd::Stopped(why)) => why as u64,
        Err(refusal) => refused_number(refusal),
    }
}

// The services of the four channels, in one number.
fn begun_of(services: [u32; 4]) -> u64
    ensures { result ≤ 655360 }
{
    let [first, second, third, fourth] = services;
    u64::from(first % 65536 + second % 65536 * 2 + third % 65536 * 3 + fourth % 65536 * 4)
}

// What was found of a log: every record is right (0), or not (1), or a refusal; how many bytes are; the address error.
#[derive(Clone, Copy, Default)]
pub(crate) struct Found {
    pub(crate) number: u64,
    right: usize,
    pub(crate) error: i32,
}

impl Found {
    // Of a log of this size.
    pub(crate) fn of(judged: Judged, size: usize) -> Found {
        match judged.verdict {
            Verdict::Accepted => Found {
                number: 0,
                right: size,
                error: 0,
            },
            Verdict::Wrong { at, error } => Found {
                number: 1,
                right: at,
                error,
            },
            Verdict::Refused(refusal) => Found {
                number: refused_number(refusal),
                right: 0,
                error: 0,
            },
        }
    }

    // Number and bytes in one.
    pub(crate) fn folded(self) -> u64 {
        self.number % WORD + self.right as u64 % WORD * 1024
    }
}
