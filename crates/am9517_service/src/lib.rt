// Services over lent memory, device bytes and device room: a run of one, and a round of up to k.
#![tactic(auto)]

use am9517::{Controller, Refusal};

mod bytes;
mod copies;
mod legs;
mod rounds;
mod runs;
mod spans;
mod transfers;
mod turns;

pub use legs::{Bits, bits_after, channel_after};
pub use rounds::{Facts, is_ended, round};
pub use runs::{bits_of, is_copy, run, run_refusal};
pub use turns::{Rota, Served, next_of, rota_of, serve};

// Why a run stopped.
#[derive(Clone, Copy, PartialEq, Eq)]
pub enum Reason {
    Ended,
    Dropped,
    Cascade,
    Limit,
    Short,
}

// What is counted: transfers, device bytes used and written, and working states.
#[derive(Clone, Copy)]
pub struct Counts {
    pub transfers: u64,
    pub used: usize,
    pub written: usize,
    pub states: u64,
}

// How a run went: it stopped for a reason, or was refused.
pub type RunAnswer = Result<Reason, Refusal>;

// The next state, the answer, and what was counted; after a refusal the state as it was, and zeros.
#[derive(Clone, Copy)]
pub struct Ran {
    pub controller: Controller,
    pub answer: RunAnswer,
    pub counts: Counts,
}

// Why a round stopped: k services begun, nobody entitled, or a run that did not end.
#[derive(Clone, Copy, PartialEq, Eq)]
pub enum RoundEnd {
    Done,
    Quiet,
    Stopped(Reason),
}

// How a round went: it stopped so, or was refused.
pub type RoundAnswer = Result<RoundEnd, Refusal>;

// The next state, the answer, the services begun per channel and the totals.
#[derive(Clone, Copy)]
pub struct Rounded {
    pub controller: Controller,
    pub answer: RoundAnswer,
    pub services: [u32; 4],
    pub totals: Counts,
}
