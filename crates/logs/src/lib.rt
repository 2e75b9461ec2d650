// Judging the bus log of a service that another replica made: which of its records are what the rules do next.
#![tactic(auto)]

use am9517::{Controller, Refusal};

mod ends;
mod errors;
mod judging;
mod records;
mod registers;

pub use judging::{handed_back, judge};
pub use records::{bytes_of, next_record, record_in};

// A record of a log: what it says of one transfer.
#[derive(Clone, Copy, PartialEq, Eq)]
pub struct Record {
    pub channel: u8,
    pub kind: u8,
    pub address: u16,
    pub second: u16,
    pub byte: u8,
    pub flags: u8,
}

// What is found of a log: every record is right; or the place of the first wrong one and its address error; or the log is refused.
#[derive(Clone, Copy)]
pub enum Verdict {
    Accepted,
    Wrong { at: usize, error: i32 },
    Refused(Refusal),
}

// The state as the good records made it, and the verdict; after a refusal the state as it was.
#[derive(Clone, Copy)]
pub struct Judged {
    pub controller: Controller,
    pub verdict: Verdict,
}
