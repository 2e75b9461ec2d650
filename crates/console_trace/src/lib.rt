// A run or a round transfer by transfer: for each a record, and a line for people. It is made beforehand, on a copy of the memory. Nothing is
// promised but that this is safe and ends.
#![tactic(auto)]

use am9517::Controller;

mod asked;
mod lines;
mod transfers;

pub use asked::begun;
pub use transfers::go_on;

// What is still to come: the state; how many device bytes are used, and how many places of the room are left; the number of the service under
// way, its transfers, how many it may make and which meets EOP; how many services may still begin. Where nothing is to come there is none.
#[derive(Clone, Copy)]
pub struct Course {
    controller: Controller,
    used: usize,
    left: usize,
    service: u64,
    transfers: u64,
    most: u64,
    eop: u64,
    services: u32,
}

// What is still to come, the place behind the lines and that behind the records.
#[derive(Clone, Copy)]
pub struct Traced {
    pub course: Option<Course>,
    pub at: usize,
    pub filled: usize,
}
