// Commands with a file in the place of hexadecimal digits: `f.poke ADDR FILE` is `poke ADDR HEX` with the file's bytes,
// `f.peek ADDR N FILE` is `peek ADDR N`, and its bytes go to the file; `f.forward FROM TO` is both. So the line is made one of the
// console's, in its own array, and the console's answer counts. What is asked of traces and their log is not the console's either. But for
// pages nothing is promised but that this is safe and ends.
#![tactic(auto)]

mod commands;
mod fault;
mod lines;
mod log;
mod page;
mod read;
mod system;
mod write;

pub use fault::{Teller, Told};
pub use lines::prepare;
pub use log::Log;
pub use page::Page;
pub use system::{open_read, read_full, report, say, say_failed, say_number};
pub use write::put_file;

// A line of 200,000 characters, with a carriage return and one too many.
pub type Line = Page<200002>;

// A file's name.
pub type Name = Page<4096>;

// What is to be done with a line.
#[derive(Clone, Copy)]
pub enum Task {
    // it is the console's
    Console,
    // it is the console's, with a file's bytes in it
    Read,
    // it is the console's, and the bytes that it answers go to the file
    Write,
    // it was to be left at
    Leave,
    // each transfer is to be shown, or no longer
    Trace(bool),
    // the records of each transfer go to the file, or to none
    Log,
    LogOff,
}

// What is answered where nothing else is.
pub fn answer_of(done: Result<(), Told>) -> &'static [u8] {
    match done {
        Ok(()) => b"ok\n",
        Err(Told) => b"error\n",
    }
}
