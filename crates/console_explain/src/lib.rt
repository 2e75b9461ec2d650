// Why a line was answered by `error` or by `refused N`, in words for people. Nothing is promised of these texts but that they
// are put safely.
#![tactic(auto)]

mod asked;
mod boards;
mod faults;
mod forms;
mod refusals;
mod say;
mod sheets;

use am9517::Controller;
use asked::Asked;
use board::Board;
use console_show::page::put;
use faults::error_in;
use refusals::refusal;
use std::fmt;
use std::fmt::{Display, Formatter, Write};

// What the console holds, as far as an answer depends on it.
#[derive(Clone, Copy)]
pub struct Held {
    pub controller: Controller,
    pub board: Board,
    pub lent: usize,
    pub queued: usize,
    pub size: usize,
}

// Why a line had this answer; nothing is said of answers that are neither `error` nor `refused N`.
#[derive(Clone, Copy)]
struct Why<'a> {
    asked: Asked<'a>,
    answer: &'a [u8],
}

impl Display for Why<'_> {
    fn fmt<W: Write>(&self, f: &mut Formatter<W>) -> fmt::Result {
        if matches!(self.answer, b"error\n") {
            return error_in(f, self.asked);
        }
        match number_of(self.answer) {
            Some(number) => refusal(f, self.asked, number),
            None => Ok(()),
        }
    }
}

// The number in a line `refused N`.
fn number_of(answer: &[u8]) -> Option<&[u8]> {
    answer.strip_prefix(b"refused ")?.strip_suffix(b"\n")
}

// `line` is what was said, without a comment.
pub fn explain(held: &Held, line: &[u8], answer: &[u8], out: &mut [u8], at: usize) -> usize {
    let asked = Asked { held, line };
    put(out, at, Why { asked, answer })
}
