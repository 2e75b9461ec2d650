// The board as one table for people, in the rows of a controller's. Nothing is promised of the text but that it is put safely.
#![tactic(auto)]

use board::Board;
use console_show::page::put;
use console_show::{ChannelRows, HEADING, Numbered, OtherRows, Ranges};
use std::fmt;
use std::fmt::{Display, Formatter, Write};

// Who was granted last, and so who is first where both ask.
#[derive(Clone, Copy)]
struct Last(u8);

impl Display for Last {
    fn fmt<W: Write>(&self, f: &mut Formatter<W>) -> fmt::Result {
        match self.0 {
            0 => f.write_str(
                "granted was the first controller; where both ask, the second is first",
            ),
            1 => f.write_str(
                "granted was the second controller; where both ask, the first is first",
            ),
            other => write!(
                f,
                "{other} is none: 0 is the first controller, 1 the second"
            ),
        }
    }
}

// What a grant would say now.
#[derive(Clone, Copy)]
struct Next<'a>(&'a Board);

impl Display for Next<'_> {
    fn fmt<W: Write>(&self, f: &mut Formatter<W>) -> fmt::Result {
        match self.0.grant().answer {
            Ok(Some(n)) => writeln!(f, "next     channel {n} would be granted"),
            Ok(None) => Ok(()),
            Err(refusal) => writeln!(
                f,
                "next     a grant would be refused by {}",
                refusal.number()
            ),
        }
    }
}

#[derive(Clone, Copy)]
struct Shown<'a>(&'a Board);

impl Display for Shown<'_> {
    fn fmt<W: Write>(&self, f: &mut Formatter<W>) -> fmt::Result {
        let b = self.0;
        let first = Numbered::first(&b.first);
        let second = Numbered::second(&b.second);
        write!(f, "{HEADING}{}{}", ChannelRows(first), ChannelRows(second))?;
        f.write_str("first controller: channels 0 to 3, registers 0 to 15\n")?;
        write!(f, "{}", OtherRows(first))?;
        f.write_str("second controller: channels 4 to 7, registers 16 to 31\n")?;
        write!(f, "{}", OtherRows(second))?;
        f.write_str("both controllers\n")?;
        writeln!(f, "last     {}", Last(b.granted_last))?;
        write!(f, "{}", Next(b))?;
        writeln!(f, "{}", Ranges(b.valid()))
    }
}

pub fn show_board(b: Board, out: &mut [u8], at: usize) -> usize {
    put(out, at, Shown(&b))
}
