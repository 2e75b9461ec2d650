// Help: all commands, one of them, or the refusals.
use crate::advice::{COMMANDS, EXAMPLES, REFUSALS};
use crate::page::put;
use crate::rows::is_named;
use std::fmt;
use std::fmt::{Display, Formatter, Write};

#[derive(Clone, Copy)]
struct AllHelp;

impl Display for AllHelp {
    fn fmt<W: Write>(&self, f: &mut Formatter<W>) -> fmt::Result {
        for row in COMMANDS.iter() {
            writeln!(f, "{row}")?;
        }
        f.write_str(
            "Numbers are decimal, or hexadecimal behind 0x; the 85h of comments is accepted nowhere.
HEX: two digits a byte, or - for none. FILE, FROM, TO: a name without blanks and #.",
        )
    }
}

pub fn help(out: &mut [u8], at: usize) -> usize {
    put(out, at, AllHelp)
}

// The rows of one command, and its example; nothing where there is no such command.
#[derive(Clone, Copy)]
struct CommandHelp<'a>(&'a [u8]);

impl Display for CommandHelp<'_> {
    fn fmt<W: Write>(&self, f: &mut Formatter<W>) -> fmt::Result {
        let name = self.0;
        f.write_joined(COMMANDS.iter().filter(|row| is_named(row, name)), "\n")?;
        match EXAMPLES.iter().find(|line| is_named(line, name)) {
            Some(line) => write!(f, "\nfor example:  {line}"),
            None => Ok(()),
        }
    }
}

pub fn help_on(word: &[u8], out: &mut [u8], at: usize) -> usize {
    put(out, at, CommandHelp(word))
}

#[derive(Clone, Copy)]
struct RefusalHelp;

impl Display for RefusalHelp {
    fn fmt<W: Write>(&self, f: &mut Formatter<W>) -> fmt::Result {
        f.write_joined(REFUSALS.iter(), "\n")
    }
}

pub fn help_refusals(out: &mut [u8], at: usize) -> usize {
    put(out, at, RefusalHelp)
}
