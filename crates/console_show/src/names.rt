// Single things in words: the parts of a mode and of a command, an edition, the waits.
use am9517::modes::{active_low, autoinitialize, compressed, decrement, disabled, rotating};
use std::fmt;
use std::fmt::{Display, Formatter, Write};

// Hexadecimal, digit by digit: a table has many, and the formatter is dearer.
const DIGITS: &str = "0123456789abcdef";

#[derive(Clone, Copy)]
pub(crate) struct Word(pub(crate) u16);

impl Display for Word {
    fn fmt<W: Write>(&self, f: &mut Formatter<W>) -> fmt::Result {
        for shift in [12, 8, 4, 0] {
            let digit = usize::from(self.0 >> shift & 15);
            f.write_str(DIGITS.get(digit..digit + 1).unwrap_or(""))?;
        }
        Ok(())
    }
}

#[derive(Clone, Copy)]
pub(crate) struct Mode(pub(crate) u8);

impl Display for Mode {
    fn fmt<W: Write>(&self, f: &mut Formatter<W>) -> fmt::Result {
        let mode = self.0;
        let service = match mode / 64 {
            0 => "demand",
            1 => "single",
            2 => "block",
            _ => "cascade",
        };
        let transfer = match mode / 4 % 4 {
            0 => "verify",
            1 => "write",
            2 => "read",
            _ => "type-11",
        };
        let direction = if decrement(mode) { "down" } else { "up" };
        let auto = if autoinitialize(mode) { " auto" } else { "" };
        write!(f, "{mode:02x} {service} {transfer} {direction}{auto}")
    }
}

#[derive(Clone, Copy)]
pub(crate) struct Command(pub(crate) u8);

impl Display for Command {
    fn fmt<W: Write>(&self, f: &mut Formatter<W>) -> fmt::Result {
        let command = self.0;
        let state = if disabled(command) {
            "disabled"
        } else {
            "enabled"
        };
        let order = if rotating(command) {
            "rotating"
        } else {
            "fixed order"
        };
        let timing = if compressed(command) {
            "compressed"
        } else {
            "normal timing"
        };
        let active = if active_low(command) { "low" } else { "high" };
        write!(
            f,
            "{command:02x} {state}, {order}, {timing}, DREQ active {active}"
        )
    }
}

#[derive(Clone, Copy)]
pub(crate) struct Edition(pub(crate) u8);

impl Display for Edition {
    fn fmt<W: Write>(&self, f: &mut Formatter<W>) -> fmt::Result {
        match self.0 {
            0 => f.write_str("0 Am9517A"),
            1 => f.write_str("1 Intel 8237A"),
            other => write!(f, "{other} is none: 0 is Am9517A, 1 is Intel 8237A"),
        }
    }
}

#[derive(Clone, Copy)]
pub(crate) struct Waits(pub(crate) u8);

impl Display for Waits {
    fn fmt<W: Write>(&self, f: &mut Formatter<W>) -> fmt::Result {
        let states = u16::from(self.0);
        if states == 0 {
            return f.write_str("none");
        }
        let twice = 2 * states;
        write!(
            f,
            "each transfer takes {states} states more, of memory-to-memory {twice}"
        )
    }
}
