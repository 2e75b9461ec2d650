// A record of a log in words. Nothing is promised but that this is safe and ends.
#![tactic(auto)]

use logs::Record;
use std::fmt;
use std::fmt::{Display, Formatter, Write};

// Each byte as two hexadecimal digits and an h, and the digits: read off here, for a trace has many, and the formatter is dearer.
const HEX: &str =
    "00h01h02h03h04h05h06h07h08h09h0ah0bh0ch0dh0eh0fh10h11h12h13h14h15h16h17h18h19h1ah1bh1ch1dh1eh1fh\
20h21h22h23h24h25h26h27h28h29h2ah2bh2ch2dh2eh2fh30h31h32h33h34h35h36h37h38h39h3ah3bh3ch3dh3eh3fh\
40h41h42h43h44h45h46h47h48h49h4ah4bh4ch4dh4eh4fh50h51h52h53h54h55h56h57h58h59h5ah5bh5ch5dh5eh5fh\
60h61h62h63h64h65h66h67h68h69h6ah6bh6ch6dh6eh6fh70h71h72h73h74h75h76h77h78h79h7ah7bh7ch7dh7eh7fh\
80h81h82h83h84h85h86h87h88h89h8ah8bh8ch8dh8eh8fh90h91h92h93h94h95h96h97h98h99h9ah9bh9ch9dh9eh9fh\
a0ha1ha2ha3ha4ha5ha6ha7ha8ha9haahabhachadhaehafhb0hb1hb2hb3hb4hb5hb6hb7hb8hb9hbahbbhbchbdhbehbfh\
c0hc1hc2hc3hc4hc5hc6hc7hc8hc9hcahcbhcchcdhcehcfhd0hd1hd2hd3hd4hd5hd6hd7hd8hd9hdahdbhdchddhdehdfh\
e0he1he2he3he4he5he6he7he8he9heahebhechedheehefhf0hf1hf2hf3hf4hf5hf6hf7hf8hf9hfahfbhfchfdhfehffh";

const DECIMAL: &str = "0123456789";

fn hex(b: u8) -> &'static str {
    let at = 3 * usize::from(b);
    HEX.get(at..at + 2).unwrap_or("")
}

fn hex_h(b: u8) -> &'static str {
    let at = 3 * usize::from(b);
    HEX.get(at..at + 3).unwrap_or("")
}

// The flags that are set, each with a blank before it.
#[derive(Clone, Copy)]
pub struct Flags(pub u8);

impl Display for Flags {
    fn fmt<W: Write>(&self, f: &mut Formatter<W>) -> fmt::Result {
        for (flag, word) in [(1, " TC"), (2, " EOP"), (4, " last")] {
            if self.0 & flag != 0 {
                f.write_str(word)?;
            }
        }
        if 8 <= self.0 {
            f.write_str(" flags ")?;
            f.write_str(hex_h(self.0))?;
        }
        Ok(())
    }
}

// The number of a kind, between blanks.
#[derive(Clone, Copy)]
struct Kind(u8);

impl Display for Kind {
    fn fmt<W: Write>(&self, f: &mut Formatter<W>) -> fmt::Result {
        match self.0 {
            0 => f.write_str(" verify "),
            1 => f.write_str(" write "),
            2 => f.write_str(" read "),
            3 => f.write_str(" memory-to-memory "),
            kind => write!(f, " kind {kind} "),
        }
    }
}

// A number, which has one digit mostly.
#[derive(Clone, Copy)]
pub struct Number(pub u64);

impl Display for Number {
    fn fmt<W: Write>(&self, f: &mut Formatter<W>) -> fmt::Result {
        if 9 < self.0 {
            return write!(f, "{}", self.0);
        }
        let at = self.0 as usize;
        f.write_str(DECIMAL.get(at..at + 1).unwrap_or(""))
    }
}

#[derive(Clone, Copy)]
struct Address(u16);

impl Display for Address {
    fn fmt<W: Write>(&self, f: &mut Formatter<W>) -> fmt::Result {
        let [high, low] = self.0.to_be_bytes();
        f.write_str(hex(high))?;
        f.write_str(hex_h(low))
    }
}

// A record's channel, kind, addresses and byte.
#[derive(Clone, Copy)]
pub struct Transfer(pub Record);

impl Display for Transfer {
    fn fmt<W: Write>(&self, f: &mut Formatter<W>) -> fmt::Result {
        let Record {
            channel,
            kind,
            address,
            second,
            byte,
            flags: _,
        } = self.0;
        f.write_str("channel ")?;
        Number(u64::from(channel)).fmt(f)?;
        Kind(kind).fmt(f)?;
        Address(address).fmt(f)?;
        // where there should be one or is one
        if (kind == 3) | (second != 0) {
            f.write_str(" to ")?;
            Address(second).fmt(f)?;
        }
        // a verify has none
        if (kind != 0) | (byte != 0) {
            f.write_str(" byte ")?;
            f.write_str(hex_h(byte))?;
        }
        Ok(())
    }
}

// All of a record.
#[derive(Clone, Copy)]
pub struct Said(pub Record);

impl Display for Said {
    fn fmt<W: Write>(&self, f: &mut Formatter<W>) -> fmt::Result {
        write!(f, "{}{}", Transfer(self.0), Flags(self.0.flags))
    }
}
