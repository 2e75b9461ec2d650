// Why a line was answered by `error`: its name, the number of its words, a word, or a place outside an array.
use crate::asked::Asked;
use crate::forms::{Fault, fault_of};
use crate::say::Quoted;
use console_show::rows::{form, is_named};
use console_show::{COMMANDS, REFUSALS};
use std::fmt;
use std::fmt::{Formatter, Write};

fn fault<W: Write>(f: &mut Formatter<W>, word: &[u8], fault: Fault) -> fmt::Result {
    let what = match fault {
        Fault::NoBytes => "no HEX: two hexadecimal digits for each byte, or - for none",
        Fault::NoByte => "over 255",
        Fault::NoSwitch => "neither on nor off",
        Fault::NoNumber if word.ends_with(b"h") => {
            "no number: 85h is for comments, here it is 0x85"
        }
        Fault::NoNumber => "no number below 4294967296, decimal or hexadecimal behind 0x",
    };
    writeln!(f, "{} is {what}", Quoted(word))
}

fn no_command<W: Write>(f: &mut Formatter<W>, name: &[u8]) -> fmt::Result {
    writeln!(f, "{} is no command: help lists them", Quoted(name))
}

// What a command's words have to keep to, beside its form.
fn limit_of(name: &[u8]) -> &'static str {
    match name {
        b"dump" => "N is 16384 at most, and all lies within the memory, which has 65537 bytes",
        b"state" => "a state has 48 bytes, which are 96 digits",
        b"full" => "a state in full has 50 bytes, which are 100 digits",
        b"fresh" => "E is 0, an Am9517A, or 1, an Intel 8237A",
        b"waits" => "N is 255 at most",
        b"room" | b"sheet" | b"sheet2" | b"forward" | b"back" => "N is 70000 at most",
        b"b.state" => "a board has 101 bytes, which are 202 digits",
        b"b.fresh" => "E0 and E1 are each 0, an Am9517A, or 1, an Intel 8237A",
        b"b.waits" => "CHIP is 0 or 1, N is 255 at most",
        b"b.sheet" => "CHIP is 0 or 1, FORM is 1 or 2, N is 70000 at most",
        _ if name.starts_with(b"b.") => "CHIP is 0 or 1, FORM is 1 or 2",
        _ => "that lies outside the memory, which has 65537 bytes",
    }
}

// The words are such as the form asks for, and yet it can't be done.
fn limit<W: Write>(f: &mut Formatter<W>, asked: Asked<'_>) -> fmt::Result {
    let queued = asked.held.queued;
    let size = asked.held.size;
    match asked.name() {
        b"feed" | b"fill" => writeln!(f, "the queue has {queued} bytes, and has 70000 at most"),
        b"out" => writeln!(f, "that lies outside the room, which has {size} bytes"),
        b"help" => no_command(f, asked.word(1)),
        name => writeln!(f, "{}", limit_of(name)),
    }
}

// A word is missing, or one is too many.
fn miscount<W: Write>(f: &mut Formatter<W>, asked: Asked<'_>, row: &str) -> fmt::Result {
    if asked.words().count() < form(row).count() {
        return f.write_str("a word is missing\n");
    }
    match asked.words().last() {
        Some(word) => writeln!(f, "{} is a word too many", Quoted(word)),
        None => Ok(()),
    }
}

// A line of a known name with as many words as the row's form.
fn misfit<W: Write>(f: &mut Formatter<W>, asked: Asked<'_>, row: &str) -> fmt::Result {
    for (place, said) in form(row).zip(asked.words()).skip(1) {
        if let Some(wrong) = fault_of(place, said) {
            return fault(f, said, wrong);
        }
    }
    limit(f, asked)
}

// The rows of help, and for a number those of the refusals.
fn rows_for(name: &[u8]) -> &'static [&'static str] {
    match name {
        [b'0'..=b'9', ..] => &REFUSALS,
        _ => &COMMANDS,
    }
}

pub(crate) fn error_in<W: Write>(f: &mut Formatter<W>, asked: Asked<'_>) -> fmt::Result {
    let name = asked.name();
    let n = asked.words().count();
    let rows = rows_for(name);
    let Some(first) = rows.iter().find(|row| is_named(row, name)) else {
        return no_command(f, name);
    };
    let fitting = rows
        .iter()
        .find(|row| is_named(row, name) && form(row).count() == n);
    if let Some(row) = fitting {
        misfit(f, asked, row)?;
        return writeln!(f, "    {row}");
    }
    miscount(f, asked, first)?;
    for row in rows.iter().filter(|row| is_named(row, name)) {
        writeln!(f, "    {row}")?;
    }
    Ok(())
}
