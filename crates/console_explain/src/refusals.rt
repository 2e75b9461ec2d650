// What a refusal's number means, and what of the state or of the line it comes from.
use crate::asked::Asked;
use crate::boards::of_board;
use crate::say::Shown;
use crate::sheets::{of_form, of_front, of_old, of_range, of_size, of_state};
use am9517::modes::{disabled, is_block};
use console_show::Numbered;
use console_show::rows::meaning;
use std::fmt;
use std::fmt::{Formatter, Write};
use words::bits::is_set;

// Why channel n is entitled or not: its line, its request bit.
fn of_channel<W: Write>(f: &mut Formatter<W>, chip: Numbered<'_>, n: u8, mode: u8) -> fmt::Result {
    let c = chip.controller;
    let place = usize::from(n);
    let line = if !c.active(place) {
        "not active"
    } else if is_set(c.mask, place) {
        "active, but it is masked"
    } else {
        "active"
    };
    let request = if !is_set(c.request, place) {
        "clear"
    } else if is_block(mode) {
        "set"
    } else {
        "set, but counts in block mode only"
    };
    let channel = chip.channel(n);
    writeln!(
        f,
        "    channel {channel}: its line is {line}, its request bit is {request}"
    )
}

// Why nobody is entitled.
pub(crate) fn nobody<W: Write>(f: &mut Formatter<W>, chip: Numbered<'_>) -> fmt::Result {
    if disabled(chip.controller.command) {
        f.write_str("    bit 2 of the command disables all channels\n")?;
    }
    for (n, channel) in (0u8..4).zip(chip.controller.channels.iter()) {
        of_channel(f, chip, n, channel.mode)?;
    }
    Ok(())
}

// Whether the edition is the broken range.
pub(crate) fn broken<W: Write>(f: &mut Formatter<W>, whose: &str, edition: u8) -> fmt::Result {
    if edition <= 1 {
        return Ok(());
    }
    writeln!(
        f,
        "    {whose} edition is {edition}: 0 is Am9517A, 1 is Intel 8237A"
    )
}

// Whose service is open.
pub(crate) fn of_service<W: Write>(f: &mut Formatter<W>, chip: Numbered<'_>) -> fmt::Result {
    let channel = chip.channel(chip.controller.serving);
    writeln!(
        f,
        "    the service is channel {channel}'s: run it to its end"
    )
}

pub(crate) fn of_lent<W: Write>(f: &mut Formatter<W>, lent: usize) -> fmt::Result {
    writeln!(
        f,
        "    lent are {lent} bytes: memory 65536 lends as many as it takes"
    )
}

// What of the state or of the line it comes from, where its words don't tell.
fn of_chip<W: Write>(f: &mut Formatter<W>, asked: Asked<'_>, number: &[u8]) -> fmt::Result {
    let c = &asked.held.controller;
    let chip = Numbered::first(c);
    let name = asked.name();
    let digits = asked.word(1);
    match number {
        b"1" => broken(f, "its", c.edition),
        b"3" => of_service(f, chip),
        b"6" => nobody(f, chip),
        b"7" => of_lent(f, asked.held.lent),
        b"9" => {
            of_size(f, name)?;
            of_old(f, name, digits)
        }
        b"11" => of_form(f, digits),
        b"14" => of_range(f, digits),
        b"15" if matches!(name, b"back") => of_front(f, digits),
        b"15" => of_state(f, c, "sheet2"),
        _ => Ok(()),
    }
}

pub(crate) fn refusal<W: Write>(
    f: &mut Formatter<W>,
    asked: Asked<'_>,
    number: &[u8],
) -> fmt::Result {
    writeln!(f, "refused by {}: {}", Shown(number), meaning(number))?;
    if asked.name().starts_with(b"b.") {
        of_board(f, asked, number)
    } else {
        of_chip(f, asked, number)
    }
}
