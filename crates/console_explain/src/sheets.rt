// What of a command on sheets its refusal comes from.
use crate::say::Shown;
use am9517::Controller;
use std::fmt;
use std::fmt::{Formatter, Write};

// The digits of a trailer, and of a whole sheet of each form.
const TRAILER: usize = 16;

const SHEET1: usize = 112;

const SHEET2: usize = 116;

#[derive(Clone, Copy, PartialEq, Eq)]
pub(crate) enum Form {
    One,
    Two,
}

// So many digits from the k-th before the end on.
fn digits_at(digits: &[u8], k: usize, n: usize) -> Option<&[u8]> {
    let from = digits.len().checked_sub(k)?;
    digits.get(from..)?.get(..n)
}

// The form that the trailer tells.
pub(crate) fn form_said(digits: &[u8]) -> Option<Form> {
    match digits_at(digits, TRAILER, 4)? {
        b"0100" => Some(Form::One),
        b"0200" => Some(Form::Two),
        _ => None,
    }
}

// How many bytes the command's form asks for.
pub(crate) fn of_size<W: Write>(f: &mut Formatter<W>, name: &[u8]) -> fmt::Result {
    f.write_str(match name {
        b"forward" => "    forward reads 56 bytes and writes 58\n",
        b"back" => "    back reads 58 bytes and writes 56\n",
        b"sheet2" | b"load2" => "    a sheet of form 2 has 58 bytes\n",
        _ => "    a sheet of form 1 has 56 bytes\n",
    })
}

// Whether it is a sheet of the other form.
pub(crate) fn of_form<W: Write>(f: &mut Formatter<W>, digits: &[u8]) -> fmt::Result {
    f.write_str(match form_said(digits) {
        Some(Form::Two) if digits.len() < SHEET2 => {
            "    the sheet says form 2, which has 58 bytes: here are fewer\n"
        }
        Some(Form::Two) => "    the sheet says form 2: load2 reads it, back converts it\n",
        Some(Form::One) => "    the sheet says form 1: load reads it, forward converts it\n",
        None => "",
    })
}

// Whether it is an old one, given to what reads form 2.
pub(crate) fn of_old<W: Write>(f: &mut Formatter<W>, name: &[u8], digits: &[u8]) -> fmt::Result {
    let is_old = SHEET1 <= digits.len() && form_said(digits) == Some(Form::One);
    match name {
        b"load2" | b"back" if is_old => of_form(f, digits),
        _ => Ok(()),
    }
}

// Whether it is its edition that is out of range.
pub(crate) fn of_range<W: Write>(f: &mut Formatter<W>, digits: &[u8]) -> fmt::Result {
    match (form_said(digits), digits_at(digits, SHEET2, 2)) {
        (Some(Form::Two), Some(edition)) if !matches!(edition, b"00" | b"01") => writeln!(
            f,
            "    the sheet has edition 0x{}: 0 is Am9517A, 1 is Intel 8237A",
            Shown(edition)
        ),
        _ => Ok(()),
    }
}

// The edition and the waits of a sheet of form 2, as they stand in it.
pub(crate) fn of_front<W: Write>(f: &mut Formatter<W>, digits: &[u8]) -> fmt::Result {
    let front = digits_at(digits, SHEET2, 4);
    let Some((edition, waits)) = front.and_then(|front| front.split_at_checked(2)) else {
        return Ok(());
    };
    writeln!(
        f,
        "    the sheet has edition 0x{} and waits 0x{}: both must be 0",
        Shown(edition),
        Shown(waits)
    )
}

// What of the state has no place in a sheet of form 1: its edition, its waits. `form2` is how a sheet of form 2 is asked for.
pub(crate) fn of_state<W: Write>(f: &mut Formatter<W>, c: &Controller, form2: &str) -> fmt::Result {
    if c.edition != 0 {
        writeln!(
            f,
            "    the state is an Intel 8237A's: {form2} holds all of it"
        )?;
    }
    match c.waits {
        0 => Ok(()),
        waits => writeln!(
            f,
            "    each transfer waits {waits} states: {form2} holds them, waits 0 while idle takes them away"
        ),
    }
}
