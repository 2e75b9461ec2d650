// What of the board a refusal comes from.
use crate::asked::Asked;
use crate::refusals::{broken, nobody, of_lent, of_service};
use crate::sheets::{Form, form_said, of_range, of_state};
use am9517::Controller;
use board::Board;
use console_show::Numbered;
use std::fmt;
use std::fmt::{Formatter, Write};

// Which range is broken.
fn of_pair<W: Write>(f: &mut Formatter<W>, b: &Board) -> fmt::Result {
    broken(f, "the first controller's", b.first.edition)?;
    broken(f, "the second controller's", b.second.edition)?;
    if b.first.in_service != 0 && b.second.in_service != 0 {
        f.write_str("    both controllers are in service: there is one service at a time\n")?;
    }
    match b.granted_last {
        0 | 1 => Ok(()),
        last => writeln!(
            f,
            "    granted last was {last}: 0 is the first controller, 1 the second"
        ),
    }
}

fn of_open<W: Write>(f: &mut Formatter<W>, b: &Board) -> fmt::Result {
    let serving = if b.first.in_service != 0 {
        Numbered::first(&b.first)
    } else {
        Numbered::second(&b.second)
    };
    of_service(f, serving)
}

fn of_nobody<W: Write>(f: &mut Formatter<W>, b: &Board) -> fmt::Result {
    f.write_str("    of the first controller:\n")?;
    nobody(f, Numbered::first(&b.first))?;
    f.write_str("    of the second controller:\n")?;
    nobody(f, Numbered::second(&b.second))
}

// The controller that the line names.
fn chip_of(asked: Asked<'_>) -> &Controller {
    let b = &asked.held.board;
    if asked.says(1, 0) {
        &b.first
    } else {
        &b.second
    }
}

fn of_size<W: Write>(f: &mut Formatter<W>, asked: Asked<'_>) -> fmt::Result {
    f.write_str(if asked.says(2, 1) {
        "    a sheet of form 1 has 56 bytes\n"
    } else {
        "    a sheet of form 2 has 58 bytes\n"
    })
}

// Whether it is a sheet of the other form.
fn of_other_form<W: Write>(f: &mut Formatter<W>, digits: &[u8]) -> fmt::Result {
    f.write_str(match form_said(digits) {
        Some(Form::Two) => "    the sheet says form 2: FORM is 2 for it\n",
        Some(Form::One) => "    the sheet says form 1: FORM is 1 for it\n",
        None => "",
    })
}

pub(crate) fn of_board<W: Write>(
    f: &mut Formatter<W>,
    asked: Asked<'_>,
    number: &[u8],
) -> fmt::Result {
    let b = &asked.held.board;
    let digits = asked.word(3);
    match number {
        b"1" => of_pair(f, b),
        b"3" => of_open(f, b),
        b"6" => of_nobody(f, b),
        b"7" => of_lent(f, asked.held.lent),
        b"9" => of_size(f, asked),
        b"11" => of_other_form(f, digits),
        b"14" => of_range(f, digits),
        b"15" => of_state(f, chip_of(asked), "FORM 2"),
        _ => Ok(()),
    }
}
