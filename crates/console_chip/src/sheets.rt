// The commands on sheets, for any form.
ghost use Rattle.std.specs.Prelude.{◌≡◌, ◌≤◌, ◌/◌, List, ℕ, length};
ghost use Rattle.std.specs.Option.{option_copied};
ghost use Rattle.am9517_sheet.specs.Sheet.{Stored};
ghost use Rattle.console_text.specs.Text.{page, put};
ghost use Rattle.console_chip.specs.Answers.{ok_text, bytes_answer, reply, said, saying};
ghost use Rattle.console_chip.specs.Sheets.{bytes_within, sheet_said, StoresAs, stored_text, stored_reply, within, sheet_reply, load_reply, convert_reply};

use crate::answers::{Spoken, bytes_said, fault, ok, refused};
use am9517::Controller;
use am9517_sheet::{Form, SheetAnswer};
use console_text::hex::{is_bytes, store};
use console_text::numbers::number_of;

// The longest slice that a sheet is written into.
pub const SLICE: usize = 70000;

// What each byte of that slice is before.
pub const BEFORE: u8 = 0xEE;

#[tactic(auto, unfolding(crate::specs::Sheets::sheet_said))]
pub fn sheet_said(answer: SheetAnswer, bytes: &[u8], out: &mut [u8], at: usize) -> usize
    ensures { page out.new result ≡ put (page out.old at) (sheet_said answer (bytes_answer bytes.now)) }
{
    match answer {
        Ok(()) => bytes_said(out, at, bytes),
        Err(refusal) => refused(out, at, refusal),
    }
}

// A sheet was read, or refused, and what the command is on is now this.
#[tactic(auto, unfolding(crate::specs::Sheets::sheet_said))]
pub fn loaded<T>(out: &mut [u8], at: usize, next: T, answer: SheetAnswer) -> Spoken<T>
    ensures { said result out.new ≡ saying (page out.old at) (reply next (sheet_said answer ok_text)) }
{
    let at = match answer {
        Ok(()) => ok(out, at),
        Err(refusal) => refused(out, at, refusal),
    };
    Spoken { next, at }
}

// The bytes that a word says, in the front of `spare`, if they have room there.
#[tactic(auto, using(std::proofs::lemmas::Bool::Decides::nat_tests), unfolding(words::specs::Choice::when, crate::specs::Sheets::bytes_within))]
pub fn bytes_of<'a>(digits: &[u8], spare: &'a mut [u8]) -> Option<&'a [u8]>
    ensures { option_copied result ≡ bytes_within (length spare.old) digits.now }
{
    let n = digits.len() / 2;
    if spare.len() < n {
        return None;
    }
    if !is_bytes(digits) {
        return None;
    }
    store(spare, 0, digits);
    Some(&spare[..n])
}

// The first n bytes of `spare` after a sheet is stored into them, or the refusal.
fn stored_said<F: FnOnce(&mut [u8]) -> SheetAnswer>(
    n: usize,
    spare: &mut [u8],
    out: &mut [u8],
    at: usize,
    store: F,
) -> usize
    requires fits { n ≤ length spare.old }
    requires callable { F.IsAlwaysCallable store }
    ensures { (stores : List ℕ → Stored) → StoresAs (F.post store) stores → page out.new result ≡ put (page out.old at) (stored_text stores n) }
{
    let slice = &mut spare[..n];
    slice.fill(BEFORE);
    let answer = store(slice);
    sheet_said(answer, slice, out, at)
}

// A sheet is stored into a slice of as many bytes as a word says; what the command is on stays.
#[tactic(auto, using(console_text::proofs::NumberLaws::number_fits, std::proofs::lemmas::Bool::Decides::nat_tests), unfolding(crate::specs::Answers::numbered, words::specs::Choice::when))]
pub fn stored<T, F: FnOnce(&mut [u8]) -> SheetAnswer>(
    on: T,
    size: &[u8],
    spare: &mut [u8],
    out: &mut [u8],
    at: usize,
    store: F,
) -> Spoken<T>
    requires { F.IsAlwaysCallable store }
    ensures { (stores : List ℕ → Stored) → StoresAs (F.post store) stores → said result out.new ≡ saying (page out.old at) (within (length spare.old) 70000 on (stored_reply stores on size.now)) }
{
    if spare.len() < SLICE {
        return fault(out, at, on);
    }
    let Some(n) = number_of(size, 70000) else {
        return fault(out, at, on);
    };
    let at = stored_said(n as usize, spare, out, at, store);
    Spoken { next: on, at }
}

#[tactic(auto, using(std::proofs::lemmas::Bool::Decides::nat_tests), unfolding(words::specs::Choice::when))]
pub fn sheet(
    form: Form,
    c: Controller,
    size: &[u8],
    spare: &mut [u8],
    out: &mut [u8],
    at: usize,
) -> Spoken<Controller>
    ensures { said result out.new ≡ saying (page out.old at) (within (length spare.old) 70000 c (sheet_reply form c size.now)) }
{
    stored(
        c,
        size,
        spare,
        out,
        at,
        |slice| am9517_sheet::write(form, c, slice),
    )
}

#[tactic(auto, using(std::proofs::lemmas::Bool::Decides::nat_tests), unfolding(words::specs::Choice::when))]
pub fn load(
    form: Form,
    c: Controller,
    digits: &[u8],
    spare: &mut [u8],
    out: &mut [u8],
    at: usize,
) -> Spoken<Controller>
    ensures { said result out.new ≡ saying (page out.old at) (within (length spare.old) (length digits.now / 2) c (load_reply form c digits.now)) }
{
    let Some(bytes) = bytes_of(digits, spare) else {
        return fault(out, at, c);
    };
    let told = am9517_sheet::read(form, c, bytes);
    loaded(out, at, told.controller, told.answer)
}

#[tactic(auto, using(std::proofs::lemmas::Bool::Decides::nat_tests), unfolding(crate::specs::Answers::numbered, words::specs::Choice::when))]
pub fn convert(
    to: Form,
    c: Controller,
    digits: &[u8],
    size: &[u8],
    spare: &mut [u8],
    out: &mut [u8],
    at: usize,
) -> Spoken<Controller>
    ensures { said result out.new ≡ saying (page out.old at) (within (length spare.old) (length digits.now / 2) c (convert_reply to c digits.now size.now)) }
{
    let Some(source) = bytes_of(digits, spare) else {
        return fault(out, at, c);
    };
    // asked here, too: a slice is dear to make for none
    if number_of(size, 70000).is_none() {
        return fault(out, at, c);
    }
    let mut target = [0u8; SLICE];
    stored(c, size, &mut target, out, at, |slice| {
        am9517_sheet::convert(to, source, slice)
    })
}
