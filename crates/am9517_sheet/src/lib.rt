// Stored sheets of both forms, at the end of a lent slice.
#![tactic(auto)]

ghost use Rattle.std.specs.Prelude.{◌≡◌, length};
ghost use Rattle.am9517.specs.Refusals.{refusal};
ghost use Rattle.am9517_sheet.specs.Form.{other};
ghost use Rattle.am9517_sheet.specs.Sheet.{sheet_refusal_number, stored, sheet_write_grounds, sheet_write_of, sheet_read_grounds, sheet_read_of};
ghost use Rattle.am9517_sheet.specs.Convert.{convert_grounds, convert_of};

use crate::body::exceeds;
use crate::sheet::{found, put};
use am9517::{Controller, Refusal};

mod body;
mod bytes;
mod forms;
mod sheet;
mod trailer;

pub use body::{body_of, state_of};
pub use forms::{BODY, Form};

// What writing, reading or converting a sheet says: done, or its refusal.
pub type SheetAnswer = Result<(), Refusal>;

// The state that was read, which is the old one where the answer is a refusal.
#[derive(Clone, Copy)]
pub struct SheetRead {
    pub controller: Controller,
    pub answer: SheetAnswer,
}

// The controller's sheet is written at the end of the slice.
pub fn write(form: Form, c: Controller, out: &mut [u8]) -> SheetAnswer
    ensures { (stored result out.new ≡ sheet_write_of form c out.old) × (sheet_refusal_number result ≡ refusal (sheet_write_grounds form c (length out.old))) }
{
    if !c.valid() {
        return Err(Refusal::Range);
    }
    if out.len() < form.sheet_size() {
        return Err(Refusal::Slice);
    }
    if exceeds(form, c) {
        return Err(Refusal::NoPlace);
    }
    put(form, c, out);
    Ok(())
}

// The sheet at the end of the slice is read; a refused one leaves the state.
pub fn read(form: Form, c: Controller, bytes: &[u8]) -> SheetRead
    ensures { (result ≡ sheet_read_of form c bytes.now) × (sheet_refusal_number result.answer ≡ refusal (sheet_read_grounds form bytes.now)) }
{
    if bytes.len() < form.sheet_size() {
        return SheetRead {
            controller: c,
            answer: Err(Refusal::Slice),
        };
    }
    match found(form, bytes) {
        Ok(told) => SheetRead {
            controller: told,
            answer: Ok(()),
        },
        Err(refusal) => SheetRead {
            controller: c,
            answer: Err(refusal),
        },
    }
}

// The sheet of the other form at the end of `source` is written in this form at the end of `out`.
pub fn convert(to: Form, source: &[u8], out: &mut [u8]) -> SheetAnswer
    ensures { (stored result out.new ≡ convert_of to source.now out.old) × (sheet_refusal_number result ≡ refusal (convert_grounds (other to) to source.now (length out.old))) }
{
    let from = to.other();
    if (source.len() < from.sheet_size()) | (out.len() < to.sheet_size()) {
        return Err(Refusal::Slice);
    }
    let c = found(from, source)?;
    if exceeds(to, c) {
        return Err(Refusal::NoPlace);
    }
    put(to, c, out);
    Ok(())
}
