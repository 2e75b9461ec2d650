// The eight bytes behind a body, for any form.
ghost use Rattle.std.specs.Prelude.{◌≡◌, ◌+◌, ◌≤◌, length, take, drop};
ghost use Rattle.am9517.specs.Refusals.{refusal};
ghost use Rattle.am9517_sheet.specs.Bytes.{placed};
ghost use Rattle.am9517_sheet.specs.Form.{body_size, sheet_size};
ghost use Rattle.am9517_sheet.specs.Trailer.{trailer_of, trailer_grounds};
ghost use Rattle.am9517_sheet.specs.Sheet.{answer_of};

use crate::bytes::{store, sum, word};
use crate::forms::Form;
use am9517::Refusal;
use words::bytes::{high_byte, low_byte};

// The trailer of the body at the front of these bytes.
fn trailer_of(form: Form, b: &[u8]) -> [u8; 8]
    requires { body_size form ≤ length b.now }
    ensures { result ≡ trailer_of form (take (body_size form) b.now) }
{
    let said = form.number();
    let size = form.body_size() as u16;
    let total = sum(form, b);
    [
        low_byte(said),
        high_byte(said),
        low_byte(size),
        high_byte(size),
        low_byte(total),
        high_byte(total),
        0x44,
        0x4D,
    ]
}

// The trailer is stored behind the body that stands from place `start` on.
pub(crate) fn store_trailer(form: Form, out: &mut [u8], start: usize)
    requires { start + sheet_size form ≤ length out.old }
    ensures { out.new ≡ placed out.old (start + body_size form) (trailer_of form (take (body_size form) (drop start out.old))) }
{
    let trailer = trailer_of(form, &out[start..]);
    store(out, start + form.body_size(), &trailer);
}

// The first fault of a sheet's trailer, if it has one.
pub(crate) fn check_trailer(form: Form, sheet: &[u8]) -> Result<(), Refusal>
    requires { sheet_size form ≤ length sheet.now }
    ensures { result ≡ answer_of (refusal (trailer_grounds form sheet.now)) }
{
    let size = form.body_size();
    if word(sheet, size + 6) != 0x4D44 {
        return Err(Refusal::EndMark);
    }
    if word(sheet, size) != form.number() {
        return Err(Refusal::FormNumber);
    }
    if word(sheet, size + 2) as usize != size {
        return Err(Refusal::Distance);
    }
    if word(sheet, size + 4) != sum(form, sheet) {
        return Err(Refusal::Sum);
    }
    Ok(())
}
