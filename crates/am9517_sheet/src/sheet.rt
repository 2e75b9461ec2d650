// A sheet at the end of a slice that has room for it: looked at, and put there.
ghost use Rattle.std.specs.Prelude.{◌≡◌, ◌-◌, ◌≤◌, length};
ghost use Rattle.am9517.specs.Refusals.{refusal, unless};
ghost use Rattle.am9517_sheet.specs.Bytes.{placed};
ghost use Rattle.am9517_sheet.specs.Form.{sheet_size};
ghost use Rattle.am9517_sheet.specs.Sheet.{told_in, sheet_of, sheet_faults};

use crate::body::{state_in, store_body};
use crate::forms::Form;
use crate::trailer::{check_trailer, store_trailer};
use am9517::{Controller, Refusal};

// The state that the sheet tells, or the first of its faults.
pub(crate) fn found(form: Form, bytes: &[u8]) -> Result<Controller, Refusal>
    requires { sheet_size form ≤ length bytes.now }
    ensures { result ≡ unless (refusal (sheet_faults form bytes.now)) (told_in form bytes.now) }
{
    let start = bytes.len() - form.sheet_size();
    let sheet = &bytes[start..];
    check_trailer(form, sheet)?;
    let told = state_in(form, sheet);
    if !told.valid() {
        return Err(Refusal::StoredRange);
    }
    Ok(told)
}

fn put_in(form: Form, c: Controller, out: &mut [u8])
    requires { sheet_size form ≤ length out.old }
    ensures { out.new ≡ placed out.old (length out.old - sheet_size form) (sheet_of form c) }
{
    let start = out.len() - form.sheet_size();
    store_body(form, c, out, start);
    store_trailer(form, out, start);
}

// An arm for each form: so each is compiled with its places as constants.
pub(crate) fn put(form: Form, c: Controller, out: &mut [u8])
    requires { sheet_size form ≤ length out.old }
    ensures { out.new ≡ placed out.old (length out.old - sheet_size form) (sheet_of form c) }
{
    match form {
        Form::One => put_in(Form::One, c, out),
        Form::Two => put_in(Form::Two, c, out),
    }
}
