// Sheets, one per chip.
ghost use Rattle.std.specs.Prelude.{◌≡◌, ◌/◌, length};
ghost use Rattle.console_text.specs.Text.{page};
ghost use Rattle.console_chip.specs.Answers.{said, saying};
ghost use Rattle.console_chip.specs.Sheets.{within};
ghost use Rattle.console_board.specs.Sheets.{form_in, board_sheet_reply, board_load_reply};

use crate::control::chip_in;
use am9517_sheet::Form;
use board::Board;
use console_chip::answers::{Spoken, fault};
use console_chip::sheets::{bytes_of, loaded, stored};
use console_text::numbers::number_of;

// The form that a word names, 1 or 2.
#[tactic(auto, using(console_text::proofs::NumberLaws::number_fits), unfolding(crate::specs::Sheets::form_numbered, console_chip::specs::Answers::numbered, words::specs::Choice::when))]
fn form_in(word: &[u8]) -> Option<Form>
    ensures { result ≡ form_in word.now }
{
    match number_of(word, 2)? {
        0 => None,
        1 => Some(Form::One),
        _ => Some(Form::Two),
    }
}

#[tactic(auto, using(words::proofs::ChoiceLaws::when_same), unfolding(console_chip::specs::Answers::numbered))]
pub fn sheet(
    b: Board,
    which: &[u8],
    form: &[u8],
    size: &[u8],
    spare: &mut [u8],
    out: &mut [u8],
    at: usize,
) -> Spoken<Board>
    ensures { said result out.new ≡ saying (page out.old at) (within (length spare.old) 70000 b (board_sheet_reply b which.now form.now size.now)) }
{
    let (Some(which), Some(form)) = (chip_in(which), form_in(form)) else {
        return fault(out, at, b);
    };
    stored(
        b,
        size,
        spare,
        out,
        at,
        |slice| board::write_sheet(b, which, form, slice),
    )
}

pub fn load(
    b: Board,
    which: &[u8],
    form: &[u8],
    digits: &[u8],
    spare: &mut [u8],
    out: &mut [u8],
    at: usize,
) -> Spoken<Board>
    ensures { said result out.new ≡ saying (page out.old at) (within (length spare.old) (length digits.now / 2) b (board_load_reply b which.now form.now digits.now)) }
{
    let Some(bytes) = bytes_of(digits, spare) else {
        return fault(out, at, b);
    };
    let (Some(which), Some(form)) = (chip_in(which), form_in(form)) else {
        return fault(out, at, b);
    };
    let told = board::read_sheet(b, which, form, bytes);
    loaded(out, at, told.board, told.answer)
}
