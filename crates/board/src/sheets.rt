// Sheets, one per chip.
ghost use Rattle.std.specs.Prelude.{◌≡◌, length};
ghost use Rattle.am9517.specs.Refusals.{refusal};
ghost use Rattle.am9517_sheet.specs.Sheet.{sheet_refusal_number, stored, sheet_write_grounds, sheet_read_grounds};
ghost use Rattle.board.specs.Chips.{chip};
ghost use Rattle.board.specs.Sheets.{board_sheet_write_of, board_sheet_read_of};

use crate::{Board, BoardSheetRead, Chip};
use am9517_sheet::{Form, SheetAnswer};

// The chip's sheet is written at the end of the slice; the other chip plays no part.
pub fn write_sheet(b: Board, which: Chip, form: Form, out: &mut [u8]) -> SheetAnswer
    ensures { (stored result out.new ≡ board_sheet_write_of form b which out.old) × (sheet_refusal_number result ≡ refusal (sheet_write_grounds form (chip b which) (length out.old))) }
{
    am9517_sheet::write(form, b.chip_of(which), out)
}

// The sheet at the end of the slice is read into the chip; a refused one leaves it.
pub fn read_sheet(b: Board, which: Chip, form: Form, bytes: &[u8]) -> BoardSheetRead
    ensures { (result ≡ board_sheet_read_of form b which bytes.now) × (sheet_refusal_number result.answer ≡ refusal (sheet_read_grounds form bytes.now)) }
{
    let done = am9517_sheet::read(form, b.chip_of(which), bytes);
    let c = done.controller;
    let answer = done.answer;
    BoardSheetRead {
        board: b.with_chip(which, c),
        answer,
    }
}
