// The commands on the board's state, registers, lines and grants.
ghost use Rattle.std.specs.Prelude.{◌≡◌, ◌*◌, length};
ghost use Rattle.am9517_sheet.specs.declared.forms.Form.TheVariants.{Two};
ghost use Rattle.am9517_sheet.specs.Body.{state_of};
ghost use Rattle.board.specs.Chips.{fresh_board};
ghost use Rattle.board.specs.Answers.{board_reset_of, board_grant_of};
ghost use Rattle.console_text.specs.Text.{page};
ghost use Rattle.console_text.specs.Hex.{bytes_in};
ghost use Rattle.console_chip.specs.declared.answers.ValueKind.TheVariants.{Byte, Channel};
ghost use Rattle.console_chip.specs.Answers.{ok_text, reply, said, saying};
ghost use Rattle.console_board.specs.Answers.{board_outcome_reply};
ghost use Rattle.console_board.specs.Control.{board_state_text, board_in, chip_in, board_state_reply, board_fresh_reply, board_write_reply, board_read_reply, board_pins_reply, board_waits_reply};

use am9517::{Controller, Edition};
use am9517_sheet::{BODY, body_of, state_of};
use board::{Board, Chip};
use console_chip::answers::{Spoken, ValueKind, WORD, agree, fault, tell};
use console_chip::control::{edition_in, says_bytes};
use console_text::hex::store;
use console_text::numbers::number_of;
use console_text::page::{hex, text};

// The byte of the arbiter, and edition, waits and body of each controller.
const BOARD: usize = 1 + 2 * BODY;

pub fn state(b: Board, out: &mut [u8], at: usize) -> Spoken<Board>
    ensures { said result out.new ≡ saying (page out.old at) (reply b (board_state_text b)) }
{
    let at = text(out, at, b"b.state ");
    let at = hex(out, at, &[b.granted_last]);
    let at = hex(out, at, &body_of(b.first));
    let at = hex(out, at, &body_of(b.second));
    Spoken { next: b, at }
}

fn chip_told(bytes: &[u8]) -> Controller
    requires { length bytes.now ≡ 50 }
    ensures { result ≡ state_of Two bytes.now }
{
    let mut body = [0u8; BODY];
    body.copy_from_slice(bytes);
    state_of(body)
}

fn board_told(digits: &[u8]) -> Board
    requires { length digits.now ≡ 2 * 101 }
    ensures { result ≡ board_in (bytes_in digits.now) }
{
    let mut bytes = [0u8; BOARD];
    store(&mut bytes, 0, digits);
    let first = chip_told(&bytes[1..51]);
    let second = chip_told(&bytes[51..BOARD]);
    Board {
        first,
        second,
        granted_last: bytes[0],
    }
}

#[tactic(auto, using(console_chip::proofs::ControlLaws::so_long), unfolding(words::specs::Choice::when))]
pub fn set_state(b: Board, digits: &[u8], out: &mut [u8], at: usize) -> Spoken<Board>
    ensures { said result out.new ≡ saying (page out.old at) (board_state_reply b digits.now) }
{
    if !says_bytes(digits, BOARD) {
        return fault(out, at, b);
    }
    agree(out, at, board_told(digits))
}

pub fn make_fresh(out: &mut [u8], at: usize) -> Spoken<Board>
    ensures { said result out.new ≡ saying (page out.old at) (reply (fresh_board 0 0) ok_text) }
{
    agree(out, at, Board::fresh(Edition::Am9517A, Edition::Am9517A))
}

#[tactic(auto, unfolding(console_chip::specs::Answers::numbered))]
pub fn fresh_of(b: Board, one: &[u8], two: &[u8], out: &mut [u8], at: usize) -> Spoken<Board>
    ensures { said result out.new ≡ saying (page out.old at) (board_fresh_reply b one.now two.now) }
{
    let (Some(first), Some(second)) = (edition_in(one), edition_in(two)) else {
        return fault(out, at, b);
    };
    agree(out, at, Board::fresh(first, second))
}

// Twins of console_chip::control: a trait over controller and board, with its two impls, is longer than these bodies of three lines each.
#[tactic(auto, using(console_text::proofs::NumberLaws::number_fits), unfolding(console_chip::specs::Answers::numbered))]
pub fn write(b: Board, reg: &[u8], byte: &[u8], out: &mut [u8], at: usize) -> Spoken<Board>
    ensures { said result out.new ≡ saying (page out.old at) (board_write_reply b reg.now byte.now) }
{
    let (Some(r), Some(x)) = (number_of(reg, WORD), number_of(byte, 255)) else {
        return fault(out, at, b);
    };
    let done = b.write(r, x as u8);
    tell(out, at, done.board, done.answer, ValueKind::Byte)
}

#[tactic(auto, unfolding(console_chip::specs::Answers::numbered))]
pub fn read(b: Board, reg: &[u8], out: &mut [u8], at: usize) -> Spoken<Board>
    ensures { said result out.new ≡ saying (page out.old at) (board_read_reply b reg.now) }
{
    let Some(r) = number_of(reg, WORD) else {
        return fault(out, at, b);
    };
    let done = b.read(r);
    tell(out, at, done.board, done.answer, ValueKind::Byte)
}

#[tactic(auto, unfolding(console_chip::specs::Answers::numbered))]
pub fn pins(b: Board, levels: &[u8], out: &mut [u8], at: usize) -> Spoken<Board>
    ensures { said result out.new ≡ saying (page out.old at) (board_pins_reply b levels.now) }
{
    let Some(levels) = number_of(levels, WORD) else {
        return fault(out, at, b);
    };
    let done = b.pins(levels);
    tell(out, at, done.board, done.answer, ValueKind::Byte)
}

pub fn reset(b: Board, out: &mut [u8], at: usize) -> Spoken<Board>
    ensures { said result out.new ≡ saying (page out.old at) (board_outcome_reply Byte (board_reset_of b)) }
{
    let done = b.reset();
    tell(out, at, done.board, done.answer, ValueKind::Byte)
}

// The chip that a word names, 0 the first, 1 the second.
#[tactic(auto, using(console_text::proofs::NumberLaws::number_fits), unfolding(crate::specs::Control::chip_in, crate::specs::Control::chip_numbered, words::specs::Choice::when))]
pub(crate) fn chip_in(word: &[u8]) -> Option<Chip>
    ensures { result ≡ chip_in word.now }
{
    match number_of(word, 1)? {
        0 => Some(Chip::First),
        _ => Some(Chip::Second),
    }
}

#[tactic(auto, using(console_text::proofs::NumberLaws::number_fits), unfolding(console_chip::specs::Answers::numbered))]
pub fn waits(b: Board, which: &[u8], states: &[u8], out: &mut [u8], at: usize) -> Spoken<Board>
    ensures { said result out.new ≡ saying (page out.old at) (board_waits_reply b which.now states.now) }
{
    let (Some(which), Some(n)) = (chip_in(which), number_of(states, 255)) else {
        return fault(out, at, b);
    };
    let done = b.waits(which, n as u8);
    tell(out, at, done.board, done.answer, ValueKind::Byte)
}

pub fn grant(b: Board, out: &mut [u8], at: usize) -> Spoken<Board>
    ensures { said result out.new ≡ saying (page out.old at) (board_outcome_reply Channel (board_grant_of b)) }
{
    let done = b.grant();
    tell(out, at, done.board, done.answer, ValueKind::Channel)
}
