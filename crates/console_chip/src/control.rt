// The commands on the controller.
ghost use Rattle.std.specs.Prelude.{◌≡◌, ◌+◌, ◌*◌, ◌≤◌, ◌++◌, length};
ghost use Rattle.std.specs.Option.{option_map};
ghost use Rattle.am9517.specs.Editions.{number_of};
ghost use Rattle.am9517.specs.State.{fresh};
ghost use Rattle.am9517.specs.Answers.{reset_of, grant_of};
ghost use Rattle.am9517_sheet.specs.declared.forms.Form.TheVariants.{Two};
ghost use Rattle.am9517_sheet.specs.Body.{state_of};
ghost use Rattle.console_text.specs.Text.{page};
ghost use Rattle.console_text.specs.Numbers.{number_of as Numbers·number_of};
ghost use Rattle.console_text.specs.Hex.{bytes_in};
ghost use Rattle.console_chip.specs.declared.answers.ValueKind.TheVariants.{Byte, Channel};
ghost use Rattle.console_chip.specs.Answers.{ok_text, reply, outcome_reply, said, saying};
ghost use Rattle.console_chip.specs.Control.{state_text, full_text, fresh_reply, says_bytes, full_reply, write_reply, read_reply, pins_reply, state_reply, waits_reply};

use crate::answers::{Spoken, ValueKind, WORD, agree, fault, tell};
use am9517::{Controller, Edition};
use am9517_sheet::{BODY, body_of, state_of};
use console_text::hex::{is_bytes, store};
use console_text::numbers::number_of;
use console_text::page::{hex, text};

// The edition and the waits, which a body of form 2 has before the bytes of form 1; and how many those are.
const FRONT: usize = 2;

const STATE: usize = BODY - FRONT;

pub fn state(c: Controller, out: &mut [u8], at: usize) -> Spoken<Controller>
    ensures { said result out.new ≡ saying (page out.old at) (reply c (state_text c)) }
{
    let body = body_of(c);
    let at = text(out, at, b"state ");
    let at = hex(out, at, &body[FRONT..BODY]);
    Spoken { next: c, at }
}

// The state in full.
pub fn full(c: Controller, out: &mut [u8], at: usize) -> Spoken<Controller>
    ensures { said result out.new ≡ saying (page out.old at) (reply c (full_text c)) }
{
    let body = body_of(c);
    let at = text(out, at, b"full ");
    let at = hex(out, at, &body);
    Spoken { next: c, at }
}

pub fn says_bytes(digits: &[u8], n: usize) -> bool
    requires { n ≤ 101 }
    ensures { result ≡ says_bytes digits.now n }
{
    is_bytes(digits) & (digits.len() == 2 * n)
}

// The state that a body tells: these bytes, and behind them those of the digits.
fn told(front: &[u8], digits: &[u8]) -> Controller
    requires { 2 * length front.now + length digits.now ≡ 2 * 50 }
    ensures { result ≡ state_of Two (front.now ++ bytes_in digits.now) }
{
    let mut body = [0u8; BODY];
    let next = text(&mut body, 0, front);
    store(&mut body, next, digits);
    state_of(body)
}

#[tactic(auto, using(crate::proofs::ControlLaws::so_long), unfolding(words::specs::Choice::when))]
pub fn set_state(c: Controller, digits: &[u8], out: &mut [u8], at: usize) -> Spoken<Controller>
    ensures { said result out.new ≡ saying (page out.old at) (state_reply c digits.now) }
{
    if !says_bytes(digits, STATE) {
        return fault(out, at, c);
    }
    agree(out, at, told(&[c.edition, c.waits], digits))
}

#[tactic(auto, using(crate::proofs::ControlLaws::so_long), unfolding(words::specs::Choice::when))]
pub fn set_full(c: Controller, digits: &[u8], out: &mut [u8], at: usize) -> Spoken<Controller>
    ensures { said result out.new ≡ saying (page out.old at) (full_reply c digits.now) }
{
    if !says_bytes(digits, BODY) {
        return fault(out, at, c);
    }
    agree(out, at, told(&[], digits))
}

pub fn make_fresh(out: &mut [u8], at: usize) -> Spoken<Controller>
    ensures { said result out.new ≡ saying (page out.old at) (reply (fresh 0) ok_text) }
{
    agree(out, at, Controller::fresh(Edition::Am9517A))
}

pub fn edition_of(e: u32) -> Edition
    requires { e ≤ 1 }
    ensures { number_of result ≡ e }
{
    match e {
        0 => Edition::Am9517A,
        _ => Edition::Intel8237A,
    }
}

// The edition that a word says, 0 Am9517A or 1 Intel.
#[tactic(auto, using(console_text::proofs::NumberLaws::number_fits))]
pub fn edition_in(word: &[u8]) -> Option<Edition>
    ensures { option_map number_of result ≡ Numbers·number_of 1 word.now }
{
    Some(edition_of(number_of(word, 1)?))
}

#[tactic(auto, using(console_text::proofs::NumberLaws::number_fits), unfolding(crate::specs::Answers::numbered))]
pub fn fresh_of(c: Controller, edition: &[u8], out: &mut [u8], at: usize) -> Spoken<Controller>
    ensures { said result out.new ≡ saying (page out.old at) (fresh_reply c edition.now) }
{
    let Some(edition) = edition_in(edition) else {
        return fault(out, at, c);
    };
    agree(out, at, Controller::fresh(edition))
}

#[tactic(auto, using(console_text::proofs::NumberLaws::number_fits), unfolding(crate::specs::Answers::numbered))]
pub fn write(
    c: Controller,
    reg: &[u8],
    byte: &[u8],
    out: &mut [u8],
    at: usize,
) -> Spoken<Controller>
    ensures { said result out.new ≡ saying (page out.old at) (write_reply c reg.now byte.now) }
{
    let (Some(r), Some(b)) = (number_of(reg, WORD), number_of(byte, 255)) else {
        return fault(out, at, c);
    };
    let done = c.write(r, b as u8);
    tell(out, at, done.controller, done.answer, ValueKind::Byte)
}

#[tactic(auto, using(console_text::proofs::NumberLaws::number_fits), unfolding(crate::specs::Answers::numbered))]
pub fn read(c: Controller, reg: &[u8], out: &mut [u8], at: usize) -> Spoken<Controller>
    ensures { said result out.new ≡ saying (page out.old at) (read_reply c reg.now) }
{
    let Some(r) = number_of(reg, WORD) else {
        return fault(out, at, c);
    };
    let done = c.read(r);
    tell(out, at, done.controller, done.answer, ValueKind::Byte)
}

#[tactic(auto, using(console_text::proofs::NumberLaws::number_fits), unfolding(crate::specs::Answers::numbered))]
pub fn pins(c: Controller, levels: &[u8], out: &mut [u8], at: usize) -> Spoken<Controller>
    ensures { said result out.new ≡ saying (page out.old at) (pins_reply c levels.now) }
{
    let Some(levels) = number_of(levels, WORD) else {
        return fault(out, at, c);
    };
    let done = c.pins(levels);
    tell(out, at, done.controller, done.answer, ValueKind::Byte)
}

pub fn reset(c: Controller, out: &mut [u8], at: usize) -> Spoken<Controller>
    ensures { said result out.new ≡ saying (page out.old at) (outcome_reply Byte (reset_of c)) }
{
    let done = c.reset();
    tell(out, at, done.controller, done.answer, ValueKind::Byte)
}

#[tactic(auto, using(console_text::proofs::NumberLaws::number_fits), unfolding(crate::specs::Answers::numbered))]
pub fn waits(c: Controller, states: &[u8], out: &mut [u8], at: usize) -> Spoken<Controller>
    ensures { said result out.new ≡ saying (page out.old at) (waits_reply c states.now) }
{
    let Some(n) = number_of(states, 255) else {
        return fault(out, at, c);
    };
    let done = c.waits(n as u8);
    tell(out, at, done.controller, done.answer, ValueKind::Byte)
}

pub fn grant(c: Controller, out: &mut [u8], at: usize) -> Spoken<Controller>
    ensures { said result out.new ≡ saying (page out.old at) (outcome_reply Channel (grant_of c)) }
{
    let done = c.grant();
    tell(out, at, done.controller, done.answer, ValueKind::Channel)
}
