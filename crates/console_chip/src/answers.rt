// The answers' texts.
ghost use Rattle.std.specs.Prelude.{◌≡◌};
ghost use Rattle.console_text.specs.Text.{page, put};
ghost use Rattle.console_chip.specs.Answers.{ok_text, error_text, refused_text, channel_text, byte_text, bytes_answer, value_text, answer_text, reply, error_reply, said, saying};

use am9517::{Answer, Refusal};
use console_text::page::{bytes, decimal, hex, text};

// The largest register number, place, limit or count that a command takes.
pub const WORD: u32 = 0xffff_ffff;

// What a command is on, as it is next, and the place behind the answer.
#[derive(Clone, Copy)]
pub struct Spoken<T> {
    pub next: T,
    pub at: usize,
}

// What the value is that an operation answers with.
#[derive(Clone, Copy)]
pub enum ValueKind {
    Byte,
    Channel,
}

pub fn ok(out: &mut [u8], at: usize) -> usize
    ensures { page out.new result ≡ put (page out.old at) ok_text }
{
    text(out, at, b"ok")
}

pub fn error(out: &mut [u8], at: usize) -> usize
    ensures { page out.new result ≡ put (page out.old at) error_text }
{
    text(out, at, b"error")
}

pub fn refused(out: &mut [u8], at: usize, refusal: Refusal) -> usize
    ensures { page out.new result ≡ put (page out.old at) (refused_text refusal) }
{
    let at = text(out, at, b"refused ");
    decimal(out, at, refusal.number() as u64)
}

fn channel(out: &mut [u8], at: usize, n: u8) -> usize
    ensures { page out.new result ≡ put (page out.old at) (channel_text n) }
{
    let at = text(out, at, b"channel ");
    decimal(out, at, n as u64)
}

fn byte_read(out: &mut [u8], at: usize, b: u8) -> usize
    ensures { page out.new result ≡ put (page out.old at) (byte_text b) }
{
    let at = text(out, at, b"byte 0x");
    hex(out, at, &[b])
}

pub fn bytes_said(out: &mut [u8], at: usize, s: &[u8]) -> usize
    ensures { page out.new result ≡ put (page out.old at) (bytes_answer s.now) }
{
    let at = text(out, at, b"bytes ");
    bytes(out, at, s)
}

#[tactic(auto, unfolding(crate::specs::Answers::value_text))]
pub fn value(out: &mut [u8], at: usize, v: u8, kind: ValueKind) -> usize
    ensures { page out.new result ≡ put (page out.old at) (value_text kind v) }
{
    match kind {
        ValueKind::Byte => byte_read(out, at, v),
        ValueKind::Channel => channel(out, at, v),
    }
}

#[tactic(auto, unfolding(crate::specs::Answers::answer_text))]
pub fn answered(out: &mut [u8], at: usize, answer: Answer, kind: ValueKind) -> usize
    ensures { page out.new result ≡ put (page out.old at) (answer_text kind answer) }
{
    match answer {
        Ok(None) => ok(out, at),
        Ok(Some(v)) => value(out, at, v, kind),
        Err(refusal) => refused(out, at, refusal),
    }
}

// An operation's outcome, what it was done on next and its answer, as the answer to its command.
pub fn tell<T>(out: &mut [u8], at: usize, next: T, answer: Answer, kind: ValueKind) -> Spoken<T>
    ensures { said result out.new ≡ saying (page out.old at) (reply next (answer_text kind answer)) }
{
    let at = answered(out, at, answer, kind);
    Spoken { next, at }
}

// The command was done, and what it is on is now this.
pub fn agree<T>(out: &mut [u8], at: usize, next: T) -> Spoken<T>
    ensures { said result out.new ≡ saying (page out.old at) (reply next ok_text) }
{
    let at = ok(out, at);
    Spoken { next, at }
}

// Nothing changed.
pub fn fault<T>(out: &mut [u8], at: usize, next: T) -> Spoken<T>
    ensures { said result out.new ≡ saying (page out.old at) (error_reply next) }
{
    let at = error(out, at);
    Spoken { next, at }
}
