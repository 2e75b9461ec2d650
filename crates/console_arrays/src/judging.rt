// The command judge.
ghost use Rattle.std.specs.Prelude.{◌≡◌, List, ℕ, length};
ghost use Rattle.console_text.specs.Text.{page, put};
ghost use Rattle.console_arrays.specs.Services.{served, serving};
ghost use Rattle.console_arrays.specs.Judging.{verdict_text, judge_within};

use crate::runs::{Served, unserved};
use am9517::Controller;
use console_chip::answers::refused;
use console_text::hex::{is_bytes, store};
use console_text::page::{decimal, signed, text};
use logs::Verdict;

// What is found of a log of so many records.
fn verdict_said(verdict: Verdict, records: usize, out: &mut [u8], at: usize) -> usize
    ensures { page out.new result ≡ put (page out.old at) (verdict_text records verdict) }
{
    match verdict {
        Verdict::Accepted => {
            let next = text(out, at, b"accepted records=");
            decimal(out, next, records as u64)
        }
        Verdict::Wrong { at: place, error } => {
            let next = text(out, at, b"wrong at=");
            let next = decimal(out, next, place as u64);
            let next = text(out, next, b" error=");
            signed(out, next, error)
        }
        Verdict::Refused(refusal) => refused(out, at, refusal),
    }
}

// The log is put into the front of `spare`.
pub fn judge(
    c: Controller,
    memory: &mut [u8],
    digits: &[u8],
    spare: &mut [u8],
    out: &mut [u8],
    at: usize,
) -> Served<Controller>
    ensures { (room : List ℕ) → served result memory.new room out.new ≡ serving (page out.old at) (judge_within (length spare.old) c memory.old room digits.now) }
{
    let n = digits.len() / 2;
    if spare.len() < n {
        return unserved(c, out, at);
    }
    if !is_bytes(digits) {
        return unserved(c, out, at);
    }
    store(spare, 0, digits);
    let found = logs::judge(c, memory, &spare[0..n]);
    let verdict = found.verdict;
    let next = verdict_said(verdict, n / 8, out, at);
    Served {
        next: found.controller,
        used: 0,
        written: 0,
        at: next,
    }
}
