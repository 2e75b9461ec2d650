// Judging a log: over the records that don't end the service, then the one that may.
ghost use Rattle.std.specs.Prelude.{◌≡◌, List, ℕ, ◌+◌, ◌/◌, ◌<◌, length, drop};
ghost use Rattle.am9517.specs.Refusals.{refusal};
ghost use Rattle.am9517_service.specs.Answers.{run_grounds};
ghost use Rattle.logs.specs.Judge.{found, behind, judged};
ghost use Rattle.logs.specs.Answers.{judge_given, told, judged_of, judge_refusal_number, place_of};
ghost use Rattle.logs.specs.ClosedRegisters.{Flowing, Rest, Passes};

use crate::ends::make_last;
use crate::errors::error_of;
use crate::records::{goes_on, record_at, record_by};
use crate::registers::{flows, registers_of, service_of, stepped_by, store_by, with_registers};
use crate::{Judged, Verdict};
use am9517::Controller;
use am9517_service::run_refusal;
use words::bits::is_set;

// How far a log is right without ending the service, and the state there.
#[derive(Clone, Copy)]
pub struct Passed {
    pub controller: Controller,
    pub at: usize,
}

// Over the records that are right and don't end the service of channel i.
fn pass(c: Controller, i: usize, memory: &mut [u8], log: &[u8]) -> Passed
    requires { (i ≡ c.serving) × Flowing c memory.old }
    ensures { Passes c memory.old log.now result.controller memory.new result.at }
{
    let s = service_of(c, i);
    let mut g = registers_of(c, i);
    let mut at: usize = 0;
    while goes_on(s, g, memory, log, at) {
        let byte = log[at + 6];
        store_by(s, g, memory, byte);
        g = stepped_by(s, g, byte);
        at += 8;
    }
    Passed {
        controller: with_registers(c, i, g),
        at,
    }
}

// What is told of a log of this size.
#[tactic(auto, unfolding(crate::specs::Answers::told, crate::specs::Answers::verdict_of, words::specs::Choice::when))]
fn told(c: Controller, at: usize, error: i32, size: usize) -> Judged
    ensures { (m : List ℕ) → judge_given result m ≡ told size (found c m at error) }
{
    let verdict = if at == size {
        Verdict::Accepted
    } else {
        Verdict::Wrong { at, error }
    };
    Judged {
        controller: c,
        verdict,
    }
}

// The record at a place, which ends the service of channel i if it is right.
fn finish(c: Controller, i: usize, memory: &mut [u8], log: &[u8], at: usize) -> Judged
    requires { (i ≡ c.serving) × Rest c memory.old log.now at }
    ensures { judge_given result memory.new ≡ told (length log.now) (behind at (judged (length (drop at log.now) / 8) c memory.old (drop at log.now))) }
{
    let size = log.len();
    if size - at < 8 {
        return told(c, at, 0, size);
    }
    let r = record_at(log, at);
    let eop = is_set(r.flags, 1);
    let g = registers_of(c, i);
    let here = memory[g.address as usize];
    if r != record_by(service_of(c, i), g, here, r.byte, eop) {
        return told(c, at, error_of(r.address, g.address), size);
    }
    let next = make_last(c, i, memory, r.byte, eop);
    told(next, at + 8, 0, size)
}

// The log of the open service is judged: the state and the memory are left as its good records make them.
pub fn judge(c: Controller, memory: &mut [u8], log: &[u8]) -> Judged
    ensures { (judge_given result memory.new ≡ judged_of c memory.old log.now) × (judge_refusal_number result.verdict ≡ refusal (run_grounds c memory.old)) }
{
    if let Some(refusal) = run_refusal(c, memory) {
        return Judged {
            controller: c,
            verdict: Verdict::Refused(refusal),
        };
    }
    let i = (c.serving % 4) as usize;
    if !flows(c, i) {
        return told(c, 0, 0, log.len());
    }
    let p = pass(c, i, memory, log);
    finish(p.controller, i, memory, log, p.at)
}

// The part of the log that begins at the first wrong record: the empty one at its end where it is accepted, the log itself where it was
// refused.
pub fn handed_back<'a>(log: &'a [u8], verdict: Verdict) -> &'a [u8]
    ensures { result.now ≡ drop (place_of (length log.now) verdict) log.now }
{
    let size = log.len();
    match verdict {
        Verdict::Accepted => &log[size..],
        Verdict::Wrong { at, error: _ } => {
            if at < size {
                return &log[at..];
            }
            &log[size..]
        }
        Verdict::Refused(_) => log,
    }
}
