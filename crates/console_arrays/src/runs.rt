// The commands run and round.
ghost use Rattle.std.specs.Prelude.{◌≡◌, ℕ, List, ◌++◌};
ghost use Rattle.console_text.specs.Text.{codes, page, put};
ghost use Rattle.console_text.specs.Numbers.{decimal_text};
ghost use Rattle.console_arrays.specs.Services.{reason_text, counts_text, behind_commas, services_text, run_text, end_text, round_text, served, serving, unserved as Services·unserved, counted_service, run_reply, round_reply};

use am9517::Controller;
use am9517_service::{Counts, Reason, RoundAnswer, RoundEnd, RunAnswer};
use console_chip::answers::{WORD, error, refused};
use console_text::numbers::number_of;
use console_text::page::{decimal, text};

// What a service leaves: a controller or a board as it is next, the device bytes used and written, and the place behind the answer.
#[derive(Clone, Copy)]
pub struct Served<T> {
    pub next: T,
    pub used: usize,
    pub written: usize,
    pub at: usize,
}

fn reason_said(why: Reason, out: &mut [u8], at: usize) -> usize
    ensures { page out.new result ≡ put (page out.old at) (reason_text why) }
{
    match why {
        Reason::Ended => text(out, at, b"ended"),
        Reason::Dropped => text(out, at, b"dropped"),
        Reason::Cascade => text(out, at, b"cascade"),
        Reason::Limit => text(out, at, b"limit"),
        Reason::Short => text(out, at, b"short"),
    }
}

fn counts_said(n: Counts, out: &mut [u8], at: usize) -> usize
    ensures { page out.new result ≡ put (page out.old at) (counts_text n) }
{
    let next = text(out, at, b" transfers=");
    let next = decimal(out, next, n.transfers);
    let next = text(out, next, b" used=");
    let next = decimal(out, next, n.used as u64);
    let next = text(out, next, b" written=");
    let next = decimal(out, next, n.written as u64);
    let next = text(out, next, b" states=");
    decimal(out, next, n.states)
}

fn behind_comma(n: u32, out: &mut [u8], at: usize) -> usize
    ensures { page out.new result ≡ put (page out.old at) (codes "," ++ decimal_text n) }
{
    let next = text(out, at, b",");
    decimal(out, next, n as u64)
}

fn behind_commas(numbers: &[u32], out: &mut [u8], at: usize) -> usize
    ensures { page out.new result ≡ put (page out.old at) (behind_commas numbers.now) }
{
    let mut next = at;
    for &n in numbers {
        next = behind_comma(n, out, next);
    }
    next
}

fn services_said(services: &[u32], out: &mut [u8], at: usize) -> usize
    ensures { page out.new result ≡ put (page out.old at) (services_text services.now) }
{
    let next = text(out, at, b" services=");
    if services.len() == 0 {
        return next;
    }
    let next = decimal(out, next, services[0] as u64);
    behind_commas(&services[1..], out, next)
}

// What a run did.
pub fn run_said(answer: RunAnswer, counts: Counts, out: &mut [u8], at: usize) -> usize
    ensures { page out.new result ≡ put (page out.old at) (run_text answer counts) }
{
    match answer {
        Ok(why) => {
            let next = reason_said(why, out, at);
            counts_said(counts, out, next)
        }
        Err(refusal) => refused(out, at, refusal),
    }
}

// What a round did, whatever it is called.
fn round_counts(services: &[u32], totals: Counts, out: &mut [u8], at: usize) -> usize
    ensures { page out.new result ≡ put (page out.old at) (services_text services.now ++ counts_text totals) }
{
    let next = services_said(services, out, at);
    counts_said(totals, out, next)
}

fn end_said(end: RoundEnd, out: &mut [u8], at: usize) -> usize
    ensures { page out.new result ≡ put (page out.old at) (end_text end) }
{
    match end {
        RoundEnd::Done => text(out, at, b"done"),
        RoundEnd::Quiet => text(out, at, b"quiet"),
        RoundEnd::Stopped(why) => reason_said(why, out, at),
    }
}

// What a round did: as many services as there are channels.
pub fn round_said(
    answer: RoundAnswer,
    services: &[u32],
    totals: Counts,
    out: &mut [u8],
    at: usize,
) -> usize
    ensures { page out.new result ≡ put (page out.old at) (round_text answer services.now totals) }
{
    match answer {
        Ok(end) => {
            let next = end_said(end, out, at);
            round_counts(services, totals, out, next)
        }
        Err(refusal) => refused(out, at, refusal),
    }
}

// Nothing was served, and nothing changed.
pub fn unserved<T>(next: T, out: &mut [u8], at: usize) -> Served<T>
    ensures { (m room : List ℕ) → served result m room out.new ≡ serving (page out.old at) (Services·unserved next m room) }
{
    Served {
        next,
        used: 0,
        written: 0,
        at: error(out, at),
    }
}

// A run's answer is told.
pub fn run_served<T>(
    next: T,
    answer: RunAnswer,
    counts: Counts,
    out: &mut [u8],
    at: usize,
) -> Served<T>
    ensures { (m room : List ℕ) → served result m room out.new ≡ serving (page out.old at) (counted_service next counts m room (run_text answer counts)) }
{
    Served {
        next,
        used: counts.used,
        written: counts.written,
        at: run_said(answer, counts, out, at),
    }
}

// A round's answer is told.
pub fn round_served<T>(
    next: T,
    answer: RoundAnswer,
    services: &[u32],
    totals: Counts,
    out: &mut [u8],
    at: usize,
) -> Served<T>
    ensures { (m room : List ℕ) → served result m room out.new ≡ serving (page out.old at) (counted_service next totals m room (round_text answer services.now totals)) }
{
    Served {
        next,
        used: totals.used,
        written: totals.written,
        at: round_said(answer, services, totals, out, at),
    }
}

pub fn run(
    c: Controller,
    memory: &mut [u8],
    device: &[u8],
    room: &mut [u8],
    limit: &[u8],
    eop: &[u8],
    out: &mut [u8],
    at: usize,
) -> Served<Controller>
    ensures { served result memory.new room.new out.new ≡ serving (page out.old at) (run_reply c memory.old device.now room.old limit.now eop.now) }
{
    let Some(l) = number_of(limit, WORD) else {
        return unserved(c, out, at);
    };
    let Some(e) = number_of(eop, WORD) else {
        return unserved(c, out, at);
    };
    let ran = am9517_service::run(c, memory, device, room, l as u64, e as u64);
    run_served(ran.controller, ran.answer, ran.counts, out, at)
}

pub fn go_round(
    c: Controller,
    memory: &mut [u8],
    device: &[u8],
    room: &mut [u8],
    count: &[u8],
    out: &mut [u8],
    at: usize,
) -> Served<Controller>
    ensures { served result memory.new room.new out.new ≡ serving (page out.old at) (round_reply c memory.old device.now room.old count.now) }
{
    let Some(k) = number_of(count, WORD) else {
        return unserved(c, out, at);
    };
    let done = am9517_service::round(c, memory, device, room, k);
    round_served(
        done.controller,
        done.answer,
        &done.services,
        done.totals,
        out,
        at,
    )
}
