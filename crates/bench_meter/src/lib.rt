// Works for the bench, each done again and again from the same states, given as sheets.
#![tactic(auto)]

use crate::told::{Found, Told, answer_number};
use crate::turns::{repeat, state_in};
use am9517_service::{round, run};
use am9517_sheet::Form;
use logs::judge;

mod told;
mod turns;

// What the turns cost by themselves.
#[unsafe(no_mangle)]
pub extern "C" fn meter_nothing(first: &mut [u8], second: &[u8], times: u64) -> u64 {
    repeat(first, second, times, |_, c, next| {
        *next = c;
        u64::from(c.temporary)
    })
}

// A loop of its own: by `repeat` a write of the request register costs 11 instructions more, over the target of 120 that it met.
#[unsafe(no_mangle)]
pub extern "C" fn meter_write(
    first: &mut [u8],
    second: &[u8],
    reg: u32,
    other: u32,
    byte: u8,
    times: u64,
) -> u64 {
    let starts = [state_in(first), state_in(second)];
    let mut after = starts;
    let regs = [reg, other];
    let mut last = 0;
    for _ in 0..times {
        let i = (last % 2) as usize;
        let done = starts[i].write(regs[i], byte);
        after[i] = done.controller;
        last = answer_number(done.answer);
    }
    // a slice too short for a sheet stays as it is
    let _ = am9517_sheet::write(Form::One, after[0], first);
    last
}

#[unsafe(no_mangle)]
pub extern "C" fn meter_read(
    first: &mut [u8],
    second: &[u8],
    reg: u32,
    other: u32,
    times: u64,
) -> u64 {
    let regs = [reg, other];
    repeat(first, second, times, |i, c, next| {
        let done = c.read(regs[i]);
        *next = done.controller;
        answer_number(done.answer)
    })
}

#[unsafe(no_mangle)]
pub extern "C" fn meter_run(
    first: &mut [u8],
    second: &[u8],
    memory: &mut [u8],
    device: &[u8],
    room: &mut [u8],
    limit: u64,
    eop_at: u64,
    times: u64,
) -> u64 {
    let mut tolds = [Told::default(); 2];
    repeat(first, second, times, |i, c, next| {
        let ran = run(c, memory, device, room, limit, eop_at);
        tolds[i] = Told::from(ran);
        *next = ran.controller;
        ran.counts.states
    });
    tolds[0].folded()
}

#[unsafe(no_mangle)]
pub extern "C" fn meter_round(
    first: &mut [u8],
    second: &[u8],
    memory: &mut [u8],
    device: &[u8],
    room: &mut [u8],
    k: u32,
    times: u64,
) -> u64 {
    let mut tolds = [Told::default(); 2];
    repeat(first, second, times, |i, c, next| {
        let rounded = round(c, memory, device, room, k);
        tolds[i] = Told::from(rounded);
        *next = rounded.controller;
        rounded.totals.states
    });
    tolds[0].folded()
}

// A loop of its own, counted by hand: by `repeat` a record costs 5 instructions more, by a `for` 3, of 41.
// The address error is left behind the reference: a signed number has no place in the answer.
#[unsafe(no_mangle)]
pub extern "C" fn meter_judge(
    first: &mut [u8],
    second: &[u8],
    memory: &mut [u8],
    log: &[u8],
    error: &mut i32,
    times: u64,
) -> u64 {
    let one = state_in(first);
    let two = state_in(second);
    let starts = [one, two];
    let mut after = [one, two];
    let mut founds = [Found::default(); 2];
    let mut last: u64 = 0;
    let mut left = times;
    while 0 < left {
        let i = (last % 2) as usize;
        let judged = judge(starts[i], memory, log);
        let next = judged.controller;
        after[i] = next;
        let found = Found::of(judged, log.len());
        founds[i] = found;
        last = found.number;
        left -= 1;
    }
    // a slice too short for a sheet stays as it is
    let _ = am9517_sheet::write(Form::One, after[0], first);
    let found = founds[0];
    *error = found.error;
    found.folded()
}
