// Records: what one says, what it should say, and its bytes.
ghost use Rattle.std.specs.Prelude.{◌≡◌, ◌+◌, ◌≤◌, ◌<◌, length, get_or, drop};
ghost use Rattle.words.specs.Choice.{when};
ghost use Rattle.logs.specs.Record.{record_in, bytes_of};
ghost use Rattle.logs.specs.Answers.{next_record_of};
ghost use Rattle.logs.specs.ClosedRegisters.{record_by, goes_on_in};

use crate::Record;
use crate::registers::{Registers, Service, registers_of, service_of};
use am9517::Controller;
use am9517_service::run_refusal;
use words::bytes::{high_byte, low_byte, word_of};
use words::choice::when;

// The byte at a place; 0 behind the end.
fn byte_at(bytes: &[u8], at: usize) -> u8
    ensures { result ≡ get_or bytes.now at 0 }
{
    if at < bytes.len() {
        return bytes[at];
    }
    0
}

// The record that bytes begin with; what a cut one lacks reads as 0.
pub fn record_in(bytes: &[u8]) -> Record
    ensures { result ≡ record_in bytes.now }
{
    Record {
        channel: byte_at(bytes, 0),
        kind: byte_at(bytes, 1),
        address: word_of(byte_at(bytes, 2), byte_at(bytes, 3)),
        second: word_of(byte_at(bytes, 4), byte_at(bytes, 5)),
        byte: byte_at(bytes, 6),
        flags: byte_at(bytes, 7),
    }
}

// The record at a place of a log.
pub(crate) fn record_at(log: &[u8], at: usize) -> Record
    requires { at + 8 ≤ length log.now }
    ensures { result ≡ record_in (drop at log.now) }
{
    Record {
        channel: log[at],
        kind: log[at + 1],
        address: word_of(log[at + 2], log[at + 3]),
        second: word_of(log[at + 4], log[at + 5]),
        byte: log[at + 6],
        flags: log[at + 7],
    }
}

// The bytes of a record.
pub fn bytes_of(r: Record) -> [u8; 8]
    ensures { result ≡ bytes_of r }
{
    [
        r.channel,
        r.kind,
        low_byte(r.address),
        high_byte(r.address),
        low_byte(r.second),
        high_byte(r.second),
        r.byte,
        r.flags,
    ]
}

fn flags_by(tc: bool, eop: bool, last: bool) -> u8
    ensures { result ≡ when tc 1 0 + when eop 2 0 + when last 4 0 }
{
    let tc_bit = when(tc, 1, 0);
    let eop_bit = when(eop, 2, 0);
    let last_bit = when(last, 4, 0);
    tc_bit + eop_bit + last_bit
}

// The record of the next transfer of a service at these registers; `here` is the byte at the first address.
pub(crate) fn record_by(s: Service, g: Registers, here: u8, device: u8, eop: bool) -> Record
    ensures { result ≡ record_by s g here device eop }
{
    let tc = g.count == 0;
    Record {
        channel: s.channel,
        kind: s.kind,
        address: g.address,
        second: g.second,
        byte: when(s.kind == 1, device, when(s.kind == 0, 0, here)),
        flags: flags_by(tc, eop, tc | eop | s.once),
    }
}

// Whether the record at a place is there, is right, and does not end the service.
pub(crate) fn goes_on(s: Service, g: Registers, memory: &[u8], log: &[u8], at: usize) -> bool
    requires { (length memory.now ≡ 65536) × (at ≤ length log.now) }
    ensures { result ≡ goes_on_in s g memory.now (drop at log.now) }
{
    if log.len() - at < 8 {
        return false;
    }
    let r = record_at(log, at);
    let here = memory[g.address as usize];
    if r.flags != 0 {
        return false;
    }
    r == record_by(s, g, here, r.byte, false)
}

// The record of the next transfer of the open service, where the device's next byte is this and external EOP is met or not; of zeros
// where a run is refused.
pub fn next_record(c: Controller, memory: &[u8], device: u8, eop: bool) -> Record
    ensures { result ≡ next_record_of c memory.now device eop }
{
    if run_refusal(c, memory).is_some() {
        return record_in(&memory[0..0]);
    }
    let i = (c.serving % 4) as usize;
    let g = registers_of(c, i);
    let here = memory[g.address as usize];
    record_by(service_of(c, i), g, here, device, eop)
}
