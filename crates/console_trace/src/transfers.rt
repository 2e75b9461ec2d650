// Transfer by transfer: each is the service's own run with limit 1, its record the one that the rules make next.
use crate::{Course, Traced};
use am9517_service::{Ran, Reason, run};
use console_show::page::put;
use console_text::page::text;
use logs::{Record, bytes_of, next_record};
use words::bytes::high_byte;

// So many transfers are traced at a time, for their lines wait on a page.
const CHUNK: usize = 512;

const MEMORY: usize = 65536;

// One transfer: the number of its service, its record, its states, and whether S1 is among them.
#[derive(Clone, Copy)]
pub(crate) struct Made {
    pub service: u64,
    pub record: Record,
    pub states: u64,
    pub has_s1: bool,
}

impl Course {
    // A service is under way, or, in a round, one is begun.
    fn opened(self) -> Option<Course> {
        if self.controller.in_service != 0 {
            return Some(self);
        }
        let services = self.services.checked_sub(1)?;
        let granted = self.controller.grant();
        match granted.answer {
            Ok(Some(_)) => Some(Course {
                controller: granted.controller,
                service: self.service.wrapping_add(1),
                services,
                transfers: 0,
                ..self
            }),
            Ok(None) | Err(_) => None,
        }
    }

    // Behind a run of one transfer.
    fn behind(self, ran: Ran) -> Option<Course> {
        let next = Course {
            controller: ran.controller,
            used: self.used.saturating_add(ran.counts.used),
            left: self.left.saturating_sub(ran.counts.written),
            transfers: self.transfers.wrapping_add(1),
            ..self
        };
        let is_more = match ran.answer {
            Ok(Reason::Ended) => 0 < next.services,
            _ => next.transfers < next.most,
        };
        is_more.then_some(next)
    }

    // A transfer and what comes behind it, or nothing, where none is made.
    fn step(self, memory: &mut [u8], device: &[u8]) -> Option<(Made, Option<Course>)> {
        let open = self.opened()?;
        let c = open.controller;
        let device = device.get(open.used..).unwrap_or_default();
        let byte = device.first().copied().unwrap_or_default();
        let meets = open.transfers.wrapping_add(1) == open.eop;
        let record = next_record(c, memory, byte, meets);
        let is_latched = (c.latch_full != 0) & (c.latch == high_byte(record.address));
        let mut room = [0u8; 1];
        let places = open.left.min(1);
        let ran = run(c, memory, device, &mut room[..places], 1, u64::from(meets));
        if ran.counts.transfers == 0 {
            return None;
        }
        let made = Made {
            service: open.service,
            record,
            states: ran.counts.states,
            has_s1: (record.kind != 3) & !is_latched,
        };
        Some((made, open.behind(ran)))
    }
}

// The transfers of what is still to come, on this memory and out of these device bytes.
#[derive(Drop)]
struct Transfers<'a> {
    course: Option<Course>,
    memory: &'a mut [u8],
    device: &'a [u8],
}

impl Iterator for Transfers<'_> {
    type Item = Made;

    fn next(&mut self) -> Option<Made> {
        let (made, behind) = self.course.take()?.step(self.memory, self.device)?;
        self.course = behind;
        Some(made)
    }
}

// Some transfers more, on the memory at the front of `copy`; their records stand at the front of `records`, their lines, if wanted, on `out` from
// `at` on.
pub fn go_on(
    course: Course,
    is_on: bool,
    copy: &mut [u8; 100000],
    device: &[u8],
    records: &mut [u8; 4096],
    out: &mut [u8; 524288],
    at: usize,
) -> Traced {
    let mut transfers = Transfers {
        course: Some(course),
        memory: &mut copy[..MEMORY],
        device,
    };
    let mut at = at;
    let mut filled = 0;
    for made in transfers.by_ref().take(CHUNK) {
        filled = text(records, filled, &bytes_of(made.record));
        if is_on {
            at = put(out, at, made);
        }
    }
    Traced {
        course: transfers.course,
        at,
        filled,
    }
}
