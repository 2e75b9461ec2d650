// The log part by part: what the good records of one leave, the next begins with.
use crate::findings::{Finding, Silence, Wrong};
use crate::says::{Status, tell};
use crate::source::Source;
use am9517::Controller;
use am9517_service::{Reason, run};
use logs::{Verdict, handed_back, judge};

// Why the rules make no transfer next, where they don't: what a run with limit 0 stops by.
fn silence_of(c: Controller, memory: &mut [u8]) -> Option<Silence> {
    match run(c, memory, &[], &mut [], 0, 0).answer {
        Ok(Reason::Limit | Reason::Short) => None,
        Ok(Reason::Dropped) => Some(Silence::Dropped),
        Ok(Reason::Cascade) => Some(Silence::Cascade),
        Ok(Reason::Ended) | Err(_) => Some(Silence::Over),
    }
}

// How far a log is right: the state there and its place.
#[derive(Clone, Copy)]
struct Course {
    controller: Controller,
    place: u64,
}

impl Course {
    // Behind a part of the log; or it ends there. Behind the end of the service any byte is wrong.
    fn behind(self, rt: HostRuntime, memory: &mut [u8], part: &[u8]) -> Result<Course, Status> {
        let Course { controller, place } = self;
        if (0 < place) & (controller.in_service == 0) {
            let wrong = Wrong {
                controller,
                memory,
                part,
                place,
                error: 0,
                silence: Some(Silence::Over),
            };
            return Err(tell(rt, Finding::Wrong(wrong)));
        }
        let judged = judge(controller, memory, part);
        let controller = judged.controller;
        match judged.verdict {
            Verdict::Accepted => Ok(Course {
                controller,
                place: place.wrapping_add(part.len() as u64),
            }),
            Verdict::Wrong { at, error } => {
                let wrong = Wrong {
                    controller,
                    silence: silence_of(controller, memory),
                    memory,
                    part: handed_back(part, judged.verdict),
                    place: place.wrapping_add(at as u64),
                    error,
                };
                Err(tell(rt, Finding::Wrong(wrong)))
            }
            Verdict::Refused(refusal) => Err(tell(rt, Finding::Refused(refusal))),
        }
    }
}

// The log to its end: the parts are counted, up to a number that no file has.
pub(crate) fn judge_log(
    c: Controller,
    memory: &mut [u8],
    log: &Source<'_>,
) -> Result<Status, Status> {
    // whole records; a part that a failed read cut short is not judged
    let mut part = [0u8; 65536];
    let begun = Course {
        controller: c,
        place: 0,
    };
    // first of no bytes: none of its parts is refused then
    let mut now = begun.behind(log.rt, memory, &[])?;
    for _ in 0..u64::MAX {
        let n = log.part(&mut part, b" went on behind its end\n")?;
        if n == 0 {
            let finding = Finding::Accepted {
                bytes: now.place,
                is_open: now.controller.in_service != 0,
            };
            return Ok(tell(log.rt, finding));
        }
        now = now.behind(log.rt, memory, &part[..n])?;
    }
    Err(Status::Failed)
}
