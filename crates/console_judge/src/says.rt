// What is said, and the status that goes with it.
use crate::findings::Finding;
use console_files::{say, say_failed};
use std::fmt::InlineText;
use std::io::{Error, ErrorKind, Print};

// The status of a program whose output nobody reads any more: a shell's for one that the broken pipe ended.
pub const UNHEARD: u8 = 141;

// How the program ends; Failed also where the log is refused.
#[derive(Clone, Copy)]
pub(crate) enum Status {
    Accepted,
    Wrong,
    Failed,
    Unheard,
}

impl From<Status> for u8 {
    fn from(status: Status) -> u8 {
        match status {
            Status::Accepted => 0,
            Status::Wrong => 1,
            Status::Failed => 2,
            Status::Unheard => UNHEARD,
        }
    }
}

impl From<Finding<'_>> for Status {
    fn from(finding: Finding<'_>) -> Status {
        match finding {
            Finding::Accepted { .. } => Status::Accepted,
            Finding::Wrong(_) => Status::Wrong,
            Finding::Refused(_) => Status::Failed,
        }
    }
}

// A file that failed.
pub(crate) fn complain(rt: HostRuntime, name: &[u8], error: Error) -> Status {
    say(rt, b"judge: ");
    say_failed(rt, name, error);
    Status::Failed
}

pub(crate) fn complain_of(rt: HostRuntime, name: &[u8], words: &[u8]) -> Status {
    say(rt, b"judge: ");
    say(rt, name);
    say(rt, words);
    Status::Failed
}

// Failed where the words can't be written, for nobody has heard them. No finding has more bytes of words.
pub(crate) fn tell(rt: HostRuntime, finding: Finding<'_>) -> Status {
    let page: InlineText<512> = InlineText::of(finding);
    match rt.write_all(page.as_str().as_bytes()) {
        Ok(()) => Status::from(finding),
        Err(error) if error.kind() == ErrorKind::BrokenPipe => Status::Unheard,
        Err(error) => complain(rt, b"standard output", error),
    }
}
