// What is found of a log, in words.
use am9517::{Controller, Refusal};
use console_records::Said;
use logs::{next_record, record_in};
use std::fmt;
use std::fmt::{Display, Formatter, Write};
use words::bits::is_set;

// Why the rules make no transfer next.
#[derive(Clone, Copy)]
pub(crate) enum Silence {
    Over,
    Dropped,
    Cascade,
}

impl Display for Silence {
    fn fmt<W: Write>(&self, f: &mut Formatter<W>) -> fmt::Result {
        f.write_str(match self {
            Silence::Over => "no transfer: the service has ended",
            Silence::Dropped => "no transfer: the channel's line has dropped",
            Silence::Cascade => "no transfer: the channel is in cascade mode",
        })
    }
}

// A wrong record: the state and the memory before it, what is left of the log's part there, its place, its address error, and why the rules make no
// transfer there, where they don't.
#[derive(Clone, Copy)]
pub(crate) struct Wrong<'a> {
    pub controller: Controller,
    pub memory: &'a [u8],
    pub part: &'a [u8],
    pub place: u64,
    pub error: i32,
    pub silence: Option<Silence>,
}

// What the record claims, as far as it is there.
#[derive(Clone, Copy)]
struct Claim<'a>(&'a [u8]);

impl Display for Claim<'_> {
    fn fmt<W: Write>(&self, f: &mut Formatter<W>) -> fmt::Result {
        let n = self.0.len();
        if n < 8 {
            return write!(f, "nothing whole: it is cut after {n} of its 8 bytes");
        }
        write!(f, "{}", Said(record_in(self.0)))
    }
}

// What of a record is the device's, and so as the record claims: a byte that is written, and EOP.
#[derive(Clone, Copy)]
struct Taken {
    is_write: bool,
    eop: bool,
}

impl Display for Taken {
    fn fmt<W: Write>(&self, f: &mut Formatter<W>) -> fmt::Result {
        f.write_str(match (self.is_write, self.eop) {
            (true, true) => " (byte and EOP as claimed)",
            (true, false) => " (byte as claimed)",
            (false, true) => " (EOP as claimed)",
            (false, false) => "",
        })
    }
}

// The rules' own record where the log has this one; or why there is none.
#[derive(Clone, Copy)]
struct Rules<'a>(Wrong<'a>);

impl Display for Rules<'_> {
    fn fmt<W: Write>(&self, f: &mut Formatter<W>) -> fmt::Result {
        let Rules(wrong) = *self;
        if let Some(silence) = wrong.silence {
            return write!(f, "{silence}");
        }
        if wrong.part.len() < 8 {
            return f.write_str("a record has 8 bytes");
        }
        let claimed = record_in(wrong.part);
        let eop = is_set(claimed.flags, 1);
        let right = next_record(wrong.controller, wrong.memory, claimed.byte, eop);
        let taken = Taken {
            is_write: right.kind == 1,
            eop,
        };
        write!(f, "{}{taken}", Said(right))
    }
}

impl Display for Wrong<'_> {
    fn fmt<W: Write>(&self, f: &mut Formatter<W>) -> fmt::Result {
        let Wrong {
            part,
            place,
            error,
            ..
        } = *self;
        writeln!(f, "wrong: record {}, at byte {place}", place / 8 + 1)?;
        writeln!(f, "  it claims:     {}", Claim(part))?;
        writeln!(f, "  the rules say: {}", Rules(*self))?;
        writeln!(f, "  address error: {error}")
    }
}

// Why judging, or reading the sheet, is refused.
fn meaning(refusal: Refusal) -> &'static str {
    match refusal {
        Refusal::Range => "the state breaks a range",
        Refusal::Memory => "the memory's image has not 65536 bytes",
        Refusal::NoService => "no service is open in the state",
        Refusal::Slice => "the sheet's file has less than a sheet",
        Refusal::EndMark => "the sheet's end mark is wrong",
        Refusal::FormNumber => "the sheet is of neither form",
        Refusal::Distance => "the sheet's distance is wrong",
        Refusal::Sum => "the sheet's sum is wrong",
        Refusal::StoredRange => "the sheet has a field out of its range",
        _ => "",
    }
}

// All records are right, in so many bytes, and the service is still open or not; one is wrong; or judging is refused.
#[derive(Clone, Copy)]
pub(crate) enum Finding<'a> {
    Accepted { bytes: u64, is_open: bool },
    Wrong(Wrong<'a>),
    Refused(Refusal),
}

impl Display for Finding<'_> {
    fn fmt<W: Write>(&self, f: &mut Formatter<W>) -> fmt::Result {
        match *self {
            Finding::Accepted { bytes, is_open } => {
                let n = bytes / 8;
                let records = if n == 1 { "record" } else { "records" };
                let end = if is_open {
                    "is still open"
                } else {
                    "has ended"
                };
                writeln!(f, "accepted: {n} {records}; the service {end}")
            }
            Finding::Wrong(wrong) => write!(f, "{wrong}"),
            Finding::Refused(refusal) => {
                writeln!(f, "refused {}: {}", refusal.number(), meaning(refusal))
            }
        }
    }
}
