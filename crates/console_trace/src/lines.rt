// The line of one transfer.
use crate::transfers::Made;
use console_records::{Flags, Number, Transfer};
use std::fmt;
use std::fmt::{Display, Formatter, Write};

// It begins with the sign of a comment: answers with such lines are a script's, too.
impl Display for Made {
    fn fmt<W: Write>(&self, f: &mut Formatter<W>) -> fmt::Result {
        let Made {
            service,
            record,
            states,
            has_s1,
        } = *self;
        f.write_str("# service ")?;
        Number(service).fmt(f)?;
        f.write_str(" ")?;
        Transfer(record).fmt(f)?;
        let end = match (has_s1, record.flags != 0) {
            (false, false) => " states\n",
            (true, false) => " states with S1\n",
            (false, true) => " states,",
            (true, true) => " states with S1,",
        };
        f.write_str(", ")?;
        Number(states).fmt(f)?;
        f.write_str(end)?;
        if record.flags == 0 {
            return Ok(());
        }
        Flags(record.flags).fmt(f)?;
        f.write_str("\n")
    }
}
