// A word of a line, shown so that a terminal does not act on it.
use std::fmt;
use std::fmt::{Display, Formatter, Write};

// No more of a word than this is shown between quotes.
const SHOWN: usize = 40;

fn printable(b: u8) -> char {
    match b {
        b' '..=b'~' => char::from(b),
        _ => '?',
    }
}

#[derive(Clone, Copy)]
pub(crate) struct Shown<'a>(pub(crate) &'a [u8]);

impl Display for Shown<'_> {
    fn fmt<W: Write>(&self, f: &mut Formatter<W>) -> fmt::Result {
        for b in self.0.iter() {
            f.write_char(printable(*b))?;
        }
        Ok(())
    }
}

#[derive(Clone, Copy)]
pub(crate) struct Quoted<'a>(pub(crate) &'a [u8]);

impl Display for Quoted<'_> {
    fn fmt<W: Write>(&self, f: &mut Formatter<W>) -> fmt::Result {
        let word = self.0;
        let shown = Shown(&word[..SHOWN.min(word.len())]);
        let more = if SHOWN < word.len() { ".." } else { "" };
        write!(f, "'{shown}{more}'")
    }
}
