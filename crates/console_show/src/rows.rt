// The words of a line or of a row, and the rows of help and of the refusals by their names.
ghost use Rattle.std.specs.Prelude.{length};
ghost use Rattle.std.specs.Iterator.{at_most};

use crate::advice::{COMMANDS, REFUSALS};

// The columns of a row that hold a command's form; what it does stands behind them.
pub const FORM: usize = 22;

// The columns of a refusal's row before its words.
const NUMBER: usize = 4;

fn is_blank(b: u8) -> bool {
    matches!(b, b' ' | b'\t')
}

// What stands between blanks, one word after another.
#[derive(Clone, Copy)]
pub struct Words<'a>(pub &'a [u8]);

impl<'a> Iterator for Words<'a> {
    type Item = &'a [u8];

    ghost remaining = { λ s. at_most (length s.0.now) };

    fn next(&mut self) -> Option<&'a [u8]> {
        let s = self.0;
        let from = s.iter().position(|b| !is_blank(*b))?;
        let to = match s[from + 1..].iter().position(|b| is_blank(*b)) {
            Some(n) => from + 1 + n,
            None => s.len(),
        };
        self.0 = &s[to..];
        Some(&s[from..to])
    }
}

// A row is called by its first word.
pub fn is_named(row: &str, name: &[u8]) -> bool {
    Words(row.as_bytes())
        .next()
        .is_some_and(|word| word == name)
}

// The words of the form in a row.
pub fn form(row: &str) -> Words<'_> {
    let bytes = row.as_bytes();
    Words(bytes.get(..FORM).unwrap_or(bytes))
}

// What the refusal of this number means.
pub fn meaning(number: &[u8]) -> &'static str {
    REFUSALS
        .iter()
        .find(|row| is_named(row, number))
        .and_then(|row| row.get(NUMBER..))
        .unwrap_or("")
}
