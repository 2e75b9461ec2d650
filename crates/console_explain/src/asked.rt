// A line, and what the console held when it was asked.
use crate::Held;
use console_show::rows::Words;
use console_text::numbers::number_of;

#[derive(Clone, Copy)]
pub(crate) struct Asked<'a> {
    pub(crate) held: &'a Held,
    pub(crate) line: &'a [u8],
}

impl<'a> Asked<'a> {
    pub(crate) fn words(&self) -> Words<'a> {
        Words(self.line)
    }

    // The word behind k others; where there is none, no letters.
    pub(crate) fn word(&self, k: usize) -> &'a [u8] {
        self.words().nth(k).unwrap_or(&[])
    }

    pub(crate) fn name(&self) -> &'a [u8] {
        self.word(0)
    }

    // Whether the word behind k others says this number.
    pub(crate) fn says(&self, k: usize, number: u32) -> bool {
        number_of(self.word(k), number) == Some(number)
    }
}
