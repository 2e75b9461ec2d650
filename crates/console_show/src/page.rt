// A page as a writer: text is put behind what stands there, and what finds no room is left out. It never fails.
use console_text::page::text;
use std::fmt;
use std::fmt::{Display, Write};

#[derive(Drop)]
struct Page<'a> {
    out: &'a mut [u8],
    at: usize,
}

impl Write for Page<'_> {
    fn write_str(&mut self, s: &str) -> fmt::Result {
        self.at = text(self.out, self.at, s.as_bytes());
        Ok(())
    }
}

// Puts this at a place of the page; the place behind it.
pub fn put<D: Display + Drop>(out: &mut [u8], at: usize, what: D) -> usize {
    let mut page = Page { out, at };
    let _ = page.write(what);
    page.at
}
