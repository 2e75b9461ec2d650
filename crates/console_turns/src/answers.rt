// Answers held against those of a file.
use console_files::{Page, say, say_failed, say_number};
use std::fs::File;
use std::io::{Print, Read};
use std::num::wrapping_add_u64;

// No more of a line than this is shown before and behind the place where it differs.
const SHOWN: usize = 200;

// The file can't be read, which was said.
#[derive(Clone, Copy)]
struct Unread;

// Of the answers expected: what of the part read of their file is still to come, the number of its line, and whether it can't be read.
#[derive(Clone, Copy)]
pub struct Answers {
    pub from: usize,
    pub filled: usize,
    pub number: u64,
    pub is_failed: bool,
}

// The file of the answers expected, under its name. The part of it read last is lent: it is too large to be handed on.
#[derive(Drop)]
pub struct Expected<'a> {
    rt: HostRuntime,
    file: File,
    name: &'a [u8],
    answers: Answers,
}

pub(crate) type Part = [u8; 65536];

impl<'a> Expected<'a> {
    pub fn new(rt: HostRuntime, file: File, name: &'a [u8]) -> Expected<'a> {
        Expected {
            rt,
            file,
            name,
            answers: Answers {
                from: 0,
                filled: 0,
                number: 1,
                is_failed: false,
            },
        }
    }

    fn rest<'b>(&self, part: &'b Part) -> &'b [u8] {
        let Answers { from, filled, .. } = self.answers;
        part.get(from..filled).unwrap_or(b"")
    }

    // There is a byte to come, unless the file has ended.
    fn fill(&mut self, part: &mut Part) {
        if self.answers.from < self.answers.filled {
            return;
        }
        self.answers.from = 0;
        self.answers.filled = 0;
        let mut input = &self.file;
        match input.read(part) {
            Ok(n) => self.answers.filled = n,
            Err(error) => {
                say_failed(self.rt, b"rack: the answers expected", error);
                self.answers.is_failed = true;
            }
        }
    }

    // The next byte, none at the file's end.
    fn next_byte(&self, part: &Part) -> Result<Option<u8>, Unread> {
        if self.answers.is_failed {
            return Err(Unread);
        }
        Ok(self.rest(part).first().copied())
    }

    fn is_next(&self, part: &Part, b: u8) -> bool {
        matches!(self.next_byte(part), Ok(Some(next)) if next == b)
    }

    fn take(&mut self, b: u8) {
        if self.answers.from < self.answers.filled {
            self.answers.from += 1;
        }
        if b == b'\n' {
            self.answers.number = wrapping_add_u64(self.answers.number, 1);
        }
    }

    // Comments stand in lines of their own, as those of traces do: they are no answers. The bytes are counted, up to a number that no file has.
    fn skip_comments(&mut self, part: &mut Part) {
        self.fill(part);
        let mut is_comment = self.is_next(part, b'#');
        for _ in 0..u64::MAX {
            let Ok(Some(b)) = self.next_byte(part) else {
                return;
            };
            if !is_comment {
                return;
            }
            self.take(b);
            self.fill(part);
            if b == b'\n' {
                is_comment = self.is_next(part, b'#');
            }
        }
    }

    // Whether the answer is as expected, or else what of it is, and what is behind that.
    pub(crate) fn compare<'b>(
        &mut self,
        part: &mut Part,
        answer: &'b [u8],
    ) -> Result<(), (&'b [u8], &'b [u8])> {
        self.skip_comments(part);
        for (i, &b) in answer.iter().enumerate() {
            self.fill(part);
            if !self.is_next(part, b) {
                return Err(answer.split_at(i));
            }
            self.take(b);
        }
        Ok(())
    }

    // Which line of the file has another answer, and both lines, one below the other.
    pub(crate) fn note_difference<const N: usize>(
        &self,
        part: &Part,
        before: &[u8],
        behind: &[u8],
        notes: &mut Page<N>,
    ) {
        let expected = self.rest(part);
        notes.text(b"not the answer in line ");
        notes.decimal(self.answers.number);
        notes.text(b" of ");
        notes.text(self.name);
        notes.text(b"\n    expected: ");
        notes.text(line_before(before));
        notes.text(if expected.is_empty() {
            b"(nothing more)"
        } else {
            line_behind(expected)
        });
        notes.text(b"\n    answered: ");
        notes.text(line_before(before));
        notes.text(line_behind(behind));
        notes.text(b"\n");
    }

    // The script has ended: whether so have the answers expected. Comments count among what goes on.
    pub(crate) fn are_over(&mut self, part: &mut Part) -> bool {
        let number = self.answers.number;
        self.skip_comments(part);
        let rt = self.rt;
        let is_over = matches!(self.next_byte(part), Ok(None));
        if is_over {
            say(rt, b"rack: all answers as in ");
            say(rt, self.name);
        } else {
            say(rt, b"rack: the script ends, and ");
            say(rt, self.name);
            say(rt, b" goes on in line ");
            say_number(rt, number);
        }
        say(rt, b"\n");
        is_over
    }
}

// The last line, or, of a long one, the part of it that is shown.
fn line_before(bytes: &[u8]) -> &[u8] {
    let near = &bytes[bytes.len().saturating_sub(SHOWN)..];
    match near.iter().rposition(|&b| b == b'\n') {
        Some(i) => &near[i + 1..],
        None => near,
    }
}

// The first line, or the part of it that is shown.
fn line_behind(bytes: &[u8]) -> &[u8] {
    let near = &bytes[..bytes.len().min(SHOWN)];
    match near.iter().position(|&b| b == b'\n') {
        Some(i) => &near[..i],
        None => near,
    }
}
