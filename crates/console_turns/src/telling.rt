// An answer is told: held against the one expected, and explained where it is `error` or `refused`.
use crate::lines::Saying;
use crate::session::{Outcome, Session, Typing, Way};
use console_commands::Console;
use console_explain::{Held, explain};
use console_files::{Name, say};
use console_text::line::said;
use std::ops::ControlFlow;

// A longer line is an error.
pub(crate) const LONGEST: usize = 200000;

fn holding(console: Console) -> Held {
    Held {
        controller: console.controller,
        board: console.board,
        lent: console.lent,
        queued: console.end.saturating_sub(console.start),
        size: console.size,
    }
}

// Where in the script: its name, unless a person types it, and the line's number.
fn note_place(way: Way, name: &[u8], number: u64, notes: &mut Name) {
    notes.truncate(0);
    if way.typing == Typing::Asked {
        notes.text(b"line ");
    } else {
        notes.text(name);
        notes.text(b":");
    }
    notes.decimal(number);
    notes.text(b": ");
}

impl<'a> Session<'a> {
    // Where the reader of the answers has gone, there is nobody to read these.
    fn write_notes(&self) {
        if self.outcome != Outcome::Unheard {
            say(self.rt, self.notes.as_slice());
        }
    }

    // Why the answer that begins there was given, in words behind those on the notes.
    fn note_cause(&mut self, start: usize) {
        let line = self.line.as_slice();
        if LONGEST < line.len() {
            self.notes.text(b"a line has 200000 characters at most\n");
            return;
        }
        let at = self.notes.len;
        let end = explain(
            &holding(self.console),
            &line[..said(line)],
            self.out.behind(start),
            &mut self.notes.bytes,
            at,
        );
        self.notes.set_len(end);
    }

    // Says why, unless that is plain; the answers before it are written first.
    fn explain(&mut self, start: usize) -> ControlFlow<()> {
        note_place(self.way, self.name, self.number, &mut self.notes);
        let before = self.notes.len;
        self.note_cause(start);
        let flushed = self.flush();
        if before < self.notes.len {
            self.write_notes();
        }
        flushed
    }

    // The answer must be the one expected, where there is one.
    fn compare(&mut self, start: usize) -> ControlFlow<()> {
        let Some(answers) = &mut self.answers else {
            return ControlFlow::Continue(());
        };
        let Err((before, behind)) = answers.compare(&mut self.wanted, self.out.behind(start)) else {
            return ControlFlow::Continue(());
        };
        note_place(self.way, self.name, self.number, &mut self.notes);
        answers.note_difference(&self.wanted, before, behind, &mut self.notes);
        self.write_notes();
        self.fail(Outcome::Failed);
        ControlFlow::Break(())
    }

    // Whether it is said why.
    fn explains(&self, saying: Saying) -> bool {
        match saying {
            Saying::Never => false,
            Saying::Always => true,
            Saying::WhereAsked => self.way.is_explaining,
        }
    }

    // The answer that begins there is told.
    pub(crate) fn tell(&mut self, start: usize, saying: Saying) -> ControlFlow<()> {
        let answer = self.out.behind(start);
        let is_error = answer == b"error\n".as_slice();
        let is_refused = answer.starts_with(b"refused ");
        if is_error && self.answers.is_none() && self.way.typing != Typing::Asked {
            self.fail(Outcome::Failed);
        }
        let compared = self.compare(start);
        // what went wrong with a file is said in any case
        if (is_error || is_refused) && self.explains(saying) {
            self.explain(start)?;
        }
        compared
    }
}
