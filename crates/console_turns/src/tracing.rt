// A run or a round is traced before it is carried out, where that is asked for: each transfer as a line, and as a record in a file.
use crate::session::{Outcome, Session, WAITING};
use crate::telling::LONGEST;
use console_commands::Console;
use console_text::line::{end_of, said};
use console_trace::{Course, begun, go_on};

// The device bytes that the console holds.
fn queued(queue: &[u8], console: Console) -> &[u8] {
    queue.get(console.start..console.end).unwrap_or(b"")
}

// The memory, at the front of the spare bytes.
fn copy(memory: &[u8; 65537], spare: &mut [u8; 100000]) {
    spare[..65536].copy_from_slice(&memory[..65536]);
}

impl<'a> Session<'a> {
    // Whether anything is to be made of a transfer.
    fn is_traced(&self) -> bool {
        self.is_tracing || self.log.is_open()
    }

    // The course of the line: none where it is neither a run nor a round, is too long to be done, or not all of a memory is lent.
    fn course(&mut self) -> Option<Course> {
        let is_cut = self.is_cut();
        let line = self.line.as_slice();
        let console = self.console;
        if is_cut || LONGEST < end_of(line) || console.lent != 65536 {
            return None;
        }
        let left = console.size.saturating_sub(console.written);
        let course = begun(&line[..said(line)], console.controller, left)?;
        copy(&self.arrays.memory, &mut self.arrays.spare);
        Some(course)
    }

    // The lines and the records of some transfers more: the records go to the file, and lines that have come to be many out, so that they can
    // be read while more are made. A file that can't be written is left alone from then on, and where the lines can't be, none is made.
    fn go_on(&mut self, course: Course, records: &mut [u8; 4096]) -> Option<Course> {
        let at = self.out.len;
        let done = go_on(
            course,
            self.is_tracing,
            &mut self.arrays.spare,
            queued(&self.arrays.queue, self.console),
            records,
            &mut self.out.bytes,
            at,
        );
        self.out.set_len(done.at);
        let filled = records.get(..done.filled).unwrap_or(b"");
        let teller = self.teller();
        if self.log.write(teller, filled).is_err() {
            self.fail(Outcome::Failed);
        }
        if WAITING < self.out.len && self.flush().is_break() {
            self.is_tracing = false;
            self.is_trace_lost = true;
        }
        done.course
    }

    // All transfers of the line: the turns are counted, up to a number that no round has.
    pub(crate) fn trace(&mut self) {
        if !self.is_traced() {
            return;
        }
        let mut course = self.course();
        let mut records = [0u8; 4096];
        for _ in 0..u64::MAX {
            let Some(open) = course else {
                return;
            };
            if !self.is_traced() {
                return;
            }
            course = self.go_on(open, &mut records);
        }
    }
}
