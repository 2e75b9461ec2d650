// A line is answered.
ghost use Rattle.std.specs.Prelude.{◌≡◌, take, length};

use crate::session::{Outcome, Session, Typing};
use console_files::{Task, Told, answer_of, prepare, put_file, say};
use console_text::line::said;
use std::num::wrapping_add_u64;
use std::ops::ControlFlow;

// A terminal gives no longer line: what is beyond it is lost.
const TERMINAL: usize = 4095;

// Whether it is said why an answer is `error` or `refused`: not of what was said already; in any case of a line that names a file.
#[derive(Clone, Copy, PartialEq, Eq)]
pub(crate) enum Saying {
    Never,
    Always,
    WhereAsked,
}

// Whether an answer is neither `error` nor `refused`. Most are so.
fn is_plain(answer: &[u8]) -> bool {
    !matches!(answer.first(), Some(b'e' | b'r'))
}

// The command without blanks at its end.
fn trimmed(line: &[u8]) -> &[u8]
    ensures { result.now ≡ take (length result.now) line.now }
{
    match line.iter().rposition(|&b| b != b' ') {
        Some(i) => &line[..i + 1],
        None => b"",
    }
}

impl<'a> Session<'a> {
    // Whether a terminal may have cut the line.
    pub(crate) fn is_cut(&self) -> bool {
        self.way.typing != Typing::Not && TERMINAL <= self.line.len
    }

    // The command, as far as it is one, and the sign of a comment: what is echoed is a script again.
    fn echo(&mut self) {
        if !self.way.is_echoing {
            return;
        }
        let line = self.line.as_slice();
        self.out.text(trimmed(&line[..said(line)]));
        self.out.text(b"    # ");
    }

    // Such a line as a terminal cuts is not done.
    fn task(&mut self) -> Result<Task, Told> {
        if self.is_cut() {
            say(
                self.rt,
                b"rack: a terminal cuts a line at 4095 characters: give longer ones in a file\n",
            );
            return Err(Told);
        }
        prepare(
            self.teller(),
            &mut self.line,
            &mut self.arrays.spare,
            &mut self.notes,
        )
    }

    // The console's answer.
    fn ask_console(&mut self) {
        let at = self.out.len;
        let done = console_session::answer(
            self.console,
            self.line.as_slice(),
            &mut self.arrays.memory,
            &mut self.arrays.queue,
            &mut self.arrays.room,
            &mut self.arrays.spare,
            &mut self.out.bytes,
            at,
        );
        self.console = done.console;
        self.out.set_len(done.at);
    }

    // The answer to a line that is not the console's.
    fn answer_own(&mut self, done: Result<(), Told>) -> Saying {
        self.out.text(answer_of(done));
        Saying::Never
    }

    // The answer's bytes, if it is bytes, go to the file whose name was kept.
    fn put_file(&mut self, at: usize) -> Saying {
        let is_put = put_file(
            self.teller(),
            self.notes.as_slice(),
            &mut self.arrays.spare,
            &mut self.out,
            at,
        );
        if is_put {
            Saying::Never
        } else {
            Saying::Always
        }
    }

    // Answers the line in its array; the session breaks off at a line to leave at.
    fn answer(&mut self) -> ControlFlow<(), Saying> {
        let at = self.out.len;
        let teller = self.teller();
        let saying = match self.task() {
            Ok(Task::Console) => {
                self.ask_console();
                Saying::WhereAsked
            }
            Ok(Task::Read) => {
                self.ask_console();
                Saying::Always
            }
            Ok(Task::Write) => {
                self.ask_console();
                self.put_file(at)
            }
            Ok(Task::Leave) => return ControlFlow::Break(()),
            Ok(Task::Trace(is_on)) => {
                self.is_tracing = is_on;
                self.answer_own(Ok(()))
            }
            Ok(Task::Log) => {
                let opened = self.log.open(teller, self.notes.as_slice());
                self.answer_own(opened)
            }
            Ok(Task::LogOff) => {
                let closed = self.log.close(teller);
                self.answer_own(closed)
            }
            Err(told) => self.answer_own(Err(told)),
        };
        ControlFlow::Continue(saying)
    }

    // Answers the next line, and tells the answer: whether there was something to tell but the answer itself. A line that has none is not
    // echoed either.
    fn take_line(&mut self) -> ControlFlow<(), bool> {
        self.trace();
        // nobody reads the output any more: nothing behind it is carried out
        if self.outcome == Outcome::Unheard {
            return ControlFlow::Break(());
        }
        let before = self.out.len;
        self.echo();
        let start = self.out.len;
        let answered = self.answer();
        if self.out.len <= start {
            self.out.truncate(before);
        }
        let saying = answered?;
        let is_told = self.out.len <= start
            || self.answers.is_some()
            || !is_plain(self.out.behind(start));
        if is_told && start < self.out.len {
            self.tell(start, saying)?;
        }
        ControlFlow::Continue(is_told)
    }

    pub(crate) fn next_line(&mut self) -> ControlFlow<(), bool> {
        self.number = wrapping_add_u64(self.number, 1);
        let taken = self.take_line();
        self.line.truncate(0);
        taken
    }
}
