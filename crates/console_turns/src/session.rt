// A session: more of the script is read, or lines of it are answered and told, turn by turn.
use crate::answers;
use crate::answers::Expected;
use crate::part::Part;
use crate::script::Script;
use console_commands::Console;
use console_files::{Line, Log, Name, Page, Teller, say, say_failed};
use console_session::gather;
use std::io;
use std::io::{Error, ErrorKind, Print};
use std::ops::ControlFlow;

// So many bytes of answers may wait when the next line is taken.
pub(crate) const WAITING: usize = 160000;

// Whether a person types the script at a terminal, and is asked for each line.
#[derive(Clone, Copy, PartialEq, Eq)]
pub enum Typing {
    Not,
    Unasked,
    Asked,
}

// How answers are told.
#[derive(Clone, Copy)]
pub struct Way {
    pub typing: Typing,
    pub is_explaining: bool,
    pub is_echoing: bool,
}

// How a session has gone: the worst counts. Unheard, where the reader of what is written has gone, and all that is still written goes nowhere.
#[derive(Clone, Copy, PartialEq, Eq, PartialOrd, Ord)]
pub enum Outcome {
    Well,
    Failed,
    Unheard,
}

// What the console's commands work on; the spare bytes are also for a file's, a memory's copy and the rows of help.
#[derive(Drop)]
pub(crate) struct Arrays {
    pub memory: [u8; 65537],
    pub queue: [u8; 140000],
    pub room: [u8; 70000],
    pub spare: [u8; 100000],
}

impl Arrays {
    fn new() -> Arrays {
        Arrays {
            memory: [0; 65537],
            queue: [0; 140000],
            room: [0; 70000],
            spare: [0; 100000],
        }
    }
}

// The script under its name, and the number of its last line; what the console holds; the answers expected, where there are any, and the part of their file; what is
// traced, and whether its lines could not be written, behind which `trace on` may still come; the line under way; the answers that wait, of which one of 70,000 bytes has room
// with its line before it; words for people, or a file's name.
#[derive(Drop)]
pub(crate) struct Session<'a> {
    pub rt: HostRuntime,
    pub way: Way,
    pub script: Script,
    pub name: &'a [u8],
    pub part: Part,
    pub is_ending: bool,
    pub number: u64,
    pub console: Console,
    pub arrays: Arrays,
    pub answers: Option<Expected<'a>>,
    pub wanted: answers::Part,
    pub is_tracing: bool,
    pub is_trace_lost: bool,
    pub log: Log,
    pub line: Line,
    pub out: Page<524288>,
    pub notes: Name,
    pub outcome: Outcome,
}

// Says in words why a call on this thing failed.
pub fn complain(rt: HostRuntime, what: &[u8], error: Error) {
    say(rt, b"rack: ");
    say_failed(rt, what, error);
}

impl<'a> Session<'a> {
    pub(crate) fn teller(&self) -> Teller {
        Teller {
            rt: self.rt,
            number: self.number,
        }
    }

    pub(crate) fn fail(&mut self, outcome: Outcome) {
        self.outcome = self.outcome.max(outcome);
    }

    // Answers that are compared and not echoed are not written.
    fn write_out(&self) -> io::Result<()> {
        if self.answers.is_some() && !self.way.is_echoing {
            return Ok(());
        }
        self.rt.write_all(self.out.as_slice())
    }

    // Writes the answers that wait, none of which waits after it; where that fails, nothing is left to be done. Where it fails because their
    // reader has gone, nothing is said.
    pub(crate) fn flush(&mut self) -> ControlFlow<()> {
        let written = self.write_out();
        self.out.truncate(0);
        let Err(error) = written else {
            return ControlFlow::Continue(());
        };
        if error.kind() == ErrorKind::BrokenPipe {
            self.fail(Outcome::Unheard);
        } else {
            complain(self.rt, b"standard output", error);
            self.fail(Outcome::Failed);
        }
        ControlFlow::Break(())
    }

    // Reads once. Behind the script's end stands a newline, for the last line may lack its own.
    fn read(&mut self) -> ControlFlow<()> {
        match self.script.read(&mut self.part) {
            Ok(0) => {
                self.part.set_newline();
                self.is_ending = true;
            }
            Ok(_) => {}
            Err(error) => {
                complain(self.rt, self.name, error);
                self.fail(Outcome::Failed);
                return ControlFlow::Break(());
            }
        }
        ControlFlow::Continue(())
    }

    // All that was read is taken: the answers are written, so that a person sees them, and more is read.
    fn refill(&mut self) -> ControlFlow<()> {
        self.flush()?;
        if self.is_ending {
            return ControlFlow::Break(());
        }
        // unless a line is under way
        if self.way.typing == Typing::Asked && self.line.len == 0 {
            let _ = self.rt.write_all(b"> ");
        }
        self.read()
    }

    // Whether a whole line stands in its array.
    fn gather(&mut self) -> bool {
        let part = self.part.rest();
        let line = &mut self.line;
        let reached = gather(&mut line.bytes, line.len, part, 0);
        line.set_len(reached.length);
        self.part.take(reached.taken);
        reached.ended
    }

    // Takes what is left of the part read, line by line, up to one of which there is something to tell, or many bytes wait.
    fn take(&mut self) -> ControlFlow<()> {
        // each turn takes a byte at least
        for _ in 0..self.part.rest().len() {
            if !self.gather() || self.next_line()? || WAITING < self.out.len {
                break;
            }
        }
        ControlFlow::Continue(())
    }

    // One turn.
    fn step(&mut self) -> ControlFlow<()> {
        if self.part.rest().is_empty() {
            return self.refill();
        }
        if WAITING < self.out.len {
            return self.flush();
        }
        let taken = self.take();
        if self.is_trace_lost {
            return ControlFlow::Break(());
        }
        if taken.is_break() {
            self.flush()?;
        }
        taken
    }

    // The script has ended.
    fn end(&mut self) -> Outcome {
        // behind the last prompt
        if self.way.typing == Typing::Asked && self.is_ending {
            let _ = self.rt.write_all(b"\n");
        }
        // who writes the answers expected may wait for its end
        self.log = Log::Off;
        if self.outcome != Outcome::Well {
            return self.outcome;
        }
        if let Some(answers) = &mut self.answers
            && !answers.are_over(&mut self.wanted)
        {
            return Outcome::Failed;
        }
        Outcome::Well
    }
}

// Runs the script to its end. A proved loop has to end, and nothing says that a file does: the turns are counted, up to a number that no run
// has.
pub fn run<'a>(
    rt: HostRuntime,
    way: Way,
    script: Script,
    name: &'a [u8],
    answers: Option<Expected<'a>>,
) -> Outcome {
    let mut session = Session {
        rt,
        way,
        script,
        name,
        part: Part::new(),
        is_ending: false,
        number: 0,
        console: Console::fresh(),
        arrays: Arrays::new(),
        answers,
        wanted: [0; 65536],
        is_tracing: false,
        is_trace_lost: false,
        log: Log::Off,
        line: Page::new(),
        out: Page::new(),
        notes: Page::new(),
        outcome: Outcome::Well,
    };
    for _ in 0..u64::MAX {
        if session.step().is_break() {
            break;
        }
    }
    session.end()
}
