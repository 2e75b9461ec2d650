// The program's arguments.
ghost use Rattle.std.specs.Prelude.{◌≤◌, IfSome};

use console_files::{Page, say};
use console_judge::UNHEARD;
use std::env::{Env, FillError};
use std::io::{ErrorKind, Print};

// Room for an argument: one that is longer is taken for an empty one.
pub(crate) type Argument = Page<4096>;

#[derive(Clone, Copy)]
pub(crate) enum Asked {
    Run,
    Help,
    Version,
}

// What is wrong with the arguments.
#[derive(Clone, Copy)]
pub(crate) enum Wrong {
    Unknown(usize),
    TwoFiles,
    NoAnswers,
}

// Standard input, or the file that this argument names.
#[derive(Clone, Copy)]
pub(crate) enum Named {
    Input,
    File(usize),
}

// What is asked for, by the last argument that counts; how answers are told; what is named as the script, and which argument names the
// answers expected.
#[derive(Clone, Copy)]
pub(crate) struct Options {
    pub asked: Result<Asked, Wrong>,
    pub is_explaining: bool,
    pub is_echoing: bool,
    pub is_reporting: bool,
    pub script: Option<Named>,
    pub answers: Option<usize>,
}

impl Options {
    fn new() -> Options {
        Options {
            asked: Ok(Asked::Run),
            is_explaining: false,
            is_echoing: false,
            is_reporting: false,
            script: None,
            answers: None,
        }
    }

    // The script is named once at most.
    fn name_script(&mut self, named: Named) {
        if self.script.is_some() {
            self.asked = Err(Wrong::TwoFiles);
        } else {
            self.script = Some(named);
        }
    }

    // Another argument than --expect and the one behind it.
    fn take(&mut self, word: &[u8], i: usize) {
        match word {
            b"--explain" => self.is_explaining = true,
            b"--echo" => self.is_echoing = true,
            // for the script that starts the program: it waits for a status
            b"--report" => self.is_reporting = true,
            b"-" => self.name_script(Named::Input),
            b"--help" | b"-h" => self.asked = Ok(Asked::Help),
            b"--version" => self.asked = Ok(Asked::Version),
            [b'-', ..] => self.asked = Err(Wrong::Unknown(i)),
            _ => self.name_script(Named::File(i)),
        }
    }
}

// Nothing, where there is none.
pub(crate) fn put_argument(rt: HostRuntime, i: usize, page: &mut Argument) {
    let n = rt.arg(i, &mut page.bytes).unwrap_or(0);
    page.set_len(n);
}

pub(crate) fn argument(rt: HostRuntime, i: usize) -> Argument {
    let mut page: Argument = Page::new();
    put_argument(rt, i, &mut page);
    page
}

// One that finds no room is there, too.
fn is_missing(rt: HostRuntime, i: usize) -> bool {
    let mut space = [0u8; 1];
    matches!(rt.arg(i, &mut space), Err(FillError::NotPresent))
}

// How many there are, with the program's name.
pub(crate) fn argument_count(rt: HostRuntime) -> usize {
    (0..usize::MAX)
        .position(|i| is_missing(rt, i))
        .unwrap_or(usize::MAX)
}

// One that finds no room is longer than the words that are asked for.
fn is_word(rt: HostRuntime, i: usize, word: &[u8]) -> bool {
    let mut space = [0u8; 16];
    match rt.arg(i, &mut space) {
        Ok(n) => space.get(..n) == Some(word),
        Err(_) => false,
    }
}

// Where --judge stands, which is first or behind --report.
pub(crate) fn judge_at(rt: HostRuntime) -> Option<usize>
    ensures { IfSome result (λ at. at ≤ 2) }
{
    if is_word(rt, 1, b"--judge") {
        return Some(1);
    }
    if is_word(rt, 1, b"--report") && is_word(rt, 2, b"--judge") {
        return Some(2);
    }
    None
}

// The arguments one by one; behind --expect stands the name of the answers.
pub(crate) fn read_options(rt: HostRuntime) -> Options {
    let mut options = Options::new();
    let mut places = 1..argument_count(rt);
    while let Some(i) = places.next() {
        let word = argument(rt, i);
        if word.as_slice() != b"--expect".as_slice() {
            options.take(word.as_slice(), i);
        } else if let Some(name) = places.next() {
            options.answers = Some(name);
        } else {
            options.asked = Err(Wrong::NoAnswers);
        }
    }
    options
}

// The status; a full disk doesn't change it.
fn tell(rt: HostRuntime, words: &[u8]) -> u8 {
    match rt.write_all(words) {
        Err(error) if error.kind() == ErrorKind::BrokenPipe => UNHEARD,
        _ => 0,
    }
}

pub(crate) fn say_version(rt: HostRuntime) -> u8 {
    tell(rt, b"rack 4.3.0\n")
}

pub(crate) fn say_help(rt: HostRuntime) -> u8 {
    tell(
        rt,
        b"usage: rack [--explain] [--echo] [--expect ANSWERS] [FILE | -]
       rack --judge SHEET MEMORY LOG

Runs the rack program FILE, or standard input, and writes one answer for each command.
  --explain          says on standard error why an answer is error or refused
  --echo             writes each command before its answer
  --expect ANSWERS   writes no answers, but compares them with those in the file ANSWERS
  -                  standard input, as no name; at a terminal the program asks for each line
  --judge ..         judges the log in the file LOG, from the state in the sheet's file
                     SHEET and the 65536 bytes of the file MEMORY
  --version          tells the version
  --help             tells this
Status, told by the script that starts the program: 1 where an answer was error or not the
one expected, or a file failed, of a log that it is wrong; 2 where the arguments are wrong, of
a log that judging it was refused or a file failed.
",
    )
}

pub(crate) fn complain_of(rt: HostRuntime, words: &[u8]) {
    say(rt, b"rack: ");
    say(rt, words);
    say(rt, b" (--help tells more)\n");
}

impl Wrong {
    pub(crate) fn say(self, rt: HostRuntime) {
        match self {
            Wrong::Unknown(i) => {
                say(rt, b"rack: ");
                say(rt, argument(rt, i).as_slice());
                say(rt, b" is unknown (--help tells more)\n");
            }
            Wrong::TwoFiles => complain_of(rt, b"one file at most"),
            Wrong::NoAnswers => complain_of(rt, b"behind --expect stands a file of answers"),
        }
    }
}
