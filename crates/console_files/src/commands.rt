// What a line asks for that is not the console's.
use console_text::line::{Span, words_in};

// A word, and the place where it begins.
#[derive(Clone, Copy)]
pub(crate) struct Word<'a> {
    pub from: usize,
    pub text: &'a [u8],
}

// The file whose bytes the command is to have; the one that its answer's bytes go to, and what stands in the place of its name; or both.
#[derive(Clone, Copy)]
pub(crate) enum Files<'a> {
    Read(Word<'a>),
    Write(Word<'a>, &'static [u8]),
    Convert(Word<'a>, Word<'a>, &'static [u8]),
}

#[derive(Clone, Copy)]
pub(crate) enum Command<'a> {
    Console,
    Leave,
    Trace(bool),
    LogOff,
    // `log on` names no file
    LogOn,
    Log(&'a [u8]),
    // the place of the f and the dot before the console's own name
    File(usize, Files<'a>),
}

// A command with as many words behind its name as it asks for. Sheets are of form 1 or 2.
pub(crate) fn command_in(line: &[u8]) -> Command<'_> {
    let words = words_in(line);
    let word = |span: Span| Word {
        from: span.from,
        text: &line[span.from..span.to],
    };
    let name = word(words.name);
    let one = word(words.one);
    let two = word(words.two);
    let three = word(words.three);
    let files = match (name.text, words.count) {
        (b"quit" | b"exit", 0) => return Command::Leave,
        (b"trace", 1) => return trace_of(one.text),
        (b"log", 1) => return log_of(one.text),
        (b"f.poke", 2) => Files::Read(two),
        (b"f.feed" | b"f.load" | b"f.load2" | b"f.judge", 1) => Files::Read(one),
        (b"f.peek" | b"f.out", 3) => Files::Write(three, b""),
        (b"f.sheet", 1) => Files::Write(one, b"56"),
        (b"f.sheet2", 1) => Files::Write(one, b"58"),
        (b"f.forward", 2) => Files::Convert(one, two, b" 58"),
        (b"f.back", 2) => Files::Convert(one, two, b" 56"),
        _ => return Command::Console,
    };
    Command::File(name.from, files)
}

fn trace_of(word: &[u8]) -> Command<'_> {
    match word {
        b"on" => Command::Trace(true),
        b"off" => Command::Trace(false),
        _ => Command::Console,
    }
}

fn log_of(word: &[u8]) -> Command<'_> {
    match word {
        b"on" => Command::LogOn,
        b"off" => Command::LogOff,
        file => Command::Log(file),
    }
}
