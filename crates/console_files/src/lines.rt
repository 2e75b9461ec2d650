// A line is made one of the console's, in its own array, or tells what else is to be done.
use crate::commands::{Command, Files, command_in};
use crate::fault::Fault;
use crate::read::read_file;
use crate::{Line, Name, Task, Teller, Told};
use console_text::line::said;
use console_text::page::text;

// The longest name of a file, with room for `.part`.
const LONGEST_NAME: usize = 4000;

// A longer line is an error to the console.
const LONGEST: usize = 200000;

// What comes in the place of the names of files: from this place on a file's bytes, if any, and then this.
#[derive(Clone, Copy)]
struct Instead<'a> {
    from: usize,
    bytes: Option<&'a [u8]>,
    then: &'static [u8],
}

// The name of a file to be written is kept.
fn keep(teller: Teller, name: &[u8], kept: &mut Name) -> Result<(), Told> {
    if LONGEST_NAME < name.len() {
        return Err(teller.complain(b"a name of more than 4000 characters", Fault::LongName));
    }
    kept.truncate(0);
    kept.text(name);
    Ok(())
}

// Each file that is to be read is, and the name of each that is to be written is kept.
fn fetched<'a>(
    teller: Teller,
    files: Files,
    bytes: &'a mut [u8],
    kept: &mut Name,
) -> Result<Instead<'a>, Told> {
    match files {
        Files::Read(file) => Ok(Instead {
            from: file.from,
            bytes: Some(read_file(teller, file.text, bytes)?),
            then: b"",
        }),
        Files::Write(file, then) => {
            keep(teller, file.text, kept)?;
            Ok(Instead {
                from: file.from,
                bytes: None,
                then,
            })
        }
        Files::Convert(source, target, then) => {
            keep(teller, target.text, kept)?;
            Ok(Instead {
                from: source.from,
                bytes: Some(read_file(teller, source.text, bytes)?),
                then,
            })
        }
    }
}

// Whether a line that begins so may be one that is not the console's: the console's own are let through at once.
fn may_be_own(line: &[u8]) -> bool {
    matches!(
        line.first(),
        Some(b' ' | b'\t' | b'q' | b'e' | b'f' | b't' | b'l')
    )
}

// `bytes` is for a file's bytes, `kept` keeps the name of a file that is to be written.
pub fn prepare(
    teller: Teller,
    line: &mut Line,
    bytes: &mut [u8],
    kept: &mut Name,
) -> Result<Task, Told> {
    let all = line.as_slice();
    if LONGEST < all.len() || !may_be_own(all) {
        return Ok(Task::Console);
    }
    let n = said(all);
    match command_in(&all[..n]) {
        Command::Console => Ok(Task::Console),
        Command::Leave => Ok(Task::Leave),
        Command::Trace(is_on) => Ok(Task::Trace(is_on)),
        Command::LogOff => Ok(Task::LogOff),
        Command::LogOn => Err(teller.complain(b"on", Fault::NoFile)),
        Command::Log(file) => {
            keep(teller, file, kept)?;
            Ok(Task::Log)
        }
        Command::File(front, files) => {
            let task = match files {
                Files::Read(_) => Task::Read,
                Files::Write(..) | Files::Convert(..) => Task::Write,
            };
            let instead = fetched(teller, files, bytes, kept)?;
            put(line, front, instead);
            Ok(task)
        }
    }
}

// The f and the dot before the console's own name become blanks, and this comes in the place of the names of files.
fn put(line: &mut Line, front: usize, instead: Instead) {
    text(&mut line.bytes, front, b"  ");
    line.truncate(instead.from);
    if let Some(bytes) = instead.bytes {
        line.word(bytes);
    }
    line.text(instead.then);
}
