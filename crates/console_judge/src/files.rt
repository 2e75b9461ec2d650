// The three files: the state's sheet, the memory's image, and the log, read in parts.
use crate::findings::Finding;
use crate::parts::judge_log;
use crate::says::{Status, tell};
use crate::source::Source;
use am9517::{Controller, Edition, Refusal};
use am9517_sheet::Form;

// Said of a sheet's file, and of an image's, if it grows while it is read.
const TOO_LONG: &[u8] = b" has more than 65536 bytes, so it is no sheet's file\n";

fn state_of(form: Form, bytes: &[u8]) -> Result<Controller, Refusal> {
    let read = am9517_sheet::read(form, Controller::fresh(Edition::Am9517A), bytes);
    read.answer?;
    Ok(read.controller)
}

// Whether the trailer at the end of these bytes says form 2.
fn says_two(bytes: &[u8]) -> bool {
    matches!(bytes, [.., 2, 0, _, _, _, _, _, _])
}

// The sheet at the end of these bytes, of form 2 or else of form 1; one of form 2 that lost bytes is less than a sheet.
fn state_in(bytes: &[u8]) -> Result<Controller, Refusal> {
    match state_of(Form::Two, bytes) {
        Err(Refusal::Slice | Refusal::FormNumber) if !says_two(bytes) => state_of(Form::One, bytes),
        second => second,
    }
}

fn judge_state(rt: HostRuntime, c: Controller, image: &[u8], log: &[u8]) -> Result<Status, Status> {
    // a byte more than a memory has: so an image that is too long is seen
    let mut memory = [0u8; 65537];
    let size = Source::open(rt, image)?.part(&mut memory, TOO_LONG)?;
    judge_log(c, &mut memory[..size], &Source::open(rt, log)?)
}

fn judge(rt: HostRuntime, sheet: &[u8], image: &[u8], log: &[u8]) -> Result<Status, Status> {
    let mut bytes = [0u8; 65536];
    let size = Source::open(rt, sheet)?.whole(&mut bytes, TOO_LONG)?;
    match state_in(&bytes[..size]) {
        Ok(c) => judge_state(rt, c, image, log),
        Err(refusal) => Err(tell(rt, Finding::Refused(refusal))),
    }
}

// The log in the file `log`, judged from the sheet in `sheet` and the memory in `image`: 0 where it is accepted, 1 where it is wrong, 2 where
// it is refused, a file can't be read or the verdict can't be written, 141 where its reader has gone. What is found is said.
pub fn judge_files(rt: HostRuntime, sheet: &[u8], image: &[u8], log: &[u8]) -> u8 {
    match judge(rt, sheet, image, log) {
        Ok(status) | Err(status) => u8::from(status),
    }
}
