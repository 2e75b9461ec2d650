// A file is written whole under a name of its own, NAME.part, and then takes its name: the old one stays until then.
use crate::fault::{Fault, Teller, Told};
use crate::system::{create, rename, unlink};
use crate::{Name, Page, answer_of};
use console_text::hex::store;
use std::fs::File;
use std::io;
use std::io::Write;

// Writes the bytes, down to the file's device, and closes it: std tells no error of closing; what is on its device has none left.
fn fill(mut file: File, bytes: &[u8]) -> io::Result<()> {
    file.write_all(bytes)?;
    file.sync_all()
}

// A file half made is taken away, and what went wrong with the one of this name is said.
fn give_up(teller: Teller, part: &[u8], name: &[u8], error: io::Error) -> Told {
    let told = teller.complain(name, Fault::System(error));
    let _ = unlink(teller.rt, part);
    told
}

// Makes the file under its name for the time being, which nobody else's file may have, and gives it its name.
fn write_file(teller: Teller, name: &[u8], bytes: &[u8]) -> Result<(), Told> {
    let mut page: Name = Page::new();
    page.text(name);
    page.text(b".part");
    let part = page.as_slice();
    let rt = teller.rt;
    let file = create(rt, part).map_err(|e| teller.complain(part, Fault::System(e)))?;
    fill(file, bytes).map_err(|e| give_up(teller, part, part, e))?;
    rename(rt, part, name).map_err(|e| give_up(teller, part, name, e))
}

// The digits of an answer that is bytes.
fn digits_of(answer: &[u8]) -> Option<&[u8]> {
    answer.strip_prefix(b"bytes ")?.strip_suffix(b"\n")
}

// The answer that stands on the page from `at` on: where it is bytes they go to the file, and the answer is whether they did. Whether
// it was so.
pub fn put_file<const N: usize>(
    teller: Teller,
    name: &[u8],
    bytes: &mut [u8],
    out: &mut Page<N>,
    at: usize,
) -> bool {
    let Some(digits) = digits_of(out.behind(at)) else {
        return false;
    };
    let n = store(bytes, 0, digits);
    let done = write_file(teller, name, &bytes[..n]);
    out.truncate(at);
    out.text(answer_of(done));
    true
}
