// Files by the bytes of their names, and words on standard error, over std: its names are text, and its errors have a number behind
// the system's words.
ghost use Rattle.std.specs.Prelude.{◌≤◌, length};

use std::fmt::InlineText;
use std::fs::{File, OpenOptions};
use std::io::{Error, Print, Read, Write};
use std::{fs, io, str};

// The system's numbers for a name with a zero byte, and for one that is not UTF-8.
const EINVAL: i32 = 22;

const EILSEQ: i32 = 84;

// Words that can't be written are lost: there is nowhere else to say so.
pub fn say(rt: HostRuntime, words: &[u8]) {
    let _ = Print::write_all(&rt.stderr(), words);
}

pub fn say_number(rt: HostRuntime, n: u64) {
    let _ = eprint!(rt; "{n}");
}

// What failed, and why, in the system's words.
pub fn say_failed(rt: HostRuntime, what: &[u8], error: Error) {
    let said: InlineText<256> = InlineText::of(error);
    say(rt, what);
    say(rt, b": ");
    say(rt, without_number(said.as_str()).as_bytes());
    say(rt, b"\n");
}

fn without_number(said: &str) -> &str {
    said.split_once(" (os error ")
        .map_or(said, |(words, _)| words)
}

// A name as std takes it, or what the system says of such a name.
fn path_of(name: &[u8]) -> io::Result<&str> {
    if name.contains(&0) {
        return Err(Error::from_raw_os_error(EINVAL));
    }
    str::from_utf8(name).map_err(|_| Error::from_raw_os_error(EILSEQ))
}

// Opens it as it is, for reading.
pub fn open_read(rt: HostRuntime, name: &[u8]) -> io::Result<File> {
    File::open(&rt, path_of(name)?)
}

// Opens it empty, be it there or not.
pub(crate) fn open_overwrite(rt: HostRuntime, name: &[u8]) -> io::Result<File> {
    File::create(&rt, path_of(name)?)
}

// The file under which descriptor 3 can be opened: a program that waits for a status has given it there.
const REPORT: &str = "/dev/fd/3";

// Tells a status to who started the program, behind what stands there: whether it could be told.
pub fn report(rt: HostRuntime, status: u8) -> bool {
    match OpenOptions::new().append(true).open(&rt, REPORT) {
        Ok(mut waiting) => write!(waiting, "{status}").is_ok(),
        Err(_) => false,
    }
}

// Makes it, where no file has its name.
pub(crate) fn create(rt: HostRuntime, name: &[u8]) -> io::Result<File> {
    OpenOptions::new()
        .write(true)
        .create_new(true)
        .open(&rt, path_of(name)?)
}

pub(crate) fn rename(rt: HostRuntime, from: &[u8], to: &[u8]) -> io::Result<()> {
    fs::rename(&rt, path_of(from)?, path_of(to)?)
}

pub(crate) fn unlink(rt: HostRuntime, name: &[u8]) -> io::Result<()> {
    fs::remove_file(&rt, path_of(name)?)
}

// An index by hand: `read_exact` doesn't tell how many bytes a file has that ends before the array is full.
// Reads until the array is full, the file ends or a read fails, which the next one tells; how many bytes it put at the front.
pub fn read_full(file: &File, bytes: &mut [u8]) -> usize
    ensures { result ≤ length bytes.new }
{
    let mut input = file;
    let mut done = 0;
    while done < bytes.len() {
        let n = input.read(&mut bytes[done..]).unwrap_or(0);
        if n == 0 {
            break;
        }
        done += n;
    }
    done
}
