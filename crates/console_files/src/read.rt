// A file's bytes, whole or not at all.
use crate::fault::{Fault, Teller, Told};
use crate::system::{open_read, read_full};
use std::io::Read;

// No array of the console has more bytes.
const MOST: usize = 70000;

// Behind the bytes comes the file's end.
fn read_whole<'a>(rt: HostRuntime, name: &[u8], bytes: &'a mut [u8]) -> Result<&'a [u8], Fault> {
    let file = open_read(rt, name)?;
    let n = read_full(&file, bytes);
    let mut input = &file;
    let mut more = [0u8; 1];
    if input.read(&mut more)? > 0 || MOST < n {
        return Err(Fault::MoreBytes);
    }
    Ok(&bytes[..n])
}

// Puts the bytes of the file at the front of `bytes`.
pub(crate) fn read_file<'a>(
    teller: Teller,
    name: &[u8],
    bytes: &'a mut [u8],
) -> Result<&'a [u8], Told> {
    read_whole(teller.rt, name, bytes).map_err(|fault| teller.complain(name, fault))
}
