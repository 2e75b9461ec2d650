// A file that is read; one that can't be read is never taken for one that has ended.
ghost use Rattle.std.specs.Prelude.{◌≤◌, length, IfOk};

use crate::says::{Status, complain, complain_of};
use console_files::{open_read, read_full};
use std::fs::File;
use std::io::Read as _;

// An open file and its name. What goes wrong with it is said, and ends the judging by this status.
#[derive(Drop)]
pub(crate) struct Source<'a> {
    pub rt: HostRuntime,
    name: &'a [u8],
    file: File,
}

impl<'a> Source<'a> {
    pub(crate) fn open(rt: HostRuntime, name: &'a [u8]) -> Result<Source<'a>, Status> {
        match open_read(rt, name) {
            Ok(file) => Ok(Source { rt, name, file }),
            Err(error) => Err(complain(rt, name, error)),
        }
    }

    // Of a file that goes on these words are said.
    fn must_end(&self, words: &[u8]) -> Result<(), Status> {
        let mut input = &self.file;
        let mut more = [0u8; 1];
        match input.read(&mut more) {
            Ok(0) => Ok(()),
            Ok(_) => Err(complain_of(self.rt, self.name, words)),
            Err(error) => Err(complain(self.rt, self.name, error)),
        }
    }

    // As many bytes as there is room for, or the last ones: behind these the file must end.
    pub(crate) fn part(&self, bytes: &mut [u8], words: &[u8]) -> Result<usize, Status>
        ensures { IfOk result (λ n. n ≤ length bytes.new) }
    {
        let n = read_full(&self.file, bytes);
        if n < bytes.len() {
            self.must_end(words)?;
        }
        Ok(n)
    }

    // All bytes, for which there must be room.
    pub(crate) fn whole(&self, bytes: &mut [u8], words: &[u8]) -> Result<usize, Status>
        ensures { IfOk result (λ n. n ≤ length bytes.new) }
    {
        let n = read_full(&self.file, bytes);
        self.must_end(words)?;
        Ok(n)
    }
}
