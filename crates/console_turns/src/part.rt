// The part of a file that was read last, of which some bytes are still to be taken.
ghost use Rattle.std.specs.Prelude.{◌≤◌};

use std::io;
use std::io::Read;

#[derive(Drop)]
pub(crate) struct Part {
    bytes: [u8; 65536],
    from: usize,
    end: usize,
    ghost ordered: { from ≤ end },
    ghost within: { end ≤ 65536 },
}

impl Part {
    pub(crate) fn new() -> Part {
        Part {
            bytes: [0; 65536],
            from: 0,
            end: 0,
        }
    }

    pub(crate) fn rest(&self) -> &[u8] {
        &self.bytes[self.from..self.end]
    }

    pub(crate) fn take(&mut self, n: usize) {
        self.from = self.from.saturating_add(n).min(self.end);
    }

    // Reads once: how many bytes, none at the file's end. None is left where it can't be read.
    pub(crate) fn read<R: Read>(&mut self, input: &mut R) -> io::Result<usize> {
        self.from = 0;
        self.end = 0;
        let n = input.read(&mut self.bytes)?;
        self.end = n.min(65536);
        Ok(n)
    }

    pub(crate) fn set_newline(&mut self) {
        self.bytes[0] = b'\n';
        self.from = 0;
        self.end = 1;
    }
}
