// An array with text at its front.
ghost use Rattle.std.specs.Prelude.{◌≡◌, ◌≤◌, take, drop, min};
ghost use Rattle.console_text.specs.Text.{page, put};
ghost use Rattle.console_text.specs.Hex.{bytes_text};
ghost use Rattle.console_text.specs.Numbers.{decimal_text};

use console_text::page::{bytes, decimal, text};

#[derive(Drop)]
pub struct Page<const N: usize> {
    pub bytes: [u8; N],
    pub len: usize,
    ghost within: { len ≤ N },
}

impl<const N: usize> Page<N> {
    pub fn new() -> Page<N>
        ensures { result.len ≡ 0 }
    {
        Page {
            bytes: [0; N],
            len: 0,
        }
    }

    pub fn as_slice(&self) -> &[u8]
        ensures { result.now ≡ take self.now.len self.now.bytes }
    {
        &self.bytes[..self.len]
    }

    // What stands from this place on.
    pub fn behind(&self, at: usize) -> &[u8]
        ensures { result.now ≡ drop at (take self.now.len self.now.bytes) }
    {
        self.as_slice().get(at..).unwrap_or(b"")
    }

    // What finds no room is left out.
    pub fn text(&mut self, s: &[u8])
        ensures { page self.new.bytes self.new.len ≡ put (page self.old.bytes self.old.len) s.now }
    {
        self.len = text(&mut self.bytes, self.len, s);
    }

    pub fn decimal(&mut self, n: u64)
        ensures { page self.new.bytes self.new.len ≡ put (page self.old.bytes self.old.len) (decimal_text n) }
    {
        self.len = decimal(&mut self.bytes, self.len, n);
    }

    // Bytes as a word of a line.
    pub fn word(&mut self, s: &[u8])
        ensures { page self.new.bytes self.new.len ≡ put (page self.old.bytes self.old.len) (bytes_text s.now) }
    {
        self.len = bytes(&mut self.bytes, self.len, s);
    }

    pub fn truncate(&mut self, len: usize)
        ensures { page self.new.bytes self.new.len ≡ page self.old.bytes (min self.old.len len) }
    {
        self.len = self.len.min(len);
    }

    // As many bytes count as were put on the array, for which there was room.
    pub fn set_len(&mut self, len: usize)
        ensures { page self.new.bytes self.new.len ≡ page self.old.bytes (min len N) }
    {
        self.len = len.min(N);
    }
}
