// The file that records of transfers go to.
use crate::fault::{Fault, Teller, Told};
use crate::system::open_overwrite;
use std::fs::File;
use std::io::Write;
use std::mem;

#[derive(Drop)]
pub enum Log {
    Off,
    To(File),
    // it could not be written, which was said, and is not whole
    Broken,
}

impl Log {
    pub fn is_open(&self) -> bool {
        matches!(self, Log::To(_))
    }

    // Nothing is written where no file is open; one that can't be written is closed.
    pub fn write(&mut self, teller: Teller, records: &[u8]) -> Result<(), Told> {
        let Log::To(file) = self else {
            return Ok(());
        };
        let Err(error) = file.write_all(records) else {
            return Ok(());
        };
        *self = Log::Broken;
        Err(teller.complain(b"the log", Fault::System(error)))
    }

    // Records go to this file, which is empty then, and the one before it is closed; where it can't be opened, they go where they went.
    pub fn open(&mut self, teller: Teller, name: &[u8]) -> Result<(), Told> {
        let file = open_overwrite(teller.rt, name).map_err(|e| teller.complain(
            name,
            Fault::System(e),
        ))?;
        let closed = self.close(teller);
        *self = Log::To(file);
        closed
    }

    // Records go to no file any more.
    pub fn close(&mut self, teller: Teller) -> Result<(), Told> {
        match mem::replace(self, Log::Off) {
            Log::Broken => Err(teller.complain(b"the log", Fault::NotWhole)),
            Log::Off | Log::To(_) => Ok(()),
        }
    }
}
