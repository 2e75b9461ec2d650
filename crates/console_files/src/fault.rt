// What went wrong with a file, in words on standard error.
use crate::system::{say, say_failed, say_number};
use std::io::Error;

// Why a file's command is not carried out.
#[derive(Drop)]
pub(crate) enum Fault {
    System(Error),
    MoreBytes,
    LongName,
    NoFile,
    NotWhole,
}

impl From<Error> for Fault {
    fn from(error: Error) -> Fault {
        Fault::System(error)
    }
}

// What went wrong was said.
#[derive(Clone, Copy)]
pub struct Told;

// Says what goes wrong with the files of the line with this number.
#[derive(Clone, Copy)]
pub struct Teller {
    pub rt: HostRuntime,
    pub number: u64,
}

impl Teller {
    // Piece by piece: one that can't be written keeps none behind it back.
    pub(crate) fn complain(self, name: &[u8], fault: Fault) -> Told {
        let rt = self.rt;
        say(rt, b"rack: line ");
        say_number(rt, self.number);
        say(rt, b": ");
        let words: &[u8] = match fault {
            Fault::System(error) => {
                say_failed(rt, name, error);
                return Told;
            }
            Fault::MoreBytes => b" has more than 70000 bytes\n",
            Fault::LongName => b"\n",
            Fault::NoFile => b" is no file here: log FILE, or log off\n",
            Fault::NotWhole => b" is not whole: it could not be written\n",
        };
        say(rt, name);
        say(rt, words);
        Told
    }
}
