// Where the script is read.
use crate::part::Part;
use std::fs::File;
use std::io;
use std::io::Stdin;

#[derive(Drop)]
pub enum Script {
    Input(Stdin),
    File(File),
}

impl Script {
    pub(crate) fn read(&self, part: &mut Part) -> io::Result<usize> {
        match self {
            Script::Input(stdin) => {
                let mut input = stdin;
                part.read(&mut input)
            }
            Script::File(file) => {
                let mut input = file;
                part.read(&mut input)
            }
        }
    }
}
