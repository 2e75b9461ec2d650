// A vendor's log in a file, judged from a state in a sheet's file and a memory's image, part by part. Nothing is promised but that this is
// safe and ends: what is right, crate logs promises.
#![tactic(auto)]

mod files;
mod findings;
mod parts;
mod says;
mod source;

pub use files::judge_files;
pub use says::UNHEARD;
