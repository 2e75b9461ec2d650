// What is shown to people: the state in words, and help. Nothing is promised of these texts but that they are put safely.
#![tactic(auto)]

mod advice;
mod helping;
mod names;
pub mod page;
pub mod rows;
mod table;

pub use advice::{COMMANDS, REFUSALS};
pub use helping::{help, help_on, help_refusals};
pub use table::{ChannelRows, HEADING, Numbered, OtherRows, Ranges, show, show_arrays, show_room};
