// Text: bytes put on a page, numbers and byte strings as words, the words of a line, and which command a line is.
#![tactic(auto)]

pub mod forms;
pub mod hex;
pub mod line;
pub mod numbers;
pub mod page;
pub mod span;
