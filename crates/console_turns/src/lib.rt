// The session of the program `rack`: its script is read part by part, each line answered, and the answer told. Nothing is promised but
// that this is safe and ends, and that an echo is a part of its line.
#![tactic(auto)]

mod answers;
mod lines;
mod part;
mod script;
mod session;
mod telling;
mod tracing;

pub use answers::{Answers, Expected};
pub use script::Script;
pub use session::{Outcome, Typing, Way, complain, run};
