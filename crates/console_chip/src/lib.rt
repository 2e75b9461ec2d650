// The console's answers, and its commands on the controller and on sheets.
#![tactic(auto)]

pub mod answers;
pub mod control;
pub mod sheets;
