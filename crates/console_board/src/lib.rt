// The commands on the board.
#![tactic(auto)]

pub mod commands;
mod control;
mod runs;
mod sheets;
