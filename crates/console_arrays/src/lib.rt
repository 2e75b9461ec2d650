// The commands on the memory, the queue and the room, and those that lend them: run, round and judge.
#![tactic(auto)]

pub mod arrays;
pub mod judging;
pub mod queue;
pub mod room;
pub mod runs;
