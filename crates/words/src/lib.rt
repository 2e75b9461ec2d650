// Bits of a byte, bytes of a word, a choice that makes no branch in a proof, the step of a 16-bit register, and spans of a memory.
#![tactic(auto)]

pub mod bits;
pub mod bytes;
pub mod choice;
pub mod spans;
pub mod steps;
