//! Instruction words: what they say, and what the arithmetic operations compute.
#![tactic(auto)]

mod decode;
mod instruction;
mod operation;

pub use instruction::Instruction;
pub use operation::Operation;
