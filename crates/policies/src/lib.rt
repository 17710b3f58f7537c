//! The rulebooks that decide from tags alone.
#![tactic(auto)]

mod depth_isolation;
mod write_or_execute;

pub use depth_isolation::{CellTag, Code, DepthIsolation, DepthViolation, RegisterTag};
pub use write_or_execute::{WriteOrExecute, WriteOrExecuteViolation};
