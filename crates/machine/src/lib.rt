//! The machine that a rulebook watches: memory cells, sixteen registers, one step and a run of steps.
#![tactic(auto)]

mod cell;
mod records;
mod state;
mod step;
mod stopped;

pub use cell::Cell;
pub use records::{Cause, Record};
pub use state::{
    Count, End, FEWEST_CELLS, Live, MOST_CELLS, MOST_STEPS, Next, REGISTERS, Ran, Refused, State,
    Stepped, in_limits,
};
pub use stopped::Stopped;
