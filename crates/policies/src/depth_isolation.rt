mod rules;
mod tags;
mod violation;

pub use rules::DepthIsolation;
pub use tags::{CellTag, Code, RegisterTag};
pub use violation::DepthViolation;
