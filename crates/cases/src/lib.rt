//! Worked cases: proved of the definitions, and run against the code.
#![tactic(auto)]

mod at_depth_zero;
mod case;
mod marked;
mod routine;
mod sample;

pub use at_depth_zero::AtDepthZero;
pub use case::Case;
pub use marked::marked_cases;
pub use routine::doubling_routine;
pub use sample::doubling_image;

#[cfg(test)]
mod tests;
