//! The lines that are printed of a run, and of an image that is not loaded.
#![tactic(auto)]

mod end;
mod lines;
mod out;
mod refused;

pub use end::end_line;
pub use lines::run_lines;
pub use out::out_line;
pub use refused::refused_line;
