//! Questions and answers as lines of text.
#![tactic(auto)]

mod answer;
mod asking;
mod numbers;
mod question;

pub use answer::answer_line;
pub use asking::ask_line;
pub use numbers::{COUNT, read_numbers};
pub use question::read_question;
