use instruction::Operation;
use rulebook::{Answer, Question};

/// A worked case.
#[derive(Clone, Copy)]
pub enum Case {
    /// a question to Depth Isolation alone and its answer
    Asked {
        question: Question,
        answer: Answer,
    },
    /// an operation on two words and its result
    Computed {
        op: Operation,
        x: u32,
        y: u32,
        result: u32,
    },
}
