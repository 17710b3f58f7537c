//! Why a call is refused.
#![tactic(auto)]

mod refusal;

pub use refusal::Refusal;
