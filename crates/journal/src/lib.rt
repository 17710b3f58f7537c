//! A journal: a list that only grows, kept in a slice that the caller lends.
#![tactic(auto)]

mod journal;

pub use journal::Journal;
