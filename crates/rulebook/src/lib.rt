//! The interface that every rulebook keeps, and the rulebooks made of others: one alone, a pair, a cache.
#![tactic(auto)]

mod alone;
mod answer;
mod cache;
mod entry;
mod group;
mod interface;
mod pair;
mod question;
mod violation;

pub use alone::Alone;
pub use answer::{Answer, Denial, Half, NarrowAnswer, Tags};
pub use cache::Cache;
pub use entry::Entry;
pub use group::{Group, UnknownGroup};
pub use interface::{Narrow, Rulebook};
pub use pair::Pair;
pub use question::Question;
pub use violation::Violation;
