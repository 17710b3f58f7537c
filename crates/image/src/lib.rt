//! Images: a maker's routine as bytes, and how it is loaded into a machine.
#![tactic(auto)]

mod fault;
mod name;
mod section;

pub use fault::{LoadFault, ReadFault};
pub use name::{Name, first_name};
pub use section::{Loaded, cells_named, load};
