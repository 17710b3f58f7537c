ghost use Rattle.std.specs.Prelude.{◌≡◌, true};
ghost use Rattle.rulebook.specs.Entry.{distinct};

use super::entry::Entry;
use arrayvec::ArrayVec;

mod asking;

pub use asking::Cache;

const CAPACITY: usize = 64;

// What a cache remembers, the oldest first; no question has two entries.
#[derive(Drop)]
struct Table {
    entries: ArrayVec<Entry, CAPACITY>,
    ghost distinct: { distinct entries.items ≡ true },
}
