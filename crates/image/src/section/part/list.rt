ghost use Rattle.std.specs.Prelude.{◌≡◌, ◌+◌, ◌≤◌, ◌&&◌, length, is_ok, MatchResult, ◌==◌, nat_le};
ghost use Rattle.journal.specs.Journal.{elements, loan, room};
ghost use Rattle.image.specs.declared.section.part.list.RecordFault.TheVariants.{Cut};
ghost use Rattle.image.specs.Names.{Lists, Named, Unnamed, names_met};
ghost use Rattle.image.specs.Reading.{Lies, Within};
ghost use Rattle.image.specs.Section.{marked, window};

use super::{Content, HEAD, HEADER_LENGTH, Header, Reader, Span, clear, u16_at};
use crate::fault::ReadFault;
use crate::name::Name;
use journal::Journal;

mod loading;

pub use loading::{Loaded, cells_named, load};

// The kind of a record that holds a name; any other is none, so there are no kinds to tell apart.
const NAME: u16 = 1;

const SHORTEST_NAME: usize = 1;

const LONGEST_NAME: usize = 32;

// Why a name list breaks off.
#[derive(Clone, Copy)]
enum RecordFault {
    Cut(ReadFault),
    // the record is of another kind or length, or names no cell
    NoName,
}

impl From<ReadFault> for RecordFault {
    ghost from_gives = { λ fault r. r ≡ Cut fault };

    fn from(fault: ReadFault) -> RecordFault {
        RecordFault::Cut(fault)
    }
}

// A reader that stops at the end of a name list; it reads on behind the list once this is gone.
struct Narrowed<'r> {
    reader: &'r mut Reader,
    outer: usize,
}

impl Drop for Narrowed<'_> {
    fn drop(self)
        ensures place { self.exit.0.now.place ≡ self.entry.reader.now.end }
        ensures end { self.exit.0.now.end ≡ self.entry.outer }
    {
        self.reader.place = self.reader.end;
        self.reader.end = self.outer;
        let Narrowed {
            reader: _,
            outer: _,
        } = self;
    }
}

// A name list breaks off behind so many names, and why.
#[derive(Clone, Copy)]
struct BrokenOff {
    names: usize,
    why: RecordFault,
}

// How many names a list holds, whether or not it breaks off.
fn names_met(listed: Result<usize, BrokenOff>) -> usize
    ensures { result ≡ names_met listed }
{
    listed.unwrap_or_else(|off| off.names)
}

// That the slice lent to the names stays is said of each call that appends: it compares a journal with what it was, which
// no invariant of a journal can.
impl Reader {
    // Appends the names of a list that the reader has just passed, as many as there are places for, and says how
    // many the list holds; the reader stands as before.
    fn list(
        &mut self,
        image: &[u8],
        list: Span,
        size: usize,
        names: &mut Journal<Name>,
    ) -> Result<usize, BrokenOff>
        requires lies { Lies list image.now }
        requires passed { list.place + 6 + list.length ≡ self.old.place }
        ensures lists { Lists size (list.place + 6) (marked image.now list).body (elements names.old) (room names.old) (elements names.new) (room names.new) (names_met result) (is_ok result) }
        ensures loan { loan names.new ≡ loan names.old }
        ensures stands { self.new ≡ self.old }
    {
        let outer = self.end;
        let guard = Narrowed {
            reader: self,
            outer,
        };
        guard.reader.place = list.place + HEAD;
        guard.reader.end = list.place + HEAD + list.length;
        guard.reader.records(image, size, names)
    }

    // Appends the names up to the end, or up to the first record that is none, and says how many there are.
    fn records(
        &mut self,
        image: &[u8],
        size: usize,
        names: &mut Journal<Name>,
    ) -> Result<usize, BrokenOff>
        requires { Within self.old image.now }
        ensures lists { Lists size self.old.place (window self.old image.now) (elements names.old) (room names.old) (elements names.new) (room names.new) (names_met result) (is_ok result) }
        ensures loan { loan names.new ≡ loan names.old }
        ensures end { self.new.end ≡ self.old.end }
    {
        let mut met = 0;
        while self.place < self.end {
            let name = match self.name(image, size) {
                Ok(name) => name,
                Err(why) => return Err(BrokenOff { names: met, why }),
            };
            let _ = names.append(name);
            met += 1;
        }
        Ok(met)
    }

    fn name(&mut self, image: &[u8], size: usize) -> Result<Name, RecordFault>
        requires { Within self.old image.now }
        ensures { MatchResult result (Named size image.now self.old self.new) (λ _. Unnamed size image.now self.old self.new) }
    {
        let record = self.section(image)?;
        if !record.holds_name() {
            return Err(RecordFault::NoName);
        }
        let address = u16_at(record.body(image), 0);
        if usize::from(address) >= size {
            return Err(RecordFault::NoName);
        }
        Ok(Name {
            address,
            place: record.place + HEAD + 2,
            length: record.length - 2,
        })
    }
}

impl Span {
    // Whether it is of the kind and the length of a record with a name.
    fn holds_name(self) -> bool
        ensures { result ≡ (self.kind == 1 && (nat_le 3 self.length && nat_le self.length 34)) }
    {
        self.kind == NAME && (2 + SHORTEST_NAME..=2 + LONGEST_NAME).contains(&self.length)
    }
}
