ghost use Rattle.std.specs.Prelude.{◌≡◌, true, [], length, is_some, None};
ghost use Rattle.std.specs.List.{slice_get};
ghost use Rattle.rulebook.specs.declared.question.Question.{Question};
ghost use Rattle.rulebook.specs.Cache.{remembered, entries_of};
ghost use Rattle.rulebook.specs.Entry.{cached, recall, taught, with_room};

use super::Table;
use crate::answer::Answer;
use crate::entry::Entry;
use crate::interface::Rulebook;
use crate::question::Question;
use arrayvec::ArrayVec;

/// Remembers allowed answers of the rulebook below it.
#[derive(Drop)]
pub struct Cache<R> {
    below: R,
    table: Table,
}

impl<R: Rulebook> Cache<R> {
    /// A cache that remembers nothing yet, and so means what stands below.
    pub fn over(below: R) -> Cache<R>
        ensures empty { entries_of result ≡ [] }
        ensures below { result.below ≡ below }
        ensures transparent { (p : Question) → cached (entries_of result) (R.Rulebook.meaning result.below) p ≡ R.Rulebook.meaning below p }
    {
        let table = Table {
            entries: ArrayVec::new(),
        };
        Cache { below, table }
    }

    /// How many answers are remembered.
    pub fn count(&self) -> usize
        ensures { result ≡ length (entries_of self.now) }
    {
        self.table.entries.len()
    }

    /// The entry at a place, the oldest at 0.
    pub fn entry(&self, place: usize) -> Option<Entry>
        ensures { result ≡ slice_get (entries_of self.now) place }
    {
        self.table.entries.get(place).copied()
    }
}

impl<R: Rulebook> Rulebook for Cache<R> {
    ghost meaning = { λ c. cached (entries_of c) (R.Rulebook.meaning c.below) };

    fn ask(&mut self, q: Question) -> Answer
        ensures answers { result ≡ cached (entries_of self.old) (R.Rulebook.meaning self.old.below) q }
        ensures keeps { (p : Question) → cached (entries_of self.new) (R.Rulebook.meaning self.new.below) p ≡ cached (entries_of self.old) (R.Rulebook.meaning self.old.below) p }
        ensures table { entries_of self.new ≡ taught (entries_of self.old) q result }
        ensures below { (p : Question) → R.Rulebook.meaning self.new.below p ≡ R.Rulebook.meaning self.old.below p }
        ensures spares { is_some (recall (entries_of self.old) q) ≡ true → self.new.below ≡ self.old.below }
    {
        if let Some(entry) = self.table.find(q) {
            return Ok(entry.tags);
        }
        let tags = self.below.ask(q)?;
        self.table.remember(Entry { question: q, tags });
        Ok(tags)
    }
}

impl Table {
    // The entry of a question.
    fn find(&self, q: Question) -> Option<Entry>
        ensures { result ≡ recall (remembered self.now) q }
    {
        self.entries
            .iter()
            .find(|entry| entry.question == q)
            .copied()
    }

    // One entry more, at the end, where there is room.
    fn remember(&mut self, entry: Entry)
        requires { recall (remembered self.old) entry.question ≡ None }
        ensures { remembered self.new ≡ with_room (remembered self.old) entry }
    {
        if !self.entries.is_full() {
            self.entries.push(entry);
        }
    }
}
