ghost use Rattle.std.specs.Prelude.{◌≡◌, ◌<◌, [], ◌∷◌, ◌++◌, length, drop, option_copied, slice_get, IfErr};
ghost use Rattle.refusal.specs.Refusal.{refusal_number};
ghost use Rattle.journal.specs.Journal.{appended, elements, free, full, loan, next_place, room};

use super::Journal;
use refusal::Refusal;

impl<'a, T> Journal<'a, T> {
    /// An empty journal with a place for each element of the slice; what the slice holds does not matter.
    pub fn over(slots: &'a mut [T]) -> Journal<'a, T>
        ensures empty { elements result ≡ [] }
        ensures room { room result ≡ slots.old }
        ensures loan { loan result ≡ slots.entry.ghost_name }
    {
        Journal { slots, used: 0 }
    }

    /// How many elements were appended.
    pub fn count(&self) -> usize
        ensures { result ≡ length (elements self.now) }
    {
        self.elements().len()
    }

    /// How many more can be appended.
    pub fn free(&self) -> usize
        ensures { result ≡ free self.now }
    {
        self.room().len()
    }

    pub fn is_full(&self) -> bool
        ensures { result ≡ full self.now }
    {
        self.free() == 0
    }

    /// What was appended, in order.
    pub fn elements(&self) -> &[T]
        ensures { result.now ≡ elements self.now }
    {
        &self.slots[..self.used]
    }

    /// The element at a place, the oldest at 0; absent from the count on.
    pub fn read(&self, place: usize) -> Option<&T>
        ensures { option_copied result ≡ slice_get (elements self.now) place }
    {
        self.elements().get(place)
    }

    fn room(&self) -> &[T]
        ensures { result.now ≡ room self.now }
    {
        &self.slots[self.used..]
    }
}

impl<'a, T: Drop> Journal<'a, T> {
    /// Puts an element at the first free place and gives that place; a full journal refuses and stays as it was.
    pub fn append(&mut self, element: T) -> Result<usize, Refusal>
        ensures place { result ≡ next_place self.old }
        ensures elements { elements self.new ≡ appended self.old element }
        ensures room { room self.new ≡ drop 1 (room self.old) }
        ensures loan { loan self.new ≡ loan self.old }
        ensures refused { IfErr result (λ e. (refusal_number e ≡ 11) × (self.new ≡ self.old)) }
    {
        if self.is_full() {
            return Err(Refusal::JournalFull);
        }
        let place = self.used;
        self.slots[place] = element;
        self.used += 1;
        Ok(place)
    }
}
