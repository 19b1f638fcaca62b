//! Places that are looked at first.
ghost use Rattle.std.specs.Prelude.{◌≡◌};

use crate::accessor::OutOfMemory;
use std::alloc::Global;

/// Where a table's next slot may be, and where the values that were moved into it may go back to. A hint that is wrong costs
/// a search, and nothing else.
#[derive(Drop)]
pub(crate) struct Hints {
    // Behind the slot that was found last.
    next: usize,
    // The places that the values came from, in the order in which they came.
    homes: Vec<usize>,
}

impl Hints {
    // No room for homes. It takes no memory.
    pub(crate) fn new(alloc: Global) -> Self {
        Hints {
            next: 0,
            homes: Vec::new(alloc),
        }
    }

    // Room for so many homes.
    pub(crate) fn with_room(alloc: Global, count: usize) -> Result<Self, OutOfMemory> {
        Ok(Hints {
            next: 0,
            homes: Vec::from_elem(alloc, 0, count)?,
        })
    }

    // Forgets the homes, and makes room for so many.
    pub(crate) fn make_room(&mut self, count: usize) -> Result<(), OutOfMemory> {
        self.homes.clear();
        Ok(self.homes.resize(count, 0)?)
    }

    // The place to look at first.
    pub(crate) fn next(&self) -> usize
        ensures { result ≡ self.now.next }
    {
        self.next
    }

    // Goes on behind this place.
    pub(crate) fn found(&mut self, place: usize) {
        self.next = place.wrapping_add(1);
    }

    // Begins with the first slot.
    pub(crate) fn rewind(&mut self)
        ensures { self.new.next ≡ 0 }
    {
        self.next = 0;
    }

    // The place that the value of this number came from.
    pub(crate) fn home(&self, number: usize) -> usize {
        match self.homes.get(number) {
            Some(home) => *home,
            None => 0,
        }
    }

    // Notes the place that the value of this number came from, if there is room for it.
    pub(crate) fn note_home(&mut self, number: usize, place: usize) {
        if let Some(home) = self.homes.get_mut(number) {
            *home = place;
        }
    }
}
