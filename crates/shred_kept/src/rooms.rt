//! Room for lists, which is kept from one use to the next.
ghost use Rattle.std.specs.Prelude.{◌≡◌, []};

use std::alloc::Global;

/// Lists whose room is kept.
#[derive(Drop)]
pub(crate) struct Rooms<T> {
    kept: Vec<Vec<T>>,
}

impl<T: Drop> Rooms<T> {
    /// None. It takes no memory.
    pub(crate) fn new(alloc: Global) -> Rooms<T> {
        Rooms {
            kept: Vec::new(alloc),
        }
    }

    /// An empty list: one that was kept, or else a new one.
    pub(crate) fn take(&mut self) -> Vec<T>
        ensures { result.items ≡ [] }
    {
        match self.kept.pop() {
            Some(mut list) => {
                list.clear();
                list
            }
            None => Vec::new(*self.kept.allocator()),
        }
    }

    /// Empties a list, and keeps its room. Where memory to note it is refused, it is dropped.
    pub(crate) fn keep(&mut self, list: Vec<T>) {
        let mut list = list;
        list.clear();
        let _ = self.kept.push(list);
    }
}
