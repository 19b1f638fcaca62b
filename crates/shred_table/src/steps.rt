//! How many comparisons of ids were made.
ghost use Rattle.std.specs.Prelude.{◌≡◌, ℕ, ◌+◌};
ghost use Rattle.shred_table.specs.InOrder.{id_order};
ghost use base.Fml.{ftrue};

use crate::id::ResourceId;
use std::cmp::Ordering;
use std::marker::{Model, PhantomData};

/// A count that takes no bytes and that clauses alone see.
#[derive(Drop)]
pub struct Steps {
    marker: PhantomData<()>,
    pub ghost count: { ℕ },
}

impl Model for Steps {
    ghost also_owns = { λ _. ftrue };
}

impl Steps {
    /// No comparison yet.
    pub fn new() -> Steps
        ensures { result.count ≡ 0 }
    {
        Steps {
            marker: PhantomData,
        }
    }

    // One comparison more.
    fn next(&self) -> Steps
        ensures { result.count ≡ self.now.count + 1 }
    {
        let _ = self;
        Steps {
            marker: PhantomData,
        }
    }

    // How the first id stands to the second, by one comparison.
    pub(crate) fn compare(&mut self, a: ResourceId, b: ResourceId) -> Ordering
        ensures order { result ≡ id_order a b }
        ensures counted { self.new.count ≡ self.old.count + 1 }
    {
        *self = self.next();
        a.cmp(&b)
    }
}
