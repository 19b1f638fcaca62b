//! The parts of a view, which must be joined.
ghost use Rattle.shred_table.specs.Parts.{DoNotConflict};

use shred_table::id::ResourceId;
use shred_table::table::Table;
use std::snapshot::Snapshot;

/// The parts of a view: for each pair of lists a hand, with the values that the pair writes. They cannot be dropped, and
/// must be joined.
pub struct Parts<'p, 'a, V> {
    pub(crate) pairs: &'p [(&'p [ResourceId], &'p [ResourceId])],
    pub(crate) lender: Snapshot<&'a mut Table<V>>,
    pub(crate) parted: Snapshot<Vec<Table<V>>>,
    /// The hands, in the order of the pairs.
    pub hands: Vec<Table<V>>,
    ghost apart: { DoNotConflict pairs.now },
}
