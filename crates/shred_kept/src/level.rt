//! Tables that lie behind the hands of groups. The last of a list is the nearest.

use shred_world::{ResourceId, Table};

/// A table that is lent to lanes while the groups before it run, and the ids that are looked for in it where another lies behind it.
#[derive(Drop)]
pub struct Level<V> {
    pub(crate) table: Table<V>,
    pub(crate) ids: Vec<ResourceId>,
}
