//! Where the planner looks for a place.

/// Where the search for a stage that takes an entry begins.
#[derive(Clone, Copy, Debug, PartialEq, Eq)]
pub enum Rule {
    /// At the barrier.
    First,
    /// At the barrier, or at the last stage with a group that conflicts with the entry, where that is later.
    Ordered,
}
