//! Why a call of a store is refused.

use thiserror::Error;

/// Why a call of a store was refused. The store is then as before.
#[derive(Clone, Copy, Debug, PartialEq, Eq, Error)]
pub enum StoreError {
    #[error("there is no table {table}")]
    NoSuchTable { table: u64 },
    #[error("out of memory")]
    OutOfMemory,
    /// The next entity's number would be the greatest one.
    #[error("no number is left for an entity")]
    EntitiesExhausted,
    #[error("there is no such entity")]
    NoSuchEntity,
}

/// Why a tick ended before all rules were applied. What the rules before did stays.
#[derive(Clone, Copy, Debug, PartialEq, Eq, Error)]
pub enum TickError {
    /// The rule at this place refuses the values of this entity, and those of no smaller one: of an `Add`, their sum does not fit. The
    /// rule changed nothing.
    #[error("rule {rule} refuses entity {entity}")]
    Overflow { rule: usize, entity: u64 },
    /// The stage of this number was refused for memory; those before it are done, and it was not begun. No tick answers it.
    #[error("stage {stage}: out of memory")]
    Memory { stage: usize },
    /// The rule at this place was refused for memory, and changed nothing. No tick answers it.
    #[error("rule {rule}: out of memory")]
    RuleMemory { rule: usize },
}
