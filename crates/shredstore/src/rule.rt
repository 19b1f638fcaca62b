//! The rules of a store that has no others.
use crate::table_rule::TableRule;
use thiserror::Error;

/// What is done in each tick. A table is named by its number.
#[derive(Clone, Copy, Debug, PartialEq, Eq)]
pub enum StoreRule {
    /// Each entity with values in both tables gets in the first one their sum, refused where that does not fit into 64 bits with sign.
    Add(u64, u64),
    /// Each entity with a value in the table gets this one there, which is never refused.
    Set(u64, i64),
}

impl TableRule for StoreRule {
    ghost use Rattle.shredstore.specs.Meaning.{meaning_of};

    ghost meaning = { meaning_of };

    fn writes(&self) -> u64 {
        match *self {
            StoreRule::Add(x, _) => x,
            StoreRule::Set(x, _) => x,
        }
    }

    fn reads(&self) -> u64 {
        match *self {
            StoreRule::Add(_, y) => y,
            StoreRule::Set(x, _) => x,
        }
    }

    fn make(&self, value: i64, beside: i64) -> Option<i64> {
        match *self {
            StoreRule::Add(..) => value.checked_add(beside),
            StoreRule::Set(_, constant) => Some(constant),
        }
    }
}

/// The least entity whose values a rule refuses.
#[derive(Clone, Copy, Debug, PartialEq, Eq, Error)]
#[error("the values of entity {entity} are refused")]
pub struct Overflow {
    pub entity: u64,
}
