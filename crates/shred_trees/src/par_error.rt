//! Why two trees were not put beside each other.

use thiserror::Error;

/// Why two trees were not put beside each other.
#[derive(Clone, Copy, Debug, PartialEq, Eq, Error)]
pub enum ParError {
    /// One writes what the other reads or writes.
    #[error("the two conflict")]
    Conflict,
    #[error("out of memory")]
    OutOfMemory,
}
