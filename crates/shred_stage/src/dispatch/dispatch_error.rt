//! Why a dispatch did not end as Done.

use shred_run::{Fault, SystemId};
use std::fmt::Display;
use thiserror::Error;

/// Why a dispatch did not end as Done.
#[derive(Debug, Drop, Error)]
#[error_bound(E: Display)]
pub enum DispatchError<E> {
    /// The staged system of this id ended with a fault.
    #[error("{id}: {fault}")]
    System { id: SystemId, fault: Fault<E> },
    /// The thread-local system at this place ended with a fault.
    #[error("thread-local system {index}: {fault}")]
    ThreadLocal { index: usize, fault: Fault<E> },
    /// The stage of this number was refused for memory; those before it are done, and it was not begun. No dispatch answers it.
    #[error("stage {stage}: out of memory")]
    StageMemory { stage: usize },
}
