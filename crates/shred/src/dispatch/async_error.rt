//! Why a call of an asynchronous dispatcher was refused.
ghost use Rattle.std.specs.Prelude.{◌≡◌};
ghost use Rattle.shred.specs.AsyncAnswers.{told};

use shred_stage::DispatchError;
use std::fmt::Display;
use thiserror::Error;

/// Why a call of an asynchronous dispatcher was refused.
#[derive(Debug, Drop, Error)]
#[error_bound(E: Display)]
pub enum AsyncError<E> {
    /// A run, a setup or the thread-local systems ended so.
    #[error("{0}")]
    Dispatch(DispatchError<E>),
    /// A run could not be started, since its thread or the memory for its start was refused. The world and the stages were
    /// dropped.
    #[error("the world and the stages were lost, since a run could not be started")]
    Lost,
}

// The answer of a call, where what it did ended so.
pub(crate) fn as_told<E>(ended: Result<(), DispatchError<E>>) -> Result<(), AsyncError<E>>
    ensures { result ≡ told ended }
{
    match ended {
        Ok(()) => Ok(()),
        Err(error) => Err(AsyncError::Dispatch(error)),
    }
}
