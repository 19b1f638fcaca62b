//! How a call of an asynchronous dispatcher ended, as a value that can be compared.

use shred::{AsyncError, DispatchError, Fault};

/// What ended it, which one, and its code.
pub(crate) type Ended = (&'static str, usize, u8);

pub(crate) const DONE: Ended = ("done", 0, 0);

pub(crate) const LOST: Ended = ("lost", 0, 0);

/// The code where memory was refused. Nothing in these tests refuses with it.
pub(crate) const NO_MEMORY: u8 = 255;

fn code_of(fault: Fault<u8>) -> u8 {
    match fault {
        Fault::Refused(code) => code,
        Fault::OutOfMemory => NO_MEMORY,
    }
}

fn dispatch_ended(error: DispatchError<u8>) -> Ended {
    match error {
        DispatchError::System { id, fault } => ("system", id.0, code_of(fault)),
        DispatchError::ThreadLocal { index, fault } => ("thread-local", index, code_of(fault)),
        DispatchError::StageMemory { stage } => ("memory of stage", stage, NO_MEMORY),
    }
}

pub(crate) fn ended(answer: Result<(), AsyncError<u8>>) -> Ended {
    match answer {
        Ok(()) => DONE,
        Err(AsyncError::Dispatch(error)) => dispatch_ended(error),
        Err(AsyncError::Lost) => LOST,
    }
}
