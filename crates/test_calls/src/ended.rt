//! How a call ended, as a value that can be compared.

use shred::{DispatchError, Fault, StageFault};

/// What ended it, which one, and its code.
pub type Ended = (&'static str, usize, u8);

pub const DONE: Ended = ("done", 0, 0);

/// The code where memory was refused. Nothing in these tests refuses with it.
pub const NO_MEMORY: u8 = 255;

fn code_of(fault: Fault<u8>) -> u8 {
    match fault {
        Fault::Refused(code) => code,
        Fault::OutOfMemory => NO_MEMORY,
    }
}

/// How a dispatcher's call ended.
pub fn ended(answer: Result<(), DispatchError<u8>>) -> Ended {
    match answer {
        Ok(()) => DONE,
        Err(DispatchError::System { id, fault }) => ("system", id.0, code_of(fault)),
        Err(DispatchError::ThreadLocal { index, fault }) => ("thread-local", index, code_of(fault)),
        Err(DispatchError::StageMemory { stage }) => ("memory of stage", stage, NO_MEMORY),
    }
}

/// How a run of a dispatcher ended.
pub fn run_ended(outcome: Result<(), Fault<DispatchError<u8>>>) -> Ended {
    match outcome {
        Ok(()) => DONE,
        Err(Fault::Refused(error)) => ended(Err(error)),
        Err(Fault::OutOfMemory) => ("memory of the run", 0, NO_MEMORY),
    }
}

/// How a stage's call ended.
pub fn stage_ended(answer: Result<(), StageFault<u8>>) -> Ended {
    match answer {
        Ok(()) => DONE,
        Err(StageFault::System { id, fault }) => ("system", id.0, code_of(fault)),
        Err(StageFault::Memory) => ("memory of the stage", 0, NO_MEMORY),
    }
}
