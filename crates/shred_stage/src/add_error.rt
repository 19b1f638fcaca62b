//! Why a builder does not take a system, or a rule.
ghost use Rattle.std.specs.Prelude.{◌≡◌};

use shred_world::OutOfMemory;
use thiserror::Error;

/// Why a system was not added, or a rule not set. The builder is as before.
#[derive(Clone, Copy, Debug, PartialEq, Eq, Error)]
pub enum AddError {
    /// The dependency at this place of the list is the first that is not known.
    #[error("no system has the name at place {place} of the dependencies")]
    NoSuchSystem { place: usize },
    /// The name stands for another system.
    #[error("another system has this name")]
    NameTaken,
    /// The next id would be the greatest `usize`.
    #[error("no id is left")]
    IdsExhausted,
    #[error("out of memory")]
    OutOfMemory,
    /// The plan that was to be a batch has a thread-local system.
    #[error("a batch may have no thread-local system")]
    ThreadLocalInBatch,
    /// The rule is to be set, and a system or a batch was added before.
    #[error("the rule comes too late")]
    RuleTooLate,
}

impl From<OutOfMemory> for AddError {
    ghost use Rattle.shred_stage.specs.declared.add_error.AddError.{AddError};

    ghost from_gives = { λ _ error. error ≡ AddError.OutOfMemory };

    fn from(_error: OutOfMemory) -> AddError {
        AddError::OutOfMemory
    }
}
