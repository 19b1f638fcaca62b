//! Why a script is not run to its outcome.
ghost use Rattle.std.specs.Prelude.{◌≡◌};
ghost use Rattle.script_text.specs.declared.error.ScriptError.TheVariants.{OutOfMemory as NoMemory};
ghost use Rattle.script_text.specs.Endings.{add_error, error_at, error_status};

use shred_stage::AddError;
use shred_world::OutOfMemory;
use std::alloc::AllocError;
use std::error::Error as StdError;
use std::fmt;
use thiserror::Error;

/// What is wrong with a line.
#[derive(Clone, Copy, Debug)]
pub enum LineFault {
    /// The first word is none that begins a line, or a byte is not ASCII.
    UnknownLine,

    /// A word does not fit, is missing or is one too many.
    BadWord,

    /// A step names a resource that no earlier line declares.
    NoSuchResource,

    /// The resource is declared already.
    ResourceTwice,

    /// The line may not stand in a batch.
    NotInBatch,

    /// No batch is open that it could end.
    EndWithoutBatch,

    /// No later line ends the batch.
    BatchWithoutEnd,

    /// Too many batches are open around it.
    BatchTooDeep,
}

impl fmt::Display for LineFault {
    ghost use Rattle.std.specs.Prelude.{Some};
    ghost use Rattle.script_text.specs.Texts.{fault_text};

    ghost output = { λ fault. Some (fault_text fault) };

    fn fmt<W: fmt::Write>(&self, f: &mut fmt::Formatter<W>) -> fmt::Result {
        match self {
            LineFault::UnknownLine => write!(f, "unknown line"),
            LineFault::BadWord => write!(f, "bad word"),
            LineFault::NoSuchResource => write!(f, "no such resource"),
            LineFault::ResourceTwice => write!(f, "resource twice"),
            LineFault::NotInBatch => write!(f, "not in a batch"),
            LineFault::EndWithoutBatch => write!(f, "end without batch"),
            LineFault::BatchWithoutEnd => write!(f, "batch without end"),
            LineFault::BatchTooDeep => write!(f, "batch too deep"),
        }
    }
}

impl StdError for LineFault {}

/// Why a line is not taken up.
#[derive(Debug, Drop, Error)]
pub(crate) enum LineError {
    #[error(transparent)]
    Fault(#[from] LineFault),
    #[error("out of memory")]
    Memory(#[from(alloc)] AllocError),
}

/// Why the system of a line is not added to the plan.
#[derive(Clone, Copy, Debug)]
pub enum AddRefusal {
    /// The dependency at this place, counted from 0, is the first that is no earlier system's name.
    NoSuchSystem { place: usize },

    /// An earlier system has the name.
    NameTaken,

    /// No id is left.
    IdsExhausted,

    /// The plan of a batch has a thread-local system.
    ThreadLocalInBatch,

    /// A system or a batch was added before the rule.
    RuleTooLate,
}

impl fmt::Display for AddRefusal {
    ghost use Rattle.std.specs.Prelude.{Some};
    ghost use Rattle.script_text.specs.Texts.{refused_add_text};

    ghost output = { λ refusal. Some (refused_add_text refusal) };

    fn fmt<W: fmt::Write>(&self, f: &mut fmt::Formatter<W>) -> fmt::Result {
        match self {
            AddRefusal::NoSuchSystem { place } => write!(f, "no such system at {place}"),
            AddRefusal::NameTaken => write!(f, "name taken"),
            AddRefusal::IdsExhausted => write!(f, "ids exhausted"),
            AddRefusal::ThreadLocalInBatch => write!(f, "thread-local system in batch"),
            AddRefusal::RuleTooLate => write!(f, "rule too late"),
        }
    }
}

/// Why a script is not run to its outcome. Its text is what standard error tells.
#[derive(Clone, Copy, Debug)]
pub enum ScriptError {
    TooLong,
    InputFailed,
    Line { line: usize, fault: LineFault },
    Refused { line: usize, refusal: AddRefusal },
    Unnamed { id: usize },
    OutOfMemory,
    OutputFailed,
}

impl fmt::Display for ScriptError {
    ghost use Rattle.std.specs.Prelude.{Some};
    ghost use Rattle.script_text.specs.Texts.{error_text};

    ghost output = { λ error. Some (error_text error) };

    fn fmt<W: fmt::Write>(&self, f: &mut fmt::Formatter<W>) -> fmt::Result {
        match self {
            ScriptError::TooLong => write!(f, "script too long"),
            ScriptError::InputFailed => write!(f, "input failed"),
            ScriptError::Line { line, fault } => write!(f, "line {line}: {fault}"),
            ScriptError::Refused { line, refusal } => write!(f, "line {line}: {refusal}"),
            ScriptError::Unnamed { id } => write!(f, "unnamed system {id}"),
            ScriptError::OutOfMemory => write!(f, "out of memory"),
            ScriptError::OutputFailed => write!(f, "output failed"),
        }
    }
}

impl From<AllocError> for ScriptError {
    ghost from_gives = { λ _ error. error ≡ NoMemory };

    fn from(_error: AllocError) -> ScriptError {
        ScriptError::OutOfMemory
    }
}

impl From<OutOfMemory> for ScriptError {
    ghost from_gives = { λ _ error. error ≡ NoMemory };

    fn from(_error: OutOfMemory) -> ScriptError {
        ScriptError::OutOfMemory
    }
}

impl ScriptError {
    /// The error of the line with this number, counted from 1.
    pub(crate) fn at(line: usize, error: LineError) -> ScriptError
        ensures { result ≡ error_at line error }
    {
        match error {
            LineError::Fault(fault) => ScriptError::Line { line, fault },
            LineError::Memory(_) => ScriptError::OutOfMemory,
        }
    }

    /// The error where the builder does not take the system of the line with this number.
    pub fn of_add(line: usize, error: AddError) -> ScriptError
        ensures { result ≡ add_error line error }
    {
        let refusal = match error {
            AddError::NoSuchSystem { place } => AddRefusal::NoSuchSystem { place },
            AddError::NameTaken => AddRefusal::NameTaken,
            AddError::IdsExhausted => AddRefusal::IdsExhausted,
            AddError::ThreadLocalInBatch => AddRefusal::ThreadLocalInBatch,
            AddError::RuleTooLate => AddRefusal::RuleTooLate,
            AddError::OutOfMemory => return ScriptError::OutOfMemory,
        };
        ScriptError::Refused { line, refusal }
    }

    /// The exit status: 2 where a system is refused, has no name to be printed, or memory is refused, else 1.
    pub fn status(self) -> u8
        ensures { result ≡ error_status self }
    {
        match self {
            ScriptError::OutOfMemory => 2,
            ScriptError::Refused { .. } | ScriptError::Unnamed { .. } => 2,
            _ => 1,
        }
    }
}
