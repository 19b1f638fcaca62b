//! What a run left, as standard output tells it.
ghost use Rattle.std.specs.Prelude.{◌≡◌};
ghost use Rattle.script_text.specs.declared.outcome.Refusal.TheVariants.{Undeclared};
ghost use Rattle.script_text.specs.Endings.{failure_of, outcome_of, outcome_status};
ghost use Rattle.script_text.specs.Texts.{line_of, outcome_text, threads_text, value_text};
ghost use Rattle.script_text.specs.Output.{Writes};

use shred_run::Fault;
use shred_stage::DispatchError;
use shred_world::DataError;
use std::io::Write;
use std::{fmt, io};

/// Why a system refused.
#[derive(Clone, Copy)]
pub enum Refusal {
    /// A step asked for it, with this code.
    Code(u32),

    /// A step's result does not fit 64 bits with sign.
    Overflow,

    /// A step names what its system does not declare, which no step of a script does.
    Undeclared,
}

impl fmt::Display for Refusal {
    ghost use Rattle.std.specs.Prelude.{Some};
    ghost use Rattle.script_text.specs.Texts.{refusal_text};

    ghost output = { λ refusal. Some (refusal_text refusal) };

    fn fmt<W: fmt::Write>(&self, f: &mut fmt::Formatter<W>) -> fmt::Result {
        match self {
            Refusal::Code(code) => write!(f, "{code}"),
            Refusal::Overflow => write!(f, "overflow"),
            Refusal::Undeclared => write!(f, "undeclared"),
        }
    }
}

impl From<DataError> for Refusal {
    ghost from_gives = { λ _ refusal. refusal ≡ Undeclared };

    fn from(_error: DataError) -> Refusal {
        Refusal::Undeclared
    }
}

/// What ended a system's run.
#[derive(Clone, Copy)]
pub enum Failure {
    Refused(Refusal),
    OutOfMemory,
}

impl fmt::Display for Failure {
    ghost use Rattle.std.specs.Prelude.{Some};
    ghost use Rattle.script_text.specs.Texts.{failure_text};

    ghost output = { λ failure. Some (failure_text failure) };

    fn fmt<W: fmt::Write>(&self, f: &mut fmt::Formatter<W>) -> fmt::Result {
        match self {
            Failure::Refused(refusal) => write!(f, "refused {refusal}"),
            Failure::OutOfMemory => write!(f, "out of memory"),
        }
    }
}

impl From<Fault<Refusal>> for Failure {
    ghost from_gives = { λ fault failure. failure ≡ failure_of fault };

    fn from(fault: Fault<Refusal>) -> Failure {
        match fault {
            Fault::Refused(refusal) => Failure::Refused(refusal),
            Fault::OutOfMemory => Failure::OutOfMemory,
        }
    }
}

/// How a run ended.
#[derive(Clone, Copy)]
pub enum Outcome {
    Done,
    System { id: usize, failure: Failure },
    Local { index: usize, failure: Failure },
    StageMemory { stage: usize },
}

impl Outcome {
    /// The outcome of a dispatch.
    pub fn of(dispatched: Result<(), DispatchError<Refusal>>) -> Outcome
        ensures { result ≡ outcome_of dispatched }
    {
        match dispatched {
            Ok(()) => Outcome::Done,
            Err(DispatchError::System { id, fault }) => Outcome::System {
                id: id.0,
                failure: Failure::from(fault),
            },
            Err(DispatchError::ThreadLocal { index, fault }) => Outcome::Local {
                index,
                failure: Failure::from(fault),
            },
            Err(DispatchError::StageMemory { stage }) => Outcome::StageMemory { stage },
        }
    }

    /// The exit status: 0 where nothing was refused, else 2.
    pub fn status(self) -> u8
        ensures { result ≡ outcome_status self }
    {
        match self {
            Outcome::Done => 0,
            _ => 2,
        }
    }
}

impl fmt::Display for Outcome {
    ghost use Rattle.std.specs.Prelude.{Some};

    ghost output = { λ outcome. Some (outcome_text outcome) };

    fn fmt<W: fmt::Write>(&self, f: &mut fmt::Formatter<W>) -> fmt::Result {
        match self {
            Outcome::Done => write!(f, "ok"),
            Outcome::System { id, failure } => write!(f, "system {id} {failure}"),
            Outcome::Local { index, failure } => write!(f, "local {index} {failure}"),
            Outcome::StageMemory { stage } => write!(f, "stage {stage} out of memory"),
        }
    }
}

/// Writes the line of the greatest number of groups in a stage.
pub fn write_threads<W: Write>(out: &mut W, threads: usize) -> io::Result<()>
    ensures { Writes W.contents out.old out.new (line_of (threads_text threads)) result }
{
    writeln!(out, "threads {threads}")
}

/// Writes the line of a resource.
pub(crate) fn write_value<W: Write>(out: &mut W, name: &str, value: i64) -> io::Result<()>
    ensures { Writes W.contents out.old out.new (line_of (value_text name.now value)) result }
{
    writeln!(out, "{name}={value}")
}

/// Writes the last line.
pub(crate) fn write_outcome<W: Write>(out: &mut W, outcome: Outcome) -> io::Result<()>
    ensures { Writes W.contents out.old out.new (line_of (outcome_text outcome)) result }
{
    writeln!(out, "{outcome}")
}
