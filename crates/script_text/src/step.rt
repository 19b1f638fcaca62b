//! The steps of a system: how they are written, and what they declare.
ghost use Rattle.std.specs.Prelude.{◌≡◌, ◌++◌, codes, IfOk};
ghost use Rattle.script_text.specs.Report.{resource_names};
ghost use Rattle.script_text.specs.StepForms.{IsNameAt, WritesOperand, WritesStep, sign_of};
ghost use Rattle.script_text.specs.Declares.{named_place, read_place, write_place};

use crate::error::LineFault;
use crate::words::{integer, refusal_code, resource_name};
use indexmap::IndexMap;

/// The declared resources with their first values, in order of declaration.
pub type Resources<'text> = IndexMap<&'text str, i64>;

/// How a step changes a value.
#[derive(Clone, Copy)]
pub enum Operation {
    Add,
    Multiply,
    Set,
}

/// What a step adds, multiplies by or sets. A resource goes by its place among the declared ones.
#[derive(Clone, Copy)]
pub enum Operand {
    Number(i64),
    Resource(usize),
}

impl Operand {
    /// The operand that `word` writes. Its form is tested before its name is looked up.
    fn parse(word: &str, resources: &Resources<'_>) -> Result<Operand, LineFault>
        ensures { IfOk result (WritesOperand (resource_names resources.now) word.now) }
    {
        match resource_name(word) {
            Ok(source) => Ok(Operand::Resource(place_of(source, resources)?)),
            Err(_) => Ok(Operand::Number(integer(word)?)),
        }
    }
}

/// A use that a step declares, and does not make. A resource goes by its place among the declared ones.
#[derive(Clone, Copy)]
pub enum Use {
    Read(usize),
    Write(usize),
}

/// One step of a system. A resource goes by its place among the declared ones.
#[derive(Clone, Copy)]
pub enum Step {
    Change {
        target: usize,
        operation: Operation,
        operand: Operand,
    },
    Declare(Use),
    Refuse(u32),
}

impl Step {
    /// The step that `word` writes. Its form is tested before its names are looked up.
    pub(crate) fn parse(word: &str, resources: &Resources<'_>) -> Result<Step, LineFault>
        ensures { IfOk result (WritesStep (resource_names resources.now) word.now) }
    {
        if let Some(name) = word.strip_prefix('?') {
            let place = place_of(resource_name(name)?, resources)?;
            Ok(Step::Declare(Use::Read(place)))
        } else if let Some(name) = word.strip_prefix('!') {
            let place = place_of(resource_name(name)?, resources)?;
            Ok(Step::Declare(Use::Write(place)))
        } else if let Some(digits) = word.strip_prefix("refuse:") {
            Ok(Step::Refuse(refusal_code(digits)?))
        } else {
            Step::parse_change(word, resources)
        }
    }

    fn parse_change(word: &str, resources: &Resources<'_>) -> Result<Step, LineFault>
        ensures { IfOk result (WritesStep (resource_names resources.now) word.now) }
    {
        let (changed, value) = word.split_once('=').ok_or(LineFault::BadWord)?;
        let (name, operation) = target_of(changed);
        let name = resource_name(name)?;
        let operand = Operand::parse(value, resources)?;
        Ok(Step::Change {
            target: place_of(name, resources)?,
            operation,
            operand,
        })
    }

    /// The resource that the step's operand names.
    pub fn named_place(self) -> Option<usize>
        ensures { result ≡ named_place self }
    {
        match self {
            Step::Change {
                operand: Operand::Resource(place),
                ..
            } => Some(place),
            _ => None,
        }
    }

    /// The resource that the step declares to read.
    pub fn read_place(self) -> Option<usize>
        ensures { result ≡ read_place self }
    {
        match self {
            Step::Declare(Use::Read(place)) => Some(place),
            _ => self.named_place(),
        }
    }

    /// The resource that the step declares to write.
    pub fn write_place(self) -> Option<usize>
        ensures { result ≡ write_place self }
    {
        match self {
            Step::Change { target, .. } => Some(target),
            Step::Declare(Use::Write(place)) => Some(place),
            _ => None,
        }
    }
}

/// The target's name and the operation, from what stands before the `=` of a change.
fn target_of(changed: &str) -> (&str, Operation)
    ensures { changed.now ++ codes "=" ≡ result.0.now ++ sign_of result.1 }
{
    if let Some(name) = changed.strip_suffix('+') {
        (name, Operation::Add)
    } else if let Some(name) = changed.strip_suffix('*') {
        (name, Operation::Multiply)
    } else {
        (changed, Operation::Set)
    }
}

fn place_of(name: &str, resources: &Resources<'_>) -> Result<usize, LineFault>
    ensures { IfOk result (λ place. IsNameAt (resource_names resources.now) place name.now) }
{
    resources
        .get_index_of(name)
        .ok_or(LineFault::NoSuchResource)
}
