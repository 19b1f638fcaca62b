//! Steps that run in order, up to the first that refuses.
ghost use Rattle.std.specs.Prelude.{◌≡◌};
ghost use Rattle.std.specs.List.{All};
ghost use Rattle.std.specs.Option.{ok_or};
ghost use Rattle.shred_run.specs.declared.system.Fault.TheVariants.{Refused};
ghost use Rattle.script_text.specs.declared.outcome.Refusal.TheVariants.{Undeclared};
ghost use Rattle.script_text.specs.Change.{operand_number};
ghost use Rattle.script_text.specs.Declares.{AllowsStep};
ghost use Rattle.script_engine.specs.Steps.{step_outcome, step_left, steps_outcome, steps_left};

use script_text::numbers::Numbers;
use script_text::outcome::Refusal;
use script_text::step::{Operand, Step};
use shred_run::Fault;

/// Runs the steps over the numbers, up to the first that refuses, which the answer tells.
#[inline(always)]
pub fn run_steps<N: Numbers>(steps: &[Step], numbers: &mut N) -> Result<(), Fault<Refusal>>
    requires writes { All (AllowsStep N.allows numbers.old) steps.now }
    requires is_ready { N.is_ready numbers.old }
    ensures outcome { result ≡ steps_outcome steps.now (N.seen numbers.old) }
    ensures left { N.seen numbers.new ≡ steps_left steps.now (N.seen numbers.old) }
    ensures keeps { N.keeps numbers.old numbers.new }
{
    let mut ahead = steps;
    while let Some((step, rest)) = ahead.split_first() {
        run_step(*step, numbers)?;
        ahead = rest;
    }
    Ok(())
}

/// Runs one step. What an operand stands for is looked up first.
#[inline(always)]
fn run_step<N: Numbers>(step: Step, numbers: &mut N) -> Result<(), Fault<Refusal>>
    requires writes { AllowsStep N.allows numbers.old step }
    requires is_ready { N.is_ready numbers.old }
    ensures outcome { result ≡ step_outcome step (N.seen numbers.old) }
    ensures left { N.seen numbers.new ≡ step_left step (N.seen numbers.old) }
    ensures keeps { N.keeps numbers.old numbers.new }
{
    match step {
        Step::Change {
            target,
            operation,
            operand,
        } => {
            let operand = operand_number(numbers, operand)?;
            numbers.change(target, operation, operand)
        }
        Step::Declare(_) => Ok(()),
        Step::Refuse(code) => Err(Fault::Refused(Refusal::Code(code))),
    }
}

/// The number that an operand stands for.
fn operand_number<N: Numbers>(numbers: &N, operand: Operand) -> Result<i64, Fault<Refusal>>
    requires { N.is_ready numbers.now }
    ensures { result ≡ ok_or (operand_number (N.seen numbers.now) operand) (Refused Undeclared) }
{
    match operand {
        Operand::Number(number) => Ok(number),
        Operand::Resource(source) => numbers.number(source),
    }
}
