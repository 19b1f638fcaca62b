//! The arithmetic of steps.
ghost use Rattle.std.specs.Prelude.{◌≡◌, SomeIff, FitsSigned};
ghost use Rattle.std.specs.Int.{w64};
ghost use Rattle.script_text.specs.Change.{change_outcome, fitted, number_left};
ghost use Rattle.script_text.specs.Operation.{value_of};

use crate::outcome::Refusal;
use crate::step::Operation;
use shred_run::Fault;

/// The value that takes the place of `value`, or None where it does not fit 64 bits with sign.
fn apply(operation: Operation, value: i64, operand: i64) -> Option<i64>
    ensures { SomeIff result (FitsSigned w64 (value_of operation value operand)) (value_of operation value operand) }
{
    match operation {
        Operation::Add => value.checked_add(operand),
        Operation::Multiply => value.checked_mul(operand),
        Operation::Set => Some(operand),
    }
}

/// Puts what the operation makes of a number and of the operand in its place. Where that does not fit, it is refused, and
/// nothing changes.
pub fn change_number(
    number: &mut i64,
    operation: Operation,
    operand: i64,
) -> Result<(), Fault<Refusal>>
    ensures outcome { result ≡ change_outcome (fitted (value_of operation number.old operand)) }
    ensures left { number.new ≡ number_left number.old (fitted (value_of operation number.old operand)) }
{
    match apply(operation, *number, operand) {
        Some(next) => {
            *number = next;
            Ok(())
        }
        None => Err(Fault::Refused(Refusal::Overflow)),
    }
}
