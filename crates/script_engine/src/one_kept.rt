//! The number of the one resource that a system writes, kept while its steps run.
ghost use Rattle.std.specs.Prelude.{◌≡◌, [], ◌∷◌, IfNone, IfSome, OnSome};
ghost use Rattle.std.specs.List.{All};
ghost use Rattle.script_text.specs.Declares.{AllowsStep, places_written};
ghost use Rattle.script_engine.specs.Overlaid.{overlaid};
ghost use Rattle.script_engine.specs.Steps.{steps_outcome, steps_left};

use crate::kept_numbers::{KeptNumber, number_in};
use crate::stepping::run_steps;
use script_text::arithmetic::change_number;
use script_text::numbers::Numbers;
use script_text::outcome::Refusal;
use script_text::step::{Operation, Step};
use shred_run::Fault;
use std::slice;

/// One number that is kept, of the only resource that is written; all others are behind it.
#[derive(Drop)]
pub struct KeepingOne<'n, N> {
    pub kept: KeptNumber,
    pub behind: &'n N,
}

impl<N: Numbers> Numbers for KeepingOne<'_, N> {
    ghost use Rattle.std.proofs.Common.{refl, sym, subst, ◌∙◌};

    ghost seen = { λ keeping. overlaid (keeping.kept ∷ []) (N.seen keeping.behind.now) };

    ghost is_ready = { λ keeping. N.is_ready keeping.behind.now };

    ghost allows = { λ keeping place. keeping.kept.place ≡ place };

    ghost keeps = { λ old new. (new.behind.now ≡ old.behind.now) × (new.kept.place ≡ old.kept.place) };

    fn number(&self, place: usize) -> Result<i64, Fault<Refusal>> {
        match number_in(slice::from_ref(&self.kept), place) {
            Some(number) => Ok(number),
            None => self.behind.number(place),
        }
    }

    #[inline(always)]
    fn change(
        &mut self,
        _place: usize,
        operation: Operation,
        operand: i64,
    ) -> Result<(), Fault<Refusal>> {
        change_number(&mut self.kept.number, operation, operand)
    }

    ghost keeps_same = { λ x. (refl, refl) };

    ghost keeps_then = { λ x y z one two. (two.0 ∙ one.0, two.1 ∙ one.1) };

    ghost keeps_ready = { λ x y kept ready. subst N.is_ready (sym kept.0) ready };

    ghost keeps_allowed = { λ x y kept place allowed. kept.1 ∙ allowed };
}

/// Runs the steps over the number of the only resource that they write, which is read before them and written after. Where
/// none is held, nothing is done. It stands apart so that a system of few steps makes no room for it.
#[inline(never)]
pub(crate) fn run_one_kept<N: Numbers>(
    steps: &[Step],
    place: usize,
    numbers: &mut N,
) -> Option<Result<(), Fault<Refusal>>>
    requires writes { All (AllowsStep N.allows numbers.old) steps.now }
    requires is_ready { N.is_ready numbers.old }
    requires written { places_written [] steps.now ≡ place ∷ [] }
    ensures outcome { IfSome result (λ end. end ≡ steps_outcome steps.now (N.seen numbers.old)) }
    ensures left { OnSome result (N.seen numbers.new ≡ steps_left steps.now (N.seen numbers.old)) }
    ensures none { IfNone result (numbers.new ≡ numbers.old) }
    ensures keeps { N.keeps numbers.old numbers.new }
{
    let number = numbers.number(place).ok()?;
    let mut keeping = KeepingOne {
        kept: KeptNumber { place, number },
        behind: &*numbers,
    };
    let outcome = run_steps(steps, &mut keeping);
    let left = keeping.kept.number;

    // A number is held there, so it is not refused.
    let _ = numbers.change(place, Operation::Set, left);
    Some(outcome)
}
