//! Numbers that are kept while the steps of a system run: read once before them, and written once after.
ghost use Rattle.std.specs.Prelude.{◌≡◌, ℕ, List, [], false, IfNone, IfSome, OnSome, IsSome, IsTrue};
ghost use Rattle.std.specs.List.{All};
ghost use Rattle.script_text.specs.Declares.{AllowsStep, is_among, places_written};
ghost use Rattle.script_text.specs.Place.{number_at};
ghost use Rattle.script_engine.specs.Overlaid.{AreHeld, EachPlace, IsKeptAt, IsNumberOver, kept_places, overlaid};
ghost use Rattle.script_engine.specs.Steps.{steps_outcome, steps_left};

use crate::declared::Declared;
use crate::one_kept::run_one_kept;
use crate::stepping::run_steps;
use arrayvec::ArrayVec;
use script_text::arithmetic::change_number;
use script_text::numbers::Numbers;
use script_text::outcome::Refusal;
use script_text::step::{Operation, Step};
use shred_run::Fault;

/// The number of the resource at a place.
#[derive(Clone, Copy, Default)]
pub struct KeptNumber {
    pub place: usize,
    pub number: i64,
}

/// Numbers that are kept: of what is written, behind them those that operands name, and all others behind both.
#[derive(Drop)]
pub struct Keeping<'n, N> {
    pub written: ArrayVec<KeptNumber, 8>,
    pub named: ArrayVec<KeptNumber, 8>,
    pub behind: &'n N,
}

impl<N: Numbers> Numbers for Keeping<'_, N> {
    ghost use Rattle.std.proofs.Common.{refl, sym, subst, ◌∙◌};

    ghost seen = { λ keeping. overlaid keeping.written.items (overlaid keeping.named.items (N.seen keeping.behind.now)) };

    ghost is_ready = { λ keeping. N.is_ready keeping.behind.now };

    ghost allows = { λ keeping place. IsTrue (is_among (kept_places keeping.written.items) place) };

    ghost keeps = { λ old new. (new.behind.now ≡ old.behind.now) × (new.named.items ≡ old.named.items) × (kept_places new.written.items ≡ kept_places old.written.items) };

    fn number(&self, place: usize) -> Result<i64, Fault<Refusal>> {
        if let Some(number) = number_in(self.written.as_slice(), place) {
            return Ok(number);
        }
        match number_in(self.named.as_slice(), place) {
            Some(number) => Ok(number),
            None => self.behind.number(place),
        }
    }

    fn change(
        &mut self,
        place: usize,
        operation: Operation,
        operand: i64,
    ) -> Result<(), Fault<Refusal>> {
        let Some(at) = kept_at(self.written.as_slice(), place) else {
            unreachable!()
        };
        change_number(
            &mut self.written.as_mut_slice()[at].number,
            operation,
            operand,
        )
    }

    ghost keeps_same = { λ x. (refl, refl, refl) };

    ghost keeps_then = { λ x y z one two. (two.0 ∙ one.0, two.1 ∙ one.1, two.2 ∙ one.2) };

    ghost keeps_ready = { λ x y kept ready. subst N.is_ready (sym kept.0) ready };

    ghost keeps_allowed = { λ x y kept place allowed. subst (λ (places : List ℕ). IsTrue (is_among places place)) (sym kept.2) allowed };
}

// The number that is kept of this place, the first where there are several.
pub(crate) fn number_in(kept: &[KeptNumber], place: usize) -> Option<i64>
    ensures { IsNumberOver kept.now place result }
{
    for one in kept {
        if one.place == place {
            return Some(one.number);
        }
    }
    None
}

impl<N: Numbers> Keeping<'_, N> {
    // Keeps the numbers of what operands name and of what is written, where all are held and there is room for them.
    fn keep(&mut self, declared: &Declared) -> Option<()>
        requires is_ready { N.is_ready self.old.behind.now }
        requires empty { (self.old.named.items ≡ []) × (self.old.written.items ≡ []) }
        ensures behind { self.new.behind.now ≡ self.old.behind.now }
        ensures places { OnSome result (kept_places self.new.written.items ≡ declared.now.written.items) }
        ensures named { OnSome result (AreHeld (N.seen self.old.behind.now) self.new.named.items) }
        ensures written { OnSome result (AreHeld (N.seen self.old.behind.now) self.new.written.items) }
    {
        let behind = self.behind;
        keep_each(&mut self.named, behind, declared.named.as_slice())?;
        keep_each(&mut self.written, behind, declared.written.as_slice())
    }
}

// Where a number of this place is kept, the first where there are several.
fn kept_at(kept: &[KeptNumber], place: usize) -> Option<usize>
    ensures kept { IfSome result (IsKeptAt kept.now place) }
    ensures none { IfNone result (is_among (kept_places kept.now) place ≡ false) }
{
    // Mostly one number is written, so the first is looked at before the search.
    if let Some(first) = kept.first() {
        if first.place == place {
            return Some(0);
        }
    }
    kept.iter().position(|one| one.place == place)
}

// Keeps the numbers at these places, where all are held and there is room for them.
fn keep_each<N: Numbers>(
    kept: &mut ArrayVec<KeptNumber, 8>,
    numbers: &N,
    places: &[usize],
) -> Option<()>
    requires is_ready { N.is_ready numbers.now }
    requires empty { kept.old.items ≡ [] }
    ensures places { OnSome result (kept_places kept.new.items ≡ places.now) }
    ensures held { OnSome result (AreHeld (N.seen numbers.now) kept.new.items) }
{
    for place in places {
        let number = numbers.number(*place).ok()?;
        let one = KeptNumber {
            place: *place,
            number,
        };
        kept.try_push(one).ok()?;
    }
    Some(())
}

// Writes the kept numbers, the last first.
fn write_kept<N: Numbers>(kept: &[KeptNumber], numbers: &mut N)
    requires is_ready { N.is_ready numbers.old }
    requires allowed { EachPlace kept.now (N.allows numbers.old) }
    requires held { EachPlace kept.now (λ place. IsSome (number_at (N.seen numbers.old) place)) }
    ensures left { N.seen numbers.new ≡ overlaid kept.now (N.seen numbers.old) }
    ensures keeps { N.keeps numbers.old numbers.new }
{
    if let Some((first, rest)) = kept.split_first() {
        write_kept(rest, numbers);

        // A number is held there, so it is not refused.
        let _ = numbers.change(first.place, Operation::Set, first.number);
    }
}

// Runs the steps over the numbers that their operands name and those that they write: all are read once before them, and what
// is written is written once after. Where not all are held, or there are more than eight of each, nothing is done. It stands
// apart so that a system of few steps makes no room for them.
#[inline(never)]
fn run_kept<N: Numbers>(
    steps: &[Step],
    declared: &Declared,
    numbers: &mut N,
) -> Option<Result<(), Fault<Refusal>>>
    requires writes { All (AllowsStep N.allows numbers.old) steps.now }
    requires is_ready { N.is_ready numbers.old }
    requires written { declared.now.written.items ≡ places_written [] steps.now }
    ensures outcome { IfSome result (λ end. end ≡ steps_outcome steps.now (N.seen numbers.old)) }
    ensures left { OnSome result (N.seen numbers.new ≡ steps_left steps.now (N.seen numbers.old)) }
    ensures none { IfNone result (numbers.new ≡ numbers.old) }
    ensures keeps { N.keeps numbers.old numbers.new }
{
    let mut keeping = Keeping {
        written: ArrayVec::new_in(()),
        named: ArrayVec::new_in(()),
        behind: &*numbers,
    };
    keeping.keep(declared)?;
    let outcome = run_steps(steps, &mut keeping);
    let Keeping { written, .. } = keeping;
    write_kept(written.as_slice(), numbers);
    Some(outcome)
}

/// Runs the steps over the numbers, up to the first that refuses, which the answer tells. Where there are many of them, the
/// numbers that they name or write are read once before them, and what they write is written once after.
#[inline(always)]
pub fn run_declared<N: Numbers>(
    steps: &[Step],
    declared: &Declared,
    numbers: &mut N,
) -> Result<(), Fault<Refusal>>
    requires writes { All (AllowsStep N.allows numbers.old) steps.now }
    requires is_ready { N.is_ready numbers.old }
    requires written { declared.now.written.items ≡ places_written [] steps.now }
    ensures outcome { result ≡ steps_outcome steps.now (N.seen numbers.old) }
    ensures left { N.seen numbers.new ≡ steps_left steps.now (N.seen numbers.old) }
    ensures keeps { N.keeps numbers.old numbers.new }
{
    if steps.len() / 8 >= declared.written.len() {
        let kept = match declared.only_number() {
            Some(place) => run_one_kept(steps, place, numbers),
            None => run_kept(steps, declared, numbers),
        };
        if let Some(outcome) = kept {
            return outcome;
        }
    }
    run_steps(steps, numbers)
}
