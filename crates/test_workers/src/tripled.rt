//! Numbers that workers triple.
ghost use Rattle.std.specs.Prelude.{◌≡◌, ⊤, map};
ghost use Rattle.test_workers.specs.Tripled.{tripled};

use shred_hatch::{Job, Runner};
use shred_workers::Workers;
use std::sync::Wait;

/// A number.
#[derive(Drop)]
pub struct Number {
    pub value: u64,
}

impl Job for Number {
    ghost ready = { λ _. ⊤ };

    ghost ran = { λ before after. after.value ≡ tripled before.value };
}

/// Triples a number, and adds 1.
#[derive(Clone, Drop)]
pub struct Triples;

impl Runner<Number> for Triples {
    fn run<R: Wait>(&mut self, _rt: &R, number: &mut Number) {
        number.value = number.value.wrapping_mul(3).wrapping_add(1);
    }
}

/// Each number, tripled on some thread, in order.
pub fn triple_all<R: Wait>(rt: &R, workers: &Workers<Number>, numbers: &mut Vec<Number>)
    ensures { map (λ n. n.value) numbers.new.items ≡ map (λ n. tripled n.value) numbers.old.items }
{
    workers.run(rt, &mut Triples, numbers);
}
