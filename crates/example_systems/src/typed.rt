//! A system that names what it reads and writes by its types, and says what it writes.
ghost use Rattle.std.specs.Option.{option_map};
ghost use Rattle.std.specs.Prelude.{◌≡◌, IfOk};
ghost use Rattle.shred.specs.Places.{first_kind, second_kind};
ghost use Rattle.shred_table.specs.Id.{id_of};
ghost use Rattle.example_systems.specs.Doubles.{doubled};

use shred::{First, OneOf2, Ran, Second, TypedSystem, Uses, View};

/// The second number becomes twice the first.
#[derive(Drop)]
pub struct Doubled;

impl TypedSystem<OneOf2<i64, i64>> for Doubled {
    type Data = Uses<First<i64>, Second<i64>>;

    ghost step = { λ before seen outcome after left. IfOk outcome (λ done. left (id_of second_kind 0) ≡ option_map doubled (seen (id_of first_kind 0))) };

    fn run(&mut self, view: &View<OneOf2<i64, i64>>, double: &mut Second<i64>) -> Ran {
        double.0 = view.fetch::<First<i64>>()?.0.wrapping_mul(2);
        Ok(())
    }
}
