//! The numbers of resources, as steps read and write them: through a system's view, or in a whole world.
ghost use Rattle.std.specs.Prelude.{◌≡◌, ℕ, ⊤};
ghost use Rattle.std.specs.Option.{ok_or};
ghost use Rattle.shred_run.specs.declared.system.Fault.TheVariants.{Refused};
ghost use Rattle.script_text.specs.Change.{change_left, change_outcome, changed};
ghost use Rattle.script_text.specs.declared.outcome.Refusal.TheVariants.{Undeclared};
ghost use Rattle.script_text.specs.declared.step.Operand.TheVariants.{Number};
ghost use Rattle.script_text.specs.Place.{number_at};

use crate::arithmetic::change_number;
use crate::outcome::Refusal;
use crate::step::Operation;
use crate::value::{Value, id_at};
use shred_run::Fault;
use shred_world::{LocalWorld, View};

/// Where the numbers of resources stand, each at its place among the declared ones.
pub trait Numbers {
    ghost use Rattle.shred_world.specs.Worked.{Held};
    ghost use Rattle.script_text.specs.declared.value.Value.{Value};

    ghost seen: { Self → Held Value };

    ghost is_ready: { Self → Type 0 };

    ghost allows: { Self → ℕ → Type 0 };

    ghost keeps: { Self → Self → Type 0 };

    /// The number at a place.
    fn number(&self, place: usize) -> Result<i64, Fault<Refusal>>
        requires { is_ready self.now }
        ensures { result ≡ ok_or (number_at (seen self.now) place) (Refused Undeclared) };

    /// Puts what the operation makes of the number at a place and of the operand in its place. Where no number is held, or
    /// the new one does not fit, it is refused, and nothing changes.
    fn change(
        &mut self,
        place: usize,
        operation: Operation,
        operand: i64,
    ) -> Result<(), Fault<Refusal>>
        requires is_ready { is_ready self.old }
        requires allowed { allows self.old place }
        ensures outcome { result ≡ change_outcome (changed (seen self.old) place operation (Number operand)) }
        ensures left { seen self.new ≡ change_left (seen self.old) place (changed (seen self.old) place operation (Number operand)) }
        ensures keeps { keeps self.old self.new };

    ghost keeps_same: { (x : Self) → keeps x x };

    ghost keeps_then: { (x y z : Self) → keeps x y → keeps y z → keeps x z };

    ghost keeps_ready: { (x y : Self) → keeps x y → is_ready x → is_ready y };

    ghost keeps_allowed: { (x y : Self) → keeps x y → (place : ℕ) → allows x place → allows y place };
}

impl Numbers for View<'_, '_, Value> {
    ghost use Rattle.shred_world.specs.Views.{is_out, may_write};
    ghost use Rattle.script_text.specs.Frame.{ChangesWritten};
    ghost use Rattle.script_text.specs.Place.{id_at, seen_through};
    ghost use Rattle.script_text.specs.FrameLaws.{changes-same, changes-then, ready-still, may_write-still};
    ghost use Rattle.shred_table.specs.declared.id.ResourceId.{ResourceId};
    ghost use Rattle.std.specs.Prelude.{false, IsTrue};

    ghost seen = { seen_through };

    ghost is_ready = { λ view. (id : ResourceId) → is_out view id ≡ false };

    ghost allows = { λ view place. IsTrue (may_write view (id_at place)) };

    ghost keeps = { ChangesWritten };

    #[inline(always)]
    fn number(&self, place: usize) -> Result<i64, Fault<Refusal>> {
        match self.read::<i64>(id_at(place)) {
            Ok(number) => Ok(*number),
            Err(error) => Err(Fault::from(error)),
        }
    }

    #[inline(always)]
    fn change(
        &mut self,
        place: usize,
        operation: Operation,
        operand: i64,
    ) -> Result<(), Fault<Refusal>> {
        match self.write::<i64>(id_at(place)) {
            Ok(number) => change_number(number, operation, operand),
            Err(error) => Err(Fault::from(error)),
        }
    }

    ghost keeps_same = { changes-same };

    ghost keeps_then = { changes-then };

    ghost keeps_ready = { λ x y kept ready. ready-still x y kept ready };

    ghost keeps_allowed = { λ x y kept place allowed. may_write-still x y kept (id_at place) allowed };
}

impl Numbers for LocalWorld<Value> {
    ghost use Rattle.shred_run.specs.Alone.{KeepsKinds};
    ghost use Rattle.shred_world.specs.Worlds.{local_held};
    ghost use Rattle.script_text.specs.Value.{value_kind};
    ghost use Rattle.std.proofs.Common.{refl, ◌∙◌};

    ghost seen = { local_held value_kind };

    ghost is_ready = { λ world. ⊤ };

    ghost allows = { λ world place. ⊤ };

    ghost keeps = { λ old new. KeepsKinds value_kind (local_held value_kind old) (local_held value_kind new) };

    fn number(&self, place: usize) -> Result<i64, Fault<Refusal>> {
        match self.try_fetch_by_id::<i64>(id_at(place)) {
            Ok(Some(number)) => Ok(*number),
            _ => Err(Fault::Refused(Refusal::Undeclared)),
        }
    }

    fn change(
        &mut self,
        place: usize,
        operation: Operation,
        operand: i64,
    ) -> Result<(), Fault<Refusal>> {
        match self.try_fetch_mut_by_id::<i64>(id_at(place)) {
            Ok(number) => change_number(number, operation, operand),
            Err(_) => Err(Fault::Refused(Refusal::Undeclared)),
        }
    }

    ghost keeps_same = { λ x id. refl };

    ghost keeps_then = { λ x y z one two id. two id ∙ one id };

    ghost keeps_ready = { λ x y kept ready. tt };

    ghost keeps_allowed = { λ x y kept place allowed. tt };
}
