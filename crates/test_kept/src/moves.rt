//! A system that moves a player.
ghost use Rattle.std.specs.Int.{int_wrapping_add, w64};
ghost use Rattle.std.specs.Prelude.{◌≡◌, [], ◌∷◌, IfOk, option_map, pos};
ghost use Rattle.shred_table.specs.Id.{id_of};
ghost use Rattle.shred_table.specs.Only.{only_kind};

use shred::{BatchAccessor, DataError, Fault, Only, OutOfMemory, PlainSystem, View, only_id};
use std::alloc::Global;

/// Moves a player by 1.
#[derive(Drop)]
pub struct Moves {
    pub player: u64,
}

impl PlainSystem<Only<i64>> for Moves {
    type Error = DataError;

    ghost reads = { λ moves. [] };

    ghost writes = { λ moves. id_of only_kind moves.player ∷ [] };

    ghost step = { λ before seen outcome after left. IfOk outcome (λ done. left (id_of only_kind before.player) ≡ option_map (λ place. record { 0 = int_wrapping_add w64 place.0 (pos 1) }) (seen (id_of only_kind before.player))) };

    fn run(&mut self, view: &mut View<Only<i64>>) -> Result<(), Fault<DataError>> {
        let place = view.write::<i64>(only_id(self.player))?;
        *place = place.wrapping_add(1);
        Ok(())
    }

    fn accessor(&self, alloc: Global) -> Result<BatchAccessor, OutOfMemory> {
        BatchAccessor::of(alloc, &[], &[only_id(self.player)])
    }
}
