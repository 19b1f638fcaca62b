//! An example of a tree: two systems beside each other, and then a third.
ghost use Rattle.std.specs.Prelude.{◌≡◌, ◌∷◌, [], false};
ghost use Rattle.shred_model.specs.Access.{Conflicts};
ghost use Rattle.shred_table.specs.Id.{id_of};
ghost use Rattle.shred_table.specs.Only.{only_kind};
ghost use Rattle.shred_table.specs.Slots.{among};
ghost use Rattle.shred_table.specs.declared.id.ResourceId.{ResourceId};
ghost use Rattle.shred_world.specs.Worlds.{world_held};
ghost use Rattle.test_trees.specs.TwoThenOne.{IsRunTold, IsTold, writes_at};

use shred::{
    BatchAccessor, DataError, Fault, Nil, Now, Only, OutOfMemory, Par, ParError, ParSeq, Plain,
    PlainSystem, RunWithPool, View, World, only_id, seq,
};
use std::alloc::Global;
use std::thread::Threads;

/// Adds the amount to the number in this place, and refuses where there is none.
#[derive(Clone, Copy, Drop)]
pub struct AddTo {
    pub place: u64,
    pub amount: i64,
}

impl PlainSystem<Only<i64>> for AddTo {
    type Error = DataError;

    ghost reads = { λ add. [] };

    ghost writes = { λ add. id_of only_kind add.place ∷ [] };

    ghost step = { λ _ _ _ _ _. Unit {0} };

    fn run(&mut self, view: &mut View<Only<i64>>) -> Result<(), Fault<DataError>> {
        let number = view.write::<i64>(only_id(self.place))?;
        *number = number.wrapping_add(self.amount);
        Ok(())
    }

    fn accessor(&self, alloc: Global) -> Result<BatchAccessor, OutOfMemory> {
        BatchAccessor::of(alloc, &[], &[only_id(self.place)])
    }
}

/// Why not all was done.
#[derive(Drop)]
pub enum Stopped {
    /// The two add in the same place, so nothing was done.
    Conflict,
    /// The first that refused gave this.
    Refused(DataError),
    OutOfMemory,
}

/// Runs `first` and `second` beside each other, on two threads, and where both were Done `last`. What stands in no place of
/// theirs stays.
pub fn two_then_one<R: Threads + Sync>(
    rt: &R,
    alloc: Global,
    first: AddTo,
    second: AddTo,
    last: AddTo,
    world: &mut World<Only<i64>>,
) -> Result<(), Stopped>
    ensures told { IsTold (Conflicts (writes_at first.place) (writes_at second.place)) result }
    ensures frame { (id : ResourceId) → among (id_of only_kind first.place ∷ id_of only_kind second.place ∷ id_of only_kind last.place ∷ []) id ≡ false → world_held (λ value. only_kind) world.new id ≡ world_held (λ value. only_kind) world.old id }
{
    let alone: Par<Only<i64>, DataError, Now<Plain<AddTo>>, Nil> = Par::new(Now(Plain(first)));
    match alone.with(alloc, Now(Plain(second))) {
        Ok(both) => run_tree(rt, seq![both, Now(Plain(last)),], world),
        Err(ParError::Conflict) => Err(Stopped::Conflict),
        Err(ParError::OutOfMemory) => Err(Stopped::OutOfMemory),
    }
}

// One run of the tree, on two threads.
fn run_tree<R: Threads + Sync, T: RunWithPool<Only<i64>, DataError> + Send>(
    rt: &R,
    tree: T,
    world: &mut World<Only<i64>>,
) -> Result<(), Stopped>
    ensures told { IsRunTold result }
    ensures frame { (id : ResourceId) → among (T.trees.writes tree) id ≡ false → world_held (λ value. only_kind) world.new id ≡ world_held (λ value. only_kind) world.old id }
{
    let mut par_seq: ParSeq<T, DataError> = ParSeq::new(tree, 2);
    match par_seq.dispatch(rt, world) {
        Ok(()) => Ok(()),
        Err(Fault::Refused(error)) => Err(Stopped::Refused(error)),
        Err(Fault::OutOfMemory) => Err(Stopped::OutOfMemory),
    }
}
