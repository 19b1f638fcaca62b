//! A system that waits for others, adds to a count, and refuses.
ghost use Rattle.std.specs.Prelude.{[], ◌∷◌};
ghost use Rattle.shred_table.specs.Id.{id_of};
ghost use Rattle.shred_table.specs.Only.{only_kind};

use shred::{BatchAccessor, Fault, Only, OutOfMemory, Plain, PlainSystem, View, only_id};
use std::alloc::Global;
use std::sync::Arc;
use std::sync::atomic::{AtomicU64, Ordering};
use test_meeting::{TURNS, sees};

/// What a system does in each run: it waits until so many are in their run, and looks so often for them; it adds 1 to its
/// count; and it refuses with the code, where that is not 0.
#[derive(Clone, Copy)]
pub(crate) struct Does {
    pub(crate) members: u64,
    pub(crate) turns: u32,
    pub(crate) code: u8,
}

/// It adds, and waits for nobody.
pub(crate) const ADDS: Does = Does {
    members: 0,
    turns: 1,
    code: 0,
};

/// The code of one who does not see the others.
pub(crate) const UNMET: u8 = 100;

/// Does that with the count of its number. Once it has seen the others, it is patient.
#[derive(Drop)]
pub(crate) struct Adds {
    pub(crate) number: u64,
    does: Does,
    arrived: Arc<AtomicU64>,
    wanted: u64,
}

/// The system of this number, among those whom this counts.
pub(crate) fn system_of(
    arrived: &Arc<AtomicU64>,
    number: u64,
    does: Does,
) -> Result<Plain<Adds>, OutOfMemory> {
    let arrived = arrived.clone()?;
    Ok(Plain(Adds {
        number,
        does,
        arrived,
        wanted: 0,
    }))
}

/// Arrives, and sees whether so many have arrived.
fn meets(arrived: &AtomicU64, wanted: u64, turns: u32) -> bool {
    arrived.fetch_add(1, Ordering::SeqCst);
    sees(arrived, wanted, turns)
}

impl PlainSystem<Only<i64>> for Adds {
    type Error = u8;

    ghost reads = { λ adds. [] };

    ghost writes = { λ adds. id_of only_kind adds.number ∷ [] };

    ghost step = { λ _ _ _ _ _. Unit {0} };

    fn run(&mut self, view: &mut View<Only<i64>>) -> Result<(), Fault<u8>> {
        self.wanted = self.wanted.wrapping_add(self.does.members);
        if !meets(&self.arrived, self.wanted, self.does.turns) {
            return Err(Fault::Refused(UNMET));
        }
        self.does.turns = TURNS;
        match view.write::<i64>(only_id(self.number)) {
            Ok(count) => *count = count.wrapping_add(1),
            Err(_) => return Err(Fault::Refused(99)),
        }
        if self.does.code == 0 {
            Ok(())
        } else {
            Err(Fault::Refused(self.does.code))
        }
    }

    fn accessor(&self, alloc: Global) -> Result<BatchAccessor, OutOfMemory> {
        BatchAccessor::of(alloc, &[], &[only_id(self.number)])
    }
}
