//! Systems of random accesses, which are only planned.
ghost use Rattle.std.specs.Prelude.{◌≡◌, IfOk};
ghost use Rattle.shredmeasure.specs.Random.{ids_drawn, next_seed, reads_drawn, seed_left, writes_drawn};

use shred::{
    BatchAccessor, DataError, Fault, Only, OutOfMemory, PlainSystem, ResourceId, View, only_id,
};
use std::alloc::Global;

/// How many resources there are.
const RESOURCES: u64 = 300;

/// A system that is only planned.
#[derive(Drop)]
pub(crate) struct Planned {
    reads: Vec<ResourceId>,
    writes: Vec<ResourceId>,
}

// The next of a row of numbers that look random.
fn next(seed: u64) -> u64
    ensures { result ≡ next_seed seed }
{
    seed.wrapping_mul(6364136223846793005)
        .wrapping_add(1442695040888963407)
}

impl Planned {
    /// A system of one to six ids, of which it writes about every third.
    pub(crate) fn random(alloc: Global, seed: &mut u64) -> Result<Planned, OutOfMemory>
        ensures reads { IfOk result (λ system. system.reads.items ≡ reads_drawn (ids_drawn (next_seed seed.old)) (next_seed seed.old)) }
        ensures writes { IfOk result (λ system. system.writes.items ≡ writes_drawn (ids_drawn (next_seed seed.old)) (next_seed seed.old)) }
        ensures seed { IfOk result (λ system. seed.new ≡ seed_left (next_seed seed.old)) }
    {
        let mut reads = Vec::new(alloc);
        let mut writes = Vec::new(alloc);
        *seed = next(*seed);
        for _ in 0..(*seed >> 33) % 6 + 1 {
            *seed = next(*seed);
            let id = only_id((*seed >> 33) % RESOURCES);
            let pushed = if (*seed >> 50) % 3 == 0 {
                writes.push(id).is_ok()
            } else {
                reads.push(id).is_ok()
            };
            if !pushed {
                return Err(OutOfMemory);
            }
        }
        Ok(Planned { reads, writes })
    }
}

impl PlainSystem<Only<i64>> for Planned {
    type Error = DataError;

    ghost reads = { λ system. system.reads.items };

    ghost writes = { λ system. system.writes.items };

    ghost step = { λ _ _ _ _ _. Unit {0} };

    fn run(&mut self, _view: &mut View<Only<i64>>) -> Result<(), Fault<DataError>> {
        Ok(())
    }

    fn accessor(&self, alloc: Global) -> Result<BatchAccessor, OutOfMemory> {
        BatchAccessor::of(alloc, self.reads.as_slice(), self.writes.as_slice())
    }
}
