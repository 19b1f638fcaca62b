//! Systems that add to one count or read one, worlds of counts, and what is expected of these.
ghost use Rattle.std.specs.Prelude.{[], ◌∷◌};
ghost use Rattle.shred_table.specs.Id.{id_of};
ghost use Rattle.shred_table.specs.Only.{only_kind};

use shred::{
    BatchAccessor, Fault, Now, Only, OutOfMemory, Plain, PlainSystem, View, World, only_id,
};
use std::alloc::Global;
use std::process::Abort;
use std::test::Fail;

/// It adds the amount to the count of this number, and then refuses with the code, where that is not 0.
#[derive(Drop)]
pub(crate) struct Adds {
    number: u64,
    amount: i64,
    code: u8,
}

impl PlainSystem<Only<i64>> for Adds {
    type Error = u8;

    ghost reads = { λ adds. [] };

    ghost writes = { λ adds. id_of only_kind adds.number ∷ [] };

    ghost step = { λ _ _ _ _ _. Unit {0} };

    fn run(&mut self, view: &mut View<Only<i64>>) -> Result<(), Fault<u8>> {
        match view.write::<i64>(only_id(self.number)) {
            Ok(count) => *count = count.wrapping_add(self.amount),
            Err(_) => return Err(Fault::Refused(99)),
        }
        if self.code == 0 {
            Ok(())
        } else {
            Err(Fault::Refused(self.code))
        }
    }

    fn accessor(&self, alloc: Global) -> Result<BatchAccessor, OutOfMemory> {
        BatchAccessor::of(alloc, &[], &[only_id(self.number)])
    }
}

/// It adds this amount to the count of this number.
pub(crate) fn adds_to(number: u64, amount: i64) -> Now<Plain<Adds>> {
    refuses(number, amount, 0)
}

/// It adds this amount to the count of this number, and then refuses with this code.
pub(crate) fn refuses(number: u64, amount: i64, code: u8) -> Now<Plain<Adds>> {
    Now(Plain(Adds {
        number,
        amount,
        code,
    }))
}

/// It may read the count of this number, and refuses where there is none.
#[derive(Drop)]
pub(crate) struct Looks {
    number: u64,
}

impl PlainSystem<Only<i64>> for Looks {
    type Error = u8;

    ghost reads = { λ looks. id_of only_kind looks.number ∷ [] };

    ghost writes = { λ looks. [] };

    ghost step = { λ _ _ _ _ _. Unit {0} };

    fn run(&mut self, view: &mut View<Only<i64>>) -> Result<(), Fault<u8>> {
        match view.read::<i64>(only_id(self.number)) {
            Ok(_) => Ok(()),
            Err(_) => Err(Fault::Refused(99)),
        }
    }

    fn accessor(&self, alloc: Global) -> Result<BatchAccessor, OutOfMemory> {
        BatchAccessor::of(alloc, &[only_id(self.number)], &[])
    }
}

/// It may read the count of this number.
pub(crate) fn looks_at(number: u64) -> Now<Plain<Looks>> {
    Now(Plain(Looks { number }))
}

/// A world of so many counts, each of them 0.
pub(crate) fn zeros(alloc: Global, count: u64) -> Result<World<Only<i64>>, Fail> {
    let mut world = World::empty(alloc);
    for number in 0..count {
        world.insert_by_id(only_id(number), 0)?;
    }
    Ok(world)
}

/// The world holds these counts.
pub(crate) fn expect_counts(rt: &impl Abort, world: &World<Only<i64>>, counts: &[i64]) {
    let mut number = 0;
    for count in counts {
        let held = match world.try_fetch_by_id::<i64>(only_id(number)) {
            Ok(Some(held)) => Some(*held),
            _ => None,
        };
        assert_eq!(rt; held, Some(*count));
        number = number.wrapping_add(1);
    }
}

/// How a run ended: `done`, or a refusal with its code, or want of memory.
pub(crate) fn ended(outcome: Result<(), Fault<u8>>) -> (&'static str, u8) {
    match outcome {
        Ok(()) => ("done", 0),
        Err(Fault::Refused(code)) => ("refused", code),
        Err(Fault::OutOfMemory) => ("out of memory", 0),
    }
}

pub(crate) const DONE: (&str, u8) = ("done", 0);
