//! Two systems over two types of resources with a barrier between them, one of which takes a bundle of both, and a thread-local
//! one. They are dispatched until one refuses, which is told by its name.
#![tactic(auto)]

ghost use Rattle.std.specs.Prelude.{◌≡◌, [], ◌∷◌};
ghost use Rattle.shred.specs.Places.{first_kind, second_kind};
ghost use Rattle.shred_table.specs.Id.{id_of};

use shred::{
    AddError, BatchAccessor, DataError, Dispatcher, DispatcherBuilder, Fault, First, Now, OneOf,
    OneOf2, OutOfMemory, Plain, PlainSystem, ReadExpect, Second, System, SystemNames, Told, View,
    World, WorldError, WriteExpect, bundle_accessor, second_id,
};
use std::alloc::Global;
use std::thread::Threads;
use thiserror::Error;

type Position = First<i64>;

type Speed = Second<i64>;

type Value = OneOf2<i64, i64>;

/// Why a system refuses.
#[derive(Debug, Drop, Error)]
enum Stopped {
    #[error("nothing moves")]
    Still,
    #[error("{0}")]
    Data(#[from] DataError),
}

/// The position to write, and the speed to read.
type Motion<'s> = (WriteExpect<Position>, ReadExpect<'s, Speed>);

/// Adds the speed to the position.
#[derive(Drop)]
struct Moves;

impl PlainSystem<Value> for Moves {
    type Error = Stopped;

    ghost reads = { λ system. id_of second_kind 0 ∷ [] };

    ghost writes = { λ system. id_of first_kind 0 ∷ [] };

    ghost step = { λ before seen outcome after left. Unit {0} };

    fn run(&mut self, view: &mut View<Value>) -> Result<(), Fault<Stopped>> {
        view.exec(
            |motion: &mut Motion|
                ensures { motion.new.1 ≡ motion.old.1 }
            { motion.0.0 = motion.0.0.wrapping_add(motion.1.0) },
        )?;
        Ok(())
    }

    fn accessor(&self, alloc: Global) -> Result<BatchAccessor, OutOfMemory> {
        bundle_accessor::<Value, Motion>(alloc)
    }
}

/// Halves the speed, and refuses where it is 0.
#[derive(Drop)]
struct Brakes;

impl PlainSystem<Value> for Brakes {
    type Error = Stopped;

    ghost reads = { λ system. [] };

    ghost writes = { λ system. id_of second_kind 0 ∷ [] };

    ghost step = { λ before seen outcome after left. Unit {0} };

    fn run(&mut self, view: &mut View<Value>) -> Result<(), Fault<Stopped>> {
        let speed = view.write::<Speed>(second_id(0))?;
        if speed.0 == 0 {
            return Err(Fault::Refused(Stopped::Still));
        }
        speed.0 /= 2;
        Ok(())
    }

    fn accessor(&self, alloc: Global) -> Result<BatchAccessor, OutOfMemory> {
        BatchAccessor::of(alloc, &[], &[second_id(0)])
    }
}

type Staged = OneOf<Plain<Moves>, Plain<Brakes>>;

/// Both systems, and once more the first one, on the caller's thread.
fn planned<S: System<Value> + Drop>(
    alloc: Global,
    moves: S,
    brakes: S,
    last: S,
) -> Result<(Dispatcher<Value, S>, SystemNames), AddError> {
    let builder: DispatcherBuilder<Value, S> = DispatcherBuilder::new(alloc);
    let builder = builder
        .with_pool(2)
        .with(moves, "moves", &[])?
        .with_barrier()
        .with(brakes, "brakes", &[])?
        .with_thread_local(Now(last))?;
    Ok(builder.build_with_names())
}

/// At 0, with a speed of 5.
fn starting(alloc: Global) -> Result<World<Value>, WorldError> {
    let mut world: World<Value> = World::empty(alloc);
    world.insert(First(0))?;
    world.insert(Second(5))?;
    Ok(world)
}

/// Dispatches up to so many times, and says which system refused and why, where one did.
fn dispatched<R: Threads + Sync + Print>(
    rt: &R,
    both: &mut Dispatcher<Value, Staged>,
    names: &SystemNames,
    world: &mut World<Value>,
    times: u32,
) -> anyhow::Result<()> {
    for _ in 0..times {
        if let Err(error) = both.dispatch(rt, world) {
            let told = Told {
                names,
                error: &error,
            };
            println!(rt; "{told}")?;
            break;
        }
    }
    Ok(())
}

fn main(rt: HostRuntime) -> anyhow::Result<()> {
    let moves = OneOf::First(Plain(Moves));
    let brakes = OneOf::Second(Plain(Brakes));
    let last = OneOf::First(Plain(Moves));
    let (mut both, names) = planned(rt.alloc(), moves, brakes, last)?;
    let mut world = starting(rt.alloc())?;
    dispatched(&rt, &mut both, &names, &mut world, 10)?;
    let position = world.fetch::<Position>()?.0;
    println!(rt; "position {position}")?;
    Ok(())
}
