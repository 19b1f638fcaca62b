//! Systems that read what lies behind the hands of batches, on workers that are kept.

use shred::prelude::*;
use shred::{KeptDispatcher, third_system};
use std::alloc::Global;
use std::process::Abort;
use std::sync::Wait;
use std::test::Fail;
use std::thread::Threads;

type Value = OneOf4<i64, i64, i64, i64>;

/// The second number grows by the first.
#[derive(Drop)]
struct Grows;

impl TypedSystem<Value> for Grows {
    type Data = Uses<First<i64>, Second<i64>>;

    fn run(&mut self, view: &View<Value>, second: &mut Second<i64>) -> Ran {
        second.0 = second.0.wrapping_add(view.fetch::<First<i64>>()?.0);
        Ok(())
    }
}

/// The third grows by the first and the second.
#[derive(Drop)]
struct Sums;

impl TypedSystem<Value> for Sums {
    type Data = Uses<(First<i64>, Second<i64>), Third<i64>>;

    fn run(&mut self, view: &View<Value>, third: &mut Third<i64>) -> Ran {
        let first = view.fetch::<First<i64>>()?.0;
        let both = first.wrapping_add(view.fetch::<Second<i64>>()?.0);
        third.0 = third.0.wrapping_add(both);
        Ok(())
    }
}

/// The fourth grows by the second.
#[derive(Drop)]
struct Follows;

impl TypedSystem<Value> for Follows {
    type Data = Uses<Second<i64>, Fourth<i64>>;

    fn run(&mut self, view: &View<Value>, fourth: &mut Fourth<i64>) -> Ran {
        fourth.0 = fourth.0.wrapping_add(view.fetch::<Second<i64>>()?.0);
        Ok(())
    }
}

/// Looks at the first.
#[derive(Drop)]
struct Looks;

impl TypedSystem<Value> for Looks {
    type Data = Uses<First<i64>, ()>;

    fn run(&mut self, view: &View<Value>, _written: &mut ()) -> Ran {
        let _ = view.fetch::<First<i64>>()?.0;
        Ok(())
    }
}

type All = Systems4<Typed<Grows>, Typed<Sums>, Typed<Follows>, Typed<Looks>>;

type Builder = DispatcherBuilder<Value, All, Rounds<DataError>>;

/// A stage of the first, and a stage of the next two.
fn growing(alloc: Global) -> Result<Builder, AddError> {
    let builder: Builder = DispatcherBuilder::new(alloc);
    builder
        .with(first_system(Typed(Grows)), "grows", &[])?
        .with(second_system(Typed(Sums)), "", &["grows"])?
        .with(third_system(Typed(Follows)), "", &["grows"])
}

/// The plan in a batch, and one who looks beside it.
fn looked_at(alloc: Global, inner: Builder) -> Result<Builder, AddError> {
    let builder: Builder = DispatcherBuilder::new(alloc);
    builder
        .with_batch(Rounds::new(1), inner, "", &[])?
        .with(fourth_system(Typed(Looks)), "", &[])
}

/// Ten dispatches on so many threads, of a batch within so many batches, make these numbers of 2 and three times 0.
fn expect_after_ten<R: Abort + AllocGlobal + Threads + Wait + Clone + Drop + Send + 'static>(
    rt: &R,
    levels: u32,
    threads: usize,
    expected: [i64; 4],
) -> Result<(), Fail> {
    let mut builder = growing(rt.alloc())?;
    for _ in 0..levels {
        builder = looked_at(rt.alloc(), builder)?;
    }
    let Ok(mut kept) = builder.with_pool(threads).build().keep(rt, rt.alloc(), 0) else {
        return Err(OutOfMemory.into());
    };
    let mut world: World<Value> = World::empty(rt.alloc());
    world.insert(First(2))?;
    world.insert(Second(0))?;
    world.insert(Third(0))?;
    world.insert(Fourth(0))?;
    for _ in 0..10 {
        assert!(rt; kept.dispatch_par(&mut world).is_ok());
    }
    let second = world.fetch::<Second<i64>>()?.0;
    let third = world.fetch::<Third<i64>>()?.0;
    let fourth = world.fetch::<Fourth<i64>>()?.0;
    assert_eq!(rt; [2, second, third, fourth], expected);
    Ok(())
}

/// The second is twice the number of the dispatch in each; the third sums this and 2, and the fourth sums it.
#[test]
fn what_lies_behind_batches_is_read_on_workers(rt: HostRuntime) -> Result<(), Fail> {
    for levels in [0, 1, 2] {
        for threads in [1, 2, 3, 8] {
            expect_after_ten(&rt, levels, threads, [2, 20, 130, 110])?;
        }
    }
    Ok(())
}
