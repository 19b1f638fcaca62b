//! Systems that name what they read and write by its types, alone and in rounds.

use shred::prelude::*;
use shred::{
    Counted, DispatchError, NoBatch, OneOf, RunNow, SystemId, first_id, second_id, third_id,
};
use std::alloc::Global;
use std::process::Abort;
use std::test::Fail;

type Value = OneOf4<i64, i64, i64, i64>;

/// Each number moves on by one place, and the last to the first.
#[derive(Drop)]
struct Turns;

impl TypedSystem<Value> for Turns {
    type Data = Uses<(), (First<i64>, Second<i64>, Third<i64>, Fourth<i64>)>;

    fn run(
        &mut self,
        _view: &View<Value>,
        written: &mut (First<i64>, Second<i64>, Third<i64>, Fourth<i64>),
    ) -> Ran {
        let last = written.3.0;
        written.3.0 = written.2.0;
        written.2.0 = written.1.0;
        written.1.0 = written.0.0;
        written.0.0 = last;
        Ok(())
    }
}

/// The third number becomes what the first two are together.
#[derive(Drop)]
struct Sums;

impl TypedSystem<Value> for Sums {
    type Data = Uses<(First<i64>, Second<i64>), Third<i64>>;

    fn run(&mut self, view: &View<Value>, third: &mut Third<i64>) -> Ran {
        let first = view.fetch::<First<i64>>()?.0;
        third.0 = first.wrapping_add(view.fetch::<Second<i64>>()?.0);
        Ok(())
    }
}

type Both = Systems2<Typed<Turns>, Typed<Sums>>;

/// The numbers that the world holds, and 0 where it holds none.
fn numbers(world: &World<Value>) -> [i64; 4] {
    let first = world.try_fetch::<First<i64>>().map_or(0, |held| held.0);
    let second = world.try_fetch::<Second<i64>>().map_or(0, |held| held.0);
    let third = world.try_fetch::<Third<i64>>().map_or(0, |held| held.0);
    let fourth = world.try_fetch::<Fourth<i64>>().map_or(0, |held| held.0);
    [first, second, third, fourth]
}

/// The second number becomes twice the first.
#[derive(Drop)]
struct Doubles;

impl ReadsWrites<First<i64>, Second<i64>> for Doubles {
    fn run(&mut self, first: &First<i64>, second: &mut Second<i64>) {
        second.0 = first.0.wrapping_mul(2);
    }
}

/// The first two numbers change places.
#[derive(Drop)]
struct Swaps;

impl Writes<(First<i64>, Second<i64>)> for Swaps {
    fn run(&mut self, written: &mut (First<i64>, Second<i64>)) {
        let first = written.0.0;
        written.0.0 = written.1.0;
        written.1.0 = first;
    }
}

/// Reads what it writes, which no view allows.
#[derive(Drop)]
struct Overlaps;

impl ReadsWrites<First<i64>, First<i64>> for Overlaps {
    fn run(&mut self, _read: &First<i64>, written: &mut First<i64>) {
        written.0 = 0;
    }
}

/// Why a system refuses.
#[derive(Debug, Drop, PartialEq)]
enum Stopped {
    TooSmall,
    NotRising,
    Data(DataError),
}

impl From<DataError> for Stopped {
    fn from(error: DataError) -> Self {
        Stopped::Data(error)
    }
}

/// The last two numbers become the sum and the difference of the first two. It refuses where the first is smaller, once it has
/// written the sum.
#[derive(Drop)]
struct Splits;

impl TryReads2Writes<First<i64>, Second<i64>, (Third<i64>, Fourth<i64>), Stopped> for Splits {
    fn run(
        &mut self,
        first: &First<i64>,
        second: &Second<i64>,
        (sum, difference): &mut (Third<i64>, Fourth<i64>),
    ) -> Result<(), Stopped> {
        sum.0 = first.0.wrapping_add(second.0);
        if first.0 < second.0 {
            return Err(Stopped::TooSmall);
        }
        difference.0 = first.0.wrapping_sub(second.0);
        Ok(())
    }
}

/// The last number gets the digits of the first three.
#[derive(Drop)]
struct Digits;

impl Reads3Writes<First<i64>, Second<i64>, Third<i64>, Fourth<i64>> for Digits {
    fn run(
        &mut self,
        first: &First<i64>,
        second: &Second<i64>,
        third: &Third<i64>,
        fourth: &mut Fourth<i64>,
    ) {
        let tens = first.0.wrapping_mul(10).wrapping_add(second.0);
        fourth.0 = tens.wrapping_mul(10).wrapping_add(third.0);
    }
}

/// Refuses where the numbers do not rise.
#[derive(Drop)]
struct Rises;

impl TryReads4Writes<First<i64>, Second<i64>, Third<i64>, Fourth<i64>, (), Stopped> for Rises {
    fn run(
        &mut self,
        first: &First<i64>,
        second: &Second<i64>,
        third: &Third<i64>,
        fourth: &Fourth<i64>,
        _none: &mut (),
    ) -> Result<(), Stopped> {
        if first.0 < second.0 && second.0 < third.0 && third.0 < fourth.0 {
            Ok(())
        } else {
            Err(Stopped::NotRising)
        }
    }
}

/// The first number falls by one, and refuses to fall below 0.
#[derive(Drop)]
struct Falls;

impl TryWrites<First<i64>, Stopped> for Falls {
    fn run(&mut self, first: &mut First<i64>) -> Result<(), Stopped> {
        if first.0 <= 0 {
            return Err(Stopped::TooSmall);
        }
        first.0 -= 1;
        Ok(())
    }
}

/// Whether the run was refused by this error.
fn is_stopped_by(ran: Ran<Stopped>, error: Stopped) -> bool {
    match ran {
        Err(Fault::Refused(told)) => told == error,
        _ => false,
    }
}

/// Whether the run was refused by this error.
fn is_refused_by(ran: Ran, error: DataError) -> bool {
    match ran {
        Err(Fault::Refused(told)) => told == error,
        _ => false,
    }
}

#[test]
fn passed_systems_write_by_what_they_read(rt: HostRuntime) -> Result<(), Fail> {
    let mut both: Dispatcher<Value, Systems2<_, _>> = DispatcherBuilder::new(rt.alloc())
        .with(first_system(Doubles.into_system()), "doubles", &[])?
        .with(second_system(Swaps.into_system()), "swaps", &["doubles"])?
        .build();
    let mut world = World::empty(rt.alloc());
    world.insert(First(3))?;
    world.insert(Second(1))?;
    assert!(rt; both.dispatch(&rt, &mut world).is_ok());
    assert_eq!(rt; numbers(&world), [6, 3, 0, 0]);
    assert!(rt; both.dispatch(&rt, &mut world).is_ok());
    assert_eq!(rt; numbers(&world), [12, 6, 0, 0]);
    Ok(())
}

#[test]
fn a_counted_system_counts_its_runs_and_refusals(rt: HostRuntime) -> Result<(), Fail> {
    let mut doubles = Now(Counted::new(Doubles.into_system()));
    let mut world: World<Value> = World::empty(rt.alloc());
    world.insert(Second(1))?;
    assert!(rt;
        is_refused_by(
            doubles.run_now(&rt, world.local()),
            DataError::Missing(first_id(0))
        )
    );
    assert_eq!(rt; numbers(&world), [0, 1, 0, 0]);
    world.insert(First(3))?;
    assert!(rt; doubles.run_now(&rt, world.local()).is_ok());
    assert!(rt; doubles.run_now(&rt, world.local()).is_ok());
    assert_eq!(rt; numbers(&world), [3, 6, 0, 0]);
    world.remove::<Second<i64>>();
    assert!(rt;
        is_refused_by(
            doubles.run_now(&rt, world.local()),
            DataError::Missing(second_id(0))
        )
    );
    assert_eq!(rt; doubles.0.runs(), 4);
    assert_eq!(rt; doubles.0.refusals(), 2);
    Ok(())
}

type Counts = Systems2<
    Counted<PassedSystem<Doubles, (First<i64>,), Second<i64>>>,
    Counted<PassedSystem<Swaps, (), (First<i64>, Second<i64>)>>,
>;

/// The runs and the refusals of the system of this id, if there is one.
fn counts_of(dispatcher: &Dispatcher<Value, Counts>, id: SystemId) -> Option<[u64; 2]> {
    match dispatcher.system(id)? {
        OneOf::First(doubles) => Some([doubles.runs(), doubles.refusals()]),
        OneOf::Second(OneOf::First(swaps)) => Some([swaps.runs(), swaps.refusals()]),
        OneOf::Second(OneOf::Second(_)) => None,
    }
}

#[test]
fn counts_are_seen_in_a_dispatcher(rt: HostRuntime) -> Result<(), Fail> {
    let builder: DispatcherBuilder<Value, Counts> = DispatcherBuilder::new(rt.alloc());
    let doubles = first_system(Counted::new(Doubles.into_system()));
    let swaps = second_system(Counted::new(Swaps.into_system()));
    let (mut both, names) = builder
        .with(doubles, "doubles", &[])?
        .with(swaps, "swaps", &["doubles"])?
        .build_with_names();
    let mut world = World::empty(rt.alloc());
    world.insert(First(3))?;
    world.insert(Second(1))?;
    assert!(rt; both.dispatch(&rt, &mut world).is_ok());
    assert!(rt; both.dispatch(&rt, &mut world).is_ok());
    world.remove::<Second<i64>>();
    assert!(rt; both.dispatch(&rt, &mut world).is_err());
    assert_eq!(rt; counts_of(&both, SystemId(0)), Some([3, 1]));
    assert_eq!(rt; names.id_of("swaps"), Some(SystemId(1)));
    assert_eq!(rt; counts_of(&both, SystemId(1)), Some([2, 0]));
    assert_eq!(rt; counts_of(&both, SystemId(2)), None);
    Ok(())
}

#[test]
fn what_is_written_may_not_be_read(rt: HostRuntime) -> Result<(), Fail> {
    let mut overlaps = Now(Overlaps.into_system());
    let mut world: World<Value> = World::empty(rt.alloc());
    world.insert(First(3))?;
    assert!(rt;
        is_refused_by(
            overlaps.run_now(&rt, world.local()),
            DataError::Taken(first_id(0))
        )
    );
    assert_eq!(rt; numbers(&world), [3, 0, 0, 0]);
    Ok(())
}

/// A world of these four numbers.
fn world_of(alloc: Global, numbers: [i64; 4]) -> Result<World<Value>, WorldError> {
    let [first, second, third, fourth] = numbers;
    let mut world = World::empty(alloc);
    world.insert(First(first))?;
    world.insert(Second(second))?;
    world.insert(Third(third))?;
    world.insert(Fourth(fourth))?;
    Ok(world)
}

#[test]
fn two_are_read_and_two_written_up_to_a_refusal(rt: HostRuntime) -> Result<(), Fail> {
    let mut splits = Now(Splits.into_system());
    let mut world = world_of(rt.alloc(), [7, 3, 0, 0])?;
    assert!(rt; splits.run_now(&rt, world.local()).is_ok());
    assert_eq!(rt; numbers(&world), [7, 3, 10, 4]);
    world.insert(First(2))?;
    let ran = splits.run_now(&rt, world.local());
    assert!(rt; is_stopped_by(ran, Stopped::TooSmall));
    assert_eq!(rt; numbers(&world), [2, 3, 5, 4]);
    Ok(())
}

#[test]
fn a_later_read_that_is_missing_is_told(rt: HostRuntime) -> Result<(), Fail> {
    let mut splits = Now(Splits.into_system());
    let mut world = world_of(rt.alloc(), [7, 3, 1, 2])?;
    world.remove::<Second<i64>>();
    let ran = splits.run_now(&rt, world.local());
    let second = Stopped::Data(DataError::Missing(second_id(0)));
    assert!(rt; is_stopped_by(ran, second));
    assert_eq!(rt; numbers(&world), [7, 0, 1, 2]);
    Ok(())
}

#[test]
fn the_first_read_that_is_missing_is_told(rt: HostRuntime) -> Result<(), Fail> {
    let mut splits = Now(Splits.into_system());
    let mut world: World<Value> = World::empty(rt.alloc());
    world.insert(Third(1))?;
    world.insert(Fourth(2))?;
    let ran = splits.run_now(&rt, world.local());
    let first = Stopped::Data(DataError::Missing(first_id(0)));
    assert!(rt; is_stopped_by(ran, first));
    assert_eq!(rt; numbers(&world), [0, 0, 1, 2]);
    Ok(())
}

#[test]
fn three_are_read_by_their_places(rt: HostRuntime) -> Result<(), Fail> {
    let mut digits = Now(Digits.into_system());
    let mut world = world_of(rt.alloc(), [2, 3, 4, 0])?;
    assert!(rt; digits.run_now(&rt, world.local()).is_ok());
    assert_eq!(rt; numbers(&world), [2, 3, 4, 234]);
    Ok(())
}

#[test]
fn four_are_read_and_one_that_does_not_rise_refuses(rt: HostRuntime) -> Result<(), Fail> {
    let mut rises = Now(Rises.into_system());
    let mut world = world_of(rt.alloc(), [1, 3, 4, 4])?;
    let ran = rises.run_now(&rt, world.local());
    assert!(rt; is_stopped_by(ran, Stopped::NotRising));
    assert_eq!(rt; numbers(&world), [1, 3, 4, 4]);
    Ok(())
}

#[test]
fn a_system_that_only_writes_may_refuse(rt: HostRuntime) -> Result<(), Fail> {
    let mut falls = Now(Falls.into_system());
    let mut world = world_of(rt.alloc(), [1, 0, 0, 0])?;
    assert!(rt; falls.run_now(&rt, world.local()).is_ok());
    assert_eq!(rt; numbers(&world), [0, 0, 0, 0]);
    let ran = falls.run_now(&rt, world.local());
    assert!(rt; is_stopped_by(ran, Stopped::TooSmall));
    assert_eq!(rt; numbers(&world), [0, 0, 0, 0]);
    Ok(())
}

#[test]
fn typed_systems_write_what_they_name(rt: HostRuntime) -> Result<(), Fail> {
    let mut both: Dispatcher<Value, Both> = DispatcherBuilder::new(rt.alloc())
        .with(first_system(Typed(Turns)), "turns", &[])?
        .with(second_system(Typed(Sums)), "sums", &["turns"])?
        .build();
    let mut world = World::empty(rt.alloc());
    world.insert(First(1))?;
    world.insert(Second(2))?;
    world.insert(Third(3))?;
    world.insert(Fourth(4))?;
    assert!(rt; both.dispatch(&rt, &mut world).is_ok());
    assert_eq!(rt; numbers(&world), [4, 1, 5, 3]);
    Ok(())
}

#[test]
fn a_batch_of_rounds_runs_its_plan_as_often(rt: HostRuntime) -> Result<(), Fail> {
    let inner = DispatcherBuilder::new(rt.alloc()).with(Typed(Turns), "turns", &[])?;
    let mut outer: Dispatcher<Value, Typed<Turns>, Rounds<DataError>> = DispatcherBuilder::new(
        rt.alloc(),
    ).with_batch(Rounds::new(3), inner, "three", &[])?
        .build();
    let mut world = World::empty(rt.alloc());
    world.insert(First(1))?;
    world.insert(Second(2))?;
    world.insert(Third(3))?;
    world.insert(Fourth(4))?;
    assert!(rt; outer.dispatch(&rt, &mut world).is_ok());
    assert_eq!(rt; numbers(&world), [2, 3, 4, 1]);
    assert!(rt; outer.system(SystemId(0)).is_none());
    Ok(())
}

#[test]
fn a_missing_resource_is_told_before_the_run(rt: HostRuntime) -> Result<(), Fail> {
    let mut turns: Dispatcher<Value, Typed<Turns>, NoBatch<DataError>> = DispatcherBuilder::new(
        rt.alloc(),
    ).with(Typed(Turns), "turns", &[])?
        .build();
    let mut world = World::empty(rt.alloc());
    world.insert(First(1))?;
    world.insert(Second(2))?;
    world.insert(Fourth(4))?;
    let missing = match turns.dispatch(&rt, &mut world) {
        Err(
            DispatchError::System {
                id: SystemId(0),
                fault: Fault::Refused(DataError::Missing(id)),
            },
        ) => id == third_id(0),
        _ => false,
    };
    assert!(rt; missing);
    assert_eq!(rt; numbers(&world), [1, 2, 0, 4]);
    Ok(())
}
