//! The world and its calls, as rows of a call and its answer.
use shred_world::{
    DefaultProvider, Kind, PanicHandler, ReplaceError, ResourceId, Resources, SetupHandler, Steps,
    World, WorldError, check_intersection,
};
use std::alloc::Global;
use std::process::Abort;
use std::test::Fail;
use test_values::{Count, Name, Value};

/// A call of a world, for a count. One by an id is for a number of kind 0, or for the id of a name where it says so.
#[derive(Clone, Copy)]
enum Call {
    HasValue,
    HasValueOfName,
    HasValueRaw(u64),
    Insert(i64),
    InsertById(u64, i64),
    InsertUnderName(i64),
    Remove,
    RemoveById(u64),
    Fetch,
    TryFetch,
    TryFetchById(u64),
    TryFetchUnderName,
    /// What is got to write is set, and the answer is what it was.
    FetchMut(i64),
    GetMut(i64),
    TryFetchMut(i64),
    TryFetchMutById(u64, i64),
    /// The count of the entry is set to the second number, if there is one, and the answer is what it was.
    OrInsert(i64, Option<i64>),
    ProvideDefault,
    ProvideNothing,
}

/// What a call answers.
type Answer = Result<Option<i64>, WorldError>;

/// A call and its answer: what it shows, if it shows something.
type Row = (Call, Option<i64>);

/// The answer of a call that tells whether something is held, where something is.
const IS: Option<i64> = Some(1);

fn truth(is: bool) -> Answer {
    Ok(if is { IS } else { None })
}

fn number(dynamic_id: u64) -> ResourceId {
    ResourceId::from_type_id_and_dynamic_id(Kind(0), dynamic_id)
}

fn name_id() -> ResourceId {
    ResourceId::from_type_id(Kind(1))
}

fn done(answer: Result<(), WorldError>) -> Answer {
    match answer {
        Ok(()) => Ok(None),
        Err(error) => Err(error),
    }
}

fn insert(world: &mut World<Value>, value: i64) -> Answer {
    done(world.insert(Count(value)))
}

fn insert_by_id(world: &mut World<Value>, id: ResourceId, value: i64) -> Answer {
    done(world.insert_by_id(id, Count(value)))
}

fn remove(world: &mut World<Value>) -> Answer {
    match world.remove::<Count>() {
        Some(count) => Ok(Some(count.0)),
        None => Ok(None),
    }
}

fn remove_by_id(world: &mut World<Value>, id: ResourceId) -> Answer {
    match world.remove_by_id::<Count>(id) {
        Ok(Some(count)) => Ok(Some(count.0)),
        Ok(None) => Ok(None),
        Err(error) => Err(error),
    }
}

fn fetch(world: &World<Value>) -> Answer {
    match world.fetch::<Count>() {
        Ok(count) => Ok(Some(count.0)),
        Err(error) => Err(error),
    }
}

fn try_fetch(world: &World<Value>) -> Answer {
    match world.try_fetch::<Count>() {
        Some(count) => Ok(Some(count.0)),
        None => Ok(None),
    }
}

fn try_fetch_by_id(world: &World<Value>, id: ResourceId) -> Answer {
    match world.try_fetch_by_id::<Count>(id) {
        Ok(Some(count)) => Ok(Some(count.0)),
        Ok(None) => Ok(None),
        Err(error) => Err(error),
    }
}

// Sets what was got to write, if something was.
fn set(got: Option<&mut Count>, value: i64) -> Answer {
    match got {
        Some(count) => {
            let was = count.0;
            count.0 = value;
            Ok(Some(was))
        }
        None => Ok(None),
    }
}

fn set_or_refused(got: Result<&mut Count, WorldError>, value: i64) -> Answer {
    match got {
        Ok(count) => set(Some(count), value),
        Err(error) => Err(error),
    }
}

fn fetch_mut(world: &mut World<Value>, value: i64) -> Answer {
    set_or_refused(world.fetch_mut(), value)
}

fn get_mut(world: &mut World<Value>, value: i64) -> Answer {
    set(world.get_mut(), value)
}

fn try_fetch_mut(world: &mut World<Value>, value: i64) -> Answer {
    set(world.try_fetch_mut(), value)
}

fn try_fetch_mut_by_id(world: &mut World<Value>, id: ResourceId, value: i64) -> Answer {
    set_or_refused(world.try_fetch_mut_by_id(id), value)
}

fn or_insert(world: &mut World<Value>, new: i64, value: Option<i64>) -> Answer {
    match world.entry().or_insert(Count(new)) {
        Ok(count) => {
            let shown = count.0;
            set(Some(count), value.unwrap_or(shown))
        }
        Err(error) => Err(error),
    }
}

fn provide<F: SetupHandler<Value, Count>>(world: &mut World<Value>) -> Answer {
    done(F::setup(world))
}

fn answer_of(world: &mut World<Value>, call: Call) -> Answer {
    match call {
        Call::HasValue => truth(world.has_value::<Count>()),
        Call::HasValueOfName => truth(world.has_value::<Name>()),
        Call::HasValueRaw(id) => truth(world.has_value_raw(number(id))),
        Call::Insert(value) => insert(world, value),
        Call::InsertById(id, value) => insert_by_id(world, number(id), value),
        Call::InsertUnderName(value) => insert_by_id(world, name_id(), value),
        Call::Remove => remove(world),
        Call::RemoveById(id) => remove_by_id(world, number(id)),
        Call::Fetch => fetch(world),
        Call::TryFetch => try_fetch(world),
        Call::TryFetchById(id) => try_fetch_by_id(world, number(id)),
        Call::TryFetchUnderName => try_fetch_by_id(world, name_id()),
        Call::FetchMut(value) => fetch_mut(world, value),
        Call::GetMut(value) => get_mut(world, value),
        Call::TryFetchMut(value) => try_fetch_mut(world, value),
        Call::TryFetchMutById(id, value) => try_fetch_mut_by_id(world, number(id), value),
        Call::OrInsert(new, value) => or_insert(world, new, value),
        Call::ProvideDefault => provide::<DefaultProvider>(world),
        Call::ProvideNothing => provide::<PanicHandler>(world),
    }
}

/// The calls of a world that held nothing, one after the other, have these answers.
fn expect(rt: &impl Abort, alloc: Global, rows: &[Row]) {
    let mut world: Resources<Value> = Resources::default(alloc);
    for (call, shown) in rows {
        assert_eq!(rt; answer_of(&mut world, *call), Ok(*shown));
    }
}

#[test]
fn ids_are_ordered_by_kind_and_then_by_number(rt: HostRuntime) -> Result<(), Fail> {
    let low = ResourceId::from_type_id_and_dynamic_id(Kind(0), 5);
    let high = ResourceId::from_type_id_and_dynamic_id(Kind(1), 0);
    assert!(rt; low < high);
    assert!(rt; number(2) < low);
    assert_eq!(rt; low.kind(), Kind(0));
    assert_eq!(rt; low.dynamic_id(), 5);
    assert_eq!(rt; ResourceId::from_type_id(Kind(1)), high);
    assert_eq!(rt; ResourceId::new_with_dynamic_id::<Value, Count>(5), low);
    Ok(())
}

#[test]
fn lists_that_share_an_item(rt: HostRuntime) -> Result<(), Fail> {
    assert!(rt; check_intersection(&[1, 5], &[2, 5]));
    Ok(())
}

/// Numbers tell values of one kind apart.
const APART: &[Row] = &[
    (Call::InsertById(1, 5), None),
    (Call::InsertById(2, 15), None),
    (Call::InsertById(3, 45), None),
    (Call::TryFetchById(2), Some(15)),
    (Call::TryFetchById(1), Some(5)),
    (Call::TryFetchById(3), Some(45)),
    (Call::HasValueRaw(3), IS),
    (Call::HasValueRaw(4), None),
    (Call::RemoveById(2), Some(15)),
    (Call::TryFetchById(2), None),
];

/// A second insert takes the place of the first, and what was removed can be inserted again.
const INSERTED: &[Row] = &[
    (Call::Insert(5), None),
    (Call::Insert(6), None),
    (Call::Fetch, Some(6)),
    (Call::HasValue, IS),
    (Call::HasValueOfName, None),
    (Call::Remove, Some(6)),
    (Call::HasValue, None),
    (Call::Insert(7), None),
    (Call::TryFetch, Some(7)),
];

/// What is written is seen.
const WRITTEN: &[Row] = &[
    (Call::Insert(5), None),
    (Call::InsertById(2, 15), None),
    (Call::FetchMut(6), Some(5)),
    (Call::GetMut(7), Some(6)),
    (Call::TryFetchMut(14), Some(7)),
    (Call::TryFetchMutById(2, 16), Some(15)),
    (Call::TryFetch, Some(14)),
    (Call::TryFetchById(2), Some(16)),
];

/// An entry keeps what is held.
const ENTERED: &[Row] = &[
    (Call::OrInsert(4, None), Some(4)),
    (Call::HasValue, IS),
    (Call::HasValueOfName, None),
    (Call::OrInsert(9, None), Some(4)),
    (Call::OrInsert(9, Some(5)), Some(4)),
    (Call::TryFetch, Some(5)),
];

/// The default is provided where nothing is held, and no provider provides nothing.
const PROVIDED: &[Row] = &[
    (Call::ProvideNothing, None),
    (Call::TryFetch, None),
    (Call::ProvideDefault, None),
    (Call::TryFetch, Some(0)),
    (Call::FetchMut(3), Some(0)),
    (Call::ProvideDefault, None),
    (Call::TryFetch, Some(3)),
];

#[test]
fn calls_of_a_world_show_what_it_holds(rt: HostRuntime) -> Result<(), Fail> {
    for rows in [APART, INSERTED, WRITTEN, ENTERED, PROVIDED] {
        expect(&rt, rt.alloc(), rows);
    }
    Ok(())
}

#[test]
fn the_kind_is_tested_first(rt: HostRuntime) -> Result<(), Fail> {
    let mut world: World<Value> = World::empty(rt.alloc());
    let wrong = Err(WorldError::WrongKind {
        asked: Kind(0),
        found: Kind(1),
    });
    for call in [Call::InsertUnderName(1), Call::TryFetchUnderName] {
        assert_eq!(rt; answer_of(&mut world, call), wrong);
    }
    assert_eq!(rt; answer_of(&mut world, Call::HasValueOfName), Ok(None));
    Ok(())
}

/// What an entry shows after `or_insert_with`, and whether its closure was called.
fn or_insert_with(world: &mut World<Value>, new: i64) -> (Answer, bool) {
    let mut called = false;
    let shown = match world.entry::<Count>().or_insert_with(|| {
        called = true;
        Count(new)
    }) {
        Ok(count) => Ok(Some(count.0)),
        Err(error) => Err(error),
    };
    (shown, called)
}

#[test]
fn an_entry_asks_only_where_nothing_is_held(rt: HostRuntime) -> Result<(), Fail> {
    let mut world: World<Value> = World::empty(rt.alloc());
    assert_eq!(rt; or_insert_with(&mut world, 5), (Ok(Some(5)), true));
    assert_eq!(rt; or_insert_with(&mut world, 6), (Ok(Some(5)), false));
    Ok(())
}

/// The world answers so where the value is to replace what is held under the number.
fn expect_replaced(
    rt: &impl Abort,
    world: &mut World<Value>,
    dynamic_id: u64,
    value: Value,
    answer: Result<Value, ReplaceError<Value>>,
) {
    assert_eq!(rt; world.replace_raw(number(dynamic_id), value), answer);
}

#[test]
fn a_value_is_replaced_or_handed_back(rt: HostRuntime) -> Result<(), Fail> {
    let mut world: World<Value> = World::empty(rt.alloc());
    assert_eq!(rt; insert(&mut world, 1), Ok(None));
    let nine = Value::Count(Count(9));
    expect_replaced(&rt, &mut world, 0, nine, Ok(Value::Count(Count(1))));
    let wrong = Err(ReplaceError::WrongKind {
        asked: Kind(1),
        found: Kind(0),
        value: Value::Name(Name(2)),
    });
    expect_replaced(&rt, &mut world, 0, Value::Name(Name(2)), wrong);
    let missing = Err(ReplaceError::Missing {
        id: number(4),
        value: Value::Count(Count(9)),
    });
    expect_replaced(&rt, &mut world, 4, Value::Count(Count(9)), missing);
    assert_eq!(rt; try_fetch(&world), Ok(Some(9)));
    Ok(())
}

fn slot(world: &World<Value>, id: ResourceId) -> Option<usize> {
    world.slot_of(id, &mut Steps::new())
}

#[test]
fn a_slot_is_the_number_of_held_ids_before_it(rt: HostRuntime) -> Result<(), Fail> {
    let mut world: World<Value> = World::empty(rt.alloc());
    assert_eq!(rt; slot(&world, number(2)), None);
    assert_eq!(rt; insert_by_id(&mut world, number(5), 1), Ok(None));
    assert_eq!(rt; done(world.insert(Name(2))), Ok(None));
    assert_eq!(rt; insert_by_id(&mut world, number(2), 3), Ok(None));
    assert_eq!(rt; slot(&world, number(2)), Some(0));
    assert_eq!(rt; slot(&world, number(5)), Some(1));
    assert_eq!(rt; slot(&world, name_id()), Some(2));
    assert_eq!(rt; slot(&world, number(3)), None);
    assert_eq!(rt; remove_by_id(&mut world, number(2)), Ok(Some(3)));
    assert_eq!(rt; slot(&world, number(5)), Some(0));
    Ok(())
}
