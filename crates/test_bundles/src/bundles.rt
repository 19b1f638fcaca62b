//! Bundles that are taken of views and given back, single reads and writes of views, and bundles by an accessor.
use crate::chosen::{Choice, Chosen};
use crate::shown::{Answer, empty, expect_answer, expect_number, world_of};
use shred_world::{
    BatchAccessor, DataError, DynamicSystemData, Fetch, Kind, Read, ReadExpect, ResourceId,
    SystemData, View, World, WriteExpect,
};
use std::alloc::Global;
use std::test::Fail;
use test_values::{Count, Flag, Name, Value, count_in, name_in};

const X: Kind = Kind(0);

const Y: Kind = Kind(1);

const Z: Kind = Kind(2);

fn id(kind: Kind) -> ResourceId {
    ResourceId::from_type_id(kind)
}

// What a bundle that reads the count shows.
fn count_shown(view: &mut View<Value>) -> Answer {
    match view.system_data::<Read<Count>>() {
        Ok(count) => {
            let shown = count.0;
            view.give_back(count);
            Ok(Some(shown))
        }
        Err(error) => Err(error),
    }
}

// What two reads of the count show at once, where both show the same.
fn count_shown_twice(view: &mut View<Value>) -> Answer {
    match view.system_data::<(Read<Count>, Read<Count>)>() {
        Ok(both) => {
            let shown = (both.0.0 == both.1.0).then_some(both.0.0);
            view.give_back(both);
            Ok(shown)
        }
        Err(error) => Err(error),
    }
}

// What a bundle is refused for; one that is not refused is given back, and shows nothing.
fn refusal<'s, D: SystemData<'s, Value>>(view: &mut View<'s, '_, Value>) -> Answer {
    match view.system_data::<D>() {
        Ok(bundle) => {
            view.give_back(bundle);
            Ok(None)
        }
        Err(error) => Err(error),
    }
}

fn refusal_to_write_count(view: &mut View<Value>) -> Answer {
    refusal::<WriteExpect<Count>>(view)
}

fn refusal_to_read_flag(view: &mut View<Value>) -> Answer {
    refusal::<Read<Flag>>(view)
}

fn refusal_to_write_name(view: &mut View<Value>) -> Answer {
    refusal::<WriteExpect<Name>>(view)
}

fn refusal_to_write_and_read_name(view: &mut View<Value>) -> Answer {
    refusal::<(WriteExpect<Name>, ReadExpect<Name>)>(view)
}

// Takes the name, sets it and gives it back. The answer is what a read of it was refused for meanwhile; and it shows
// nothing where no name is held.
fn set_name_if_held(view: &mut View<Value>, name: u8) -> Answer {
    match view.system_data::<Option<WriteExpect<Name>>>() {
        Ok(Some(mut held)) => {
            *held = Name(name);
            let refused = view.read::<Name>(id(Y)).err();
            view.give_back(Some(held));
            match refused {
                Some(error) => Err(error),
                None => Ok(Some(i64::from(name))),
            }
        }
        Ok(None) => Ok(None),
        Err(error) => Err(error),
    }
}

// The count that a view reads after it wrote it.
fn written_and_read(view: &mut View<Value>, count: i64) -> Answer {
    if let Ok(held) = view.write::<Count>(id(X)) {
        *held = Count(count);
    }
    match view.read::<Count>(id(X)) {
        Ok(count) => Ok(Some(count.0)),
        Err(error) => Err(error),
    }
}

// What the read of a clone of the fetch shows. It is given back to the view, of which it was not taken.
fn shown_by_clone<'s>(view: &mut View<'s, '_, Value>, fetch: &Fetch<'s, Count>) -> Answer {
    match fetch.clone() {
        Ok(clone) => {
            let read: Read<Count> = Read::from(clone);
            let shown = read.0;
            view.give_back(read);
            Ok(Some(shown))
        }
        Err(_) => Ok(None),
    }
}

// The same for the count of another world.
fn shown_by_fetch<'s>(view: &mut View<'s, '_, Value>, fetched: &'s World<Value>) -> Answer {
    match fetched.fetch::<Count>() {
        Ok(fetch) => shown_by_clone(view, &fetch),
        Err(_) => Ok(None),
    }
}

// What a bundle shows that an accessor takes.
fn shown_by_accessor(view: &mut View<Value>, accessor: &BatchAccessor) -> Answer {
    match <Read<Count> as DynamicSystemData<Value>>::fetch(accessor, view) {
        Ok(count) => {
            let shown = count.0;
            DynamicSystemData::give_back(count, view);
            Ok(Some(shown))
        }
        Err(error) => Err(error),
    }
}

// What a bundle shows that the choice takes.
fn shown_by_choice(view: &mut View<Value>, choice: &Choice) -> Answer {
    match Chosen::fetch(choice, view) {
        Ok(chosen) => {
            let shown = match &chosen.count {
                Some(count) => Some(count.0),
                None => None,
            };
            chosen.give_back(view);
            Ok(shown)
        }
        Err(error) => Err(error),
    }
}

/// What a view is asked for.
#[derive(Clone, Copy)]
enum Asked<'s> {
    ReadCount,
    ReadCountTwice,
    WriteCount,
    ReadFlag,
    WriteName,
    WriteNameIfHeld,
    WriteAndReadName,
    WriteAndReadCount,
    ByFetch(&'s World<Value>),
    ByAccessor(&'s BatchAccessor),
    ByChoice(&'s Choice),
}

fn answer_of<'s>(view: &mut View<'s, '_, Value>, asked: Asked<'s>) -> Answer {
    match asked {
        Asked::ReadCount => count_shown(view),
        Asked::ReadCountTwice => count_shown_twice(view),
        Asked::WriteCount => refusal_to_write_count(view),
        Asked::ReadFlag => refusal_to_read_flag(view),
        Asked::WriteName => refusal_to_write_name(view),
        Asked::WriteNameIfHeld => set_name_if_held(view, 7),
        Asked::WriteAndReadName => refusal_to_write_and_read_name(view),
        Asked::WriteAndReadCount => written_and_read(view, 4),
        Asked::ByFetch(fetched) => shown_by_fetch(view, fetched),
        Asked::ByAccessor(accessor) => shown_by_accessor(view, accessor),
        Asked::ByChoice(choice) => shown_by_choice(view, choice),
    }
}

// The answer of a view that is narrowed to read the one kind and write the other.
fn answered(world: &mut World<Value>, read: Kind, written: Kind, asked: Asked) -> Answer {
    let reads = [id(read)];
    let writes = [id(written)];
    let mut view = world.lend(&reads, &writes);
    let mut narrowed = view.narrow(&reads, &writes);
    answer_of(&mut narrowed, asked)
}

// The answer of a view that the world lends to read the one kind and write the other.
fn answered_by_lent(world: &mut World<Value>, read: Kind, written: Kind, asked: Asked) -> Answer {
    let reads = [id(read)];
    let writes = [id(written)];
    let mut view = world.lend(&reads, &writes);
    answer_of(&mut view, asked)
}

#[test]
fn what_is_only_read_goes_out_twice_at_once(rt: HostRuntime) -> Result<(), Fail> {
    let mut world = world_of(rt.alloc(), Count(5))?;
    for (written, answer) in [(Y, Ok(Some(5))), (X, Err(DataError::Taken(id(X))))] {
        let lent = answered_by_lent(&mut world, X, written, Asked::ReadCountTwice);
        expect_answer(&rt, lent, answer);
        let narrowed = answered(&mut world, X, written, Asked::ReadCountTwice);
        expect_answer(&rt, narrowed, answer);
        expect_number(&rt, count_in(&world), Some(5));
    }
    Ok(())
}

#[test]
fn a_bundle_changes_nothing_that_is_only_read(rt: HostRuntime) -> Result<(), Fail> {
    let fetched = world_of(rt.alloc(), Count(5))?;
    let mut world = world_of(rt.alloc(), Count(1))?;
    for (asked, answer) in [
        (Asked::ReadCountTwice, Ok(Some(1))),
        (Asked::ByFetch(&fetched), Ok(Some(5))),
        (Asked::WriteCount, Err(DataError::Undeclared(id(X)))),
    ] {
        expect_answer(&rt, answered_by_lent(&mut world, X, Y, asked), answer);
        expect_number(&rt, count_in(&world), Some(1));
    }
    Ok(())
}

#[test]
fn parts_are_tested_in_their_order(rt: HostRuntime) -> Result<(), Fail> {
    let mut world = world_of(rt.alloc(), Count(1))?;
    for (asked, answer) in [
        (Asked::ReadCount, Ok(Some(1))),
        (Asked::WriteCount, Err(DataError::Undeclared(id(X)))),
        (Asked::ReadFlag, Err(DataError::Undeclared(id(Z)))),
        (Asked::WriteName, Err(DataError::Missing(id(Y)))),
        (Asked::WriteNameIfHeld, Ok(None)),
    ] {
        expect_answer(&rt, answered(&mut world, X, Y, asked), answer);
    }
    Ok(())
}

#[test]
fn a_written_id_goes_out_once(rt: HostRuntime) -> Result<(), Fail> {
    let mut world = world_of(rt.alloc(), Name(2))?;
    let taken = Err(DataError::Taken(id(Y)));
    let both = answered(&mut world, X, Y, Asked::WriteAndReadName);
    expect_answer(&rt, both, taken);
    expect_number(&rt, name_in(&world), Some(2));
    let written = answered(&mut world, X, Y, Asked::WriteNameIfHeld);
    expect_answer(&rt, written, taken);
    expect_number(&rt, name_in(&world), Some(7));
    Ok(())
}

#[test]
fn what_a_view_wrote_it_reads(rt: HostRuntime) -> Result<(), Fail> {
    let mut world = world_of(rt.alloc(), Count(1))?;
    let read = answered(&mut world, Y, X, Asked::WriteAndReadCount);
    expect_answer(&rt, read, Ok(Some(4)));
    expect_number(&rt, count_in(&world), Some(4));
    Ok(())
}

#[test]
fn a_fetch_is_a_read_that_is_lent(rt: HostRuntime) -> Result<(), Fail> {
    let fetched = world_of(rt.alloc(), Count(5))?;
    let mut world = empty(rt.alloc());
    let read = answered(&mut world, X, Y, Asked::ByFetch(&fetched));
    expect_answer(&rt, read, Ok(Some(5)));
    Ok(())
}

fn listing_nothing(alloc: Global) -> BatchAccessor {
    BatchAccessor::new(Vec::new(alloc), Vec::new(alloc))
}

fn set_up_by_accessor(world: &mut World<Value>, accessor: &BatchAccessor) -> Answer {
    match <Read<Count> as DynamicSystemData<Value>>::setup(accessor, world) {
        Ok(()) => Ok(None),
        Err(error) => Err(DataError::from(error)),
    }
}

#[test]
fn a_bundle_is_set_up_and_taken_by_an_accessor(rt: HostRuntime) -> Result<(), Fail> {
    let mut world = empty(rt.alloc());
    let accessor = listing_nothing(rt.alloc());
    let set_up = set_up_by_accessor(&mut world, &accessor);
    expect_answer(&rt, set_up, Ok(None));
    expect_number(&rt, count_in(&world), Some(0));
    let mut world = world_of(rt.alloc(), Count(5))?;
    let read = answered(&mut world, X, Y, Asked::ByAccessor(&accessor));
    expect_answer(&rt, read, Ok(Some(5)));
    Ok(())
}

#[test]
fn an_accessor_of_the_callers_own_chooses(rt: HostRuntime) -> Result<(), Fail> {
    let mut world = world_of(rt.alloc(), Count(5))?;
    for (writes_count, answer) in [(true, Ok(Some(5))), (false, Ok(None))] {
        let choice = Choice { writes_count };
        let shown = answered(&mut world, Y, X, Asked::ByChoice(&choice));
        expect_answer(&rt, shown, answer);
    }
    Ok(())
}
