//! A system that is run over a view that its world lends.
use example_systems::enum_of_systems::Copy;
use shred::{DataError, Fault, Only, Plain, System, World, only_id};
use std::process::Abort;
use std::test::Fail;

// The number that is held at a place.
fn number_in(world: &World<Only<i64>>, place: u64) -> Option<i64> {
    match world.try_fetch_by_id::<i64>(only_id(place)) {
        Ok(Some(number)) => Some(*number),
        _ => None,
    }
}

// Runs the system that copies the number of one place to another, over a view of these two.
fn copied(world: &mut World<Only<i64>>, from: u64, to: u64) -> Result<(), Fault<DataError>> {
    let reads = [only_id(from)];
    let writes = [only_id(to)];
    let mut view = world.lend(&reads, &writes);
    Plain(Copy { from, to }).run(&mut view)
}

fn expect_numbers(rt: &impl Abort, world: &World<Only<i64>>, first: i64, second: i64) {
    assert_eq!(rt; number_in(world, 3), Some(first));
    assert_eq!(rt; number_in(world, 5), Some(second));
}

#[test]
fn a_system_reads_one_id_and_writes_another(rt: HostRuntime) -> Result<(), Fail> {
    let mut world: World<Only<i64>> = World::empty(rt.alloc());
    world.insert_by_id(only_id(5), 7)?;
    for number in [41, 8] {
        world.insert_by_id(only_id(3), number)?;
        assert!(rt; copied(&mut world, 3, 5).is_ok());
        expect_numbers(&rt, &world, number, number);
    }
    assert!(rt; copied(&mut world, 3, 4).is_err());
    expect_numbers(&rt, &world, 8, 8);
    Ok(())
}
