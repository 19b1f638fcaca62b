//! Counts under numbers, which systems and controllers of tests change, and the codes with which these refuse.
ghost use Rattle.std.specs.Prelude.{◌≡◌};
ghost use Rattle.shred_table.specs.Id.{id_of};
ghost use Rattle.test_values.specs.Values.{count_kind};

use shred::{Fault, Kind, ResourceId, World};
use test_values::{Count, Value};

/// The id of the count of this number.
pub fn count_id(number: u64) -> ResourceId
    ensures { result ≡ id_of count_kind number }
{
    ResourceId::from_type_id_and_dynamic_id(Kind(0), number)
}

/// Done, or a refusal with the code, where that is not 0.
pub fn answer_of(code: u8) -> Result<(), Fault<u8>> {
    if code == 0 {
        Ok(())
    } else {
        Err(Fault::Refused(code))
    }
}

/// Puts the count there, if there is one.
pub fn put(world: &mut World<Value>, number: u64, count: Option<i64>) -> Result<(), Fault<u8>> {
    match count {
        Some(count) => match world.insert_by_id(count_id(number), Count(count)) {
            Ok(()) => Ok(()),
            Err(_) => Err(Fault::OutOfMemory),
        },
        None => Ok(()),
    }
}

/// The count of this number, where the world holds one.
pub fn count_at(world: &World<Value>, number: u64) -> Option<i64> {
    match world.try_fetch_by_id::<Count>(count_id(number)) {
        Ok(Some(count)) => Some(count.0),
        _ => None,
    }
}
