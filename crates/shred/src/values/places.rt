//! Types of resources, told apart by the place of each among the types of a world.
ghost use Rattle.std.specs.Prelude.{◌≡◌};
ghost use Rattle.shred_table.specs.Id.{id_of};
ghost use Rattle.shred.specs.Places.{first_kind, fourth_kind, second_kind, third_kind};

use shred_world::{Kind, ResourceId};

/// A resource of the first type.
#[derive(Clone, Copy, Debug, Default, Drop, PartialEq)]
pub struct First<T>(pub T);

/// The id of this number among the resources of the first type.
pub fn first_id(number: u64) -> ResourceId
    ensures { result ≡ id_of first_kind number }
{
    ResourceId::from_type_id_and_dynamic_id(Kind(0), number)
}

/// A resource of the second type.
#[derive(Clone, Copy, Debug, Default, Drop, PartialEq)]
pub struct Second<T>(pub T);

/// The id of this number among the resources of the second type.
pub fn second_id(number: u64) -> ResourceId
    ensures { result ≡ id_of second_kind number }
{
    ResourceId::from_type_id_and_dynamic_id(Kind(1), number)
}

/// A resource of the third type.
#[derive(Clone, Copy, Debug, Default, Drop, PartialEq)]
pub struct Third<T>(pub T);

/// The id of this number among the resources of the third type.
pub fn third_id(number: u64) -> ResourceId
    ensures { result ≡ id_of third_kind number }
{
    ResourceId::from_type_id_and_dynamic_id(Kind(2), number)
}

/// A resource of the fourth type.
#[derive(Clone, Copy, Debug, Default, Drop, PartialEq)]
pub struct Fourth<T>(pub T);

/// The id of this number among the resources of the fourth type.
pub fn fourth_id(number: u64) -> ResourceId
    ensures { result ≡ id_of fourth_kind number }
{
    ResourceId::from_type_id_and_dynamic_id(Kind(3), number)
}
