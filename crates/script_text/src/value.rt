//! The one kind of value that a script's world holds.
ghost use Rattle.std.specs.Prelude.{◌≡◌};
ghost use Rattle.std.proofs.Common.{refl, rules};
ghost use Rattle.script_text.specs.Place.{id_at};

use shred_world::{Kind, Resource, ResourceId, ResourceValue};

const NUMBER: Kind = Kind(0);

/// The value of a resource.
#[derive(Clone, Copy)]
pub struct Value(pub i64);

/// The id of the resource at this place among the declared ones.
pub fn id_at(place: usize) -> ResourceId
    ensures { result ≡ id_at place }
{
    ResourceId::from_type_id_and_dynamic_id(NUMBER, place as u64)
}

impl ResourceValue for Value {
    ghost kind_of = { λ _. record { 0 = 0 } };

    fn kind(&self) -> Kind {
        NUMBER
    }
}

impl Resource<Value> for i64 {
    ghost KIND = { record { 0 = 0 } };

    const KIND: Kind = NUMBER;

    ghost wrapped = { λ number. record { 0 = number } };

    fn wrap(self) -> Value {
        Value(self)
    }

    fn unwrap(value: Value) -> Result<i64, Value> {
        Ok(value.0)
    }

    fn view(value: &Value) -> Option<&i64> {
        Some(&value.0)
    }

    fn view_mut(value: &mut Value) -> Option<&mut i64> {
        Some(&mut value.0)
    }

    ghost wrapped_kind = { λ _. refl };

    ghost wrapped_once = { Prim.search rules };
}
