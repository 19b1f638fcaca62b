//! What the worlds of the example with a bundle hold: a count, and how far it may go.
ghost use Rattle.example_systems.specs.Limits.{kind_of, count_kind, limit_kind};
ghost use Rattle.example_systems.specs.declared.limits.Value.TheVariants.{Counted, Limited};

use shred::{Kind, Resource, ResourceValue};

/// What these worlds hold.
#[derive(Debug, Drop)]
pub enum Value {
    Counted(Count),
    Limited(Limit),
}

/// A resource of kind 0.
#[derive(Clone, Copy, Debug, PartialEq)]
pub struct Count(pub i64);

/// A resource of kind 1.
#[derive(Clone, Copy, Debug, PartialEq)]
pub struct Limit(pub i64);

impl ResourceValue for Value {
    ghost kind_of = { kind_of };

    fn kind(&self) -> Kind {
        match self {
            Value::Counted(_) => Kind(0),
            Value::Limited(_) => Kind(1),
        }
    }
}

impl Resource<Value> for Count {
    ghost KIND = { count_kind };

    const KIND: Kind = Kind(0);

    ghost wrapped = { λ count. Counted count };

    fn wrap(self) -> Value {
        Value::Counted(self)
    }

    fn unwrap(value: Value) -> Result<Self, Value> {
        match value {
            Value::Counted(count) => Ok(count),
            other => Err(other),
        }
    }

    fn view(value: &Value) -> Option<&Self> {
        match value {
            Value::Counted(count) => Some(count),
            _ => None,
        }
    }

    fn view_mut(value: &mut Value) -> Option<&mut Self> {
        match value {
            Value::Counted(count) => Some(count),
            _ => None,
        }
    }

    ghost use Rattle.std.proofs.Common.{refl};

    ghost wrapped_kind = { λ count. refl };

    ghost wrapped_once = { λ first second same. Prim.cc };
}

impl Resource<Value> for Limit {
    ghost KIND = { limit_kind };

    const KIND: Kind = Kind(1);

    ghost wrapped = { λ limit. Limited limit };

    fn wrap(self) -> Value {
        Value::Limited(self)
    }

    fn unwrap(value: Value) -> Result<Self, Value> {
        match value {
            Value::Limited(limit) => Ok(limit),
            other => Err(other),
        }
    }

    fn view(value: &Value) -> Option<&Self> {
        match value {
            Value::Limited(limit) => Some(limit),
            _ => None,
        }
    }

    fn view_mut(value: &mut Value) -> Option<&mut Self> {
        match value {
            Value::Limited(limit) => Some(limit),
            _ => None,
        }
    }

    ghost use Rattle.std.proofs.Common.{refl};

    ghost wrapped_kind = { λ limit. refl };

    ghost wrapped_once = { λ first second same. Prim.cc };
}
