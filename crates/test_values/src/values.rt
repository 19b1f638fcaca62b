//! Three kinds of resources.
ghost use Rattle.std.specs.Prelude.{◌≡◌, MatchOption, MatchResult};
ghost use Rattle.shred_table.specs.declared.id.Kind.{Kind};
ghost use Rattle.test_values.specs.Values.{kind_of, count_kind, name_kind, flag_kind};
ghost use Rattle.test_values.specs.declared.values.Value.{Value};
ghost use Rattle.test_values.specs.declared.values.Value.TheVariants.{Count, Name, Flag};

use shred_world::{Kind, Resource, ResourceValue};

/// What the tests' worlds hold.
#[derive(Debug, Drop, PartialEq)]
pub enum Value {
    Count(Count),
    Name(Name),
    Flag(Flag),
}

/// A resource of kind 0.
#[derive(Clone, Copy, Debug, Default, PartialEq)]
pub struct Count(pub i64);

/// A resource of kind 1.
#[derive(Clone, Copy, Debug, PartialEq)]
pub struct Name(pub u8);

/// A resource of kind 2.
#[derive(Clone, Copy, Debug, Default, PartialEq)]
pub struct Flag(pub bool);

impl ResourceValue for Value {
    ghost kind_of = { kind_of };

    fn kind(&self) -> Kind {
        match self {
            Value::Count(_) => Kind(0),
            Value::Name(_) => Kind(1),
            Value::Flag(_) => Kind(2),
        }
    }
}

impl Resource<Value> for Count {
    ghost KIND = { count_kind };

    const KIND: Kind = Kind(0);

    ghost wrapped = { λ c. Count c };

    fn wrap(self) -> Value {
        Value::Count(self)
    }

    fn unwrap(value: Value) -> Result<Self, Value> {
        match value {
            Value::Count(count) => Ok(count),
            other => Err(other),
        }
    }

    fn view(value: &Value) -> Option<&Self> {
        match value {
            Value::Count(count) => Some(count),
            _ => None,
        }
    }

    fn view_mut(value: &mut Value) -> Option<&mut Self> {
        match value {
            Value::Count(count) => Some(count),
            _ => None,
        }
    }

    ghost use Rattle.std.proofs.Common.{refl};

    ghost wrapped_kind = { λ r. refl };

    ghost wrapped_once = { λ r s e. Prim.cc };
}

impl Resource<Value> for Name {
    ghost KIND = { name_kind };

    const KIND: Kind = Kind(1);

    ghost wrapped = { λ n. Name n };

    fn wrap(self) -> Value {
        Value::Name(self)
    }

    fn unwrap(value: Value) -> Result<Self, Value> {
        match value {
            Value::Name(name) => Ok(name),
            other => Err(other),
        }
    }

    fn view(value: &Value) -> Option<&Self> {
        match value {
            Value::Name(name) => Some(name),
            _ => None,
        }
    }

    fn view_mut(value: &mut Value) -> Option<&mut Self> {
        match value {
            Value::Name(name) => Some(name),
            _ => None,
        }
    }

    ghost use Rattle.std.proofs.Common.{refl};

    ghost wrapped_kind = { λ r. refl };

    ghost wrapped_once = { λ r s e. Prim.cc };
}

impl Resource<Value> for Flag {
    ghost KIND = { flag_kind };

    const KIND: Kind = Kind(2);

    ghost wrapped = { λ f. Flag f };

    fn wrap(self) -> Value {
        Value::Flag(self)
    }

    fn unwrap(value: Value) -> Result<Self, Value> {
        match value {
            Value::Flag(flag) => Ok(flag),
            other => Err(other),
        }
    }

    fn view(value: &Value) -> Option<&Self> {
        match value {
            Value::Flag(flag) => Some(flag),
            _ => None,
        }
    }

    fn view_mut(value: &mut Value) -> Option<&mut Self> {
        match value {
            Value::Flag(flag) => Some(flag),
            _ => None,
        }
    }

    ghost use Rattle.std.proofs.Common.{refl};

    ghost wrapped_kind = { λ r. refl };

    ghost wrapped_once = { λ r s e. Prim.cc };
}
