//! Worlds of values of three types.
ghost use Rattle.shred.specs.OneOfThree.{kind_of_three};
ghost use Rattle.shred.specs.Places.{first_kind, second_kind, third_kind};
ghost use Rattle.shred.specs.declared.values.three.OneOf3.TheVariants as value;

use crate::values::places::{First, Second, Third};
use shred_world::{Kind, Resource, ResourceValue};

/// The value of a world whose resources are of three types: `First<A>`, `Second<B>` and `Third<C>`.
#[derive(Debug, Drop)]
pub enum OneOf3<A, B, C> {
    First(First<A>),
    Second(Second<B>),
    Third(Third<C>),
}

impl<A, B, C> ResourceValue for OneOf3<A, B, C> {
    ghost kind_of = { kind_of_three };

    fn kind(&self) -> Kind {
        match self {
            OneOf3::First(_) => Kind(0),
            OneOf3::Second(_) => Kind(1),
            OneOf3::Third(_) => Kind(2),
        }
    }
}

impl<A, B, C> Resource<OneOf3<A, B, C>> for First<A> {
    ghost KIND = { first_kind };

    const KIND: Kind = Kind(0);

    ghost wrapped = { λ resource. value.First resource };

    fn wrap(self) -> OneOf3<A, B, C> {
        OneOf3::First(self)
    }

    fn unwrap(value: OneOf3<A, B, C>) -> Result<Self, OneOf3<A, B, C>> {
        match value {
            OneOf3::First(resource) => Ok(resource),
            other => Err(other),
        }
    }

    fn view(value: &OneOf3<A, B, C>) -> Option<&Self> {
        match value {
            OneOf3::First(resource) => Some(resource),
            _ => None,
        }
    }

    fn view_mut(value: &mut OneOf3<A, B, C>) -> Option<&mut Self> {
        match value {
            OneOf3::First(resource) => Some(resource),
            _ => None,
        }
    }

    ghost use Rattle.std.proofs.Common.{refl};

    ghost wrapped_kind = { λ resource. refl };

    ghost wrapped_once = { λ first second same. Prim.cc };
}

impl<A, B, C> Resource<OneOf3<A, B, C>> for Second<B> {
    ghost KIND = { second_kind };

    const KIND: Kind = Kind(1);

    ghost wrapped = { λ resource. value.Second resource };

    fn wrap(self) -> OneOf3<A, B, C> {
        OneOf3::Second(self)
    }

    fn unwrap(value: OneOf3<A, B, C>) -> Result<Self, OneOf3<A, B, C>> {
        match value {
            OneOf3::Second(resource) => Ok(resource),
            other => Err(other),
        }
    }

    fn view(value: &OneOf3<A, B, C>) -> Option<&Self> {
        match value {
            OneOf3::Second(resource) => Some(resource),
            _ => None,
        }
    }

    fn view_mut(value: &mut OneOf3<A, B, C>) -> Option<&mut Self> {
        match value {
            OneOf3::Second(resource) => Some(resource),
            _ => None,
        }
    }

    ghost use Rattle.std.proofs.Common.{refl};

    ghost wrapped_kind = { λ resource. refl };

    ghost wrapped_once = { λ first second same. Prim.cc };
}

impl<A, B, C> Resource<OneOf3<A, B, C>> for Third<C> {
    ghost KIND = { third_kind };

    const KIND: Kind = Kind(2);

    ghost wrapped = { λ resource. value.Third resource };

    fn wrap(self) -> OneOf3<A, B, C> {
        OneOf3::Third(self)
    }

    fn unwrap(value: OneOf3<A, B, C>) -> Result<Self, OneOf3<A, B, C>> {
        match value {
            OneOf3::Third(resource) => Ok(resource),
            other => Err(other),
        }
    }

    fn view(value: &OneOf3<A, B, C>) -> Option<&Self> {
        match value {
            OneOf3::Third(resource) => Some(resource),
            _ => None,
        }
    }

    fn view_mut(value: &mut OneOf3<A, B, C>) -> Option<&mut Self> {
        match value {
            OneOf3::Third(resource) => Some(resource),
            _ => None,
        }
    }

    ghost use Rattle.std.proofs.Common.{refl};

    ghost wrapped_kind = { λ resource. refl };

    ghost wrapped_once = { λ first second same. Prim.cc };
}
