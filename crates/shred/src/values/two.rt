//! Worlds of values of two types.
ghost use Rattle.shred.specs.OneOfTwo.{kind_of_two};
ghost use Rattle.shred.specs.Places.{first_kind, second_kind};
ghost use Rattle.shred.specs.declared.values.two.OneOf2.TheVariants as value;

use crate::values::places::{First, Second};
use shred_world::{Kind, Resource, ResourceValue};

/// The value of a world whose resources are of two types: `First<A>` and `Second<B>`.
#[derive(Debug, Drop)]
pub enum OneOf2<A, B> {
    First(First<A>),
    Second(Second<B>),
}

impl<A, B> ResourceValue for OneOf2<A, B> {
    ghost kind_of = { kind_of_two };

    fn kind(&self) -> Kind {
        match self {
            OneOf2::First(_) => Kind(0),
            OneOf2::Second(_) => Kind(1),
        }
    }
}

impl<A, B> Resource<OneOf2<A, B>> for First<A> {
    ghost KIND = { first_kind };

    const KIND: Kind = Kind(0);

    ghost wrapped = { λ resource. value.First resource };

    fn wrap(self) -> OneOf2<A, B> {
        OneOf2::First(self)
    }

    fn unwrap(value: OneOf2<A, B>) -> Result<Self, OneOf2<A, B>> {
        match value {
            OneOf2::First(resource) => Ok(resource),
            other => Err(other),
        }
    }

    fn view(value: &OneOf2<A, B>) -> Option<&Self> {
        match value {
            OneOf2::First(resource) => Some(resource),
            _ => None,
        }
    }

    fn view_mut(value: &mut OneOf2<A, B>) -> Option<&mut Self> {
        match value {
            OneOf2::First(resource) => Some(resource),
            _ => None,
        }
    }

    ghost use Rattle.std.proofs.Common.{refl};

    ghost wrapped_kind = { λ resource. refl };

    ghost wrapped_once = { λ first second same. Prim.cc };
}

impl<A, B> Resource<OneOf2<A, B>> for Second<B> {
    ghost KIND = { second_kind };

    const KIND: Kind = Kind(1);

    ghost wrapped = { λ resource. value.Second resource };

    fn wrap(self) -> OneOf2<A, B> {
        OneOf2::Second(self)
    }

    fn unwrap(value: OneOf2<A, B>) -> Result<Self, OneOf2<A, B>> {
        match value {
            OneOf2::Second(resource) => Ok(resource),
            other => Err(other),
        }
    }

    fn view(value: &OneOf2<A, B>) -> Option<&Self> {
        match value {
            OneOf2::Second(resource) => Some(resource),
            _ => None,
        }
    }

    fn view_mut(value: &mut OneOf2<A, B>) -> Option<&mut Self> {
        match value {
            OneOf2::Second(resource) => Some(resource),
            _ => None,
        }
    }

    ghost use Rattle.std.proofs.Common.{refl};

    ghost wrapped_kind = { λ resource. refl };

    ghost wrapped_once = { λ first second same. Prim.cc };
}
