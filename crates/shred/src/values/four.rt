//! Worlds of values of four types.
ghost use Rattle.shred.specs.OneOfFour.{kind_of_four};
ghost use Rattle.shred.specs.Places.{first_kind, fourth_kind, second_kind, third_kind};
ghost use Rattle.shred.specs.declared.values.four.OneOf4.TheVariants as value;

use crate::values::places::{First, Fourth, Second, Third};
use shred_world::{Kind, Resource, ResourceValue};

/// The value of a world whose resources are of four types: `First<A>`, `Second<B>`, `Third<C>` and `Fourth<D>`.
#[derive(Debug, Drop)]
pub enum OneOf4<A, B, C, D> {
    First(First<A>),
    Second(Second<B>),
    Third(Third<C>),
    Fourth(Fourth<D>),
}

impl<A, B, C, D> ResourceValue for OneOf4<A, B, C, D> {
    ghost kind_of = { kind_of_four };

    fn kind(&self) -> Kind {
        match self {
            OneOf4::First(_) => Kind(0),
            OneOf4::Second(_) => Kind(1),
            OneOf4::Third(_) => Kind(2),
            OneOf4::Fourth(_) => Kind(3),
        }
    }
}

impl<A, B, C, D> Resource<OneOf4<A, B, C, D>> for First<A> {
    ghost KIND = { first_kind };

    const KIND: Kind = Kind(0);

    ghost wrapped = { λ resource. value.First resource };

    fn wrap(self) -> OneOf4<A, B, C, D> {
        OneOf4::First(self)
    }

    fn unwrap(value: OneOf4<A, B, C, D>) -> Result<Self, OneOf4<A, B, C, D>> {
        match value {
            OneOf4::First(resource) => Ok(resource),
            other => Err(other),
        }
    }

    fn view(value: &OneOf4<A, B, C, D>) -> Option<&Self> {
        match value {
            OneOf4::First(resource) => Some(resource),
            _ => None,
        }
    }

    fn view_mut(value: &mut OneOf4<A, B, C, D>) -> Option<&mut Self> {
        match value {
            OneOf4::First(resource) => Some(resource),
            _ => None,
        }
    }

    ghost use Rattle.std.proofs.Common.{refl};

    ghost wrapped_kind = { λ resource. refl };

    ghost wrapped_once = { λ first second same. Prim.cc };
}

impl<A, B, C, D> Resource<OneOf4<A, B, C, D>> for Second<B> {
    ghost KIND = { second_kind };

    const KIND: Kind = Kind(1);

    ghost wrapped = { λ resource. value.Second resource };

    fn wrap(self) -> OneOf4<A, B, C, D> {
        OneOf4::Second(self)
    }

    fn unwrap(value: OneOf4<A, B, C, D>) -> Result<Self, OneOf4<A, B, C, D>> {
        match value {
            OneOf4::Second(resource) => Ok(resource),
            other => Err(other),
        }
    }

    fn view(value: &OneOf4<A, B, C, D>) -> Option<&Self> {
        match value {
            OneOf4::Second(resource) => Some(resource),
            _ => None,
        }
    }

    fn view_mut(value: &mut OneOf4<A, B, C, D>) -> Option<&mut Self> {
        match value {
            OneOf4::Second(resource) => Some(resource),
            _ => None,
        }
    }

    ghost use Rattle.std.proofs.Common.{refl};

    ghost wrapped_kind = { λ resource. refl };

    ghost wrapped_once = { λ first second same. Prim.cc };
}

impl<A, B, C, D> Resource<OneOf4<A, B, C, D>> for Third<C> {
    ghost KIND = { third_kind };

    const KIND: Kind = Kind(2);

    ghost wrapped = { λ resource. value.Third resource };

    fn wrap(self) -> OneOf4<A, B, C, D> {
        OneOf4::Third(self)
    }

    fn unwrap(value: OneOf4<A, B, C, D>) -> Result<Self, OneOf4<A, B, C, D>> {
        match value {
            OneOf4::Third(resource) => Ok(resource),
            other => Err(other),
        }
    }

    fn view(value: &OneOf4<A, B, C, D>) -> Option<&Self> {
        match value {
            OneOf4::Third(resource) => Some(resource),
            _ => None,
        }
    }

    fn view_mut(value: &mut OneOf4<A, B, C, D>) -> Option<&mut Self> {
        match value {
            OneOf4::Third(resource) => Some(resource),
            _ => None,
        }
    }

    ghost use Rattle.std.proofs.Common.{refl};

    ghost wrapped_kind = { λ resource. refl };

    ghost wrapped_once = { λ first second same. Prim.cc };
}

impl<A, B, C, D> Resource<OneOf4<A, B, C, D>> for Fourth<D> {
    ghost KIND = { fourth_kind };

    const KIND: Kind = Kind(3);

    ghost wrapped = { λ resource. value.Fourth resource };

    fn wrap(self) -> OneOf4<A, B, C, D> {
        OneOf4::Fourth(self)
    }

    fn unwrap(value: OneOf4<A, B, C, D>) -> Result<Self, OneOf4<A, B, C, D>> {
        match value {
            OneOf4::Fourth(resource) => Ok(resource),
            other => Err(other),
        }
    }

    fn view(value: &OneOf4<A, B, C, D>) -> Option<&Self> {
        match value {
            OneOf4::Fourth(resource) => Some(resource),
            _ => None,
        }
    }

    fn view_mut(value: &mut OneOf4<A, B, C, D>) -> Option<&mut Self> {
        match value {
            OneOf4::Fourth(resource) => Some(resource),
            _ => None,
        }
    }

    ghost use Rattle.std.proofs.Common.{refl};

    ghost wrapped_kind = { λ resource. refl };

    ghost wrapped_once = { λ first second same. Prim.cc };
}
