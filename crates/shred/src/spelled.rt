//! Kinds, ids and errors of views, with the names of the kinds.
ghost use Rattle.std.specs.Prelude.{◌≡◌};

use shred_world::{DataError, Kind, ResourceId};
use std::fmt;
use std::fmt::Display;
use std::marker::PhantomData;

/// Names of the kinds of a world's values.
pub trait KindNames {
    /// The name of a kind, if it has one.
    fn kind_name(kind: Kind) -> Option<&'static str>;
}

/// A kind, an id or an error of a view, to be printed with the names that `N` has for kinds, as in
/// `Wheels is not declared for this use`. Of an id whose kind has a name the number is printed unless it is 0; a kind without
/// a name is printed by its number.
#[derive(Drop)]
pub struct Spelled<T, N> {
    value: T,
    names: PhantomData<N>,
}

impl<T, N: KindNames> Spelled<T, N> {
    pub fn new(value: T) -> Self
        ensures { result.value ≡ value }
    {
        Spelled {
            value,
            names: PhantomData,
        }
    }
}

impl<N: KindNames> Display for Spelled<Kind, N> {
    fn fmt<W: fmt::Write>(&self, f: &mut fmt::Formatter<W>) -> fmt::Result {
        let kind = self.value;
        match N::kind_name(kind) {
            Some(name) => write!(f, "{name}"),
            None => write!(f, "{kind}"),
        }
    }
}

impl<N: KindNames> Display for Spelled<ResourceId, N> {
    fn fmt<W: fmt::Write>(&self, f: &mut fmt::Formatter<W>) -> fmt::Result {
        let id = self.value;
        let number = id.dynamic_id();
        match N::kind_name(id.kind()) {
            Some(name) if number == 0 => write!(f, "{name}"),
            Some(name) => write!(f, "{name}, number {number}"),
            None => write!(f, "{id}"),
        }
    }
}

impl<N: KindNames> Display for Spelled<DataError, N> {
    fn fmt<W: fmt::Write>(&self, f: &mut fmt::Formatter<W>) -> fmt::Result {
        match self.value {
            DataError::Missing(id) => {
                let id: Spelled<ResourceId, N> = Spelled::new(id);
                write!(f, "nothing is held under {id}")
            }
            DataError::Undeclared(id) => {
                let id: Spelled<ResourceId, N> = Spelled::new(id);
                write!(f, "{id} is not declared for this use")
            }
            DataError::Taken(id) => {
                let id: Spelled<ResourceId, N> = Spelled::new(id);
                write!(f, "{id} is handed out already")
            }
            DataError::WrongKind { asked, found } => {
                let asked: Spelled<Kind, N> = Spelled::new(asked);
                let found: Spelled<Kind, N> = Spelled::new(found);
                write!(f, "{asked} was asked for, and the id is of {found}")
            }
            DataError::OutOfMemory => write!(f, "out of memory"),
        }
    }
}
