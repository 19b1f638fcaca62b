//! Kinds of resources, and the ids under which a world holds them.
ghost use Rattle.std.specs.Prelude.{◌≡◌, ℕ, [], ◌∷◌, IfOk};
ghost use Rattle.shred_table.specs.Id.{id_of, id_kind, dynamic_id_of};

use crate::accessor::OutOfMemory;
use crate::resource::{Resource, ResourceValue};
use std::alloc::Global;
use std::fmt;

/// The number of a resource's type.
#[derive(Clone, Copy, Debug, PartialEq, Eq, PartialOrd, Ord, Hash)]
pub struct Kind(pub u32);

impl fmt::Display for Kind {
    ghost use Rattle.std.specs.Prelude.{Some};
    ghost use Rattle.shred_table.specs.Texts.{kind_text};

    ghost output = { λ kind. Some (kind_text kind) };

    fn fmt<W: fmt::Write>(&self, f: &mut fmt::Formatter<W>) -> fmt::Result {
        let number = self.0;
        write!(f, "kind {number}")
    }
}

/// A kind and a dynamic number, ordered by the kind and then by the number.
#[derive(Clone, Copy, Debug, PartialEq, Eq, PartialOrd, Ord, Hash)]
pub struct ResourceId {
    kind: Kind,
    dynamic_id: u64,
}

impl fmt::Display for ResourceId {
    ghost use Rattle.std.specs.Prelude.{Some};
    ghost use Rattle.shred_table.specs.Texts.{id_text};

    ghost output = { λ id. Some (id_text id) };

    fn fmt<W: fmt::Write>(&self, f: &mut fmt::Formatter<W>) -> fmt::Result {
        let kind = self.kind;
        let number = self.dynamic_id;
        write!(f, "{kind}, number {number}")
    }
}

impl ResourceId {
    /// The id of number 0 of the kind of `R`.
    pub fn new<V: ResourceValue, R: Resource<V>>() -> Self
        ensures { result ≡ id_of R.KIND 0 }
    {
        Self::from_type_id(R::KIND)
    }

    /// The id of this number of the kind of `R`.
    pub fn new_with_dynamic_id<V: ResourceValue, R: Resource<V>>(dynamic_id: u64) -> Self
        ensures { result ≡ id_of R.KIND dynamic_id }
    {
        Self::from_type_id_and_dynamic_id(R::KIND, dynamic_id)
    }

    /// The id of number 0 of this kind.
    pub fn from_type_id(kind: Kind) -> Self
        ensures { result ≡ id_of kind 0 }
    {
        Self::from_type_id_and_dynamic_id(kind, 0)
    }

    /// The id of this kind and number.
    pub fn from_type_id_and_dynamic_id(kind: Kind, dynamic_id: u64) -> Self
        ensures { result ≡ id_of kind dynamic_id }
    {
        ResourceId { kind, dynamic_id }
    }

    /// The kind of the values that are held under this id.
    pub fn kind(self) -> Kind
        ensures { result ≡ id_kind self }
    {
        self.kind
    }

    /// The dynamic number, which tells apart ids of one kind.
    pub fn dynamic_id(self) -> u64
        ensures { result ≡ dynamic_id_of self }
    {
        self.dynamic_id
    }

    // The place that it has in a list of ids whose kinds and numbers count on without gaps.
    pub(crate) fn likely_place(self) -> usize {
        (self.kind.0 as usize).wrapping_add(self.dynamic_id as usize)
    }

    /// A list of this id alone.
    pub fn listed(self, alloc: Global) -> Result<Vec<ResourceId>, OutOfMemory>
        ensures { IfOk result (λ ids. ids.items ≡ self ∷ []) }
    {
        let mut ids = Vec::new(alloc);
        ids.push(self)?;
        Ok(ids)
    }
}
