//! The values that a world holds, and the types of resources among them.
ghost use Rattle.std.specs.Prelude.{◌≡◌, ◌≢◌, MatchOption, MatchResult};
ghost use Rattle.std.specs.Borrow.{sem, LendsIf};
ghost use Rattle.shred_table.specs.declared.id.Kind.{Kind};

use crate::id::Kind;

/// A value of any of the kinds of resources that a world may hold.
pub trait ResourceValue {
    ghost kind_of: { Self → Kind };

    /// The kind of the value.
    fn kind(&self) -> Kind
        ensures { result ≡ kind_of self.now };
}

/// A type of resource, which is kept as a value of the kind `KIND`.
pub trait Resource<V: ResourceValue> {
    ghost KIND: { Kind };

    const KIND: Kind;

    ghost wrapped: { Self → V };

    /// The resource as a value.
    fn wrap(self) -> V
        ensures { result ≡ wrapped self };

    /// The resource that the value is, or the value back where its kind is another.
    fn unwrap(value: V) -> Result<Self, V>
        ensures { MatchResult result (λ r. wrapped r ≡ value) (λ v. (v ≡ value) × (V.kind_of value ≢ KIND)) };

    /// The resource that the value is; none where its kind is another.
    fn view(value: &V) -> Option<&Self>
        ensures { MatchOption result (V.kind_of value.now ≢ KIND) (λ r. wrapped r.now ≡ value.now) };

    /// The resource that the value is, to write; none where its kind is another.
    fn view_mut(value: &mut V) -> Option<&mut Self>
        ensures shown { MatchOption result (V.kind_of value.old ≢ KIND) (λ r. wrapped r.now ≡ value.old) }
        ensures* written { sem 𝓛 (LendsIf V.row Self.row value.entry result wrapped value.old) };

    ghost wrapped_kind: { (r : Self) → V.kind_of (wrapped r) ≡ KIND };

    ghost wrapped_once: { (r s : Self) → wrapped r ≡ wrapped s → r ≡ s };
}
