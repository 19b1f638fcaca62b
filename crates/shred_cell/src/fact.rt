//! What is known of every value of a cell.

use counted_slot::Fits;
use std::marker::PhantomData;

/// A fact of the values of a cell, by the tag that the cell was made with.
pub trait Fact<T> {
    type Tag;

    ghost holds: { Self.Tag → T → Type 0 };
}

/// A fact that holds of every value.
pub struct Anything;

impl<T> Fact<T> for Anything {
    type Tag = ();

    ghost use Rattle.std.specs.Prelude.{⊤};

    ghost holds = { λ tag value. ⊤ };
}

/// A value as it lies in a cell.
#[derive(Drop)]
pub(crate) struct Kept<T, F: Fact<T>> {
    pub(crate) value: T,
    pub(crate) fact: PhantomData<F>,
}

impl<T, F: Fact<T>> Fits for Kept<T, F> {
    type Tag = F::Tag;

    ghost fits = { λ tag kept. F.holds tag kept.value };
}
