//! The cell and its guards.
ghost use Rattle.std.specs.Prelude.{◌≡◌, IsSome, IsSomeAnd};

use crate::fact::{Anything, Fact, Kept};
use counted_slot::{Claim, Counted};
use std::error::Error;
use std::fmt;
use std::fmt::{Display, Formatter};

mod borrows;
mod guards;

/// A borrow that a cell refused.
#[derive(Clone, Copy, Debug, PartialEq, Eq, PartialOrd, Ord, Hash)]
pub struct InvalidBorrow;

impl Display for InvalidBorrow {
    ghost use Rattle.std.specs.Prelude.{Some};
    ghost use Rattle.shred_cell.specs.Texts.{invalid_borrow_text};

    ghost output = { λ _. Some invalid_borrow_text };

    fn fmt<W: fmt::Write>(&self, f: &mut Formatter<W>) -> fmt::Result {
        f.write_str("Tried to borrow when it was illegal")
    }
}

impl Error for InvalidBorrow {}

/// A value that many may read or one may write, with threads that share the cell. The values have the fact that the cell was
/// made with.
#[derive(Drop)]
pub struct TrustCell<T, F: Fact<T> = Anything> {
    // The place is empty while a writer has the value.
    slot: Counted<Option<Kept<T, F>>>,
}

/// The value of a cell, to read. No one writes it while this lives.
pub struct Ref<'a, T, F: Fact<T> = Anything> {
    cell: &'a TrustCell<T, F>,
    hand: Claim<'a, Option<Kept<T, F>>>,
    ghost reads: { hand.right ≡ 1 },
    ghost tied: { hand.tag ≡ cell.now.slot },
    ghost filled: { ∥ IsSomeAnd hand.value IsSome ∥₁ },
}

/// The value of a cell, to write. It is the cell's again when this is dropped; where this is forgotten, it is lost, and the
/// cell refuses every borrow from then on.
pub struct RefMut<'a, T: Drop> {
    cell: &'a TrustCell<T>,
    value: T,
}

impl<T, F: Fact<T>> Drop for Ref<'_, T, F> {
    fn drop(self) {
        let Self { cell: _, hand } = self;
        hand.leave();
    }
}

impl<T: Drop> Drop for RefMut<'_, T> {
    fn drop(self) {
        let Self { cell, value } = self;
        cell.give(value);
    }
}
