//! What a guard gives.
ghost use Rattle.std.specs.Prelude.{◌≡◌, IfOk, Some};
ghost use Rattle.shred_cell.specs.Cells.{guard_tag, shown_by, tag_of, value_to_write};

use super::{InvalidBorrow, Ref, RefMut, TrustCell};
use crate::fact::{Fact, Kept};
use crate::word::Ask;
use counted_slot::Claim;
use std::ops::{Deref, DerefMut};
use std::sync::Wait;

impl<'a, T: Drop, F: Fact<T>> Ref<'a, T, F> {
    // The guard of what a reader gained. The value is there, since a writer that takes it out of its place leaves a word by
    // which no reader comes in.
    pub(super) fn over(
        cell: &'a TrustCell<T, F>,
        hand: Claim<'a, Option<Kept<T, F>>>,
    ) -> Result<Self, InvalidBorrow>
        requires reads { hand.right ≡ 1 }
        requires tied { hand.tag ≡ tag_of cell.now }
        ensures { IfOk result (λ guard. guard_tag guard ≡ hand.entry.tag) }
    {
        if hand.get().is_some() {
            Ok(Ref { cell, hand })
        } else {
            hand.leave();
            Err(InvalidBorrow)
        }
    }

    // The value that the guard shows.
    pub(crate) fn value(&self) -> &T
        ensures fact { F.holds (guard_tag self.now) result.now }
        ensures shown { shown_by self.now ≡ Some result.now }
    {
        match self.hand.get() {
            Some(kept) => &kept.value,
            None => unreachable!(),
        }
    }

    /// Another guard that reads the value; refused where 1,073,741,823 guards read it. It tries again where another step came
    /// first.
    pub fn try_clone<R: Wait>(&self, rt: &R) -> Result<Ref<'a, T, F>, InvalidBorrow>
        ensures { IfOk result (λ guard. guard_tag guard ≡ guard_tag self.now) }
    {
        self.cell.read(rt, Ask::Copy)
    }
}

impl<T: Drop, F: Fact<T>> Deref for Ref<'_, T, F> {
    type Target = T;

    ghost deref_gives = { λ guard value. F.holds (guard_tag guard) value × (shown_by guard ≡ Some value) };

    fn deref(&self) -> &T {
        self.value()
    }
}

impl<T: Drop> Deref for RefMut<'_, T> {
    type Target = T;

    ghost deref_gives = { λ guard value. value ≡ value_to_write guard };

    fn deref(&self) -> &T {
        &self.value
    }
}

impl<T: Drop> DerefMut for RefMut<'_, T> {
    ghost deref_mut_gives = { λ guard value. value ≡ value_to_write guard };

    fn deref_mut(&mut self) -> &mut T
        ensures shown { result.now ≡ value_to_write self.old }
    {
        &mut self.value
    }
}
