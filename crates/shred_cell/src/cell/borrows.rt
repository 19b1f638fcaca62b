//! The steps of a cell, and its borrows.
ghost use Rattle.std.specs.Prelude.{◌≡◌, ◌<◌, IfErr, IfOk, IfSome, None, OnOk, is_some, true};
ghost use Rattle.shred_cell.specs.Bits.{right_of, word_of_bits};
ghost use Rattle.shred_cell.specs.Cells.{guard_tag, tag_of};
ghost use Rattle.shred_cell.specs.Word.{step};

use super::{InvalidBorrow, Ref, RefMut, TrustCell};
use crate::bits::{bits_of, word_of};
use crate::fact::{Fact, Kept};
use crate::word::{Ask, Word, next};
use counted_slot::{Claim, Counted, FREE, MARKED, PRESENT, TAKEN};
use std::marker::PhantomData;
use std::sync::Wait;

// Why a party did not come in.
#[derive(Drop)]
enum Missed {
    // The table refuses the ask.
    Refused,
    // Another step came first, and this number was found.
    Lost(u64),
}

impl<T: Drop> TrustCell<T> {
    /// A cell of this value. It takes no memory.
    pub fn new(value: T) -> Self {
        TrustCell::with_fact(value, &())
    }

    /// The value, to write; refused where a guard that writes was forgotten.
    pub fn get_mut(&mut self) -> Result<RefMut<'_, T>, InvalidBorrow> {
        self.try_borrow_mut()
    }

    /// The value, to write; refused while it is borrowed. It tries once, and waits for nobody.
    pub fn borrow_mut(&self) -> Result<RefMut<'_, T>, InvalidBorrow> {
        self.try_borrow_mut()
    }

    /// The value, to write; refused while it is borrowed. It tries once, and waits for nobody.
    pub fn try_borrow_mut(&self) -> Result<RefMut<'_, T>, InvalidBorrow> {
        match self.take() {
            Some(value) => Ok(RefMut { cell: self, value }),
            None => Err(InvalidBorrow),
        }
    }
}

impl<T: Default + Drop> Default for TrustCell<T> {
    fn default() -> Self {
        TrustCell::new(T::default())
    }
}

impl<T: Drop, F: Fact<T>> TrustCell<T, F> {
    // A cell of this value, whose values have the fact of this tag.
    pub(crate) fn with_fact(value: T, tag: &F::Tag) -> Self
        requires { F.holds tag.now value }
        ensures { tag_of result ≡ tag.now }
    {
        let slot = Counted::new(None, tag);
        let kept = Kept {
            value,
            fact: PhantomData,
        };
        let (found, hand) = slot.turn(FREE, TAKEN);
        if found == FREE {
            hand.put(Some(kept), PRESENT);
            return TrustCell { slot };
        }
        // No one else has seen the slot, so the exchange is not lost.
        hand.done();
        TrustCell {
            slot: Counted::new(Some(kept), tag),
        }
    }

    // A cell whose value is lost, which refuses each borrow.
    pub(crate) fn lost(tag: &F::Tag) -> Self
        ensures { tag_of result ≡ tag.now }
    {
        TrustCell {
            slot: Counted::new(None, tag),
        }
    }

    /// The value; refused where a guard that writes was forgotten.
    pub fn into_inner(self) -> Result<T, InvalidBorrow>
        ensures { IfOk result (F.holds (tag_of self)) }
    {
        let TrustCell { slot } = self;
        match slot.into_inner() {
            Some(kept) => Ok(kept.value),
            None => Err(InvalidBorrow),
        }
    }

    // A party comes in by one exchange, of the number that was seen for that of the word that the table gives.
    #[tactic(auto, using(crate::proofs::Turns::turns, crate::proofs::Turns::gains))]
    fn come_in(&self, seen: u64, ask: Ask) -> Result<Claim<'_, Option<Kept<T, F>>>, Missed>
        requires { 0 < right_of ask }
        ensures right { IfOk result (λ hand. hand.right ≡ right_of ask) }
        ensures tag { IfOk result (λ hand. hand.tag ≡ tag_of self.now) }
        ensures admitted { OnOk result (is_some (step (word_of_bits seen) ask) ≡ true) }
        ensures refused { IfErr result (λ missed. missed ≡ Missed.Refused → step (word_of_bits seen) ask ≡ None) }
    {
        let Some(then) = next(word_of(seen), ask) else {
            return Err(Missed::Refused);
        };
        let (found, hand) = self.slot.turn(seen, bits_of(then));
        if found == seen {
            Ok(hand)
        } else {
            hand.done();
            Err(Missed::Lost(found))
        }
    }

    // A writer comes in and takes the value out of its place.
    pub(crate) fn take(&self) -> Option<T>
        ensures { IfSome result (F.holds (tag_of self.now)) }
    {
        match self.come_in(PRESENT, Ask::Write) {
            Ok(hand) => match hand.put(None, MARKED) {
                Some(kept) => Some(kept.value),
                None => None,
            },
            Err(_) => None,
        }
    }

    // The writer goes out, and puts the value back into its place.
    pub(crate) fn give(&self, value: T)
        requires { F.holds (tag_of self.now) value }
    {
        let Some(then) = next(Word::Writer, Ask::EndWrite) else {
            unreachable!()
        };
        let (found, hand) = self.slot.turn(MARKED, TAKEN);
        if found == MARKED {
            let kept = Kept {
                value,
                fact: PhantomData,
            };
            hand.put(Some(kept), bits_of(then));
        } else {
            // No one but the writer changes the word while one writes, so the exchange is not lost.
            hand.done();
        }
    }

    // A reader comes in; it tries again after a lost exchange.
    pub(super) fn read<R: Wait>(&self, rt: &R, ask: Ask) -> Result<Ref<'_, T, F>, InvalidBorrow>
        requires { right_of ask ≡ 1 }
        ensures { IfOk result (λ guard. guard_tag guard ≡ tag_of self.now) }
    {
        let mut seen = self.slot.load();
        for _ in rt.forever() {
            match self.come_in(seen, ask) {
                Ok(hand) => return Ref::over(self, hand),
                Err(Missed::Lost(found)) => seen = found,
                Err(Missed::Refused) => return Err(InvalidBorrow),
            }
        }
        unreachable!()
    }

    /// The value, to read; refused while it is written, and where 1,073,741,823 guards read it. It tries again where
    /// another step came first.
    pub fn borrow<R: Wait>(&self, rt: &R) -> Result<Ref<'_, T, F>, InvalidBorrow>
        ensures { IfOk result (λ guard. guard_tag guard ≡ tag_of self.now) }
    {
        self.try_borrow(rt)
    }

    /// The value, to read; refused while it is written, and where 1,073,741,823 guards read it. It tries again where
    /// another step came first.
    pub fn try_borrow<R: Wait>(&self, rt: &R) -> Result<Ref<'_, T, F>, InvalidBorrow>
        ensures { IfOk result (λ guard. guard_tag guard ≡ tag_of self.now) }
    {
        self.read(rt, Ask::Read)
    }
}
