//! The borrow word as the number that a slot keeps.
ghost use Rattle.std.specs.Prelude.{◌≡◌};
ghost use Rattle.shred_cell.specs.Bits.{word_of_bits, bits_of_word};

use crate::word::Word;
use counted_slot::{ONE_READER, PRESENT, TAKEN};

/// The word that a number stands for. Where the value is not there, since a writer has it, one writes.
pub(crate) fn word_of(bits: u64) -> Word
    ensures { result ≡ word_of_bits bits }
{
    if bits % 4 != PRESENT {
        return Word::Writer;
    }
    let readers = (bits % 0x1_0000_0000 / 4) as u32;
    if readers == 0 {
        Word::Free
    } else {
        Word::Readers(readers)
    }
}

/// The number that a party leaves as it comes in, by the word after it.
pub(crate) fn bits_of(word: Word) -> u64
    ensures { result ≡ bits_of_word word }
{
    match word {
        Word::Free => PRESENT,
        Word::Readers(count) => u64::from(count) * ONE_READER + PRESENT,
        Word::Writer => TAKEN,
    }
}
