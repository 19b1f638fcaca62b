//! The borrow word.
use shred_cell::word::{Ask, Word, next};

const MOST: u32 = 1_073_741_823;

#[test]
fn the_word_counts_to_the_most_readers(rt: HostRuntime) {
    assert_eq!(rt;
        next(Word::Readers(1_073_741_822), Ask::Read),
        Some(Word::Readers(MOST))
    );
    assert_eq!(rt; next(Word::Readers(MOST), Ask::Read), None);
    assert_eq!(rt; next(Word::Readers(1), Ask::EndRead), Some(Word::Free));
    assert_eq!(rt; next(Word::Writer, Ask::Read), None);
}
