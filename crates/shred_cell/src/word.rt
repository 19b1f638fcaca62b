//! The borrow word: who holds a cell, and what each ask makes of it.
ghost use Rattle.std.specs.Prelude.{◌≡◌, List};
ghost use Rattle.shred_cell.specs.Word.{step};
ghost use Rattle.shred_cell.specs.Agreement.{PartyStep, Holders, nobody, AsksLead, Agrees};

/// Who holds a cell.
#[derive(Clone, Copy, Debug, PartialEq, Eq)]
pub enum Word {
    Free,
    Readers(u32),
    Writer,
}

/// What is asked of a cell.
#[derive(Clone, Copy, Debug, PartialEq, Eq)]
pub enum Ask {
    /// A reader comes in.
    Read,
    /// A writer comes in.
    Write,
    /// One that reads comes in once more.
    Copy,
    /// A reader goes out.
    EndRead,
    /// The writer goes out.
    EndWrite,
}

/// At most this many readers hold a cell at a time.
pub const MOST_READERS: u32 = 1_073_741_823;

/// The word after an ask, or none where the ask is refused.
pub fn next(word: Word, ask: Ask) -> Option<Word>
    ensures { result ≡ step word ask }
{
    match word {
        Word::Free => match ask {
            Ask::Read => Some(Word::Readers(1)),
            Ask::Write => Some(Word::Writer),
            Ask::Copy | Ask::EndRead | Ask::EndWrite => None,
        },
        Word::Readers(count) => next_of_readers(count, ask),
        Word::Writer => match ask {
            Ask::EndWrite => Some(Word::Free),
            Ask::Read | Ask::Write | Ask::Copy | Ask::EndRead => None,
        },
    }
}

// The word after an ask of a cell that this many read.
fn next_of_readers(count: u32, ask: Ask) -> Option<Word>
    ensures { result ≡ step (Word.Readers count) ask }
{
    if count == 0 || count > MOST_READERS {
        return None;
    }
    match ask {
        Ask::Read | Ask::Copy => {
            if count < MOST_READERS {
                Some(Word::Readers(count + 1))
            } else {
                None
            }
        }
        Ask::EndRead => {
            if count == 1 {
                Some(Word::Free)
            } else {
                Some(Word::Readers(count - 1))
            }
        }
        Ask::Write | Ask::EndWrite => None,
    }
}

/// For every list of steps of every party, from a cell that nobody holds, the word agrees with who holds the cell.
pub fn agreement()
    ensures { (steps : List PartyStep) (word : Word) (holders : Holders) → AsksLead Word.Free nobody steps word holders → Agrees word holders }
{}
