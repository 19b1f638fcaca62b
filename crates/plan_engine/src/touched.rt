//! What an entry touches.
ghost use Rattle.std.specs.Prelude.{◌≡◌, [], IfOk, OnOk, Some};
ghost use Rattle.script_text.specs.Declares.{with_place};
ghost use Rattle.plan_engine.specs.Together.{reads_of_all, with_places, writes_of_all};

use crate::declaration::Declaration;
use std::alloc::{AllocError, Global};

/// The places of the resources that an entry reads, and of those that it writes, each once.
#[derive(Drop)]
pub(crate) struct Touched {
    pub(crate) reads: Vec<usize>,
    pub(crate) writes: Vec<usize>,
}

impl Touched {
    fn nothing(alloc: Global) -> Touched
        ensures reads { result.reads.items ≡ [] }
        ensures writes { result.writes.items ≡ [] }
    {
        Touched {
            reads: Vec::new(alloc),
            writes: Vec::new(alloc),
        }
    }

    /// What these entries declare together.
    pub(crate) fn by_all(alloc: Global, entries: &[Declaration]) -> Result<Touched, AllocError>
        ensures reads { IfOk result (λ touched. touched.reads.items ≡ reads_of_all [] entries.now) }
        ensures writes { IfOk result (λ touched. touched.writes.items ≡ writes_of_all [] entries.now) }
    {
        let mut touched = Touched::nothing(alloc);
        for entry in entries {
            add_places(&mut touched.reads, entry.reads.as_slice())?;
            add_places(&mut touched.writes, entry.writes.as_slice())?;
        }
        Ok(touched)
    }
}

/// Puts those of the places at the end of the list that it lacks, each once.
pub(crate) fn add_places(places: &mut Vec<usize>, more: &[usize]) -> Result<(), AllocError>
    ensures { OnOk result (places.new.items ≡ with_places places.old.items more.now) }
{
    for place in more {
        add_place(places, *place)?;
    }
    Ok(())
}

/// Puts the place at the end of the list, where the list lacks it.
fn add_place(places: &mut Vec<usize>, place: usize) -> Result<(), AllocError>
    ensures { OnOk result (places.new.items ≡ with_place places.old.items (Some place)) }
{
    if !places.contains(&place) {
        places.push(place)?;
    }
    Ok(())
}
