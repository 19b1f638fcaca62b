//! What the steps of a system declare.
ghost use Rattle.std.specs.Prelude.{◌≡◌, [], ◌∷◌, Some, map, IfOk, IfSome, OnOk};
ghost use Rattle.script_text.specs.Declares.{places_named, places_read, places_written, with_place};
ghost use Rattle.script_text.specs.Place.{id_at};

use script_text::step::Step;
use script_text::value::id_at;
use shred_world::{Accessor, OutOfMemory, ResourceId};
use std::alloc::{AllocError, Global};

/// The places of the resources that a system reads, of those that it writes, and of those that operands of its steps name,
/// each once.
#[derive(Drop)]
pub struct Declared {
    pub read: Vec<usize>,
    pub written: Vec<usize>,
    pub named: Vec<usize>,
}

impl Declared {
    ghost use Rattle.script_engine.specs.Declaring.{DeclaresMore};

    /// What the steps declare, in the order in which they first do. Refused where memory is.
    pub fn of_steps(alloc: Global, steps: &[Step]) -> Result<Declared, AllocError>
        ensures read { IfOk result (λ declared. declared.read.items ≡ places_read [] steps.now) }
        ensures written { IfOk result (λ declared. declared.written.items ≡ places_written [] steps.now) }
        ensures named { IfOk result (λ declared. declared.named.items ≡ places_named [] steps.now) }
    {
        let mut declared = Declared {
            read: Vec::new(alloc),
            written: Vec::new(alloc),
            named: Vec::new(alloc),
        };
        for step in steps {
            declared.add(*step)?;
        }
        Ok(declared)
    }

    fn add(&mut self, step: Step) -> Result<(), AllocError>
        ensures { OnOk result (DeclaresMore step self.old self.new) }
    {
        if let Some(place) = step.read_place() {
            add_place(&mut self.read, place)?;
        }
        if let Some(place) = step.write_place() {
            add_place(&mut self.written, place)?;
        }
        if let Some(place) = step.named_place() {
            add_place(&mut self.named, place)?;
        }
        Ok(())
    }

    /// The place of the one resource that is written, where there is just one and operands name none.
    pub(crate) fn only_number(&self) -> Option<usize>
        ensures { IfSome result (λ place. self.now.written.items ≡ place ∷ []) }
    {
        let (place, rest) = self.written.as_slice().split_first()?;
        if rest.is_empty() && self.named.is_empty() {
            Some(*place)
        } else {
            None
        }
    }

    /// The same places again.
    pub fn copy(&self, alloc: Global) -> Result<Declared, OutOfMemory>
        ensures read { IfOk result (λ copy. copy.read.items ≡ self.now.read.items) }
        ensures written { IfOk result (λ copy. copy.written.items ≡ self.now.written.items) }
        ensures named { IfOk result (λ copy. copy.named.items ≡ self.now.named.items) }
    {
        Ok(Declared {
            read: copy_places(alloc, &self.read)?,
            written: copy_places(alloc, &self.written)?,
            named: copy_places(alloc, &self.named)?,
        })
    }
}

impl Accessor for Declared {
    ghost reads = { λ declared. map id_at declared.read.items };

    ghost writes = { λ declared. map id_at declared.written.items };

    fn reads(&self, alloc: Global) -> Result<Vec<ResourceId>, OutOfMemory> {
        ids_of(alloc, &self.read)
    }

    fn writes(&self, alloc: Global) -> Result<Vec<ResourceId>, OutOfMemory> {
        ids_of(alloc, &self.written)
    }
}

// Puts the place at the end of the list, where the list lacks it.
fn add_place(places: &mut Vec<usize>, place: usize) -> Result<(), AllocError>
    ensures { OnOk result (places.new.items ≡ with_place places.old.items (Some place)) }
{
    if places.contains(&place) {
        return Ok(());
    }
    places.push(place)?;
    Ok(())
}

fn copy_places(alloc: Global, places: &Vec<usize>) -> Result<Vec<usize>, OutOfMemory>
    ensures { IfOk result (λ copy. copy.items ≡ places.now.items) }
{
    Ok(Vec::from_slice(alloc, places.as_slice())?)
}

// The ids of the resources at these places.
fn ids_of(alloc: Global, places: &Vec<usize>) -> Result<Vec<ResourceId>, OutOfMemory>
    ensures { IfOk result (λ ids. ids.items ≡ map id_at places.now.items) }
{
    let mut ids = Vec::new(alloc);
    for place in places {
        ids.push(id_at(*place))?;
    }
    Ok(ids)
}
