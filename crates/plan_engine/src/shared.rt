//! The resources over which two entries conflict.
use crate::declaration::Declaration;
use std::alloc::{AllocError, Global};

/// Which of two entries write a resource that both declare, and one of them writes.
#[derive(Clone, Copy)]
pub(crate) enum Writers {
    First,
    Second,
    Both,
}

/// A resource over which two entries conflict.
#[derive(Clone, Copy)]
pub(crate) struct Shared<'text> {
    pub(crate) resource: &'text str,
    pub(crate) writers: Writers,
}

/// The resources over which the two conflict, in the order of their names' list.
pub(crate) fn shared_by<'text>(
    alloc: Global,
    resources: &[&'text str],
    first: &Declaration,
    second: &Declaration,
) -> Result<Vec<Shared<'text>>, AllocError> {
    let mut all = Vec::new(alloc);
    for (place, resource) in resources.iter().enumerate() {
        if let Some(writers) = writers_of(first, second, place) {
            all.push(Shared {
                resource: *resource,
                writers,
            })?;
        }
    }
    Ok(all)
}

/// Which of the two write the resource at this place, where they conflict over it.
fn writers_of(first: &Declaration, second: &Declaration, place: usize) -> Option<Writers> {
    match (
        first.writes.contains(&place),
        second.writes.contains(&place),
    ) {
        (true, true) => Some(Writers::Both),
        (true, false) if second.declares(place) => Some(Writers::First),
        (false, true) if first.declares(place) => Some(Writers::Second),
        _ => None,
    }
}
