//! Which entries of a plan depend on which.
ghost use Rattle.std.specs.Prelude.{◌≡◌, IfOk, length};
ghost use Rattle.plan_engine.specs.Entries.{NameEarlier};
ghost use Rattle.plan_engine.specs.Dependence.{IsRowOf, TellUpTo, is_marked, is_reached};

use crate::declaration::Declaration;
use std::alloc::{AllocError, Global};

/// For each entry a row of marks, one for each entry before it: whether it depends on that, at once or through others. Each
/// entry names only earlier ones.
pub(crate) fn dependence(
    alloc: Global,
    entries: &[Declaration],
) -> Result<Vec<Vec<bool>>, AllocError>
    requires { NameEarlier entries.now }
    ensures { IfOk result (λ rows. TellUpTo entries.now (length entries.now) rows.items) }
{
    let mut rows = Vec::new(alloc);
    for entry in entries {
        let row = row_of(alloc, entry.dependencies.as_slice(), rows.as_slice())?;
        rows.push(row)?;
    }
    Ok(rows)
}

/// The row of the next entry, which names these.
fn row_of(alloc: Global, named: &[usize], rows: &[Vec<bool>]) -> Result<Vec<bool>, AllocError>
    ensures { IfOk result (IsRowOf named.now rows.now) }
{
    let mut row = Vec::new(alloc);
    for other in 0..rows.len() {
        row.push(is_reached(named, rows, other))?;
    }
    Ok(row)
}

/// Whether the other is one of those that are named, or one of these has a mark for it.
fn is_reached(named: &[usize], rows: &[Vec<bool>], other: usize) -> bool
    ensures { result ≡ is_reached named.now rows.now other }
{
    named
        .iter()
        .any(|next| *next == other || is_marked(rows, *next, other))
}

/// Whether the entry has a mark for the other.
pub(crate) fn is_marked(rows: &[Vec<bool>], entry: usize, other: usize) -> bool
    ensures { result ≡ is_marked rows.now entry other }
{
    match rows.get(entry) {
        Some(row) => row.get(other).copied().unwrap_or(false),
        None => false,
    }
}
