//! An example of a shared world: threads read and write one resource, each where it is let in.
ghost use Rattle.std.specs.Prelude.{◌≡◌, IfErr, OnOk, false, true};
ghost use Rattle.shred_cell.specs.SharedWorlds.{shares};
ghost use Rattle.shred_table.specs.Id.{id_of};
ghost use Rattle.test_cells.specs.Numbers.{sum_kind};

use crate::numbers::{Number, Sum};
use shred_cell::{SharedError, SharedWorld};
use std::alloc::{AllocError, Global};
use std::sync::Wait;
use std::thread::{Threads, map_indices};

/// Adds one to the sum; refused `InvalidBorrow` while another borrows it, and `Missing` exactly where none is held.
pub fn add_one(shared: &SharedWorld<Number>) -> Result<(), SharedError>
    ensures there { OnOk result (shares shared.now (id_of sum_kind 0) ≡ true) }
    ensures borrowed { shares shared.now (id_of sum_kind 0) ≡ true → IfErr result (λ error. error ≡ SharedError.InvalidBorrow) }
{
    let mut sum = shared.fetch_mut::<Sum>()?;
    sum.0 = sum.0.wrapping_add(1);
    Ok(())
}

/// The sum; refused `InvalidBorrow` while it is written, and `Missing` exactly where none is held.
pub fn sum_in<R: Wait>(rt: &R, shared: &SharedWorld<Number>) -> Result<i64, SharedError>
    ensures there { OnOk result (shares shared.now (id_of sum_kind 0) ≡ true) }
    ensures borrowed { shares shared.now (id_of sum_kind 0) ≡ true → IfErr result (λ error. error ≡ SharedError.InvalidBorrow) }
{
    let sum = shared.fetch::<Sum>(rt)?;
    Ok(sum.0)
}

/// How often each of so many threads added one to the sum, of a thousand times that it tried.
pub fn added_by_each<R: Threads + Sync>(
    rt: &R,
    alloc: Global,
    shared: &SharedWorld<Number>,
    threads: usize,
) -> Result<Vec<usize>, AllocError> {
    map_indices(rt, alloc, threads, &|_| added_by_one(shared))
}

fn added_by_one(shared: &SharedWorld<Number>) -> usize {
    (0..1_000u32).filter(|_| add_one(shared).is_ok()).count()
}
