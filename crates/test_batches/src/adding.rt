//! What `add_batch` makes of a builder, and what it refuses.

use crate::adds::{Adds, adds_to};
use crate::bounds::{Bounds, times};
use crate::plans::{AddsBuilder, add_batch, around, plan_of};
use shred::{AddError, DispatcherBuilder, SystemId};
use std::alloc::Global;
use std::process::Abort;
use std::test::Fail;

fn named(alloc: Global, system: Adds) -> Result<AddsBuilder, AddError> {
    let builder: AddsBuilder = DispatcherBuilder::new(alloc);
    builder.with(system, "a", &[])
}

/// The builder answers so to a batch of this name.
fn expect_added(
    rt: &(impl Abort + AllocGlobal),
    builder: &mut AddsBuilder,
    name: &str,
    dependencies: &[&str],
    answer: Result<SystemId, AddError>,
) -> Result<(), AddError> {
    let inner = named(rt.alloc(), adds_to(1, 1))?;
    assert_eq!(rt;
        add_batch(builder, times(3, 1), inner, name, dependencies),
        answer
    );
    Ok(())
}

#[test]
fn a_refused_batch_leaves_the_builder(rt: HostRuntime) -> Result<(), Fail> {
    let mut builder = named(rt.alloc(), adds_to(0, 1))?;
    let missing = Err(AddError::NoSuchSystem { place: 0 });
    expect_added(&rt, &mut builder, "a", &["x"], missing)?;
    expect_added(&rt, &mut builder, "a", &[], Err(AddError::NameTaken))?;
    expect_added(&rt, &mut builder, "b", &["a"], Ok(SystemId(1)))?;
    Ok(())
}

fn add_behind(alloc: Global, builder: &mut AddsBuilder) -> Result<SystemId, AddError> {
    let inner = named(alloc, adds_to(1, 1))?;
    add_batch(builder, times(3, 1), inner, "b", &["a"])
}

// Whether a batch is added, or memory is wanting. A refusal leaves the builder, and the next try has the id that this one would
// have had.
fn adds_or_wants_memory(alloc: Global) -> bool {
    let Ok(mut builder) = named(alloc, adds_to(0, 1)) else {
        return true;
    };
    match add_behind(alloc, &mut builder) {
        Err(AddError::OutOfMemory) => add_behind(alloc, &mut builder) == Ok(SystemId(1)),
        answer => answer == Ok(SystemId(1)),
    }
}

#[test]
fn a_batch_is_added_or_memory_is_wanting(rt: HostRuntime) {
    assert!(rt; adds_or_wants_memory(rt.alloc()));
}

// Whether a system that touches these stands beside a batch whose controller reads 0 and writes 1, and whose system reads 2 and
// writes 3.
fn stands_beside(alloc: Global, reads: u64, number: u64) -> Result<bool, AddError> {
    let system = Adds {
        reads: 2,
        ..adds_to(3, 1)
    };
    let controller = Bounds {
        reads: 0,
        ..times(1, 1)
    };
    let mut builder = around(alloc, &[], controller, plan_of(alloc, &[system])?)?;
    let beside = Adds {
        reads,
        ..adds_to(number, 1)
    };
    builder.add(beside, "", &[])?;
    Ok(builder.build().max_threads() == 2)
}

/// A system that reads the one and writes the other stands beside the batch, or does not.
struct Beside {
    reads: u64,
    writes: u64,
    stands: bool,
}

const BESIDE: &[Beside] = &[
    Beside {
        reads: 0,
        writes: 9,
        stands: true,
    },
    Beside {
        reads: 1,
        writes: 9,
        stands: false,
    },
    Beside {
        reads: 2,
        writes: 9,
        stands: true,
    },
    Beside {
        reads: 3,
        writes: 9,
        stands: false,
    },
    Beside {
        reads: 8,
        writes: 0,
        stands: false,
    },
    Beside {
        reads: 8,
        writes: 1,
        stands: false,
    },
    Beside {
        reads: 8,
        writes: 2,
        stands: false,
    },
    Beside {
        reads: 8,
        writes: 3,
        stands: false,
    },
    Beside {
        reads: 8,
        writes: 4,
        stands: true,
    },
];

#[test]
fn a_batch_reads_and_writes_what_its_controller_and_its_plan_do(
    rt: HostRuntime,
) -> Result<(), Fail> {
    for beside in BESIDE {
        let stands = stands_beside(rt.alloc(), beside.reads, beside.writes)?;
        assert_eq!(rt; stands, beside.stands);
    }
    Ok(())
}
