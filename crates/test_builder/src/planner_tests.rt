//! The planner, on plans that were worked out by hand.

use crate::plan_rows::{BY_ACCESS, BY_ADDITION, BY_DEPENDENCY, BY_FIRST, Call, Row, UNSORTED};
use crate::planned_system::{OnlyPlanned, expect_ids, system_of};
use shred::{Rule, Stage, StagesBuilder, SystemId};
use std::alloc::{AllocError, Global};
use std::process::Abort;
use std::test::Fail;
use test_calls::calls::insert;
use test_values::Value;

type Builder = StagesBuilder<Value, OnlyPlanned>;

fn start_stage(text: &mut String) -> Result<(), AllocError> {
    if !text.is_empty() {
        text.push_str(" ")?;
    }
    text.push_str("[")
}

fn start_group(text: &mut String) -> Result<(), AllocError> {
    if text.as_str().ends_with(']') {
        text.push_str(",")?;
    }
    text.push_str("[")
}

fn add_id(text: &mut String, id: usize) -> Result<(), AllocError> {
    if !text.as_str().ends_with('[') {
        text.push_str(",")?;
    }
    write!(text, "{id}")
}

fn add_ids(text: &mut String, ids: &[SystemId]) -> Result<(), AllocError> {
    for id in ids {
        add_id(text, id.0)?;
    }
    text.push_str("]")
}

fn add_stage(text: &mut String, stage: &Stage<Value, OnlyPlanned>) -> Result<(), AllocError> {
    start_stage(text)?;
    for place in 0..stage.max_threads() {
        start_group(text)?;
        add_ids(text, stage.group_ids(place).unwrap_or(&[]))?;
    }
    text.push_str("]")
}

/// A plan, as `[[0],[1,2]] [[3]]`.
fn text_of_stages(
    alloc: Global,
    stages: &[Stage<Value, OnlyPlanned>],
) -> Result<String, AllocError> {
    let mut text = String::new(alloc);
    for stage in stages {
        add_stage(&mut text, stage)?;
    }
    Ok(text)
}

fn system_ids(alloc: Global, numbers: &[usize]) -> Result<Vec<SystemId>, AllocError> {
    let mut ids = Vec::new(alloc);
    for number in numbers {
        ids.push(SystemId(*number))?;
    }
    Ok(ids)
}

/// A new builder after these calls.
pub(crate) fn quickly(alloc: Global, calls: &[Call]) -> Result<Builder, Fail> {
    after_calls(alloc, Builder::default(alloc), calls)
}

/// The builder after these calls.
fn after_calls(alloc: Global, empty: Builder, calls: &[Call]) -> Result<Builder, Fail> {
    let mut builder = empty;
    let mut next = 0;
    for call in calls {
        match *call {
            Call::Barrier => builder.add_barrier(),
            Call::Insert(case, dependencies) => {
                let ids = system_ids(alloc, dependencies)?;
                insert(&mut builder, ids.as_slice(), next, system_of(alloc, case)?)?;
                next = next.wrapping_add(1);
            }
        }
    }
    Ok(builder)
}

fn expect_plans(rt: &impl Abort, alloc: Global, rule: Rule, rows: &[Row]) -> Result<(), Fail> {
    for row in rows {
        let empty = Builder::new_with_rule(alloc, rule);
        let stages = after_calls(alloc, empty, row.calls)?.build();
        let text = text_of_stages(alloc, stages.as_slice())?;
        assert_eq!(rt; text.as_str(), row.plan);
    }
    Ok(())
}

#[test]
fn systems_are_planned_by_what_they_touch_and_depend_on(rt: HostRuntime) -> Result<(), Fail> {
    for rule in [Rule::First, Rule::Ordered] {
        expect_plans(&rt, rt.alloc(), rule, BY_ACCESS)?;
        expect_plans(&rt, rt.alloc(), rule, BY_DEPENDENCY)?;
    }
    expect_plans(&rt, rt.alloc(), Rule::First, BY_FIRST)?;
    expect_plans(&rt, rt.alloc(), Rule::Ordered, BY_ADDITION)
}

fn expect_lists(
    rt: &impl Abort,
    alloc: Global,
    calls: &[Call],
    reads: &[u32],
    writes: &[u32],
) -> Result<(), Fail> {
    let builder = quickly(alloc, calls)?;
    expect_ids(rt, alloc, builder.fetch_all_reads()?.as_slice(), reads)?;
    expect_ids(rt, alloc, builder.fetch_all_writes()?.as_slice(), writes)?;
    Ok(())
}

#[test]
fn the_lists_of_a_plan_are_sorted_without_doubles(rt: HostRuntime) -> Result<(), Fail> {
    expect_lists(&rt, rt.alloc(), UNSORTED, &[1, 3], &[0, 2, 4])?;
    expect_lists(&rt, rt.alloc(), &[], &[], &[])
}
