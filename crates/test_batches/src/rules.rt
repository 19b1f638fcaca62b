//! When a builder takes a rule.

use crate::adds::adds_to;
use crate::bounds::times;
use crate::plans::{AddsBuilder, add_batch};
use shred::{AddError, DispatcherBuilder, Now, Rule};
use std::alloc::Global;
use std::process::Abort;

/// A call of a builder.
#[derive(Clone, Copy)]
enum Call {
    Rule(Rule),
    Barrier,
    ThreadLocal,
    /// A system is added.
    Add,
    /// A system that depends on an unknown one is refused.
    AddInVain,
    AddBatch,
}

/// Calls of a new builder, and how it answers to a rule after them.
struct Row {
    calls: &'static [Call],
    answer: Result<(), AddError>,
}

const TOO_LATE: Result<(), AddError> = Err(AddError::RuleTooLate);

const ROWS: &[Row] = &[
    Row {
        calls: &[],
        answer: Ok(()),
    },
    Row {
        calls: &[Call::Rule(Rule::Ordered), Call::Rule(Rule::First)],
        answer: Ok(()),
    },
    Row {
        calls: &[Call::Barrier, Call::ThreadLocal],
        answer: Ok(()),
    },
    Row {
        calls: &[Call::AddInVain],
        answer: Ok(()),
    },
    Row {
        calls: &[Call::Add],
        answer: TOO_LATE,
    },
    Row {
        calls: &[Call::AddBatch],
        answer: TOO_LATE,
    },
    Row {
        calls: &[Call::Rule(Rule::Ordered), Call::Add, Call::AddInVain],
        answer: TOO_LATE,
    },
];

fn add(builder: &mut AddsBuilder, dependencies: &[&str]) -> Result<(), AddError> {
    builder.add(adds_to(0, 1), "", dependencies)?;
    Ok(())
}

/// A batch of an empty plan is added.
fn add_empty_batch(alloc: Global, builder: &mut AddsBuilder) -> Result<(), AddError> {
    let inner: AddsBuilder = DispatcherBuilder::new(alloc);
    add_batch(builder, times(3, 1), inner, "", &[])?;
    Ok(())
}

/// The builder's answer to the call.
fn called(alloc: Global, builder: &mut AddsBuilder, call: Call) -> Result<(), AddError> {
    match call {
        Call::Rule(rule) => builder.add_rule(rule),
        Call::Barrier => {
            builder.add_barrier();
            Ok(())
        }
        Call::ThreadLocal => builder.add_thread_local(Now(adds_to(0, 1))),
        Call::Add => add(builder, &[]),
        Call::AddInVain => add(builder, &["x"]),
        Call::AddBatch => add_empty_batch(alloc, builder),
    }
}

/// How the builder is to answer to the call before the rule.
fn answer_of(call: Call) -> Result<(), AddError> {
    match call {
        Call::AddInVain => Err(AddError::NoSuchSystem { place: 0 }),
        _ => Ok(()),
    }
}

fn expect_answers(rt: &impl Abort, alloc: Global, row: &Row) {
    let mut builder: AddsBuilder = DispatcherBuilder::new(alloc);
    for call in row.calls {
        assert_eq!(rt; called(alloc, &mut builder, *call), answer_of(*call));
    }
    for rule in [Rule::Ordered, Rule::First] {
        assert_eq!(rt; called(alloc, &mut builder, Call::Rule(rule)), row.answer);
    }
}

#[test]
fn a_rule_is_taken_until_a_system_or_a_batch_is_added(rt: HostRuntime) {
    for row in ROWS {
        expect_answers(&rt, rt.alloc(), row);
    }
}
