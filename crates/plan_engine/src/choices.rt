//! The pairs of entries whose order the planner chose.
ghost use Rattle.std.specs.Prelude.{◌↔◌, IfOk, IsTrue, length};
ghost use Rattle.shred_model.specs.Access.{Conflicts};
ghost use Rattle.plan_engine.specs.Entries.{access_at};
ghost use Rattle.plan_engine.specs.Choices.{AreChoicesOf, AreOrdered, IsChoice, Picks, pairs_with};
ghost use Rattle.plan_engine.specs.Dependence.{TellUpTo};

use crate::declaration::Declaration;
use crate::declarations::Declarations;
use crate::dependence::{dependence, is_marked};
use std::alloc::{AllocError, Global};

/// Two entries, by their places in order of addition. The first stands before the second in the plan.
#[derive(Clone, Copy)]
pub struct Choice {
    pub first: usize,
    pub second: usize,
}

impl Declarations {
    /// Of the entries of a plan, listed in the plan's order, the pairs that conflict with no path of dependencies from one to
    /// the other: each once, in that order.
    pub fn choices(&self, alloc: Global, plan: &[usize]) -> Result<Vec<Choice>, AllocError>
        ensures { IfOk result (AreChoicesOf self.now.entries.items plan.now) }
    {
        let entries = self.entries.as_slice();
        let rows = dependence(alloc, entries)?;
        choices_among(alloc, entries, rows.as_slice(), plan)
    }
}

/// The choices among the entries of a list, by the marks for what depends on what.
fn choices_among(
    alloc: Global,
    entries: &[Declaration],
    rows: &[Vec<bool>],
    plan: &[usize],
) -> Result<Vec<Choice>, AllocError>
    requires { TellUpTo entries.now (length entries.now) rows.now }
    ensures { IfOk result (AreChoicesOf entries.now plan.now) }
{
    let mut choices = Vec::new(alloc);
    for (place, first) in plan.iter().enumerate() {
        let mut more = choices_with(alloc, entries, rows, *first, &plan[place + 1..])?;
        choices.append(&mut more)?;
    }
    Ok(choices)
}

/// The choices of an entry and each of those that stand behind it.
fn choices_with(
    alloc: Global,
    entries: &[Declaration],
    rows: &[Vec<bool>],
    first: usize,
    rest: &[usize],
) -> Result<Vec<Choice>, AllocError>
    requires { TellUpTo entries.now (length entries.now) rows.now }
    ensures { IfOk result (λ all. Picks (IsChoice entries.now) (pairs_with first rest.now) all.items) }
{
    let mut choices = Vec::new(alloc);
    for second in rest {
        let pair = Choice {
            first,
            second: *second,
        };
        if is_choice(entries, rows, pair) {
            choices.push(pair)?;
        }
    }
    Ok(choices)
}

/// Whether the two conflict, and no path of dependencies leads from one to the other.
fn is_choice(entries: &[Declaration], rows: &[Vec<bool>], pair: Choice) -> bool
    requires { TellUpTo entries.now (length entries.now) rows.now }
    ensures { IsTrue result ↔ IsChoice entries.now pair }
{
    conflict(entries, pair.first, pair.second) && !are_ordered(entries, rows, pair)
}

/// Whether a path of dependencies leads from one of the two to the other.
fn are_ordered(entries: &[Declaration], rows: &[Vec<bool>], pair: Choice) -> bool
    requires { TellUpTo entries.now (length entries.now) rows.now }
    ensures { IsTrue result ↔ AreOrdered entries.now pair }
{
    is_marked(rows, pair.first, pair.second) || is_marked(rows, pair.second, pair.first)
}

/// Whether the entries at these places conflict.
fn conflict(entries: &[Declaration], first: usize, second: usize) -> bool
    ensures { IsTrue result ↔ Conflicts (access_at entries.now first) (access_at entries.now second) }
{
    let Some(one) = entries.get(first) else {
        return false;
    };
    let Some(other) = entries.get(second) else {
        return false;
    };
    one.conflicts_with(other)
}
