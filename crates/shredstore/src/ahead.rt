//! Rows that are passed by, entity after entity.
ghost use Rattle.std.specs.Prelude.{◌≡◌};
ghost use Rattle.std.specs.Bool.{OnTrue};
ghost use Rattle.shredstore.specs.Rows.{IsAscending, Pairs, value_at};
ghost use Rattle.shredstore.specs.Joins.{ArePassedBy, AreSameBehind, IsSmallerAt};

use std::marker::Model;

/// How many rows are passed by one after the other, at most.
const NEAR: usize = 4;

/// The rows that are still ahead.
#[derive(Drop)]
pub(crate) struct Ahead<'rows> {
    rows: &'rows [(u64, i64)],
}

impl<'rows> Model for Ahead<'rows> {
    ghost Value = { Pairs };

    ghost view = { λ ahead. ahead.rows.now };

    ghost invariant = { λ ahead. IsAscending ahead.rows.now };
}

// Whether the row at the place, if there is one, is of a smaller entity.
fn is_smaller_at(rows: &[(u64, i64)], place: usize, entity: u64) -> bool
    ensures { OnTrue result (IsSmallerAt entity place rows.now) }
{
    match rows.get(place) {
        Some(row) => row.0 < entity,
        None => false,
    }
}

// The rows, without some at the front that are of smaller entities: in steps that double as long as they may be taken, and halve
// from then on.
fn leap(rows: &[(u64, i64)], entity: u64) -> &[(u64, i64)]
    requires { IsAscending rows.now }
    ensures { ArePassedBy entity rows.now result.now }
{
    let (mut ahead, mut step) = (rows, NEAR);
    while is_smaller_at(ahead, step, entity) {
        ahead = ahead.split_at(step).1;
        step = step.saturating_mul(2);
    }
    while step > NEAR {
        step /= 2;
        if is_smaller_at(ahead, step, entity) {
            ahead = ahead.split_at(step).1;
        }
    }
    ahead
}

impl<'rows> Ahead<'rows> {
    /// All of these rows, whose entities rise.
    pub(crate) fn of(rows: &'rows [(u64, i64)]) -> Self
        requires { IsAscending rows.now }
        ensures { result ≡ rows.now }
    {
        Ahead { rows }
    }

    /// The value of the entity, if it has one. Its row, and those of smaller entities, are passed by.
    pub(crate) fn value(&mut self, entity: u64) -> Option<i64>
        ensures value { result ≡ value_at self.old entity }
        ensures later { AreSameBehind entity self.old self.new }
    {
        while let Some((row, rest)) = self.rows.split_first() {
            if row.0 > entity {
                return None;
            }
            if row.0 == entity {
                self.rows = rest;
                return Some(row.1);
            }
            self.rows = leap(rest, entity);
        }
        None
    }
}
