//! What entities have in two tables, one after the other.
ghost use Rattle.std.specs.Prelude.{◌≡◌, ℕ, ℤ, List, length};
ghost use Rattle.shredstore.specs.Rows.{IsAscending};
ghost use Rattle.shredstore.specs.Joins.{joined};

use crate::ahead::Ahead;
use crate::entity::Entity;
use std::marker::Model;

/// The entities that have a value in both of two tables, and these, in ascending order of the entities.
#[derive(Drop)]
pub struct Joined<'rows> {
    rows: &'rows [(u64, i64)],
    others: Ahead<'rows>,
}

impl<'rows> Model for Joined<'rows> {
    ghost Value = { List (ℕ × (ℤ × ℤ)) };

    ghost view = { λ both. joined both.rows.now both.others };

    ghost invariant = { λ both. IsAscending both.rows.now };
}

impl<'rows> Joined<'rows> {
    /// Those of these rows, whose entities rise.
    pub(crate) fn of(rows: &'rows [(u64, i64)], others: &'rows [(u64, i64)]) -> Self
        requires rows { IsAscending rows.now }
        requires others { IsAscending others.now }
        ensures { result ≡ joined rows.now others.now }
    {
        Joined {
            rows,
            others: Ahead::of(others),
        }
    }
}

impl<'rows> Iterator for Joined<'rows> {
    ghost use Rattle.std.specs.Iterator.{at_most};
    ghost use Rattle.std.specs.Map.Iter.{TakesFirst};

    type Item = (Entity, (i64, i64));

    ghost next_gives = { TakesFirst (λ item. (item.0.0, item.1)) };

    ghost remaining = { λ both. at_most (length both) };

    fn next(&mut self) -> Option<(Entity, (i64, i64))> {
        while let Some((row, rest)) = self.rows.split_first() {
            self.rows = rest;
            if let Some(other) = self.others.value(row.0) {
                return Some((Entity(row.0), (row.1, other)));
            }
        }
        None
    }
}
