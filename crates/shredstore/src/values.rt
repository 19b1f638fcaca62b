//! The rows of a table, one after the other.
ghost use Rattle.std.specs.Prelude.{◌≡◌, length};
ghost use Rattle.shredstore.specs.Rows.{Pairs};

use crate::entity::Entity;
use std::marker::Model;

/// The entities that have a value in a table, and these, in ascending order of the entities.
#[derive(Drop)]
pub struct Values<'rows> {
    rows: &'rows [(u64, i64)],
}

impl<'rows> Model for Values<'rows> {
    ghost Value = { Pairs };

    ghost view = { λ values. values.rows.now };
}

impl<'rows> Values<'rows> {
    /// Those of these rows.
    pub(crate) fn of(rows: &'rows [(u64, i64)]) -> Self
        ensures { result ≡ rows.now }
    {
        Values { rows }
    }
}

impl<'rows> Iterator for Values<'rows> {
    ghost use Rattle.std.specs.Iterator.{at_most};
    ghost use Rattle.std.specs.Map.Iter.{TakesFirst};

    type Item = (Entity, i64);

    ghost next_gives = { TakesFirst (λ item. (item.0.0, item.1)) };

    ghost remaining = { λ values. at_most (length values) };

    fn next(&mut self) -> Option<(Entity, i64)> {
        let (row, rest) = self.rows.split_first()?;
        self.rows = rest;
        Some((Entity(row.0), row.1))
    }
}
