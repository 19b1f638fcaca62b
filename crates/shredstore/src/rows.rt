//! The rows of a table.
ghost use Rattle.std.specs.Prelude.{◌≡◌, ◌↔◌, [], length, true, None, Some, IfErr, IfOk, OnErr, OnOk};
ghost use Rattle.std.specs.Bool.{OnFalse, OnTrue};
ghost use Rattle.shredstore.specs.Joins.{AreRowsOf, both_at};
ghost use Rattle.shredstore.specs.Rows.{AreMade, IsAscending, IsAt, IsChangedAt, IsRefusedFor, IsRowGap, NoRowRefused, NoRowRefusedTwice, NoneRefused, Pairs, TellsLeast, made_rows, row_made, twice_made_rows, value_at};

use crate::ahead::Ahead;
use crate::joined::Joined;
use crate::table_rule::TableRule;
use crate::values::Values;
use shred::OutOfMemory;
use std::alloc::Global;
use std::marker::Model;
use std::mem;

/// A whole number of 64 bits with sign for each of some entities.
#[derive(Debug, Drop)]
pub struct Rows {
    pairs: Vec<(u64, i64)>,
}

impl Model for Rows {
    ghost Value = { Pairs };

    ghost view = { λ rows. rows.pairs.items };

    ghost invariant = { λ rows. IsAscending rows.pairs.items };
}

// Whether the rule is refused for the row's value and the one beside it, if there is one.
fn is_refused<R: TableRule>(rule: &R, row: (u64, i64), beside: Option<i64>) -> bool
    ensures refused { OnTrue result (IsRefusedFor (R.meaning rule.now) (Some row.1) beside) }
    ensures taken { OnFalse result (IsRefusedFor (R.meaning rule.now) (Some row.1) beside → ⊥) }
{
    match beside {
        Some(beside) => rule.make(row.1, beside).is_none(),
        None => false,
    }
}

// The row with what the rule makes of its value and of the one beside it, if there is one.
fn made<R: TableRule>(rule: &R, row: (u64, i64), beside: Option<i64>) -> (u64, i64)
    requires { IsRefusedFor (R.meaning rule.now) (Some row.1) beside → ⊥ }
    ensures { result ≡ (row.0, row_made (R.meaning rule.now) row.1 beside) }
{
    let Some(beside) = beside else {
        return row;
    };
    match rule.make(row.1, beside) {
        Some(value) => (row.0, value),
        None => unreachable!(),
    }
}

// The row with what the rule makes of its value twice.
fn made_twice<R: TableRule>(rule: &R, row: (u64, i64)) -> (u64, i64)
    requires { IsRefusedFor (R.meaning rule.now) (Some row.1) (Some row.1) → ⊥ }
    ensures { result ≡ (row.0, row_made (R.meaning rule.now) row.1 (Some row.1)) }
{
    made(rule, row, Some(row.1))
}

// Gives each row what the rule makes of its value and of that of the other rows for its entity, if there is one.
fn make_each<R: TableRule>(rule: &R, pairs: &mut [(u64, i64)], others: &Rows)
    requires ascending { IsAscending pairs.old }
    requires taken { NoRowRefused (R.meaning rule.now) (value_at others.now) pairs.old }
    ensures { pairs.new ≡ made_rows (R.meaning rule.now) others.now pairs.old }
{
    let mut ahead = others.ahead();
    for row in pairs.iter_mut() {
        *row = made(rule, *row, ahead.value(row.0));
    }
}

// Gives each row what the rule makes of its value twice.
fn make_each_twice<R: TableRule>(rule: &R, pairs: &mut [(u64, i64)])
    requires { NoRowRefusedTwice (R.meaning rule.now) pairs.old }
    ensures { pairs.new ≡ twice_made_rows (R.meaning rule.now) pairs.old }
{
    for row in pairs.iter_mut() {
        *row = made_twice(rule, *row);
    }
}

impl Rows {
    /// No entity has a value. It takes no memory.
    pub fn new(alloc: Global) -> Self
        ensures { result ≡ [] }
    {
        Rows {
            pairs: Vec::new(alloc),
        }
    }

    /// Rows of no entity, with the allocator of these. It takes no memory.
    pub(crate) fn none_like(&self) -> Self
        ensures { result ≡ [] }
    {
        Self::new(*self.pairs.allocator())
    }

    /// The value of the entity, if it has one.
    pub fn value(&self, entity: u64) -> Option<i64>
        ensures { result ≡ value_at self.now entity }
    {
        match self.place(entity) {
            Ok(place) => Some(self.pairs[place].1),
            Err(_) => None,
        }
    }

    /// How many entities have a value.
    pub fn len(&self) -> usize
        ensures { result ≡ length self.now }
    {
        self.pairs.len()
    }

    /// Whether none has a value.
    pub fn is_empty(&self) -> bool
        ensures { (result ≡ true) ↔ (self.now ≡ []) }
    {
        self.pairs.is_empty()
    }

    /// Gives the entity this value, and answers the one that it had. `OutOfMemory`, only where it had none; the rows are
    /// then as before.
    pub fn set(&mut self, entity: u64, value: i64) -> Result<Option<i64>, OutOfMemory>
        ensures had { IfOk result (λ had. had ≡ value_at self.old entity) }
        ensures set { OnOk result (IsChangedAt self.old self.new entity (Some value)) }
        ensures unchanged { OnErr result (self.new ≡ self.old) }
        ensures had_none { OnErr result (value_at self.old entity ≡ None) }
    {
        match self.place(entity) {
            Ok(place) => {
                let had = mem::replace(&mut self.pairs[place], (entity, value));
                Ok(Some(had.1))
            }
            Err(place) => {
                self.pairs.insert(place, (entity, value))?;
                Ok(None)
            }
        }
    }

    /// Takes away the entity's value, and answers it, if it had one.
    pub fn remove(&mut self, entity: u64) -> Option<i64>
        ensures had { result ≡ value_at self.old entity }
        ensures removed { IsChangedAt self.old self.new entity None }
    {
        match self.place(entity) {
            Ok(place) => Some(self.pairs.remove(place).1),
            Err(_) => None,
        }
    }

    /// Takes away all values.
    pub fn clear(&mut self)
        ensures { self.new ≡ [] }
    {
        self.pairs.clear();
    }

    /// The entities that have a value, and these, in ascending order of the entities.
    pub fn values(&self) -> Values<'_>
        ensures { AreRowsOf (value_at self.now) result }
    {
        Values::of(&self.pairs)
    }

    /// The entities that have a value here and in the other rows, and these, in ascending order of the entities.
    pub fn joined<'rows>(&'rows self, others: &'rows Rows) -> Joined<'rows>
        ensures { AreRowsOf (both_at self.now others.now) result }
    {
        Joined::of(&self.pairs, &others.pairs)
    }

    /// The least entity for whose values the rule is refused, if there is one.
    pub(crate) fn least_refused<R: TableRule>(&self, rule: &R, others: &Rows) -> Option<u64>
        ensures { TellsLeast (R.meaning rule.now) (value_at self.now) (value_at others.now) result }
    {
        let mut ahead = others.ahead();
        for row in self.pairs.iter() {
            if is_refused(rule, *row, ahead.value(row.0)) {
                return Some(row.0);
            }
        }
        None
    }

    /// Gives each entity with a value here and in the other rows what the rule makes of these.
    pub(crate) fn make<R: TableRule>(&mut self, rule: &R, others: &Rows)
        requires { NoneRefused (R.meaning rule.now) (value_at self.old) (value_at others.now) }
        ensures { AreMade (R.meaning rule.now) self.old others.now self.new }
    {
        make_each(rule, self.pairs.as_mut_slice(), others);
    }

    /// Gives each entity with a value what the rule makes of that, and of the same beside it.
    pub(crate) fn make_twice<R: TableRule>(&mut self, rule: &R)
        requires { NoneRefused (R.meaning rule.now) (value_at self.old) (value_at self.old) }
        ensures { AreMade (R.meaning rule.now) self.old self.old self.new }
    {
        make_each_twice(rule, self.pairs.as_mut_slice());
    }

    // The rows, to be passed by.
    fn ahead(&self) -> Ahead<'_>
        ensures { result ≡ self.now }
    {
        Ahead::of(&self.pairs)
    }

    // Where the entity's row is, or where it would go.
    fn place(&self, entity: u64) -> Result<usize, usize>
        ensures found { IfOk result (IsAt self.now entity) }
        ensures absent { IfErr result (IsRowGap self.now entity) }
    {
        self.pairs.binary_search_by_key(&entity, |&(its, _)| its)
    }
}
