//! The systems of rules.
ghost use Rattle.std.specs.Prelude.{◌≡◌, ◌≢◌, [], ℕ, false, IfErr, IfNone, OnErr, OnOk, OnSome, is_some, true};
ghost use Rattle.std.specs.Option.{option_map};
ghost use Rattle.shred_table.specs.declared.id.ResourceId.{ResourceId};
ghost use Rattle.shred_world.specs.Views.{IsSameView, is_out, may_read, may_write, view_held};
ghost use Rattle.shredstore.specs.Rows.{TellsLeast, made_beside};
ghost use Rattle.shredstore.specs.Tables.{IsOverflowIn, MakesIn, NoneRefusedIn, PutsRows, column_in, shown_in, table_id, table_kind, table_of};
ghost use Rattle.shred_table.specs.Changes.{Stays};

use crate::rows::Rows;
use crate::rule::Overflow;
use crate::table_rule::TableRule;
use shred::{BatchAccessor, Fault, Only, OutOfMemory, PlainSystem, View, only_id};
use std::alloc::Global;
use std::mem;

/// The system of a rule.
#[derive(Drop)]
pub struct RuleSystem<R>(pub(crate) R);

// The rows of a table that may be read and is not out, if the view shows one.
fn rows_in<'v>(view: &'v View<Only<Rows>>, table: u64) -> Option<&'v Rows>
    requires may { may_read view.now (table_id table) ≡ true }
    requires in_place { is_out view.now (table_id table) ≡ false }
    ensures { option_map (λ rows. table_of rows.now) result ≡ shown_in view.now table }
{
    view.read::<Rows>(only_id(table)).ok()
}

// The least entity for whose values in x and y the rule is refused, if there is one.
fn refused_in<R: TableRule>(view: &View<Only<Rows>>, rule: &R, x: u64, y: u64) -> Option<u64>
    requires may_x { may_read view.now (table_id x) ≡ true }
    requires may_y { may_read view.now (table_id y) ≡ true }
    requires in_place { (id : ResourceId) → is_out view.now id ≡ false }
    ensures { TellsLeast (R.meaning rule.now) (column_in view.now x) (column_in view.now y) result }
{
    rows_in(view, x)?.least_refused(rule, rows_in(view, y)?)
}

// Takes the rows of a table out of the view, where it shows one, and leaves none there.
fn take(view: &mut View<Only<Rows>>, table: u64) -> Option<Rows>
    requires may { may_write view.old (table_id table) ≡ true }
    requires in_place { is_out view.old (table_id table) ≡ false }
    ensures taken { option_map (λ rows. table_of rows) result ≡ shown_in view.old table }
    ensures emptied { OnSome result (PutsRows view.old table [] view.new) }
    ensures unchanged { IfNone result (Stays (view_held table_kind) view.old view.new) }
    ensures view { IsSameView view.old view.new }
{
    match view.write::<Rows>(only_id(table)) {
        Ok(rows) => {
            let none = rows.none_like();
            Some(mem::replace(rows, none))
        }
        Err(_) => None,
    }
}

// Puts these rows into a table that the view shows.
fn put(view: &mut View<Only<Rows>>, table: u64, rows: Rows)
    requires may { may_write view.old (table_id table) ≡ true }
    requires in_place { is_out view.old (table_id table) ≡ false }
    requires there { is_some (shown_in view.old table) ≡ true }
    ensures put { PutsRows view.old table rows view.new }
    ensures view { IsSameView view.old view.new }
{
    match view.write::<Rows>(only_id(table)) {
        Ok(place) => *place = rows,
        Err(_) => unreachable!(),
    }
}

// Gives the values of the table x what the rule makes of them and of those of another table y, where it is refused for none. While
// it is done, x has no rows in the view.
fn make_beside<R: TableRule>(view: &mut View<Only<Rows>>, rule: &R, x: u64, y: u64)
    requires apart { x ≢ y }
    requires may_x { may_write view.old (table_id x) ≡ true }
    requires may_y { may_read view.old (table_id y) ≡ true }
    requires in_place { (id : ResourceId) → is_out view.old id ≡ false }
    requires taken { NoneRefusedIn (R.meaning rule.now) x y view.old }
    ensures made { MakesIn (R.meaning rule.now) x y view.old view.new }
    ensures view { IsSameView view.old view.new }
{
    let Some(mut rows) = take(view, x) else {
        return;
    };
    if let Some(others) = rows_in(view, y) {
        rows.make(rule, others);
    }
    put(view, x, rows);
}

// Gives the values of a table what the rule makes of each twice, where it is refused for none.
fn make_twice<R: TableRule>(view: &mut View<Only<Rows>>, rule: &R, table: u64)
    requires may { may_write view.old (table_id table) ≡ true }
    requires in_place { is_out view.old (table_id table) ≡ false }
    requires taken { NoneRefusedIn (R.meaning rule.now) table table view.old }
    ensures made { MakesIn (R.meaning rule.now) table table view.old view.new }
    ensures view { IsSameView view.old view.new }
{
    if let Ok(rows) = view.write::<Rows>(only_id(table)) {
        rows.make_twice(rule);
    }
}

// Gives the values of the table x what the rule makes of them and of those of y, where it is refused for none.
fn apply<R: TableRule>(
    view: &mut View<Only<Rows>>,
    rule: &R,
    x: u64,
    y: u64,
) -> Result<(), Overflow>
    requires may_x { may_write view.old (table_id x) ≡ true }
    requires may_y { may_read view.old (table_id y) ≡ true }
    requires in_place { (id : ResourceId) → is_out view.old id ≡ false }
    ensures taken { OnOk result (NoneRefusedIn (R.meaning rule.now) x y view.old) }
    ensures made { OnOk result (MakesIn (R.meaning rule.now) x y view.old view.new) }
    ensures least { IfErr result (IsOverflowIn (R.meaning rule.now) x y view.old) }
    ensures unchanged { OnErr result (Stays (view_held table_kind) view.old view.new) }
    ensures view { IsSameView view.old view.new }
{
    if let Some(entity) = refused_in(view, rule, x, y) {
        return Err(Overflow { entity });
    }
    if x == y {
        make_twice(view, rule, x);
    } else {
        make_beside(view, rule, x, y);
    }
    Ok(())
}

impl<R: TableRule> PlainSystem<Only<Rows>> for RuleSystem<R> {
    ghost use Rattle.shredstore.specs.RuleSteps.{AppliesRule, rule_reads, rule_writes};

    type Error = Overflow;

    ghost reads = { λ system. rule_reads (R.meaning system.0) };

    ghost writes = { λ system. rule_writes (R.meaning system.0) };

    ghost step = { AppliesRule (λ system. R.meaning system.0) };

    fn run(&mut self, view: &mut View<Only<Rows>>) -> Result<(), Fault<Overflow>> {
        let (x, y) = (self.0.writes(), self.0.reads());
        match apply(view, &self.0, x, y) {
            Ok(()) => Ok(()),
            Err(overflow) => Err(Fault::Refused(overflow)),
        }
    }

    fn accessor(&self, alloc: Global) -> Result<BatchAccessor, OutOfMemory> {
        let (x, y) = (self.0.writes(), self.0.reads());
        BatchAccessor::of(alloc, &[only_id(y)], &[only_id(x)])
    }
}
