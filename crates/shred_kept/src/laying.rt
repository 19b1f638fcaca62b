//! Levels laid behind the hands of groups, and taken up again; the room for them is kept.
ghost use Rattle.std.specs.Prelude.{◌≡◌, ◌+◌, ◌<◌, ◌++◌, IfSome, IfNone, OnOk, length, vec_capacity, vec_len};
ghost use Rattle.std.specs.Arc.{arc_value};
ghost use Rattle.shred_kept.specs.Levels.{AreExchanged, HasLaid, IsLast, IsLevelFilled, levels_of};

use crate::level::Level;
use crate::rooms::Rooms;
use shred_world::{ResourceId, Table};
use std::alloc::{AllocError, Global};
use std::mem;
use std::sync::{Arc, Wait};
use std::thread::yield_now;

/// Room for levels, and for lists of them.
#[derive(Drop)]
pub(crate) struct LevelRooms<V> {
    lists: Rooms<Arc<Level<V>>>,
    spare: Vec<Arc<Level<V>>>,
    alloc: Global,
}

// Puts the levels at the end of a list, which has room for them and one more.
fn copy_levels<V>(levels: &[Arc<Level<V>>], to: &mut Vec<Arc<Level<V>>>) -> Result<(), AllocError>
    requires room { vec_len to.old + length levels.now < vec_capacity to.old }
    ensures copied { OnOk result (levels_of to.new.items ≡ levels_of to.old.items ++ levels_of levels.now) }
    ensures room { OnOk result (vec_len to.new < vec_capacity to.new) }
{
    let Some((level, others)) = levels.split_first() else {
        return Ok(());
    };
    to.push_reserved(Arc::try_clone(level)?);
    copy_levels(&*others, to)
}

// Moves the table into the level, beside these ids. Refused where memory is, or where the level is shared.
fn fill<V>(level: &mut Arc<Level<V>>, ids: &[ResourceId], table: &mut Table<V>) -> bool
    ensures { IsLevelFilled ids.now table.old result (arc_value level.new) table.new }
{
    let Some(place) = Arc::get_mut(level) else {
        return false;
    };
    place.ids.clear();
    let Ok(()) = place.ids.extend_from_slice(ids) else {
        return false;
    };
    mem::swap(&mut place.table, table);
    true
}

// Changes the table of the level for another, once nobody else shares it.
fn swap_table<R: Wait, V>(rt: &R, level: &mut Arc<Level<V>>, table: &mut Table<V>)
    ensures table { table.new ≡ (arc_value level.old).table }
    ensures level { arc_value level.new ≡ record (arc_value level.old) { table = table.old } }
{
    for _ in rt.forever() {
        if let Some(place) = Arc::get_mut(level) {
            mem::swap(&mut place.table, table);
            return;
        }
        yield_now();
    }
    unreachable!()
}

/// Changes the table of the last level for another.
pub(crate) fn exchange<R: Wait, V>(rt: &R, laid: &mut Vec<Arc<Level<V>>>, table: &mut Table<V>)
    requires { 0 < vec_len laid.old }
    ensures { AreExchanged (levels_of laid.old.items) table.old (levels_of laid.new.items) table.new }
{
    let Some(mut level) = laid.pop() else {
        unreachable!()
    };
    swap_table(rt, &mut level, table);
    laid.push_reserved(level);
}

impl<V: Drop> LevelRooms<V> {
    /// None. It takes no memory.
    pub(crate) fn new(alloc: Global) -> LevelRooms<V> {
        LevelRooms {
            lists: Rooms::new(alloc),
            spare: Vec::new(alloc),
            alloc,
        }
    }

    /// What memory is asked of.
    pub(crate) fn alloc(&self) -> Global {
        self.alloc
    }

    // A level that nobody shares.
    fn level(&mut self) -> Option<Arc<Level<V>>> {
        match self.spare.pop() {
            Some(level) => Some(level),
            None => {
                let level = Level {
                    table: Table::new(self.alloc),
                    ids: Vec::new(self.alloc),
                };
                Arc::new(self.alloc, level).ok()
            }
        }
    }

    /// A list of these levels. None where memory is refused.
    pub(crate) fn copy(&mut self, levels: &[Arc<Level<V>>]) -> Option<Vec<Arc<Level<V>>>>
        ensures copied { IfSome result (λ copy. levels_of copy.items ≡ levels_of levels.now) }
        ensures room { IfSome result (λ copy. vec_len copy < vec_capacity copy) }
    {
        let mut copy = self.lists.take();
        let Ok(()) = copy.reserve(levels.len() + 1) else {
            return None;
        };
        let Ok(()) = copy_levels(levels, &mut copy) else {
            return None;
        };
        Some(copy)
    }

    /// Keeps the room of a list.
    pub(crate) fn keep(&mut self, levels: Vec<Arc<Level<V>>>) {
        self.lists.keep(levels);
    }

    /// Lays the table, in which these ids are looked for, before the levels. None where memory is refused; then it stays.
    pub(crate) fn lay(
        &mut self,
        levels: &[Arc<Level<V>>],
        ids: &[ResourceId],
        table: &mut Table<V>,
    ) -> Option<Vec<Arc<Level<V>>>>
        ensures laid { IfSome result (λ laid. HasLaid (levels_of levels.now) ids.now table.old (levels_of laid.items)) }
        ensures none { IfNone result (table.new ≡ table.old) }
    {
        let Some(mut laid) = self.copy(levels) else {
            return None;
        };
        let Some(mut level) = self.level() else {
            return None;
        };
        if !fill(&mut level, ids, table) {
            return None;
        }
        laid.push_reserved(level);
        Some(laid)
    }

    /// Keeps the room of the list and of the last level.
    pub(crate) fn keep_room(&mut self, laid: Vec<Arc<Level<V>>>) {
        let mut laid = laid;
        if let Some(level) = laid.pop() {
            let _ = self.spare.push(level);
        }
        self.lists.keep(laid);
    }

    /// Takes the table of the last level up again.
    pub(crate) fn take_up<R: Wait>(
        &mut self,
        rt: &R,
        laid: Vec<Arc<Level<V>>>,
        table: &mut Table<V>,
    )
        requires { 0 < vec_len laid }
        ensures { IsLast (levels_of laid.items) table.new }
    {
        let mut laid = laid;
        let Some(mut level) = laid.pop() else {
            unreachable!()
        };
        swap_table(rt, &mut level, table);
        let _ = self.spare.push(level);
        self.lists.keep(laid);
    }
}
