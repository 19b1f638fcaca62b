//! What hands out lanes.
ghost use Rattle.std.specs.Prelude.{◌≡◌, false, ◌≤◌, ◌++◌, IfSome, IfNone, vec_capacity, vec_len};
ghost use Rattle.shred_run.specs.Hands.{is_single};
ghost use Rattle.shred_kept.specs.Levels.{HasLevelFor, levels_of};

use crate::crew::Crew;
use crate::cut::cut_off;
use crate::lane::StageLane;
use crate::laying::LevelRooms;
use crate::level::Level;
use crate::rooms::Rooms;
use shred_run::entry::{Group, GroupEntry};
use shred_run::{BatchController, Nested, System, Work};
use shred_workers::Workers;
use shred_world::{ResourceValue, Table};
use std::alloc::Global;
use std::sync::Arc;

/// The workers of a dispatcher, and the room for lanes and levels that is kept from one stage to the next. The dispatcher's thread has
/// one, and each worker its own.
#[derive(Drop)]
pub(crate) struct LaneCrew<
    V: ResourceValue,
    S: System<V>,
    C: BatchController<V, Error = <S as System<V>>::Error>,
> {
    pub(crate) crew: Crew<StageLane<V, S, C>>,
    pub(crate) rooms: Rooms<Group<V, Work<S, Nested<V, S, C>>>>,
    pub(crate) levels: LevelRooms<V>,
}

// Whether a batch stands in one of the entries.
fn has_batch<V, S, B>(entries: &[GroupEntry<V, Work<S, B>>]) -> bool {
    for entry in entries {
        if matches!(&entry.work, Work::Batch(_)) {
            return true;
        }
    }
    false
}

// Whether a batch stands in an entry of one of the groups.
fn have_batch<V, S, B>(groups: &[Group<V, Work<S, B>>]) -> bool {
    for group in groups {
        if has_batch(group.entries.as_slice()) {
            return true;
        }
    }
    false
}

impl<
    V: ResourceValue + Drop,
    S: System<V, Error = E> + Drop,
    C: BatchController<V, Error = E> + Drop,
    E: Drop,
> LaneCrew<V, S, C> {
    /// One of these workers, without any room. It takes no memory.
    pub(crate) fn new(alloc: Global, workers: Arc<Workers<StageLane<V, S, C>>>) -> Self {
        LaneCrew {
            crew: Crew::new(workers),
            rooms: Rooms::new(alloc),
            levels: LevelRooms::new(alloc),
        }
    }

    /// Whether there may be something to hand out: there are places for workers, and several groups or the inner stages of a batch.
    pub(crate) fn may_hand_out(&mut self, groups: &[Group<V, Work<S, Nested<V, S, C>>>]) -> bool {
        self.crew.len() > 0 && (groups.len() > 1 || have_batch(groups))
    }

    /// Room for a level before these, for the hand of a group of several entries, where a batch is among them and there are places for
    /// workers. None where memory is refused.
    pub(crate) fn room_for(
        &mut self,
        group: &Group<V, Work<S, Nested<V, S, C>>>,
        levels: &[Arc<Level<V>>],
    ) -> Option<Vec<Arc<Level<V>>>>
        ensures several { IfSome result (λ laid. is_single group.now ≡ false) }
        ensures room { IfSome result (λ laid. HasLevelFor levels.now group.now.written.items laid.items) }
    {
        if self.crew.len() == 0
            || group.entries.len() == 1
            || !has_batch(group.entries.as_slice())
        {
            return None;
        }
        let mut none = Table::new(self.levels.alloc());
        self.levels.lay(levels, group.written.as_slice(), &mut none)
    }

    /// The last groups, as a lane. None where memory is refused; then they stay.
    pub(crate) fn lane_of(
        &mut self,
        at: Option<usize>,
        groups: &mut Vec<Group<V, Work<S, Nested<V, S, C>>>>,
        levels: &[Arc<Level<V>>],
        share: usize,
    ) -> Option<StageLane<V, S, C>>
        requires { share ≤ vec_len groups.old }
        ensures parts { IfSome result (λ lane. groups.old.items ≡ groups.new.items ++ lane.groups.items) }
        ensures levels { IfSome result (λ lane. levels_of lane.levels.items ≡ levels_of levels.now) }
        ensures at { IfSome result (λ lane. lane.at ≡ at) }
        ensures none { IfNone result (groups.new ≡ groups.old) }
        ensures room { vec_capacity groups.new ≡ vec_capacity groups.old }
    {
        let Some(shared) = self.levels.copy(levels) else {
            return None;
        };
        let mut theirs = self.rooms.take();
        let Ok(()) = cut_off(groups, share, &mut theirs) else {
            return None;
        };
        Some(StageLane {
            at,
            groups: theirs,
            levels: shared,
            answer: Ok(()),
        })
    }
}
