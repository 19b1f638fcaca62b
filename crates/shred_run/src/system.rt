//! Systems: what is dispatched.
ghost use Rattle.std.specs.Prelude.{◌≡◌, List, IfOk};
ghost use Rattle.shred_run.specs.Time.{time_count};
ghost use Rattle.shred_run.specs.declared.system.RunningTime.{RunningTime};
ghost use Rattle.shred_table.specs.declared.id.ResourceId.{ResourceId};
ghost use Rattle.shred_table.specs.Changes.{StaysOutside, KeepsIdsOf};
ghost use Rattle.shred_world.specs.Between.{OverView, OverWorld};

use shred_world::{Accessor, DataError, OutOfMemory, ResourceValue, View, World};
use std::alloc::{AllocFailed, Global};
use std::fmt::Display;
use thiserror::Error;

/// How long a system is thought to take.
#[derive(Clone, Copy, Debug, PartialEq, Eq)]
pub enum RunningTime {
    VeryShort = 1,
    Short = 2,
    Average = 3,
    Long = 4,
    VeryLong = 5,
}

impl RunningTime {
    /// The time as a count, from 1 to 5.
    pub fn count(self) -> usize
        ensures { result ≡ time_count self }
    {
        match self {
            RunningTime::VeryShort => 1,
            RunningTime::Short => 2,
            RunningTime::Average => 3,
            RunningTime::Long => 4,
            RunningTime::VeryLong => 5,
        }
    }
}

/// Why a system ended without being done.
#[derive(Debug, Drop, Error)]
#[error_bound(E: Display)]
pub enum Fault<E> {
    #[error("refused: {0}")]
    Refused(E),
    #[error("out of memory")]
    OutOfMemory,
}

impl<E: From<DataError>> From<DataError> for Fault<E> {
    ghost use Rattle.shred_run.specs.Faults.{FaultGives};

    ghost from_gives = { λ error fault. FaultGives E.from_gives error fault };

    fn from(error: DataError) -> Self {
        match error {
            DataError::OutOfMemory => Fault::OutOfMemory,
            other => Fault::Refused(E::from(other)),
        }
    }
}

impl<E> From<OutOfMemory> for Fault<E> {
    ghost use Rattle.shred_run.specs.declared.system.Fault.{Fault};

    ghost from_gives = { λ _ fault. fault ≡ Fault.OutOfMemory };

    fn from(_error: OutOfMemory) -> Self {
        Fault::OutOfMemory
    }
}

impl<T: Drop, E> From<AllocFailed<T>> for Fault<E> {
    ghost use Rattle.shred_run.specs.declared.system.Fault.{Fault};

    ghost from_gives = { λ _ fault. fault ≡ Fault.OutOfMemory };

    fn from(_failed: AllocFailed<T>) -> Self {
        Fault::OutOfMemory
    }
}

/// What is run over the resources that it declares.
pub trait System<V: ResourceValue> {
    ghost use Rattle.shred_world.specs.OwnViews.{IsLent};
    ghost use Rattle.shred_world.specs.Worked.{Held};
    ghost use Rattle.shred_run.specs.Steps.{Outcome, Step};
    ghost use Rattle.shred_world.specs.Views.{view_held, may_write, table_name, IsSameView};
    ghost use Rattle.shred_world.specs.Worlds.{world_held};

    type Error;

    type Accessor: Accessor + Drop;

    ghost reads: { Self → List ResourceId };

    ghost writes: { Self → List ResourceId };

    ghost time: { Self → RunningTime };

    ghost step: { Step V Self Self.Error };

    ghost sets_up: { Step V Self Self.Error };

    ghost disposes: { Self → Held V → Outcome Self.Error → Held V → Type 0 };

    /// One step, over a view of just the ids that the system declares, with none of them out. It gives back what it took,
    /// keeps every id, and changes nothing but what the view may write. A `Fault` ends its group; what was written stays.
    fn run(&mut self, view: &mut View<V>) -> Result<(), Fault<Self::Error>>
        requires lent { IsLent view.old (reads self.old) (writes self.old) }
        ensures step { OverView V.kind_of step self.old view.old result self.new view.new }
        ensures table { table_name view.new ≡ table_name view.old }
        ensures view { IsSameView view.old view.new }
        ensures ids { KeepsIdsOf (view_held V.kind_of) view.old view.new }
        ensures frame { StaysOutside (may_write view.old) (view_held V.kind_of) view.old view.new }
        ensures reads { reads self.new ≡ reads self.old }
        ensures writes { writes self.new ≡ writes self.old };

    /// How long a run is thought to take.
    fn running_time(&self) -> RunningTime
        ensures { result ≡ time self.now };

    /// What the system declares.
    fn accessor(&self, alloc: Global) -> Result<Self::Accessor, OutOfMemory>
        ensures reads { IfOk result (λ a. Self.Accessor.reads a ≡ reads self.now) }
        ensures writes { IfOk result (λ a. Self.Accessor.writes a ≡ writes self.now) };

    /// What is done once, before the first run.
    fn setup(&mut self, world: &mut World<V>) -> Result<(), Fault<Self::Error>>
        ensures sets_up { OverWorld V.kind_of sets_up self.old world.old result self.new world.new }
        ensures reads { reads self.new ≡ reads self.old }
        ensures writes { writes self.new ≡ writes self.old };

    /// What is done once, after the last run.
    fn dispose(self, world: &mut World<V>) -> Result<(), Fault<Self::Error>>
        ensures { disposes self (world_held V.kind_of world.old) result (world_held V.kind_of world.new) };
}
