//! Systems dispatched over shared resources.
//!
//! A `World` holds resources under ids. A `System` declares which ids it reads and which it writes, says by a relation
//! what its runs do, and runs over a `View` of what it declares. A `DispatcherBuilder` plans systems, and batches, which
//! run plans of their own. A `Dispatcher` runs the plan, stages one after the other and the groups of a stage beside each
//! other on threads, and then the thread-local systems. What it leaves is `FullyDispatched`, of `specs/FullRuns.antt`.
//! A `ParSeq` runs a tree of systems, an `AsyncDispatcher` a plan on a thread of its own.
//!
//! The builder, the dispatchers, lists of thread-local systems, systems that are made of simpler ones (`Typed`, `Plain`, `OneOf`,
//! `Counted`) and values of worlds of two, three and four types of resources stand here; what else a user needs is given
//! again of the crates below. What a first program needs is in `prelude`.
#![tactic(auto)]

pub mod counted;
pub mod dispatch;
mod macros;
pub mod one_of;
pub mod passed;
pub mod plain;
pub mod prelude;
pub mod rounds;
pub mod spelled;
pub mod systems;
pub mod thread_local;
pub mod typed;
pub mod values;

pub use counted::Counted;
pub use dispatch::async_dispatcher::{AsyncDispatcher, new_async};
pub use dispatch::async_error::AsyncError;
pub use dispatch::builder::DispatcherBuilder;
pub use dispatch::dispatcher::{Dispatcher, new_dispatcher};
pub use dispatch::kept_dispatcher::KeptDispatcher;
pub use dispatch::names::SystemNames;
pub use dispatch::told::Told;
pub use one_of::OneOf;
pub use passed::never_refuses::NeverRefuses;
pub use passed::reads_2_writes::{Reads2Writes, TryReads2Writes};
pub use passed::reads_3_writes::{Reads3Writes, TryReads3Writes};
pub use passed::reads_4_writes::{Reads4Writes, TryReads4Writes};
pub use passed::reads_writes::{ReadsWrites, TryReadsWrites};
pub use passed::writes::{TryWrites, Writes};
pub use passed::{Passed, PassedSystem, TrySystem};
pub use plain::{Plain, PlainSystem};
pub use rounds::Rounds;
pub use spelled::{KindNames, Spelled};
pub use systems::{
    NoSystem, Systems2, Systems3, Systems4, Systems5, Systems6, Systems7, Systems8, eighth_system,
    fifth_system, first_system, fourth_system, second_system, seventh_system, sixth_system,
    third_system,
};
pub use thread_local::ThreadLocal;
pub use typed::{Ran, SystemTypes, Typed, TypedSystem, Uses};
pub use values::{
    First, Fourth, OneOf2, OneOf3, OneOf4, Second, Third, first_id, fourth_id, second_id, third_id,
};

// What the crates below give.
pub use shred_cell::{
    Anything, CellRef, Fact, OfKind, SharedError, SharedFetch, SharedFetchMut, SharedWorld, cell,
    word,
};
pub use shred_meta::{Common, MetaIter, MetaIterMut, MetaMut, MetaTable};
pub use shred_run::kept_entries::batch_entry;
pub use shred_run::{
    BatchController, Fault, MultiDispatchController, MultiDispatcher, NoBatch, Now, RunNow,
    RunningTime, StageFault, System, SystemId,
};
pub use shred_stage::dispatch::tiers::tiers_of;
pub use shred_stage::{
    AddError, DispatchError, Plan, PlanSink, PrintError, Rule, SinkFailed, Stage, StagesBuilder,
    ToWriter,
};
pub use shred_trees::{Nil, Par, ParError, ParSeq, RunWithPool, Seq, Shape, single};
pub use shred_workers::DEFAULT_LOOKS;
pub use shred_world::{
    Accessor, BatchAccessor, Behind, DataError, DefaultProvider, DynamicSystemData, Entry, Fetch,
    FetchMut, Kind, Lent, LocalLent, LocalWorld, Only, OutOfMemory, PanicHandler, Parts, Read,
    ReadExpect, ReplaceError, Resource, ResourceId, ResourceTypes, ResourceValue, Resources,
    SetupHandler, Steps, SystemData, Table, View, ViewWork, World, WorldError, Write, WriteExpect,
    bundle_accessor, check_intersection, only_id,
};
