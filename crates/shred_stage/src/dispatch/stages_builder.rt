//! The planner: it gives each new system a place in the plan.
ghost use Rattle.std.specs.Prelude.{◌≡◌, ◌<◌, ◌≤◌, length, [], ◌++◌, AllPairs, IfOk, OnOk, OnErr};
ghost use Rattle.std.specs.List.{flat_map};
ghost use Rattle.shred_table.specs.Id.{IsBefore};
ghost use Rattle.shred_table.specs.declared.id.ResourceId.{ResourceId};
ghost use Rattle.shred_model.specs.Plan as model;
ghost use Rattle.shred_model.specs.Plan.{plan_ids};
ghost use Rattle.shred_stage.specs.Earlier.{AllBeforeBarrier};
ghost use Rattle.shred_run.specs.Circles.{EntryOwns};
ghost use Rattle.shred_run.specs.Kept.{HaveSameIds};
ghost use Rattle.shred_stage.specs.SearchStart.{IsOrderedStart};
ghost use Rattle.shred_stage.specs.declared.dispatch.rule.Rule.TheVariants.{First};
ghost use Rattle.shred_run.specs.PlanOf.{entry_access, entry_plan, numbers_of};
ghost use Rattle.shred_run.specs.Sides.{stage_side, plan_reads, plan_writes};
ghost use Rattle.shred_stage.specs.StagePlan.{plan_of};
ghost use Rattle.shred_stage.specs.SinkTexts.{PrintsNamed};

use crate::dispatch::printing::{PrintError, print};
use crate::dispatch::rule::Rule;
use crate::dispatch::sink::PlanSink;
use crate::dispatch::stage::{Spot, Stage};
use shred_run::entry::{GroupEntry, Side, push_or_drop};
use shred_run::kept_entries::system_entry;
use shred_run::sorted::sort_without_doubles;
use shred_run::{BatchController, Nested, NoBatch, System, SystemId, Work};
use shred_world::{OutOfMemory, ResourceId, ResourceValue};
use smallvec::SmallVec;
use std::alloc::Global;
use std::collections::HashMap;

/// A plan that grows by one system after another.
#[derive(Drop)]
pub struct StagesBuilder<
    V: ResourceValue,
    S: System<V>,
    C: BatchController<V> = NoBatch<<S as System<V>>::Error>,
> {
    pub(crate) stages: Vec<Stage<V, S, C>>,
    barrier: usize,
    rule: Rule,
    ghost barrier_within: { barrier ≤ length stages.items },
    ghost few_stages: { length stages.items ≤ length (plan_ids (plan_of stages.items)) },
}

impl<V: ResourceValue, S: System<V>, C: BatchController<V>> StagesBuilder<V, S, C> {
    ghost use Rattle.shred_model.specs.Record.{Agent};
    ghost use Rattle.shred_stage.specs.Added.{AreSame, IsNew};
    ghost use Rattle.shred_stage.specs.BuilderPlan.{planned, barrier_of, rule_of, builder_states, IsPlaceFrom, IsStartOf, PlacesEntry, PushesStage};
    ghost use Rattle.shred_stage.specs.EntriesAt.{builder_entries};
    ghost use Rattle.shred_stage.specs.Plans.{plan_states};

    /// An empty plan, whose entries are placed by `Rule::First`. It takes no memory.
    pub fn new(alloc: Global) -> Self
        ensures plan { planned result ≡ [] }
        ensures barrier { barrier_of result ≡ 0 }
        ensures rule { rule_of result ≡ First }
        ensures states { (path : Agent) → builder_states result path ≡ None }
    {
        Self::new_with_rule(alloc, Rule::First)
    }

    /// An empty plan, whose entries are placed by this rule. It takes no memory.
    pub fn new_with_rule(alloc: Global, rule: Rule) -> Self
        ensures plan { planned result ≡ [] }
        ensures barrier { barrier_of result ≡ 0 }
        ensures rule { rule_of result ≡ rule }
        ensures states { (path : Agent) → builder_states result path ≡ None }
    {
        StagesBuilder {
            stages: Vec::new(alloc),
            barrier: 0,
            rule,
        }
    }

    /// An empty plan, as of `new`.
    pub fn default(alloc: Global) -> Self
        ensures plan { planned result ≡ [] }
        ensures barrier { barrier_of result ≡ 0 }
        ensures rule { rule_of result ≡ First }
        ensures states { (path : Agent) → builder_states result path ≡ None }
    {
        Self::new(alloc)
    }

    /// The stages of the plan so far.
    pub fn stages(&self) -> &[Stage<V, S, C>]
        ensures { plan_of result.now ≡ planned self.now }
    {
        self.stages.as_slice()
    }

    /// The stages of the plan. It takes no memory.
    pub fn build(self) -> Vec<Stage<V, S, C>>
    where
        V: Drop,
        S: Drop,
        C: Drop,
        ensures plan { plan_of result.items ≡ planned self }
        ensures states { (path : Agent) → plan_states result.items path ≡ builder_states self path }
    {
        self.stages
    }

    /// Sets the barrier to the number of stages: what is inserted from now on stands after all that is there.
    pub fn add_barrier(&mut self)
        ensures plan { planned self.new ≡ planned self.old }
        ensures states { (path : Agent) → builder_states self.new path ≡ builder_states self.old path }
        ensures barrier { barrier_of self.new ≡ length (planned self.old) }
        ensures all_before { AllBeforeBarrier (planned self.new) (barrier_of self.new) }
        ensures rule { rule_of self.new ≡ rule_of self.old }
    {
        self.barrier = self.stages.len();
    }

    /// Sets the rule by which entries are placed from now on. It is there for `DispatcherBuilder`.
    pub fn set_rule(&mut self, rule: Rule)
        ensures plan { planned self.new ≡ planned self.old }
        ensures states { (path : Agent) → builder_states self.new path ≡ builder_states self.old path }
        ensures barrier { barrier_of self.new ≡ barrier_of self.old }
        ensures rule { rule_of self.new ≡ rule }
    {
        self.rule = rule;
    }

    /// The ids that the systems read, in order, each once. `OutOfMemory` where memory is refused.
    pub fn fetch_all_reads(&self) -> Result<Vec<ResourceId>, OutOfMemory>
        ensures in_order { IfOk result (λ ids. AllPairs IsBefore ids.items) }
        ensures same { IfOk result (λ ids. HaveSameIds ids.items (plan_reads (planned self.now))) }
    {
        self.fetch_all(Side::Reads)
    }

    /// The ids that the systems write, in order, each once. `OutOfMemory` where memory is refused.
    pub fn fetch_all_writes(&self) -> Result<Vec<ResourceId>, OutOfMemory>
        ensures in_order { IfOk result (λ ids. AllPairs IsBefore ids.items) }
        ensures same { IfOk result (λ ids. HaveSameIds ids.items (plan_writes (planned self.now))) }
    {
        self.fetch_all(Side::Writes)
    }

    /// Puts the plan's text into the sink, with the least name, by its bytes, that stands for each id. Where an id has no
    /// name, nothing is put, and the answer is `Unnamed` with the first such id in the plan's order. Where the sink fails,
    /// it is `Write`, and a beginning of the text was put. It takes no memory.
    pub fn write_par_seq<W: PlanSink>(
        &self,
        sink: &mut W,
        names: &HashMap<String, SystemId>,
    ) -> Result<(), PrintError>
        ensures { PrintsNamed W.PlanSink names.now (planned self.now) sink.old sink.new result }
    {
        print(sink, names, &self.stages, b"")
    }

    /// The ids of one side of all systems' accesses, in order, each once.
    fn fetch_all(&self, side: Side) -> Result<Vec<ResourceId>, OutOfMemory>
        ensures in_order { IfOk result (λ ids. AllPairs IsBefore ids.items) }
        ensures same { IfOk result (λ ids. HaveSameIds ids.items (flat_map (stage_side side) (planned self.now))) }
    {
        let mut ids = Vec::new(*self.stages.allocator());
        match self.append_to(side, &mut ids) {
            Ok(()) => {
                sort_without_doubles(&mut ids);
                Ok(ids)
            }
            Err(e) => Err(e),
        }
    }

    /// Puts the ids of one side of all systems' accesses at the list's end.
    fn append_to(&self, side: Side, ids: &mut Vec<ResourceId>) -> Result<(), OutOfMemory>
        ensures { OnOk result (ids.new.items ≡ ids.old.items ++ flat_map (stage_side side) (planned self.now)) }
    {
        for place in 0..self.stages.len() {
            self.stages[place].append_to(side, ids)?;
        }
        Ok(())
    }

    /// Places the entry in a stage from `start` on.
    fn place(
        &mut self,
        start: usize,
        dependencies: &[SystemId],
        entry: GroupEntry<V, Work<S, Nested<V, S, C>>>,
    ) -> Result<(), OutOfMemory>
    where
        V: Drop,
        S: Drop,
        C: Drop,
        requires start { barrier_of self.old ≤ start }
        requires own_lists { EntryOwns S.System C.BatchController entry }
        ensures placed { OnOk result (PlacesEntry self.old self.new start dependencies.now entry) }
        ensures err { OnErr result (planned self.new ≡ planned self.old) }
        ensures added { OnOk result (IsNew (builder_entries self.old) (builder_entries self.new) entry) }
        ensures unchanged { OnErr result (AreSame (builder_entries self.old) (builder_entries self.new)) }
        ensures barrier { barrier_of self.new ≡ barrier_of self.old }
        ensures rule { rule_of self.new ≡ rule_of self.old }
    {
        let alloc = *self.stages.allocator();
        let left = SmallVec::from_slice(alloc, dependencies)?;
        match self.find(start, left, &entry) {
            None => self.push_stage(entry),
            Some((stage, Spot::NewGroup)) => self.stages[stage].push_group(entry),
            Some((stage, Spot::EndOf(group))) => self.stages[stage].push_entry(group, entry),
        }
    }

    /// Gives the entry a new last stage.
    fn push_stage(
        &mut self,
        entry: GroupEntry<V, Work<S, Nested<V, S, C>>>,
    ) -> Result<(), OutOfMemory>
    where
        V: Drop,
        S: Drop,
        C: Drop,
        requires own_lists { EntryOwns S.System C.BatchController entry }
        ensures ok { OnOk result (PushesStage self.old self.new (entry_plan entry)) }
        ensures err { OnErr result (planned self.new ≡ planned self.old) }
        ensures added { OnOk result (IsNew (builder_entries self.old) (builder_entries self.new) entry) }
        ensures unchanged { OnErr result (AreSame (builder_entries self.old) (builder_entries self.new)) }
        ensures barrier { barrier_of self.new ≡ barrier_of self.old }
        ensures rule { rule_of self.new ≡ rule_of self.old }
    {
        let alloc = *self.stages.allocator();
        match Stage::new(alloc, entry) {
            Ok(stage) => push_or_drop(&mut self.stages, stage),
            Err(e) => Err(e),
        }
    }

    /// Where the search for a stage that takes the entry begins.
    fn search_start(&self, entry: &GroupEntry<V, Work<S, Nested<V, S, C>>>) -> usize
        ensures { IsStartOf self.now (entry_access entry.now) result }
    {
        match self.rule {
            Rule::First => self.barrier,
            Rule::Ordered => self.ordered_start(entry),
        }
    }

    /// The last stage from the barrier on with a group that conflicts with the entry, or the barrier.
    fn ordered_start(&self, entry: &GroupEntry<V, Work<S, Nested<V, S, C>>>) -> usize
        ensures { IsOrderedStart (planned self.now) (barrier_of self.now) (entry_access entry.now) result }
    {
        let mut start = self.barrier;
        for stage in self.barrier..self.stages.len() {
            if self.stages[stage].conflicts(entry) {
                start = stage;
            }
        }
        start
    }

    /// The first stage from `start` on that takes the entry, and where.
    fn find(
        &self,
        start: usize,
        mut left: SmallVec<SystemId, 4>,
        entry: &GroupEntry<V, Work<S, Nested<V, S, C>>>,
    ) -> Option<(usize, Spot)>
        requires { barrier_of self.now ≤ start }
        ensures { IsPlaceFrom self.now start (numbers_of left.items) (entry_plan entry.now) result }
    {
        for place in self.barrier..self.stages.len() {
            let stage = &self.stages[place];
            if start <= place {
                if let Some(spot) = stage.spot_for(left.as_slice(), entry) {
                    return Some((place, spot));
                }
            }
            stage.take_ids(&mut left);
        }
        None
    }
}

impl<V: ResourceValue + Drop, S: System<V> + Drop, C: BatchController<V> + Drop> StagesBuilder<
    V,
    S,
    C,
> {
    ghost use Rattle.shred_stage.specs.Added.{AreSame};
    ghost use Rattle.shred_stage.specs.BuilderPlan.{planned, barrier_of, rule_of, builder_states, InsertsEntry, InsertsSystem};
    ghost use Rattle.shred_model.specs.Record.{Agent};

    /// `insert`, of what is kept of a system or of a batch. It is there for `DispatcherBuilder`.
    pub fn insert_entry(
        &mut self,
        dependencies: &[SystemId],
        entry: GroupEntry<V, Work<S, Nested<V, S, C>>>,
    ) -> Result<(), OutOfMemory>
        requires own_lists { EntryOwns S.System C.BatchController entry }
        ensures inserted { OnOk result (InsertsEntry self.old self.new dependencies.now entry) }
        ensures err { OnErr result (planned self.new ≡ planned self.old) }
        ensures states { OnErr result (AreSame (builder_states self.old) (builder_states self.new)) }
        ensures barrier { barrier_of self.new ≡ barrier_of self.old }
        ensures rule { rule_of self.new ≡ rule_of self.old }
    {
        let start = self.search_start(&entry);
        self.place(start, dependencies, entry)
    }

    /// Gives the system its place in the plan, in the barrier's stage or a later one. Each dependency that the plan has
    /// stands in an earlier stage, or earlier in the same group. Where memory is refused, the plan is as it was, and the
    /// system is dropped.
    pub fn insert(
        &mut self,
        dependencies: &[SystemId],
        id: SystemId,
        system: S,
    ) -> Result<(), OutOfMemory>
        ensures placed { OnOk result (InsertsSystem self.old self.new dependencies.now id system) }
        ensures err { OnErr result (planned self.new ≡ planned self.old) }
        ensures states { OnErr result (AreSame (builder_states self.old) (builder_states self.new)) }
        ensures barrier { barrier_of self.new ≡ barrier_of self.old }
        ensures rule { rule_of self.new ≡ rule_of self.old }
    {
        let alloc = *self.stages.allocator();
        match system_entry(alloc, id, system) {
            Ok(entry) => self.insert_entry(dependencies, entry),
            Err(e) => Err(e),
        }
    }
}
