//! The builder of dispatchers.
ghost use Rattle.std.specs.HashMap.{IsUnique};
ghost use Rattle.std.specs.Prelude.{◌≡◌, ◌<◌, ℕ, List, [], Some, true, IfOk, IfSome, OnOk, OnErr, IfErr};
ghost use Rattle.std.specs.Option.{option_map};
ghost use Rattle.std.specs.String.{string_eq};
ghost use Rattle.std.proofs.Props.{props};
ghost use Rattle.shred_run.specs.Circles.{EntryOwns, TiersOwn};
ghost use Rattle.shred_run.specs.Works.{tiers_plan};
ghost use Rattle.shred_model.specs.Record.{Agent};
ghost use Rattle.shred_stage.specs.BuilderPlan.{planned, barrier_of, rule_of, builder_states};
ghost use Rattle.shred.specs.AsyncBuilt.{IsBuiltOver};
ghost use Rattle.shred.specs.AsyncDispatchers.{state_of};
ghost use Rattle.shred.specs.Built.{IsBarrierSet, IsConsistent, IsLocalAdded, IsNewBuilt, IsPoolSet, IsRuleSet, IsSameBuilt, KeepsAdditionIfOrdered};
ghost use Rattle.shred_run.specs.AdditionOrder.{KeepsAddition};
ghost use Rattle.shred_stage.specs.declared.dispatch.rule.Rule.TheVariants.{Ordered};
ghost use Rattle.shred_run.specs.PlanOf.{entry_plan};
ghost use Rattle.shred.specs.Dispatchers.{dispatcher_locals, dispatcher_plan, dispatcher_states, dispatcher_workers};
ghost use Rattle.shred.specs.SystemNames.{names_known, names_pairs};
ghost use Rattle.shred.specs.ThreadLocals.{systems_of};
ghost use Rattle.shred_stage.specs.Earlier.{plan_has};
ghost use Rattle.shred_stage.specs.Inner.{tiers_states};
ghost use Rattle.shred_stage.specs.Names.{AreNames, names_of};
ghost use Rattle.shred_stage.specs.StagePlan.{plan_of};
ghost use Rattle.shred_world.specs.Worlds.{world_held};
ghost use Rattle.shred_stage.specs.Added.{AreSame};

use crate::dispatch::async_dispatcher::{AsyncDispatcher, new_async};
use crate::dispatch::dispatcher::{Dispatcher, new_dispatcher};
use crate::dispatch::names::SystemNames;
use crate::thread_local::ThreadLocal;
use shred_run::entry::GroupEntry;
use shred_run::kept_entries::{batch_entry, system_entry};
use shred_run::{BatchController, Nested, NoBatch, Now, System, SystemId, Tier, Work};
use shred_stage::dispatch::printing::print_with_end;
use shred_stage::dispatch::tiers::tiers_of;
use shred_stage::known_names::{enter, forget, id_of, ids_of, may_add};
use shred_stage::{AddError, PlanSink, PrintError, Rule, Stage, StagesBuilder};
use shred_world::{ResourceValue, World};
use std::alloc::Global;
use std::collections::HashMap;

/// A plan that grows by one system after another, with names for them.
#[derive(Drop)]
pub struct DispatcherBuilder<
    V: ResourceValue,
    S: System<V>,
    C: BatchController<V> = NoBatch<<S as System<V>>::Error>,
    L = Now<S>,
> {
    pub(crate) alloc: Global,
    pub(crate) stages: StagesBuilder<V, S, C>,
    pub(crate) names: HashMap<String, SystemId>,
    pub(crate) next: usize,
    pub(crate) thread_local: ThreadLocal<L>,
    workers: usize,
    ghost distinct_names: { IsUnique string_eq names } by { Prim.hlevel props },
    ghost known_planned: { (name : List ℕ) (id : ℕ) → names_of names name ≡ Some id → plan_has (planned stages) id ≡ true },
    ghost consistent: { IsConsistent (record { plan = planned stages; states = builder_states stages; known = names_of names; barrier = barrier_of stages; rule = rule_of stages; next = next; locals = systems_of thread_local; workers = workers }) },
    ghost ordered: { rule_of stages ≡ Ordered → KeepsAddition (planned stages) },
}

impl<V: ResourceValue, S: System<V>, C: BatchController<V>, L: Drop> DispatcherBuilder<V, S, C, L> {
    ghost use Rattle.shred.specs.Builders.{built, builder_pairs};
    ghost use Rattle.shred.specs.PrintedPlans.{PrintsBuilder};

    /// An empty plan, without names. It takes no memory.
    pub fn new(alloc: Global) -> Self
        ensures { IsNewBuilt (built result) }
    {
        DispatcherBuilder {
            alloc,
            stages: StagesBuilder::new(alloc),
            names: HashMap::new(alloc),
            next: 0,
            thread_local: ThreadLocal::new(alloc),
            workers: 4,
        }
    }

    /// An empty plan without names, as of `new`.
    pub fn default(alloc: Global) -> Self
        ensures { IsNewBuilt (built result) }
    {
        Self::new(alloc)
    }

    /// Sets the barrier to the number of stages: what is added from now on stands after all that is there. It takes no
    /// memory.
    pub fn add_barrier(&mut self)
        ensures { IsBarrierSet (built self.old) (built self.new) }
    {
        self.stages.add_barrier();
    }

    /// `add_barrier`, on a builder that is handed on.
    pub fn with_barrier(self) -> Self
    where
        V: Drop,
        S: Drop,
        C: Drop,
        ensures { IsBarrierSet (built self) (built result) }
    {
        let mut builder = self;
        builder.add_barrier();
        builder
    }

    /// Sets the rule by which systems and batches are placed from now on; it is `Rule::First` unless set. Refused as
    /// `RuleTooLate` where one was added before, also if the rule is the one that is set, and nowhere else; the builder is
    /// then as before. It takes no memory.
    pub fn add_rule(&mut self, rule: Rule) -> Result<(), AddError>
        ensures set { OnOk result (IsRuleSet (built self.old) (built self.new) rule) }
        ensures refused { IfErr result (λ e. e ≡ AddError.RuleTooLate) }
        ensures some_added { OnErr result (0 < (built self.old).next) }
        ensures unchanged { OnErr result (IsSameBuilt (built self.old) (built self.new)) }
    {
        if self.next > 0 {
            return Err(AddError::RuleTooLate);
        }
        self.stages.set_rule(rule);
        Ok(())
    }

    /// `add_rule`, on a builder that is handed on. After a refusal the builder is dropped.
    pub fn with_rule(self, rule: Rule) -> Result<Self, AddError>
    where
        V: Drop,
        S: Drop,
        C: Drop,
        ensures set { IfOk result (λ after. IsRuleSet (built self) (built after) rule) }
        ensures refused { IfErr result (λ e. e ≡ AddError.RuleTooLate) }
        ensures some_added { OnErr result (0 < (built self).next) }
    {
        let mut builder = self;
        builder.add_rule(rule)?;
        Ok(builder)
    }

    /// Sets on how many threads a stage is to run at most, the caller's among them; it is 4 unless set. Any number may be
    /// given: 0 and 1 are the caller's thread alone. It takes no memory.
    pub fn add_pool(&mut self, workers: usize)
        ensures { IsPoolSet (built self.old) (built self.new) workers }
    {
        self.workers = workers;
    }

    /// `add_pool`, on a builder that is handed on.
    pub fn with_pool(self, workers: usize) -> Self
    where
        V: Drop,
        S: Drop,
        C: Drop,
        ensures { IsPoolSet (built self) (built result) workers }
    {
        let mut builder = self;
        builder.add_pool(workers);
        builder
    }

    /// Puts a thread-local system behind those that are there. Where memory is refused, the builder is as before, and the
    /// system is dropped.
    pub fn add_thread_local(&mut self, system: L) -> Result<(), AddError>
        ensures added { OnOk result (IsLocalAdded (built self.old) (built self.new) system) }
        ensures refused { IfErr result (λ e. e ≡ AddError.OutOfMemory) }
        ensures unchanged { OnErr result (IsSameBuilt (built self.old) (built self.new)) }
    {
        Ok(self.thread_local.push(system)?)
    }

    /// `add_thread_local`, on a builder that is handed on. After a refusal the builder is dropped.
    pub fn with_thread_local(self, system: L) -> Result<Self, AddError>
    where
        V: Drop,
        S: Drop,
        C: Drop,
        ensures added { IfOk result (λ after. IsLocalAdded (built self) (built after) system) }
        ensures refused { IfErr result (λ e. e ≡ AddError.OutOfMemory) }
    {
        let mut builder = self;
        builder.add_thread_local(system)?;
        Ok(builder)
    }

    /// Puts the plan's text and a line feed into the sink. Where a system has no name, nothing is put, and the answer is
    /// `Unnamed` with the first such id in the plan's order. Where the sink fails, it is `Write`, and a beginning of the
    /// text was put. The printed names are the known ones. It takes no memory.
    pub fn print_par_seq<W: PlanSink>(&self, sink: &mut W) -> Result<(), PrintError>
        ensures printed { PrintsBuilder W.PlanSink self.now sink.old sink.new result }
        ensures names { AreNames (builder_pairs self.now) (built self.now).known }
        ensures consistent { IsConsistent (built self.now) }
    {
        print_with_end(&self.stages, sink, &self.names, b"\n")
    }

    /// The stages of the plan so far.
    pub fn stages(&self) -> &[Stage<V, S, C>]
        ensures { plan_of result.now ≡ (built self.now).plan }
    {
        self.stages.stages()
    }

    /// The id that a name stands for, if it does.
    pub fn id_of(&self, name: &str) -> Option<SystemId>
        ensures known { option_map (λ id. id.0) result ≡ (built self.now).known name.now }
        ensures below { IfSome result (λ id. id.0 < (built self.now).next) }
    {
        id_of(&self.names, name)
    }

    /// The dispatcher of the plan. It takes no memory.
    pub fn build(self) -> Dispatcher<V, S, C, L>
    where
        V: Drop,
        S: Drop,
        C: Drop,
        ensures plan { dispatcher_plan result ≡ (built self).plan }
        ensures states { (path : Agent) → dispatcher_states result path ≡ (built self).states path }
        ensures locals { dispatcher_locals result ≡ (built self).locals }
        ensures workers { dispatcher_workers result ≡ (built self).workers }
        ensures consistent { IsConsistent (built self) }
        ensures addition { KeepsAdditionIfOrdered (built self) }
    {
        new_dispatcher(self.stages.build(), self.thread_local, self.workers)
    }

    /// The dispatcher of the plan, and the names that are known. It takes no memory.
    pub fn build_with_names(self) -> (Dispatcher<V, S, C, L>, SystemNames)
    where
        V: Drop,
        S: Drop,
        C: Drop,
        ensures plan { dispatcher_plan result.0 ≡ (built self).plan }
        ensures states { (path : Agent) → dispatcher_states result.0 path ≡ (built self).states path }
        ensures locals { dispatcher_locals result.0 ≡ (built self).locals }
        ensures workers { dispatcher_workers result.0 ≡ (built self).workers }
        ensures known { (name : List ℕ) → names_known result.1 name ≡ (built self).known name }
        ensures names { AreNames (names_pairs result.1) (built self).known }
        ensures consistent { IsConsistent (built self) }
        ensures addition { KeepsAdditionIfOrdered (built self) }
    {
        let dispatcher = new_dispatcher(self.stages.build(), self.thread_local, self.workers);
        (dispatcher, SystemNames { names: self.names })
    }
}

impl<
    V: ResourceValue + Drop,
    S: System<V, Error = E> + Drop,
    C: BatchController<V, Error = E> + Drop,
    L: Drop,
    E,
> DispatcherBuilder<V, S, C, L> {
    ghost use Rattle.shred.specs.Builders.{built};

    /// The asynchronous dispatcher of the plan over this world, home with nothing untold. It takes no memory.
    pub fn build_async(self, world: World<V>) -> AsyncDispatcher<V, S, C, L>
        ensures built { IsBuiltOver (built self) (world_held V.kind_of world) (state_of V.kind_of result) }
        ensures consistent { IsConsistent (built self) }
        ensures addition { KeepsAdditionIfOrdered (built self) }
    {
        new_async(world, self.stages.build(), self.thread_local, self.workers)
    }
}

impl<
    V: ResourceValue + Drop,
    S: System<V> + Drop,
    C: BatchController<V> + Drop,
    L: Drop,
> DispatcherBuilder<V, S, C, L> {
    ghost use Rattle.shred.specs.Builders.{built};
    ghost use Rattle.shred.specs.Adding.{MayAddTo, IsAddRefusal, IsBatchAddRefusal, AddsSystem, AddsBatch, AddsTiers, AddsEntry};

    // The stages of a plan without thread-local systems. Refused where there is one.
    fn into_inner(self) -> Result<StagesBuilder<V, S, C>, AddError>
        ensures no_local { OnOk result ((built self).locals ≡ []) }
        ensures plan { IfOk result (λ stages. planned stages ≡ (built self).plan) }
        ensures states { IfOk result (λ stages. AreSame (built self).states (builder_states stages)) }
        ensures local { OnErr result ((built self).locals ≡ [] → ⊥) }
        ensures refused { IfErr result (λ e. e ≡ AddError.ThreadLocalInBatch) }
    {
        if self.thread_local.len() > 0 {
            return Err(AddError::ThreadLocalInBatch);
        }
        Ok(self.stages)
    }

    // The tiers of the inner plan of a batch, where one may be added under this name. Refused first where the inner builder has
    // a thread-local system, and then as `add` is.
    pub(crate) fn inner_tiers(
        &self,
        inner: Self,
        name: &str,
        dependencies: &[&str],
    ) -> Result<Vec<Tier<V, Work<S, Nested<V, S, C>>>>, AddError>
        ensures allowed { OnOk result (MayAddTo self.now name.now dependencies.now) }
        ensures no_local { OnOk result ((built inner).locals ≡ []) }
        ensures plan { IfOk result (λ tiers. tiers_plan tiers.items ≡ (built inner).plan) }
        ensures states { IfOk result (λ tiers. AreSame (built inner).states (tiers_states tiers.items)) }
        ensures own_lists { IfOk result (λ tiers. TiersOwn S.System C.BatchController tiers.items) }
        ensures refused { IfErr result (IsBatchAddRefusal inner self.now name.now dependencies.now) }
    {
        let stages = inner.into_inner()?;
        may_add(&self.names, self.next, name, dependencies)?;
        Ok(tiers_of(self.alloc, stages.build())?)
    }

    /// Places the system in the plan with the next id, and enters its name unless that is empty. What it depends on stands
    /// in an earlier stage, or earlier in the same group. Tested in this order: each dependency is a known name, the name is
    /// new, an id is left, memory is there. After a refusal the builder is as before, and the system is dropped.
    pub fn add(
        &mut self,
        system: S,
        name: &str,
        dependencies: &[&str],
    ) -> Result<SystemId, AddError>
        ensures id { IfOk result (λ id. id.0 ≡ (built self.old).next) }
        ensures allowed { OnOk result (MayAddTo self.old name.now dependencies.now) }
        ensures added { OnOk result (AddsSystem self.old self.new name.now dependencies.now system) }
        ensures refused { IfErr result (IsAddRefusal self.old name.now dependencies.now) }
        ensures unchanged { OnErr result (IsSameBuilt (built self.old) (built self.new)) }
    {
        let id = SystemId(self.next);
        may_add(&self.names, id.0, name, dependencies)?;
        let entry = system_entry(self.alloc, id, system)?;
        self.accept(entry, name, dependencies)
    }

    /// `add`, on a builder that is handed on. After a refusal the builder is dropped.
    pub fn with(self, system: S, name: &str, dependencies: &[&str]) -> Result<Self, AddError>
        ensures allowed { OnOk result (MayAddTo self name.now dependencies.now) }
        ensures added { IfOk result (λ after. AddsSystem self after name.now dependencies.now system) }
        ensures refused { IfErr result (IsAddRefusal self name.now dependencies.now) }
    {
        let mut builder = self;
        builder.add(system, name, dependencies)?;
        Ok(builder)
    }

    // Gives the entry its place, and enters its name, where it may be added.
    pub(crate) fn accept(
        &mut self,
        entry: GroupEntry<V, Work<S, Nested<V, S, C>>>,
        name: &str,
        dependencies: &[&str],
    ) -> Result<SystemId, AddError>
        requires allowed { MayAddTo self.old name.now dependencies.now }
        requires own_lists { EntryOwns S.System C.BatchController entry }
        requires id { (entry_plan entry).id ≡ (built self.old).next }
        ensures id { IfOk result (λ id. id.0 ≡ (built self.old).next) }
        ensures added { OnOk result (AddsEntry self.old self.new name.now dependencies.now entry) }
        ensures refused { IfErr result (λ e. e ≡ AddError.OutOfMemory) }
        ensures unchanged { OnErr result (IsSameBuilt (built self.old) (built self.new)) }
    {
        let id = SystemId(self.next);
        let ids = ids_of(self.alloc, &self.names, dependencies)?;
        enter(self.alloc, &mut self.names, name, id)?;
        if let Err(error) = self.stages.insert_entry(ids.as_slice(), entry) {
            forget(&mut self.names, name);
            return Err(error.into());
        }
        self.next += 1;
        Ok(id)
    }

    /// Places a batch of this controller and of the plan of `inner` with the next id, and enters its name unless that is
    /// empty. Its lists are those of the controller joined with those of the plan, its time the controller's. Refused as
    /// `ThreadLocalInBatch` first, where `inner` has a thread-local system, and then as `add` is. After a refusal the builder is
    /// as before, and what was handed in is dropped.
    pub fn add_batch(
        &mut self,
        controller: C,
        inner: Self,
        name: &str,
        dependencies: &[&str],
    ) -> Result<SystemId, AddError>
        ensures id { IfOk result (λ id. id.0 ≡ (built self.old).next) }
        ensures allowed { OnOk result (MayAddTo self.old name.now dependencies.now) }
        ensures no_local { OnOk result ((built inner).locals ≡ []) }
        ensures added { OnOk result (AddsBatch self.old self.new name.now dependencies.now controller inner) }
        ensures inner_addition { KeepsAdditionIfOrdered (built inner) }
        ensures refused { IfErr result (IsBatchAddRefusal inner self.old name.now dependencies.now) }
        ensures unchanged { OnErr result (IsSameBuilt (built self.old) (built self.new)) }
    {
        let tiers = self.inner_tiers(inner, name, dependencies)?;
        self.place_batch(controller, tiers, name, dependencies)
    }

    // Places a batch of this controller and of the plan of these tiers, where it may be added under this name.
    fn place_batch(
        &mut self,
        controller: C,
        tiers: Vec<Tier<V, Work<S, Nested<V, S, C>>>>,
        name: &str,
        dependencies: &[&str],
    ) -> Result<SystemId, AddError>
        requires allowed { MayAddTo self.old name.now dependencies.now }
        requires own_lists { TiersOwn S.System C.BatchController tiers.items }
        ensures id { IfOk result (λ id. id.0 ≡ (built self.old).next) }
        ensures added { OnOk result (AddsTiers self.old self.new name.now dependencies.now controller tiers.items) }
        ensures refused { IfErr result (λ e. e ≡ AddError.OutOfMemory) }
        ensures unchanged { OnErr result (IsSameBuilt (built self.old) (built self.new)) }
    {
        let entry = batch_entry(self.alloc, SystemId(self.next), controller, tiers)?;
        self.accept(entry, name, dependencies)
    }

    /// `add_batch`, on a builder that is handed on. After a refusal the builder is dropped.
    pub fn with_batch(
        self,
        controller: C,
        inner: Self,
        name: &str,
        dependencies: &[&str],
    ) -> Result<Self, AddError>
        ensures allowed { OnOk result (MayAddTo self name.now dependencies.now) }
        ensures no_local { OnOk result ((built inner).locals ≡ []) }
        ensures added { IfOk result (λ after. AddsBatch self after name.now dependencies.now controller inner) }
        ensures inner_addition { KeepsAdditionIfOrdered (built inner) }
        ensures refused { IfErr result (IsBatchAddRefusal inner self name.now dependencies.now) }
    {
        let mut builder = self;
        builder.add_batch(controller, inner, name, dependencies)?;
        Ok(builder)
    }
}

#[cfg(test)]
mod tests {
    use super::*;
    use crate::plain::{Plain, PlainSystem};
    use shred_run::Fault;
    use shred_world::{BatchAccessor, Only, OutOfMemory, View};
    use std::test::Fail;

    /// A system that touches nothing.
    #[derive(Drop)]
    struct Quiet;

    impl PlainSystem<Only<i64>> for Quiet {
        type Error = u8;

        ghost use Rattle.std.specs.Prelude.{[]};

        ghost reads = { λ system. [] };

        ghost writes = { λ system. [] };

        ghost step = { λ _ _ _ _ _. Unit {0} };

        fn run(&mut self, _view: &mut View<Only<i64>>) -> Result<(), Fault<u8>> {
            Ok(())
        }

        fn accessor(&self, alloc: Global) -> Result<BatchAccessor, OutOfMemory> {
            BatchAccessor::of(alloc, &[], &[])
        }
    }

    type Builder = DispatcherBuilder<Only<i64>, Plain<Quiet>>;

    // A builder with one system, and without an id for another.
    fn exhausted(alloc: Global) -> Result<Builder, AddError> {
        let mut builder: Builder = DispatcherBuilder::new(alloc);
        builder.add(Plain(Quiet), "a", &[])?;
        builder.next = usize::MAX;
        Ok(builder)
    }

    fn added(
        builder: &mut Builder,
        name: &str,
        dependencies: &[&str],
    ) -> Result<SystemId, AddError> {
        builder.add(Plain(Quiet), name, dependencies)
    }

    #[test]
    fn no_system_has_the_greatest_id(rt: HostRuntime) -> Result<(), Fail> {
        let mut builder = exhausted(rt.alloc())?;
        let refused = Err(AddError::IdsExhausted);
        assert_eq!(rt; added(&mut builder, "b", &["a"]), refused);
        assert_eq!(rt; added(&mut builder, "", &[]), refused);
        // The builder is as before: `b` is no name, `a` is one, no number was given, and one system is planned.
        let missing = Err(AddError::NoSuchSystem { place: 0 });
        assert_eq!(rt; added(&mut builder, "c", &["b"]), missing);
        assert_eq!(rt; added(&mut builder, "a", &[]), Err(AddError::NameTaken));
        assert_eq!(rt; builder.next, usize::MAX);
        assert_eq!(rt; builder.build().max_threads(), 1);
        Ok(())
    }
}
