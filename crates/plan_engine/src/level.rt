//! A plan that grows, of a script or of a batch in it, and what is shown of it.
ghost use Rattle.std.specs.Prelude.{◌≡◌, ◌≤◌, ◌++◌, IfOk, OnOk, vec_len};
ghost use Rattle.std.specs.String.{string_bytes};
ghost use Rattle.shred.specs.Builders.{built};
ghost use Rattle.shred_stage.specs.Known.{texts_of};
ghost use Rattle.plan_engine.specs.Names.{numbers_in};
ghost use Rattle.plan_engine.specs.Noted.{AreEarlier, BecomePlans};

use crate::declaration::Declaration;
use crate::declarations::Declarations;
use crate::plans::{Batch, Entry, Plan};
use crate::stages::stages_of;
use crate::touched::Touched;
use script_engine::{Declared, LineTaker, ScriptBuilder};
use script_text::error::ScriptError;
use script_text::script::{BatchLine, RuleLine, SystemLine};
use script_text::step::Step;
use shred::{RunningTime, SystemId};
use std::alloc::{AllocError, Global};

/// A plan that grows, with what is noted of it, and the plans of the batches in it, at every depth, each behind the one that it
/// stands in.
#[derive(Drop)]
pub(crate) struct Level {
    builder: ScriptBuilder,
    plan: Plan,
    behind: Vec<Plan>,
    ghost noted: { (built builder).next ≤ vec_len plan.declarations.entries },
}

impl Level {
    ghost use Rattle.plan_engine.specs.Levels.{ArePlansOf, IsNewLevel, found_ids, next_name, next_path};

    /// An empty plan, with so many batches around it.
    pub(crate) fn new(alloc: Global, batch: Option<Batch>, depth: usize) -> Level
        ensures { IsNewLevel result batch }
    {
        Level {
            builder: ScriptBuilder::new(alloc),
            plan: Plan {
                batch,
                depth,
                entries: Vec::new(alloc),
                declarations: Declarations::new(alloc),
                stages: Vec::new(alloc),
            },
            behind: Vec::new(alloc),
        }
    }

    /// The name of the next entry: the one that it is given, or what it is, with its id.
    fn name_of_next(&self, alloc: Global, name: &str, kind: &str) -> Result<String, AllocError>
        ensures { IfOk result (λ text. string_bytes text ≡ next_name self.now kind.now name.now) }
    {
        let id = self.plan.entries.len();
        if name.is_empty() {
            format!(in alloc; "{kind} {id}")
        } else {
            String::from_str(alloc, name)
        }
    }

    /// The name of the next batch, behind those of the batches around it, with a `/` between them.
    fn path_of_next(&self, alloc: Global, name: &str) -> Result<String, AllocError>
        ensures { IfOk result (λ path. string_bytes path ≡ next_path self.now name.now) }
    {
        let name = self.name_of_next(alloc, name, "batch")?;
        match &self.plan.batch {
            Some(batch) => format!(in alloc; "{}/{name}", batch.name),
            None => Ok(name),
        }
    }

    /// The ids of the entries of these names.
    fn ids_of(&self, alloc: Global, names: &[&str]) -> Result<Vec<usize>, AllocError>
        ensures ids { IfOk result (λ ids. ids.items ≡ found_ids self.now (texts_of names.now)) }
        ensures earlier { IfOk result (λ ids. AreEarlier self.now.plan ids.items) }
    {
        let mut ids = Vec::new(alloc);
        for place in 0..names.len() {
            push_known(&mut ids, self.builder.id_of(names[place]))?;
        }
        Ok(ids)
    }

    /// The plan, as it is planned, and those of its batches behind it.
    pub(crate) fn into_plans(self, alloc: Global) -> Result<Vec<Plan>, AllocError>
        ensures { IfOk result (λ plans. ArePlansOf self plans.items) }
    {
        let Level {
            builder,
            plan,
            behind,
        } = self;
        as_planned(alloc, &builder, plan, behind)
    }
}

impl LineTaker for Level {
    ghost use Rattle.plan_engine.specs.Levels.{level_notes};

    ghost noting = { level_notes };

    fn add_system(&mut self, alloc: Global, line: SystemLine<'_>) -> Result<(), ScriptError> {
        let declared = Declared::of_steps(alloc, line.steps.as_slice())?;
        let dependencies = self.ids_of(alloc, line.dependencies.as_slice())?;
        let name = self.name_of_next(alloc, line.name, "system")?;
        let entry = Entry {
            name,
            time: line.time.count(),
            inner: None,
        };
        let Declared {
            read: reads,
            written: writes,
            ..
        } = declared;
        let declaration = Declaration {
            reads,
            writes,
            dependencies,
        };
        self.plan.add(entry, declaration)?;
        self.builder.add_system(alloc, line)
    }

    fn add_local(&mut self, steps: Vec<Step>) -> Result<(), ScriptError> {
        self.builder.add_local(steps)
    }

    fn add_barrier(&mut self) {
        LineTaker::add_barrier(&mut self.builder);
    }

    fn set_rule(&mut self, line: RuleLine) -> Result<(), ScriptError> {
        self.builder.set_rule(line)
    }

    fn begin_batch(&self, alloc: Global, batch: &BatchLine<'_>) -> Result<Level, AllocError> {
        let name = self.path_of_next(alloc, batch.name)?;
        let inner = Batch {
            name,
            rounds: batch.rounds,
        };
        let depth = self.plan.depth.saturating_add(1);
        Ok(Level::new(alloc, Some(inner), depth))
    }

    fn add_batch(
        &mut self,
        alloc: Global,
        end: usize,
        batch: BatchLine<'_>,
        inner: Level,
    ) -> Result<(), ScriptError> {
        let touched = Touched::by_all(alloc, &inner.plan.declarations.entries)?;
        let dependencies = self.ids_of(alloc, batch.dependencies.as_slice())?;
        let name = self.name_of_next(alloc, batch.name, "batch")?;
        let entry = Entry {
            name,
            time: RunningTime::VeryLong.count(),
            inner: Some(self.behind.len() + 1),
        };
        let Touched { reads, writes } = touched;
        let declaration = Declaration {
            reads,
            writes,
            dependencies,
        };
        let Level {
            builder,
            plan,
            behind,
        } = inner;
        let mut plans = as_planned(alloc, &builder, plan, behind)?;
        self.plan.add(entry, declaration)?;
        self.behind.append(&mut plans)?;
        LineTaker::add_batch(&mut self.builder, alloc, end, batch, builder)
    }
}

/// Puts the id behind these, if there is one.
fn push_known(ids: &mut Vec<usize>, id: Option<SystemId>) -> Result<(), AllocError>
    ensures { OnOk result (ids.new.items ≡ ids.old.items ++ numbers_in id) }
{
    if let Some(id) = id {
        ids.push(id.0)?;
    }
    Ok(())
}

/// A plan with what is noted of it and the stages that the builder made, and behind it these.
fn as_planned(
    alloc: Global,
    builder: &ScriptBuilder,
    mut plan: Plan,
    mut behind: Vec<Plan>,
) -> Result<Vec<Plan>, AllocError>
    ensures { IfOk result (λ all. BecomePlans plan behind.items (built builder.now).plan all.items) }
{
    plan.stages = stages_of(alloc, builder.stages())?;
    let mut plans = Vec::new(alloc);
    plans.push(plan)?;
    plans.append(&mut behind)?;
    Ok(plans)
}
