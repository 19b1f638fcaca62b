//! Plans that are to be shown.
ghost use Rattle.std.specs.Prelude.{◌≡◌, ◌++◌, IfOk, OnErr, OnOk, Some};
ghost use Rattle.std.specs.String.{string_bytes};
ghost use Rattle.plan_engine.specs.Names.{full_name, path_name};
ghost use Rattle.plan_engine.specs.Noted.{AreEarlier, DeclareSame, IsNoted};
ghost use Rattle.plan_engine.specs.Plans.{HasChoices, order_of, stage_order};

use crate::choices::Choice;
use crate::declaration::Declaration;
use crate::declarations::Declarations;
use std::alloc::{AllocError, Global};
use std::fmt;

/// An entry of a plan: a system or a batch.
#[derive(Drop)]
pub struct Entry {
    pub name: String,
    /// Its running time, as a count.
    pub time: usize,
    /// How many places behind its own plan the plan stands that it runs, where it is a batch.
    pub inner: Option<usize>,
}

/// The batch that a plan belongs to.
#[derive(Drop)]
pub struct Batch {
    /// Its name, behind those of the batches around it, with a `/` between them.
    pub name: String,
    pub rounds: usize,
}

/// A plan.
#[derive(Drop)]
pub struct Plan {
    /// The batch that runs it, if one does.
    pub batch: Option<Batch>,
    /// The number of batches around it.
    pub depth: usize,
    /// Its entries, and what they declare, by their ids.
    pub entries: Vec<Entry>,
    pub declarations: Declarations,
    /// Its stages, with the ids of the entries of their groups.
    pub stages: Vec<Vec<Vec<usize>>>,
}

/// A plan and those of the batches in it, at every depth, each behind the one that it stands in.
#[derive(Drop)]
pub struct Plans<'text> {
    /// The names of the resources.
    pub resources: Vec<&'text str>,
    pub plans: Vec<Plan>,
}

/// The name of an entry, behind that of the batch that it stands in.
#[derive(Clone, Copy)]
pub(crate) struct FullName<'plan> {
    batch: Option<&'plan str>,
    name: &'plan str,
}

impl fmt::Display for FullName<'_> {
    ghost output = { λ name. Some (full_name name) };

    fn fmt<W: fmt::Write>(&self, f: &mut fmt::Formatter<W>) -> fmt::Result {
        let name = self.name;
        match self.batch {
            Some(batch) => write!(f, "{batch}/{name}"),
            None => write!(f, "{name}"),
        }
    }
}

impl Plan {
    /// Notes one more entry, and what it declares.
    pub(crate) fn add(&mut self, entry: Entry, declaration: Declaration) -> Result<(), AllocError>
        requires { AreEarlier self.old declaration.dependencies.items }
        ensures noted { OnOk result (IsNoted entry declaration self.old self.new) }
        ensures unchanged { OnErr result (DeclareSame self.old self.new) }
    {
        self.entries.push(entry)?;
        self.declarations.add(declaration)
    }

    /// The full name of one of its entries.
    pub(crate) fn full_name<'plan>(&'plan self, entry: &'plan Entry) -> FullName<'plan>
        ensures { full_name result ≡ path_name self.now.batch (string_bytes entry.now.name) }
    {
        let batch = match &self.batch {
            Some(batch) => Some(batch.name.as_str()),
            None => None,
        };
        FullName {
            batch,
            name: entry.name.as_str(),
        }
    }

    /// What the entry of this id declares, if there is one.
    pub(crate) fn declaration(&self, id: usize) -> Option<&Declaration> {
        self.declarations.entries.get(id)
    }

    /// The stage of each entry, by its id.
    pub(crate) fn stage_of_each(&self, alloc: Global) -> Result<Vec<usize>, AllocError> {
        let mut stages = vec![in alloc; 0; self.entries.len()]?;
        for (stage, groups) in self.stages.iter().enumerate() {
            for group in groups {
                for id in group {
                    if let Some(entry) = stages.get_mut(*id) {
                        *entry = stage;
                    }
                }
            }
        }
        Ok(stages)
    }

    /// The ids of its entries, stage after stage and group after group.
    pub fn order(&self, alloc: Global) -> Result<Vec<usize>, AllocError>
        ensures { IfOk result (λ ids. ids.items ≡ order_of self.now) }
    {
        let mut ids = Vec::new(alloc);
        for groups in &self.stages {
            append_stage(&mut ids, groups.as_slice())?;
        }
        Ok(ids)
    }

    /// The pairs of entries whose order the planner chose, in the plan's order.
    pub fn choices(&self, alloc: Global) -> Result<Vec<Choice>, AllocError>
        ensures { IfOk result (HasChoices self.now) }
    {
        let order = self.order(alloc)?;
        self.declarations.choices(alloc, order.as_slice())
    }

    /// The time of a stage: the greatest of its groups.
    pub(crate) fn stage_time(&self, groups: &[Vec<usize>]) -> usize {
        let mut time = 0;
        for group in groups {
            time = self.group_time(group).max(time);
        }
        time
    }

    /// The time of a group: the sum of its entries' times.
    fn group_time(&self, ids: &[usize]) -> usize {
        let mut time: usize = 0;
        for id in ids {
            if let Some(entry) = self.entries.get(*id) {
                time = time.saturating_add(entry.time);
            }
        }
        time
    }

    /// The greatest time of a stage.
    pub(crate) fn longest_time(&self) -> usize {
        let mut longest = 0;
        for groups in &self.stages {
            longest = self.stage_time(groups).max(longest);
        }
        longest
    }

    /// The time of all stages, one after the other.
    pub(crate) fn whole_time(&self) -> usize {
        let mut time: usize = 0;
        for groups in &self.stages {
            time = time.saturating_add(self.stage_time(groups));
        }
        time
    }

    /// The greatest number of groups in a stage.
    pub fn threads(&self) -> usize {
        let mut threads = 0;
        for groups in &self.stages {
            threads = groups.len().max(threads);
        }
        threads
    }
}

/// Puts the ids of the groups of a stage behind those that are there.
fn append_stage(ids: &mut Vec<usize>, groups: &[Vec<usize>]) -> Result<(), AllocError>
    ensures { OnOk result (ids.new.items ≡ ids.old.items ++ stage_order groups.now) }
{
    for group in groups {
        ids.extend_from_slice(group.as_slice())?;
    }
    Ok(())
}
