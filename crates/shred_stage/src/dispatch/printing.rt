//! The plan as a text.
ghost use Rattle.std.specs.Prelude.{◌≡◌, ◌++◌, map, option_copied};
ghost use Rattle.shred_model.specs.Plan.{plan_ids, stage_ids};
ghost use Rattle.shred_stage.specs.BuilderPlan.{planned};
ghost use Rattle.shred_stage.specs.Names.{first_unnamed, least_name, lesser, named_ids, IsFirstUnnamed};
ghost use Rattle.shred_run.specs.PlanOf.{numbers_of};
ghost use Rattle.shred_stage.specs.Printed.{cleaned, group_text, ids_text, plan_text, printed_name, stage_text, system_line};
ghost use Rattle.shred_stage.specs.SinkTexts.{PutsPlan, PutsText, PutsEach, PutsNamed};
ghost use Rattle.shred_stage.specs.StagePlan.{plan_of, stage_plan};

use crate::dispatch::sink::{PlanSink, SinkFailed, put_all};
use crate::dispatch::stage::Stage;
use crate::dispatch::stages_builder::StagesBuilder;
use shred_run::{BatchController, System, SystemId};
use shred_world::ResourceValue;
use std::collections::HashMap;
use thiserror::Error;

/// Why a plan was not printed.
#[derive(Clone, Copy, Debug, PartialEq, Eq, Error)]
pub enum PrintError {
    /// No name stands for this id, the first such in the plan's order. Nothing was written.
    #[error("{0} has no name")]
    Unnamed(SystemId),
    /// The sink failed. What was written is a beginning of the text.
    #[error("the write failed")]
    Write,
}

// The lesser of two names, where there is a first.
fn lesser<'name>(best: Option<&'name str>, name: &'name str) -> &'name str
    ensures { result.now ≡ lesser (option_copied best.entry) name.now }
{
    match best {
        Some(best) if !(name < best) => best,
        _ => name,
    }
}

/// The least name, by its bytes, that stands for the id.
pub fn least_name<'name>(
    names: &'name HashMap<String, SystemId>,
    id: SystemId,
) -> Option<&'name str>
    ensures { option_copied result ≡ least_name (named_ids names.now) id.0 }
{
    let mut best: Option<&str> = None;
    for (name, other) in names.iter() {
        if *other == id {
            best = Some(lesser(best, name.as_str()));
        }
    }
    best
}

// The first of these ids that no name stands for.
fn first_unnamed_of(ids: &[SystemId], names: &HashMap<String, SystemId>) -> Option<SystemId>
    ensures { IsFirstUnnamed names.now (numbers_of ids.now) result }
{
    for id in ids {
        if least_name(names, *id).is_none() {
            return Some(*id);
        }
    }
    None
}

// The first id of the stage that no name stands for.
fn first_unnamed_in<V: ResourceValue, S: System<V>, C: BatchController<V>>(
    stage: &Stage<V, S, C>,
    names: &HashMap<String, SystemId>,
) -> Option<SystemId>
    ensures { IsFirstUnnamed names.now (stage_ids (stage_plan stage.now)) result }
{
    for place in 0..stage.max_threads() {
        if let Some(ids) = stage.group_ids(place) {
            if let Some(id) = first_unnamed_of(ids, names) {
                return Some(id);
            }
        }
    }
    None
}

/// The first id in the plan's order that no name stands for.
pub(crate) fn first_unnamed<V: ResourceValue, S: System<V>, C: BatchController<V>>(
    stages: &Vec<Stage<V, S, C>>,
    names: &HashMap<String, SystemId>,
) -> Option<SystemId>
    ensures { IsFirstUnnamed names.now (plan_ids (plan_of stages.now.items)) result }
{
    for place in 0..stages.len() {
        if let Some(id) = first_unnamed_in(&stages[place], names) {
            return Some(id);
        }
    }
    None
}

// What is printed for a byte of a name.
fn cleaned(byte: u8) -> u8
    ensures { result ≡ cleaned byte }
{
    match byte {
        b' ' | b'-' | b'/' => b'_',
        other => other,
    }
}

fn put_cleaned<W: PlanSink>(sink: &mut W, name: &[u8]) -> Result<(), SinkFailed>
    ensures { PutsText W.PlanSink sink.old sink.new (map cleaned name.now) result }
{
    for byte in name {
        if let Err(e) = put_all(sink, &[cleaned(*byte)]) {
            return Err(e);
        }
    }
    Ok(())
}

// The name that is printed for the id.
fn put_name<W: PlanSink>(
    sink: &mut W,
    names: &HashMap<String, SystemId>,
    id: SystemId,
) -> Result<(), SinkFailed>
    ensures { PutsText W.PlanSink sink.old sink.new (printed_name (named_ids names.now) id.0) result }
{
    put_cleaned(sink, least_name(names, id).unwrap_or("").as_bytes())
}

fn put_system<W: PlanSink>(
    sink: &mut W,
    names: &HashMap<String, SystemId>,
    id: SystemId,
) -> Result<(), SinkFailed>
    ensures { PutsText W.PlanSink sink.old sink.new (system_line (named_ids names.now) id.0) result }
{
    if let Err(e) = put_all(sink, b"\t\t\t") {
        return Err(e);
    }
    if let Err(e) = put_name(sink, names, id) {
        return Err(e);
    }
    put_all(sink, b",\n")
}

fn put_ids<W: PlanSink>(
    sink: &mut W,
    names: &HashMap<String, SystemId>,
    ids: &[SystemId],
) -> Result<(), SinkFailed>
    ensures { PutsEach W.PlanSink names.now system_line (numbers_of ids.now) sink.old sink.new result }
{
    for id in ids {
        if let Err(e) = put_system(sink, names, *id) {
            return Err(e);
        }
    }
    Ok(())
}

fn put_group<W: PlanSink>(
    sink: &mut W,
    names: &HashMap<String, SystemId>,
    ids: &[SystemId],
) -> Result<(), SinkFailed>
    ensures { PutsNamed W.PlanSink names.now ids_text (numbers_of ids.now) sink.old sink.new result }
{
    if let Err(e) = put_all(sink, b"\t\tseq![\n") {
        return Err(e);
    }
    if let Err(e) = put_ids(sink, names, ids) {
        return Err(e);
    }
    put_all(sink, b"\t\t],\n")
}

fn put_groups<W: PlanSink, V: ResourceValue, S: System<V>, C: BatchController<V>>(
    sink: &mut W,
    names: &HashMap<String, SystemId>,
    stage: &Stage<V, S, C>,
) -> Result<(), SinkFailed>
    ensures { PutsEach W.PlanSink names.now group_text (stage_plan stage.now) sink.old sink.new result }
{
    for place in 0..stage.max_threads() {
        if let Some(ids) = stage.group_ids(place) {
            if let Err(e) = put_group(sink, names, ids) {
                return Err(e);
            }
        }
    }
    Ok(())
}

fn put_stage<W: PlanSink, V: ResourceValue, S: System<V>, C: BatchController<V>>(
    sink: &mut W,
    names: &HashMap<String, SystemId>,
    stage: &Stage<V, S, C>,
) -> Result<(), SinkFailed>
    ensures { PutsNamed W.PlanSink names.now stage_text (stage_plan stage.now) sink.old sink.new result }
{
    if let Err(e) = put_all(sink, b"\tpar![\n") {
        return Err(e);
    }
    if let Err(e) = put_groups(sink, names, stage) {
        return Err(e);
    }
    put_all(sink, b"\t],\n")
}

fn put_stages<W: PlanSink, V: ResourceValue, S: System<V>, C: BatchController<V>>(
    sink: &mut W,
    names: &HashMap<String, SystemId>,
    stages: &Vec<Stage<V, S, C>>,
) -> Result<(), SinkFailed>
    ensures { PutsEach W.PlanSink names.now stage_text (plan_of stages.now.items) sink.old sink.new result }
{
    for place in 0..stages.len() {
        if let Err(e) = put_stage(sink, names, &stages[place]) {
            return Err(e);
        }
    }
    Ok(())
}

/// Puts the text of the plan.
pub(crate) fn put_plan<W: PlanSink, V: ResourceValue, S: System<V>, C: BatchController<V>>(
    sink: &mut W,
    names: &HashMap<String, SystemId>,
    stages: &Vec<Stage<V, S, C>>,
) -> Result<(), SinkFailed>
    ensures { PutsNamed W.PlanSink names.now plan_text (plan_of stages.now.items) sink.old sink.new result }
{
    if let Err(e) = put_all(sink, b"seq![\n") {
        return Err(e);
    }
    if let Err(e) = put_stages(sink, names, stages) {
        return Err(e);
    }
    put_all(sink, b"]\n")
}

/// Puts the plan's text and what follows it into the sink, as `write_par_seq` does.
pub(crate) fn print<W: PlanSink, V: ResourceValue, S: System<V>, C: BatchController<V>>(
    sink: &mut W,
    names: &HashMap<String, SystemId>,
    stages: &Vec<Stage<V, S, C>>,
    end: &[u8],
) -> Result<(), PrintError>
    ensures { PutsPlan W.PlanSink names.now (plan_of stages.now.items) end.now sink.old sink.new result }
{
    if let Some(id) = first_unnamed(stages, names) {
        return Err(PrintError::Unnamed(id));
    }
    match put_with_end(sink, names, stages, end) {
        Ok(()) => Ok(()),
        Err(_) => Err(PrintError::Write),
    }
}

fn put_with_end<W: PlanSink, V: ResourceValue, S: System<V>, C: BatchController<V>>(
    sink: &mut W,
    names: &HashMap<String, SystemId>,
    stages: &Vec<Stage<V, S, C>>,
    end: &[u8],
) -> Result<(), SinkFailed>
    ensures { PutsText W.PlanSink sink.old sink.new (plan_text (named_ids names.now) (plan_of stages.now.items) ++ end.now) result }
{
    if let Err(e) = put_plan(sink, names, stages) {
        return Err(e);
    }
    put_all(sink, end)
}

/// Puts the plan's text and what follows it into the sink, as `write_par_seq` does. It is there for `DispatcherBuilder`.
pub fn print_with_end<V: ResourceValue, S: System<V>, C: BatchController<V>, W: PlanSink>(
    builder: &StagesBuilder<V, S, C>,
    sink: &mut W,
    names: &HashMap<String, SystemId>,
    end: &[u8],
) -> Result<(), PrintError>
    ensures { PutsPlan W.PlanSink names.now (planned builder.now) end.now sink.old sink.new result }
{
    print(sink, names, &builder.stages, end)
}
