//! A script, looked through: its resources and its plan.
ghost use Rattle.std.specs.Prelude.{ℕ, IfErr, IfOk, OnOk};
ghost use Rattle.std.specs.Str.{IsAscii};
ghost use Rattle.shred_stage.specs.Known.{texts_of};
ghost use Rattle.script_text.specs.Input.{IsLineError};
ghost use Rattle.script_text.specs.Lines.{lines_of};
ghost use Rattle.script_text.specs.Report.{resource_names};
ghost use Rattle.script_text.specs.Scripts.{AreStepsOf, IsScriptOf, LineSays, LinesSay, SaysBarrier, SaysBatch, SaysEnd, SaysLocal, SaysMode, SaysPlan, SaysResource, SaysRule, SaysSystem, SaysTimes, SaysWorkers, WordSays, WritesBatch, WritesSystem, said_by};
ghost use Rattle.script_text.specs.StepForms.{WritesNames};

use crate::error::{LineError, LineFault, ScriptError};
use crate::lines::Lines;
use crate::step::{Resources, Step};
use crate::words::{Words, count, integer, planner_rule, resource_name, running_time, system_name};
use indexmap::IndexMap;
use shred_run::RunningTime;
use shred_stage::Rule;
use std::alloc::Global;

/// The most workers.
const MOST_WORKERS: u32 = 64;

/// The most times that a plan is dispatched.
const MOST_TIMES: u32 = 1_000_000;

/// The most rounds of a batch.
const MOST_ROUNDS: u32 = 1_000;

/// The most batches that nest in each other.
const MOST_OPEN: usize = 8;

/// A line that adds a staged system, which runs after those that it depends on.
#[derive(Drop)]
pub struct SystemLine<'text> {
    pub line: usize,
    pub name: &'text str,
    pub time: RunningTime,
    pub dependencies: Vec<&'text str>,
    pub steps: Vec<Step>,
}

impl<'text> SystemLine<'text> {
    /// The line with this number, of which these words stand behind `sys`.
    fn parse(
        alloc: Global,
        line: usize,
        mut words: Words<'text>,
        resources: &Resources<'text>,
    ) -> Result<SystemLine<'text>, LineError>
        ensures { IfOk result (WritesSystem line (resource_names resources.now) words.entry.rest.now) }
    {
        let name = system_name(words.required()?)?;
        let time = running_time(words.required()?)?;
        let dependencies = dependencies(alloc, words.required()?)?;
        let steps = steps(alloc, words, resources)?;
        Ok(SystemLine {
            line,
            name,
            time,
            dependencies,
            steps,
        })
    }
}

/// A line that begins a batch, which runs its plan so often, after those that it depends on.
#[derive(Drop)]
pub struct BatchLine<'text> {
    pub line: usize,
    pub name: &'text str,
    pub dependencies: Vec<&'text str>,
    pub rounds: usize,
}

impl<'text> BatchLine<'text> {
    /// The line with this number, of which these words stand behind `batch`.
    fn parse(
        alloc: Global,
        line: usize,
        mut words: Words<'text>,
    ) -> Result<BatchLine<'text>, LineError>
        ensures { IfOk result (WritesBatch line words.entry.rest.now) }
    {
        let name = system_name(words.required()?)?;
        let dependencies = dependencies(alloc, words.required()?)?;
        let rounds = count(words.required()?, MOST_ROUNDS)?;
        words.end()?;
        Ok(BatchLine {
            line,
            name,
            dependencies,
            rounds: rounds as usize,
        })
    }
}

/// A line that sets the rule by which what is added behind it is placed.
#[derive(Clone, Copy)]
pub struct RuleLine {
    pub line: usize,
    pub rule: Rule,
}

/// A line that the plan is made by, or the thread-local systems. That which ends a batch has its number.
#[derive(Drop)]
pub enum PlanLine<'text> {
    System(SystemLine<'text>),
    Local(Vec<Step>),
    Barrier,
    Rule(RuleLine),
    Batch(BatchLine<'text>),
    End(usize),
}

/// How the staged systems run: their groups beside each other, or one after the other.
#[derive(Clone, Copy)]
pub enum Mode {
    Parallel,
    Sequential,
}

/// How often and how a plan is dispatched. Of several lines the last counts.
#[derive(Clone, Copy)]
pub struct Manner {
    pub workers: usize,
    pub times: u32,
    pub mode: Mode,
}

/// What the lines of a script declare, in their order.
#[derive(Drop)]
pub struct Script<'text> {
    /// Each resource's first value. Steps name a resource by its place here.
    pub resources: Resources<'text>,
    pub plan: Vec<PlanLine<'text>>,
    /// The numbers of the lines that began the batches which no line has ended so far.
    unended: Vec<usize>,
    /// Whether the plan is to be printed.
    pub prints_plan: bool,
    pub manner: Manner,
}

impl<'text> Script<'text> {
    /// Looks through the lines of `text` up to the first that has a fault.
    pub fn parse(alloc: Global, text: &'text [u8]) -> Result<Script<'text>, ScriptError>
        ensures ok { IfOk result (IsScriptOf text.now) }
        ensures err { IfErr result IsLineError }
    {
        let mut script = Script {
            resources: IndexMap::new(alloc),
            plan: Vec::new(alloc),
            unended: Vec::new(alloc),
            prints_plan: false,
            manner: Manner {
                workers: 4,
                times: 1,
                mode: Mode::Parallel,
            },
        };
        if let Err(error) = script.take_lines(alloc, text) {
            return Err(error);
        }
        match script.unended.last() {
            None => Ok(script),
            Some(line) => Err(ScriptError::at(*line, LineFault::BatchWithoutEnd.into())),
        }
    }

    fn take_lines(&mut self, alloc: Global, text: &'text [u8]) -> Result<(), ScriptError>
        ensures say { OnOk result (LinesSay 1 (lines_of text.now) (said_by self.old) (said_by self.new)) }
        ensures err { IfErr result IsLineError }
    {
        for (index, bytes) in Lines::of(text).enumerate() {
            let line = index + 1;
            if let Err(error) = self.take_line(alloc, line, bytes) {
                return Err(ScriptError::at(line, error));
            }
        }
        Ok(())
    }

    fn take_line(&mut self, alloc: Global, line: usize, bytes: &'text [u8]) -> Result<(), LineError>
        ensures ascii { OnOk result (IsAscii bytes.now) }
        ensures says { OnOk result (LineSays line bytes.now (said_by self.old) (said_by self.new)) }
    {
        let mut words = Words::of_line(bytes)?;
        match words.next() {
            None => Ok(()),
            Some(word) if word.starts_with('#') => Ok(()),
            Some(word) => self.take_words(alloc, line, word, words),
        }
    }

    /// Takes up a line that is to be of some kind, with its first word and those behind it.
    fn take_words(
        &mut self,
        alloc: Global,
        line: usize,
        word: &str,
        words: Words<'text>,
    ) -> Result<(), LineError>
        ensures { OnOk result (WordSays line word.now words.entry.rest.now (said_by self.old) (said_by self.new)) }
    {
        match word {
            "sys" => self.take_system(alloc, line, words),
            "barrier" => self.take_barrier(words),
            "rule" => self.take_rule(line, words),
            "local" => self.take_local(alloc, words),
            "batch" => self.take_batch(alloc, line, words),
            "end" => self.take_end(line, words),
            _ => self.take_outside(word, words),
        }
    }

    /// Takes up a line with this first word that may not stand in a batch.
    fn take_outside(&mut self, word: &str, words: Words<'text>) -> Result<(), LineError>
        ensures { OnOk result ((number : ℕ) → WordSays number word.now words.entry.rest.now (said_by self.old) (said_by self.new)) }
    {
        match word {
            "res" | "workers" | "times" | "mode" | "plan" if !self.unended.is_empty() => {
                Err(LineFault::NotInBatch.into())
            }
            "res" => self.take_resource(words),
            "workers" => self.take_workers(words),
            "times" => self.take_times(words),
            "mode" => self.take_mode(words),
            "plan" => self.take_plan(words),
            _ => Err(LineFault::UnknownLine.into()),
        }
    }

    fn take_batch(
        &mut self,
        alloc: Global,
        line: usize,
        words: Words<'text>,
    ) -> Result<(), LineError>
        ensures { OnOk result (SaysBatch line words.entry.rest.now (said_by self.old) (said_by self.new)) }
    {
        if self.unended.len() >= MOST_OPEN {
            return Err(LineFault::BatchTooDeep.into());
        }
        let batch = BatchLine::parse(alloc, line, words)?;
        self.unended.push(line)?;
        self.plan.push(PlanLine::Batch(batch))?;
        Ok(())
    }

    fn take_end(&mut self, line: usize, mut words: Words<'text>) -> Result<(), LineError>
        ensures { OnOk result (SaysEnd line words.entry.rest.now (said_by self.old) (said_by self.new)) }
    {
        if self.unended.is_empty() {
            return Err(LineFault::EndWithoutBatch.into());
        }
        words.end()?;
        let _ = self.unended.pop();
        self.plan.push(PlanLine::End(line))?;
        Ok(())
    }

    fn take_resource(&mut self, mut words: Words<'text>) -> Result<(), LineError>
        ensures { OnOk result (SaysResource words.entry.rest.now (said_by self.old) (said_by self.new)) }
    {
        let name = resource_name(words.required()?)?;
        if self.resources.contains_key(name) {
            return Err(LineFault::ResourceTwice.into());
        }
        let first = integer(words.required()?)?;
        words.end()?;
        self.resources.insert(name, first)?;
        Ok(())
    }

    fn take_system(
        &mut self,
        alloc: Global,
        line: usize,
        words: Words<'text>,
    ) -> Result<(), LineError>
        ensures { OnOk result (SaysSystem line words.entry.rest.now (said_by self.old) (said_by self.new)) }
    {
        let system = SystemLine::parse(alloc, line, words, &self.resources)?;
        self.plan.push(PlanLine::System(system))?;
        Ok(())
    }

    fn take_local(&mut self, alloc: Global, words: Words<'text>) -> Result<(), LineError>
        ensures { OnOk result (SaysLocal words.entry.rest.now (said_by self.old) (said_by self.new)) }
    {
        let steps = steps(alloc, words, &self.resources)?;
        self.plan.push(PlanLine::Local(steps))?;
        Ok(())
    }

    fn take_workers(&mut self, mut words: Words<'text>) -> Result<(), LineError>
        ensures { OnOk result (SaysWorkers words.entry.rest.now (said_by self.old) (said_by self.new)) }
    {
        let workers = count(words.required()?, MOST_WORKERS)?;
        words.end()?;
        self.manner.workers = workers as usize;
        Ok(())
    }

    fn take_times(&mut self, mut words: Words<'text>) -> Result<(), LineError>
        ensures { OnOk result (SaysTimes words.entry.rest.now (said_by self.old) (said_by self.new)) }
    {
        let times = count(words.required()?, MOST_TIMES)?;
        words.end()?;
        self.manner.times = times;
        Ok(())
    }

    fn take_mode(&mut self, mut words: Words<'text>) -> Result<(), LineError>
        ensures { OnOk result (SaysMode words.entry.rest.now (said_by self.old) (said_by self.new)) }
    {
        let mode = match words.required()? {
            "par" => Mode::Parallel,
            "seq" => Mode::Sequential,
            _ => return Err(LineFault::BadWord.into()),
        };
        words.end()?;
        self.manner.mode = mode;
        Ok(())
    }

    fn take_barrier(&mut self, mut words: Words<'text>) -> Result<(), LineError>
        ensures { OnOk result (SaysBarrier words.entry.rest.now (said_by self.old) (said_by self.new)) }
    {
        words.end()?;
        self.plan.push(PlanLine::Barrier)?;
        Ok(())
    }

    fn take_rule(&mut self, line: usize, mut words: Words<'text>) -> Result<(), LineError>
        ensures { OnOk result (SaysRule line words.entry.rest.now (said_by self.old) (said_by self.new)) }
    {
        let rule = planner_rule(words.required()?)?;
        words.end()?;
        self.plan.push(PlanLine::Rule(RuleLine { line, rule }))?;
        Ok(())
    }

    fn take_plan(&mut self, mut words: Words<'text>) -> Result<(), LineError>
        ensures { OnOk result (SaysPlan words.entry.rest.now (said_by self.old) (said_by self.new)) }
    {
        words.end()?;
        self.prints_plan = true;
        Ok(())
    }
}

/// The steps that words write.
fn steps(alloc: Global, words: Words<'_>, resources: &Resources<'_>) -> Result<Vec<Step>, LineError>
    ensures { IfOk result (λ steps. AreStepsOf (resource_names resources.now) words.entry.rest.now steps.items) }
{
    let mut steps = Vec::new(alloc);
    for word in words {
        steps.push(Step::parse(word, resources)?)?;
    }
    Ok(steps)
}

/// The names that a system depends on: none for the word `-`, else those that commas part.
fn dependencies<'text>(alloc: Global, word: &'text str) -> Result<Vec<&'text str>, LineError>
    ensures { IfOk result (λ names. WritesNames word.now (texts_of names.items)) }
{
    let mut names = Vec::new(alloc);
    if word == "-" {
        return Ok(names);
    }
    for name in word.split(',') {
        names.push(system_name(name)?)?;
    }
    Ok(names)
}
