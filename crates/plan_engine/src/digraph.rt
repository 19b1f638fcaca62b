//! A plan as a Graphviz digraph.
use crate::plans::{Entry, Plan, Plans};
use crate::shared::{Shared, shared_by};
use std::alloc::{AllocError, Global};
use std::fmt;
use std::fmt::Write;

/// A node of the digraph: an entry by the place of its plan and its id, or a point that stands before the groups of a stage,
/// and behind those of the stage before.
#[derive(Clone, Copy)]
enum Node {
    Entry { plan: usize, id: usize },
    Point { plan: usize, stage: usize },
}

impl fmt::Display for Node {
    fn fmt<W: fmt::Write>(&self, f: &mut fmt::Formatter<W>) -> fmt::Result {
        match self {
            Node::Entry { plan, id } => write!(f, "entry_{plan}_{id}"),
            Node::Point { plan, stage } => write!(f, "point_{plan}_{stage}"),
        }
    }
}

/// The digraph: stages are columns, groups are boxes in them, and in the box of a batch stands its plan. A solid edge leads from
/// an entry to one that depends on it, a dashed one between two that conflict, with the resources over which they do, from the
/// one that runs first.
pub fn dot(alloc: Global, plans: &Plans<'_>) -> Result<String, AllocError> {
    // The plan of a batch stands behind that with the batch, so it is written before.
    let mut behind = Vec::new(alloc);
    for (place, plan) in plans.plans.iter().enumerate().rev() {
        let text = plan_text(alloc, plans, place, plan, behind.as_slice())?;
        behind.push(text)?;
    }
    let mut text = String::new(alloc);
    writeln!(text, "digraph plan {{")?;
    writeln!(text, "  rankdir=LR;")?;
    writeln!(text, "  node [shape=box];")?;
    if let Some(outermost) = behind.last() {
        text.push_str(outermost.as_str())?;
    }
    writeln!(text, "}}")?;
    Ok(text)
}

/// The plan that a batch runs.
#[derive(Clone, Copy)]
struct Inner<'plan> {
    place: usize,
    rounds: usize,
    /// The number of its stages.
    stages: usize,
    text: &'plan str,
}

/// One of the plans, as it is written.
#[derive(Clone, Copy)]
struct Drawing<'plan> {
    plans: &'plan Plans<'plan>,
    place: usize,
    plan: &'plan Plan,
    /// The texts of the plans behind it, the last first.
    behind: &'plan [String],
    margin: &'plan str,
}

/// The boxes and edges of the plan at this place, with the texts of those behind it, the last first.
fn plan_text(
    alloc: Global,
    plans: &Plans<'_>,
    place: usize,
    plan: &Plan,
    behind: &[String],
) -> Result<String, AllocError> {
    let margin = margin(alloc, plan.depth)?;
    let drawing = Drawing {
        plans,
        place,
        plan,
        behind,
        margin: margin.as_str(),
    };
    let mut text = String::new(alloc);
    drawing.write_stages(&mut text)?;
    drawing.write_order(&mut text)?;
    drawing.write_dependencies(&mut text)?;
    drawing.write_conflicts(alloc, &mut text)?;
    Ok(text)
}

/// The spaces before the lines of a plan with so many batches around it.
fn margin(alloc: Global, depth: usize) -> Result<String, AllocError> {
    let mut margin = String::from_str(alloc, "  ")?;
    for _ in 0..depth {
        margin.push_str("      ")?;
    }
    Ok(margin)
}

impl Drawing<'_> {
    fn entry(&self, id: usize) -> Node {
        Node::Entry {
            plan: self.place,
            id,
        }
    }

    fn point(&self, stage: usize) -> Node {
        Node::Point {
            plan: self.place,
            stage,
        }
    }

    /// The boxes of the stages, and a point behind the last.
    fn write_stages(&self, text: &mut String) -> Result<(), AllocError> {
        for (stage, groups) in self.plan.stages.iter().enumerate() {
            self.write_stage(text, stage, groups)?;
        }
        self.write_point(text, "", self.plan.stages.len())
    }

    fn write_stage(
        &self,
        text: &mut String,
        stage: usize,
        groups: &[Vec<usize>],
    ) -> Result<(), AllocError> {
        let margin = self.margin;
        let place = self.place;
        writeln!(text, "{margin}subgraph cluster_stage_{place}_{stage} {{")?;
        writeln!(text, "{margin}  label=\"stage {stage}\";")?;
        self.write_point(text, "  ", stage)?;
        for (group, ids) in groups.iter().enumerate() {
            writeln!(
                text,
                "{margin}  subgraph cluster_group_{place}_{stage}_{group} {{"
            )?;
            writeln!(text, "{margin}    label=\"group {group}\";")?;
            self.write_entries(text, ids)?;
            writeln!(text, "{margin}  }}")?;
        }
        writeln!(text, "{margin}}}")
    }

    fn write_point(&self, text: &mut String, indent: &str, stage: usize) -> Result<(), AllocError> {
        let margin = self.margin;
        let point = self.point(stage);
        writeln!(text, "{margin}{indent}{point} [shape=point, style=invis];")
    }

    fn write_entries(&self, text: &mut String, ids: &[usize]) -> Result<(), AllocError> {
        for id in ids {
            if let Some(entry) = self.plan.entries.get(*id) {
                self.write_entry(text, *id, entry)?;
            }
        }
        Ok(())
    }

    /// The node of an entry. That of a batch stands in a box, before those of its plan.
    fn write_entry(&self, text: &mut String, id: usize, entry: &Entry) -> Result<(), AllocError> {
        let margin = self.margin;
        let node = self.entry(id);
        let name = entry.name.as_str();
        let Some(inner) = self.inner_of(entry) else {
            return writeln!(text, "{margin}    {node} [label=\"{name}\"];");
        };
        let Inner {
            place,
            rounds,
            text: boxes,
            ..
        } = inner;
        writeln!(text, "{margin}    subgraph cluster_plan_{place} {{")?;
        writeln!(text, "{margin}      label=\"{rounds} rounds\";")?;
        writeln!(text, "{margin}      {node} [label=\"{name}\"];")?;
        text.push_str(boxes)?;
        writeln!(text, "{margin}    }}")
    }

    /// The plan that an entry runs, where it is a batch.
    fn inner_of(&self, entry: &Entry) -> Option<Inner<'_>> {
        let distance = entry.inner?;
        let place = self.place.checked_add(distance)?;
        let plan = self.plans.plans.get(place)?;
        let text = self.behind.get(self.behind.len().checked_sub(distance)?)?;
        Some(Inner {
            place,
            rounds: plan.batch.as_ref()?.rounds,
            stages: plan.stages.len(),
            text: text.as_str(),
        })
    }

    /// The node behind an entry: its own, or of a batch the point behind its plan.
    fn end_of(&self, id: usize) -> Node {
        match self
            .plan
            .entries
            .get(id)
            .and_then(|entry| self.inner_of(entry))
        {
            None => self.entry(id),
            Some(inner) => Node::Point {
                plan: inner.place,
                stage: inner.stages,
            },
        }
    }

    /// Edges that are not seen, which put the stages side by side, and the entries of a group too.
    fn write_order(&self, text: &mut String) -> Result<(), AllocError> {
        let margin = self.margin;
        writeln!(text, "{margin}edge [style=invis];")?;
        for (stage, groups) in self.plan.stages.iter().enumerate() {
            for ids in groups {
                let last = self.write_group_order(text, self.point(stage), ids)?;
                let end = self.point(stage + 1);
                writeln!(text, "{margin}{last} -> {end};")?;
            }
        }
        Ok(())
    }

    /// Edges from a node on, through the entries of a group. Gives the last node.
    fn write_group_order(
        &self,
        text: &mut String,
        start: Node,
        ids: &[usize],
    ) -> Result<Node, AllocError> {
        let margin = self.margin;
        let mut last = start;
        for id in ids {
            let node = self.entry(*id);
            writeln!(text, "{margin}{last} -> {node};")?;
            last = self.end_of(*id);
            if let Node::Point { plan, .. } = last {
                let begin = Node::Point { plan, stage: 0 };
                writeln!(text, "{margin}{node} -> {begin};")?;
            }
        }
        Ok(last)
    }

    fn write_dependencies(&self, text: &mut String) -> Result<(), AllocError> {
        let margin = self.margin;
        writeln!(text, "{margin}edge [style=solid, constraint=false];")?;
        for (id, declaration) in self.plan.declarations.entries.iter().enumerate() {
            let node = self.entry(id);
            for dependency in &declaration.dependencies {
                let before = self.entry(*dependency);
                writeln!(text, "{margin}{before} -> {node};")?;
            }
        }
        Ok(())
    }

    fn write_conflicts(&self, alloc: Global, text: &mut String) -> Result<(), AllocError> {
        let margin = self.margin;
        writeln!(text, "{margin}edge [style=dashed, constraint=false];")?;
        let order = self.plan.order(alloc)?;
        for (place, first) in order.iter().enumerate() {
            for second in &order[place + 1..] {
                self.write_conflict(alloc, text, *first, *second)?;
            }
        }
        Ok(())
    }

    /// The edge of two entries, if they conflict.
    fn write_conflict(
        &self,
        alloc: Global,
        text: &mut String,
        first: usize,
        second: usize,
    ) -> Result<(), AllocError> {
        let (Some(one), Some(other)) = (self.plan.declaration(first), self.plan.declaration(second))
        else {
            return Ok(());
        };
        if !one.conflicts_with(other) {
            return Ok(());
        }
        let margin = self.margin;
        let first = self.entry(first);
        let second = self.entry(second);
        write!(text, "{margin}{first} -> {second} [xlabel=\"")?;
        let all = shared_by(alloc, &self.plans.resources, one, other)?;
        for (place, Shared { resource, .. }) in all.iter().enumerate() {
            let mark = if place == 0 { "" } else { ", " };
            write!(text, "{mark}{resource}")?;
        }
        writeln!(text, "\"];")
    }
}
