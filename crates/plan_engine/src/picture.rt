//! A plan as an SVG picture.
use crate::entry_box::{EntryBox, write_entry};
use crate::flow::Spot;
use crate::legend::{legend_height, write_legend};
use crate::plans::{Plan, Plans};
use std::alloc::{AllocError, Global};
use std::fmt::Write;

/// The pixels around all, between stages, and between a stage's border and its lanes.
const MARGIN: usize = 20;

const GAP: usize = 16;

const PAD: usize = 6;

/// The pixels of one count of time.
pub(crate) const UNIT: usize = 64;

/// The pixels of a lane, and from one to the next.
pub(crate) const LANE: usize = 40;

const LANE_STEP: usize = 46;

/// The pixels of a plan's title, and of what stands above a stage's lanes.
const TITLE: usize = 24;

const HEAD: usize = 38;

/// The pixels between a plan and what stands below it.
const BELOW: usize = 14;

/// The least width of a picture, and one beyond which a stage goes into the next line.
const LEAST_WIDTH: usize = 480;

const FULL_WIDTH: usize = 1600;

const STYLE: &str = "\
text { font-family: Helvetica, Arial, sans-serif; fill: #1f2933; }
.page { fill: #ffffff; }
.title { font-size: 14px; font-weight: bold; }
.head { font-size: 11px; }
.name { font-size: 11px; }
.small { font-size: 8px; }
.chip { font-size: 9px; }
.stage { fill: #f4f6f8; stroke: #cbd2d9; }
.longest { fill: #fff4dd; stroke: #e0a030; stroke-width: 2; }
.lane { fill: #dfe5eb; }
.idle { fill: none; stroke: #b8c2cc; stroke-dasharray: 4 4; }
.system { fill: #ffffff; stroke: #52606d; }
.batch { fill: #e3edfb; stroke: #2f5fa8; stroke-width: 2; }
";

/// The picture: each plan has its stages side by side, with a lane for each group. An entry is as wide as its running time, and
/// has the resources that it declares.
pub fn svg(alloc: Global, plans: &Plans<'_>) -> Result<String, AllocError> {
    let width = width_of(plans);
    let mut height = MARGIN;
    for plan in &plans.plans {
        height = height.saturating_add(plan_height(plan));
    }
    let legend = height;
    let height = height.saturating_add(legend_height(&plans.resources, width));
    let mut text = String::new(alloc);
    writeln!(
        text,
        "<svg xmlns=\"http://www.w3.org/2000/svg\" width=\"{width}\" height=\"{height}\" viewBox=\"0 0 {width} {height}\">"
    )?;
    writeln!(text, "<style>\n{STYLE}</style>")?;
    writeln!(
        text,
        "<rect class=\"page\" width=\"{width}\" height=\"{height}\"/>"
    )?;
    let mut top = MARGIN;
    for plan in &plans.plans {
        write_plan(&mut text, &plans.resources, plan, top)?;
        top = top.saturating_add(plan_height(plan));
    }
    write_legend(&mut text, &plans.resources, MARGIN, legend, width)?;
    writeln!(text, "</svg>")?;
    Ok(text)
}

/// The width of the picture: that of the widest plan, and the margins.
fn width_of(plans: &Plans<'_>) -> usize {
    let mut width = LEAST_WIDTH;
    for plan in &plans.plans {
        width = width.max(plan_width(plan).saturating_add(MARGIN));
    }
    width
}

/// The width of a plan's stages, in their lines.
fn plan_width(plan: &Plan) -> usize {
    let mut spot = FIRST;
    let mut width: usize = 0;
    for groups in &plan.stages {
        let stage = stage_width(plan.stage_time(groups));
        spot = placed(spot, stage).behind(stage);
        width = spot.left.max(width);
        spot = spot.behind(GAP);
    }
    width
}

/// The number of lines of a plan's stages.
fn plan_lines(plan: &Plan) -> usize {
    let mut spot = FIRST;
    for groups in &plan.stages {
        let stage = stage_width(plan.stage_time(groups));
        spot = placed(spot, stage).behind(stage).behind(GAP);
    }
    spot.line.saturating_add(1)
}

/// Where the first stage of a plan goes.
const FIRST: Spot = Spot {
    left: MARGIN,
    line: 0,
};

/// The place of the next stage, which has this width.
fn placed(spot: Spot, width: usize) -> Spot {
    spot.placed(MARGIN, width, FULL_WIDTH)
}

fn stage_width(time: usize) -> usize {
    time.saturating_mul(UNIT).saturating_add(2 * PAD)
}

/// The height of a plan, with its title, and the space below it.
fn plan_height(plan: &Plan) -> usize {
    plan_lines(plan)
        .saturating_mul(line_height(plan.threads()))
        .saturating_add(TITLE + BELOW)
}

/// The height of a line of stages, with the gap below it.
fn line_height(threads: usize) -> usize {
    stage_height(threads).saturating_add(GAP)
}

fn stage_height(threads: usize) -> usize {
    threads.saturating_mul(LANE_STEP).saturating_add(HEAD)
}

/// A plan, from this height on: its title and its stages.
fn write_plan(
    text: &mut String,
    resources: &[&str],
    plan: &Plan,
    top: usize,
) -> Result<(), AllocError> {
    write_title(text, plan, top)?;
    let longest = plan.longest_time();
    let threads = plan.threads();
    let top = top.saturating_add(TITLE);
    let mut spot = FIRST;
    for (stage, groups) in plan.stages.iter().enumerate() {
        let time = plan.stage_time(groups);
        let width = stage_width(time);
        spot = placed(spot, width);
        let column = Column {
            left: spot.left,
            top: top.saturating_add(spot.line.saturating_mul(line_height(threads))),
            time,
            is_longest: time == longest,
        };
        write_stage(text, column, stage, threads)?;
        write_lanes(text, resources, plan, column, groups, threads)?;
        spot = spot.behind(width).behind(GAP);
    }
    Ok(())
}

fn write_title(text: &mut String, plan: &Plan, top: usize) -> Result<(), AllocError> {
    let base = top.saturating_add(14);
    write!(text, "<text class=\"title\" x=\"{MARGIN}\" y=\"{base}\">")?;
    match &plan.batch {
        Some(batch) => write!(text, "{}, {} rounds: ", batch.name, batch.rounds)?,
        None => write!(text, "plan: ")?,
    }
    writeln!(
        text,
        "stages {}, threads {}, time {}</text>",
        plan.stages.len(),
        plan.threads(),
        plan.whole_time()
    )
}

/// Where a stage stands, and how long it takes.
#[derive(Clone, Copy)]
struct Column {
    left: usize,
    top: usize,
    time: usize,
    is_longest: bool,
}

/// The border of a stage, with its number and its time.
fn write_stage(
    text: &mut String,
    column: Column,
    stage: usize,
    threads: usize,
) -> Result<(), AllocError> {
    let Column {
        left,
        top,
        time,
        is_longest,
    } = column;
    let class = if is_longest { "longest" } else { "stage" };
    let width = stage_width(time);
    let height = stage_height(threads);
    writeln!(
        text,
        "<rect class=\"{class}\" x=\"{left}\" y=\"{top}\" width=\"{width}\" height=\"{height}\" rx=\"4\"/>"
    )?;
    let x = left.saturating_add(PAD);
    let number_base = top.saturating_add(15);
    let time_base = top.saturating_add(29);
    writeln!(
        text,
        "<text class=\"head\" x=\"{x}\" y=\"{number_base}\">stage {stage}</text>"
    )?;
    writeln!(
        text,
        "<text class=\"head\" x=\"{x}\" y=\"{time_base}\">time {time}</text>"
    )
}

/// The lanes of a stage: one for each group, and those that are idle.
fn write_lanes(
    text: &mut String,
    resources: &[&str],
    plan: &Plan,
    column: Column,
    groups: &[Vec<usize>],
    threads: usize,
) -> Result<(), AllocError> {
    let x = column.left.saturating_add(PAD);
    let width = column.time.saturating_mul(UNIT);
    for lane in 0..threads {
        let y = column
            .top
            .saturating_add(HEAD)
            .saturating_add(lane.saturating_mul(LANE_STEP));
        let group = groups.get(lane);
        let class = if group.is_some() { "lane" } else { "idle" };
        writeln!(
            text,
            "<rect class=\"{class}\" x=\"{x}\" y=\"{y}\" width=\"{width}\" height=\"{LANE}\" rx=\"3\"/>"
        )?;
        if let Some(ids) = group {
            write_group(text, resources, plan, ids, x, y)?;
        }
    }
    Ok(())
}

/// The entries of a group, one behind the other, from this point on.
fn write_group(
    text: &mut String,
    resources: &[&str],
    plan: &Plan,
    ids: &[usize],
    left: usize,
    top: usize,
) -> Result<(), AllocError> {
    let mut left = left;
    for id in ids {
        if let (Some(entry), Some(declaration)) = (plan.entries.get(*id), plan.declaration(*id)) {
            let shown = EntryBox {
                left,
                top,
                entry,
                declaration,
            };
            write_entry(text, resources, plan, shown)?;
            left = left.saturating_add(entry.time.saturating_mul(UNIT));
        }
    }
    Ok(())
}
