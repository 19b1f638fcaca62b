//! The report of what a run left in the world.
ghost use Rattle.std.specs.Prelude.{◌≡◌, ◌+◌, ◌-◌, ◌^◌, min};
ghost use Rattle.shred_world.specs.Worlds.{world_held};
ghost use Rattle.script_text.specs.Place.{number_at};
ghost use Rattle.script_text.specs.Report.{bytes_of_lines, report, report_of, resource_names, value_line};
ghost use Rattle.script_text.specs.Value.{value_kind};
ghost use Rattle.script_text.specs.Output.{Writes};

use crate::outcome::{Outcome, write_outcome, write_value};
use crate::step::Resources;
use crate::value::{Value, id_at};
use shred_world::World;
use std::io;
use std::io::Write;

/// As many bytes as a line of a report may have behind the name: `=`, a number of 64 bits with sign and a line feed.
const MOST_VALUE_BYTES: usize = 22;

/// At least as many bytes as the line has that says how a run ended.
const MOST_OUTCOME_BYTES: usize = 48;

/// At least as many bytes as a report of these resources has, or the greatest number, where they are more.
pub fn most_bytes(resources: &Resources<'_>) -> usize
    ensures { result ≡ min (MOST_OUTCOME_BYTES + bytes_of_lines MOST_VALUE_BYTES (resource_names resources.now)) (2 ^ 64 - 1) }
{
    let mut bytes = MOST_OUTCOME_BYTES;
    for name in resources.keys() {
        bytes = bytes
            .saturating_add(name.len())
            .saturating_add(MOST_VALUE_BYTES);
    }
    bytes
}

/// Writes each resource's value, and how the run ended.
pub fn write_report<W: Write>(
    out: &mut W,
    resources: &Resources<'_>,
    world: &World<Value>,
    outcome: Outcome,
) -> io::Result<()>
    ensures { Writes W.contents out.old out.new (report_of resources.now world.now outcome) result }
{
    for (place, name) in resources.keys().enumerate() {
        write_resource(out, name, place, world)?;
    }
    write_outcome(out, outcome)
}

/// Writes the line of the resource at this place, where a value of it is held.
fn write_resource<W: Write>(
    out: &mut W,
    name: &str,
    place: usize,
    world: &World<Value>,
) -> io::Result<()>
    ensures { Writes W.contents out.old out.new (value_line name.now (number_at (world_held value_kind world.now) place)) result }
{
    match world.try_fetch_by_id::<i64>(id_at(place)) {
        Ok(Some(value)) => write_value(out, name, *value),
        _ => Ok(()),
    }
}
