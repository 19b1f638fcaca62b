//! The box of an entry in a picture.
use crate::chips::write_chips;
use crate::declaration::Declaration;
use crate::picture::{LANE, UNIT};
use crate::plans::{Entry, Plan};
use std::alloc::AllocError;
use std::fmt::Write;

/// The pixels between two boxes, and between a box's border and what it holds.
const BETWEEN: usize = 4;

const INSIDE: usize = 5;

/// The pixels that a letter takes, of a name and of a small one.
const LETTER: usize = 7;

const SMALL_LETTER: usize = 5;

/// An entry, and where its box stands.
#[derive(Clone, Copy)]
pub(crate) struct EntryBox<'plan> {
    pub(crate) left: usize,
    pub(crate) top: usize,
    pub(crate) entry: &'plan Entry,
    pub(crate) declaration: &'plan Declaration,
}

/// The box of an entry, with its name and the resources that it declares.
pub(crate) fn write_entry(
    text: &mut String,
    resources: &[&str],
    plan: &Plan,
    shown: EntryBox<'_>,
) -> Result<(), AllocError> {
    let EntryBox {
        left,
        top,
        entry,
        declaration,
    } = shown;
    let class = if entry.inner.is_some() {
        "batch"
    } else {
        "system"
    };
    let width = entry.time.saturating_mul(UNIT).saturating_sub(BETWEEN);
    write!(text, "<g><title>")?;
    write_all_of(text, resources, plan, shown)?;
    writeln!(
        text,
        "</title><rect class=\"{class}\" x=\"{left}\" y=\"{top}\" width=\"{width}\" height=\"{LANE}\" rx=\"3\"/>"
    )?;
    let x = left.saturating_add(INSIDE);
    let room = width.saturating_sub(2 * INSIDE);
    write_name(text, entry.name.as_str(), x, top.saturating_add(15), room)?;
    write_chips(
        text,
        resources,
        declaration,
        x,
        top.saturating_add(22),
        room,
    )?;
    writeln!(text, "</g>")
}

/// All that is known of an entry, in words.
fn write_all_of(
    text: &mut String,
    resources: &[&str],
    plan: &Plan,
    shown: EntryBox<'_>,
) -> Result<(), AllocError> {
    let EntryBox {
        entry,
        declaration,
        ..
    } = shown;
    write!(text, "{}, time {}", plan.full_name(entry), entry.time)?;
    write_resources(text, resources, ", reads", &declaration.reads)?;
    write_resources(text, resources, ", writes", &declaration.writes)?;
    for (index, id) in declaration.dependencies.iter().enumerate() {
        if let Some(entry) = plan.entries.get(*id) {
            let word = if index == 0 { ", after" } else { "" };
            write!(text, "{word} {}", entry.name)?;
        }
    }
    Ok(())
}

fn write_resources(
    text: &mut String,
    resources: &[&str],
    word: &str,
    places: &[usize],
) -> Result<(), AllocError> {
    for (index, place) in places.iter().enumerate() {
        if let Some(resource) = resources.get(*place) {
            let word = if index == 0 { word } else { "" };
            write!(text, "{word} {resource}")?;
        }
    }
    Ok(())
}

/// A name in so much room: as it is, small, or as much of it as there is room for.
fn write_name(
    text: &mut String,
    name: &str,
    x: usize,
    base: usize,
    room: usize,
) -> Result<(), AllocError> {
    let length = name.len();
    if length.saturating_mul(LETTER) <= room {
        return writeln!(
            text,
            "<text class=\"name\" x=\"{x}\" y=\"{base}\">{name}</text>"
        );
    }
    if length.saturating_mul(SMALL_LETTER) <= room {
        return writeln!(
            text,
            "<text class=\"small\" x=\"{x}\" y=\"{base}\">{name}</text>"
        );
    }
    write!(text, "<text class=\"small\" x=\"{x}\" y=\"{base}\">")?;
    for letter in name.chars().take((room / SMALL_LETTER).saturating_sub(1)) {
        text.push(letter)?;
    }
    writeln!(text, "…</text>")
}
