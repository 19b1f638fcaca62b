//! What the colours of a picture stand for.
use crate::chips::{Colour, SQUARE};
use crate::flow::Spot;
use std::alloc::AllocError;
use std::fmt::Write;

/// The pixels from one line to the next.
const LINE: usize = 20;

/// The pixels that a letter takes, and those of an item beside its name.
const LETTER: usize = 7;

const ITEM: usize = 34;

const KEY: &str =
    "width: running time; filled: written; outlined: read; dashed: idle lane; orange: longest stage";

fn item_width(name: &str) -> usize {
    name.len().saturating_mul(LETTER).saturating_add(ITEM)
}

/// The height of the legend of a picture of this width.
pub(crate) fn legend_height(resources: &[&str], width: usize) -> usize {
    let mut spot = Spot { left: 0, line: 0 };
    for resource in resources {
        let item = item_width(resource);
        spot = spot
            .placed(0, item, width.saturating_sub(2 * LINE))
            .behind(item);
    }
    spot.line.saturating_add(3).saturating_mul(LINE)
}

/// The legend, from this point on: what marks mean, and the colour of each resource.
pub(crate) fn write_legend(
    text: &mut String,
    resources: &[&str],
    left: usize,
    top: usize,
    width: usize,
) -> Result<(), AllocError> {
    let base = top.saturating_add(10);
    writeln!(
        text,
        "<text class=\"head\" x=\"{left}\" y=\"{base}\">{KEY}</text>"
    )?;
    let top = top.saturating_add(LINE);
    let mut spot = Spot { left, line: 0 };
    for (place, resource) in resources.iter().enumerate() {
        let item = item_width(resource);
        let at = spot.placed(left, item, width.saturating_sub(LINE));
        let colour = Colour(place);
        let x = at.left;
        let y = top.saturating_add(at.line.saturating_mul(LINE));
        let name_left = x.saturating_add(SQUARE + 5);
        let base = y.saturating_add(10);
        writeln!(
            text,
            "<rect class=\"resource\" x=\"{x}\" y=\"{y}\" width=\"{SQUARE}\" height=\"{SQUARE}\" rx=\"2\" fill=\"{colour}\"/>"
        )?;
        writeln!(
            text,
            "<text class=\"head\" x=\"{name_left}\" y=\"{base}\">{resource}</text>"
        )?;
        spot = at.behind(item);
    }
    Ok(())
}
