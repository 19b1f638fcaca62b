//! The resources that an entry declares, in its box.
use crate::declaration::Declaration;
use std::alloc::AllocError;
use std::fmt;
use std::fmt::Write;

/// The pixels of a chip with a name, beside those of its letters, and those of a letter.
const CHIP: usize = 10;

const CHIP_LETTER: usize = 6;

/// The pixels of a chip without a name, and the height of any.
pub(crate) const SQUARE: usize = 10;

const HEIGHT: usize = 13;

/// The pixels between two chips.
const BETWEEN: usize = 2;

/// The colour of the resource at this place.
#[derive(Clone, Copy)]
pub(crate) struct Colour(pub(crate) usize);

impl fmt::Display for Colour {
    // Hues that lie far apart for places that are near.
    fn fmt<W: fmt::Write>(&self, f: &mut fmt::Formatter<W>) -> fmt::Result {
        let hue = self.0 % 360 * 137 % 360;
        write!(f, "hsl({hue}, 62%, 40%)")
    }
}

/// The chips of what an entry writes, which are filled, and of what it only reads: with names, where there is room for all.
pub(crate) fn write_chips(
    text: &mut String,
    resources: &[&str],
    declaration: &Declaration,
    left: usize,
    top: usize,
    room: usize,
) -> Result<(), AllocError> {
    let mut chips = Chips {
        left,
        top,
        end: left.saturating_add(room),
        are_named: width_of(resources, declaration) <= room,
    };
    for place in &declaration.writes {
        chips.write(text, resources, *place, true)?;
    }
    for place in &declaration.reads {
        if !declaration.writes.contains(place) {
            chips.write(text, resources, *place, false)?;
        }
    }
    Ok(())
}

/// The width of all chips with names.
fn width_of(resources: &[&str], declaration: &Declaration) -> usize {
    let mut width: usize = 0;
    for (place, resource) in resources.iter().enumerate() {
        if declaration.declares(place) {
            width = width
                .saturating_add(chip_width(resource))
                .saturating_add(BETWEEN);
        }
    }
    width
}

fn chip_width(name: &str) -> usize {
    name.len().saturating_mul(CHIP_LETTER).saturating_add(CHIP)
}

/// Where the next chip goes.
#[derive(Drop)]
struct Chips {
    left: usize,
    top: usize,
    end: usize,
    are_named: bool,
}

impl Chips {
    /// The chip of the resource at this place, where there is room for it.
    fn write(
        &mut self,
        text: &mut String,
        resources: &[&str],
        place: usize,
        is_written: bool,
    ) -> Result<(), AllocError> {
        let Some(resource) = resources.get(place) else {
            return Ok(());
        };
        let width = if self.are_named {
            chip_width(resource)
        } else {
            SQUARE
        };
        let next = self.left.saturating_add(width).saturating_add(BETWEEN);
        if next > self.end.saturating_add(BETWEEN) {
            return Ok(());
        }
        let colour = Colour(place);
        let left = self.left;
        let top = self.top;
        write!(
            text,
            "<rect x=\"{left}\" y=\"{top}\" width=\"{width}\" height=\"{HEIGHT}\" rx=\"2\" stroke=\"{colour}\""
        )?;
        if is_written {
            writeln!(text, " class=\"written\" fill=\"{colour}\"/>")?;
        } else {
            writeln!(text, " class=\"read\" fill=\"#ffffff\"/>")?;
        }
        if self.are_named {
            let x = left.saturating_add(CHIP / 2);
            let base = top.saturating_add(10);
            write!(text, "<text class=\"chip\" x=\"{x}\" y=\"{base}\"")?;
            if is_written {
                writeln!(text, " style=\"fill: #ffffff\">{resource}</text>")?;
            } else {
                writeln!(text, " style=\"fill: {colour}\">{resource}</text>")?;
            }
        }
        self.left = next;
        Ok(())
    }
}
