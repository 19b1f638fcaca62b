//! The line of an entity.
ghost use Rattle.script_command.specs.Shown.{row_line};
ghost use Rattle.shredstore.specs.Stores.{contents_of};
ghost use Rattle.script_text.specs.Output.{Writes};

use shredstore::{Entity, Store};
use std::io::Write;
use std::{fmt, io};

/// What an entity has in a table, as it is shown.
#[derive(Clone, Copy)]
struct Cell(Option<i64>);

impl fmt::Display for Cell {
    ghost use Rattle.std.specs.Prelude.{Some};
    ghost use Rattle.script_command.specs.Shown.{cell_text};

    ghost output = { λ cell. Some (cell_text cell.0) };

    fn fmt<W: fmt::Write>(&self, f: &mut fmt::Formatter<W>) -> fmt::Result {
        match self.0 {
            Some(value) => write!(f, "{value}"),
            None => write!(f, "-"),
        }
    }
}

/// Writes the number of an entity, and what it has in the tables 0, 1 and 2.
pub(crate) fn write_row<W: Write>(out: &mut W, store: &Store, entity: u64) -> io::Result<()>
    ensures { Writes W.contents out.old out.new (row_line (contents_of store.now) entity) result }
{
    let cell = |table| Cell(store.get(Entity(entity), table));
    writeln!(out, "e{entity} {} {} {}", cell(0), cell(1), cell(2))
}
