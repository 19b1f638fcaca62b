//! The demo of the entity store.
ghost use Rattle.script_command.specs.Shown.{HasShown, demo_text};
ghost use Rattle.script_text.specs.Output.{Writes, WritesBeginning};

use crate::error::DemoError;
use crate::rows::write_row;
use crate::two_ticks::{tick_twice, two_entities};
use arrayvec::ArrayVec;
use script_text::output::print;
use std::alloc::Global;
use std::io::Write;
use std::thread::Threads;

/// At least as many bytes as the demo prints.
const MOST_BYTES: usize = 160;

/// Applies three rules twice to a store of two entities, and prints what these have then, and `ok`. Gives the exit status: 0
/// where all is well, else 1, which is told to `err` as `demo failed`.
pub fn demo<T: Threads + Sync, O: Write, E: Write>(
    rt: &T,
    alloc: Global,
    out: &mut O,
    err: &mut E,
) -> u8
    ensures { HasShown result (O.contents out.old) (O.contents out.new) (E.contents err.old) (E.contents err.new) }
{
    match show(rt, alloc, out) {
        Ok(()) => 0,
        Err(_) => {
            let _ = print(err, b"demo failed\n");
            1
        }
    }
}

fn show<T: Threads + Sync, O: Write>(rt: &T, alloc: Global, out: &mut O) -> Result<(), DemoError>
    ensures whole { Writes O.contents out.old out.new demo_text result }
    ensures beginning { WritesBeginning O.contents out.old out.new demo_text result }
{
    let mut text: ArrayVec<u8, MOST_BYTES> = ArrayVec::new();
    write_demo(rt, alloc, &mut text)?;
    print(out, text.as_slice())?;
    Ok(())
}

fn write_demo<T: Threads + Sync, W: Write>(
    rt: &T,
    alloc: Global,
    out: &mut W,
) -> Result<(), DemoError>
    ensures { Writes W.contents out.old out.new demo_text result }
{
    let mut store = two_entities(alloc)?;
    tick_twice(rt, &mut store)?;
    write_row(out, &store, 0)?;
    write_row(out, &store, 1)?;
    writeln!(out, "ok")?;
    Ok(())
}
