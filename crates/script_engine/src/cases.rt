//! A table of cases, run one after the other.
ghost use Rattle.std.specs.Prelude.{IfOk, OnOk};
ghost use Rattle.script_engine.specs.Tables.{AddsCount, AddsVerdict, IsTableRun, IsVerdict};

use crate::engine::run;
use std::alloc::Global;
use std::io;
use std::io::Write;
use std::thread::Threads;

/// A script, and what its run is to print and answer.
#[derive(Clone, Copy)]
pub struct Case {
    pub name: &'static str,
    pub script: &'static str,
    pub stdout: &'static str,
    pub stderr: &'static str,
    pub status: u8,
}

/// Runs the cases, and writes a line for each that says whether it ended as it is to, and how many of them did.
/// Gives whether all did.
pub fn run_table<T: Threads + Sync, W: Write>(
    rt: &T,
    alloc: Global,
    cases: &[Case],
    out: &mut W,
) -> io::Result<bool>
    ensures { IfOk result (λ all. IsTableRun cases.now all (W.contents out.old) (W.contents out.new)) }
{
    let mut matching = 0;
    for case in cases {
        let verdict = ends_as_wanted(rt, alloc, case);
        write_verdict(out, case, verdict)?;
        if verdict {
            matching += 1;
        }
    }
    write_count(out, matching, cases.len())?;
    Ok(matching == cases.len())
}

// Writes the line of a case.
fn write_verdict<W: Write>(out: &mut W, case: &Case, verdict: bool) -> io::Result<()>
    ensures { OnOk result (AddsVerdict case.now verdict (W.contents out.old) (W.contents out.new)) }
{
    let word = if verdict { "ok" } else { "differs" };
    writeln!(out, "{} {word}", case.name)
}

// Writes the last line, and flushes.
fn write_count<W: Write>(out: &mut W, matching: usize, cases: usize) -> io::Result<()>
    ensures { OnOk result (AddsCount matching cases (W.contents out.old) (W.contents out.new)) }
{
    writeln!(out, "{matching} of {cases}")?;
    out.flush()
}

// Whether the case ends with the status and the texts that it is to have.
fn ends_as_wanted<T: Threads + Sync>(rt: &T, alloc: Global, case: &Case) -> bool
    ensures { IsVerdict case.now result }
{
    let mut stdout = Vec::new(alloc);
    let mut stderr = Vec::new(alloc);
    let status = run(
        rt,
        alloc,
        &mut case.script.as_bytes(),
        &mut stdout,
        &mut stderr,
    );
    status == case.status
        && stdout.as_slice() == case.stdout.as_bytes()
        && stderr.as_slice() == case.stderr.as_bytes()
}
