//! Reads the script on standard input, and shows its plan in the way that the arguments name.
#![tactic(auto)]

use plan_engine::{Wanted, run};
use std::process::ExitCode;
use std::{env, io};

fn main(rt: HostRuntime) -> io::Result<ExitCode> {
    let words: Vec<String> = env::args(&rt)?.skip(1).collect(rt.alloc())?;
    let Some(wanted) = Wanted::by_words(&words) else {
        eprintln!(rt; "usage: shredplan dot|svg|report|conflicts [--deny]")?;
        return Ok(ExitCode::from(1));
    };
    let status = run(
        rt.alloc(),
        wanted,
        &mut rt.stdin(),
        &mut rt.stdout(),
        &mut rt.stderr(),
    );
    Ok(ExitCode::from(status))
}
