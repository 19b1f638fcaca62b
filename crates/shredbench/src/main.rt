//! Runs a table of scripts, and prints which of them end as the table says.
#![tactic(auto)]

mod cases;

use cases::CASES;
use script_engine::run_table;
use std::process::ExitCode;

fn main(rt: HostRuntime) -> ExitCode {
    match run_table(&rt, rt.alloc(), CASES, &mut rt.stdout()) {
        Ok(true) => ExitCode::SUCCESS,
        _ => ExitCode::FAILURE,
    }
}
