//! Runs the script on standard input, its stages on workers that are kept over all dispatches, and prints what it left.
#![tactic(auto)]

use script_engine::run_on_kept_workers;
use std::process::ExitCode;

fn main(rt: HostRuntime) -> ExitCode {
    ExitCode::from(run_on_kept_workers(
        &rt,
        rt.alloc(),
        &mut rt.stdin(),
        &mut rt.stdout(),
        &mut rt.stderr(),
    ))
}
