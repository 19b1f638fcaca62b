//! Runs the script on standard input and prints what it left, or shows the demo, as the arguments ask.
#![tactic(auto)]

use script_command::{Command, demo, tell_usage};
use script_engine::run;
use script_text::error::ScriptError;
use script_text::error_line::tell;
use std::env;
use std::env::Env;
use std::io::ErrorKind;
use std::process::ExitCode;

// What the arguments ask for. One that is not text is none that is known.
fn asked(rt: &(impl Env + AllocGlobal)) -> Result<Command, ScriptError> {
    match env::args(rt) {
        Ok(arguments) => {
            let words: Vec<String> = arguments.skip(1).collect(rt.alloc())?;
            Ok(Command::by_words(&words))
        }
        Err(error) if error.kind() == ErrorKind::InvalidData => Ok(Command::Usage),
        Err(_) => Err(ScriptError::OutOfMemory),
    }
}

fn main(rt: HostRuntime) -> ExitCode {
    let status = match asked(&rt) {
        Ok(Command::Script) => run(
            &rt,
            rt.alloc(),
            &mut rt.stdin(),
            &mut rt.stdout(),
            &mut rt.stderr(),
        ),
        Ok(Command::Demo) => demo(&rt, rt.alloc(), &mut rt.stdout(), &mut rt.stderr()),
        Ok(Command::Usage) => tell_usage(&mut rt.stderr()),
        Err(error) => {
            tell(&mut rt.stderr(), error);
            error.status()
        }
    };
    ExitCode::from(status)
}
