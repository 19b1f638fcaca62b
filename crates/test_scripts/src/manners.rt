//! How often and how a plan is dispatched, of which the last line of a kind says.
use script_text::script::{Mode, Script};
use std::process::Abort;
use std::test::Fail;

/// A script, and what it says.
struct Row {
    script: &'static str,
    workers: usize,
    times: u32,
    is_in_sequence: bool,
}

const ROWS: &[Row] = &[
    Row {
        script: "",
        workers: 4,
        times: 1,
        is_in_sequence: false,
    },
    Row {
        script: "workers 7\ntimes 5\nmode par\nworkers 3\ntimes 2\nmode seq",
        workers: 3,
        times: 2,
        is_in_sequence: true,
    },
    Row {
        script: "workers 3\ntimes 2\nmode seq\nworkers 7\ntimes 5\nmode par",
        workers: 7,
        times: 5,
        is_in_sequence: false,
    },
];

fn expect_manner(rt: &(impl Abort + AllocGlobal), row: &Row) -> Result<(), Fail> {
    match Script::parse(rt.alloc(), row.script.as_bytes()) {
        Ok(script) => {
            let is_in_sequence = matches!(script.manner.mode, Mode::Sequential);
            assert_eq!(rt; script.manner.workers, row.workers);
            assert_eq!(rt; script.manner.times, row.times);
            assert_eq!(rt; is_in_sequence, row.is_in_sequence);
            Ok(())
        }
        Err(_) => Err("no script")?,
    }
}

#[test]
fn of_several_lines_the_last_counts(rt: HostRuntime) -> Result<(), Fail> {
    for row in ROWS {
        expect_manner(&rt, row)?;
    }
    Ok(())
}
