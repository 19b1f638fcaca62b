//! Runs whose requests for memory may be refused. Each is as with ample memory, or tells that memory is wanting and prints
//! nothing.

use crate::readers::Source;
use script_engine::{run, run_on_kept_workers};
use std::process::Abort;
use std::sync::Wait;
use std::thread::Threads;

/// A script, what its run prints, and its status.
struct Run {
    script: &'static str,
    printed: &'static str,
    status: u8,
}

const RUNS: &[Run] = &[
    // A stage for each of six systems, of which two keep what they find.
    Run {
        script: "res R 0\nres S 0\nres T 0\nsys 0 average - R+=0\nsys 1 average - R+=1\nsys 2 average - R+=2\nsys 3 average 1 R+=3\nbarrier\nsys 4 average - S=R R+=4\nsys 5 average 4 T=R R+=5\n",
        printed: "R=15\nS=6\nT=10\nok\n",
        status: 0,
    },
    // A refusal beside another group, and a thread-local system that is not run.
    Run {
        script: "res A 0\nres B 0\nsys L very-long - B+=5\nsys f very-short - A+=1 refuse:7\nsys x very-short - A+=1\nsys z average - B+=100\nlocal A+=1000\n",
        printed: "A=1\nB=5\nsystem 1 refused 7\n",
        status: 2,
    },
    // A batch, dispatched ten times.
    Run {
        script: "res potatoes 50\nres tomatoes 50\nres cents 2000\nres open 0\nsys opener average - open=1\nbatch buy - 3\nsys t average - ?open tomatoes+=-1 cents+=-150\nsys p average - ?open potatoes+=-1 cents+=-50\nend\nsys closer average - open=0\ntimes 10\n",
        printed: "potatoes=20\ntomatoes=20\ncents=-4000\nopen=0\nok\n",
        status: 0,
    },
    // A plan that is printed, and a thread-local system.
    Run {
        script: "plan\nres X 1\nsys a average - X+=1\nlocal X*=10\n",
        printed: "seq![\n\tpar![\n\t\tseq![\n\t\t\ta,\n\t\t],\n\t],\n]\n\nthreads 1\nX=20\nok\n",
        status: 0,
    },
];

// Whether the text stands at the beginning of the bytes, of which so many were not written.
fn is_text(bytes: &[u8], left: usize, text: &str) -> bool {
    let (written, _) = bytes.split_at(bytes.len() - left.min(bytes.len()));
    written == text.as_bytes()
}

/// The script is run as with ample memory, or not at all; on workers that are kept, or on threads that each stage starts.
fn expect_run(
    rt: &(impl Abort + AllocGlobal + Threads + Wait + Clone + Drop + Send + Sync + 'static),
    row: &Run,
    is_kept: bool,
) {
    let (mut printed, mut told) = ([0; 256], [0; 64]);
    let (mut out, mut err) = (printed.as_mut_slice(), told.as_mut_slice());
    let mut source = Source::of_text(row.script);
    let status = if is_kept {
        run_on_kept_workers(rt, rt.alloc(), &mut source, &mut out, &mut err)
    } else {
        run(rt, rt.alloc(), &mut source, &mut out, &mut err)
    };
    let (room, rest) = (out.len(), err.len());
    let is_ample = is_text(&printed, room, row.printed) && is_text(&told, rest, "");
    let is_refused = is_text(&printed, room, "") && is_text(&told, rest, "out of memory\n");
    assert!(rt; (is_ample && status == row.status) || (is_refused && status == 2));
}

#[test]
fn a_script_is_run_or_memory_is_wanting(rt: HostRuntime) {
    for row in RUNS {
        expect_run(&rt, row, false);
        expect_run(&rt, row, true);
    }
}
