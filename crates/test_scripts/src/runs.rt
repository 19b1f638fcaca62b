//! Whole runs, from a script's bytes to what is printed.
use crate::readers::Source;
use crate::writers::StoppingWriter;
use script_engine::{run, run_on_kept_workers};
use std::process::Abort;
use std::sync::Wait;
use std::thread::Threads;

/// What a run is to write, to tell and to answer.
#[derive(Clone, Copy)]
struct Wanted<'text> {
    out: &'text [u8],
    err: &'text [u8],
    status: u8,
}

/// The run ends so, on threads that each stage starts, and on workers that are kept.
fn expect_run(
    rt: &(impl Abort + AllocGlobal + Threads + Wait + Clone + Drop + Send + Sync + 'static),
    source: Source,
    out: StoppingWriter,
    err: StoppingWriter,
    wanted: Wanted,
) {
    for is_kept in [false, true] {
        let (mut source, mut out, mut err) = (source, out.again(), err.again());
        let status = if is_kept {
            run_on_kept_workers(rt, rt.alloc(), &mut source, &mut out, &mut err)
        } else {
            run(rt, rt.alloc(), &mut source, &mut out, &mut err)
        };
        assert_eq!(rt; out.written(), wanted.out);
        assert_eq!(rt; err.written(), wanted.err);
        assert_eq!(rt; status, wanted.status);
    }
}

/// The run ends so, where all that is written is taken.
fn expect_printed(
    rt: &(impl Abort + AllocGlobal + Threads + Wait + Clone + Drop + Send + Sync + 'static),
    source: Source,
    wanted: Wanted,
) {
    let out = StoppingWriter::endless(rt.alloc());
    let err = StoppingWriter::endless(rt.alloc());
    expect_run(rt, source, out, err, wanted);
}

/// Nothing is run, and this is told.
fn expect_told(
    rt: &(impl Abort + AllocGlobal + Threads + Wait + Clone + Drop + Send + Sync + 'static),
    source: Source,
    told: &str,
) {
    let wanted = Wanted {
        out: &[],
        err: told.as_bytes(),
        status: 1,
    };
    expect_printed(rt, source, wanted);
}

/// Into this output the script's run writes this, and tells that the output failed.
fn expect_output_failed(
    rt: &(impl Abort + AllocGlobal + Threads + Wait + Clone + Drop + Send + Sync + 'static),
    script: &str,
    out: StoppingWriter,
    written: &[u8],
) {
    let err = StoppingWriter::endless(rt.alloc());
    let wanted = Wanted {
        out: written,
        err: b"output failed\n",
        status: 1,
    };
    expect_run(rt, Source::of_text(script), out, err, wanted);
}

const SCRIPT: &str = "res X 1\nres Y 20\nsys a average - X+=10 refuse:7\n";

const PRINTED: &str = "X=11\nY=20\nsystem 0 refused 7\n";

const AS_PRINTED: Wanted = Wanted {
    out: b"X=11\nY=20\nsystem 0 refused 7\n",
    err: &[],
    status: 2,
};

const FIVE_PLANNED: &str =
    "plan\nres Res 0\nsys a average - ?Res\nsys b average a ?Res\nsys c average a ?Res\nsys d average - ?Res\nsys e average c,d ?Res\n";

const FIVE_PRINTED: &str =
    "seq![\n\tpar![\n\t\tseq![\n\t\t\ta,\n\t\t],\n\t\tseq![\n\t\t\td,\n\t\t],\n\t],\n\tpar![\n\t\tseq![\n\t\t\tb,\n\t\t],\n\t\tseq![\n\t\t\tc,\n\t\t],\n\t],\n\tpar![\n\t\tseq![\n\t\t\te,\n\t\t],\n\t],\n]\n\nthreads 2\nRes=0\nok\n";

/// What of it is printed before the run.
const FIVE_PLAN: &str =
    "seq![\n\tpar![\n\t\tseq![\n\t\t\ta,\n\t\t],\n\t\tseq![\n\t\t\td,\n\t\t],\n\t],\n\tpar![\n\t\tseq![\n\t\t\tb,\n\t\t],\n\t\tseq![\n\t\t\tc,\n\t\t],\n\t],\n\tpar![\n\t\tseq![\n\t\t\te,\n\t\t],\n\t],\n]\n\nthreads 2\n";

#[test]
fn reads_in_pieces_of_any_length_and_on_after_an_interruption(rt: HostRuntime) {
    for most in 1..SCRIPT.len() {
        let source = Source {
            most,
            ..Source::of_text(SCRIPT)
        };
        expect_printed(&rt, source, AS_PRINTED);
    }
    let source = Source {
        most: 1,
        is_interrupted: true,
        ..Source::of_text(SCRIPT)
    };
    expect_printed(&rt, source, AS_PRINTED);
}

#[test]
fn tells_a_failed_read_wherever_it_comes_and_before_a_fault(rt: HostRuntime) {
    for after in 0..SCRIPT.len() {
        expect_told(&rt, Source::failing(SCRIPT, after), "input failed\n");
    }
    let unknown = "unknown\n";
    expect_told(
        &rt,
        Source::failing(unknown, unknown.len()),
        "input failed\n",
    );
}

/// A script, what its run prints, and what of that is written where nothing can be flushed: all, or the plan.
struct Run {
    script: &'static str,
    printed: &'static str,
    unflushed: &'static str,
}

const RUNS: &[Run] = &[
    Run {
        script: SCRIPT,
        printed: PRINTED,
        unflushed: PRINTED,
    },
    Run {
        script: FIVE_PLANNED,
        printed: FIVE_PRINTED,
        unflushed: FIVE_PLAN,
    },
];

#[test]
fn tells_a_failed_write_wherever_it_comes(rt: HostRuntime) {
    for run in RUNS {
        let printed = run.printed.as_bytes();
        for after in 0..printed.len() {
            let (beginning, _) = printed.split_at(after);
            let fails = StoppingWriter::after(rt.alloc(), after);
            expect_output_failed(&rt, run.script, fails, beginning);
            let full = StoppingWriter::full_after(rt.alloc(), after);
            expect_output_failed(&rt, run.script, full, beginning);
        }
        let unflushed = StoppingWriter::at_flush(rt.alloc());
        expect_output_failed(&rt, run.script, unflushed, run.unflushed.as_bytes());
    }
}

#[test]
fn writes_on_after_an_interruption(rt: HostRuntime) {
    for after in 0..PRINTED.len() {
        let out = StoppingWriter::interrupted_after(rt.alloc(), after);
        let err = StoppingWriter::endless(rt.alloc());
        expect_run(&rt, Source::of_text(SCRIPT), out, err, AS_PRINTED);
    }
}

/// A script, what its run prints and tells, and its status.
struct Told {
    script: &'static str,
    printed: &'static str,
    told: &'static str,
    status: u8,
}

const TOLD: &[Told] = &[
    Told {
        script: "res X",
        printed: "",
        told: "line 1: bad word\n",
        status: 1,
    },
    Told {
        script: "sys a short a",
        printed: "",
        told: "line 1: no such system at 0\n",
        status: 2,
    },
    Told {
        script: "plan\nsys - short -",
        printed: "",
        told: "unnamed system 0\n",
        status: 2,
    },
    // Nothing is told of these, and no failure of what takes nothing is seen.
    Told {
        script: "",
        printed: "ok\n",
        told: "",
        status: 0,
    },
    Told {
        script: "sys a short - refuse:1",
        printed: "system 0 refused 1\n",
        told: "",
        status: 2,
    },
];

#[test]
fn a_failed_write_of_a_fault_leaves_a_beginning_and_the_status(rt: HostRuntime) {
    for row in TOLD {
        for after in 0..=row.told.len() {
            let (beginning, _) = row.told.as_bytes().split_at(after);
            let wanted = Wanted {
                out: row.printed.as_bytes(),
                err: beginning,
                status: row.status,
            };
            let out = StoppingWriter::endless(rt.alloc());
            let err = StoppingWriter::after(rt.alloc(), after);
            expect_run(&rt, Source::of_text(row.script), out, err, wanted);
        }
    }
}

#[test]
fn bounds_the_length_of_a_script(rt: HostRuntime) {
    let ok = Wanted {
        out: b"ok\n",
        err: &[],
        status: 0,
    };
    let too_long = "script too long\n";
    for byte in [b' ', b'\n'] {
        expect_printed(&rt, Source::of_bytes(byte, 1_048_576), ok);
        expect_told(&rt, Source::of_bytes(byte, 1_048_577), too_long);
    }
    // Before a fault, and before a failed read that comes later.
    expect_told(
        &rt,
        Source::of_bytes(b'x', 1_048_576),
        "line 1: unknown line\n",
    );
    expect_told(&rt, Source::of_bytes(b'x', 1_048_577), too_long);
    let fails_at_the_limit = Source {
        fails: true,
        ..Source::of_bytes(b' ', 1_048_576)
    };
    expect_told(&rt, fails_at_the_limit, "input failed\n");
    let fails_past_the_limit = Source {
        fails: true,
        ..Source::of_bytes(b' ', 1_048_577)
    };
    expect_told(&rt, fails_past_the_limit, too_long);
}
