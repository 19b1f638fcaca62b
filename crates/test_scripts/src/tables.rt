//! Tables that differ, and output that fails.
use script_engine::{Case, run_table};
use std::process::Abort;
use std::thread::Threads;

const KEPT: Case = Case {
    name: "kept",
    script: "res X 1\n",
    stdout: "X=1\nok\n",
    stderr: "",
    status: 0,
};

/// Cases of which each but the last differs.
const DIFFERING: &[Case] = &[
    Case {
        name: "out",
        stdout: "X=2\nok\n",
        ..KEPT
    },
    Case {
        name: "err",
        stderr: "X\n",
        ..KEPT
    },
    Case {
        name: "status",
        status: 2,
        ..KEPT
    },
    KEPT,
];

/// Into an output of so many bytes the table's run writes this, and says whether all agree, or that the output fails.
fn expect_table(
    rt: &(impl Abort + AllocGlobal + Threads + Sync),
    cases: &[Case],
    room: usize,
    written: &[u8],
    answer: Option<bool>,
) {
    let mut bytes = [0; 64];
    let (mut out, _) = bytes.split_at_mut(room.min(64));
    assert_eq!(rt; run_table(rt, rt.alloc(), cases, &mut out).ok(), answer);
    let (beginning, _) = bytes.split_at(written.len().min(64));
    assert_eq!(rt; beginning, written);
}

#[test]
fn says_which_case_differs_and_where_output_fails(rt: HostRuntime) {
    let differing = b"out differs\nerr differs\nstatus differs\nkept ok\n1 of 4\n";
    expect_table(&rt, DIFFERING, 64, differing, Some(false));
    expect_table(&rt, &[KEPT], 64, b"kept ok\n1 of 1\n", Some(true));
    expect_table(&rt, &[KEPT], 4, b"kept", None);
}
