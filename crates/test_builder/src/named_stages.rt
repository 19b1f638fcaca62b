//! Stages that are written with names of the caller's.

use crate::plan_rows::Call;
use crate::planner_tests::quickly;
use crate::stopping::{Stop, StoppingWriter};
use shred::{PrintError, SystemId, ToWriter};
use std::alloc::Global;
use std::collections::HashMap;
use std::process::Abort;
use std::test::Fail;
use test_calls::declared::PLAIN;

struct Named {
    name: &'static str,
    id: usize,
}

/// Systems beside each other, names for ids, a writer that may stop, what it then has, and how the writing ends.
struct Row {
    calls: &'static [Call],
    names: &'static [Named],
    stop: Option<(usize, Stop)>,
    written: &'static str,
    ended: Result<(), PrintError>,
}

const ONE: &str = "seq![\n\tpar![\n\t\tseq![\n\t\t\ta,\n\t\t],\n\t],\n]\n";

const TWO: &str =
    "seq![\n\tpar![\n\t\tseq![\n\t\t\ta,\n\t\t],\n\t\tseq![\n\t\t\tb,\n\t\t],\n\t],\n]\n";

const ROWS: &[Row] = &[
    // The least of several names is written.
    Row {
        calls: &[Call::Insert(PLAIN, &[])],
        names: &[
            Named { name: "b", id: 0 },
            Named { name: "a", id: 0 },
            Named { name: "ab", id: 0 },
        ],
        stop: None,
        written: ONE,
        ended: Ok(()),
    },
    Row {
        calls: &[Call::Insert(PLAIN, &[])],
        names: &[
            Named { name: "a", id: 0 },
            Named { name: "b", id: 0 },
            Named { name: "ab", id: 0 },
        ],
        stop: None,
        written: ONE,
        ended: Ok(()),
    },
    Row {
        calls: &[Call::Insert(PLAIN, &[])],
        names: &[
            Named { name: "ab", id: 0 },
            Named { name: "b", id: 0 },
            Named { name: "a", id: 0 },
        ],
        stop: None,
        written: ONE,
        ended: Ok(()),
    },
    // Nothing is written where a system has no name.
    Row {
        calls: &[Call::Insert(PLAIN, &[]), Call::Insert(PLAIN, &[])],
        names: &[Named { name: "a", id: 0 }],
        stop: Some((5, Stop::Fails)),
        written: "",
        ended: Err(PrintError::Unnamed(SystemId(1))),
    },
    Row {
        calls: &[Call::Insert(PLAIN, &[]), Call::Insert(PLAIN, &[])],
        names: &[Named { name: "a", id: 0 }, Named { name: "b", id: 1 }],
        stop: Some((5, Stop::Fails)),
        written: "seq![",
        ended: Err(PrintError::Write),
    },
    Row {
        calls: &[Call::Insert(PLAIN, &[]), Call::Insert(PLAIN, &[])],
        names: &[Named { name: "a", id: 0 }, Named { name: "b", id: 1 }],
        stop: None,
        written: TWO,
        ended: Ok(()),
    },
];

fn names_of(alloc: Global, names: &[Named]) -> Result<HashMap<String, SystemId>, Fail> {
    let mut map = HashMap::new(alloc);
    for named in names {
        map.insert(String::from_str(alloc, named.name)?, SystemId(named.id))?;
    }
    Ok(map)
}

fn expect_written(rt: &impl Abort, alloc: Global, row: &Row) -> Result<(), Fail> {
    let stages = quickly(alloc, row.calls)?;
    let names = names_of(alloc, row.names)?;
    let mut writer = StoppingWriter::new(alloc, row.stop);
    let mut sink = ToWriter::new(&mut writer);
    assert_eq!(rt; stages.write_par_seq(&mut sink, &names), row.ended);
    drop(sink);
    assert_eq!(rt; writer.written(), row.written.as_bytes());
    Ok(())
}

#[test]
fn stages_are_written_where_each_system_is_named(rt: HostRuntime) -> Result<(), Fail> {
    for row in ROWS {
        expect_written(&rt, rt.alloc(), row)?;
    }
    Ok(())
}
