//! Calls of a builder of dispatchers, with their answers and the printed plan, worked out by hand.

use shred::{AddError, PrintError, RunningTime, SystemId};
use test_calls::declared::{Case, PLAIN};

/// A call of `add`, and its answer.
pub(crate) struct Add {
    pub(crate) case: Case,
    pub(crate) name: &'static str,
    pub(crate) dependencies: &'static [&'static str],
    pub(crate) answer: Result<SystemId, AddError>,
}

/// Calls of a new builder, what it prints after them, how that ends, and the number of threads of its dispatcher.
pub(crate) struct Row {
    pub(crate) adds: &'static [Add],
    pub(crate) printed: &'static str,
    pub(crate) ended: Result<(), PrintError>,
    pub(crate) threads: usize,
}

const LONG: Case = Case {
    reads: &[],
    writes: &[],
    time: RunningTime::VeryLong,
};

const SHORT_WRITER: Case = Case {
    reads: &[],
    writes: &[0],
    time: RunningTime::VeryShort,
};

const READER: Case = Case {
    reads: &[0],
    writes: &[],
    time: RunningTime::Average,
};

/// Five systems that all read one resource, with dependencies among them.
pub(crate) const FIVE: &[Add] = &[
    Add {
        case: READER,
        name: "a",
        dependencies: &[],
        answer: Ok(SystemId(0)),
    },
    Add {
        case: READER,
        name: "b",
        dependencies: &["a"],
        answer: Ok(SystemId(1)),
    },
    Add {
        case: READER,
        name: "c",
        dependencies: &["a"],
        answer: Ok(SystemId(2)),
    },
    Add {
        case: READER,
        name: "d",
        dependencies: &[],
        answer: Ok(SystemId(3)),
    },
    Add {
        case: READER,
        name: "e",
        dependencies: &["c", "d"],
        answer: Ok(SystemId(4)),
    },
];

/// What the five print.
pub(crate) const FIVE_PRINTED: &str =
    "seq![\n\tpar![\n\t\tseq![\n\t\t\ta,\n\t\t],\n\t\tseq![\n\t\t\td,\n\t\t],\n\t],\n\tpar![\n\t\tseq![\n\t\t\tb,\n\t\t],\n\t\tseq![\n\t\t\tc,\n\t\t],\n\t],\n\tpar![\n\t\tseq![\n\t\t\te,\n\t\t],\n\t],\n]\n\n";

pub(crate) const ROWS: &[Row] = &[
    // Nothing is nine bytes.
    Row {
        adds: &[],
        printed: "seq![\n]\n\n",
        ended: Ok(()),
        threads: 0,
    },
    Row {
        adds: FIVE,
        printed: FIVE_PRINTED,
        ended: Ok(()),
        threads: 2,
    },
    // A refused call leaves the builder as it was.
    Row {
        adds: &[
            Add {
                case: PLAIN,
                name: "a",
                dependencies: &[],
                answer: Ok(SystemId(0)),
            },
            Add {
                case: PLAIN,
                name: "a",
                dependencies: &["x"],
                answer: Err(AddError::NoSuchSystem { place: 0 }),
            },
            Add {
                case: PLAIN,
                name: "a",
                dependencies: &[],
                answer: Err(AddError::NameTaken),
            },
            Add {
                case: PLAIN,
                name: "b",
                dependencies: &["b"],
                answer: Err(AddError::NoSuchSystem { place: 0 }),
            },
            Add {
                case: PLAIN,
                name: "b",
                dependencies: &[],
                answer: Ok(SystemId(1)),
            },
        ],
        printed: "seq![\n\tpar![\n\t\tseq![\n\t\t\ta,\n\t\t],\n\t\tseq![\n\t\t\tb,\n\t\t],\n\t],\n]\n\n",
        ended: Ok(()),
        threads: 2,
    },
    // The empty name is never known.
    Row {
        adds: &[
            Add {
                case: PLAIN,
                name: "",
                dependencies: &[],
                answer: Ok(SystemId(0)),
            },
            Add {
                case: PLAIN,
                name: "",
                dependencies: &[],
                answer: Ok(SystemId(1)),
            },
            Add {
                case: PLAIN,
                name: "a",
                dependencies: &[],
                answer: Ok(SystemId(2)),
            },
            Add {
                case: PLAIN,
                name: "c",
                dependencies: &["", "a"],
                answer: Err(AddError::NoSuchSystem { place: 0 }),
            },
            Add {
                case: PLAIN,
                name: "c",
                dependencies: &["a", ""],
                answer: Err(AddError::NoSuchSystem { place: 1 }),
            },
        ],
        printed: "",
        ended: Err(PrintError::Unnamed(SystemId(0))),
        threads: 3,
    },
    // A system without a name is not printed.
    Row {
        adds: &[Add {
            case: PLAIN,
            name: "",
            dependencies: &[],
            answer: Ok(SystemId(0)),
        }],
        printed: "",
        ended: Err(PrintError::Unnamed(SystemId(0))),
        threads: 1,
    },
    // The first without a name is told by the plan, and not by the ids.
    Row {
        adds: &[
            Add {
                case: LONG,
                name: "a",
                dependencies: &[],
                answer: Ok(SystemId(0)),
            },
            Add {
                case: SHORT_WRITER,
                name: "b",
                dependencies: &[],
                answer: Ok(SystemId(1)),
            },
            Add {
                case: LONG,
                name: "",
                dependencies: &["a"],
                answer: Ok(SystemId(2)),
            },
            Add {
                case: SHORT_WRITER,
                name: "",
                dependencies: &[],
                answer: Ok(SystemId(3)),
            },
        ],
        printed: "",
        ended: Err(PrintError::Unnamed(SystemId(3))),
        threads: 2,
    },
    // Names are cleaned where they are printed.
    Row {
        adds: &[Add {
            case: PLAIN,
            name: "x-y/z w",
            dependencies: &[],
            answer: Ok(SystemId(0)),
        }],
        printed: "seq![\n\tpar![\n\t\tseq![\n\t\t\tx_y_z_w,\n\t\t],\n\t],\n]\n\n",
        ended: Ok(()),
        threads: 1,
    },
];
