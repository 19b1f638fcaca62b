//! Calls of a builder of stages, with the plans that they make, worked out by hand from the rules of the planner.

use shred::RunningTime;
use test_calls::declared::{Case, PLAIN};

/// A call of a builder. Systems are numbered from 0, and depend on those of the numbers.
#[derive(Clone, Copy)]
pub(crate) enum Call {
    Insert(Case, &'static [usize]),
    Barrier,
}

/// Calls, and their plan: the numbers in each group of each stage.
pub(crate) struct Row {
    pub(crate) calls: &'static [Call],
    pub(crate) plan: &'static str,
}

const LONG: Case = Case {
    reads: &[],
    writes: &[],
    time: RunningTime::VeryLong,
};

const SHORT: Case = Case {
    reads: &[],
    writes: &[],
    time: RunningTime::Short,
};

const VERY_SHORT: Case = Case {
    reads: &[],
    writes: &[],
    time: RunningTime::VeryShort,
};

const READS_A: Case = Case {
    reads: &[0],
    writes: &[],
    time: RunningTime::Average,
};

/// A very short system that writes A.
const WRITES_A: Case = Case {
    reads: &[],
    writes: &[0],
    time: RunningTime::VeryShort,
};

/// A very short system that writes B.
const WRITES_B: Case = Case {
    reads: &[],
    writes: &[1],
    time: RunningTime::VeryShort,
};

/// A system, one that conflicts with it, and one that conflicts with the second alone.
const CHAIN: &[Call] = &[
    Call::Insert(
        Case {
            reads: &[],
            writes: &[0],
            time: RunningTime::Average,
        },
        &[],
    ),
    Call::Insert(
        Case {
            reads: &[],
            writes: &[0, 1],
            time: RunningTime::Average,
        },
        &[],
    ),
    Call::Insert(
        Case {
            reads: &[1],
            writes: &[2],
            time: RunningTime::Average,
        },
        &[],
    ),
];

/// Plans by the rule `First` alone.
pub(crate) const BY_FIRST: &[Row] = &[
    // The last stands beside the first, before the second.
    Row {
        calls: CHAIN,
        plan: "[[0],[2]] [[1]]",
    },
];

/// Plans by the rule `Ordered` alone.
pub(crate) const BY_ADDITION: &[Row] = &[
    // Each conflicts with the one before it.
    Row {
        calls: CHAIN,
        plan: "[[0]] [[1]] [[2]]",
    },
    // What is left of the dependencies of the last is counted from the barrier, though its search begins behind the first.
    Row {
        calls: &[
            Call::Insert(
                Case {
                    reads: &[],
                    writes: &[0],
                    time: RunningTime::Average,
                },
                &[],
            ),
            Call::Insert(LONG, &[0]),
            Call::Insert(WRITES_A, &[]),
            Call::Insert(
                Case {
                    reads: &[],
                    writes: &[0],
                    time: RunningTime::Short,
                },
                &[0],
            ),
        ],
        plan: "[[0]] [[1],[2,3]]",
    },
];

/// Plans by what the systems touch, and by their times, by either rule.
pub(crate) const BY_ACCESS: &[Row] = &[
    // A short reader joins the writer that it conflicts with.
    Row {
        calls: &[
            Call::Insert(READS_A, &[]),
            Call::Insert(WRITES_B, &[]),
            Call::Insert(
                Case {
                    reads: &[1],
                    writes: &[],
                    time: RunningTime::Short,
                },
                &[],
            ),
        ],
        plan: "[[0],[1,2]]",
    },
    // A group takes four systems, and no fifth.
    Row {
        calls: &[
            Call::Insert(LONG, &[]),
            Call::Insert(WRITES_A, &[]),
            Call::Insert(WRITES_A, &[]),
            Call::Insert(WRITES_A, &[]),
            Call::Insert(WRITES_A, &[]),
            Call::Insert(WRITES_A, &[]),
        ],
        plan: "[[0],[1,2,3,4]] [[5]]",
    },
    // A group is joined where that balances the times, and not where the system is longer.
    Row {
        calls: &[
            Call::Insert(PLAIN, &[]),
            Call::Insert(WRITES_A, &[]),
            Call::Insert(
                Case {
                    reads: &[],
                    writes: &[0],
                    time: RunningTime::Average,
                },
                &[],
            ),
        ],
        plan: "[[0],[1,2]]",
    },
    Row {
        calls: &[
            Call::Insert(PLAIN, &[]),
            Call::Insert(WRITES_A, &[]),
            Call::Insert(
                Case {
                    reads: &[],
                    writes: &[0],
                    time: RunningTime::Long,
                },
                &[],
            ),
        ],
        plan: "[[0],[1]] [[2]]",
    },
    // A writer comes after the reader of its resource.
    Row {
        calls: &[
            Call::Insert(
                Case {
                    reads: &[0],
                    writes: &[],
                    time: RunningTime::VeryLong,
                },
                &[],
            ),
            Call::Insert(
                Case {
                    reads: &[1],
                    writes: &[],
                    time: RunningTime::VeryShort,
                },
                &[],
            ),
            Call::Insert(WRITES_B, &[]),
        ],
        plan: "[[0],[1,2]]",
    },
    // A writer joins the one writer of its resource.
    Row {
        calls: &[
            Call::Insert(
                Case {
                    reads: &[0],
                    writes: &[1],
                    time: RunningTime::VeryShort,
                },
                &[],
            ),
            Call::Insert(LONG, &[]),
            Call::Insert(WRITES_B, &[]),
        ],
        plan: "[[0,2],[1]]",
    },
    // A system that conflicts with two groups comes in a later stage.
    Row {
        calls: &[
            Call::Insert(
                Case {
                    reads: &[0, 2],
                    writes: &[],
                    time: RunningTime::VeryShort,
                },
                &[],
            ),
            Call::Insert(WRITES_B, &[]),
            Call::Insert(LONG, &[]),
            Call::Insert(
                Case {
                    reads: &[],
                    writes: &[1, 2],
                    time: RunningTime::VeryShort,
                },
                &[],
            ),
        ],
        plan: "[[0],[1],[2]] [[3]]",
    },
];

/// Plans by what the systems depend on, and by barriers, by either rule.
pub(crate) const BY_DEPENDENCY: &[Row] = &[
    // Each comes after what it depends on, and beside what it does not.
    Row {
        calls: &[
            Call::Insert(READS_A, &[]),
            Call::Insert(READS_A, &[0]),
            Call::Insert(READS_A, &[0]),
            Call::Insert(READS_A, &[]),
            Call::Insert(READS_A, &[2, 3]),
        ],
        plan: "[[0],[3]] [[1],[2]] [[4]]",
    },
    // A chain has a stage for each.
    Row {
        calls: &[
            Call::Insert(PLAIN, &[]),
            Call::Insert(PLAIN, &[0]),
            Call::Insert(PLAIN, &[1]),
        ],
        plan: "[[0]] [[1]] [[2]]",
    },
    // Each occurrence of a dependency counts.
    Row {
        calls: &[
            Call::Insert(PLAIN, &[]),
            Call::Insert(PLAIN, &[0, 0]),
            Call::Insert(PLAIN, &[0, 0]),
            Call::Insert(PLAIN, &[0]),
        ],
        plan: "[[0]] [[1],[3]] [[2]]",
    },
    // Nothing is placed before the barrier, and a second one changes nothing.
    Row {
        calls: &[
            Call::Insert(PLAIN, &[]),
            Call::Barrier,
            Call::Insert(PLAIN, &[0]),
            Call::Insert(PLAIN, &[0]),
        ],
        plan: "[[0]] [[1]] [[2]]",
    },
    Row {
        calls: &[
            Call::Insert(PLAIN, &[]),
            Call::Barrier,
            Call::Barrier,
            Call::Insert(PLAIN, &[0]),
            Call::Insert(PLAIN, &[0]),
        ],
        plan: "[[0]] [[1]] [[2]]",
    },
    // A system joins its one dependency, and does not where both write the same.
    Row {
        calls: &[
            Call::Insert(LONG, &[]),
            Call::Insert(VERY_SHORT, &[]),
            Call::Insert(SHORT, &[1]),
        ],
        plan: "[[0],[1,2]]",
    },
    Row {
        calls: &[
            Call::Insert(LONG, &[]),
            Call::Insert(WRITES_A, &[]),
            Call::Insert(
                Case {
                    reads: &[],
                    writes: &[0],
                    time: RunningTime::Short,
                },
                &[1],
            ),
        ],
        plan: "[[0],[1]] [[2]]",
    },
    // It does not where the dependency is told twice.
    Row {
        calls: &[
            Call::Insert(LONG, &[]),
            Call::Insert(VERY_SHORT, &[]),
            Call::Insert(SHORT, &[1, 1]),
            Call::Insert(SHORT, &[1]),
        ],
        plan: "[[0],[1,3]] [[2]]",
    },
];

/// Calls whose systems read kinds 1 and 3 and write kinds 0, 2 and 4, out of order and some twice.
pub(crate) const UNSORTED: &[Call] = &[
    Call::Insert(
        Case {
            reads: &[3, 1, 3],
            writes: &[2, 0],
            time: RunningTime::Average,
        },
        &[],
    ),
    Call::Insert(
        Case {
            reads: &[1],
            writes: &[],
            time: RunningTime::Average,
        },
        &[],
    ),
    Call::Insert(
        Case {
            reads: &[],
            writes: &[0, 4],
            time: RunningTime::Average,
        },
        &[],
    ),
];
