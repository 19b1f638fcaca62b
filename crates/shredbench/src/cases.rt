//! Scripts, each with how its run is to end.

use script_engine::Case;

/// Systems that refuse beside others, and a thread-local one that is not run after that.
const REFUSED_BESIDE: &str =
    "res A 0\nres B 0\nsys L very-long - B+=5\nsys f very-short - A+=1 refuse:7\nsys x very-short - A+=1\nsys z average - B+=100\nlocal A+=1000\n";

const REFUSED_BESIDE_SEQ: &str =
    "res A 0\nres B 0\nsys L very-long - B+=5\nsys f very-short - A+=1 refuse:7\nsys x very-short - A+=1\nsys z average - B+=100\nlocal A+=1000\nmode seq\n";

/// A batch that runs its plan three times, between a system that opens and one that closes.
const BATCH_OF_PURCHASES: &str =
    "res potatoes 50\nres tomatoes 50\nres cents 2000\nres open 0\nsys opener average - open=1\nbatch buy - 3\nsys t average - ?open tomatoes+=-1 cents+=-150\nsys p average - ?open potatoes+=-1 cents+=-50\nend\nsys closer average - open=0\ntimes 10\n";

/// A batch in a batch.
const NESTED_BATCHES: &str =
    "res N 0\nbatch outer - 2\nsys a average - N+=1\nbatch inner - 3\nsys b average - N+=10\nend\nend\ntimes 2\n";

const NESTED_REFUSAL: &str =
    "res N 0\nbatch outer - 2\nsys a average - N+=1\nbatch inner - 3\nsys b average - N+=10 refuse:4\nend\nend\ntimes 2\n";

/// A refusal two batches down. The system beside it is done; what stands behind it in either batch, and behind both, is not run.
const REFUSAL_TWO_DOWN: &str =
    "res A 0\nres B 0\nbatch o - 2\nbatch i - 2\nsys p average - A+=1\nsys q average - B+=1 refuse:6\nend\nsys r average - A+=100\nend\nsys s average - A+=1000\n";

const REFUSAL_TWO_DOWN_SEQ: &str =
    "res A 0\nres B 0\nbatch o - 2\nbatch i - 2\nsys p average - A+=1\nsys q average - B+=1 refuse:6\nend\nsys r average - A+=100\nend\nsys s average - A+=1000\nmode seq\n";

/// The cases, in the order in which they are run.
pub(crate) const CASES: &[Case] = &[
    Case {
        name: "S1",
        script: "res X 1\nres Y 2\nres Z 0\nsys A average - X+=10\nsys B average - X*=2 Y+=X\nsys C average - Z=Y\n",
        stdout: "X=22\nY=24\nZ=2\nok\n",
        stderr: "",
        status: 0,
    },
    Case {
        name: "S2",
        script: REFUSED_BESIDE,
        stdout: "A=1\nB=5\nsystem 1 refused 7\n",
        stderr: "",
        status: 2,
    },
    Case {
        name: "S2-seq",
        script: REFUSED_BESIDE_SEQ,
        stdout: "A=1\nB=5\nsystem 1 refused 7\n",
        stderr: "",
        status: 2,
    },
    Case {
        name: "S4",
        script: "",
        stdout: "ok\n",
        stderr: "",
        status: 0,
    },
    Case {
        name: "S4-plan",
        script: "plan\n",
        stdout: "seq![\n]\n\nthreads 0\nok\n",
        stderr: "",
        status: 0,
    },
    Case {
        name: "S5",
        script: "res X 9223372036854775807\nsys a average - X+=1\n",
        stdout: "X=9223372036854775807\nsystem 0 refused overflow\n",
        stderr: "",
        status: 2,
    },
    Case {
        name: "S6",
        script: "sys a average -\nsys b average a,x\n",
        stdout: "",
        stderr: "line 2: no such system at 1\n",
        status: 2,
    },
    Case {
        name: "S7",
        script: "sys a average - X+=1\n",
        stdout: "",
        stderr: "line 1: no such resource\n",
        status: 1,
    },
    Case {
        name: "S3",
        script: BATCH_OF_PURCHASES,
        stdout: "potatoes=20\ntomatoes=20\ncents=-4000\nopen=0\nok\n",
        stderr: "",
        status: 0,
    },
    Case {
        name: "N1",
        script: NESTED_BATCHES,
        stdout: "N=124\nok\n",
        stderr: "",
        status: 0,
    },
    Case {
        name: "N2",
        script: NESTED_REFUSAL,
        stdout: "N=11\nsystem 0 refused 4\n",
        stderr: "",
        status: 2,
    },
    Case {
        name: "H1",
        script: REFUSAL_TWO_DOWN,
        stdout: "A=1\nB=1\nsystem 0 refused 6\n",
        stderr: "",
        status: 2,
    },
    Case {
        name: "H1-seq",
        script: REFUSAL_TWO_DOWN_SEQ,
        stdout: "A=1\nB=1\nsystem 0 refused 6\n",
        stderr: "",
        status: 2,
    },
    Case {
        name: "O1",
        script: "rule ordered\nres X 1\nres Y 2\nres Z 0\nsys A average - X+=10\nsys B average - X*=2 Y+=X\nsys C average - Z=Y\n",
        stdout: "X=22\nY=24\nZ=24\nok\n",
        stderr: "",
        status: 0,
    },
];
