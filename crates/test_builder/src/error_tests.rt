//! The errors of plans and dispatches as std's `Error`, and their texts; those of views with the names of kinds.
use shred::{
    AddError, DataError, DispatchError, Fault, Kind, KindNames, PrintError, ResourceId, SinkFailed,
    Spelled, StageFault, SystemId,
};
use std::alloc::Global;
use std::error::Error;
use std::process::Abort;
use std::test::Fail;
use test_calls::calls::text_of;

fn expect_text<E: Error>(
    rt: &impl Abort,
    alloc: Global,
    error: &E,
    text: &str,
) -> Result<(), Fail> {
    assert_eq!(rt; text_of(alloc, error)?.as_str(), text);
    Ok(())
}

#[test]
fn errors_of_a_plan_have_texts(rt: HostRuntime) -> Result<(), Fail> {
    let alloc = rt.alloc();
    expect_text(
        &rt,
        alloc,
        &AddError::NoSuchSystem { place: 3 },
        "no system has the name at place 3 of the dependencies",
    )?;
    expect_text(
        &rt,
        alloc,
        &PrintError::Unnamed(SystemId(4)),
        "system 4 has no name",
    )?;
    expect_text(&rt, alloc, &SinkFailed, "the sink failed")?;
    let fault: Fault<DataError> = Fault::Refused(DataError::OutOfMemory);
    expect_text(&rt, alloc, &fault, "refused: out of memory")?;
    let id = SystemId(2);
    let staged = StageFault::System { id, fault };
    expect_text(&rt, alloc, &staged, "system 2: refused: out of memory")?;
    let memory: DispatchError<DataError> = DispatchError::StageMemory { stage: 1 };
    expect_text(&rt, alloc, &memory, "stage 1: out of memory")
}

/// Names of two kinds.
#[derive(Drop)]
struct CarKinds;

impl KindNames for CarKinds {
    fn kind_name(kind: Kind) -> Option<&'static str> {
        match kind.0 {
            1 => Some("Speed"),
            2 => Some("Wheels"),
            _ => None,
        }
    }
}

#[test]
fn a_kind_is_told_by_its_name(rt: HostRuntime) -> Result<(), Fail> {
    let id = |kind, number| ResourceId::from_type_id_and_dynamic_id(Kind(kind), number);
    let rows = [
        (DataError::Missing(id(1, 0)), "nothing is held under Speed"),
        (
            DataError::Undeclared(id(2, 3)),
            "Wheels, number 3 is not declared for this use",
        ),
        (
            DataError::Taken(id(7, 0)),
            "kind 7, number 0 is handed out already",
        ),
        (
            DataError::WrongKind {
                asked: Kind(1),
                found: Kind(7),
            },
            "Speed was asked for, and the id is of kind 7",
        ),
        (DataError::OutOfMemory, "out of memory"),
    ];
    for (error, text) in rows {
        let spelled: Spelled<DataError, CarKinds> = Spelled::new(error);
        assert_eq!(rt; text_of(rt.alloc(), &spelled)?.as_str(), text);
    }
    Ok(())
}
