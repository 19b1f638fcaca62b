//! The errors of a world as std's `Error`, and their texts.
use shred_world::{DataError, Kind, OutOfMemory, ReplaceError, ResourceId, WorldError};
use std::alloc::{AllocError, Global};
use std::error::Error;
use std::process::Abort;
use std::test::Fail;

fn text_of<E: Error>(alloc: Global, error: &E) -> Result<String, AllocError> {
    format!(in alloc; "{error}")
}

fn expect_text<E: Error>(
    rt: &impl Abort,
    alloc: Global,
    error: &E,
    text: &str,
) -> Result<(), Fail> {
    assert_eq!(rt; text_of(alloc, error)?.as_str(), text);
    Ok(())
}

#[test]
fn errors_of_a_world_have_texts(rt: HostRuntime) -> Result<(), Fail> {
    let alloc = rt.alloc();
    let asked = Kind(1);
    let found = Kind(0);
    expect_text(&rt, alloc, &OutOfMemory, "out of memory")?;
    expect_text(&rt, alloc, &WorldError::OutOfMemory, "out of memory")?;
    expect_text(
        &rt,
        alloc,
        &WorldError::WrongKind { asked, found },
        "kind 1 was asked for, and the id is of kind 0",
    )?;
    expect_text(
        &rt,
        alloc,
        &DataError::WrongKind { asked, found },
        "kind 1 was asked for, and the id is of kind 0",
    )?;
    let id = ResourceId::from_type_id_and_dynamic_id(asked, 7);
    expect_text(
        &rt,
        alloc,
        &DataError::Taken(id),
        "kind 1, number 7 is handed out already",
    )?;
    expect_text(
        &rt,
        alloc,
        &ReplaceError::WrongKind {
            asked,
            found,
            value: 5_u8,
        },
        "the value is of kind 1, and the id of kind 0",
    )
}
