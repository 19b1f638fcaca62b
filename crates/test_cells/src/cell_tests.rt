//! One thread on a cell.
use shred_cell::cell::{InvalidBorrow, TrustCell};
use std::test::Fail;

#[test]
fn a_copied_borrow_keeps_writers_out(rt: HostRuntime) -> Result<(), Fail> {
    let cell = TrustCell::new(5u32);
    let first = cell.borrow(&rt)?;
    let second = first.try_clone(&rt)?;
    drop(first);
    assert_eq!(rt; cell.try_borrow_mut().err(), Some(InvalidBorrow));
    assert_eq!(rt; *second, 5);
    drop(second);
    let mut writer = cell.try_borrow_mut()?;
    *writer = 7;
    drop(writer);
    let reader = cell.borrow(&rt)?;
    assert_eq!(rt; *reader, 7);
    Ok(())
}

#[test]
fn one_writer_at_a_time(rt: HostRuntime) -> Result<(), Fail> {
    let cell = TrustCell::new(5u32);
    let mut writer = cell.borrow_mut()?;
    *writer = 7;
    assert_eq!(rt; cell.try_borrow_mut().err(), Some(InvalidBorrow));
    assert_eq!(rt; cell.borrow_mut().err(), Some(InvalidBorrow));
    assert_eq!(rt; *writer, 7);
    drop(writer);
    assert_eq!(rt; cell.into_inner(), Ok(7));
    Ok(())
}

#[test]
fn no_reader_beside_a_writer(rt: HostRuntime) -> Result<(), Fail> {
    let cell = TrustCell::new(5u32);
    let writer = cell.try_borrow_mut()?;
    assert_eq!(rt; cell.try_borrow(&rt).err(), Some(InvalidBorrow));
    assert_eq!(rt; cell.borrow(&rt).err(), Some(InvalidBorrow));
    drop(writer);
    let reader = cell.try_borrow(&rt)?;
    assert_eq!(rt; cell.borrow_mut().err(), Some(InvalidBorrow));
    assert_eq!(rt; *reader, 5);
    Ok(())
}

#[test]
fn two_borrows_read(rt: HostRuntime) -> Result<(), Fail> {
    let cell = TrustCell::new(5u32);
    let first = cell.borrow(&rt)?;
    let second = cell.borrow(&rt)?;
    assert_eq!(rt; first.wrapping_add(*second), 10);
    Ok(())
}

#[test]
fn a_borrow_and_its_copy_read(rt: HostRuntime) -> Result<(), Fail> {
    let cell = TrustCell::new(5u32);
    let first = cell.borrow(&rt)?;
    let second = first.try_clone(&rt)?;
    assert_eq!(rt; first.wrapping_add(*second), 10);
    Ok(())
}

#[test]
fn one_borrow_writes_twice(rt: HostRuntime) -> Result<(), Fail> {
    let cell = TrustCell::new(5u32);
    let mut writer = cell.borrow_mut()?;
    *writer = writer.wrapping_add(2);
    *writer = writer.wrapping_add(3);
    drop(writer);
    let reader = cell.borrow(&rt)?;
    assert_eq!(rt; *reader, 10);
    Ok(())
}

#[test]
fn the_owner_writes_without_asking_others(rt: HostRuntime) -> Result<(), Fail> {
    let mut cell = TrustCell::<u32>::default();
    let mut writer = cell.get_mut()?;
    assert_eq!(rt; *writer, 0);
    *writer = 7;
    drop(writer);
    assert_eq!(rt; cell.into_inner(), Ok(7));
    Ok(())
}

#[test]
fn what_a_forgotten_writer_has_is_lost(rt: HostRuntime) -> Result<(), Fail> {
    let cell = TrustCell::new(5u32);
    std::mem::forget(cell.borrow_mut()?);
    assert_eq!(rt; cell.borrow(&rt).err(), Some(InvalidBorrow));
    assert_eq!(rt; cell.into_inner(), Err(InvalidBorrow));
    Ok(())
}

#[test]
fn the_refusal_has_its_text(rt: HostRuntime) -> Result<(), Fail> {
    let text = format!(in rt.alloc(); "{InvalidBorrow}")?;
    assert_eq!(rt; text.as_str(), "Tried to borrow when it was illegal");
    Ok(())
}
