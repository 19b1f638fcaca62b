//! Calls whose requests for memory may be refused. Each test passes where all ends as with ample memory, and where want of
//! memory is told and all stands as it must.

use crate::builder_rows::{Add, ROWS, Row};
use crate::calls::add;
use crate::planned_system::{OnlyPlanned, system_of};
use shred::{AddError, DispatcherBuilder, PrintError, SystemId, ToWriter};
use std::alloc::Global;
use std::process::Abort;
use test_values::Value;

type Builder = DispatcherBuilder<Value, OnlyPlanned>;

fn added(alloc: Global, builder: &mut Builder, call: &Add) -> Result<SystemId, AddError> {
    match system_of(alloc, call.case) {
        Ok(system) => add(builder, system, call.name, call.dependencies),
        Err(_) => Err(AddError::OutOfMemory),
    }
}

// How the call is answered; where memory is wanting, how the same call then is.
fn added_at_last(alloc: Global, builder: &mut Builder, call: &Add) -> Result<SystemId, AddError> {
    match added(alloc, builder, call) {
        Err(AddError::OutOfMemory) => added(alloc, builder, call),
        answer => answer,
    }
}

/// The builder prints this, which takes no memory, and the printing ends so.
fn expect_printed(rt: &impl Abort, builder: &Builder, text: &[u8], ended: Result<(), PrintError>) {
    let mut bytes = [0; 256];
    let (mut out, _) = bytes.split_at_mut(text.len().min(256));
    let mut sink = ToWriter::new(&mut out);
    assert_eq!(rt; builder.print_par_seq(&mut sink), ended);
    drop(sink);
    let (written, _) = bytes.split_at(text.len().min(256));
    assert_eq!(rt; written, text);
}

fn expect_row(rt: &impl Abort, alloc: Global, row: &Row) {
    let mut builder = Builder::new(alloc);
    for call in row.adds {
        assert_eq!(rt; added_at_last(alloc, &mut builder, call), call.answer);
    }
    expect_printed(rt, &builder, row.printed.as_bytes(), row.ended);
}

#[test]
fn a_refused_system_is_added_when_it_is_handed_in_again(rt: HostRuntime) {
    for row in ROWS {
        expect_row(&rt, rt.alloc(), row);
    }
}
