//! The builder of dispatchers: names, refusals and the printed plan.

use crate::builder_rows::{Add, FIVE, FIVE_PRINTED, ROWS, Row};
use crate::calls::{built_with_names, expect_add, print_built};
use crate::planned_system::{OnlyPlanned, system_of};
use crate::stopping::{Stop, StoppingWriter};
use shred::{
    AddError, DispatchError, Dispatcher, DispatcherBuilder, Fault, PrintError, Rule, SystemId,
    SystemNames, ToWriter, Told,
};
use std::alloc::{AllocError, Global};
use std::process::Abort;
use std::test::Fail;
use test_calls::calls::text_of;
use test_calls::declared::PLAIN;
use test_values::Value;

type Builder = DispatcherBuilder<Value, OnlyPlanned>;

/// A builder after these calls.
fn built(rt: &impl Abort, alloc: Global, adds: &[Add]) -> Result<Builder, Fail> {
    let mut builder = Builder::default(alloc);
    for add in adds {
        let system = system_of(alloc, add.case)?;
        expect_add(
            rt,
            &mut builder,
            system,
            add.name,
            add.dependencies,
            add.answer,
        );
    }
    Ok(builder)
}

/// A writer that takes a byte a call and may stop has these bytes of the printed plan, and the printing ends so.
fn expect_printed(
    rt: &impl Abort,
    alloc: Global,
    builder: &Builder,
    stop: Option<(usize, Stop)>,
    bytes: &[u8],
    ended: Result<(), PrintError>,
) {
    let mut writer = StoppingWriter::new(alloc, stop);
    let mut sink = ToWriter::new(&mut writer);
    assert_eq!(rt; builder.print_par_seq(&mut sink), ended);
    drop(sink);
    assert_eq!(rt; writer.written(), bytes);
}

/// The dispatcher, with the names of its systems, prints what the row says.
fn expect_dispatcher_printed(
    rt: &impl Abort,
    alloc: Global,
    dispatcher: &Dispatcher<Value, OnlyPlanned>,
    names: &SystemNames,
    row: &Row,
) {
    let mut writer = StoppingWriter::new(alloc, None);
    let mut sink = ToWriter::new(&mut writer);
    assert_eq!(rt; print_built(dispatcher, &mut sink, names), row.ended);
    drop(sink);
    assert_eq!(rt; writer.written(), row.printed.as_bytes());
}

/// The dispatcher of the builder prints so too.
fn expect_built(rt: &impl Abort, alloc: Global, builder: Builder, row: &Row) {
    let (dispatcher, names) = built_with_names(builder);
    expect_dispatcher_printed(rt, alloc, &dispatcher, &names, row);
    assert_eq!(rt; dispatcher.max_threads(), row.threads);
}

#[test]
fn calls_are_answered_and_their_plan_is_printed(rt: HostRuntime) -> Result<(), Fail> {
    let alloc = rt.alloc();
    for row in ROWS {
        let builder = built(&rt, alloc, row.adds)?;
        expect_printed(
            &rt,
            alloc,
            &builder,
            None,
            row.printed.as_bytes(),
            row.ended,
        );
        expect_built(&rt, alloc, builder, row);
    }
    Ok(())
}

#[test]
fn a_dispatcher_has_the_names_of_its_builder(rt: HostRuntime) -> Result<(), Fail> {
    let (_, names) = built_with_names(built(&rt, rt.alloc(), FIVE)?);
    assert_eq!(rt; names.id_of("c"), Some(SystemId(2)));
    assert_eq!(rt; names.name_of(SystemId(0)), Some("a"));
    Ok(())
}

/// The text of the error, by these names.
fn told(
    alloc: Global,
    names: &SystemNames,
    error: &DispatchError<u8>,
) -> Result<String, AllocError> {
    text_of(alloc, &Told { names, error })
}

/// A refusal of the system of this id.
fn refused(id: usize) -> DispatchError<u8> {
    DispatchError::System {
        id: SystemId(id),
        fault: Fault::Refused(7),
    }
}

#[test]
fn an_error_is_told_by_the_name_of_its_system(rt: HostRuntime) -> Result<(), Fail> {
    let (_, names) = built_with_names(built(&rt, rt.alloc(), FIVE)?);
    let text = told(rt.alloc(), &names, &refused(2))?;
    assert_eq!(rt; text.as_str(), "system \"c\" refused: 7");
    let text = told(rt.alloc(), &names, &refused(5))?;
    assert_eq!(rt; text.as_str(), "system 5 refused: 7");
    let local = DispatchError::ThreadLocal {
        index: 1,
        fault: Fault::OutOfMemory,
    };
    let text = told(rt.alloc(), &names, &local)?;
    assert_eq!(rt; text.as_str(), "thread-local system 1: out of memory");
    Ok(())
}

#[test]
fn nothing_is_put_after_a_failure(rt: HostRuntime) -> Result<(), Fail> {
    let builder = built(&rt, rt.alloc(), FIVE)?;
    let text = FIVE_PRINTED.as_bytes();
    for place in 0..text.len() {
        let (beginning, _) = text.split_at(place);
        for stop in [Stop::TakesNothing, Stop::Fails, Stop::IsInterrupted] {
            let stop = Some((place, stop));
            let failed = Err(PrintError::Write);
            expect_printed(&rt, rt.alloc(), &builder, stop, beginning, failed);
        }
    }
    Ok(())
}

/// `with`, with a system that touches nothing.
fn with_plain(
    alloc: Global,
    builder: Builder,
    name: &str,
    dependencies: &[&str],
) -> Result<Builder, AddError> {
    match system_of(alloc, PLAIN) {
        Ok(system) => builder.with(system, name, dependencies),
        Err(_) => Err(AddError::OutOfMemory),
    }
}

#[test]
fn a_builder_is_handed_on(rt: HostRuntime) -> Result<(), Fail> {
    let alloc = rt.alloc();
    let builder = Builder::new(alloc).with_rule(Rule::Ordered)?;
    let builder = with_plain(alloc, builder, "a", &[])?;
    let builder = with_plain(alloc, builder.with_barrier(), "b", &["a"])?;
    let text =
        "seq![\n\tpar![\n\t\tseq![\n\t\t\ta,\n\t\t],\n\t],\n\tpar![\n\t\tseq![\n\t\t\tb,\n\t\t],\n\t],\n]\n\n";
    expect_printed(&rt, alloc, &builder, None, text.as_bytes(), Ok(()));
    let refused = with_plain(alloc, builder, "a", &[]);
    assert!(rt; matches!(&refused, Err(AddError::NameTaken)));
    Ok(())
}
