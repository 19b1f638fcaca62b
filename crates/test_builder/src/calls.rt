//! Calls of the library, each for every type of system.

use shred::{
    AddError, Dispatcher, DispatcherBuilder, PlanSink, PrintError, System, SystemId, SystemNames,
};
use std::process::Abort;
use test_values::Value;

pub(crate) fn add<S: System<Value> + Drop>(
    builder: &mut DispatcherBuilder<Value, S>,
    system: S,
    name: &str,
    dependencies: &[&str],
) -> Result<SystemId, AddError> {
    builder.add(system, name, dependencies)
}

/// The builder answers so to `add`.
pub(crate) fn expect_add<S: System<Value> + Drop>(
    rt: &impl Abort,
    builder: &mut DispatcherBuilder<Value, S>,
    system: S,
    name: &str,
    dependencies: &[&str],
    answer: Result<SystemId, AddError>,
) {
    assert_eq!(rt; add(builder, system, name, dependencies), answer);
}

pub(crate) fn built_with_names<S: System<Value> + Drop>(
    builder: DispatcherBuilder<Value, S>,
) -> (Dispatcher<Value, S>, SystemNames) {
    builder.build_with_names()
}

pub(crate) fn print_built<S: System<Value>, W: PlanSink>(
    dispatcher: &Dispatcher<Value, S>,
    sink: &mut W,
    names: &SystemNames,
) -> Result<(), PrintError> {
    dispatcher.print_par_seq(sink, names)
}
