//! Six systems of one stage each, by one asynchronous dispatch.

use crate::adds::{Adds, adds_to, count_of, zeros};
use crate::ended::{DONE, ended};
use shred::{DispatcherBuilder, Only};
use std::alloc::Global;
use std::test::Fail;

/// Each adds its number to count 0.
fn six_of(alloc: Global, workers: usize) -> Result<DispatcherBuilder<Only<i64>, Adds>, Fail> {
    let mut builder: DispatcherBuilder<Only<i64>, Adds> = DispatcherBuilder::new(alloc);
    builder.add_pool(workers);
    builder.add(adds_to(0, 0), "0", &[])?;
    builder.add(adds_to(0, 1), "1", &[])?;
    builder.add(adds_to(0, 2), "2", &[])?;
    builder.add(adds_to(0, 3), "3", &["1"])?;
    builder.add_barrier();
    builder.add(adds_to(0, 4), "4", &[])?;
    builder.add(adds_to(0, 5), "5", &["4"])?;
    Ok(builder)
}

#[test]
fn stages_async(rt: HostRuntime) -> Result<(), Fail> {
    for workers in [0, 1, 2, 8] {
        let builder = six_of(rt.alloc(), workers)?;
        let mut dispatcher = builder.build_async(zeros(rt.alloc(), 1)?);
        assert_eq!(rt; ended(dispatcher.dispatch(&rt)), DONE);
        assert_eq!(rt; ended(dispatcher.wait(&rt)), DONE);
        let count = match dispatcher.world(&rt) {
            Ok(world) => count_of(world, 0),
            Err(_) => None,
        };
        assert_eq!(rt; count, Some(15));
    }
    Ok(())
}
