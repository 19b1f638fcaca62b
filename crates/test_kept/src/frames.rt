//! A game whose frames run on threads that are started once.

use crate::moves::Moves;
use shred::{
    AddError, DEFAULT_LOOKS, Dispatcher, DispatcherBuilder, Only, OutOfMemory, Plain, World,
};
use std::alloc::Global;
use std::sync::Wait;
use std::thread::Threads;

/// A frame of four players, on four threads.
pub fn frame(alloc: Global) -> Result<Dispatcher<Only<i64>, Plain<Moves>>, AddError> {
    let mut builder: DispatcherBuilder<Only<i64>, Plain<Moves>> = DispatcherBuilder::new(alloc);
    for player in 0..4 {
        builder.add(Plain(Moves { player }), "", &[])?;
    }
    Ok(builder.with_pool(4).build())
}

/// Plays so many frames in a world that holds the players' places.
pub fn play<R: AllocGlobal + Threads + Wait + Clone + Drop + Send + Sync + 'static>(
    rt: &R,
    world: &mut World<Only<i64>>,
    frames: u32,
) -> anyhow::Result<()> {
    let frame = frame(rt.alloc())?;
    let Ok(mut frame) = frame.keep(rt, rt.alloc(), DEFAULT_LOOKS) else {
        return Err(OutOfMemory.into());
    };
    for _ in 0..frames {
        frame.dispatch(rt, world)?;
    }
    Ok(())
}
