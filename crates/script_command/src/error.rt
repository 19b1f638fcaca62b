//! What ends a demo.
use shredstore::{StoreError, TickError};
use std::io;
use thiserror::Error;

/// What ended a demo.
#[derive(Debug, Drop, Error)]
pub(crate) enum DemoError {
    #[error(transparent)]
    Store(#[from] StoreError),
    #[error(transparent)]
    Tick(#[from] TickError),
    #[error(transparent)]
    Output(#[from] io::Error),
}
