//! Calls of worlds and views whose requests for memory may be refused. Each test passes where the answer is that of ample
//! memory, and where want of memory is told and all stands as it must.

mod bundles;
mod entries;
mod parts;

use std::process::Abort;

/// How a call ended.
#[derive(Clone, Copy, Debug, PartialEq)]
pub enum Ended {
    Ample,
    OutOfMemory,
    Wrong,
}

impl Ended {
    /// The answer that is wanted where this holds.
    fn ample_if(is_right: bool) -> Self {
        if is_right { Ended::Ample } else { Ended::Wrong }
    }

    /// Want of memory where this holds.
    fn refused_if(is_right: bool) -> Self {
        if is_right {
            Ended::OutOfMemory
        } else {
            Ended::Wrong
        }
    }
}

fn expect_right(rt: &impl Abort, ended: Ended) {
    assert!(rt; ended != Ended::Wrong);
}
