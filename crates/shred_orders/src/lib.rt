//! What follows of a dispatch: in which orders its records lead where it led, and when it has one end.
#![tactic(auto)]

mod dispatch;

pub use dispatch::{dispatch_alike, dispatch_interleaved};
