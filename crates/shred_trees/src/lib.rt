//! Trees of systems, whose parts run beside each other or one after the other.
#![tactic(auto)]

mod halves;
mod lists;
pub mod nil;
pub mod now;
pub mod par;
pub mod par_error;
pub mod par_seq;
mod place;
pub mod seq;
pub mod tree;
mod walk;

pub use nil::Nil;
pub use par::{Par, single};
pub use par_error::ParError;
pub use par_seq::ParSeq;
pub use seq::Seq;
pub use tree::{RunWithPool, Shape};
