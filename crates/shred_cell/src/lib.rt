//! Cells whose values many may read or one may write, and a world whose values threads borrow, each from a cell of its own.
#![tactic(auto)]

mod bits;
pub mod cell;
pub mod fact;
pub mod shared;
pub mod word;

pub use fact::{Anything, Fact};
pub use shared::{CellRef, OfKind, SharedError, SharedFetch, SharedFetchMut, SharedWorld};
