//! The kinds of the resources that have something in common, and walks over what a world holds of them.
#![tactic(auto)]

pub mod meta;

pub use meta::{Common, MetaIter, MetaIterMut, MetaMut, MetaTable};
