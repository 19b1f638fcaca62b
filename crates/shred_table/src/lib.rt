//! Resources, their ids, and tables of slots for them, between which values move.
#![tactic(auto)]

pub mod accessor;
pub mod hands;
mod held;
mod hints;
pub mod id;
mod listed;
pub mod only;
pub mod parting;
pub mod resource;
pub mod steps;
pub mod table;
pub mod twin;
pub mod util;

pub use accessor::{Accessor, BatchAccessor, OutOfMemory};
pub use id::{Kind, ResourceId};
pub use only::{Only, only_id};
pub use resource::{Resource, ResourceValue};
pub use steps::Steps;
pub use table::{Slot, Table};
pub use twin::Twin;
pub use util::check_intersection;
