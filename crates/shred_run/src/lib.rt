//! What runs: systems, batches of them, and groups of these, one after the other or beside each other on threads.
#![tactic(auto)]

pub mod alone;
pub mod beside;
pub mod calls;
pub mod control;
pub mod controller;
pub mod depth;
pub mod dispose;
pub mod entry;
pub mod first;
pub mod fork;
pub mod hands;
pub mod in_order;
pub mod kept_entries;
pub mod loan;
pub mod multi;
pub mod no_batch;
pub mod now;
pub mod one_batch;
pub mod run_now;
pub mod setup;
pub mod sorted;
pub mod system;
pub mod work;

pub use controller::BatchController;
pub use entry::{StageFault, SystemId};
pub use multi::{MultiDispatchController, MultiDispatcher};
pub use no_batch::NoBatch;
pub use now::Now;
pub use run_now::RunNow;
pub use system::{Fault, RunningTime, System};
pub use work::{Batch, Nested, Tier, Work};
