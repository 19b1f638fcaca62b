//! An entity store whose rules are the systems of a dispatcher.
#![tactic(auto)]

mod ahead;
mod entities;
mod entity;
mod error;
mod joined;
mod planning;
mod rows;
mod rule;
mod rule_system;
mod store;
mod table_rule;
mod tables;
mod values;

pub use entity::Entity;
pub use error::{StoreError, TickError};
pub use joined::Joined;
pub use planning::{KeptRules, RuleDispatcher, RunsRules};
pub use rows::Rows;
pub use rule::{Overflow, StoreRule};
pub use store::{KeptStore, RuleStore, Store, StoreOver};
pub use table_rule::TableRule;
pub use values::Values;
