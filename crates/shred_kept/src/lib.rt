//! Stages whose groups run beside each other on workers that are kept.
#![tactic(auto)]

mod crew;
mod cut;
mod groups;
mod inner;
mod lane;
mod lane_crew;
mod laying;
mod level;
mod rooms;
mod runner;
mod share;
mod stage_crew;
mod turn;

pub use lane::StageLane;
pub use stage_crew::StageCrew;
pub use turn::turn_kept;
