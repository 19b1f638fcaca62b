//! From a script to what is shown of its plan: as a Graphviz digraph, as an SVG picture, or by the pairs of entries whose order
//! the planner chose, which are those that conflict, with no path of dependencies from one to the other; and a report of what
//! its stages take by the declared times.
#![tactic(auto)]

mod attempts;
mod build;
mod chips;
mod choices;
mod claims;
mod conflicts;
mod declaration;
mod declarations;
mod dependence;
mod digraph;
mod engine;
mod entry_box;
mod flow;
mod lanes;
mod legend;
mod level;
mod picture;
mod plans;
mod report;
mod shared;
mod shorter;
mod stages;
mod times;
mod times_text;
mod touched;
mod wanted;
mod without;

pub use engine::run;
pub use wanted::Wanted;
