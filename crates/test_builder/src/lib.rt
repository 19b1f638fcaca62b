//! Tests of the builders of stages and of dispatchers: what they answer, and the plans that they make and print.
#![tactic(auto)]

#[cfg(test)]
mod asked_once;
#[cfg(test)]
mod builder_rows;
#[cfg(test)]
mod builder_tests;
#[cfg(test)]
mod calls;
#[cfg(test)]
mod error_tests;
#[cfg(test)]
mod named_stages;
#[cfg(test)]
mod plan_rows;
#[cfg(test)]
mod planned_system;
#[cfg(test)]
mod planner_tests;
#[cfg(test)]
mod refusals;
#[cfg(test)]
mod stopping;
