//! Tests of dispatches, of thread-local systems, setup and disposal, and of systems that name their data by its types.
#![tactic(auto)]

#[cfg(test)]
mod asking;
#[cfg(test)]
mod calls;
#[cfg(test)]
mod gate;
#[cfg(test)]
mod lists;
#[cfg(test)]
mod locals;
#[cfg(test)]
mod typed;
