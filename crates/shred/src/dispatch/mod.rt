//! Builders of plans, and dispatchers that run them.

pub mod async_dispatcher;
pub mod async_error;
mod async_place;
mod async_run;
pub mod async_world;
pub mod builder;
pub mod dispatcher;
pub mod kept_dispatcher;
pub mod names;
pub mod told;
