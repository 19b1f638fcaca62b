//! Tests of thread-local systems, of setup and disposal, and of counts of workers.

mod bundle;
mod cases;
mod nested;
mod script;
mod workers;
