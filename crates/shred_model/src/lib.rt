//! The model of dispatching: definitions and their laws, and no code.
#![tactic(auto)]
