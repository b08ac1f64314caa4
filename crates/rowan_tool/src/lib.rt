//! S-expressions over `rowan`.
#![tactic(auto)]

pub mod sexp;
