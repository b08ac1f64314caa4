//! S-expressions over `rowan`. `rowan_tool` gives all of this on.
#![tactic(auto)]

pub mod sexp;
