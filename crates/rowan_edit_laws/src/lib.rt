//! Laws of edits, which say what edits mean together.
#![tactic(auto)]

pub mod laws;
