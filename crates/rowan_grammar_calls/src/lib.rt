//! What follows from a grammar: the calls of its nodes, what its choices lead to, and its traits.
#![tactic(auto)]

pub mod alike;
pub mod calls;
pub mod places;
pub mod reach;
pub mod rings;
pub mod roles;
pub mod shared;
