//! Grammars over `rowan_parser` whose functions say which nodes they make.
#![tactic(auto)]

pub mod kinds;
pub mod nested;
pub mod shapes;

pub use kinds::{Kind, Sums};
