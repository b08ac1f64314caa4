//! The program `rowan` over s-expressions: what its arguments ask for, and what it reads and writes.
#![tactic(auto)]

mod program;

pub use program::{Command, Stop, run};
