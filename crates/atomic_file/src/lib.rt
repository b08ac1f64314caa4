//! Files that are replaced whole or not at all.
#![tactic(auto)]

#[cfg(test)]
mod failing;
mod replacing;

pub use replacing::replace;
