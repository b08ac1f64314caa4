//! Tests of green trees.

mod children;
mod depth;
mod drops;
mod edits;
mod equality;
mod faults;
pub mod fixture;
pub mod limits;
mod nodes;
mod search;
mod text;
mod tokens;
mod utility_types;
