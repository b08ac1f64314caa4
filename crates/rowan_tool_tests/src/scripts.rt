//! Tests of scripts: whole runs of builder calls, with the builder's own cache and with one that
//! runs share; traces of steps through a tree, and sessions of both; and, with what is proved of
//! them, a small parser and pointers carried through traces.

pub mod arithmetic;
mod math;
pub mod nested_lists;
pub mod pointers;
mod report;
mod run;
mod sessions;
mod step;
mod traces;
mod word;
mod worked;
