//! From a grammar to the source text of its language.
#![tactic(auto)]

mod accessors;
mod choices;
mod files;
mod kinds;
mod nodes;
mod parsers;
mod pieces;
mod sets;
mod signs;
mod specs;
mod structs;
mod texts;
mod tokens;
mod traits;
mod writer;

pub use files::{File, Source, WrittenRules, files_of};
