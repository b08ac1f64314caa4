//! From a grammar of nodes to the kinds, wrappers and accessors of a language, as source text.
#![tactic(auto)]

mod checks;
mod conflicts;
mod kind_checks;
mod operators;
mod parser_checks;
mod rule_lines;
mod rules;
mod written;

pub use rowan_grammar_writer::File;
pub use written::{Summary, Written, check, generate};
