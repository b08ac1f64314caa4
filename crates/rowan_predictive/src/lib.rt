//! Parsers from grammars that are data: each text has a tree, and where the tokens derive from the
//! grammar it is the tree of the derivation.
#![tactic(auto)]

mod arranging;
mod choice;
pub mod conflicts;
mod costs;
mod finding;
pub mod grammars;
mod kinds;
pub mod laws;
mod machine;
mod making;
mod messages;
mod operators;
pub mod parsing;
pub mod refusals;
pub mod rules;
pub mod running;
mod testing;
mod waiting;

pub use conflicts::conflicts_of;
pub use grammars::Grammar;
pub use operators::{Operators, operators_at};
pub use parsing::Start;
pub use refusals::GrammarError;
pub use rules::{Action, Complaint, Rule};
pub use running::Outcome;
