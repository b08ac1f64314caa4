//! What a document of TOML means: what is wrong with it beyond its syntax, its values, and which
//! value a path leads to.
#![tactic(auto)]

mod reader;

pub use reader::{Reading, read, validate, values};
pub use toml_values::{
    ArrayRef, Form, Made, Problem, ProblemKind, TableRef, Value, ValueRef, Values, Version,
    push_quoted,
};
