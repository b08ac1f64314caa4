//! The values of a document of TOML: the tables that headers and dotted keys make, and the value to
//! which a path leads.
#![tactic(auto)]

mod find;
mod json;
mod keys;
mod problem;
mod scalars;
mod strings;
mod tables;
mod value;

pub use json::{Form, push_quoted};
pub use keys::{KeyPart, Target, Way};
pub use problem::{Problem, ProblemKind, Version};
pub use scalars::Shape;
pub use strings::Token;
pub use tables::Tables;
pub use value::{ArrayRef, Item, Key, Made, Origin, Slot, TableRef, Value, ValueRef, Values};
