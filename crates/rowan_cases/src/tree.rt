//! Trees as a case file writes them: a token is its kind and its text, `2"ab"`, and a node its kind
//! and its children in brackets, `7[2"ab" 5[] 3" "]`.
mod parse;
mod print;

pub use parse::{element, list, node, token};
pub use print::{push_element, push_node};
