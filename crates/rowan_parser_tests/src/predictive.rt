//! Tests of parsers from grammars: lists, sums and JSON, their trees, their errors, and rules that
//! are no grammar.

mod json;
mod little;
mod refusals;
mod sums;
