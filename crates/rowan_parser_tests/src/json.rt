//! Tests of JSON: trees, errors and printed errors of worked texts, that no text is lost, and that
//! strict JSON is what `serde_json` takes.

mod drawn;
mod errors;
mod losses;
mod strict;
mod tokens;
mod trees;
