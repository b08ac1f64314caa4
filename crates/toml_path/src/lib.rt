//! Paths to what stands in a document of TOML: a dotted key as TOML writes it, with `[N]` behind a
//! part for an element of an array. `servers[1]."x.y".port` is the `port` of the table `x.y` of the
//! second of the `servers`.
#![tactic(auto)]

mod parse;
mod path;

pub use path::{Path, PathError, PathFault, Step};
