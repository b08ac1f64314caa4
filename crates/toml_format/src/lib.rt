//! A formatter of TOML, which moves white space alone. What it answers parses to the same tree but
//! for white space and line ends: its contract says so, for every text.
#![tactic(auto)]

mod brackets;
mod error;
mod formatting;
mod layout;
mod measure;
pub mod skeleton;
mod style;

pub use error::FormatError;
pub use formatting::{format, formatted};
pub use skeleton::has_skeleton_of;
pub use style::Style;
