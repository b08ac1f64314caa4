//! Edits of documents of TOML that keep what they don't name: each byte, each comment, and how arrays
//! and tables are laid out.
#![tactic(auto)]

mod adding;
mod batch;
mod document;
mod edit;
mod removing;
mod replacing;
mod ways;

pub use document::Document;
pub use edit::Edit;
pub use rowan_edit::{Change, Changes, Edited};
pub use toml_edit_plan::{Cause, Maker, NewValue, Side, TomlEditError};
