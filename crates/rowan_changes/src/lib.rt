//! What edits change in a tree and in its text: an edited tree, its changes, where its elements
//! stand, and the pass that makes it. `rowan_edit` gives all that callers use on.
#![tactic(auto)]

pub mod changes;
pub mod edit;
pub mod edit_error;
pub mod edit_sites;
mod edited;
pub mod open_node;
mod pointers;
pub mod refusal;
pub mod zipper;

pub use changes::{Change, Changes, Edited};
pub use edit_error::EditError;
pub use edit_sites::{EditSites, Placed};
pub use edited::TextEdit;
#[doc(hidden)]
pub use pointers::path_to;
pub use refusal::Refusal;
