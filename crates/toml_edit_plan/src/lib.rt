//! Edits of documents of TOML as splices of trees: new nodes that are parsed from texts, the places of
//! values, and what an edit of a list, a table or a comment puts in and takes away.
#![tactic(auto)]

mod additions;
mod comments;
mod counts;
mod error;
mod lines;
mod lists;
mod maker;
mod places;
mod runs;
mod splice;
mod written;

pub use additions::{Place, added};
pub use comments::{Side, comment_splices, comments_of};
pub use error::{Cause, TomlEditError};
pub use lists::dropped;
pub use maker::Maker;
pub use places::{Node, key_part_at, line_end_of, owner_at, section_at, value_at};
pub use splice::{Splice, made};
pub use written::{NewValue, key_text, value_text};
