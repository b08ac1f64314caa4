//! Edits of syntax trees, and a cursor that costs no table.
#![tactic(auto)]

mod arranging_editor;
pub mod as_element;
pub mod editor;
pub mod green_editor;
pub mod into_elements;
pub mod make;
pub mod pieces;
mod plain_edits;
pub mod position;
mod ranked;
pub mod syntax_editor;

pub use as_element::AsElement;
pub use editor::Editor;
pub use green_editor::GreenEditor;
pub use into_elements::IntoElements;
pub use make::Make;
pub use pieces::Piece;
pub use position::Position;
pub use rowan_changes::{
    Change, Changes, EditError, EditSites, Edited, Placed, Refusal, TextEdit, changes, edit_error,
    edit_sites, refusal,
};
pub use rowan_rewrite::{Rewrite, Rewritten, TokenAt, rewrite_tokens, rewriting};
pub use rowan_tree_cursor::{TreeCursor, tree_cursor};
pub use syntax_editor::SyntaxEditor;
