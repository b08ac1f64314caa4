//! Green values: immutable tokens and nodes, which know neither a place nor a parent, and are
//! shared.

mod children;
mod element;
mod node;
mod search;
mod short_text;
mod token;
mod token_data;
mod waiting;

pub use crate::steps::Steps;
pub use children::Children;
pub use element::{GreenElement, GreenElementRef};
#[doc(hidden)]
pub use node::{ChildBlock, GreenChild};
pub use node::{GreenNode, GreenNodeData};
pub use token::{GreenToken, GreenTokenData};
#[doc(hidden)]
pub use waiting::{FinishedElements, Interned};

/// The greatest number of bytes of a text.
pub const MAX_TEXT_LEN: usize = u32::MAX as usize;

/// The greatest number of children of a node.
pub(crate) const MAX_CHILDREN: usize = u32::MAX as usize;

/// The kind of a token or a node, as the number that a language gives it.
#[derive(Clone, Copy, PartialEq, Eq, PartialOrd, Ord, Hash, Debug)]
pub struct SyntaxKind(pub u16);
