//! Green trees: immutable tokens and nodes that keep every byte of a source text.
#![tactic(auto)]

pub mod fault;
pub mod green;
pub mod link;
pub mod steps;
pub mod text;
pub mod utility_types;

pub use fault::Fault;
pub use green::{
    Children, GreenElement, GreenElementRef, GreenNode, GreenNodeData, GreenToken, GreenTokenData,
    SyntaxKind,
};
pub use steps::Steps;
pub use text::{TextLen, TextRange, TextSize};
pub use utility_types::{Direction, NodeOrToken, TokenAtOffset, WalkEvent};
