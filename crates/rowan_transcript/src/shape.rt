//! How trees are shown, without memory.

use rowan::{GreenNode, NodeOrToken};
use std::fmt;

/// A green tree with all that is in it: a node as its kind and its children in brackets, a token as
/// its kind and text.
#[derive(Clone, Copy)]
pub struct Shape<'a>(pub &'a GreenNode);

impl fmt::Debug for Shape<'_> {
    fn fmt<W: fmt::Write>(&self, f: &mut fmt::Formatter<W>) -> fmt::Result {
        write_node(f, self.0)
    }
}

fn write_node<W: fmt::Write>(f: &mut fmt::Formatter<W>, node: &GreenNode) -> fmt::Result {
    write!(f, "{}[", node.kind().0)?;
    for index in 0..node.children().len() {
        let Some((_, child)) = node.child_ref(index) else {
            return Ok(());
        };
        match child {
            NodeOrToken::Node(node) => write_node(f, node)?,
            NodeOrToken::Token(token) => write!(f, "{}{:?}", token.kind().0, token.text())?,
        }
    }
    f.write_str("]")
}
