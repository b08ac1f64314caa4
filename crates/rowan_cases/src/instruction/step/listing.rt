//! The lists of elements around a cursor.
ghost use Rattle.std.specs.Iterator.{IsFinite};

use crate::operand;
use anyhow::Result;
use rowan::cursor::{SyntaxElement, SyntaxNode, SyntaxToken};
use rowan::{Direction, Fault, NodeOrToken};
use std::alloc::Global;

/// A list of elements.
#[derive(Clone, Copy)]
pub enum Listing {
    Children,
    ChildrenWithTokens,
    Descendants,
    DescendantsWithTokens,
    Ancestors,
    Siblings(Direction),
    SiblingsWithTokens(Direction),
}

impl Listing {
    /// Reads what is to be listed. Nothing where the name is that of none.
    pub fn parse(name: &str, operands: &str) -> Result<Option<Listing>> {
        Ok(Some(match (name, operands) {
            ("Children", "") => Listing::Children,
            ("ChildrenWithTokens", "") => Listing::ChildrenWithTokens,
            ("Descendants", "") => Listing::Descendants,
            ("DescendantsWithTokens", "") => Listing::DescendantsWithTokens,
            ("Ancestors", "") => Listing::Ancestors,
            ("Siblings", _) => Listing::Siblings(operand::direction(operands)?),
            ("SiblingsWithTokens", _) => {
                Listing::SiblingsWithTokens(operand::direction(operands)?)
            }
            _ => return Ok(None),
        }))
    }

    /// The elements, in order. `None` where the cursor is at a token and tokens have no such call.
    pub fn make(
        self,
        alloc: Global,
        from: &SyntaxElement,
    ) -> Result<Option<Vec<SyntaxElement>>, Fault> {
        match from {
            NodeOrToken::Node(node) => Ok(Some(self.at_node(alloc, node)?)),
            NodeOrToken::Token(token) => self.at_token(alloc, token),
        }
    }

    fn at_node(self, alloc: Global, node: &SyntaxNode) -> Result<Vec<SyntaxElement>, Fault> {
        match self {
            Listing::Children => nodes(alloc, node.children()),
            Listing::ChildrenWithTokens => node.children_with_tokens().try_collect(alloc),
            Listing::Descendants => nodes(alloc, node.descendants()),
            Listing::DescendantsWithTokens => node.descendants_with_tokens().try_collect(alloc),
            Listing::Ancestors => nodes(alloc, node.ancestors()),
            Listing::Siblings(direction) => nodes(alloc, node.siblings(direction)),
            Listing::SiblingsWithTokens(direction) => {
                node.siblings_with_tokens(direction).try_collect(alloc)
            }
        }
    }

    fn at_token(
        self,
        alloc: Global,
        token: &SyntaxToken,
    ) -> Result<Option<Vec<SyntaxElement>>, Fault> {
        match self {
            Listing::Ancestors => Ok(Some(nodes(alloc, token.ancestors())?)),
            Listing::SiblingsWithTokens(direction) => {
                Ok(Some(token.siblings_with_tokens(direction).try_collect(alloc)?))
            }
            _ => Ok(None),
        }
    }
}

/// Collects nodes as elements.
fn nodes<I>(alloc: Global, items: I) -> Result<Vec<SyntaxElement>, Fault>
where
    I: Iterator<Item = Result<SyntaxNode, Fault>> + Drop,
    requires can { I.can_next items }
    requires ends { IsFinite (I.remaining items) }
{
    let mut nodes = Vec::new(alloc);
    for node in items {
        nodes.push(NodeOrToken::Node(node?))?;
    }
    Ok(nodes)
}
