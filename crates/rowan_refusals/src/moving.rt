//! Lists of what is around cursors, and how two of them are alike.
ghost use Rattle.std.specs.Iterator.{IsFinite};

use crate::refs;
use rowan::cursor::{ElementCalls, SyntaxElement, SyntaxNode, SyntaxToken};
use rowan::{Direction, Fault, NodeOrToken};
use rowan_transcript::{Stop, Transcript};
use std::fmt::Debug;
use std::hash::{DefaultHasher, Hash, Hasher};

/// A list of elements, in order.
#[derive(Clone, Copy)]
pub enum Listing {
    Children,
    ChildrenWithTokens,
    Ancestors,
    Siblings(Direction),
    SiblingsWithTokens(Direction),
    Descendants,
    DescendantsWithTokens,
}

impl Listing {
    /// Says which elements these are. An element that has no such call has none.
    pub fn tell(self, log: &Transcript<'_>, from: &SyntaxElement) -> Result<(), Stop> {
        match from {
            NodeOrToken::Node(node) => self.tell_at_node(log, node)?,
            NodeOrToken::Token(token) => self.tell_at_token(log, token)?,
        }
        refs::tell_list(log, self, from)
    }

    fn tell_at_node(self, log: &Transcript<'_>, node: &SyntaxNode) -> Result<(), Stop> {
        match self {
            Listing::Children => tell_each(log, "child", node.children()),
            Listing::ChildrenWithTokens => tell_each(log, "child", node.children_with_tokens()),
            Listing::Ancestors => tell_each(log, "ancestor", node.ancestors()),
            Listing::Siblings(direction) => tell_each(log, "sibling", node.siblings(direction)),
            Listing::SiblingsWithTokens(direction) => {
                tell_each(
                    log,
                    "sibling_with_tokens",
                    node.siblings_with_tokens(direction),
                )
            }
            Listing::Descendants => tell_each(log, "descendant", node.descendants()),
            Listing::DescendantsWithTokens => {
                tell_each(log, "descendant", node.descendants_with_tokens())
            }
        }
    }

    fn tell_at_token(self, log: &Transcript<'_>, token: &SyntaxToken) -> Result<(), Stop> {
        match self {
            Listing::Ancestors => tell_each(log, "ancestor", token.ancestors()),
            Listing::SiblingsWithTokens(direction) => {
                tell_each(
                    log,
                    "sibling_with_tokens",
                    token.siblings_with_tokens(direction),
                )
            }
            _ => Ok(()),
        }
    }
}

/// Says which items an iterator gives.
pub fn tell_each<T: Debug + Drop, I>(log: &Transcript<'_>, name: &str, items: I) -> Result<(), Stop>
where
    I: Iterator<Item = Result<T, Fault>> + Drop,
    requires can { I.can_next items }
    requires ends { IsFinite (I.remaining items) }
{
    for item in items {
        log.tell(name, &item)?;
    }
    Ok(())
}

/// The hash of a value.
pub fn hash_of<T: Hash>(value: &T) -> u64 {
    let mut hasher = DefaultHasher::new();
    value.hash(&mut hasher);
    hasher.finish()
}

/// Says how two elements are alike.
pub fn compare(
    log: &Transcript<'_>,
    one: &SyntaxElement,
    other: &SyntaxElement,
) -> Result<(), Stop> {
    log.tell("indexes", &(one.index(), other.index()))?;
    log.tell("equal", &(one == other))?;
    log.tell("hashed equally", &(hash_of(one) == hash_of(other)))?;
    refs::compare(log, one, other)
}
