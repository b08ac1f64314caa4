//! The calls of borrowed cursors, none of which asks for memory.
ghost use Rattle.std.specs.Iterator.{IsFinite};

use crate::moving::{Listing, hash_of};
use crate::searches::{Search, range};
use crate::walks::{Walk, WalkCall};
use rowan::cursor::{SyntaxElement, SyntaxElementRef, SyntaxNodeRef, SyntaxTokenRef};
use rowan::{NodeOrToken, Steps, TextSize};
use rowan_moves::{Move, raw_refs};
use rowan_transcript::{Stop, Transcript};
use std::fmt::Debug;

/// The element, borrowed from its tree.
pub fn borrowed(element: &SyntaxElement) -> SyntaxElementRef<'_> {
    match element {
        NodeOrToken::Node(node) => NodeOrToken::Node(node.as_ref()),
        NodeOrToken::Token(token) => NodeOrToken::Token(token.as_ref()),
    }
}

/// Says where a move leads.
pub fn tell_move(log: &Transcript<'_>, way: Move, from: &SyntaxElement) -> Result<(), Stop> {
    log.tell("by ref", &raw_refs::target(way, borrowed(from)))
}

/// Says what is at a path of indexes of children, from a node.
pub fn tell_element_at(
    log: &Transcript<'_>,
    from: SyntaxNodeRef<'_>,
    path: &[usize],
) -> Result<(), Stop> {
    log.tell("by ref", &element_at(from, path))
}

fn element_at<'t>(node: SyntaxNodeRef<'t>, path: &[usize]) -> Option<SyntaxElementRef<'t>> {
    let mut here = NodeOrToken::Node(node);
    for index in path {
        here = match here {
            NodeOrToken::Node(parent) => parent.child_or_token_at_index(*index)?,
            NodeOrToken::Token(_) => return None,
        };
    }
    Some(here)
}

/// Says which elements a list has.
pub fn tell_list(log: &Transcript<'_>, listing: Listing, from: &SyntaxElement) -> Result<(), Stop> {
    match borrowed(from) {
        NodeOrToken::Node(node) => tell_list_of_node(log, listing, node),
        NodeOrToken::Token(token) => tell_list_of_token(log, listing, token),
    }
}

fn tell_list_of_node(
    log: &Transcript<'_>,
    listing: Listing,
    node: SyntaxNodeRef<'_>,
) -> Result<(), Stop> {
    match listing {
        Listing::Children => tell_children(log, node),
        Listing::ChildrenWithTokens => tell_all(log, node.children_with_tokens()),
        Listing::Ancestors => tell_all(log, node.ancestors()),
        Listing::Siblings(way) => tell_all(log, node.siblings(way)),
        Listing::SiblingsWithTokens(way) => tell_all(log, node.siblings_with_tokens(way)),
        Listing::Descendants => tell_all(log, node.descendants()),
        Listing::DescendantsWithTokens => tell_all(log, node.descendants_with_tokens()),
    }
}

fn tell_list_of_token(
    log: &Transcript<'_>,
    listing: Listing,
    token: SyntaxTokenRef<'_>,
) -> Result<(), Stop> {
    match listing {
        Listing::Ancestors => tell_all(log, token.ancestors()),
        Listing::SiblingsWithTokens(way) => tell_all(log, token.siblings_with_tokens(way)),
        _ => Ok(()),
    }
}

/// Says which nodes are children, which children and siblings are of the kind of the node, and
/// which child is a token of the kind of the first token.
fn tell_children(log: &Transcript<'_>, node: SyntaxNodeRef<'_>) -> Result<(), Stop> {
    let kind = node.kind();
    tell_all(log, node.children())?;
    tell_all(log, node.children().by_kind(kind))?;
    log.tell("by ref", &node.first_child_by_kind(kind))?;
    log.tell("by ref", &node.next_sibling_by_kind(kind))?;
    log.tell("by ref", &node.to_owned()?)?;
    match node.first_token() {
        Some(token) => log.tell("by ref", &node.first_token_of_kind(token.kind())),
        None => Ok(()),
    }
}

/// Says which items an iterator gives.
pub fn tell_all<T: Debug + Drop, I>(log: &Transcript<'_>, items: I) -> Result<(), Stop>
where
    I: Iterator<Item = T> + Drop,
    requires can { I.can_next items }
    requires ends { IsFinite (I.remaining items) }
{
    for item in items {
        log.tell("by ref", &item)?;
    }
    Ok(())
}

/// Says what the calls of a walk answer, and then its rest.
pub fn tell_walk(log: &Transcript<'_>, walk: Walk, node: SyntaxNodeRef<'_>) -> Result<(), Stop> {
    match walk {
        Walk::Nodes(calls) => tell_preorder(log, node, calls),
        Walk::WithTokens(calls) => tell_preorder_with_tokens(log, node, calls),
    }
}

fn tell_preorder(
    log: &Transcript<'_>,
    node: SyntaxNodeRef<'_>,
    calls: &[WalkCall],
) -> Result<(), Stop> {
    let mut walk = node.preorder();
    for call in calls {
        match call {
            WalkCall::Next => log.tell("by ref", &walk.next())?,
            WalkCall::Skip => walk.skip_subtree(),
        }
    }
    tell_all(log, walk)
}

fn tell_preorder_with_tokens(
    log: &Transcript<'_>,
    node: SyntaxNodeRef<'_>,
    calls: &[WalkCall],
) -> Result<(), Stop> {
    let mut walk = node.preorder_with_tokens();
    for call in calls {
        match call {
            WalkCall::Next => log.tell("by ref", &walk.next())?,
            WalkCall::Skip => walk.skip_subtree(),
        }
    }
    tell_all(log, walk)
}

/// Says what a search finds.
pub fn tell_search(
    log: &Transcript<'_>,
    search: Search,
    node: SyntaxNodeRef<'_>,
) -> Result<(), Stop> {
    match search {
        Search::ChildAt(start, end) => {
            let range = range(start, end)?;
            let mut steps = Steps::new();
            let found = node.child_or_token_at_range_counted(range, &mut steps);
            log.tell("by ref", &(found, steps.comparisons()))
        }
        Search::Covering(start, end) => {
            let range = range(start, end)?;
            if !node.text_range().contains_range(range) {
                return Ok(());
            }
            log.tell("by ref", &node.covering_element(range))
        }
        Search::TokensAt(offset) => {
            let offset = TextSize::from(offset);
            if !node.text_range().contains_inclusive(offset) {
                return Ok(());
            }
            log.tell("by ref", &node.token_at_offset(offset))
        }
    }
}

/// Says how two elements are alike.
pub fn compare(
    log: &Transcript<'_>,
    one: &SyntaxElement,
    other: &SyntaxElement,
) -> Result<(), Stop> {
    let (one, other) = (borrowed(one), borrowed(other));
    log.tell("by ref, equal", &(one == other))?;
    log.tell(
        "by ref, hashed equally",
        &(hash_of(&one) == hash_of(&other)),
    )
}
