//! Lists and walks by borrowed cursors.
ghost use Rattle.std.specs.Iterator.{IsFinite};

use super::written;
use crate::instruction::{Listing, Walk, WalkCall};
use rowan::cursor::{ElementRefCalls, SyntaxElementRef, SyntaxNodeRef};
use rowan::{NodeOrToken, WalkEvent};
use std::alloc::{AllocError, Global};

/// Lists elements.
pub fn list(
    alloc: Global,
    from: SyntaxElementRef<'_>,
    listing: Listing,
) -> Result<String, AllocError> {
    match (from, listing) {
        (_, Listing::Ancestors) => nodes(alloc, from.ancestors()),
        (NodeOrToken::Node(node), _) => at_node(alloc, node, listing),
        (NodeOrToken::Token(token), Listing::SiblingsWithTokens(direction)) => {
            elements(alloc, token.siblings_with_tokens(direction))
        }
        (NodeOrToken::Token(_), _) => written::nowhere(alloc),
    }
}

fn at_node(alloc: Global, node: SyntaxNodeRef<'_>, listing: Listing) -> Result<String, AllocError> {
    match listing {
        Listing::Children => nodes(alloc, node.children()),
        Listing::ChildrenWithTokens => elements(alloc, node.children_with_tokens()),
        Listing::Descendants => nodes(alloc, node.descendants()),
        Listing::DescendantsWithTokens => elements(alloc, node.descendants_with_tokens()),
        Listing::Ancestors => nodes(alloc, node.ancestors()),
        Listing::Siblings(direction) => nodes(alloc, node.siblings(direction)),
        Listing::SiblingsWithTokens(direction) => {
            elements(alloc, node.siblings_with_tokens(direction))
        }
    }
}

fn nodes<'t, I>(alloc: Global, items: I) -> Result<String, AllocError>
where
    I: Iterator<Item = SyntaxNodeRef<'t>> + Drop,
    requires can { I.can_next items }
    requires ends { IsFinite (I.remaining items) }
{
    let mut text = String::from_str(alloc, "List")?;
    for node in items {
        written::push(alloc, &mut text, "; ", NodeOrToken::Node(node))?;
    }
    Ok(text)
}

fn elements<'t, I>(alloc: Global, items: I) -> Result<String, AllocError>
where
    I: Iterator<Item = SyntaxElementRef<'t>> + Drop,
    requires can { I.can_next items }
    requires ends { IsFinite (I.remaining items) }
{
    let mut text = String::from_str(alloc, "List")?;
    for element in items {
        written::push(alloc, &mut text, "; ", element)?;
    }
    Ok(text)
}

/// Walks through a node.
pub fn walk(alloc: Global, from: SyntaxElementRef<'_>, walk: &Walk) -> Result<String, AllocError> {
    match from {
        NodeOrToken::Node(node) => match walk {
            Walk::Nodes(calls) => node_events(alloc, node, calls.as_slice()),
            Walk::WithTokens(calls) => events(alloc, node, calls.as_slice()),
        },
        NodeOrToken::Token(_) => written::nowhere(alloc),
    }
}

fn node_events(
    alloc: Global,
    node: SyntaxNodeRef<'_>,
    calls: &[WalkCall],
) -> Result<String, AllocError> {
    let mut text = String::from_str(alloc, "Events")?;
    let mut walk = node.preorder();
    for call in calls {
        match call {
            WalkCall::Next => push_node_event(alloc, &mut text, walk.next())?,
            WalkCall::SkipSubtree => walk.skip_subtree(),
        }
    }
    for event in walk {
        push_node_event(alloc, &mut text, Some(event))?;
    }
    push_node_event(alloc, &mut text, None)?;
    Ok(text)
}

fn events(
    alloc: Global,
    node: SyntaxNodeRef<'_>,
    calls: &[WalkCall],
) -> Result<String, AllocError> {
    let mut text = String::from_str(alloc, "Events")?;
    let mut walk = node.preorder_with_tokens();
    for call in calls {
        match call {
            WalkCall::Next => push_event(alloc, &mut text, walk.next())?,
            WalkCall::SkipSubtree => walk.skip_subtree(),
        }
    }
    for event in walk {
        push_event(alloc, &mut text, Some(event))?;
    }
    push_event(alloc, &mut text, None)?;
    Ok(text)
}

fn push_node_event(
    alloc: Global,
    text: &mut String,
    event: Option<WalkEvent<SyntaxNodeRef<'_>>>,
) -> Result<(), AllocError> {
    match event {
        Some(WalkEvent::Enter(node)) => {
            written::push(alloc, text, "; enter ", NodeOrToken::Node(node))
        }
        Some(WalkEvent::Leave(node)) => {
            written::push(alloc, text, "; leave ", NodeOrToken::Node(node))
        }
        None => text.push_str("; end"),
    }
}

fn push_event(
    alloc: Global,
    text: &mut String,
    event: Option<WalkEvent<SyntaxElementRef<'_>>>,
) -> Result<(), AllocError> {
    match event {
        Some(WalkEvent::Enter(element)) => written::push(alloc, text, "; enter ", element),
        Some(WalkEvent::Leave(element)) => written::push(alloc, text, "; leave ", element),
        None => text.push_str("; end"),
    }
}
