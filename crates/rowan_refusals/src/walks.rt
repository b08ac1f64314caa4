//! Walks, call by call, and clones of iterators.

use crate::moving::tell_each;
use crate::{refs, typed_refs};
use rowan::cursor::{SyntaxElement, SyntaxNode};
use rowan::{Direction, Fault, NodeOrToken};
use rowan_tool::sexp::Lang;
use rowan_transcript::{Stop, Transcript};

/// A call of a walk.
#[derive(Clone, Copy)]
pub enum WalkCall {
    Next,
    Skip,
}

/// A walk from a node by these calls. Then a clone of it goes on to its end, and then the walk
/// itself.
#[derive(Clone, Copy)]
pub enum Walk {
    /// Through nodes alone.
    Nodes(&'static [WalkCall]),
    WithTokens(&'static [WalkCall]),
}

impl Walk {
    /// Says what each call answers. A token has no walk.
    pub fn tell(self, log: &Transcript<'_>, from: &SyntaxElement) -> Result<(), Stop> {
        let NodeOrToken::Node(node) = from else {
            return Err(Stop::Refused(Fault::NotFound));
        };
        match self {
            Walk::Nodes(calls) => tell_preorder(log, node, calls)?,
            Walk::WithTokens(calls) => tell_preorder_with_tokens(log, node, calls)?,
        }
        refs::tell_walk(log, self, node.as_ref())
    }
}

fn tell_preorder(log: &Transcript<'_>, node: &SyntaxNode, calls: &[WalkCall]) -> Result<(), Stop> {
    let mut walk = node.preorder();
    log.tell("walk", &walk)?;
    for call in calls {
        match call {
            WalkCall::Next => log.tell("next", &walk.next())?,
            WalkCall::Skip => log.tell("skip_subtree", &walk.skip_subtree())?,
        }
    }
    tell_each(log, "clone", walk.clone()?)?;
    tell_each(log, "rest", walk)
}

fn tell_preorder_with_tokens(
    log: &Transcript<'_>,
    node: &SyntaxNode,
    calls: &[WalkCall],
) -> Result<(), Stop> {
    let mut walk = node.preorder_with_tokens();
    log.tell("walk", &walk)?;
    for call in calls {
        match call {
            WalkCall::Next => log.tell("next", &walk.next())?,
            WalkCall::Skip => log.tell("skip_subtree", &walk.skip_subtree())?,
        }
    }
    tell_each(log, "clone", walk.clone()?)?;
    tell_each(log, "rest", walk)
}

/// Says what a clone of each iterator at a node gives first.
pub fn tell_clones(log: &Transcript<'_>, node: &SyntaxNode) -> Result<(), Stop> {
    tell_clones_of_children(log, node)?;
    log.tell("ancestors", &node.ancestors().clone()?.next())?;
    tell_clones_of_siblings(log, node)?;
    tell_clones_of_descendants(log, node)?;
    tell_clones_of_walks(log, node)
}

fn tell_clones_of_children(log: &Transcript<'_>, node: &SyntaxNode) -> Result<(), Stop> {
    log.tell("children", &node.children().clone()?.next())?;
    log.tell(
        "children_with_tokens",
        &node.children_with_tokens().clone()?.next(),
    )
}

fn tell_clones_of_siblings(log: &Transcript<'_>, node: &SyntaxNode) -> Result<(), Stop> {
    log.tell("siblings", &node.siblings(Direction::Next).clone()?.next())?;
    log.tell(
        "siblings_with_tokens",
        &node.siblings_with_tokens(Direction::Next).clone()?.next(),
    )
}

fn tell_clones_of_descendants(log: &Transcript<'_>, node: &SyntaxNode) -> Result<(), Stop> {
    log.tell("descendants", &node.descendants().clone()?.next())?;
    log.tell(
        "descendants_with_tokens",
        &node.descendants_with_tokens().clone()?.next(),
    )
}

fn tell_clones_of_walks(log: &Transcript<'_>, node: &SyntaxNode) -> Result<(), Stop> {
    log.tell("preorder", &node.preorder().clone()?.next())?;
    log.tell(
        "preorder_with_tokens",
        &node.preorder_with_tokens().clone()?.next(),
    )
}

/// Says what the typed iterators at a node give, each to its end, and the walks after a skip behind
/// their second event.
pub fn tell_typed(log: &Transcript<'_>, node: &rowan::SyntaxNode<Lang>) -> Result<(), Stop> {
    tell_typed_around(log, node)?;
    tell_typed_below(log, node)?;
    tell_typed_walk(log, node)?;
    tell_typed_walk_with_tokens(log, node)?;
    typed_refs::tell_lists(log, node.as_ref())
}

fn tell_typed_around(log: &Transcript<'_>, node: &rowan::SyntaxNode<Lang>) -> Result<(), Stop> {
    tell_each(log, "child", node.children())?;
    tell_each(log, "child_with_tokens", node.children_with_tokens())?;
    tell_each(log, "ancestor", node.ancestors())?;
    tell_each(log, "sibling", node.siblings(Direction::Next))?;
    tell_each(
        log,
        "sibling_with_tokens",
        node.siblings_with_tokens(Direction::Next),
    )
}

fn tell_typed_below(log: &Transcript<'_>, node: &rowan::SyntaxNode<Lang>) -> Result<(), Stop> {
    tell_each(log, "descendant", node.descendants())?;
    tell_each(
        log,
        "descendant_with_tokens",
        node.descendants_with_tokens(),
    )
}

fn tell_typed_walk(log: &Transcript<'_>, node: &rowan::SyntaxNode<Lang>) -> Result<(), Stop> {
    let mut walk = node.preorder();
    log.tell("next", &walk.next())?;
    log.tell("next", &walk.next())?;
    walk.skip_subtree();
    tell_each(log, "rest", walk)
}

fn tell_typed_walk_with_tokens(
    log: &Transcript<'_>,
    node: &rowan::SyntaxNode<Lang>,
) -> Result<(), Stop> {
    let mut walk = node.preorder_with_tokens();
    log.tell("next", &walk.next())?;
    log.tell("next", &walk.next())?;
    walk.skip_subtree();
    tell_each(log, "rest", walk)
}
