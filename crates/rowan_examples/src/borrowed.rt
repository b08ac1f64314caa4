//! Nodes, tokens and elements that are borrowed from their tree: loops and closures with no `?`.
ghost use Rattle.std.specs.Prelude.{◌≡◌, IfOk, map};
ghost use Rattle.std.specs.Option.{option_map, option_and_then};
ghost use Rattle.rowan.specs.Moves.{children, parent};
ghost use Rattle.rowan.specs.Refs.{node_place};

use crate::kinds::{Kind, Lists};
use rowan::laws::cursor::children_are_smaller;
use rowan::{
    Fault, NodeOrToken, SyntaxElementRef, SyntaxNode, SyntaxNodeRef, SyntaxTokenRef, WalkEvent,
};
use std::alloc::{AllocError, Global};

/// A node and its parent.
#[derive(Clone, Copy)]
pub struct Place<'tree> {
    pub node: SyntaxNodeRef<'tree, Lists>,
    pub parent: Option<SyntaxNodeRef<'tree, Lists>>,
}

/// The place of a node.
pub fn locate<'tree>(node: SyntaxNodeRef<'tree, Lists>) -> Place<'tree>
    ensures { option_map node_place result.parent ≡ parent (node_place node.entry) }
{
    Place {
        node,
        parent: node.parent(),
    }
}

/// The parent of the parent.
pub fn grandparent<'tree>(node: SyntaxNodeRef<'tree, Lists>) -> Option<SyntaxNodeRef<'tree, Lists>>
    ensures { option_map node_place result
        ≡ option_and_then parent (parent (node_place node.entry)) }
{
    node.parent()?.parent()
}

/// Whether a list in a list has a list.
pub fn is_nested_twice(node: SyntaxNodeRef<'_, Lists>) -> bool {
    for list in node.children() {
        for inner in list.children() {
            if inner.kind() == Kind::List && inner.parent() == Some(list) {
                return true;
            }
        }
    }
    false
}

/// The first child of a kind.
pub fn first_of<'tree>(
    node: SyntaxNodeRef<'tree, Lists>,
    wanted: Kind,
) -> Option<SyntaxNodeRef<'tree, Lists>> {
    node.children().find(|child| child.kind() == wanted)
}

/// Whether a node below is of a kind.
pub fn has(node: SyntaxNodeRef<'_, Lists>, wanted: Kind) -> bool {
    node.descendants().any(|below| below.kind() == wanted)
}

/// The first token of the first list below a node.
pub fn start_of_first_list<'tree>(
    node: SyntaxNodeRef<'tree, Lists>,
) -> Option<SyntaxTokenRef<'tree, Lists>> {
    node.descendants().find_map(|below| match below.kind() {
        Kind::List => below.first_token(),
        _ => None,
    })
}

/// The children that are nodes.
pub fn stored<'tree>(
    alloc: Global,
    node: SyntaxNodeRef<'tree, Lists>,
) -> Result<Vec<SyntaxNodeRef<'tree, Lists>>, AllocError>
    ensures { IfOk result (λ found.
        map node_place found.items ≡ children (node_place node.entry)) }
{
    node.children().collect(alloc)
}

/// The children that are tokens.
pub fn tokens<'tree>(
    alloc: Global,
    node: SyntaxNodeRef<'tree, Lists>,
) -> Result<Vec<SyntaxTokenRef<'tree, Lists>>, AllocError> {
    node.children_with_tokens()
        .filter_map(|element| match element {
            NodeOrToken::Node(_) => None,
            NodeOrToken::Token(token) => Some(token),
        })
        .collect(alloc)
}

/// The text of the first word, which lives as long as the tree.
pub fn first_word<'tree>(node: SyntaxNodeRef<'tree, Lists>) -> Option<&'tree str> {
    for element in node.children_with_tokens() {
        if let NodeOrToken::Token(token) = element {
            return Some(token.text());
        }
    }
    None
}

/// The kind of an element, whatever it is.
pub fn kind(element: SyntaxElementRef<'_, Lists>) -> Kind {
    match element {
        NodeOrToken::Node(node) => node.kind(),
        NodeOrToken::Token(token) => token.kind(),
    }
}

/// How many nodes lie one in the other where a walk enters the first word.
pub fn depth_of_first_word(node: SyntaxNodeRef<'_, Lists>) -> usize {
    let mut depth = 0usize;
    for event in node.preorder_with_tokens() {
        match event {
            WalkEvent::Enter(NodeOrToken::Node(_)) => depth = depth.saturating_add(1),
            WalkEvent::Leave(NodeOrToken::Node(_)) => depth = depth.saturating_sub(1),
            WalkEvent::Enter(NodeOrToken::Token(_)) => return depth,
            WalkEvent::Leave(NodeOrToken::Token(_)) => {}
        }
    }
    depth
}

/// Whether a node is of a kind, or one below it.
pub fn is_or_has(node: SyntaxNodeRef<'_, Lists>, wanted: Kind) -> bool {
    children_are_smaller();
    if node.kind() == wanted {
        return true;
    }
    for child in node.children() {
        if is_or_has(child, wanted) {
            return true;
        }
    }
    false
}

/// The parent of a node, by a borrowed node.
pub fn parent_of(node: &SyntaxNode<Lists>) -> Result<Option<SyntaxNode<Lists>>, Fault>
    ensures { IfOk result (λ found. found ≡ parent node.now) }
{
    match node.as_ref().parent() {
        Some(parent) => Ok(Some(parent.to_owned()?)),
        None => Ok(None),
    }
}
