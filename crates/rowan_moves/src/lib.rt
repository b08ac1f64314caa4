//! The moves of cursors, each by a name: for programs and tests that make all of them, from owned
//! and borrowed cursors, raw and typed. A move that is new has its lines here, and they have it.
#![tactic(auto)]

use rowan::NodeOrToken;

/// A move from an element to another one.
#[derive(Clone, Copy)]
pub enum Move {
    TreeTop,
    Parent,
    FirstChild,
    LastChild,
    FirstChildOrToken,
    LastChildOrToken,
    NextSibling,
    PrevSibling,
    NextSiblingOrToken,
    PrevSiblingOrToken,
    FirstToken,
    LastToken,
    NextToken,
    PrevToken,
}

/// Each move once.
pub const MOVES: [Move; 14] = [
    Move::TreeTop,
    Move::Parent,
    Move::FirstChild,
    Move::LastChild,
    Move::FirstChildOrToken,
    Move::LastChildOrToken,
    Move::NextSibling,
    Move::PrevSibling,
    Move::NextSiblingOrToken,
    Move::PrevSiblingOrToken,
    Move::FirstToken,
    Move::LastToken,
    Move::NextToken,
    Move::PrevToken,
];

impl Move {
    /// The name of the call.
    pub fn name(self) -> &'static str {
        match self {
            Move::TreeTop => "tree_top",
            Move::Parent => "parent",
            Move::FirstChild => "first_child",
            Move::LastChild => "last_child",
            Move::FirstChildOrToken => "first_child_or_token",
            Move::LastChildOrToken => "last_child_or_token",
            Move::NextSibling => "next_sibling",
            Move::PrevSibling => "prev_sibling",
            Move::NextSiblingOrToken => "next_sibling_or_token",
            Move::PrevSiblingOrToken => "prev_sibling_or_token",
            Move::FirstToken => "first_token",
            Move::LastToken => "last_token",
            Move::NextToken => "next_token",
            Move::PrevToken => "prev_token",
        }
    }
}

/// A node that was found, as an element.
fn found_node<N: Drop, T: Drop>(found: Option<N>) -> Option<NodeOrToken<N, T>> {
    match found {
        Some(node) => Some(NodeOrToken::Node(node)),
        None => None,
    }
}

/// A token that was found, as an element.
fn found_token<N: Drop, T: Drop>(found: Option<T>) -> Option<NodeOrToken<N, T>> {
    match found {
        Some(token) => Some(NodeOrToken::Token(token)),
        None => None,
    }
}

/// Moves by the calls of raw cursors.
pub mod raw {
    use crate::{Move, found_node, found_token};
    use rowan::cursor::{ElementCalls, SyntaxElement, SyntaxNode, SyntaxToken};
    use rowan::{Fault, NodeOrToken};

    /// Where a move leads by the calls of the node or the token. It leads nowhere from one that has no
    /// such call.
    ///
    /// Errors: `Memory` where the count of the tree's owners is full.
    pub fn target(way: Move, from: &SyntaxElement) -> Result<Option<SyntaxElement>, Fault> {
        match from {
            NodeOrToken::Node(node) => at_node(way, node),
            NodeOrToken::Token(token) => at_token(way, token),
        }
    }

    fn at_node(way: Move, node: &SyntaxNode) -> Result<Option<SyntaxElement>, Fault> {
        match way {
            Move::TreeTop => Ok(Some(NodeOrToken::Node(node.tree_top()?))),
            Move::Parent => Ok(found_node(node.parent()?)),
            Move::FirstChild => Ok(found_node(node.first_child()?)),
            Move::LastChild => Ok(found_node(node.last_child()?)),
            Move::FirstChildOrToken => node.first_child_or_token(),
            Move::LastChildOrToken => node.last_child_or_token(),
            Move::NextSibling => Ok(found_node(node.next_sibling()?)),
            Move::PrevSibling => Ok(found_node(node.prev_sibling()?)),
            Move::NextSiblingOrToken => node.next_sibling_or_token(),
            Move::PrevSiblingOrToken => node.prev_sibling_or_token(),
            Move::FirstToken => Ok(found_token(node.first_token()?)),
            Move::LastToken => Ok(found_token(node.last_token()?)),
            Move::NextToken | Move::PrevToken => Ok(None),
        }
    }

    fn at_token(way: Move, token: &SyntaxToken) -> Result<Option<SyntaxElement>, Fault> {
        match way {
            Move::TreeTop => Ok(Some(NodeOrToken::Node(token.tree_top()?))),
            Move::Parent => Ok(found_node(token.parent()?)),
            Move::NextSiblingOrToken => token.next_sibling_or_token(),
            Move::PrevSiblingOrToken => token.prev_sibling_or_token(),
            Move::NextToken => Ok(found_token(token.next_token()?)),
            Move::PrevToken => Ok(found_token(token.prev_token()?)),
            _ => Ok(None),
        }
    }

    /// Where a move leads by the calls of elements. It leads nowhere where elements have no such call.
    ///
    /// Errors: `Memory` where the count of the tree's owners is full.
    pub fn target_of_element(
        way: Move,
        from: &SyntaxElement,
    ) -> Result<Option<SyntaxElement>, Fault> {
        match way {
            Move::TreeTop => Ok(Some(NodeOrToken::Node(ElementCalls::tree_top(from)?))),
            Move::Parent => Ok(found_node(ElementCalls::parent(from)?)),
            Move::FirstToken => Ok(found_token(from.first_token()?)),
            Move::LastToken => Ok(found_token(from.last_token()?)),
            Move::NextSiblingOrToken => ElementCalls::next_sibling_or_token(from),
            Move::PrevSiblingOrToken => ElementCalls::prev_sibling_or_token(from),
            _ => Ok(None),
        }
    }
}

/// Moves by the calls of raw cursors that are borrowed from their tree.
pub mod raw_refs {
    use crate::{Move, found_node, found_token};
    use rowan::NodeOrToken;
    use rowan::cursor::{ElementRefCalls, SyntaxElementRef, SyntaxNodeRef, SyntaxTokenRef};

    /// Where a move leads by the calls of the element, the node or the token. It leads nowhere from one
    /// that has no such call.
    pub fn target<'t>(way: Move, from: SyntaxElementRef<'t>) -> Option<SyntaxElementRef<'t>> {
        match way {
            Move::TreeTop => Some(NodeOrToken::Node(from.tree_top())),
            Move::Parent => found_node(from.parent()),
            Move::NextSiblingOrToken => from.next_sibling_or_token(),
            Move::PrevSiblingOrToken => from.prev_sibling_or_token(),
            _ => match from {
                NodeOrToken::Node(node) => at_node(way, node),
                NodeOrToken::Token(token) => at_token(way, token),
            },
        }
    }

    fn at_node<'t>(way: Move, node: SyntaxNodeRef<'t>) -> Option<SyntaxElementRef<'t>> {
        match way {
            Move::FirstChild => found_node(node.first_child()),
            Move::LastChild => found_node(node.last_child()),
            Move::FirstChildOrToken => node.first_child_or_token(),
            Move::LastChildOrToken => node.last_child_or_token(),
            Move::NextSibling => found_node(node.next_sibling()),
            Move::PrevSibling => found_node(node.prev_sibling()),
            Move::FirstToken => found_token(node.first_token()),
            Move::LastToken => found_token(node.last_token()),
            _ => None,
        }
    }

    fn at_token<'t>(way: Move, token: SyntaxTokenRef<'t>) -> Option<SyntaxElementRef<'t>> {
        match way {
            Move::NextToken => found_token(token.next_token()),
            Move::PrevToken => found_token(token.prev_token()),
            _ => None,
        }
    }

    /// Where a move leads by the calls of elements. It leads nowhere where elements have no such call.
    pub fn target_of_element<'t>(
        way: Move,
        from: SyntaxElementRef<'t>,
    ) -> Option<SyntaxElementRef<'t>> {
        match way {
            Move::FirstToken => found_token(from.first_token()),
            Move::LastToken => found_token(from.last_token()),
            _ => target(way, from),
        }
    }
}

/// Moves by the calls of typed cursors.
pub mod typed {
    use crate::{Move, found_node, found_token};
    use rowan::{
        Fault, Language, NodeOrToken, SyntaxElement, SyntaxNode, SyntaxToken, TypedElementCalls,
    };

    /// Where a move leads by the calls of the node or the token. It leads nowhere from one that has no
    /// such call.
    ///
    /// Errors: `Memory` where the count of the tree's owners is full.
    pub fn target<L: Language>(
        way: Move,
        from: &SyntaxElement<L>,
    ) -> Result<Option<SyntaxElement<L>>, Fault> {
        match from {
            NodeOrToken::Node(node) => at_node(way, node),
            NodeOrToken::Token(token) => at_token(way, token),
        }
    }

    fn at_node<L: Language>(
        way: Move,
        node: &SyntaxNode<L>,
    ) -> Result<Option<SyntaxElement<L>>, Fault> {
        match way {
            Move::TreeTop => Ok(Some(NodeOrToken::Node(node.tree_top()?))),
            Move::Parent => Ok(found_node(node.parent()?)),
            Move::FirstChild => Ok(found_node(node.first_child()?)),
            Move::LastChild => Ok(found_node(node.last_child()?)),
            Move::FirstChildOrToken => node.first_child_or_token(),
            Move::LastChildOrToken => node.last_child_or_token(),
            Move::NextSibling => Ok(found_node(node.next_sibling()?)),
            Move::PrevSibling => Ok(found_node(node.prev_sibling()?)),
            Move::NextSiblingOrToken => node.next_sibling_or_token(),
            Move::PrevSiblingOrToken => node.prev_sibling_or_token(),
            Move::FirstToken => Ok(found_token(node.first_token()?)),
            Move::LastToken => Ok(found_token(node.last_token()?)),
            Move::NextToken | Move::PrevToken => Ok(None),
        }
    }

    fn at_token<L: Language>(
        way: Move,
        token: &SyntaxToken<L>,
    ) -> Result<Option<SyntaxElement<L>>, Fault> {
        match way {
            Move::TreeTop => Ok(Some(NodeOrToken::Node(token.tree_top()?))),
            Move::Parent => Ok(found_node(token.parent()?)),
            Move::NextSiblingOrToken => token.next_sibling_or_token(),
            Move::PrevSiblingOrToken => token.prev_sibling_or_token(),
            Move::NextToken => Ok(found_token(token.next_token()?)),
            Move::PrevToken => Ok(found_token(token.prev_token()?)),
            _ => Ok(None),
        }
    }

    /// Where a move leads by the calls of elements. It leads nowhere where elements have no such call.
    ///
    /// Errors: `Memory` where the count of the tree's owners is full.
    pub fn target_of_element<L: Language>(
        way: Move,
        from: &SyntaxElement<L>,
    ) -> Result<Option<SyntaxElement<L>>, Fault> {
        match way {
            Move::TreeTop => Ok(Some(NodeOrToken::Node(from.tree_top()?))),
            Move::Parent => Ok(found_node(from.parent()?)),
            Move::NextSiblingOrToken => from.next_sibling_or_token(),
            Move::PrevSiblingOrToken => from.prev_sibling_or_token(),
            _ => Ok(None),
        }
    }
}

/// Moves by the calls of typed cursors that are borrowed from their tree.
pub mod typed_refs {
    use crate::Move;
    use rowan::{
        Language, NodeOrToken, SyntaxElementRef, SyntaxNodeRef, SyntaxTokenRef,
        TypedElementRefCalls,
    };

    /// Where a move leads by the calls of the element, the node or the token. It leads nowhere from one
    /// that has no such call.
    pub fn target<'t, L: Language>(
        way: Move,
        from: SyntaxElementRef<'t, L>,
    ) -> Option<SyntaxElementRef<'t, L>> {
        match way {
            Move::TreeTop => Some(NodeOrToken::Node(from.tree_top())),
            Move::Parent => found_node(from.parent()),
            Move::NextSiblingOrToken => from.next_sibling_or_token(),
            Move::PrevSiblingOrToken => from.prev_sibling_or_token(),
            _ => match from {
                NodeOrToken::Node(node) => at_node(way, node),
                NodeOrToken::Token(token) => at_token(way, token),
            },
        }
    }

    fn at_node<'t, L: Language>(
        way: Move,
        node: SyntaxNodeRef<'t, L>,
    ) -> Option<SyntaxElementRef<'t, L>> {
        match way {
            Move::FirstChild => found_node(node.first_child()),
            Move::LastChild => found_node(node.last_child()),
            Move::FirstChildOrToken => node.first_child_or_token(),
            Move::LastChildOrToken => node.last_child_or_token(),
            Move::NextSibling => found_node(node.next_sibling()),
            Move::PrevSibling => found_node(node.prev_sibling()),
            Move::FirstToken => found_token(node.first_token()),
            Move::LastToken => found_token(node.last_token()),
            _ => None,
        }
    }

    fn at_token<'t, L: Language>(
        way: Move,
        token: SyntaxTokenRef<'t, L>,
    ) -> Option<SyntaxElementRef<'t, L>> {
        match way {
            Move::NextToken => found_token(token.next_token()),
            Move::PrevToken => found_token(token.prev_token()),
            _ => None,
        }
    }

    fn found_node<'t, L: Language>(
        found: Option<SyntaxNodeRef<'t, L>>,
    ) -> Option<SyntaxElementRef<'t, L>> {
        Some(NodeOrToken::Node(found?))
    }

    fn found_token<'t, L: Language>(
        found: Option<SyntaxTokenRef<'t, L>>,
    ) -> Option<SyntaxElementRef<'t, L>> {
        Some(NodeOrToken::Token(found?))
    }
}
