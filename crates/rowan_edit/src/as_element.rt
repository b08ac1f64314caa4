//! What names an element of a tree.
ghost use Rattle.std.specs.Prelude.{◌≡◌};
ghost use Rattle.rowan_table.specs.Moves.{Element};
ghost use Rattle.rowan_api.specs.Refs.{element_place};

use rowan::{
    SyntaxElement, SyntaxElementRef, SyntaxNode, SyntaxNodeRef, SyntaxToken, SyntaxTokenRef,
};
use rowan_green::utility_types::NodeOrToken;

/// What names an element of a tree of a language: a cursor, borrowed or owned, at a node, a token
/// or either. A wrapper of a node names its node by `syntax()`.
pub trait AsElement<'tree, L> {
    ghost element: { Self → Element };

    /// The element.
    fn as_element(self) -> SyntaxElementRef<'tree, L>
        ensures { element_place result ≡ element self };
}

impl<'tree, L> AsElement<'tree, L> for SyntaxElementRef<'tree, L> {
    ghost use Rattle.rowan_api.specs.Refs.{element_place};

    ghost element = { element_place };

    fn as_element(self) -> SyntaxElementRef<'tree, L> {
        self
    }
}

impl<'tree, L> AsElement<'tree, L> for SyntaxNodeRef<'tree, L> {
    ghost use Rattle.rowan_green.specs.declared.utility_types.NodeOrToken.TheVariants.{Node};
    ghost use Rattle.rowan_api.specs.Refs.{node_place};

    ghost element = { λ node. Node (node_place node) };

    fn as_element(self) -> SyntaxElementRef<'tree, L> {
        NodeOrToken::Node(self)
    }
}

impl<'tree, L> AsElement<'tree, L> for SyntaxTokenRef<'tree, L> {
    ghost use Rattle.rowan_green.specs.declared.utility_types.NodeOrToken.TheVariants.{Token};
    ghost use Rattle.rowan_api.specs.Refs.{token_place};

    ghost element = { λ token. Token (token_place token) };

    fn as_element(self) -> SyntaxElementRef<'tree, L> {
        NodeOrToken::Token(self)
    }
}

impl<'tree, L> AsElement<'tree, L> for &'tree SyntaxNode<L> {
    ghost use Rattle.rowan_green.specs.declared.utility_types.NodeOrToken.TheVariants.{Node};

    ghost element = { λ node. Node node.now };

    fn as_element(self) -> SyntaxElementRef<'tree, L> {
        NodeOrToken::Node(self.as_ref())
    }
}

impl<'tree, L> AsElement<'tree, L> for &'tree SyntaxToken<L> {
    ghost use Rattle.rowan_green.specs.declared.utility_types.NodeOrToken.TheVariants.{Token};

    ghost element = { λ token. Token token.now };

    fn as_element(self) -> SyntaxElementRef<'tree, L> {
        NodeOrToken::Token(self.as_ref())
    }
}

impl<'tree, L> AsElement<'tree, L> for &'tree SyntaxElement<L> {
    ghost element = { λ element. element.now };

    fn as_element(self) -> SyntaxElementRef<'tree, L> {
        match self {
            NodeOrToken::Node(node) => NodeOrToken::Node(node.as_ref()),
            NodeOrToken::Token(token) => NodeOrToken::Token(token.as_ref()),
        }
    }
}
