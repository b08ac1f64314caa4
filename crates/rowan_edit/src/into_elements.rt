//! What new elements are made of.
ghost use Rattle.std.specs.Prelude.{◌≡◌, List, IfOk, IfErr};
ghost use Rattle.rowan_green.specs.Term.{Term};

use rowan::{SyntaxElementRef, SyntaxNodeRef, SyntaxTokenRef};
use rowan_green::fault::Fault;
use rowan_green::green::{GreenElement, GreenNode, GreenToken};
use rowan_green::utility_types::NodeOrToken;
use std::alloc::Global;

/// What an editor can put into a tree: a new element, a list of them, nothing at all (`()`), or an
/// element that stands in a tree, of which the new tree then shares what is there.
pub trait IntoElements {
    ghost terms: { Self → List Term };

    /// The elements. Errors: `Memory` if an allocation failed.
    fn into_elements(self, alloc: Global) -> Result<Vec<GreenElement>, Fault>
        ensures ok { IfOk result (λ elements. elements.items ≡ terms self) }
        ensures err { IfErr result (λ e. e ≡ Fault.Memory) };
}

impl IntoElements for () {
    ghost use Rattle.std.specs.Prelude.{[]};

    ghost terms = { λ _. [] };

    fn into_elements(self, alloc: Global) -> Result<Vec<GreenElement>, Fault> {
        Ok(Vec::new(alloc))
    }
}

impl IntoElements for Vec<GreenElement> {
    ghost terms = { λ elements. elements.items };

    fn into_elements(self, _alloc: Global) -> Result<Vec<GreenElement>, Fault> {
        Ok(self)
    }
}

impl IntoElements for GreenElement {
    ghost use Rattle.std.specs.Prelude.{[], ◌∷◌};

    ghost terms = { λ element. element ∷ [] };

    fn into_elements(self, alloc: Global) -> Result<Vec<GreenElement>, Fault> {
        Ok(vec![in alloc; self]?)
    }
}

impl IntoElements for GreenNode {
    ghost use Rattle.std.specs.Prelude.{[], ◌∷◌};
    ghost use Rattle.rowan_green.specs.declared.utility_types.NodeOrToken.TheVariants.{Node};

    ghost terms = { λ node. Node node ∷ [] };

    fn into_elements(self, alloc: Global) -> Result<Vec<GreenElement>, Fault> {
        Ok(vec![in alloc; NodeOrToken::Node(self)]?)
    }
}

impl IntoElements for GreenToken {
    ghost use Rattle.std.specs.Prelude.{[], ◌∷◌};
    ghost use Rattle.rowan_green.specs.declared.utility_types.NodeOrToken.TheVariants.{Token};

    ghost terms = { λ token. Token token ∷ [] };

    fn into_elements(self, alloc: Global) -> Result<Vec<GreenElement>, Fault> {
        Ok(vec![in alloc; NodeOrToken::Token(self)]?)
    }
}

impl<L> IntoElements for SyntaxNodeRef<'_, L> {
    ghost use Rattle.rowan_api.specs.Refs.{node_place};
    ghost use Rattle.rowan_edit.specs.Elements.{terms_at};

    ghost terms = { λ node. terms_at (node_place node) };

    fn into_elements(self, alloc: Global) -> Result<Vec<GreenElement>, Fault> {
        Ok(vec![in alloc; NodeOrToken::Node(self.green().clone()?)]?)
    }
}

impl<L> IntoElements for SyntaxTokenRef<'_, L> {
    ghost use Rattle.rowan_api.specs.Refs.{token_place};
    ghost use Rattle.rowan_edit.specs.Elements.{terms_at};

    ghost terms = { λ token. terms_at (token_place token) };

    fn into_elements(self, alloc: Global) -> Result<Vec<GreenElement>, Fault> {
        Ok(vec![in alloc; NodeOrToken::Token(self.green().clone()?)]?)
    }
}

impl<L> IntoElements for SyntaxElementRef<'_, L> {
    ghost use Rattle.rowan_table.specs.Moves.{place_of};
    ghost use Rattle.rowan_api.specs.Refs.{element_place};
    ghost use Rattle.rowan_edit.specs.Elements.{terms_at};

    ghost terms = { λ element. terms_at (place_of (element_place element)) };

    fn into_elements(self, alloc: Global) -> Result<Vec<GreenElement>, Fault> {
        match self {
            NodeOrToken::Node(node) => node.into_elements(alloc),
            NodeOrToken::Token(token) => token.into_elements(alloc),
        }
    }
}
