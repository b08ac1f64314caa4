//! Wrappers of nodes of one kind: aliases of a type of the library with their calls in a trait, and
//! a newtype over one, which has methods.
ghost use Rattle.std.specs.Prelude.{◌≡◌, IfOk, IfErr};
ghost use Rattle.std.specs.List.{find};
ghost use Rattle.std.specs.Option.{option_map};
ghost use Rattle.rowan.specs.Ast.{casts_at, if_casts};
ghost use Rattle.rowan.specs.Equal.{same_place};
ghost use Rattle.rowan.specs.Moves.{children};
ghost use Rattle.rowan.specs.NodeIn.{place_in};
ghost use Rattle.rowan_examples.specs.Kinds.{casts_list, kind_of};

use crate::kinds::{Kind, Lists};
use rowan::ast::{AstChildren, AstNode, AstNodeRef, NodeOf, NodeOfRef, support};
use rowan::{Fault, SyntaxNode};

/// A list: a node of raw kind 0.
pub type List = NodeOf<Lists, 0>;

/// A list that is borrowed from its tree.
pub type ListRef<'tree> = NodeOfRef<'tree, Lists, 0>;

/// What a borrowed list has in it.
pub trait ListParts<'tree> {
    /// The first list in the list.
    fn first_list(&self) -> Option<ListRef<'tree>>;
}

impl<'tree> ListParts<'tree> for ListRef<'tree> {
    fn first_list(&self) -> Option<ListRef<'tree>>
        ensures { option_map place_in result
            ≡ find (casts_at kind_of casts_list) (children (place_in self.now)) }
    {
        support::child_ref(self.syntax())
    }
}

/// The node in a wrapper, if it is a list.
pub fn as_list(node: SyntaxNode<Lists>) -> Option<List>
    ensures { option_map (λ list. list) result ≡ if_casts (casts_at kind_of casts_list) node }
{
    List::cast(node)
}

/// The first list in the list, in a wrapper that keeps the tree.
pub fn first_list(list: &List) -> Result<Option<List>, Fault>
    ensures ok { IfOk result (λ found. option_map (λ inner. inner) found
        ≡ find (casts_at kind_of casts_list) (children list.now)) }
    ensures err { IfErr result (λ e. e ≡ Fault.Memory) }
{
    match list.as_ref().first_list() {
        Some(inner) => Ok(Some(inner.to_owned()?)),
        None => Ok(None),
    }
}

/// Whether two lists are equal nodes that start at one offset.
pub fn are_equal(list: &List, other: &List) -> bool
    ensures { result ≡ same_place list.now other.now }
{
    list == other
}

/// A list with methods of its own, which an alias can't have: a wrapper of the alias.
#[derive(Clone, PartialEq, Eq, Hash, Debug, Drop)]
pub struct Items(List);

impl AstNode for Items {
    type Language = Lists;

    ghost use Rattle.std.specs.Prelude.{◌≡◌};
    ghost use Rattle.std.specs.Option.{option_map};
    ghost use Rattle.rowan.specs.Ast.{casts_at, if_casts};
    ghost use Rattle.rowan_examples.specs.Items.{node_in};
    ghost use Rattle.rowan_examples.specs.Kinds.{casts_list, kind_of, one_kind};
    ghost use Rattle.std.proofs.Common.{ap};

    ghost casts = { casts_list };

    ghost node_of = { node_in };

    fn can_cast(kind: Kind) -> bool {
        List::can_cast(kind)
    }

    fn cast(node: SyntaxNode<Lists>) -> Option<Items>
        ensures { let casting = casts_at kind_of casts_list in
            option_map node_in result ≡ if_casts casting node }
    {
        match List::cast(node) {
            Some(list) => Some(Items(list)),
            None => None,
        }
    }

    fn syntax(&self) -> &SyntaxNode<Lists> {
        self.0.syntax()
    }

    ghost equal_kinds = { λ a b same. ap casts_list (one_kind a b same) };
}

impl Items {
    ghost use Rattle.std.specs.Prelude.{◌≡◌, IfOk};
    ghost use Rattle.rowan.specs.Moves.{children};
    ghost use Rattle.rowan_examples.specs.Items.{node_in};

    /// The lists in the list.
    pub fn items(&self) -> AstChildren<Items>
        ensures { IfOk result (λ nodes. nodes ≡ children (node_in self.now)) }
    {
        support::children(self.syntax())
    }
}
