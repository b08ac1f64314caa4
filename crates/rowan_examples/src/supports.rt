//! What calls of wrappers are made of.
ghost use Rattle.std.specs.Prelude.{◌≡◌, IfOk};
ghost use Rattle.std.specs.List.{find};
ghost use Rattle.std.specs.Option.{option_map};
ghost use Rattle.rowan.specs.Ast.{casts_at, is_token_of};
ghost use Rattle.rowan.specs.Moves.{children, children_with_tokens};
ghost use Rattle.rowan.specs.Pointer.{means_kind};
ghost use Rattle.rowan.specs.Refs.{node_place, token_place};
ghost use Rattle.rowan.specs.Types.NodeOrToken.TheVariants.{Token};
ghost use Rattle.rowan_examples.specs.Kinds.{is_list, kind_of, same_kind};

use crate::kinds::{Kind, Lists};
use crate::wrappers::ListNode;
use rowan::ast::{AstChildren, AstNode, support};
use rowan::{Fault, SyntaxNodeRef, SyntaxToken, SyntaxTokenRef};

impl ListNode {
    /// The first list in the list.
    pub fn first_list(&self) -> Result<Option<ListNode>, Fault>
        ensures { IfOk result (λ found. option_map (λ list. list) found
            ≡ find (casts_at kind_of is_list) (children self.now)) }
    {
        support::child(self.syntax())
    }

    /// The lists in the list.
    pub fn lists(&self) -> AstChildren<ListNode>
        ensures { IfOk result (λ nodes. nodes ≡ children self.now) }
    {
        support::children(self.syntax())
    }

    /// The first word in the list.
    pub fn first_word(&self) -> Result<Option<SyntaxToken<Lists>>, Fault>
        ensures { IfOk result (λ found. option_map Token found
            ≡ find (is_token_of (means_kind kind_of same_kind Kind.Word))
            (children_with_tokens self.now)) }
    {
        support::token(self.syntax(), Kind::Word)
    }
}

/// The first word in a borrowed list.
pub fn first_word_of<'tree>(
    list: SyntaxNodeRef<'tree, Lists>,
) -> Option<SyntaxTokenRef<'tree, Lists>>
    ensures { option_map Token (option_map token_place result)
        ≡ find (is_token_of (means_kind kind_of same_kind Kind.Word))
        (children_with_tokens (node_place list.entry)) }
{
    support::token_of(list, Kind::Word)
}
