//! A wrapper of lists, written by hand.
use crate::kinds::{Kind, Lists};
use rowan::SyntaxNode;
use rowan::ast::AstNode;
use std::marker::Model;

/// A list.
#[derive(Drop)]
pub struct ListNode {
    syntax: SyntaxNode<Lists>,
}

impl Model for ListNode {
    ghost use Rattle.std.specs.Prelude.{◌≡◌, true};
    ghost use Rattle.rowan.specs.Cursor.{Cursor};
    ghost use Rattle.rowan.specs.CursorCode.{coded_cursor};
    ghost use Rattle.rowan.specs.Ast.{casts_at};
    ghost use Rattle.rowan_examples.specs.Kinds.{is_list, kind_of};

    ghost Value = { Cursor };

    ghost coded = { coded_cursor };

    ghost view = { λ list. list.syntax };

    ghost invariant = { λ list. casts_at kind_of is_list list.syntax ≡ true };
}

impl AstNode for ListNode {
    type Language = Lists;

    ghost use Rattle.std.specs.Prelude.{◌≡◌};
    ghost use Rattle.std.specs.Option.{option_map};
    ghost use Rattle.std.proofs.Common.{ap};
    ghost use Rattle.rowan.specs.Ast.{casts_at, if_casts};
    ghost use Rattle.rowan_examples.specs.Kinds.{is_list, kind_of, one_kind};

    ghost casts = { is_list };

    ghost node_of = { λ list. list };

    fn can_cast(kind: Kind) -> bool {
        matches!(kind, Kind::List)
    }

    fn cast(node: SyntaxNode<Lists>) -> Option<ListNode>
        ensures { let casting = casts_at kind_of is_list in
            option_map (λ list. list) result ≡ if_casts casting node }
    {
        if ListNode::can_cast(node.kind()) {
            Some(ListNode { syntax: node })
        } else {
            None
        }
    }

    fn syntax(&self) -> &SyntaxNode<Lists> {
        &self.syntax
    }

    ghost equal_kinds = { λ a b same. ap is_list (one_kind a b same) };
}
