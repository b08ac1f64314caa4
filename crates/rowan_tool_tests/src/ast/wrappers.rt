//! Wrappers: of the nodes of even kinds, and of all nodes.
use super::Node;
use crate::language::{Numbers, Parity};
use rowan::ast::AstNode;
use std::marker::Model;

/// A wrapper of the nodes of even kinds.
#[derive(Drop)]
pub struct EvenNode {
    syntax: Node,
}

impl Model for EvenNode {
    ghost use Rattle.std.specs.Prelude.{◌≡◌, ◌==◌, ◌%◌, true, false, if◌then◌else◌};
    ghost use Rattle.rowan_table.specs.Cursor.{Cursor};
    ghost use Rattle.rowan_cursor.specs.CursorCode.{coded_cursor};
    ghost use Rattle.rowan.specs.Ast.{casts_at};

    ghost Value = { Cursor };

    ghost coded = { coded_cursor };

    ghost view = { λ n. n.syntax };

    ghost invariant = { λ n. casts_at (λ raw. raw % 2 == 0) (λ even. even) n.syntax ≡ true };
}

impl AstNode for EvenNode {
    type Language = Numbers;

    ghost use Rattle.std.specs.Prelude.{◌≡◌, ◌==◌, ◌%◌, true, false, refl};
    ghost use Rattle.std.proofs.Common.{rules};
    ghost use Rattle.rowan.specs.Ast.{casts_at, if_casts};
    ghost use Rattle.rowan_tool_tests.specs.declared.language.Parity.TheVariants.{Even, Odd};

    ghost casts = { elim [ Even ↦ true | Odd ↦ false ] };

    ghost node_of = { λ wrapper. wrapper };

    fn can_cast(kind: Parity) -> bool {
        kind == Parity::Even
    }

    fn cast(node: Node) -> Option<EvenNode>
        ensures { result ≡ if_casts (casts_at (λ raw. raw % 2 == 0) (λ even. even)) node }
    {
        if EvenNode::can_cast(node.kind()) {
            Some(EvenNode { syntax: node })
        } else {
            None
        }
    }

    fn syntax(&self) -> &Node {
        &self.syntax
    }

    ghost equal_kinds = { Prim.search rules };
}

/// A wrapper of any node.
#[derive(Drop)]
pub struct AnyNode {
    syntax: Node,
}

impl Model for AnyNode {
    ghost use Rattle.std.specs.Prelude.{◌≡◌, true};
    ghost use Rattle.rowan_table.specs.Cursor.{Cursor};
    ghost use Rattle.rowan_cursor.specs.CursorCode.{coded_cursor};
    ghost use Rattle.rowan.specs.Ast.{casts_at};

    ghost Value = { Cursor };

    ghost coded = { coded_cursor };

    ghost view = { λ n. n.syntax };

    ghost invariant = { λ n. casts_at (λ raw. raw) (λ _. true) n.syntax ≡ true };
}

impl AstNode for AnyNode {
    type Language = Numbers;

    ghost use Rattle.std.specs.Prelude.{◌≡◌, true, refl};
    ghost use Rattle.rowan.specs.Ast.{casts_at, if_casts};

    ghost casts = { λ _. true };

    ghost node_of = { λ wrapper. wrapper };

    fn can_cast(kind: Parity) -> bool {
        kind == Parity::Even || kind == Parity::Odd
    }

    fn cast(node: Node) -> Option<AnyNode>
        ensures { result ≡ if_casts (casts_at (λ raw. raw) (λ _. true)) node }
    {
        if AnyNode::can_cast(node.kind()) {
            Some(AnyNode { syntax: node })
        } else {
            None
        }
    }

    fn syntax(&self) -> &Node {
        &self.syntax
    }

    ghost equal_kinds = { λ a b same. refl };
}
