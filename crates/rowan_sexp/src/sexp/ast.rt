//! Wrappers of the nodes of s-expressions. A call that looks at other nodes is refused as a move of
//! a [`SyntaxNode`] is.
use crate::sexp::lang::{Lang, SyntaxKind};
use rowan::SyntaxNode;
use rowan::ast::{AstChildren, AstNode, support};
use std::marker::Model;

/// The node of a whole text.
#[derive(PartialEq, Eq, Hash, Drop)]
pub struct Root {
    syntax: SyntaxNode<Lang>,
}

/// An atom: the node around one word.
#[derive(PartialEq, Eq, Hash, Drop)]
pub struct Atom {
    syntax: SyntaxNode<Lang>,
}

/// A list: the node of what stands between two parentheses, and of these.
#[derive(PartialEq, Eq, Hash, Drop)]
pub struct List {
    syntax: SyntaxNode<Lang>,
}

/// An expression: an atom or a list. A parenthesis that closes no list is none.
#[derive(PartialEq, Eq, Hash, Drop)]
pub enum Sexp {
    /// An atom.
    Atom(Atom),
    /// A list.
    List(List),
}

impl Model for Root {
    ghost use Rattle.std.specs.Prelude.{◌≡◌, true};
    ghost use Rattle.rowan_table.specs.Cursor.{Cursor};
    ghost use Rattle.rowan_cursor.specs.CursorCode.{coded_cursor};
    ghost use Rattle.rowan.specs.Ast.{casts_at};
    ghost use Rattle.rowan_sexp.specs.Casts.{is_root};
    ghost use Rattle.rowan_sexp.specs.Sexp.{kind_of};

    ghost Value = { Cursor };

    ghost coded = { coded_cursor };

    ghost view = { λ root. root.syntax };

    ghost inverse = { λ node. record { syntax = node } };

    ghost invariant = { λ root. casts_at kind_of is_root root.syntax ≡ true };
}

impl Model for Atom {
    ghost use Rattle.std.specs.Prelude.{◌≡◌, true};
    ghost use Rattle.rowan_table.specs.Cursor.{Cursor};
    ghost use Rattle.rowan_cursor.specs.CursorCode.{coded_cursor};
    ghost use Rattle.rowan.specs.Ast.{casts_at};
    ghost use Rattle.rowan_sexp.specs.Casts.{is_atom};
    ghost use Rattle.rowan_sexp.specs.Sexp.{kind_of};

    ghost Value = { Cursor };

    ghost coded = { coded_cursor };

    ghost view = { λ atom. atom.syntax };

    ghost inverse = { λ node. record { syntax = node } };

    ghost invariant = { λ atom. casts_at kind_of is_atom atom.syntax ≡ true };
}

impl Model for List {
    ghost use Rattle.std.specs.Prelude.{◌≡◌, true};
    ghost use Rattle.rowan_table.specs.Cursor.{Cursor};
    ghost use Rattle.rowan_cursor.specs.CursorCode.{coded_cursor};
    ghost use Rattle.rowan.specs.Ast.{casts_at};
    ghost use Rattle.rowan_sexp.specs.Casts.{is_list};
    ghost use Rattle.rowan_sexp.specs.Sexp.{kind_of};

    ghost Value = { Cursor };

    ghost coded = { coded_cursor };

    ghost view = { λ list. list.syntax };

    ghost inverse = { λ node. record { syntax = node } };

    ghost invariant = { λ list. casts_at kind_of is_list list.syntax ≡ true };
}

impl Root {
    ghost use Rattle.std.specs.Prelude.{◌≡◌, IfOk, IfErr};
    ghost use Rattle.rowan_green.specs.declared.fault.Fault.TheVariants.{Memory};
    ghost use Rattle.rowan_table.specs.Moves.{children};

    /// The expressions of the text, in order: the child nodes that are atoms or lists.
    pub fn sexps(&self) -> AstChildren<Sexp>
        ensures ok { IfOk result (λ nodes. nodes ≡ children self.now) }
        ensures err { IfErr result (λ e. e ≡ Memory) }
    {
        support::children(&self.syntax)
    }
}

impl List {
    ghost use Rattle.std.specs.Prelude.{◌≡◌, true, IfOk, IfErr};
    ghost use Rattle.rowan_green.specs.declared.fault.Fault.TheVariants.{Memory};
    ghost use Rattle.rowan_table.specs.Moves.{children};
    ghost use Rattle.rowan.specs.Ast.{casts_at};
    ghost use Rattle.rowan_sexp.specs.Casts.{is_list};
    ghost use Rattle.rowan_sexp.specs.Sexp.{kind_of};

    /// The expressions of the list, in order: the child nodes that are atoms or lists.
    pub fn sexps(&self) -> AstChildren<Sexp>
        ensures ok { IfOk result (λ nodes. nodes ≡ children self.now) }
        ensures list { casts_at kind_of is_list self.now ≡ true }
        ensures err { IfErr result (λ e. e ≡ Memory) }
    {
        support::children(&self.syntax)
    }
}

impl AstNode for Root {
    type Language = Lang;

    ghost use Rattle.std.specs.Prelude.{◌≡◌};
    ghost use Rattle.std.specs.Option.{option_map};
    ghost use Rattle.rowan.specs.Ast.{casts_at, if_casts};
    ghost use Rattle.rowan_sexp.specs.Casts.{is_root, same_kind};
    ghost use Rattle.rowan_sexp.specs.Sexp.{kind_of};
    ghost use Rattle.std.proofs.Common.{ap};

    ghost casts = { is_root };

    ghost node_of = { λ root. root };

    fn can_cast(kind: SyntaxKind) -> bool {
        matches!(kind, SyntaxKind::ROOT)
    }

    fn cast(syntax: SyntaxNode<Lang>) -> Option<Root>
        ensures { let casting = casts_at kind_of is_root in
            option_map (λ root. root) result ≡ if_casts casting syntax }
    {
        if Root::can_cast(syntax.kind()) {
            Some(Root { syntax })
        } else {
            None
        }
    }

    fn syntax(&self) -> &SyntaxNode<Lang> {
        &self.syntax
    }

    ghost equal_kinds = { λ a b same. ap is_root (same_kind a b same) };
}

impl AstNode for Atom {
    type Language = Lang;

    ghost use Rattle.std.specs.Prelude.{◌≡◌};
    ghost use Rattle.std.specs.Option.{option_map};
    ghost use Rattle.rowan.specs.Ast.{casts_at, if_casts};
    ghost use Rattle.rowan_sexp.specs.Casts.{is_atom, same_kind};
    ghost use Rattle.rowan_sexp.specs.Sexp.{kind_of};
    ghost use Rattle.std.proofs.Common.{ap};

    ghost casts = { is_atom };

    ghost node_of = { λ atom. atom };

    fn can_cast(kind: SyntaxKind) -> bool {
        matches!(kind, SyntaxKind::ATOM)
    }

    fn cast(syntax: SyntaxNode<Lang>) -> Option<Atom>
        ensures { let casting = casts_at kind_of is_atom in
            option_map (λ atom. atom) result ≡ if_casts casting syntax }
    {
        if Atom::can_cast(syntax.kind()) {
            Some(Atom { syntax })
        } else {
            None
        }
    }

    fn syntax(&self) -> &SyntaxNode<Lang> {
        &self.syntax
    }

    ghost equal_kinds = { λ a b same. ap is_atom (same_kind a b same) };
}

impl AstNode for List {
    type Language = Lang;

    ghost use Rattle.std.specs.Prelude.{◌≡◌};
    ghost use Rattle.std.specs.Option.{option_map};
    ghost use Rattle.rowan.specs.Ast.{casts_at, if_casts};
    ghost use Rattle.rowan_sexp.specs.Casts.{is_list, same_kind};
    ghost use Rattle.rowan_sexp.specs.Sexp.{kind_of};
    ghost use Rattle.std.proofs.Common.{ap};

    ghost casts = { is_list };

    ghost node_of = { λ list. list };

    fn can_cast(kind: SyntaxKind) -> bool {
        matches!(kind, SyntaxKind::LIST)
    }

    fn cast(syntax: SyntaxNode<Lang>) -> Option<List>
        ensures { let casting = casts_at kind_of is_list in
            option_map (λ list. list) result ≡ if_casts casting syntax }
    {
        if List::can_cast(syntax.kind()) {
            Some(List { syntax })
        } else {
            None
        }
    }

    fn syntax(&self) -> &SyntaxNode<Lang> {
        &self.syntax
    }

    ghost equal_kinds = { λ a b same. ap is_list (same_kind a b same) };
}

impl AstNode for Sexp {
    type Language = Lang;

    ghost use Rattle.std.specs.Prelude.{◌≡◌};
    ghost use Rattle.std.specs.Option.{option_map};
    ghost use Rattle.rowan.specs.Ast.{casts_at, if_casts};
    ghost use Rattle.rowan_sexp.specs.Casts.{is_sexp, same_kind};
    ghost use Rattle.rowan_sexp.specs.Sexp.{kind_of};
    ghost use Rattle.rowan_sexp.specs.Wrappers.{node_in};
    ghost use Rattle.std.proofs.Common.{ap};

    ghost casts = { is_sexp };

    ghost node_of = { node_in };

    fn can_cast(kind: SyntaxKind) -> bool {
        matches!(kind, SyntaxKind::ATOM | SyntaxKind::LIST)
    }

    fn cast(syntax: SyntaxNode<Lang>) -> Option<Sexp>
        ensures { let casting = casts_at kind_of is_sexp in
            option_map node_in result ≡ if_casts casting syntax }
    {
        match syntax.kind() {
            SyntaxKind::ATOM => Some(Sexp::Atom(Atom { syntax })),
            SyntaxKind::LIST => Some(Sexp::List(List { syntax })),
            _ => None,
        }
    }

    fn syntax(&self) -> &SyntaxNode<Lang> {
        match self {
            Sexp::Atom(atom) => atom.syntax(),
            Sexp::List(list) => list.syntax(),
        }
    }

    ghost equal_kinds = { λ a b same. ap is_sexp (same_kind a b same) };
}
