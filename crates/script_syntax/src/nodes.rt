// Written by rowan_grammar from script.ungram: change that, and not this file.
//! Wrappers of the nodes of Script: owned ones, which keep the tree, and those that borrow it.
ghost use Rattle.std.specs.Prelude.{◌≡◌, true};
ghost use Rattle.rowan.specs.Ast.{casts_at};
ghost use Rattle.rowan.specs.Refs.{node_place};
ghost use Rattle.script_syntax.specs.Casts.{has_number};
ghost use Rattle.script_syntax.specs.Kinds.{kind_of};

use crate::kinds::{Kind, Script};
use rowan::ast::{AstNode, AstNodeRef, support};
use rowan::{SyntaxNode, SyntaxNodeRef, SyntaxTokenRef};
use std::marker::Model;

/// A node whose kind has this number.
#[derive(Clone, PartialEq, Eq, Hash, Drop)]
pub struct NodeOf<const KIND: u16> {
    syntax: SyntaxNode<Script>,
}

impl<const KIND: u16> Model for NodeOf<KIND> {
    ghost use Rattle.std.specs.Prelude.{◌≡◌, true};
    ghost use Rattle.rowan.specs.Cursor.{Cursor};
    ghost use Rattle.rowan.specs.CursorCode.{coded_cursor};
    ghost use Rattle.rowan.specs.Ast.{casts_at};
    ghost use Rattle.script_syntax.specs.Casts.{has_number};
    ghost use Rattle.script_syntax.specs.Kinds.{kind_of};

    ghost Value = { Cursor };

    ghost coded = { coded_cursor };

    ghost view = { λ wrapper. wrapper.syntax };

    ghost inverse = { λ node. record { syntax = node } };

    ghost invariant = { λ wrapper. casts_at kind_of (has_number KIND) wrapper.syntax ≡ true };
}

impl<const KIND: u16> AstNode for NodeOf<KIND> {
    type Language = Script;

    ghost use Rattle.std.specs.Prelude.{◌≡◌};
    ghost use Rattle.std.specs.Option.{option_map};
    ghost use Rattle.rowan.specs.Ast.{casts_at, if_casts};
    ghost use Rattle.script_syntax.specs.Casts.{has_number, same_kind};
    ghost use Rattle.script_syntax.specs.Kinds.{kind_of};
    ghost use Rattle.std.proofs.Common.{ap};

    ghost casts = { has_number KIND };

    ghost node_of = { λ wrapper. wrapper };

    fn can_cast(kind: Kind) -> bool {
        <Script as rowan::Language>::kind_to_raw(kind).0 == KIND
    }

    fn cast(syntax: SyntaxNode<Script>) -> Option<NodeOf<KIND>>
        ensures { let casting = casts_at kind_of (has_number KIND) in
            option_map (λ wrapper. wrapper) result ≡ if_casts casting syntax }
    {
        if Self::can_cast(syntax.kind()) {
            Some(NodeOf { syntax })
        } else {
            None
        }
    }

    fn syntax(&self) -> &SyntaxNode<Script> {
        &self.syntax
    }

    ghost equal_kinds = { λ a b same. ap (has_number KIND) (same_kind a b same) };
}

impl<const KIND: u16> std::fmt::Debug for NodeOf<KIND> {
    fn fmt<W: std::fmt::Write>(&self, f: &mut std::fmt::Formatter<W>) -> std::fmt::Result {
        self.syntax.fmt(f)
    }
}

/// A node whose kind has this number, borrowed from its tree.
#[derive(Clone, Copy, PartialEq, Eq, Hash)]
pub struct NodeOfRef<'tree, const KIND: u16> {
    syntax: SyntaxNodeRef<'tree, Script>,
    ghost casts: { casts_at kind_of (has_number KIND) (node_place syntax) ≡ true },
}

impl<'tree, const KIND: u16> AstNodeRef<'tree> for NodeOfRef<'tree, KIND> {
    type Language = Script;

    ghost use Rattle.std.specs.Prelude.{◌≡◌, true};
    ghost use Rattle.std.specs.Option.{option_map};
    ghost use Rattle.rowan.specs.Ast.{casts_at, if_casts};
    ghost use Rattle.rowan.specs.Refs.{node_place};
    ghost use Rattle.script_syntax.specs.Casts.{has_number};
    ghost use Rattle.script_syntax.specs.Kinds.{kind_of};
    ghost use Rattle.script_syntax.specs.NodeIn.{place_in};

    ghost casts = { has_number KIND };

    ghost node_of = { place_in };

    fn can_cast(kind: Kind) -> bool
        ensures { result ≡ has_number KIND kind }
    {
        <Script as rowan::Language>::kind_to_raw(kind).0 == KIND
    }

    fn cast(syntax: SyntaxNodeRef<'tree, Script>) -> Option<NodeOfRef<'tree, KIND>>
        ensures { let casting = casts_at kind_of (has_number KIND) in
            option_map place_in result ≡ if_casts casting (node_place syntax.entry) }
    {
        if Self::can_cast(syntax.kind()) {
            Some(NodeOfRef { syntax })
        } else {
            None
        }
    }

    fn syntax(&self) -> SyntaxNodeRef<'tree, Script>
        ensures node { node_place result ≡ place_in self.now }
        ensures casts { casts_at kind_of (has_number KIND) (node_place result) ≡ true }
    {
        self.syntax
    }
}

impl<const KIND: u16> std::fmt::Debug for NodeOfRef<'_, KIND> {
    fn fmt<W: std::fmt::Write>(&self, f: &mut std::fmt::Formatter<W>) -> std::fmt::Result {
        self.syntax.fmt(f)
    }
}

/// A function, with the comments directly above it.
///
/// ```text
/// Function = 'fn' name:Name Parameters Block
/// ```
pub type FunctionRef<'tree> = NodeOfRef<'tree, 35>;

impl<'tree> FunctionRef<'tree> {
    ghost use Rattle.std.specs.Prelude.{◌≡◌};
    ghost use Rattle.std.specs.List.{find};
    ghost use Rattle.std.specs.Option.{option_map};
    ghost use Rattle.rowan.specs.Types.NodeOrToken.TheVariants.{Token};
    ghost use Rattle.rowan.specs.Moves.{children_with_tokens};
    ghost use Rattle.rowan.specs.Ast.{is_token_of};
    ghost use Rattle.rowan.specs.Refs.{token_place};
    ghost use Rattle.rowan.specs.Pointer.{means_kind};
    ghost use Rattle.script_syntax.specs.contracts.kinds.Kind.{the_type};
    ghost use denote.Enum.Bare.{sameb};
    ghost use Rattle.script_syntax.specs.Kinds.{kind_of};
    ghost use Rattle.script_syntax.specs.NodeIn.{place_in};

    /// The first token `FnKw`.
    pub fn fn_kw_token(&self) -> Option<SyntaxTokenRef<'tree, Script>>
        ensures { let means = means_kind kind_of (sameb the_type) Kind.FnKw in
            option_map Token (option_map token_place result)
            ≡ find (is_token_of means) (children_with_tokens (place_in self.now)) }
    {
        support::token_of(self.syntax, Kind::FnKw)
    }

    /// The first token `Name`.
    pub fn name(&self) -> Option<SyntaxTokenRef<'tree, Script>>
        ensures { let means = means_kind kind_of (sameb the_type) Kind.Name in
            option_map Token (option_map token_place result)
            ≡ find (is_token_of means) (children_with_tokens (place_in self.now)) }
    {
        support::token_of(self.syntax, Kind::Name)
    }
}

/// A union, with the comments directly above it.
///
/// ```text
/// Union = UnionKw name:Name '{' (Field ','?)* '}'
/// ```
pub type UnionRef<'tree> = NodeOfRef<'tree, 38>;

impl<'tree> UnionRef<'tree> {
    ghost use Rattle.std.specs.Prelude.{◌≡◌};
    ghost use Rattle.std.specs.List.{find};
    ghost use Rattle.std.specs.Option.{option_map};
    ghost use Rattle.rowan.specs.Types.NodeOrToken.TheVariants.{Token};
    ghost use Rattle.rowan.specs.Moves.{children_with_tokens};
    ghost use Rattle.rowan.specs.Ast.{is_token_of};
    ghost use Rattle.rowan.specs.Refs.{token_place};
    ghost use Rattle.rowan.specs.Pointer.{means_kind};
    ghost use Rattle.script_syntax.specs.contracts.kinds.Kind.{the_type};
    ghost use denote.Enum.Bare.{sameb};
    ghost use Rattle.script_syntax.specs.Kinds.{kind_of};
    ghost use Rattle.script_syntax.specs.NodeIn.{place_in};

    /// The first token `UnionKw`.
    pub fn union_kw_token(&self) -> Option<SyntaxTokenRef<'tree, Script>>
        ensures { let means = means_kind kind_of (sameb the_type) Kind.UnionKw in
            option_map Token (option_map token_place result)
            ≡ find (is_token_of means) (children_with_tokens (place_in self.now)) }
    {
        support::token_of(self.syntax, Kind::UnionKw)
    }

    /// The first token `Name`.
    pub fn name(&self) -> Option<SyntaxTokenRef<'tree, Script>>
        ensures { let means = means_kind kind_of (sameb the_type) Kind.Name in
            option_map Token (option_map token_place result)
            ≡ find (is_token_of means) (children_with_tokens (place_in self.now)) }
    {
        support::token_of(self.syntax, Kind::Name)
    }

    /// The first token `LBrace`.
    pub fn l_brace_token(&self) -> Option<SyntaxTokenRef<'tree, Script>>
        ensures { let means = means_kind kind_of (sameb the_type) Kind.LBrace in
            option_map Token (option_map token_place result)
            ≡ find (is_token_of means) (children_with_tokens (place_in self.now)) }
    {
        support::token_of(self.syntax, Kind::LBrace)
    }

    /// The first token `RBrace`.
    pub fn r_brace_token(&self) -> Option<SyntaxTokenRef<'tree, Script>>
        ensures { let means = means_kind kind_of (sameb the_type) Kind.RBrace in
            option_map Token (option_map token_place result)
            ≡ find (is_token_of means) (children_with_tokens (place_in self.now)) }
    {
        support::token_of(self.syntax, Kind::RBrace)
    }
}

/// The node of a whole text: what `Parse::tree` makes of what `parse` answers.
///
/// ```text
/// Root = (Statement ';'?)*
/// ```
pub type Root = NodeOf<54>;

/// What has a name that a script lists.
///
/// ```text
/// Declaration = Function | Union
/// ```
#[derive(Clone, Copy, PartialEq, Eq, Hash, Debug)]
pub enum DeclarationRef<'tree> {
    /// A function, with the comments directly above it.
    Function(FunctionRef<'tree>),
    /// A union, with the comments directly above it.
    Union(UnionRef<'tree>),
}

impl<'tree> AstNodeRef<'tree> for DeclarationRef<'tree> {
    type Language = Script;

    ghost use Rattle.std.specs.Prelude.{◌≡◌, true};
    ghost use Rattle.std.specs.Option.{option_map};
    ghost use Rattle.rowan.specs.Ast.{casts_at, if_casts};
    ghost use Rattle.rowan.specs.Refs.{node_place};
    ghost use Rattle.script_syntax.specs.Casts.{is_declaration};
    ghost use Rattle.script_syntax.specs.Kinds.{kind_of};
    ghost use Rattle.script_syntax.specs.NodeIn.{place_in_declaration};

    ghost casts = { is_declaration };

    ghost node_of = { place_in_declaration };

    fn can_cast(kind: Kind) -> bool
        ensures { result ≡ is_declaration kind }
    {
        match kind {
            Kind::Function => true,
            Kind::Union => true,
            _ => false,
        }
    }

    fn cast(syntax: SyntaxNodeRef<'tree, Script>) -> Option<DeclarationRef<'tree>>
        ensures { let casting = casts_at kind_of is_declaration in
            option_map place_in_declaration result ≡ if_casts casting (node_place syntax.entry) }
    {
        match syntax.kind() {
            Kind::Function => Some(DeclarationRef::Function(NodeOfRef { syntax })),
            Kind::Union => Some(DeclarationRef::Union(NodeOfRef { syntax })),
            _ => None,
        }
    }

    #[tactic(auto, using(crate::proofs::CastLemmas::function_is_declaration_raw, crate::proofs::CastLemmas::union_is_declaration_raw))]
    fn syntax(&self) -> SyntaxNodeRef<'tree, Script>
        ensures node { node_place result ≡ place_in_declaration self.now }
        ensures casts { casts_at kind_of is_declaration (node_place result) ≡ true }
    {
        match self {
            DeclarationRef::Function(node) => node.syntax(),
            DeclarationRef::Union(node) => node.syntax(),
        }
    }
}

impl<'tree> From<FunctionRef<'tree>> for DeclarationRef<'tree> {
    ghost use Rattle.std.specs.Prelude.{◌≡◌};
    ghost use Rattle.script_syntax.specs.NodeIn.{place_in_declaration, place_in};

    ghost from_gives = { λ node whole. place_in_declaration whole ≡ place_in node };

    fn from(node: FunctionRef<'tree>) -> DeclarationRef<'tree> {
        DeclarationRef::Function(node)
    }
}

impl<'tree> From<UnionRef<'tree>> for DeclarationRef<'tree> {
    ghost use Rattle.std.specs.Prelude.{◌≡◌};
    ghost use Rattle.script_syntax.specs.NodeIn.{place_in_declaration, place_in};

    ghost from_gives = { λ node whole. place_in_declaration whole ≡ place_in node };

    fn from(node: UnionRef<'tree>) -> DeclarationRef<'tree> {
        DeclarationRef::Union(node)
    }
}

/// What declares a name that it begins with.
pub trait HasNameRef<'tree>: AstNodeRef<'tree, Language = Script> {
    ghost use Rattle.std.specs.Prelude.{◌≡◌};
    ghost use Rattle.std.specs.List.{find};
    ghost use Rattle.std.specs.Option.{option_map};
    ghost use Rattle.rowan.specs.Types.NodeOrToken.TheVariants.{Token};
    ghost use Rattle.rowan.specs.Moves.{children_with_tokens};
    ghost use Rattle.rowan.specs.Ast.{is_token_of};
    ghost use Rattle.rowan.specs.Refs.{token_place};
    ghost use Rattle.rowan.specs.Pointer.{means_kind};
    ghost use Rattle.script_syntax.specs.contracts.kinds.Kind.{the_type};
    ghost use denote.Enum.Bare.{sameb};
    ghost use Rattle.script_syntax.specs.Kinds.{kind_of};

    /// The first token `Name`.
    fn name(&self) -> Option<SyntaxTokenRef<'tree, Script>>
        ensures { let means = means_kind kind_of (sameb the_type) Kind.Name in
            option_map Token (option_map token_place result)
            ≡ find (is_token_of means) (children_with_tokens (Self.node_of self.now)) };
}

impl<'tree> HasNameRef<'tree> for FunctionRef<'tree> {
    ghost use Rattle.std.specs.Prelude.{◌≡◌};
    ghost use Rattle.std.specs.List.{find};
    ghost use Rattle.std.specs.Option.{option_map};
    ghost use Rattle.rowan.specs.Types.NodeOrToken.TheVariants.{Token};
    ghost use Rattle.rowan.specs.Moves.{children_with_tokens};
    ghost use Rattle.rowan.specs.Ast.{is_token_of};
    ghost use Rattle.rowan.specs.Refs.{token_place};
    ghost use Rattle.rowan.specs.Pointer.{means_kind};
    ghost use Rattle.script_syntax.specs.contracts.kinds.Kind.{the_type};
    ghost use denote.Enum.Bare.{sameb};
    ghost use Rattle.script_syntax.specs.Kinds.{kind_of};
    ghost use Rattle.script_syntax.specs.NodeIn.{place_in};

    /// The first token `Name`.
    fn name(&self) -> Option<SyntaxTokenRef<'tree, Script>>
        ensures { let means = means_kind kind_of (sameb the_type) Kind.Name in
            option_map Token (option_map token_place result)
            ≡ find (is_token_of means) (children_with_tokens (place_in self.now)) }
    {
        support::token_of(self.syntax(), Kind::Name)
    }
}

impl<'tree> HasNameRef<'tree> for UnionRef<'tree> {
    ghost use Rattle.std.specs.Prelude.{◌≡◌};
    ghost use Rattle.std.specs.List.{find};
    ghost use Rattle.std.specs.Option.{option_map};
    ghost use Rattle.rowan.specs.Types.NodeOrToken.TheVariants.{Token};
    ghost use Rattle.rowan.specs.Moves.{children_with_tokens};
    ghost use Rattle.rowan.specs.Ast.{is_token_of};
    ghost use Rattle.rowan.specs.Refs.{token_place};
    ghost use Rattle.rowan.specs.Pointer.{means_kind};
    ghost use Rattle.script_syntax.specs.contracts.kinds.Kind.{the_type};
    ghost use denote.Enum.Bare.{sameb};
    ghost use Rattle.script_syntax.specs.Kinds.{kind_of};
    ghost use Rattle.script_syntax.specs.NodeIn.{place_in};

    /// The first token `Name`.
    fn name(&self) -> Option<SyntaxTokenRef<'tree, Script>>
        ensures { let means = means_kind kind_of (sameb the_type) Kind.Name in
            option_map Token (option_map token_place result)
            ≡ find (is_token_of means) (children_with_tokens (place_in self.now)) }
    {
        support::token_of(self.syntax(), Kind::Name)
    }
}

impl<'tree> HasNameRef<'tree> for DeclarationRef<'tree> {
    ghost use Rattle.std.specs.Prelude.{◌≡◌};
    ghost use Rattle.std.specs.List.{find};
    ghost use Rattle.std.specs.Option.{option_map};
    ghost use Rattle.rowan.specs.Types.NodeOrToken.TheVariants.{Token};
    ghost use Rattle.rowan.specs.Moves.{children_with_tokens};
    ghost use Rattle.rowan.specs.Ast.{is_token_of};
    ghost use Rattle.rowan.specs.Refs.{token_place};
    ghost use Rattle.rowan.specs.Pointer.{means_kind};
    ghost use Rattle.script_syntax.specs.contracts.kinds.Kind.{the_type};
    ghost use denote.Enum.Bare.{sameb};
    ghost use Rattle.script_syntax.specs.Kinds.{kind_of};
    ghost use Rattle.script_syntax.specs.NodeIn.{place_in_declaration};

    /// The first token `Name`.
    fn name(&self) -> Option<SyntaxTokenRef<'tree, Script>>
        ensures { let means = means_kind kind_of (sameb the_type) Kind.Name in
            option_map Token (option_map token_place result)
            ≡ find (is_token_of means) (children_with_tokens (place_in_declaration self.now)) }
    {
        support::token_of(self.syntax(), Kind::Name)
    }
}
