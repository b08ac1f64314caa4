// Written by rowan_grammar from small.ungram: change that, and not this file.
//! Wrappers of the nodes of Small: owned ones, which keep the tree, and those that borrow it.
ghost use Rattle.std.specs.Prelude.{◌≡◌, true};
ghost use Rattle.std.specs.Prelude.{filter, slice_get, IfOk, IfErr};
ghost use Rattle.std.specs.Option.{option_map, option_and_then};
ghost use Rattle.rowan.specs.Moves.{children};
ghost use Rattle.rowan.specs.Ast.{if_casts, has_one_of};
ghost use Rattle.grammar_small.specs.contracts.kinds.Kind.{the_type};
ghost use denote.Enum.Bare.{sameb};
ghost use Rattle.rowan.specs.Ast.{casts_at};
ghost use Rattle.rowan.specs.Refs.{node_place, token_place};
ghost use Rattle.grammar_small.specs.Casts.{has_number};
ghost use Rattle.grammar_small.specs.Kinds.{kind_of};

use crate::kinds::{Kind, Small};
use rowan::ast::{AstChildren, AstNode, AstNodeRef, AstNodesRef, AstToken, AstTokenRef, support};
use rowan::{Fault, SyntaxNode, SyntaxNodeRef, SyntaxToken, SyntaxTokenRef};
use std::marker::Model;

/// A node whose kind has this number.
#[derive(Clone, PartialEq, Eq, Hash, Drop)]
pub struct NodeOf<const KIND: u16> {
    syntax: SyntaxNode<Small>,
}

impl<const KIND: u16> Model for NodeOf<KIND> {
    ghost use Rattle.std.specs.Prelude.{◌≡◌, true};
    ghost use Rattle.rowan.specs.Cursor.{Cursor};
    ghost use Rattle.rowan.specs.CursorCode.{coded_cursor};
    ghost use Rattle.rowan.specs.Ast.{casts_at};
    ghost use Rattle.grammar_small.specs.Casts.{has_number};
    ghost use Rattle.grammar_small.specs.Kinds.{kind_of};

    ghost Value = { Cursor };

    ghost coded = { coded_cursor };

    ghost view = { λ wrapper. wrapper.syntax };

    ghost inverse = { λ node. record { syntax = node } };

    ghost invariant = { λ wrapper. casts_at kind_of (has_number KIND) wrapper.syntax ≡ true };
}

impl<const KIND: u16> AstNode for NodeOf<KIND> {
    type Language = Small;

    ghost use Rattle.std.specs.Prelude.{◌≡◌};
    ghost use Rattle.std.specs.Option.{option_map};
    ghost use Rattle.rowan.specs.Ast.{casts_at, if_casts};
    ghost use Rattle.grammar_small.specs.Casts.{has_number, same_kind};
    ghost use Rattle.grammar_small.specs.Kinds.{kind_of};
    ghost use Rattle.std.proofs.Common.{ap};

    ghost casts = { has_number KIND };

    ghost node_of = { λ wrapper. wrapper };

    fn can_cast(kind: Kind) -> bool {
        <Small as rowan::Language>::kind_to_raw(kind).0 == KIND
    }

    fn cast(syntax: SyntaxNode<Small>) -> std::option::Option<NodeOf<KIND>>
        ensures { let casting = casts_at kind_of (has_number KIND) in
            option_map (λ wrapper. wrapper) result ≡ if_casts casting syntax }
    {
        if Self::can_cast(syntax.kind()) {
            Some(NodeOf { syntax })
        } else {
            None
        }
    }

    fn syntax(&self) -> &SyntaxNode<Small> {
        &self.syntax
    }

    ghost equal_kinds = { λ a b same. ap (has_number KIND) (same_kind a b same) };
}

impl<const KIND: u16> NodeOf<KIND> {
    ghost use Rattle.std.specs.Prelude.{◌≡◌};
    ghost use Rattle.grammar_small.specs.NodeIn.{place_in};

    /// The same node, borrowed from its tree.
    pub fn as_ref(&self) -> NodeOfRef<'_, KIND>
        ensures { place_in result ≡ self.now }
    {
        NodeOfRef {
            syntax: self.syntax.as_ref(),
        }
    }
}

impl<const KIND: u16> std::fmt::Debug for NodeOf<KIND> {
    fn fmt<W: std::fmt::Write>(&self, f: &mut std::fmt::Formatter<W>) -> std::fmt::Result {
        self.syntax.fmt(f)
    }
}

/// A node whose kind has this number, borrowed from its tree.
#[derive(Clone, Copy, PartialEq, Eq, Hash)]
pub struct NodeOfRef<'tree, const KIND: u16> {
    syntax: SyntaxNodeRef<'tree, Small>,
    ghost casts: { casts_at kind_of (has_number KIND) (node_place syntax) ≡ true },
}

impl<'tree, const KIND: u16> AstNodeRef<'tree> for NodeOfRef<'tree, KIND> {
    type Language = Small;

    ghost use Rattle.std.specs.Prelude.{◌≡◌, true};
    ghost use Rattle.std.specs.Option.{option_map};
    ghost use Rattle.rowan.specs.Ast.{casts_at, if_casts};
    ghost use Rattle.rowan.specs.Refs.{node_place};
    ghost use Rattle.grammar_small.specs.Casts.{has_number};
    ghost use Rattle.grammar_small.specs.Kinds.{kind_of};
    ghost use Rattle.grammar_small.specs.NodeIn.{place_in};

    ghost casts = { has_number KIND };

    ghost node_of = { place_in };

    fn can_cast(kind: Kind) -> bool
        ensures { result ≡ has_number KIND kind }
    {
        <Small as rowan::Language>::kind_to_raw(kind).0 == KIND
    }

    fn cast(syntax: SyntaxNodeRef<'tree, Small>) -> std::option::Option<NodeOfRef<'tree, KIND>>
        ensures { let casting = casts_at kind_of (has_number KIND) in
            option_map place_in result ≡ if_casts casting (node_place syntax.entry) }
    {
        if Self::can_cast(syntax.kind()) {
            Some(NodeOfRef { syntax })
        } else {
            None
        }
    }

    fn syntax(&self) -> SyntaxNodeRef<'tree, Small>
        ensures node { node_place result ≡ place_in self.now }
        ensures casts { casts_at kind_of (has_number KIND) (node_place result) ≡ true }
    {
        self.syntax
    }
}

impl<'tree, const KIND: u16> NodeOfRef<'tree, KIND> {
    ghost use Rattle.std.specs.Prelude.{◌≡◌, IfOk, IfErr};
    ghost use Rattle.grammar_small.specs.NodeIn.{place_in};

    /// The same node in a wrapper that keeps the tree. Refused with `Memory` alone.
    pub fn to_owned(&self) -> Result<NodeOf<KIND>, Fault>
        ensures ok { IfOk result (λ owned. owned ≡ place_in self.now) }
        ensures err { IfErr result (λ e. e ≡ Fault.Memory) }
    {
        let syntax = self.syntax.to_owned()?;
        Ok(NodeOf { syntax })
    }
}

impl<const KIND: u16> std::fmt::Debug for NodeOfRef<'_, KIND> {
    fn fmt<W: std::fmt::Write>(&self, f: &mut std::fmt::Formatter<W>) -> std::fmt::Result {
        self.syntax.fmt(f)
    }
}

/// A token whose kind has this number.
#[derive(Clone, PartialEq, Eq, Hash, Drop)]
pub struct TokenOf<const KIND: u16> {
    syntax: SyntaxToken<Small>,
}

impl<const KIND: u16> Model for TokenOf<KIND> {
    ghost use Rattle.std.specs.Prelude.{◌≡◌, true};
    ghost use Rattle.rowan.specs.Cursor.{Cursor};
    ghost use Rattle.rowan.specs.CursorCode.{coded_cursor};
    ghost use Rattle.rowan.specs.Ast.{casts_at};
    ghost use Rattle.grammar_small.specs.Casts.{has_number};
    ghost use Rattle.grammar_small.specs.Kinds.{kind_of};

    ghost Value = { Cursor };

    ghost coded = { coded_cursor };

    ghost view = { λ wrapper. wrapper.syntax };

    ghost inverse = { λ token. record { syntax = token } };

    ghost invariant = { λ wrapper. casts_at kind_of (has_number KIND) wrapper.syntax ≡ true };
}

impl<const KIND: u16> AstToken for TokenOf<KIND> {
    type Language = Small;

    ghost use Rattle.std.specs.Prelude.{◌≡◌};
    ghost use Rattle.std.specs.Option.{option_map};
    ghost use Rattle.rowan.specs.Ast.{casts_at, if_casts};
    ghost use Rattle.grammar_small.specs.Casts.{has_number};
    ghost use Rattle.grammar_small.specs.Kinds.{kind_of};

    ghost casts = { has_number KIND };

    ghost token_of = { λ wrapper. wrapper };

    fn can_cast(kind: Kind) -> bool {
        <Small as rowan::Language>::kind_to_raw(kind).0 == KIND
    }

    fn cast(syntax: SyntaxToken<Small>) -> std::option::Option<TokenOf<KIND>>
        ensures { let casting = casts_at kind_of (has_number KIND) in
            option_map (λ wrapper. wrapper) result ≡ if_casts casting syntax }
    {
        if Self::can_cast(syntax.kind()) {
            Some(TokenOf { syntax })
        } else {
            None
        }
    }

    fn syntax(&self) -> &SyntaxToken<Small> {
        &self.syntax
    }
}

impl<const KIND: u16> TokenOf<KIND> {
    ghost use Rattle.std.specs.Prelude.{◌≡◌};
    ghost use Rattle.grammar_small.specs.NodeIn.{token_in};

    /// The same token, borrowed from its tree.
    pub fn as_ref(&self) -> TokenOfRef<'_, KIND>
        ensures { token_in result ≡ self.now }
    {
        TokenOfRef {
            syntax: self.syntax.as_ref(),
        }
    }
}

impl<const KIND: u16> std::fmt::Debug for TokenOf<KIND> {
    fn fmt<W: std::fmt::Write>(&self, f: &mut std::fmt::Formatter<W>) -> std::fmt::Result {
        self.syntax.fmt(f)
    }
}

/// A token whose kind has this number, borrowed from its tree.
#[derive(Clone, Copy, PartialEq, Eq, Hash)]
pub struct TokenOfRef<'tree, const KIND: u16> {
    syntax: SyntaxTokenRef<'tree, Small>,
    ghost casts: { casts_at kind_of (has_number KIND) (token_place syntax) ≡ true },
}

impl<'tree, const KIND: u16> AstTokenRef<'tree> for TokenOfRef<'tree, KIND> {
    type Language = Small;

    ghost use Rattle.std.specs.Prelude.{◌≡◌, true};
    ghost use Rattle.std.specs.Option.{option_map};
    ghost use Rattle.rowan.specs.Ast.{casts_at, if_casts};
    ghost use Rattle.rowan.specs.Cursor.{text_at};
    ghost use Rattle.rowan.specs.Refs.{token_place};
    ghost use Rattle.grammar_small.specs.Casts.{has_number};
    ghost use Rattle.grammar_small.specs.Kinds.{kind_of};
    ghost use Rattle.grammar_small.specs.NodeIn.{token_in};

    ghost casts = { has_number KIND };

    ghost token_of = { token_in };

    fn can_cast(kind: Kind) -> bool
        ensures { result ≡ has_number KIND kind }
    {
        <Small as rowan::Language>::kind_to_raw(kind).0 == KIND
    }

    fn cast(syntax: SyntaxTokenRef<'tree, Small>) -> std::option::Option<TokenOfRef<'tree, KIND>>
        ensures { let casting = casts_at kind_of (has_number KIND) in
            option_map token_in result ≡ if_casts casting (token_place syntax.entry) }
    {
        if Self::can_cast(syntax.kind()) {
            Some(TokenOfRef { syntax })
        } else {
            None
        }
    }

    fn syntax(&self) -> SyntaxTokenRef<'tree, Small>
        ensures token { token_place result ≡ token_in self.now }
        ensures casts { casts_at kind_of (has_number KIND) (token_place result) ≡ true }
    {
        self.syntax
    }

    fn text(&self) -> &'tree str
        ensures { result.now ≡ text_at (token_in self.now) }
    {
        self.syntax.text()
    }
}

impl<'tree, const KIND: u16> TokenOfRef<'tree, KIND> {
    ghost use Rattle.std.specs.Prelude.{◌≡◌, IfOk, IfErr};
    ghost use Rattle.grammar_small.specs.NodeIn.{token_in};

    /// The same token in a wrapper that keeps the tree. Refused with `Memory` alone.
    pub fn to_owned(&self) -> Result<TokenOf<KIND>, Fault>
        ensures ok { IfOk result (λ owned. owned ≡ token_in self.now) }
        ensures err { IfErr result (λ e. e ≡ Fault.Memory) }
    {
        let syntax = self.syntax.to_owned()?;
        Ok(TokenOf { syntax })
    }
}

impl<const KIND: u16> std::fmt::Debug for TokenOfRef<'_, KIND> {
    fn fmt<W: std::fmt::Write>(&self, f: &mut std::fmt::Formatter<W>) -> std::fmt::Result {
        self.syntax.fmt(f)
    }
}

/// Digits.
pub type Number = TokenOf<1>;

/// [`Number`], borrowed from its tree.
pub type NumberRef<'tree> = TokenOfRef<'tree, 1>;

/// The node of the whole text.
///
/// ```text
/// Program = Expr* Option?
/// ```
pub type Program = NodeOf<17>;

/// [`Program`], borrowed from its tree.
pub type ProgramRef<'tree> = NodeOfRef<'tree, 17>;

impl Program {
    ghost use Rattle.std.specs.Prelude.{◌≡◌, IfOk, IfErr};
    ghost use Rattle.std.specs.List.{find};
    ghost use Rattle.std.specs.Option.{option_map};
    ghost use Rattle.rowan.specs.Moves.{children};
    ghost use Rattle.rowan.specs.Ast.{casts_at};
    ghost use Rattle.grammar_small.specs.Kinds.{kind_of};
    ghost use Rattle.grammar_small.specs.Casts.{is_option};

    /// The children that are `Expr`, in order.
    pub fn exprs(&self) -> AstChildren<Expr>
        ensures ok { IfOk result (λ nodes. nodes ≡ children self.now) }
        ensures err { IfErr result (λ e. e ≡ Fault.Memory) }
    {
        support::children(&self.syntax)
    }

    /// The first child that is `Option`.
    pub fn option(&self) -> Result<std::option::Option<Option>, Fault>
        ensures ok { let casts = casts_at kind_of is_option in
            IfOk result (λ found.
            option_map (λ node. node) found ≡ find casts (children self.now)) }
        ensures err { IfErr result (λ e. e ≡ Fault.Memory) }
    {
        support::child(&self.syntax)
    }
}

impl<'tree> ProgramRef<'tree> {
    ghost use Rattle.std.specs.Prelude.{◌≡◌, filter};
    ghost use Rattle.std.specs.List.{find};
    ghost use Rattle.std.specs.Option.{option_map};
    ghost use Rattle.rowan.specs.Moves.{children};
    ghost use Rattle.rowan.specs.Ast.{casts_at, rest_that_casts};
    ghost use Rattle.grammar_small.specs.Kinds.{kind_of};
    ghost use Rattle.grammar_small.specs.Casts.{is_expr, is_option};
    ghost use Rattle.grammar_small.specs.NodeIn.{place_in};

    /// The children that are `Expr`, in order.
    pub fn exprs(&self) -> AstNodesRef<'tree, ExprRef<'tree>>
        ensures { let casts = casts_at kind_of is_expr in
            rest_that_casts casts result ≡ filter casts (children (place_in self.now)) }
    {
        support::children_ref(self.syntax)
    }

    /// The first child that is `Option`.
    pub fn option(&self) -> std::option::Option<OptionRef<'tree>>
        ensures { let casts = casts_at kind_of is_option in
            option_map place_in result ≡ find casts (children (place_in self.now)) }
    {
        support::child_ref(self.syntax)
    }
}

/// An expression.
///
/// ```text
/// Expr = Literal | Sum | Range | Fn | List | Condition
/// ```
#[derive(Clone, PartialEq, Eq, Hash, Debug, Drop)]
pub enum Expr {
    /// A number.
    Literal(Literal),
    /// A sum or a difference.
    Sum(Sum),
    /// The numbers between two.
    Range(Range),
    /// A call, named by a trait.
    Fn(Fn),
    /// Expressions in braces, named by a word of clauses.
    List(List),
    /// One of two lists, or a list or nothing.
    Condition(Condition),
}

impl AstNode for Expr {
    type Language = Small;

    ghost use Rattle.std.specs.Prelude.{◌≡◌};
    ghost use Rattle.std.specs.Option.{option_map};
    ghost use Rattle.rowan.specs.Ast.{casts_at, if_casts};
    ghost use Rattle.grammar_small.specs.Casts.{is_expr, same_kind};
    ghost use Rattle.grammar_small.specs.Kinds.{kind_of};
    ghost use Rattle.grammar_small.specs.NodeIn.{node_in_expr};
    ghost use Rattle.std.proofs.Common.{ap};

    ghost casts = { is_expr };

    ghost node_of = { node_in_expr };

    fn can_cast(kind: Kind) -> bool {
        match kind {
            Kind::Literal => true,
            Kind::Sum => true,
            Kind::Range => true,
            Kind::Fn => true,
            Kind::List => true,
            Kind::Condition => true,
            _ => false,
        }
    }

    fn cast(syntax: SyntaxNode<Small>) -> std::option::Option<Expr>
        ensures { let casting = casts_at kind_of is_expr in
            option_map node_in_expr result ≡ if_casts casting syntax }
    {
        match syntax.kind() {
            Kind::Literal => Some(Expr::Literal(NodeOf { syntax })),
            Kind::Sum => Some(Expr::Sum(NodeOf { syntax })),
            Kind::Range => Some(Expr::Range(NodeOf { syntax })),
            Kind::Fn => Some(Expr::Fn(NodeOf { syntax })),
            Kind::List => Some(Expr::List(NodeOf { syntax })),
            Kind::Condition => Some(Expr::Condition(NodeOf { syntax })),
            _ => None,
        }
    }

    #[tactic(auto, using(crate::proofs::CastLemmas::literal_is_expr, crate::proofs::CastLemmas::sum_is_expr, crate::proofs::CastLemmas::range_is_expr, crate::proofs::CastLemmas::fn_is_expr, crate::proofs::CastLemmas::list_is_expr, crate::proofs::CastLemmas::condition_is_expr))]
    fn syntax(&self) -> &SyntaxNode<Small> {
        match self {
            Expr::Literal(node) => node.syntax(),
            Expr::Sum(node) => node.syntax(),
            Expr::Range(node) => node.syntax(),
            Expr::Fn(node) => node.syntax(),
            Expr::List(node) => node.syntax(),
            Expr::Condition(node) => node.syntax(),
        }
    }

    ghost equal_kinds = { λ a b same. ap is_expr (same_kind a b same) };
}

impl Expr {
    ghost use Rattle.std.specs.Prelude.{◌≡◌};
    ghost use Rattle.grammar_small.specs.NodeIn.{node_in_expr, place_in_expr};

    /// The same node, borrowed from its tree.
    pub fn as_ref(&self) -> ExprRef<'_>
        ensures { place_in_expr result ≡ node_in_expr self.now }
    {
        ExprRef::cast(self.syntax().as_ref()).unwrap()
    }
}

/// [`Expr`], borrowed from its tree.
#[derive(Clone, Copy, PartialEq, Eq, Hash, Debug)]
pub enum ExprRef<'tree> {
    /// A number.
    Literal(LiteralRef<'tree>),
    /// A sum or a difference.
    Sum(SumRef<'tree>),
    /// The numbers between two.
    Range(RangeRef<'tree>),
    /// A call, named by a trait.
    Fn(FnRef<'tree>),
    /// Expressions in braces, named by a word of clauses.
    List(ListRef<'tree>),
    /// One of two lists, or a list or nothing.
    Condition(ConditionRef<'tree>),
}

impl<'tree> AstNodeRef<'tree> for ExprRef<'tree> {
    type Language = Small;

    ghost use Rattle.std.specs.Prelude.{◌≡◌, true};
    ghost use Rattle.std.specs.Option.{option_map};
    ghost use Rattle.rowan.specs.Ast.{casts_at, if_casts};
    ghost use Rattle.rowan.specs.Refs.{node_place};
    ghost use Rattle.grammar_small.specs.Casts.{is_expr};
    ghost use Rattle.grammar_small.specs.Kinds.{kind_of};
    ghost use Rattle.grammar_small.specs.NodeIn.{place_in_expr};

    ghost casts = { is_expr };

    ghost node_of = { place_in_expr };

    fn can_cast(kind: Kind) -> bool
        ensures { result ≡ is_expr kind }
    {
        Expr::can_cast(kind)
    }

    fn cast(syntax: SyntaxNodeRef<'tree, Small>) -> std::option::Option<ExprRef<'tree>>
        ensures { let casting = casts_at kind_of is_expr in
            option_map place_in_expr result ≡ if_casts casting (node_place syntax.entry) }
    {
        match syntax.kind() {
            Kind::Literal => Some(ExprRef::Literal(NodeOfRef { syntax })),
            Kind::Sum => Some(ExprRef::Sum(NodeOfRef { syntax })),
            Kind::Range => Some(ExprRef::Range(NodeOfRef { syntax })),
            Kind::Fn => Some(ExprRef::Fn(NodeOfRef { syntax })),
            Kind::List => Some(ExprRef::List(NodeOfRef { syntax })),
            Kind::Condition => Some(ExprRef::Condition(NodeOfRef { syntax })),
            _ => None,
        }
    }

    #[tactic(auto, using(crate::proofs::CastLemmas::literal_is_expr_raw, crate::proofs::CastLemmas::sum_is_expr_raw, crate::proofs::CastLemmas::range_is_expr_raw, crate::proofs::CastLemmas::fn_is_expr_raw, crate::proofs::CastLemmas::list_is_expr_raw, crate::proofs::CastLemmas::condition_is_expr_raw))]
    fn syntax(&self) -> SyntaxNodeRef<'tree, Small>
        ensures node { node_place result ≡ place_in_expr self.now }
        ensures casts { casts_at kind_of is_expr (node_place result) ≡ true }
    {
        match self {
            ExprRef::Literal(node) => node.syntax(),
            ExprRef::Sum(node) => node.syntax(),
            ExprRef::Range(node) => node.syntax(),
            ExprRef::Fn(node) => node.syntax(),
            ExprRef::List(node) => node.syntax(),
            ExprRef::Condition(node) => node.syntax(),
        }
    }
}

impl<'tree> ExprRef<'tree> {
    ghost use Rattle.std.specs.Prelude.{◌≡◌, IfOk, IfErr};
    ghost use Rattle.grammar_small.specs.NodeIn.{node_in_expr, place_in_expr};

    /// The same node in a wrapper that keeps the tree. Refused with `Memory` alone.
    pub fn to_owned(&self) -> Result<Expr, Fault>
        ensures ok { IfOk result (λ owned. node_in_expr owned ≡ place_in_expr self.now) }
        ensures err { IfErr result (λ e. e ≡ Fault.Memory) }
    {
        let syntax = self.syntax().to_owned()?;
        Ok(Expr::cast(syntax).unwrap())
    }
}

impl From<Literal> for Expr {
    ghost use Rattle.std.specs.Prelude.{◌≡◌};
    ghost use Rattle.grammar_small.specs.NodeIn.{node_in_expr};

    ghost from_gives = { λ node whole. node_in_expr whole ≡ node };

    fn from(node: Literal) -> Expr {
        Expr::Literal(node)
    }
}

impl<'tree> From<LiteralRef<'tree>> for ExprRef<'tree> {
    ghost use Rattle.std.specs.Prelude.{◌≡◌};
    ghost use Rattle.grammar_small.specs.NodeIn.{place_in_expr, place_in};

    ghost from_gives = { λ node whole. place_in_expr whole ≡ place_in node };

    fn from(node: LiteralRef<'tree>) -> ExprRef<'tree> {
        ExprRef::Literal(node)
    }
}

impl From<Sum> for Expr {
    ghost use Rattle.std.specs.Prelude.{◌≡◌};
    ghost use Rattle.grammar_small.specs.NodeIn.{node_in_expr};

    ghost from_gives = { λ node whole. node_in_expr whole ≡ node };

    fn from(node: Sum) -> Expr {
        Expr::Sum(node)
    }
}

impl<'tree> From<SumRef<'tree>> for ExprRef<'tree> {
    ghost use Rattle.std.specs.Prelude.{◌≡◌};
    ghost use Rattle.grammar_small.specs.NodeIn.{place_in_expr, place_in};

    ghost from_gives = { λ node whole. place_in_expr whole ≡ place_in node };

    fn from(node: SumRef<'tree>) -> ExprRef<'tree> {
        ExprRef::Sum(node)
    }
}

impl From<Range> for Expr {
    ghost use Rattle.std.specs.Prelude.{◌≡◌};
    ghost use Rattle.grammar_small.specs.NodeIn.{node_in_expr};

    ghost from_gives = { λ node whole. node_in_expr whole ≡ node };

    fn from(node: Range) -> Expr {
        Expr::Range(node)
    }
}

impl<'tree> From<RangeRef<'tree>> for ExprRef<'tree> {
    ghost use Rattle.std.specs.Prelude.{◌≡◌};
    ghost use Rattle.grammar_small.specs.NodeIn.{place_in_expr, place_in};

    ghost from_gives = { λ node whole. place_in_expr whole ≡ place_in node };

    fn from(node: RangeRef<'tree>) -> ExprRef<'tree> {
        ExprRef::Range(node)
    }
}

impl From<Fn> for Expr {
    ghost use Rattle.std.specs.Prelude.{◌≡◌};
    ghost use Rattle.grammar_small.specs.NodeIn.{node_in_expr};

    ghost from_gives = { λ node whole. node_in_expr whole ≡ node };

    fn from(node: Fn) -> Expr {
        Expr::Fn(node)
    }
}

impl<'tree> From<FnRef<'tree>> for ExprRef<'tree> {
    ghost use Rattle.std.specs.Prelude.{◌≡◌};
    ghost use Rattle.grammar_small.specs.NodeIn.{place_in_expr, place_in};

    ghost from_gives = { λ node whole. place_in_expr whole ≡ place_in node };

    fn from(node: FnRef<'tree>) -> ExprRef<'tree> {
        ExprRef::Fn(node)
    }
}

impl From<List> for Expr {
    ghost use Rattle.std.specs.Prelude.{◌≡◌};
    ghost use Rattle.grammar_small.specs.NodeIn.{node_in_expr};

    ghost from_gives = { λ node whole. node_in_expr whole ≡ node };

    fn from(node: List) -> Expr {
        Expr::List(node)
    }
}

impl<'tree> From<ListRef<'tree>> for ExprRef<'tree> {
    ghost use Rattle.std.specs.Prelude.{◌≡◌};
    ghost use Rattle.grammar_small.specs.NodeIn.{place_in_expr, place_in};

    ghost from_gives = { λ node whole. place_in_expr whole ≡ place_in node };

    fn from(node: ListRef<'tree>) -> ExprRef<'tree> {
        ExprRef::List(node)
    }
}

impl From<Condition> for Expr {
    ghost use Rattle.std.specs.Prelude.{◌≡◌};
    ghost use Rattle.grammar_small.specs.NodeIn.{node_in_expr};

    ghost from_gives = { λ node whole. node_in_expr whole ≡ node };

    fn from(node: Condition) -> Expr {
        Expr::Condition(node)
    }
}

impl<'tree> From<ConditionRef<'tree>> for ExprRef<'tree> {
    ghost use Rattle.std.specs.Prelude.{◌≡◌};
    ghost use Rattle.grammar_small.specs.NodeIn.{place_in_expr, place_in};

    ghost from_gives = { λ node whole. place_in_expr whole ≡ place_in node };

    fn from(node: ConditionRef<'tree>) -> ExprRef<'tree> {
        ExprRef::Condition(node)
    }
}

/// A number.
///
/// ```text
/// Literal = Number
/// ```
pub type Literal = NodeOf<18>;

/// [`Literal`], borrowed from its tree.
pub type LiteralRef<'tree> = NodeOfRef<'tree, 18>;

impl Literal {
    ghost use Rattle.std.specs.Prelude.{◌≡◌, IfOk, IfErr};
    ghost use Rattle.std.specs.List.{find};
    ghost use Rattle.std.specs.Option.{option_map};
    ghost use Rattle.rowan.specs.Types.NodeOrToken.TheVariants.{Token};
    ghost use Rattle.rowan.specs.Moves.{children_with_tokens};
    ghost use Rattle.rowan.specs.Ast.{is_token_of};
    ghost use Rattle.rowan.specs.Pointer.{means_kind};
    ghost use Rattle.grammar_small.specs.contracts.kinds.Kind.{the_type};
    ghost use denote.Enum.Bare.{sameb};
    ghost use Rattle.grammar_small.specs.Kinds.{kind_of};

    /// The first token `Number`.
    pub fn number_token(&self) -> Result<std::option::Option<SyntaxToken<Small>>, Fault>
        ensures ok { let means = means_kind kind_of (sameb the_type) Kind.Number in
            IfOk result (λ found. option_map Token found
            ≡ find (is_token_of means) (children_with_tokens self.now)) }
        ensures err { IfErr result (λ e. e ≡ Fault.Memory) }
    {
        support::token(&self.syntax, Kind::Number)
    }
}

impl<'tree> LiteralRef<'tree> {
    ghost use Rattle.std.specs.Prelude.{◌≡◌};
    ghost use Rattle.std.specs.List.{find};
    ghost use Rattle.std.specs.Option.{option_map};
    ghost use Rattle.rowan.specs.Types.NodeOrToken.TheVariants.{Token};
    ghost use Rattle.rowan.specs.Moves.{children_with_tokens};
    ghost use Rattle.rowan.specs.Ast.{is_token_of};
    ghost use Rattle.rowan.specs.Refs.{token_place};
    ghost use Rattle.rowan.specs.Pointer.{means_kind};
    ghost use Rattle.grammar_small.specs.contracts.kinds.Kind.{the_type};
    ghost use denote.Enum.Bare.{sameb};
    ghost use Rattle.grammar_small.specs.Kinds.{kind_of};
    ghost use Rattle.grammar_small.specs.NodeIn.{place_in};

    /// The first token `Number`.
    pub fn number_token(&self) -> std::option::Option<SyntaxTokenRef<'tree, Small>>
        ensures { let means = means_kind kind_of (sameb the_type) Kind.Number in
            option_map Token (option_map token_place result)
            ≡ find (is_token_of means) (children_with_tokens (place_in self.now)) }
    {
        support::token_of(self.syntax, Kind::Number)
    }
}

/// A sum or a difference.
///
/// ```text
/// Sum = lhs:Expr op:('+' | '-') rhs:Expr
/// ```
pub type Sum = NodeOf<19>;

/// [`Sum`], borrowed from its tree.
pub type SumRef<'tree> = NodeOfRef<'tree, 19>;

/// The kinds of parts that are alike.
pub const SUM_LHS: &[Kind] = &[
    Kind::Literal,
    Kind::Sum,
    Kind::Range,
    Kind::Fn,
    Kind::List,
    Kind::Condition,
];

/// The kinds of parts that are alike.
pub const SUM_OP: &[Kind] = &[Kind::Plus, Kind::Minus];

impl Sum {
    ghost use Rattle.std.specs.Prelude.{◌≡◌, filter, slice_get, IfOk, IfErr};
    ghost use Rattle.std.specs.Option.{option_map, option_and_then};
    ghost use Rattle.rowan.specs.Types.NodeOrToken.TheVariants.{Token};
    ghost use Rattle.rowan.specs.Moves.{children, children_with_tokens};
    ghost use Rattle.rowan.specs.Ast.{casts_at, if_casts, has_one_of, is_token_of, means_one_of};
    ghost use Rattle.grammar_small.specs.contracts.kinds.Kind.{the_type};
    ghost use denote.Enum.Bare.{sameb};
    ghost use Rattle.grammar_small.specs.Kinds.{kind_of};
    ghost use Rattle.grammar_small.specs.Casts.{is_expr};
    ghost use Rattle.grammar_small.specs.NodeIn.{node_in_expr};

    /// The child at index 0 among those of `SUM_LHS`, if it is `Expr`.
    pub fn lhs(&self) -> Result<std::option::Option<Expr>, Fault>
        ensures ok { let alike = has_one_of kind_of (sameb the_type) SUM_LHS.now in
            let casts = casts_at kind_of is_expr in IfOk result (λ found.
            option_map node_in_expr found ≡ option_and_then (if_casts casts)
            (slice_get (filter alike (children self.now)) 0)) }
        ensures err { IfErr result (λ e. e ≡ Fault.Memory) }
    {
        nth_child(&self.syntax, SUM_LHS, 0)
    }

    /// The token at index 0 among those of `SUM_OP`.
    pub fn op(&self) -> Result<std::option::Option<SyntaxToken<Small>>, Fault>
        ensures ok { let alike = is_token_of (means_one_of kind_of (sameb the_type) SUM_OP.now) in
            IfOk result (λ found. option_map Token found
            ≡ slice_get (filter alike (children_with_tokens self.now)) 0) }
        ensures err { IfErr result (λ e. e ≡ Fault.Memory) }
    {
        support::nth_token(&self.syntax, SUM_OP, 0)
    }

    /// The child at index 1 among those of `SUM_LHS`, if it is `Expr`.
    pub fn rhs(&self) -> Result<std::option::Option<Expr>, Fault>
        ensures ok { let alike = has_one_of kind_of (sameb the_type) SUM_LHS.now in
            let casts = casts_at kind_of is_expr in IfOk result (λ found.
            option_map node_in_expr found ≡ option_and_then (if_casts casts)
            (slice_get (filter alike (children self.now)) 1)) }
        ensures err { IfErr result (λ e. e ≡ Fault.Memory) }
    {
        nth_child(&self.syntax, SUM_LHS, 1)
    }
}

impl<'tree> SumRef<'tree> {
    ghost use Rattle.std.specs.Prelude.{◌≡◌, filter, slice_get};
    ghost use Rattle.std.specs.Option.{option_map, option_and_then};
    ghost use Rattle.rowan.specs.Types.NodeOrToken.TheVariants.{Token};
    ghost use Rattle.rowan.specs.Moves.{children, children_with_tokens};
    ghost use Rattle.rowan.specs.Ast.{casts_at, if_casts, has_one_of, is_token_of, means_one_of};
    ghost use Rattle.rowan.specs.Refs.{token_place};
    ghost use Rattle.grammar_small.specs.contracts.kinds.Kind.{the_type};
    ghost use denote.Enum.Bare.{sameb};
    ghost use Rattle.grammar_small.specs.Kinds.{kind_of};
    ghost use Rattle.grammar_small.specs.Casts.{is_expr};
    ghost use Rattle.grammar_small.specs.NodeIn.{place_in, place_in_expr};

    /// The child at index 0 among those of `SUM_LHS`, if it is `Expr`.
    pub fn lhs(&self) -> std::option::Option<ExprRef<'tree>>
        ensures { let alike = has_one_of kind_of (sameb the_type) SUM_LHS.now in
            let casts = casts_at kind_of is_expr in
            option_map place_in_expr result ≡ option_and_then (if_casts casts)
            (slice_get (filter alike (children (place_in self.now))) 0) }
    {
        support::nth_child_ref(self.syntax, SUM_LHS, 0)
    }

    /// The token at index 0 among those of `SUM_OP`.
    pub fn op(&self) -> std::option::Option<SyntaxTokenRef<'tree, Small>>
        ensures { let alike = is_token_of (means_one_of kind_of (sameb the_type) SUM_OP.now) in
            option_map Token (option_map token_place result)
            ≡ slice_get (filter alike (children_with_tokens (place_in self.now))) 0 }
    {
        support::nth_token_ref(self.syntax, SUM_OP, 0)
    }

    /// The child at index 1 among those of `SUM_LHS`, if it is `Expr`.
    pub fn rhs(&self) -> std::option::Option<ExprRef<'tree>>
        ensures { let alike = has_one_of kind_of (sameb the_type) SUM_LHS.now in
            let casts = casts_at kind_of is_expr in
            option_map place_in_expr result ≡ option_and_then (if_casts casts)
            (slice_get (filter alike (children (place_in self.now))) 1) }
    {
        support::nth_child_ref(self.syntax, SUM_LHS, 1)
    }
}

/// The numbers between two.
///
/// ```text
/// Range = from:Number '..' to:Number
/// ```
pub type Range = NodeOf<20>;

/// [`Range`], borrowed from its tree.
pub type RangeRef<'tree> = NodeOfRef<'tree, 20>;

/// The kinds of parts that are alike.
pub const RANGE_FROM: &[Kind] = &[Kind::Number];

impl Range {
    ghost use Rattle.std.specs.Prelude.{◌≡◌, filter, slice_get, IfOk, IfErr};
    ghost use Rattle.std.specs.List.{find};
    ghost use Rattle.std.specs.Option.{option_map};
    ghost use Rattle.rowan.specs.Types.NodeOrToken.TheVariants.{Token};
    ghost use Rattle.rowan.specs.Moves.{children_with_tokens};
    ghost use Rattle.rowan.specs.Ast.{is_token_of, means_one_of};
    ghost use Rattle.rowan.specs.Pointer.{means_kind};
    ghost use Rattle.grammar_small.specs.contracts.kinds.Kind.{the_type};
    ghost use denote.Enum.Bare.{sameb};
    ghost use Rattle.grammar_small.specs.Kinds.{kind_of};

    /// The token at index 0 among those of `RANGE_FROM`.
    pub fn from(&self) -> Result<std::option::Option<SyntaxToken<Small>>, Fault>
        ensures ok { let alike = is_token_of (means_one_of kind_of (sameb the_type) RANGE_FROM.now) in
            IfOk result (λ found. option_map Token found
            ≡ slice_get (filter alike (children_with_tokens self.now)) 0) }
        ensures err { IfErr result (λ e. e ≡ Fault.Memory) }
    {
        support::nth_token(&self.syntax, RANGE_FROM, 0)
    }

    /// The first token `Dots`.
    pub fn dots_token(&self) -> Result<std::option::Option<SyntaxToken<Small>>, Fault>
        ensures ok { let means = means_kind kind_of (sameb the_type) Kind.Dots in
            IfOk result (λ found. option_map Token found
            ≡ find (is_token_of means) (children_with_tokens self.now)) }
        ensures err { IfErr result (λ e. e ≡ Fault.Memory) }
    {
        support::token(&self.syntax, Kind::Dots)
    }

    /// The token at index 1 among those of `RANGE_FROM`.
    pub fn to(&self) -> Result<std::option::Option<SyntaxToken<Small>>, Fault>
        ensures ok { let alike = is_token_of (means_one_of kind_of (sameb the_type) RANGE_FROM.now) in
            IfOk result (λ found. option_map Token found
            ≡ slice_get (filter alike (children_with_tokens self.now)) 1) }
        ensures err { IfErr result (λ e. e ≡ Fault.Memory) }
    {
        support::nth_token(&self.syntax, RANGE_FROM, 1)
    }
}

impl<'tree> RangeRef<'tree> {
    ghost use Rattle.std.specs.Prelude.{◌≡◌, filter, slice_get};
    ghost use Rattle.std.specs.List.{find};
    ghost use Rattle.std.specs.Option.{option_map};
    ghost use Rattle.rowan.specs.Types.NodeOrToken.TheVariants.{Token};
    ghost use Rattle.rowan.specs.Moves.{children_with_tokens};
    ghost use Rattle.rowan.specs.Ast.{is_token_of, means_one_of};
    ghost use Rattle.rowan.specs.Refs.{token_place};
    ghost use Rattle.rowan.specs.Pointer.{means_kind};
    ghost use Rattle.grammar_small.specs.contracts.kinds.Kind.{the_type};
    ghost use denote.Enum.Bare.{sameb};
    ghost use Rattle.grammar_small.specs.Kinds.{kind_of};
    ghost use Rattle.grammar_small.specs.NodeIn.{place_in};

    /// The token at index 0 among those of `RANGE_FROM`.
    pub fn from(&self) -> std::option::Option<SyntaxTokenRef<'tree, Small>>
        ensures { let alike = is_token_of (means_one_of kind_of (sameb the_type) RANGE_FROM.now) in
            option_map Token (option_map token_place result)
            ≡ slice_get (filter alike (children_with_tokens (place_in self.now))) 0 }
    {
        support::nth_token_ref(self.syntax, RANGE_FROM, 0)
    }

    /// The first token `Dots`.
    pub fn dots_token(&self) -> std::option::Option<SyntaxTokenRef<'tree, Small>>
        ensures { let means = means_kind kind_of (sameb the_type) Kind.Dots in
            option_map Token (option_map token_place result)
            ≡ find (is_token_of means) (children_with_tokens (place_in self.now)) }
    {
        support::token_of(self.syntax, Kind::Dots)
    }

    /// The token at index 1 among those of `RANGE_FROM`.
    pub fn to(&self) -> std::option::Option<SyntaxTokenRef<'tree, Small>>
        ensures { let alike = is_token_of (means_one_of kind_of (sameb the_type) RANGE_FROM.now) in
            option_map Token (option_map token_place result)
            ≡ slice_get (filter alike (children_with_tokens (place_in self.now))) 1 }
    {
        support::nth_token_ref(self.syntax, RANGE_FROM, 1)
    }
}

/// A call, named by a trait.
///
/// ```text
/// Fn = callee:(Literal | List) args:('(' (Self (',' Self)* ','?)? ')')
/// ```
pub type Fn = NodeOf<21>;

/// [`Fn`], borrowed from its tree.
pub type FnRef<'tree> = NodeOfRef<'tree, 21>;

impl Fn {
    ghost use Rattle.std.specs.Prelude.{◌≡◌, IfOk, IfErr};
    ghost use Rattle.std.specs.List.{find};
    ghost use Rattle.std.specs.Option.{option_map};
    ghost use Rattle.rowan.specs.Types.NodeOrToken.TheVariants.{Token};
    ghost use Rattle.rowan.specs.Moves.{children, children_with_tokens};
    ghost use Rattle.rowan.specs.Ast.{casts_at, is_token_of};
    ghost use Rattle.rowan.specs.Pointer.{means_kind};
    ghost use Rattle.grammar_small.specs.contracts.kinds.Kind.{the_type};
    ghost use denote.Enum.Bare.{sameb};
    ghost use Rattle.grammar_small.specs.Kinds.{kind_of};
    ghost use Rattle.grammar_small.specs.Casts.{is_fn_callee};
    ghost use Rattle.grammar_small.specs.NodeIn.{node_in_fn_callee};

    /// The first child that is `FnCallee`.
    pub fn callee(&self) -> Result<std::option::Option<FnCallee>, Fault>
        ensures ok { let casts = casts_at kind_of is_fn_callee in
            IfOk result (λ found.
            option_map node_in_fn_callee found ≡ find casts (children self.now)) }
        ensures err { IfErr result (λ e. e ≡ Fault.Memory) }
    {
        support::child(&self.syntax)
    }

    /// The first token `OpenParen`.
    pub fn open_paren_token(&self) -> Result<std::option::Option<SyntaxToken<Small>>, Fault>
        ensures ok { let means = means_kind kind_of (sameb the_type) Kind.OpenParen in
            IfOk result (λ found. option_map Token found
            ≡ find (is_token_of means) (children_with_tokens self.now)) }
        ensures err { IfErr result (λ e. e ≡ Fault.Memory) }
    {
        support::token(&self.syntax, Kind::OpenParen)
    }

    /// The children that are `Self_`, in order.
    pub fn args(&self) -> AstChildren<Self_>
        ensures ok { IfOk result (λ nodes. nodes ≡ children self.now) }
        ensures err { IfErr result (λ e. e ≡ Fault.Memory) }
    {
        support::children(&self.syntax)
    }

    /// The first token `CloseParen`.
    pub fn close_paren_token(&self) -> Result<std::option::Option<SyntaxToken<Small>>, Fault>
        ensures ok { let means = means_kind kind_of (sameb the_type) Kind.CloseParen in
            IfOk result (λ found. option_map Token found
            ≡ find (is_token_of means) (children_with_tokens self.now)) }
        ensures err { IfErr result (λ e. e ≡ Fault.Memory) }
    {
        support::token(&self.syntax, Kind::CloseParen)
    }
}

impl<'tree> FnRef<'tree> {
    ghost use Rattle.std.specs.Prelude.{◌≡◌, filter};
    ghost use Rattle.std.specs.List.{find};
    ghost use Rattle.std.specs.Option.{option_map};
    ghost use Rattle.rowan.specs.Types.NodeOrToken.TheVariants.{Token};
    ghost use Rattle.rowan.specs.Moves.{children, children_with_tokens};
    ghost use Rattle.rowan.specs.Ast.{casts_at, is_token_of, rest_that_casts};
    ghost use Rattle.rowan.specs.Refs.{token_place};
    ghost use Rattle.rowan.specs.Pointer.{means_kind};
    ghost use Rattle.grammar_small.specs.contracts.kinds.Kind.{the_type};
    ghost use denote.Enum.Bare.{sameb};
    ghost use Rattle.grammar_small.specs.Kinds.{kind_of};
    ghost use Rattle.grammar_small.specs.Casts.{is_fn_callee, is_self_};
    ghost use Rattle.grammar_small.specs.NodeIn.{place_in, place_in_fn_callee};

    /// The first child that is `FnCallee`.
    pub fn callee(&self) -> std::option::Option<FnCalleeRef<'tree>>
        ensures { let casts = casts_at kind_of is_fn_callee in
            option_map place_in_fn_callee result ≡ find casts (children (place_in self.now)) }
    {
        support::child_ref(self.syntax)
    }

    /// The first token `OpenParen`.
    pub fn open_paren_token(&self) -> std::option::Option<SyntaxTokenRef<'tree, Small>>
        ensures { let means = means_kind kind_of (sameb the_type) Kind.OpenParen in
            option_map Token (option_map token_place result)
            ≡ find (is_token_of means) (children_with_tokens (place_in self.now)) }
    {
        support::token_of(self.syntax, Kind::OpenParen)
    }

    /// The children that are `Self_`, in order.
    pub fn args(&self) -> AstNodesRef<'tree, Self_Ref<'tree>>
        ensures { let casts = casts_at kind_of is_self_ in
            rest_that_casts casts result ≡ filter casts (children (place_in self.now)) }
    {
        support::children_ref(self.syntax)
    }

    /// The first token `CloseParen`.
    pub fn close_paren_token(&self) -> std::option::Option<SyntaxTokenRef<'tree, Small>>
        ensures { let means = means_kind kind_of (sameb the_type) Kind.CloseParen in
            option_map Token (option_map token_place result)
            ≡ find (is_token_of means) (children_with_tokens (place_in self.now)) }
    {
        support::token_of(self.syntax, Kind::CloseParen)
    }
}

/// An argument, named by a word of the language.
///
/// ```text
/// Self = Expr
/// ```
pub type Self_ = NodeOf<22>;

/// [`Self_`], borrowed from its tree.
pub type Self_Ref<'tree> = NodeOfRef<'tree, 22>;

impl Self_ {
    ghost use Rattle.std.specs.Prelude.{◌≡◌, IfOk, IfErr};
    ghost use Rattle.std.specs.List.{find};
    ghost use Rattle.std.specs.Option.{option_map};
    ghost use Rattle.rowan.specs.Moves.{children};
    ghost use Rattle.rowan.specs.Ast.{casts_at};
    ghost use Rattle.grammar_small.specs.Kinds.{kind_of};
    ghost use Rattle.grammar_small.specs.Casts.{is_expr};
    ghost use Rattle.grammar_small.specs.NodeIn.{node_in_expr};

    /// The first child that is `Expr`.
    pub fn expr(&self) -> Result<std::option::Option<Expr>, Fault>
        ensures ok { let casts = casts_at kind_of is_expr in
            IfOk result (λ found.
            option_map node_in_expr found ≡ find casts (children self.now)) }
        ensures err { IfErr result (λ e. e ≡ Fault.Memory) }
    {
        support::child(&self.syntax)
    }
}

impl<'tree> Self_Ref<'tree> {
    ghost use Rattle.std.specs.Prelude.{◌≡◌};
    ghost use Rattle.std.specs.List.{find};
    ghost use Rattle.std.specs.Option.{option_map};
    ghost use Rattle.rowan.specs.Moves.{children};
    ghost use Rattle.rowan.specs.Ast.{casts_at};
    ghost use Rattle.grammar_small.specs.Kinds.{kind_of};
    ghost use Rattle.grammar_small.specs.Casts.{is_expr};
    ghost use Rattle.grammar_small.specs.NodeIn.{place_in, place_in_expr};

    /// The first child that is `Expr`.
    pub fn expr(&self) -> std::option::Option<ExprRef<'tree>>
        ensures { let casts = casts_at kind_of is_expr in
            option_map place_in_expr result ≡ find casts (children (place_in self.now)) }
    {
        support::child_ref(self.syntax)
    }
}

/// Expressions in braces, named by a word of clauses.
///
/// ```text
/// List = '{' Expr* '}'
/// ```
pub type List = NodeOf<23>;

/// [`List`], borrowed from its tree.
pub type ListRef<'tree> = NodeOfRef<'tree, 23>;

impl List {
    ghost use Rattle.std.specs.Prelude.{◌≡◌, IfOk, IfErr};
    ghost use Rattle.std.specs.List.{find};
    ghost use Rattle.std.specs.Option.{option_map};
    ghost use Rattle.rowan.specs.Types.NodeOrToken.TheVariants.{Token};
    ghost use Rattle.rowan.specs.Moves.{children, children_with_tokens};
    ghost use Rattle.rowan.specs.Ast.{is_token_of};
    ghost use Rattle.rowan.specs.Pointer.{means_kind};
    ghost use Rattle.grammar_small.specs.contracts.kinds.Kind.{the_type};
    ghost use denote.Enum.Bare.{sameb};
    ghost use Rattle.grammar_small.specs.Kinds.{kind_of};

    /// The first token `OpenBrace`.
    pub fn open_brace_token(&self) -> Result<std::option::Option<SyntaxToken<Small>>, Fault>
        ensures ok { let means = means_kind kind_of (sameb the_type) Kind.OpenBrace in
            IfOk result (λ found. option_map Token found
            ≡ find (is_token_of means) (children_with_tokens self.now)) }
        ensures err { IfErr result (λ e. e ≡ Fault.Memory) }
    {
        support::token(&self.syntax, Kind::OpenBrace)
    }

    /// The children that are `Expr`, in order.
    pub fn exprs(&self) -> AstChildren<Expr>
        ensures ok { IfOk result (λ nodes. nodes ≡ children self.now) }
        ensures err { IfErr result (λ e. e ≡ Fault.Memory) }
    {
        support::children(&self.syntax)
    }

    /// The first token `CloseBrace`.
    pub fn close_brace_token(&self) -> Result<std::option::Option<SyntaxToken<Small>>, Fault>
        ensures ok { let means = means_kind kind_of (sameb the_type) Kind.CloseBrace in
            IfOk result (λ found. option_map Token found
            ≡ find (is_token_of means) (children_with_tokens self.now)) }
        ensures err { IfErr result (λ e. e ≡ Fault.Memory) }
    {
        support::token(&self.syntax, Kind::CloseBrace)
    }
}

impl<'tree> ListRef<'tree> {
    ghost use Rattle.std.specs.Prelude.{◌≡◌, filter};
    ghost use Rattle.std.specs.List.{find};
    ghost use Rattle.std.specs.Option.{option_map};
    ghost use Rattle.rowan.specs.Types.NodeOrToken.TheVariants.{Token};
    ghost use Rattle.rowan.specs.Moves.{children, children_with_tokens};
    ghost use Rattle.rowan.specs.Ast.{casts_at, is_token_of, rest_that_casts};
    ghost use Rattle.rowan.specs.Refs.{token_place};
    ghost use Rattle.rowan.specs.Pointer.{means_kind};
    ghost use Rattle.grammar_small.specs.contracts.kinds.Kind.{the_type};
    ghost use denote.Enum.Bare.{sameb};
    ghost use Rattle.grammar_small.specs.Kinds.{kind_of};
    ghost use Rattle.grammar_small.specs.Casts.{is_expr};
    ghost use Rattle.grammar_small.specs.NodeIn.{place_in};

    /// The first token `OpenBrace`.
    pub fn open_brace_token(&self) -> std::option::Option<SyntaxTokenRef<'tree, Small>>
        ensures { let means = means_kind kind_of (sameb the_type) Kind.OpenBrace in
            option_map Token (option_map token_place result)
            ≡ find (is_token_of means) (children_with_tokens (place_in self.now)) }
    {
        support::token_of(self.syntax, Kind::OpenBrace)
    }

    /// The children that are `Expr`, in order.
    pub fn exprs(&self) -> AstNodesRef<'tree, ExprRef<'tree>>
        ensures { let casts = casts_at kind_of is_expr in
            rest_that_casts casts result ≡ filter casts (children (place_in self.now)) }
    {
        support::children_ref(self.syntax)
    }

    /// The first token `CloseBrace`.
    pub fn close_brace_token(&self) -> std::option::Option<SyntaxTokenRef<'tree, Small>>
        ensures { let means = means_kind kind_of (sameb the_type) Kind.CloseBrace in
            option_map Token (option_map token_place result)
            ≡ find (is_token_of means) (children_with_tokens (place_in self.now)) }
    {
        support::token_of(self.syntax, Kind::CloseBrace)
    }
}

/// One of two lists, or a list or nothing.
///
/// ```text
/// Condition = 'if' condition:Expr then_branch:List ('else' else_branch:(Condition | List))?
/// ```
pub type Condition = NodeOf<24>;

/// [`Condition`], borrowed from its tree.
pub type ConditionRef<'tree> = NodeOfRef<'tree, 24>;

/// The kinds of parts that are alike.
pub const CONDITION_CONDITION: &[Kind] = &[
    Kind::Literal,
    Kind::Sum,
    Kind::Range,
    Kind::Fn,
    Kind::List,
    Kind::Condition,
];

impl Condition {
    ghost use Rattle.std.specs.Prelude.{◌≡◌, filter, slice_get, IfOk, IfErr};
    ghost use Rattle.std.specs.List.{find};
    ghost use Rattle.std.specs.Option.{option_map, option_and_then};
    ghost use Rattle.rowan.specs.Types.NodeOrToken.TheVariants.{Token};
    ghost use Rattle.rowan.specs.Moves.{children, children_with_tokens};
    ghost use Rattle.rowan.specs.Ast.{casts_at, if_casts, has_one_of, is_token_of};
    ghost use Rattle.rowan.specs.Pointer.{means_kind};
    ghost use Rattle.grammar_small.specs.contracts.kinds.Kind.{the_type};
    ghost use denote.Enum.Bare.{sameb};
    ghost use Rattle.grammar_small.specs.Kinds.{kind_of};
    ghost use Rattle.grammar_small.specs.Casts.{is_expr, is_list, is_condition_else_branch};
    ghost use Rattle.grammar_small.specs.NodeIn.{node_in_expr, node_in_condition_else_branch};

    /// The first token `If`.
    pub fn if_token(&self) -> Result<std::option::Option<SyntaxToken<Small>>, Fault>
        ensures ok { let means = means_kind kind_of (sameb the_type) Kind.If in
            IfOk result (λ found. option_map Token found
            ≡ find (is_token_of means) (children_with_tokens self.now)) }
        ensures err { IfErr result (λ e. e ≡ Fault.Memory) }
    {
        support::token(&self.syntax, Kind::If)
    }

    /// The child at index 0 among those of `CONDITION_CONDITION`, if it is `Expr`.
    pub fn condition(&self) -> Result<std::option::Option<Expr>, Fault>
        ensures ok { let alike = has_one_of kind_of (sameb the_type) CONDITION_CONDITION.now in
            let casts = casts_at kind_of is_expr in IfOk result (λ found.
            option_map node_in_expr found ≡ option_and_then (if_casts casts)
            (slice_get (filter alike (children self.now)) 0)) }
        ensures err { IfErr result (λ e. e ≡ Fault.Memory) }
    {
        nth_child(&self.syntax, CONDITION_CONDITION, 0)
    }

    /// The child at index 1 among those of `CONDITION_CONDITION`, if it is `List`.
    pub fn then_branch(&self) -> Result<std::option::Option<List>, Fault>
        ensures ok { let alike = has_one_of kind_of (sameb the_type) CONDITION_CONDITION.now in
            let casts = casts_at kind_of is_list in IfOk result (λ found.
            option_map (λ node. node) found ≡ option_and_then (if_casts casts)
            (slice_get (filter alike (children self.now)) 1)) }
        ensures err { IfErr result (λ e. e ≡ Fault.Memory) }
    {
        nth_child(&self.syntax, CONDITION_CONDITION, 1)
    }

    /// The first token `Else`.
    pub fn else_token(&self) -> Result<std::option::Option<SyntaxToken<Small>>, Fault>
        ensures ok { let means = means_kind kind_of (sameb the_type) Kind.Else in
            IfOk result (λ found. option_map Token found
            ≡ find (is_token_of means) (children_with_tokens self.now)) }
        ensures err { IfErr result (λ e. e ≡ Fault.Memory) }
    {
        support::token(&self.syntax, Kind::Else)
    }

    /// The child at index 2 among those of `CONDITION_CONDITION`, if it is `ConditionElseBranch`.
    pub fn else_branch(&self) -> Result<std::option::Option<ConditionElseBranch>, Fault>
        ensures ok { let alike = has_one_of kind_of (sameb the_type) CONDITION_CONDITION.now in
            let casts = casts_at kind_of is_condition_else_branch in IfOk result (λ found.
            option_map node_in_condition_else_branch found ≡ option_and_then (if_casts casts)
            (slice_get (filter alike (children self.now)) 2)) }
        ensures err { IfErr result (λ e. e ≡ Fault.Memory) }
    {
        nth_child(&self.syntax, CONDITION_CONDITION, 2)
    }
}

impl<'tree> ConditionRef<'tree> {
    ghost use Rattle.std.specs.Prelude.{◌≡◌, filter, slice_get};
    ghost use Rattle.std.specs.List.{find};
    ghost use Rattle.std.specs.Option.{option_map, option_and_then};
    ghost use Rattle.rowan.specs.Types.NodeOrToken.TheVariants.{Token};
    ghost use Rattle.rowan.specs.Moves.{children, children_with_tokens};
    ghost use Rattle.rowan.specs.Ast.{casts_at, if_casts, has_one_of, is_token_of};
    ghost use Rattle.rowan.specs.Refs.{token_place};
    ghost use Rattle.rowan.specs.Pointer.{means_kind};
    ghost use Rattle.grammar_small.specs.contracts.kinds.Kind.{the_type};
    ghost use denote.Enum.Bare.{sameb};
    ghost use Rattle.grammar_small.specs.Kinds.{kind_of};
    ghost use Rattle.grammar_small.specs.Casts.{is_expr, is_list, is_condition_else_branch};
    ghost use Rattle.grammar_small.specs.NodeIn.{place_in, place_in_expr};
    ghost use Rattle.grammar_small.specs.NodeIn.{place_in_condition_else_branch};

    /// The first token `If`.
    pub fn if_token(&self) -> std::option::Option<SyntaxTokenRef<'tree, Small>>
        ensures { let means = means_kind kind_of (sameb the_type) Kind.If in
            option_map Token (option_map token_place result)
            ≡ find (is_token_of means) (children_with_tokens (place_in self.now)) }
    {
        support::token_of(self.syntax, Kind::If)
    }

    /// The child at index 0 among those of `CONDITION_CONDITION`, if it is `Expr`.
    pub fn condition(&self) -> std::option::Option<ExprRef<'tree>>
        ensures { let alike = has_one_of kind_of (sameb the_type) CONDITION_CONDITION.now in
            let casts = casts_at kind_of is_expr in
            option_map place_in_expr result ≡ option_and_then (if_casts casts)
            (slice_get (filter alike (children (place_in self.now))) 0) }
    {
        support::nth_child_ref(self.syntax, CONDITION_CONDITION, 0)
    }

    /// The child at index 1 among those of `CONDITION_CONDITION`, if it is `List`.
    pub fn then_branch(&self) -> std::option::Option<ListRef<'tree>>
        ensures { let alike = has_one_of kind_of (sameb the_type) CONDITION_CONDITION.now in
            let casts = casts_at kind_of is_list in
            option_map place_in result ≡ option_and_then (if_casts casts)
            (slice_get (filter alike (children (place_in self.now))) 1) }
    {
        support::nth_child_ref(self.syntax, CONDITION_CONDITION, 1)
    }

    /// The first token `Else`.
    pub fn else_token(&self) -> std::option::Option<SyntaxTokenRef<'tree, Small>>
        ensures { let means = means_kind kind_of (sameb the_type) Kind.Else in
            option_map Token (option_map token_place result)
            ≡ find (is_token_of means) (children_with_tokens (place_in self.now)) }
    {
        support::token_of(self.syntax, Kind::Else)
    }

    /// The child at index 2 among those of `CONDITION_CONDITION`, if it is `ConditionElseBranch`.
    pub fn else_branch(&self) -> std::option::Option<ConditionElseBranchRef<'tree>>
        ensures { let alike = has_one_of kind_of (sameb the_type) CONDITION_CONDITION.now in
            let casts = casts_at kind_of is_condition_else_branch in
            option_map place_in_condition_else_branch result ≡ option_and_then (if_casts casts)
            (slice_get (filter alike (children (place_in self.now))) 2) }
    {
        support::nth_child_ref(self.syntax, CONDITION_CONDITION, 2)
    }
}

/// What may end a text, named by a type of the library.
///
/// ```text
/// Option = String '=' type:Fn? (Some | Token)?
/// ```
pub type Option = NodeOf<25>;

/// [`Option`], borrowed from its tree.
pub type OptionRef<'tree> = NodeOfRef<'tree, 25>;

impl Option {
    ghost use Rattle.std.specs.Prelude.{◌≡◌, IfOk, IfErr};
    ghost use Rattle.std.specs.List.{find};
    ghost use Rattle.std.specs.Option.{option_map};
    ghost use Rattle.rowan.specs.Types.NodeOrToken.TheVariants.{Token};
    ghost use Rattle.rowan.specs.Moves.{children, children_with_tokens};
    ghost use Rattle.rowan.specs.Ast.{casts_at, is_token_of};
    ghost use Rattle.rowan.specs.Pointer.{means_kind};
    ghost use Rattle.grammar_small.specs.contracts.kinds.Kind.{the_type};
    ghost use denote.Enum.Bare.{sameb};
    ghost use Rattle.grammar_small.specs.Kinds.{kind_of};
    ghost use Rattle.grammar_small.specs.Casts.{is_fn};

    /// The first token `String`.
    pub fn string_token(&self) -> Result<std::option::Option<SyntaxToken<Small>>, Fault>
        ensures ok { let means = means_kind kind_of (sameb the_type) Kind.String in
            IfOk result (λ found. option_map Token found
            ≡ find (is_token_of means) (children_with_tokens self.now)) }
        ensures err { IfErr result (λ e. e ≡ Fault.Memory) }
    {
        support::token(&self.syntax, Kind::String)
    }

    /// The first token `Eq`.
    pub fn eq_token(&self) -> Result<std::option::Option<SyntaxToken<Small>>, Fault>
        ensures ok { let means = means_kind kind_of (sameb the_type) Kind.Eq in
            IfOk result (λ found. option_map Token found
            ≡ find (is_token_of means) (children_with_tokens self.now)) }
        ensures err { IfErr result (λ e. e ≡ Fault.Memory) }
    {
        support::token(&self.syntax, Kind::Eq)
    }

    /// The first child that is `Fn`.
    pub fn type_(&self) -> Result<std::option::Option<Fn>, Fault>
        ensures ok { let casts = casts_at kind_of is_fn in
            IfOk result (λ found.
            option_map (λ node. node) found ≡ find casts (children self.now)) }
        ensures err { IfErr result (λ e. e ≡ Fault.Memory) }
    {
        support::child(&self.syntax)
    }

    /// The first token `Some`.
    pub fn some_token(&self) -> Result<std::option::Option<SyntaxToken<Small>>, Fault>
        ensures ok { let means = means_kind kind_of (sameb the_type) Kind.Some in
            IfOk result (λ found. option_map Token found
            ≡ find (is_token_of means) (children_with_tokens self.now)) }
        ensures err { IfErr result (λ e. e ≡ Fault.Memory) }
    {
        support::token(&self.syntax, Kind::Some)
    }

    /// The first token `Token_`.
    pub fn token_token(&self) -> Result<std::option::Option<SyntaxToken<Small>>, Fault>
        ensures ok { let means = means_kind kind_of (sameb the_type) Kind.Token_ in
            IfOk result (λ found. option_map Token found
            ≡ find (is_token_of means) (children_with_tokens self.now)) }
        ensures err { IfErr result (λ e. e ≡ Fault.Memory) }
    {
        support::token(&self.syntax, Kind::Token_)
    }
}

impl<'tree> OptionRef<'tree> {
    ghost use Rattle.std.specs.Prelude.{◌≡◌};
    ghost use Rattle.std.specs.List.{find};
    ghost use Rattle.std.specs.Option.{option_map};
    ghost use Rattle.rowan.specs.Types.NodeOrToken.TheVariants.{Token};
    ghost use Rattle.rowan.specs.Moves.{children, children_with_tokens};
    ghost use Rattle.rowan.specs.Ast.{casts_at, is_token_of};
    ghost use Rattle.rowan.specs.Refs.{token_place};
    ghost use Rattle.rowan.specs.Pointer.{means_kind};
    ghost use Rattle.grammar_small.specs.contracts.kinds.Kind.{the_type};
    ghost use denote.Enum.Bare.{sameb};
    ghost use Rattle.grammar_small.specs.Kinds.{kind_of};
    ghost use Rattle.grammar_small.specs.Casts.{is_fn};
    ghost use Rattle.grammar_small.specs.NodeIn.{place_in};

    /// The first token `String`.
    pub fn string_token(&self) -> std::option::Option<SyntaxTokenRef<'tree, Small>>
        ensures { let means = means_kind kind_of (sameb the_type) Kind.String in
            option_map Token (option_map token_place result)
            ≡ find (is_token_of means) (children_with_tokens (place_in self.now)) }
    {
        support::token_of(self.syntax, Kind::String)
    }

    /// The first token `Eq`.
    pub fn eq_token(&self) -> std::option::Option<SyntaxTokenRef<'tree, Small>>
        ensures { let means = means_kind kind_of (sameb the_type) Kind.Eq in
            option_map Token (option_map token_place result)
            ≡ find (is_token_of means) (children_with_tokens (place_in self.now)) }
    {
        support::token_of(self.syntax, Kind::Eq)
    }

    /// The first child that is `Fn`.
    pub fn type_(&self) -> std::option::Option<FnRef<'tree>>
        ensures { let casts = casts_at kind_of is_fn in
            option_map place_in result ≡ find casts (children (place_in self.now)) }
    {
        support::child_ref(self.syntax)
    }

    /// The first token `Some`.
    pub fn some_token(&self) -> std::option::Option<SyntaxTokenRef<'tree, Small>>
        ensures { let means = means_kind kind_of (sameb the_type) Kind.Some in
            option_map Token (option_map token_place result)
            ≡ find (is_token_of means) (children_with_tokens (place_in self.now)) }
    {
        support::token_of(self.syntax, Kind::Some)
    }

    /// The first token `Token_`.
    pub fn token_token(&self) -> std::option::Option<SyntaxTokenRef<'tree, Small>>
        ensures { let means = means_kind kind_of (sameb the_type) Kind.Token_ in
            option_map Token (option_map token_place result)
            ≡ find (is_token_of means) (children_with_tokens (place_in self.now)) }
    {
        support::token_of(self.syntax, Kind::Token_)
    }
}

/// The `callee` of `Fn`.
///
/// ```text
/// FnCallee = Literal | List
/// ```
#[derive(Clone, PartialEq, Eq, Hash, Debug, Drop)]
pub enum FnCallee {
    /// A number.
    Literal(Literal),
    /// Expressions in braces, named by a word of clauses.
    List(List),
}

impl AstNode for FnCallee {
    type Language = Small;

    ghost use Rattle.std.specs.Prelude.{◌≡◌};
    ghost use Rattle.std.specs.Option.{option_map};
    ghost use Rattle.rowan.specs.Ast.{casts_at, if_casts};
    ghost use Rattle.grammar_small.specs.Casts.{is_fn_callee, same_kind};
    ghost use Rattle.grammar_small.specs.Kinds.{kind_of};
    ghost use Rattle.grammar_small.specs.NodeIn.{node_in_fn_callee};
    ghost use Rattle.std.proofs.Common.{ap};

    ghost casts = { is_fn_callee };

    ghost node_of = { node_in_fn_callee };

    fn can_cast(kind: Kind) -> bool {
        match kind {
            Kind::Literal => true,
            Kind::List => true,
            _ => false,
        }
    }

    fn cast(syntax: SyntaxNode<Small>) -> std::option::Option<FnCallee>
        ensures { let casting = casts_at kind_of is_fn_callee in
            option_map node_in_fn_callee result ≡ if_casts casting syntax }
    {
        match syntax.kind() {
            Kind::Literal => Some(FnCallee::Literal(NodeOf { syntax })),
            Kind::List => Some(FnCallee::List(NodeOf { syntax })),
            _ => None,
        }
    }

    #[tactic(auto, using(crate::proofs::CastLemmas::literal_is_fn_callee, crate::proofs::CastLemmas::list_is_fn_callee))]
    fn syntax(&self) -> &SyntaxNode<Small> {
        match self {
            FnCallee::Literal(node) => node.syntax(),
            FnCallee::List(node) => node.syntax(),
        }
    }

    ghost equal_kinds = { λ a b same. ap is_fn_callee (same_kind a b same) };
}

impl FnCallee {
    ghost use Rattle.std.specs.Prelude.{◌≡◌};
    ghost use Rattle.grammar_small.specs.NodeIn.{node_in_fn_callee, place_in_fn_callee};

    /// The same node, borrowed from its tree.
    pub fn as_ref(&self) -> FnCalleeRef<'_>
        ensures { place_in_fn_callee result ≡ node_in_fn_callee self.now }
    {
        FnCalleeRef::cast(self.syntax().as_ref()).unwrap()
    }
}

/// [`FnCallee`], borrowed from its tree.
#[derive(Clone, Copy, PartialEq, Eq, Hash, Debug)]
pub enum FnCalleeRef<'tree> {
    /// A number.
    Literal(LiteralRef<'tree>),
    /// Expressions in braces, named by a word of clauses.
    List(ListRef<'tree>),
}

impl<'tree> AstNodeRef<'tree> for FnCalleeRef<'tree> {
    type Language = Small;

    ghost use Rattle.std.specs.Prelude.{◌≡◌, true};
    ghost use Rattle.std.specs.Option.{option_map};
    ghost use Rattle.rowan.specs.Ast.{casts_at, if_casts};
    ghost use Rattle.rowan.specs.Refs.{node_place};
    ghost use Rattle.grammar_small.specs.Casts.{is_fn_callee};
    ghost use Rattle.grammar_small.specs.Kinds.{kind_of};
    ghost use Rattle.grammar_small.specs.NodeIn.{place_in_fn_callee};

    ghost casts = { is_fn_callee };

    ghost node_of = { place_in_fn_callee };

    fn can_cast(kind: Kind) -> bool
        ensures { result ≡ is_fn_callee kind }
    {
        FnCallee::can_cast(kind)
    }

    fn cast(syntax: SyntaxNodeRef<'tree, Small>) -> std::option::Option<FnCalleeRef<'tree>>
        ensures { let casting = casts_at kind_of is_fn_callee in
            option_map place_in_fn_callee result ≡ if_casts casting (node_place syntax.entry) }
    {
        match syntax.kind() {
            Kind::Literal => Some(FnCalleeRef::Literal(NodeOfRef { syntax })),
            Kind::List => Some(FnCalleeRef::List(NodeOfRef { syntax })),
            _ => None,
        }
    }

    #[tactic(auto, using(crate::proofs::CastLemmas::literal_is_fn_callee_raw, crate::proofs::CastLemmas::list_is_fn_callee_raw))]
    fn syntax(&self) -> SyntaxNodeRef<'tree, Small>
        ensures node { node_place result ≡ place_in_fn_callee self.now }
        ensures casts { casts_at kind_of is_fn_callee (node_place result) ≡ true }
    {
        match self {
            FnCalleeRef::Literal(node) => node.syntax(),
            FnCalleeRef::List(node) => node.syntax(),
        }
    }
}

impl<'tree> FnCalleeRef<'tree> {
    ghost use Rattle.std.specs.Prelude.{◌≡◌, IfOk, IfErr};
    ghost use Rattle.grammar_small.specs.NodeIn.{node_in_fn_callee, place_in_fn_callee};

    /// The same node in a wrapper that keeps the tree. Refused with `Memory` alone.
    pub fn to_owned(&self) -> Result<FnCallee, Fault>
        ensures ok { IfOk result (λ owned. node_in_fn_callee owned ≡ place_in_fn_callee self.now) }
        ensures err { IfErr result (λ e. e ≡ Fault.Memory) }
    {
        let syntax = self.syntax().to_owned()?;
        Ok(FnCallee::cast(syntax).unwrap())
    }
}

impl From<Literal> for FnCallee {
    ghost use Rattle.std.specs.Prelude.{◌≡◌};
    ghost use Rattle.grammar_small.specs.NodeIn.{node_in_fn_callee};

    ghost from_gives = { λ node whole. node_in_fn_callee whole ≡ node };

    fn from(node: Literal) -> FnCallee {
        FnCallee::Literal(node)
    }
}

impl<'tree> From<LiteralRef<'tree>> for FnCalleeRef<'tree> {
    ghost use Rattle.std.specs.Prelude.{◌≡◌};
    ghost use Rattle.grammar_small.specs.NodeIn.{place_in_fn_callee, place_in};

    ghost from_gives = { λ node whole. place_in_fn_callee whole ≡ place_in node };

    fn from(node: LiteralRef<'tree>) -> FnCalleeRef<'tree> {
        FnCalleeRef::Literal(node)
    }
}

impl From<List> for FnCallee {
    ghost use Rattle.std.specs.Prelude.{◌≡◌};
    ghost use Rattle.grammar_small.specs.NodeIn.{node_in_fn_callee};

    ghost from_gives = { λ node whole. node_in_fn_callee whole ≡ node };

    fn from(node: List) -> FnCallee {
        FnCallee::List(node)
    }
}

impl<'tree> From<ListRef<'tree>> for FnCalleeRef<'tree> {
    ghost use Rattle.std.specs.Prelude.{◌≡◌};
    ghost use Rattle.grammar_small.specs.NodeIn.{place_in_fn_callee, place_in};

    ghost from_gives = { λ node whole. place_in_fn_callee whole ≡ place_in node };

    fn from(node: ListRef<'tree>) -> FnCalleeRef<'tree> {
        FnCalleeRef::List(node)
    }
}

/// The `else_branch` of `Condition`.
///
/// ```text
/// ConditionElseBranch = Condition | List
/// ```
#[derive(Clone, PartialEq, Eq, Hash, Debug, Drop)]
pub enum ConditionElseBranch {
    /// One of two lists, or a list or nothing.
    Condition(Condition),
    /// Expressions in braces, named by a word of clauses.
    List(List),
}

impl AstNode for ConditionElseBranch {
    type Language = Small;

    ghost use Rattle.std.specs.Prelude.{◌≡◌};
    ghost use Rattle.std.specs.Option.{option_map};
    ghost use Rattle.rowan.specs.Ast.{casts_at, if_casts};
    ghost use Rattle.grammar_small.specs.Casts.{is_condition_else_branch, same_kind};
    ghost use Rattle.grammar_small.specs.Kinds.{kind_of};
    ghost use Rattle.grammar_small.specs.NodeIn.{node_in_condition_else_branch};
    ghost use Rattle.std.proofs.Common.{ap};

    ghost casts = { is_condition_else_branch };

    ghost node_of = { node_in_condition_else_branch };

    fn can_cast(kind: Kind) -> bool {
        match kind {
            Kind::Condition => true,
            Kind::List => true,
            _ => false,
        }
    }

    fn cast(syntax: SyntaxNode<Small>) -> std::option::Option<ConditionElseBranch>
        ensures { let casting = casts_at kind_of is_condition_else_branch in
            option_map node_in_condition_else_branch result ≡ if_casts casting syntax }
    {
        match syntax.kind() {
            Kind::Condition => Some(ConditionElseBranch::Condition(NodeOf { syntax })),
            Kind::List => Some(ConditionElseBranch::List(NodeOf { syntax })),
            _ => None,
        }
    }

    #[tactic(auto, using(crate::proofs::CastLemmas::condition_is_condition_else_branch, crate::proofs::CastLemmas::list_is_condition_else_branch))]
    fn syntax(&self) -> &SyntaxNode<Small> {
        match self {
            ConditionElseBranch::Condition(node) => node.syntax(),
            ConditionElseBranch::List(node) => node.syntax(),
        }
    }

    ghost equal_kinds = { λ a b same. ap is_condition_else_branch (same_kind a b same) };
}

impl ConditionElseBranch {
    ghost use Rattle.std.specs.Prelude.{◌≡◌};
    ghost use Rattle.grammar_small.specs.NodeIn.{node_in_condition_else_branch, place_in_condition_else_branch};

    /// The same node, borrowed from its tree.
    pub fn as_ref(&self) -> ConditionElseBranchRef<'_>
        ensures { place_in_condition_else_branch result ≡ node_in_condition_else_branch self.now }
    {
        ConditionElseBranchRef::cast(self.syntax().as_ref()).unwrap()
    }
}

/// [`ConditionElseBranch`], borrowed from its tree.
#[derive(Clone, Copy, PartialEq, Eq, Hash, Debug)]
pub enum ConditionElseBranchRef<'tree> {
    /// One of two lists, or a list or nothing.
    Condition(ConditionRef<'tree>),
    /// Expressions in braces, named by a word of clauses.
    List(ListRef<'tree>),
}

impl<'tree> AstNodeRef<'tree> for ConditionElseBranchRef<'tree> {
    type Language = Small;

    ghost use Rattle.std.specs.Prelude.{◌≡◌, true};
    ghost use Rattle.std.specs.Option.{option_map};
    ghost use Rattle.rowan.specs.Ast.{casts_at, if_casts};
    ghost use Rattle.rowan.specs.Refs.{node_place};
    ghost use Rattle.grammar_small.specs.Casts.{is_condition_else_branch};
    ghost use Rattle.grammar_small.specs.Kinds.{kind_of};
    ghost use Rattle.grammar_small.specs.NodeIn.{place_in_condition_else_branch};

    ghost casts = { is_condition_else_branch };

    ghost node_of = { place_in_condition_else_branch };

    fn can_cast(kind: Kind) -> bool
        ensures { result ≡ is_condition_else_branch kind }
    {
        ConditionElseBranch::can_cast(kind)
    }

    fn cast(
        syntax: SyntaxNodeRef<'tree, Small>,
    ) -> std::option::Option<ConditionElseBranchRef<'tree>>
        ensures { let casting = casts_at kind_of is_condition_else_branch in
            option_map place_in_condition_else_branch result ≡ if_casts casting (node_place syntax.entry) }
    {
        match syntax.kind() {
            Kind::Condition => Some(ConditionElseBranchRef::Condition(NodeOfRef { syntax })),
            Kind::List => Some(ConditionElseBranchRef::List(NodeOfRef { syntax })),
            _ => None,
        }
    }

    #[tactic(auto, using(crate::proofs::CastLemmas::condition_is_condition_else_branch_raw, crate::proofs::CastLemmas::list_is_condition_else_branch_raw))]
    fn syntax(&self) -> SyntaxNodeRef<'tree, Small>
        ensures node { node_place result ≡ place_in_condition_else_branch self.now }
        ensures casts { casts_at kind_of is_condition_else_branch (node_place result) ≡ true }
    {
        match self {
            ConditionElseBranchRef::Condition(node) => node.syntax(),
            ConditionElseBranchRef::List(node) => node.syntax(),
        }
    }
}

impl<'tree> ConditionElseBranchRef<'tree> {
    ghost use Rattle.std.specs.Prelude.{◌≡◌, IfOk, IfErr};
    ghost use Rattle.grammar_small.specs.NodeIn.{node_in_condition_else_branch, place_in_condition_else_branch};

    /// The same node in a wrapper that keeps the tree. Refused with `Memory` alone.
    pub fn to_owned(&self) -> Result<ConditionElseBranch, Fault>
        ensures ok { IfOk result (λ owned. node_in_condition_else_branch owned ≡ place_in_condition_else_branch self.now) }
        ensures err { IfErr result (λ e. e ≡ Fault.Memory) }
    {
        let syntax = self.syntax().to_owned()?;
        Ok(ConditionElseBranch::cast(syntax).unwrap())
    }
}

impl From<Condition> for ConditionElseBranch {
    ghost use Rattle.std.specs.Prelude.{◌≡◌};
    ghost use Rattle.grammar_small.specs.NodeIn.{node_in_condition_else_branch};

    ghost from_gives = { λ node whole. node_in_condition_else_branch whole ≡ node };

    fn from(node: Condition) -> ConditionElseBranch {
        ConditionElseBranch::Condition(node)
    }
}

impl<'tree> From<ConditionRef<'tree>> for ConditionElseBranchRef<'tree> {
    ghost use Rattle.std.specs.Prelude.{◌≡◌};
    ghost use Rattle.grammar_small.specs.NodeIn.{place_in_condition_else_branch, place_in};

    ghost from_gives = { λ node whole. place_in_condition_else_branch whole ≡ place_in node };

    fn from(node: ConditionRef<'tree>) -> ConditionElseBranchRef<'tree> {
        ConditionElseBranchRef::Condition(node)
    }
}

impl From<List> for ConditionElseBranch {
    ghost use Rattle.std.specs.Prelude.{◌≡◌};
    ghost use Rattle.grammar_small.specs.NodeIn.{node_in_condition_else_branch};

    ghost from_gives = { λ node whole. node_in_condition_else_branch whole ≡ node };

    fn from(node: List) -> ConditionElseBranch {
        ConditionElseBranch::List(node)
    }
}

impl<'tree> From<ListRef<'tree>> for ConditionElseBranchRef<'tree> {
    ghost use Rattle.std.specs.Prelude.{◌≡◌};
    ghost use Rattle.grammar_small.specs.NodeIn.{place_in_condition_else_branch, place_in};

    ghost from_gives = { λ node whole. place_in_condition_else_branch whole ≡ place_in node };

    fn from(node: ListRef<'tree>) -> ConditionElseBranchRef<'tree> {
        ConditionElseBranchRef::List(node)
    }
}

/// Of the children with one of these kinds the one at an index, if it casts.
fn nth_child<N: AstNode<Language = Small>>(
    parent: &SyntaxNode<Small>,
    kinds: &[Kind],
    index: usize,
) -> Result<std::option::Option<N>, Fault>
    ensures ok { let alike = has_one_of kind_of (sameb the_type) kinds.now in
        let casts = casts_at kind_of N.casts in IfOk result (λ found.
        option_map N.node_of found ≡ option_and_then (if_casts casts)
        (slice_get (filter alike (children parent.now)) index)) }
    ensures err { IfErr result (λ e. e ≡ Fault.Memory) }
{
    support::nth_child(parent, kinds, index)
}
