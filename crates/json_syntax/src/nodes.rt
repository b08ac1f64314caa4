// Written by rowan_grammar from json.ungram: change that, and not this file.
//! Wrappers of the nodes of Json, which borrow the tree.
ghost use Rattle.std.specs.Prelude.{◌≡◌, true};
ghost use Rattle.rowan.specs.Ast.{casts_at};
ghost use Rattle.rowan.specs.Refs.{node_place};
ghost use Rattle.json_syntax.specs.Casts.{has_number};
ghost use Rattle.json_syntax.specs.Kinds.{kind_of};

use crate::kinds::{Json, Kind};
use rowan::ast::{AstNodeRef, AstNodesRef, support};
use rowan::{SyntaxNodeRef, SyntaxTokenRef};

/// A node whose kind has this number, borrowed from its tree.
#[derive(Clone, Copy, PartialEq, Eq, Hash)]
pub struct NodeOfRef<'tree, const KIND: u16> {
    syntax: SyntaxNodeRef<'tree, Json>,
    ghost casts: { casts_at kind_of (has_number KIND) (node_place syntax) ≡ true },
}

impl<'tree, const KIND: u16> AstNodeRef<'tree> for NodeOfRef<'tree, KIND> {
    type Language = Json;

    ghost use Rattle.std.specs.Prelude.{◌≡◌, true};
    ghost use Rattle.std.specs.Option.{option_map};
    ghost use Rattle.rowan.specs.Ast.{casts_at, if_casts};
    ghost use Rattle.rowan.specs.Refs.{node_place};
    ghost use Rattle.json_syntax.specs.Casts.{has_number};
    ghost use Rattle.json_syntax.specs.Kinds.{kind_of};
    ghost use Rattle.json_syntax.specs.NodeIn.{place_in};

    ghost casts = { has_number KIND };

    ghost node_of = { place_in };

    fn can_cast(kind: Kind) -> bool
        ensures { result ≡ has_number KIND kind }
    {
        <Json as rowan::Language>::kind_to_raw(kind).0 == KIND
    }

    fn cast(syntax: SyntaxNodeRef<'tree, Json>) -> Option<NodeOfRef<'tree, KIND>>
        ensures { let casting = casts_at kind_of (has_number KIND) in
            option_map place_in result ≡ if_casts casting (node_place syntax.entry) }
    {
        if Self::can_cast(syntax.kind()) {
            Some(NodeOfRef { syntax })
        } else {
            None
        }
    }

    fn syntax(&self) -> SyntaxNodeRef<'tree, Json>
        ensures node { node_place result ≡ place_in self.now }
        ensures casts { casts_at kind_of (has_number KIND) (node_place result) ≡ true }
    {
        self.syntax
    }
}

impl<const KIND: u16> std::fmt::Debug for NodeOfRef<'_, KIND> {
    fn fmt<W: std::fmt::Write>(&self, f: &mut std::fmt::Formatter<W>) -> std::fmt::Result {
        self.syntax.fmt(f)
    }
}

/// An object.
///
/// ```text
/// Object = '{' (Member (',' Member)* ','?)? '}'
/// ```
pub type ObjectRef<'tree> = NodeOfRef<'tree, 12>;

impl<'tree> ObjectRef<'tree> {
    ghost use Rattle.std.specs.Prelude.{◌≡◌, filter};
    ghost use Rattle.std.specs.List.{find};
    ghost use Rattle.std.specs.Option.{option_map};
    ghost use Rattle.rowan.specs.Types.NodeOrToken.TheVariants.{Token};
    ghost use Rattle.rowan.specs.Moves.{children, children_with_tokens};
    ghost use Rattle.rowan.specs.Ast.{casts_at, is_token_of, rest_that_casts};
    ghost use Rattle.rowan.specs.Refs.{token_place};
    ghost use Rattle.rowan.specs.Pointer.{means_kind};
    ghost use Rattle.json_syntax.specs.contracts.kinds.Kind.{the_type};
    ghost use denote.Enum.Bare.{sameb};
    ghost use Rattle.json_syntax.specs.Kinds.{kind_of};
    ghost use Rattle.json_syntax.specs.Casts.{is_member};
    ghost use Rattle.json_syntax.specs.NodeIn.{place_in};

    /// The first token `LBrace`.
    pub fn l_brace_token(&self) -> Option<SyntaxTokenRef<'tree, Json>>
        ensures { let means = means_kind kind_of (sameb the_type) Kind.LBrace in
            option_map Token (option_map token_place result)
            ≡ find (is_token_of means) (children_with_tokens (place_in self.now)) }
    {
        support::token_of(self.syntax, Kind::LBrace)
    }

    /// The children that are `Member`, in order.
    pub fn members(&self) -> AstNodesRef<'tree, MemberRef<'tree>>
        ensures { let casts = casts_at kind_of is_member in
            rest_that_casts casts result ≡ filter casts (children (place_in self.now)) }
    {
        support::children_ref(self.syntax)
    }

    /// The first token `RBrace`.
    pub fn r_brace_token(&self) -> Option<SyntaxTokenRef<'tree, Json>>
        ensures { let means = means_kind kind_of (sameb the_type) Kind.RBrace in
            option_map Token (option_map token_place result)
            ≡ find (is_token_of means) (children_with_tokens (place_in self.now)) }
    {
        support::token_of(self.syntax, Kind::RBrace)
    }
}

/// A member of an object.
///
/// ```text
/// Member = name:String ':' Value
/// ```
pub type MemberRef<'tree> = NodeOfRef<'tree, 13>;

impl<'tree> MemberRef<'tree> {
    ghost use Rattle.std.specs.Prelude.{◌≡◌};
    ghost use Rattle.std.specs.List.{find};
    ghost use Rattle.std.specs.Option.{option_map};
    ghost use Rattle.rowan.specs.Types.NodeOrToken.TheVariants.{Token};
    ghost use Rattle.rowan.specs.Moves.{children, children_with_tokens};
    ghost use Rattle.rowan.specs.Ast.{casts_at, is_token_of};
    ghost use Rattle.rowan.specs.Refs.{token_place};
    ghost use Rattle.rowan.specs.Pointer.{means_kind};
    ghost use Rattle.json_syntax.specs.contracts.kinds.Kind.{the_type};
    ghost use denote.Enum.Bare.{sameb};
    ghost use Rattle.json_syntax.specs.Kinds.{kind_of};
    ghost use Rattle.json_syntax.specs.Casts.{is_value};
    ghost use Rattle.json_syntax.specs.NodeIn.{place_in, place_in_value};

    /// The first token `String`.
    pub fn name(&self) -> Option<SyntaxTokenRef<'tree, Json>>
        ensures { let means = means_kind kind_of (sameb the_type) Kind.String in
            option_map Token (option_map token_place result)
            ≡ find (is_token_of means) (children_with_tokens (place_in self.now)) }
    {
        support::token_of(self.syntax, Kind::String)
    }

    /// The first token `Colon`.
    pub fn colon_token(&self) -> Option<SyntaxTokenRef<'tree, Json>>
        ensures { let means = means_kind kind_of (sameb the_type) Kind.Colon in
            option_map Token (option_map token_place result)
            ≡ find (is_token_of means) (children_with_tokens (place_in self.now)) }
    {
        support::token_of(self.syntax, Kind::Colon)
    }

    /// The first child that is `Value`.
    pub fn value(&self) -> Option<ValueRef<'tree>>
        ensures { let casts = casts_at kind_of is_value in
            option_map place_in_value result ≡ find casts (children (place_in self.now)) }
    {
        support::child_ref(self.syntax)
    }
}

/// An array.
///
/// ```text
/// Array = '[' (Value (',' Value)* ','?)? ']'
/// ```
pub type ArrayRef<'tree> = NodeOfRef<'tree, 14>;

impl<'tree> ArrayRef<'tree> {
    ghost use Rattle.std.specs.Prelude.{◌≡◌, filter};
    ghost use Rattle.std.specs.List.{find};
    ghost use Rattle.std.specs.Option.{option_map};
    ghost use Rattle.rowan.specs.Types.NodeOrToken.TheVariants.{Token};
    ghost use Rattle.rowan.specs.Moves.{children, children_with_tokens};
    ghost use Rattle.rowan.specs.Ast.{casts_at, is_token_of, rest_that_casts};
    ghost use Rattle.rowan.specs.Refs.{token_place};
    ghost use Rattle.rowan.specs.Pointer.{means_kind};
    ghost use Rattle.json_syntax.specs.contracts.kinds.Kind.{the_type};
    ghost use denote.Enum.Bare.{sameb};
    ghost use Rattle.json_syntax.specs.Kinds.{kind_of};
    ghost use Rattle.json_syntax.specs.Casts.{is_value};
    ghost use Rattle.json_syntax.specs.NodeIn.{place_in};

    /// The first token `LBracket`.
    pub fn l_bracket_token(&self) -> Option<SyntaxTokenRef<'tree, Json>>
        ensures { let means = means_kind kind_of (sameb the_type) Kind.LBracket in
            option_map Token (option_map token_place result)
            ≡ find (is_token_of means) (children_with_tokens (place_in self.now)) }
    {
        support::token_of(self.syntax, Kind::LBracket)
    }

    /// The children that are `Value`, in order.
    pub fn values(&self) -> AstNodesRef<'tree, ValueRef<'tree>>
        ensures { let casts = casts_at kind_of is_value in
            rest_that_casts casts result ≡ filter casts (children (place_in self.now)) }
    {
        support::children_ref(self.syntax)
    }

    /// The first token `RBracket`.
    pub fn r_bracket_token(&self) -> Option<SyntaxTokenRef<'tree, Json>>
        ensures { let means = means_kind kind_of (sameb the_type) Kind.RBracket in
            option_map Token (option_map token_place result)
            ≡ find (is_token_of means) (children_with_tokens (place_in self.now)) }
    {
        support::token_of(self.syntax, Kind::RBracket)
    }
}

/// A string, a number or a word.
///
/// ```text
/// Literal = String | Number | Word
/// ```
pub type LiteralRef<'tree> = NodeOfRef<'tree, 15>;

impl<'tree> LiteralRef<'tree> {
    ghost use Rattle.std.specs.Prelude.{◌≡◌};
    ghost use Rattle.std.specs.List.{find};
    ghost use Rattle.std.specs.Option.{option_map};
    ghost use Rattle.rowan.specs.Types.NodeOrToken.TheVariants.{Token};
    ghost use Rattle.rowan.specs.Moves.{children_with_tokens};
    ghost use Rattle.rowan.specs.Ast.{is_token_of};
    ghost use Rattle.rowan.specs.Refs.{token_place};
    ghost use Rattle.rowan.specs.Pointer.{means_kind};
    ghost use Rattle.json_syntax.specs.contracts.kinds.Kind.{the_type};
    ghost use denote.Enum.Bare.{sameb};
    ghost use Rattle.json_syntax.specs.Kinds.{kind_of};
    ghost use Rattle.json_syntax.specs.NodeIn.{place_in};

    /// The first token `String`.
    pub fn string_token(&self) -> Option<SyntaxTokenRef<'tree, Json>>
        ensures { let means = means_kind kind_of (sameb the_type) Kind.String in
            option_map Token (option_map token_place result)
            ≡ find (is_token_of means) (children_with_tokens (place_in self.now)) }
    {
        support::token_of(self.syntax, Kind::String)
    }

    /// The first token `Number`.
    pub fn number_token(&self) -> Option<SyntaxTokenRef<'tree, Json>>
        ensures { let means = means_kind kind_of (sameb the_type) Kind.Number in
            option_map Token (option_map token_place result)
            ≡ find (is_token_of means) (children_with_tokens (place_in self.now)) }
    {
        support::token_of(self.syntax, Kind::Number)
    }

    /// The first token `Word`.
    pub fn word_token(&self) -> Option<SyntaxTokenRef<'tree, Json>>
        ensures { let means = means_kind kind_of (sameb the_type) Kind.Word in
            option_map Token (option_map token_place result)
            ≡ find (is_token_of means) (children_with_tokens (place_in self.now)) }
    {
        support::token_of(self.syntax, Kind::Word)
    }
}

/// A value.
///
/// ```text
/// Value = Object | Array | Literal
/// ```
#[derive(Clone, Copy, PartialEq, Eq, Hash, Debug)]
pub enum ValueRef<'tree> {
    /// An object.
    Object(ObjectRef<'tree>),
    /// An array.
    Array(ArrayRef<'tree>),
    /// A string, a number or a word.
    Literal(LiteralRef<'tree>),
}

impl<'tree> AstNodeRef<'tree> for ValueRef<'tree> {
    type Language = Json;

    ghost use Rattle.std.specs.Prelude.{◌≡◌, true};
    ghost use Rattle.std.specs.Option.{option_map};
    ghost use Rattle.rowan.specs.Ast.{casts_at, if_casts};
    ghost use Rattle.rowan.specs.Refs.{node_place};
    ghost use Rattle.json_syntax.specs.Casts.{is_value};
    ghost use Rattle.json_syntax.specs.Kinds.{kind_of};
    ghost use Rattle.json_syntax.specs.NodeIn.{place_in_value};

    ghost casts = { is_value };

    ghost node_of = { place_in_value };

    fn can_cast(kind: Kind) -> bool
        ensures { result ≡ is_value kind }
    {
        match kind {
            Kind::Object => true,
            Kind::Array => true,
            Kind::Literal => true,
            _ => false,
        }
    }

    fn cast(syntax: SyntaxNodeRef<'tree, Json>) -> Option<ValueRef<'tree>>
        ensures { let casting = casts_at kind_of is_value in
            option_map place_in_value result ≡ if_casts casting (node_place syntax.entry) }
    {
        match syntax.kind() {
            Kind::Object => Some(ValueRef::Object(NodeOfRef { syntax })),
            Kind::Array => Some(ValueRef::Array(NodeOfRef { syntax })),
            Kind::Literal => Some(ValueRef::Literal(NodeOfRef { syntax })),
            _ => None,
        }
    }

    #[tactic(auto, using(crate::proofs::CastLemmas::object_is_value_raw, crate::proofs::CastLemmas::array_is_value_raw, crate::proofs::CastLemmas::literal_is_value_raw))]
    fn syntax(&self) -> SyntaxNodeRef<'tree, Json>
        ensures node { node_place result ≡ place_in_value self.now }
        ensures casts { casts_at kind_of is_value (node_place result) ≡ true }
    {
        match self {
            ValueRef::Object(node) => node.syntax(),
            ValueRef::Array(node) => node.syntax(),
            ValueRef::Literal(node) => node.syntax(),
        }
    }
}

impl<'tree> From<ObjectRef<'tree>> for ValueRef<'tree> {
    ghost use Rattle.std.specs.Prelude.{◌≡◌};
    ghost use Rattle.json_syntax.specs.NodeIn.{place_in_value, place_in};

    ghost from_gives = { λ node whole. place_in_value whole ≡ place_in node };

    fn from(node: ObjectRef<'tree>) -> ValueRef<'tree> {
        ValueRef::Object(node)
    }
}

impl<'tree> From<ArrayRef<'tree>> for ValueRef<'tree> {
    ghost use Rattle.std.specs.Prelude.{◌≡◌};
    ghost use Rattle.json_syntax.specs.NodeIn.{place_in_value, place_in};

    ghost from_gives = { λ node whole. place_in_value whole ≡ place_in node };

    fn from(node: ArrayRef<'tree>) -> ValueRef<'tree> {
        ValueRef::Array(node)
    }
}

impl<'tree> From<LiteralRef<'tree>> for ValueRef<'tree> {
    ghost use Rattle.std.specs.Prelude.{◌≡◌};
    ghost use Rattle.json_syntax.specs.NodeIn.{place_in_value, place_in};

    ghost from_gives = { λ node whole. place_in_value whole ≡ place_in node };

    fn from(node: LiteralRef<'tree>) -> ValueRef<'tree> {
        ValueRef::Literal(node)
    }
}
