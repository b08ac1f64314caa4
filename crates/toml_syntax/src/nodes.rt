// Written by rowan_grammar from toml.ungram: change that, and not this file.
//! Wrappers of the nodes of Toml, which borrow the tree.
ghost use Rattle.std.specs.Prelude.{◌≡◌, true};
ghost use Rattle.rowan.specs.Ast.{casts_at};
ghost use Rattle.rowan.specs.Refs.{node_place};
ghost use Rattle.toml_syntax.specs.Casts.{has_number};
ghost use Rattle.toml_syntax.specs.Kinds.{kind_of};

use crate::kinds::{Kind, Toml};
use rowan::ast::{AstNodeRef, AstNodesRef, support};
use rowan::{SyntaxNodeRef, SyntaxTokenRef};

/// A node whose kind has this number, borrowed from its tree.
#[derive(Clone, Copy, PartialEq, Eq, Hash)]
pub struct NodeOfRef<'tree, const KIND: u16> {
    syntax: SyntaxNodeRef<'tree, Toml>,
    ghost casts: { casts_at kind_of (has_number KIND) (node_place syntax) ≡ true },
}

impl<'tree, const KIND: u16> AstNodeRef<'tree> for NodeOfRef<'tree, KIND> {
    type Language = Toml;

    ghost use Rattle.std.specs.Prelude.{◌≡◌, true};
    ghost use Rattle.std.specs.Option.{option_map};
    ghost use Rattle.rowan.specs.Ast.{casts_at, if_casts};
    ghost use Rattle.rowan.specs.Refs.{node_place};
    ghost use Rattle.toml_syntax.specs.Casts.{has_number};
    ghost use Rattle.toml_syntax.specs.Kinds.{kind_of};
    ghost use Rattle.toml_syntax.specs.NodeIn.{place_in};

    ghost casts = { has_number KIND };

    ghost node_of = { place_in };

    fn can_cast(kind: Kind) -> bool
        ensures { result ≡ has_number KIND kind }
    {
        <Toml as rowan::Language>::kind_to_raw(kind).0 == KIND
    }

    fn cast(syntax: SyntaxNodeRef<'tree, Toml>) -> Option<NodeOfRef<'tree, KIND>>
        ensures { let casting = casts_at kind_of (has_number KIND) in
            option_map place_in result ≡ if_casts casting (node_place syntax.entry) }
    {
        if Self::can_cast(syntax.kind()) {
            Some(NodeOfRef { syntax })
        } else {
            None
        }
    }

    fn syntax(&self) -> SyntaxNodeRef<'tree, Toml>
        ensures node { node_place result ≡ place_in self.now }
        ensures casts { casts_at kind_of (has_number KIND) (node_place result) ≡ true }
    {
        self.syntax
    }
}

impl<const KIND: u16> std::fmt::Debug for NodeOfRef<'_, KIND> {
    fn fmt<W: std::fmt::Write>(&self, f: &mut std::fmt::Formatter<W>) -> std::fmt::Result {
        self.syntax.fmt(f)
    }
}

/// A whole text: entries, and then tables.
///
/// ```text
/// Document = Entry* Section*
/// ```
pub type DocumentRef<'tree> = NodeOfRef<'tree, 26>;

impl<'tree> DocumentRef<'tree> {
    ghost use Rattle.std.specs.Prelude.{◌≡◌, filter};
    ghost use Rattle.rowan.specs.Moves.{children};
    ghost use Rattle.rowan.specs.Ast.{casts_at, rest_that_casts};
    ghost use Rattle.toml_syntax.specs.Kinds.{kind_of};
    ghost use Rattle.toml_syntax.specs.Casts.{is_entry, is_section};
    ghost use Rattle.toml_syntax.specs.NodeIn.{place_in};

    /// The children that are `Entry`, in order.
    pub fn entries(&self) -> AstNodesRef<'tree, EntryRef<'tree>>
        ensures { let casts = casts_at kind_of is_entry in
            rest_that_casts casts result ≡ filter casts (children (place_in self.now)) }
    {
        support::children_ref(self.syntax)
    }

    /// The children that are `Section`, in order.
    pub fn sections(&self) -> AstNodesRef<'tree, SectionRef<'tree>>
        ensures { let casts = casts_at kind_of is_section in
            rest_that_casts casts result ≡ filter casts (children (place_in self.now)) }
    {
        support::children_ref(self.syntax)
    }
}

/// A table or an element of an array of tables, with the entries behind its header.
///
/// ```text
/// Section = Table | ArrayTable
/// ```
#[derive(Clone, Copy, PartialEq, Eq, Hash, Debug)]
pub enum SectionRef<'tree> {
    /// A table with a header.
    Table(TableRef<'tree>),
    /// An element of an array of tables.
    ArrayTable(ArrayTableRef<'tree>),
}

impl<'tree> AstNodeRef<'tree> for SectionRef<'tree> {
    type Language = Toml;

    ghost use Rattle.std.specs.Prelude.{◌≡◌, true};
    ghost use Rattle.std.specs.Option.{option_map};
    ghost use Rattle.rowan.specs.Ast.{casts_at, if_casts};
    ghost use Rattle.rowan.specs.Refs.{node_place};
    ghost use Rattle.toml_syntax.specs.Casts.{is_section};
    ghost use Rattle.toml_syntax.specs.Kinds.{kind_of};
    ghost use Rattle.toml_syntax.specs.NodeIn.{place_in_section};

    ghost casts = { is_section };

    ghost node_of = { place_in_section };

    fn can_cast(kind: Kind) -> bool
        ensures { result ≡ is_section kind }
    {
        match kind {
            Kind::Table => true,
            Kind::ArrayTable => true,
            _ => false,
        }
    }

    fn cast(syntax: SyntaxNodeRef<'tree, Toml>) -> Option<SectionRef<'tree>>
        ensures { let casting = casts_at kind_of is_section in
            option_map place_in_section result ≡ if_casts casting (node_place syntax.entry) }
    {
        match syntax.kind() {
            Kind::Table => Some(SectionRef::Table(NodeOfRef { syntax })),
            Kind::ArrayTable => Some(SectionRef::ArrayTable(NodeOfRef { syntax })),
            _ => None,
        }
    }

    #[tactic(auto, using(crate::proofs::CastLemmas::table_is_section_raw, crate::proofs::CastLemmas::array_table_is_section_raw))]
    fn syntax(&self) -> SyntaxNodeRef<'tree, Toml>
        ensures node { node_place result ≡ place_in_section self.now }
        ensures casts { casts_at kind_of is_section (node_place result) ≡ true }
    {
        match self {
            SectionRef::Table(node) => node.syntax(),
            SectionRef::ArrayTable(node) => node.syntax(),
        }
    }
}

impl<'tree> From<TableRef<'tree>> for SectionRef<'tree> {
    ghost use Rattle.std.specs.Prelude.{◌≡◌};
    ghost use Rattle.toml_syntax.specs.NodeIn.{place_in_section, place_in};

    ghost from_gives = { λ node whole. place_in_section whole ≡ place_in node };

    fn from(node: TableRef<'tree>) -> SectionRef<'tree> {
        SectionRef::Table(node)
    }
}

impl<'tree> From<ArrayTableRef<'tree>> for SectionRef<'tree> {
    ghost use Rattle.std.specs.Prelude.{◌≡◌};
    ghost use Rattle.toml_syntax.specs.NodeIn.{place_in_section, place_in};

    ghost from_gives = { λ node whole. place_in_section whole ≡ place_in node };

    fn from(node: ArrayTableRef<'tree>) -> SectionRef<'tree> {
        SectionRef::ArrayTable(node)
    }
}

/// A table with a header.
///
/// ```text
/// Table = '[' Key ']' Newline? Entry*
/// ```
pub type TableRef<'tree> = NodeOfRef<'tree, 27>;

impl<'tree> TableRef<'tree> {
    ghost use Rattle.std.specs.Prelude.{◌≡◌, filter};
    ghost use Rattle.std.specs.List.{find};
    ghost use Rattle.std.specs.Option.{option_map};
    ghost use Rattle.rowan.specs.Types.NodeOrToken.TheVariants.{Token};
    ghost use Rattle.rowan.specs.Moves.{children, children_with_tokens};
    ghost use Rattle.rowan.specs.Ast.{casts_at, is_token_of, rest_that_casts};
    ghost use Rattle.rowan.specs.Refs.{token_place};
    ghost use Rattle.rowan.specs.Pointer.{means_kind};
    ghost use Rattle.toml_syntax.specs.contracts.kinds.Kind.{the_type};
    ghost use denote.Enum.Bare.{sameb};
    ghost use Rattle.toml_syntax.specs.Kinds.{kind_of};
    ghost use Rattle.toml_syntax.specs.Casts.{is_key, is_entry};
    ghost use Rattle.toml_syntax.specs.NodeIn.{place_in};

    /// The first token `LBracket`.
    pub fn l_bracket_token(&self) -> Option<SyntaxTokenRef<'tree, Toml>>
        ensures { let means = means_kind kind_of (sameb the_type) Kind.LBracket in
            option_map Token (option_map token_place result)
            ≡ find (is_token_of means) (children_with_tokens (place_in self.now)) }
    {
        support::token_of(self.syntax, Kind::LBracket)
    }

    /// The first child that is `Key`.
    pub fn key(&self) -> Option<KeyRef<'tree>>
        ensures { let casts = casts_at kind_of is_key in
            option_map place_in result ≡ find casts (children (place_in self.now)) }
    {
        support::child_ref(self.syntax)
    }

    /// The first token `RBracket`.
    pub fn r_bracket_token(&self) -> Option<SyntaxTokenRef<'tree, Toml>>
        ensures { let means = means_kind kind_of (sameb the_type) Kind.RBracket in
            option_map Token (option_map token_place result)
            ≡ find (is_token_of means) (children_with_tokens (place_in self.now)) }
    {
        support::token_of(self.syntax, Kind::RBracket)
    }

    /// The first token `Newline`.
    pub fn newline_token(&self) -> Option<SyntaxTokenRef<'tree, Toml>>
        ensures { let means = means_kind kind_of (sameb the_type) Kind.Newline in
            option_map Token (option_map token_place result)
            ≡ find (is_token_of means) (children_with_tokens (place_in self.now)) }
    {
        support::token_of(self.syntax, Kind::Newline)
    }

    /// The children that are `Entry`, in order.
    pub fn entries(&self) -> AstNodesRef<'tree, EntryRef<'tree>>
        ensures { let casts = casts_at kind_of is_entry in
            rest_that_casts casts result ≡ filter casts (children (place_in self.now)) }
    {
        support::children_ref(self.syntax)
    }
}

/// An element of an array of tables.
///
/// ```text
/// ArrayTable = '[[' Key ']]' Newline? Entry*
/// ```
pub type ArrayTableRef<'tree> = NodeOfRef<'tree, 28>;

impl<'tree> ArrayTableRef<'tree> {
    ghost use Rattle.std.specs.Prelude.{◌≡◌, filter};
    ghost use Rattle.std.specs.List.{find};
    ghost use Rattle.std.specs.Option.{option_map};
    ghost use Rattle.rowan.specs.Types.NodeOrToken.TheVariants.{Token};
    ghost use Rattle.rowan.specs.Moves.{children, children_with_tokens};
    ghost use Rattle.rowan.specs.Ast.{casts_at, is_token_of, rest_that_casts};
    ghost use Rattle.rowan.specs.Refs.{token_place};
    ghost use Rattle.rowan.specs.Pointer.{means_kind};
    ghost use Rattle.toml_syntax.specs.contracts.kinds.Kind.{the_type};
    ghost use denote.Enum.Bare.{sameb};
    ghost use Rattle.toml_syntax.specs.Kinds.{kind_of};
    ghost use Rattle.toml_syntax.specs.Casts.{is_key, is_entry};
    ghost use Rattle.toml_syntax.specs.NodeIn.{place_in};

    /// The first token `LBrackets`.
    pub fn l_brackets_token(&self) -> Option<SyntaxTokenRef<'tree, Toml>>
        ensures { let means = means_kind kind_of (sameb the_type) Kind.LBrackets in
            option_map Token (option_map token_place result)
            ≡ find (is_token_of means) (children_with_tokens (place_in self.now)) }
    {
        support::token_of(self.syntax, Kind::LBrackets)
    }

    /// The first child that is `Key`.
    pub fn key(&self) -> Option<KeyRef<'tree>>
        ensures { let casts = casts_at kind_of is_key in
            option_map place_in result ≡ find casts (children (place_in self.now)) }
    {
        support::child_ref(self.syntax)
    }

    /// The first token `RBrackets`.
    pub fn r_brackets_token(&self) -> Option<SyntaxTokenRef<'tree, Toml>>
        ensures { let means = means_kind kind_of (sameb the_type) Kind.RBrackets in
            option_map Token (option_map token_place result)
            ≡ find (is_token_of means) (children_with_tokens (place_in self.now)) }
    {
        support::token_of(self.syntax, Kind::RBrackets)
    }

    /// The first token `Newline`.
    pub fn newline_token(&self) -> Option<SyntaxTokenRef<'tree, Toml>>
        ensures { let means = means_kind kind_of (sameb the_type) Kind.Newline in
            option_map Token (option_map token_place result)
            ≡ find (is_token_of means) (children_with_tokens (place_in self.now)) }
    {
        support::token_of(self.syntax, Kind::Newline)
    }

    /// The children that are `Entry`, in order.
    pub fn entries(&self) -> AstNodesRef<'tree, EntryRef<'tree>>
        ensures { let casts = casts_at kind_of is_entry in
            rest_that_casts casts result ≡ filter casts (children (place_in self.now)) }
    {
        support::children_ref(self.syntax)
    }
}

/// A key with its value, in a line of its own or in an inline table.
///
/// ```text
/// Entry = Key '=' Value Newline?
/// ```
pub type EntryRef<'tree> = NodeOfRef<'tree, 29>;

impl<'tree> EntryRef<'tree> {
    ghost use Rattle.std.specs.Prelude.{◌≡◌};
    ghost use Rattle.std.specs.List.{find};
    ghost use Rattle.std.specs.Option.{option_map};
    ghost use Rattle.rowan.specs.Types.NodeOrToken.TheVariants.{Token};
    ghost use Rattle.rowan.specs.Moves.{children, children_with_tokens};
    ghost use Rattle.rowan.specs.Ast.{casts_at, is_token_of};
    ghost use Rattle.rowan.specs.Refs.{token_place};
    ghost use Rattle.rowan.specs.Pointer.{means_kind};
    ghost use Rattle.toml_syntax.specs.contracts.kinds.Kind.{the_type};
    ghost use denote.Enum.Bare.{sameb};
    ghost use Rattle.toml_syntax.specs.Kinds.{kind_of};
    ghost use Rattle.toml_syntax.specs.Casts.{is_key, is_value};
    ghost use Rattle.toml_syntax.specs.NodeIn.{place_in, place_in_value};

    /// The first child that is `Key`.
    pub fn key(&self) -> Option<KeyRef<'tree>>
        ensures { let casts = casts_at kind_of is_key in
            option_map place_in result ≡ find casts (children (place_in self.now)) }
    {
        support::child_ref(self.syntax)
    }

    /// The first token `Equals`.
    pub fn equals_token(&self) -> Option<SyntaxTokenRef<'tree, Toml>>
        ensures { let means = means_kind kind_of (sameb the_type) Kind.Equals in
            option_map Token (option_map token_place result)
            ≡ find (is_token_of means) (children_with_tokens (place_in self.now)) }
    {
        support::token_of(self.syntax, Kind::Equals)
    }

    /// The first child that is `Value`.
    pub fn value(&self) -> Option<ValueRef<'tree>>
        ensures { let casts = casts_at kind_of is_value in
            option_map place_in_value result ≡ find casts (children (place_in self.now)) }
    {
        support::child_ref(self.syntax)
    }

    /// The first token `Newline`.
    pub fn newline_token(&self) -> Option<SyntaxTokenRef<'tree, Toml>>
        ensures { let means = means_kind kind_of (sameb the_type) Kind.Newline in
            option_map Token (option_map token_place result)
            ≡ find (is_token_of means) (children_with_tokens (place_in self.now)) }
    {
        support::token_of(self.syntax, Kind::Newline)
    }
}

/// A key, with its parts between dots.
///
/// ```text
/// Key = KeyPart ('.' KeyPart)*
/// ```
pub type KeyRef<'tree> = NodeOfRef<'tree, 30>;

impl<'tree> KeyRef<'tree> {
    ghost use Rattle.std.specs.Prelude.{◌≡◌, filter};
    ghost use Rattle.rowan.specs.Moves.{children};
    ghost use Rattle.rowan.specs.Ast.{casts_at, rest_that_casts};
    ghost use Rattle.toml_syntax.specs.Kinds.{kind_of};
    ghost use Rattle.toml_syntax.specs.Casts.{is_key_part};
    ghost use Rattle.toml_syntax.specs.NodeIn.{place_in};

    /// The children that are `KeyPart`, in order.
    pub fn key_parts(&self) -> AstNodesRef<'tree, KeyPartRef<'tree>>
        ensures { let casts = casts_at kind_of is_key_part in
            rest_that_casts casts result ≡ filter casts (children (place_in self.now)) }
    {
        support::children_ref(self.syntax)
    }
}

/// A part of a key.
///
/// ```text
/// KeyPart = name:(BareKey | BasicString | LiteralString)
/// ```
pub type KeyPartRef<'tree> = NodeOfRef<'tree, 31>;

/// The kinds of parts that are alike.
pub const KEY_PART_NAME: &[Kind] = &[Kind::BareKey, Kind::BasicString, Kind::LiteralString];

impl<'tree> KeyPartRef<'tree> {
    ghost use Rattle.std.specs.Prelude.{◌≡◌, filter, slice_get};
    ghost use Rattle.std.specs.Option.{option_map};
    ghost use Rattle.rowan.specs.Types.NodeOrToken.TheVariants.{Token};
    ghost use Rattle.rowan.specs.Moves.{children_with_tokens};
    ghost use Rattle.rowan.specs.Ast.{is_token_of, means_one_of};
    ghost use Rattle.rowan.specs.Refs.{token_place};
    ghost use Rattle.toml_syntax.specs.contracts.kinds.Kind.{the_type};
    ghost use denote.Enum.Bare.{sameb};
    ghost use Rattle.toml_syntax.specs.Kinds.{kind_of};
    ghost use Rattle.toml_syntax.specs.NodeIn.{place_in};

    /// The token at index 0 among those of `KEY_PART_NAME`.
    pub fn name(&self) -> Option<SyntaxTokenRef<'tree, Toml>>
        ensures { let alike = is_token_of (means_one_of kind_of (sameb the_type) KEY_PART_NAME.now) in
            option_map Token (option_map token_place result)
            ≡ slice_get (filter alike (children_with_tokens (place_in self.now))) 0 }
    {
        support::nth_token_ref(self.syntax, KEY_PART_NAME, 0)
    }
}

/// A value.
///
/// ```text
/// Value = Scalar | Array | InlineTable
/// ```
#[derive(Clone, Copy, PartialEq, Eq, Hash, Debug)]
pub enum ValueRef<'tree> {
    /// A value in one token.
    Scalar(ScalarRef<'tree>),
    /// An array.
    Array(ArrayRef<'tree>),
    /// A table in braces.
    InlineTable(InlineTableRef<'tree>),
}

impl<'tree> AstNodeRef<'tree> for ValueRef<'tree> {
    type Language = Toml;

    ghost use Rattle.std.specs.Prelude.{◌≡◌, true};
    ghost use Rattle.std.specs.Option.{option_map};
    ghost use Rattle.rowan.specs.Ast.{casts_at, if_casts};
    ghost use Rattle.rowan.specs.Refs.{node_place};
    ghost use Rattle.toml_syntax.specs.Casts.{is_value};
    ghost use Rattle.toml_syntax.specs.Kinds.{kind_of};
    ghost use Rattle.toml_syntax.specs.NodeIn.{place_in_value};

    ghost casts = { is_value };

    ghost node_of = { place_in_value };

    fn can_cast(kind: Kind) -> bool
        ensures { result ≡ is_value kind }
    {
        match kind {
            Kind::Scalar => true,
            Kind::Array => true,
            Kind::InlineTable => true,
            _ => false,
        }
    }

    fn cast(syntax: SyntaxNodeRef<'tree, Toml>) -> Option<ValueRef<'tree>>
        ensures { let casting = casts_at kind_of is_value in
            option_map place_in_value result ≡ if_casts casting (node_place syntax.entry) }
    {
        match syntax.kind() {
            Kind::Scalar => Some(ValueRef::Scalar(NodeOfRef { syntax })),
            Kind::Array => Some(ValueRef::Array(NodeOfRef { syntax })),
            Kind::InlineTable => Some(ValueRef::InlineTable(NodeOfRef { syntax })),
            _ => None,
        }
    }

    #[tactic(auto, using(crate::proofs::CastLemmas::scalar_is_value_raw, crate::proofs::CastLemmas::array_is_value_raw, crate::proofs::CastLemmas::inline_table_is_value_raw))]
    fn syntax(&self) -> SyntaxNodeRef<'tree, Toml>
        ensures node { node_place result ≡ place_in_value self.now }
        ensures casts { casts_at kind_of is_value (node_place result) ≡ true }
    {
        match self {
            ValueRef::Scalar(node) => node.syntax(),
            ValueRef::Array(node) => node.syntax(),
            ValueRef::InlineTable(node) => node.syntax(),
        }
    }
}

impl<'tree> From<ScalarRef<'tree>> for ValueRef<'tree> {
    ghost use Rattle.std.specs.Prelude.{◌≡◌};
    ghost use Rattle.toml_syntax.specs.NodeIn.{place_in_value, place_in};

    ghost from_gives = { λ node whole. place_in_value whole ≡ place_in node };

    fn from(node: ScalarRef<'tree>) -> ValueRef<'tree> {
        ValueRef::Scalar(node)
    }
}

impl<'tree> From<ArrayRef<'tree>> for ValueRef<'tree> {
    ghost use Rattle.std.specs.Prelude.{◌≡◌};
    ghost use Rattle.toml_syntax.specs.NodeIn.{place_in_value, place_in};

    ghost from_gives = { λ node whole. place_in_value whole ≡ place_in node };

    fn from(node: ArrayRef<'tree>) -> ValueRef<'tree> {
        ValueRef::Array(node)
    }
}

impl<'tree> From<InlineTableRef<'tree>> for ValueRef<'tree> {
    ghost use Rattle.std.specs.Prelude.{◌≡◌};
    ghost use Rattle.toml_syntax.specs.NodeIn.{place_in_value, place_in};

    ghost from_gives = { λ node whole. place_in_value whole ≡ place_in node };

    fn from(node: InlineTableRef<'tree>) -> ValueRef<'tree> {
        ValueRef::InlineTable(node)
    }
}

/// A value in one token.
///
/// ```text
/// Scalar = value:(BasicString | LiteralString | MultiLineBasicString |
///     MultiLineLiteralString | Integer | Float | Boolean | OffsetDateTime | LocalDateTime |
///     LocalDate | LocalTime)
/// ```
pub type ScalarRef<'tree> = NodeOfRef<'tree, 32>;

/// The kinds of parts that are alike.
pub const SCALAR_VALUE: &[Kind] = &[
    Kind::BasicString,
    Kind::LiteralString,
    Kind::MultiLineBasicString,
    Kind::MultiLineLiteralString,
    Kind::Integer,
    Kind::Float,
    Kind::Boolean,
    Kind::OffsetDateTime,
    Kind::LocalDateTime,
    Kind::LocalDate,
    Kind::LocalTime,
];

impl<'tree> ScalarRef<'tree> {
    ghost use Rattle.std.specs.Prelude.{◌≡◌, filter, slice_get};
    ghost use Rattle.std.specs.Option.{option_map};
    ghost use Rattle.rowan.specs.Types.NodeOrToken.TheVariants.{Token};
    ghost use Rattle.rowan.specs.Moves.{children_with_tokens};
    ghost use Rattle.rowan.specs.Ast.{is_token_of, means_one_of};
    ghost use Rattle.rowan.specs.Refs.{token_place};
    ghost use Rattle.toml_syntax.specs.contracts.kinds.Kind.{the_type};
    ghost use denote.Enum.Bare.{sameb};
    ghost use Rattle.toml_syntax.specs.Kinds.{kind_of};
    ghost use Rattle.toml_syntax.specs.NodeIn.{place_in};

    /// The token at index 0 among those of `SCALAR_VALUE`.
    pub fn value(&self) -> Option<SyntaxTokenRef<'tree, Toml>>
        ensures { let alike = is_token_of (means_one_of kind_of (sameb the_type) SCALAR_VALUE.now) in
            option_map Token (option_map token_place result)
            ≡ slice_get (filter alike (children_with_tokens (place_in self.now))) 0 }
    {
        support::nth_token_ref(self.syntax, SCALAR_VALUE, 0)
    }
}

/// An array.
///
/// ```text
/// Array = '[' (Value (',' Value)* ','?)? ']'
/// ```
pub type ArrayRef<'tree> = NodeOfRef<'tree, 33>;

impl<'tree> ArrayRef<'tree> {
    ghost use Rattle.std.specs.Prelude.{◌≡◌, filter};
    ghost use Rattle.std.specs.List.{find};
    ghost use Rattle.std.specs.Option.{option_map};
    ghost use Rattle.rowan.specs.Types.NodeOrToken.TheVariants.{Token};
    ghost use Rattle.rowan.specs.Moves.{children, children_with_tokens};
    ghost use Rattle.rowan.specs.Ast.{casts_at, is_token_of, rest_that_casts};
    ghost use Rattle.rowan.specs.Refs.{token_place};
    ghost use Rattle.rowan.specs.Pointer.{means_kind};
    ghost use Rattle.toml_syntax.specs.contracts.kinds.Kind.{the_type};
    ghost use denote.Enum.Bare.{sameb};
    ghost use Rattle.toml_syntax.specs.Kinds.{kind_of};
    ghost use Rattle.toml_syntax.specs.Casts.{is_value};
    ghost use Rattle.toml_syntax.specs.NodeIn.{place_in};

    /// The first token `LBracket`.
    pub fn l_bracket_token(&self) -> Option<SyntaxTokenRef<'tree, Toml>>
        ensures { let means = means_kind kind_of (sameb the_type) Kind.LBracket in
            option_map Token (option_map token_place result)
            ≡ find (is_token_of means) (children_with_tokens (place_in self.now)) }
    {
        support::token_of(self.syntax, Kind::LBracket)
    }

    /// The children that are `Value`, in order.
    pub fn values(&self) -> AstNodesRef<'tree, ValueRef<'tree>>
        ensures { let casts = casts_at kind_of is_value in
            rest_that_casts casts result ≡ filter casts (children (place_in self.now)) }
    {
        support::children_ref(self.syntax)
    }

    /// The first token `RBracket`.
    pub fn r_bracket_token(&self) -> Option<SyntaxTokenRef<'tree, Toml>>
        ensures { let means = means_kind kind_of (sameb the_type) Kind.RBracket in
            option_map Token (option_map token_place result)
            ≡ find (is_token_of means) (children_with_tokens (place_in self.now)) }
    {
        support::token_of(self.syntax, Kind::RBracket)
    }
}

/// A table in braces.
///
/// ```text
/// InlineTable = '{' (Entry (',' Entry)* ','?)? '}'
/// ```
pub type InlineTableRef<'tree> = NodeOfRef<'tree, 34>;

impl<'tree> InlineTableRef<'tree> {
    ghost use Rattle.std.specs.Prelude.{◌≡◌, filter};
    ghost use Rattle.std.specs.List.{find};
    ghost use Rattle.std.specs.Option.{option_map};
    ghost use Rattle.rowan.specs.Types.NodeOrToken.TheVariants.{Token};
    ghost use Rattle.rowan.specs.Moves.{children, children_with_tokens};
    ghost use Rattle.rowan.specs.Ast.{casts_at, is_token_of, rest_that_casts};
    ghost use Rattle.rowan.specs.Refs.{token_place};
    ghost use Rattle.rowan.specs.Pointer.{means_kind};
    ghost use Rattle.toml_syntax.specs.contracts.kinds.Kind.{the_type};
    ghost use denote.Enum.Bare.{sameb};
    ghost use Rattle.toml_syntax.specs.Kinds.{kind_of};
    ghost use Rattle.toml_syntax.specs.Casts.{is_entry};
    ghost use Rattle.toml_syntax.specs.NodeIn.{place_in};

    /// The first token `LBrace`.
    pub fn l_brace_token(&self) -> Option<SyntaxTokenRef<'tree, Toml>>
        ensures { let means = means_kind kind_of (sameb the_type) Kind.LBrace in
            option_map Token (option_map token_place result)
            ≡ find (is_token_of means) (children_with_tokens (place_in self.now)) }
    {
        support::token_of(self.syntax, Kind::LBrace)
    }

    /// The children that are `Entry`, in order.
    pub fn entries(&self) -> AstNodesRef<'tree, EntryRef<'tree>>
        ensures { let casts = casts_at kind_of is_entry in
            rest_that_casts casts result ≡ filter casts (children (place_in self.now)) }
    {
        support::children_ref(self.syntax)
    }

    /// The first token `RBrace`.
    pub fn r_brace_token(&self) -> Option<SyntaxTokenRef<'tree, Toml>>
        ensures { let means = means_kind kind_of (sameb the_type) Kind.RBrace in
            option_map Token (option_map token_place result)
            ≡ find (is_token_of means) (children_with_tokens (place_in self.now)) }
    {
        support::token_of(self.syntax, Kind::RBrace)
    }
}
