// Written by rowan_grammar from sample.ungram: change that, and not this file.
//! Wrappers of the nodes of Sample: owned ones, which keep the tree, and those that borrow it.
ghost use Rattle.std.specs.Prelude.{◌≡◌, true};
ghost use Rattle.rowan.specs.Ast.{casts_at};
ghost use Rattle.rowan.specs.Refs.{node_place};
ghost use Rattle.grammar_sample.specs.Casts.{has_number};
ghost use Rattle.grammar_sample.specs.Kinds.{kind_of};

use crate::kinds::{Kind, Sample};
use rowan::ast::{AstChildren, AstNode, AstNodeRef, AstNodesRef, support};
use rowan::{Fault, SyntaxNode, SyntaxNodeRef, SyntaxToken, SyntaxTokenRef};
use std::marker::Model;

/// A node whose kind has this number.
#[derive(Clone, PartialEq, Eq, Hash, Drop)]
pub struct NodeOf<const KIND: u16> {
    syntax: SyntaxNode<Sample>,
}

impl<const KIND: u16> Model for NodeOf<KIND> {
    ghost use Rattle.std.specs.Prelude.{◌≡◌, true};
    ghost use Rattle.rowan.specs.Cursor.{Cursor};
    ghost use Rattle.rowan.specs.CursorCode.{coded_cursor};
    ghost use Rattle.rowan.specs.Ast.{casts_at};
    ghost use Rattle.grammar_sample.specs.Casts.{has_number};
    ghost use Rattle.grammar_sample.specs.Kinds.{kind_of};

    ghost Value = { Cursor };

    ghost coded = { coded_cursor };

    ghost view = { λ wrapper. wrapper.syntax };

    ghost inverse = { λ node. record { syntax = node } };

    ghost invariant = { λ wrapper. casts_at kind_of (has_number KIND) wrapper.syntax ≡ true };
}

impl<const KIND: u16> AstNode for NodeOf<KIND> {
    type Language = Sample;

    ghost use Rattle.std.specs.Prelude.{◌≡◌};
    ghost use Rattle.std.specs.Option.{option_map};
    ghost use Rattle.rowan.specs.Ast.{casts_at, if_casts};
    ghost use Rattle.grammar_sample.specs.Casts.{has_number, same_kind};
    ghost use Rattle.grammar_sample.specs.Kinds.{kind_of};
    ghost use Rattle.std.proofs.Common.{ap};

    ghost casts = { has_number KIND };

    ghost node_of = { λ wrapper. wrapper };

    fn can_cast(kind: Kind) -> bool {
        <Sample as rowan::Language>::kind_to_raw(kind).0 == KIND
    }

    fn cast(syntax: SyntaxNode<Sample>) -> Option<NodeOf<KIND>>
        ensures { let casting = casts_at kind_of (has_number KIND) in
            option_map (λ wrapper. wrapper) result ≡ if_casts casting syntax }
    {
        if Self::can_cast(syntax.kind()) {
            Some(NodeOf { syntax })
        } else {
            None
        }
    }

    fn syntax(&self) -> &SyntaxNode<Sample> {
        &self.syntax
    }

    ghost equal_kinds = { λ a b same. ap (has_number KIND) (same_kind a b same) };
}

impl<const KIND: u16> NodeOf<KIND> {
    ghost use Rattle.std.specs.Prelude.{◌≡◌};
    ghost use Rattle.grammar_sample.specs.NodeIn.{place_in};

    /// The same node, borrowed from its tree.
    pub fn as_ref(&self) -> NodeOfRef<'_, KIND>
        ensures { place_in result ≡ self.now }
    {
        NodeOfRef {
            syntax: self.syntax.as_ref(),
        }
    }
}

impl<const KIND: u16> std::fmt::Debug for NodeOf<KIND> {
    fn fmt<W: std::fmt::Write>(&self, f: &mut std::fmt::Formatter<W>) -> std::fmt::Result {
        self.syntax.fmt(f)
    }
}

/// A node whose kind has this number, borrowed from its tree.
#[derive(Clone, Copy, PartialEq, Eq, Hash)]
pub struct NodeOfRef<'tree, const KIND: u16> {
    syntax: SyntaxNodeRef<'tree, Sample>,
    ghost casts: { casts_at kind_of (has_number KIND) (node_place syntax) ≡ true },
}

impl<'tree, const KIND: u16> AstNodeRef<'tree> for NodeOfRef<'tree, KIND> {
    type Language = Sample;

    ghost use Rattle.std.specs.Prelude.{◌≡◌, true};
    ghost use Rattle.std.specs.Option.{option_map};
    ghost use Rattle.rowan.specs.Ast.{casts_at, if_casts};
    ghost use Rattle.rowan.specs.Refs.{node_place};
    ghost use Rattle.grammar_sample.specs.Casts.{has_number};
    ghost use Rattle.grammar_sample.specs.Kinds.{kind_of};
    ghost use Rattle.grammar_sample.specs.NodeIn.{place_in};

    ghost casts = { has_number KIND };

    ghost node_of = { place_in };

    fn can_cast(kind: Kind) -> bool
        ensures { result ≡ has_number KIND kind }
    {
        <Sample as rowan::Language>::kind_to_raw(kind).0 == KIND
    }

    fn cast(syntax: SyntaxNodeRef<'tree, Sample>) -> Option<NodeOfRef<'tree, KIND>>
        ensures { let casting = casts_at kind_of (has_number KIND) in
            option_map place_in result ≡ if_casts casting (node_place syntax.entry) }
    {
        if Self::can_cast(syntax.kind()) {
            Some(NodeOfRef { syntax })
        } else {
            None
        }
    }

    fn syntax(&self) -> SyntaxNodeRef<'tree, Sample>
        ensures node { node_place result ≡ place_in self.now }
        ensures casts { casts_at kind_of (has_number KIND) (node_place result) ≡ true }
    {
        self.syntax
    }
}

impl<'tree, const KIND: u16> NodeOfRef<'tree, KIND> {
    ghost use Rattle.std.specs.Prelude.{◌≡◌, IfOk, IfErr};
    ghost use Rattle.grammar_sample.specs.NodeIn.{place_in};

    /// The same node in a wrapper that keeps the tree. Refused with `Memory` alone.
    pub fn to_owned(&self) -> Result<NodeOf<KIND>, Fault>
        ensures ok { IfOk result (λ owned. owned ≡ place_in self.now) }
        ensures err { IfErr result (λ e. e ≡ Fault.Memory) }
    {
        let syntax = self.syntax.to_owned()?;
        Ok(NodeOf { syntax })
    }
}

impl<const KIND: u16> std::fmt::Debug for NodeOfRef<'_, KIND> {
    fn fmt<W: std::fmt::Write>(&self, f: &mut std::fmt::Formatter<W>) -> std::fmt::Result {
        self.syntax.fmt(f)
    }
}

/// The node of the whole text.
///
/// ```text
/// Document = Entry* Section*
/// ```
pub type Document = NodeOf<20>;

/// [`Document`], borrowed from its tree.
pub type DocumentRef<'tree> = NodeOfRef<'tree, 20>;

impl Document {
    ghost use Rattle.std.specs.Prelude.{◌≡◌, IfOk, IfErr};
    ghost use Rattle.rowan.specs.Moves.{children};

    /// The children that are `Entry`, in order.
    pub fn entries(&self) -> AstChildren<Entry>
        ensures ok { IfOk result (λ nodes. nodes ≡ children self.now) }
        ensures err { IfErr result (λ e. e ≡ Fault.Memory) }
    {
        support::children(&self.syntax)
    }

    /// The children that are `Section`, in order.
    pub fn sections(&self) -> AstChildren<Section>
        ensures ok { IfOk result (λ nodes. nodes ≡ children self.now) }
        ensures err { IfErr result (λ e. e ≡ Fault.Memory) }
    {
        support::children(&self.syntax)
    }
}

impl<'tree> DocumentRef<'tree> {
    ghost use Rattle.std.specs.Prelude.{◌≡◌, filter};
    ghost use Rattle.rowan.specs.Moves.{children};
    ghost use Rattle.rowan.specs.Ast.{casts_at, rest_that_casts};
    ghost use Rattle.grammar_sample.specs.Kinds.{kind_of};
    ghost use Rattle.grammar_sample.specs.Casts.{is_entry, is_section};
    ghost use Rattle.grammar_sample.specs.NodeIn.{place_in};

    /// The children that are `Entry`, in order.
    pub fn entries(&self) -> AstNodesRef<'tree, EntryRef<'tree>>
        ensures { let casts = casts_at kind_of is_entry in
            rest_that_casts casts result ≡ filter casts (children (place_in self.now)) }
    {
        support::children_ref(self.syntax)
    }

    /// The children that are `Section`, in order.
    pub fn sections(&self) -> AstNodesRef<'tree, SectionRef<'tree>>
        ensures { let casts = casts_at kind_of is_section in
            rest_that_casts casts result ≡ filter casts (children (place_in self.now)) }
    {
        support::children_ref(self.syntax)
    }
}

/// A part of a document under a header.
///
/// ```text
/// Section = Table | ArrayTable
/// ```
#[derive(Clone, PartialEq, Eq, Hash, Debug, Drop)]
pub enum Section {
    /// A header and the entries below it.
    Table(Table),
    /// A header in double brackets and the entries below it.
    ArrayTable(ArrayTable),
}

impl AstNode for Section {
    type Language = Sample;

    ghost use Rattle.std.specs.Prelude.{◌≡◌};
    ghost use Rattle.std.specs.Option.{option_map};
    ghost use Rattle.rowan.specs.Ast.{casts_at, if_casts};
    ghost use Rattle.grammar_sample.specs.Casts.{is_section, same_kind};
    ghost use Rattle.grammar_sample.specs.Kinds.{kind_of};
    ghost use Rattle.grammar_sample.specs.NodeIn.{node_in_section};
    ghost use Rattle.std.proofs.Common.{ap};

    ghost casts = { is_section };

    ghost node_of = { node_in_section };

    fn can_cast(kind: Kind) -> bool {
        match kind {
            Kind::Table => true,
            Kind::ArrayTable => true,
            _ => false,
        }
    }

    fn cast(syntax: SyntaxNode<Sample>) -> Option<Section>
        ensures { let casting = casts_at kind_of is_section in
            option_map node_in_section result ≡ if_casts casting syntax }
    {
        match syntax.kind() {
            Kind::Table => Some(Section::Table(NodeOf { syntax })),
            Kind::ArrayTable => Some(Section::ArrayTable(NodeOf { syntax })),
            _ => None,
        }
    }

    #[tactic(auto, using(crate::proofs::CastLemmas::table_is_section, crate::proofs::CastLemmas::array_table_is_section))]
    fn syntax(&self) -> &SyntaxNode<Sample> {
        match self {
            Section::Table(node) => node.syntax(),
            Section::ArrayTable(node) => node.syntax(),
        }
    }

    ghost equal_kinds = { λ a b same. ap is_section (same_kind a b same) };
}

impl Section {
    ghost use Rattle.std.specs.Prelude.{◌≡◌};
    ghost use Rattle.grammar_sample.specs.NodeIn.{node_in_section, place_in_section};

    /// The same node, borrowed from its tree.
    pub fn as_ref(&self) -> SectionRef<'_>
        ensures { place_in_section result ≡ node_in_section self.now }
    {
        SectionRef::cast(self.syntax().as_ref()).unwrap()
    }
}

/// [`Section`], borrowed from its tree.
#[derive(Clone, Copy, PartialEq, Eq, Hash, Debug)]
pub enum SectionRef<'tree> {
    /// A header and the entries below it.
    Table(TableRef<'tree>),
    /// A header in double brackets and the entries below it.
    ArrayTable(ArrayTableRef<'tree>),
}

impl<'tree> AstNodeRef<'tree> for SectionRef<'tree> {
    type Language = Sample;

    ghost use Rattle.std.specs.Prelude.{◌≡◌, true};
    ghost use Rattle.std.specs.Option.{option_map};
    ghost use Rattle.rowan.specs.Ast.{casts_at, if_casts};
    ghost use Rattle.rowan.specs.Refs.{node_place};
    ghost use Rattle.grammar_sample.specs.Casts.{is_section};
    ghost use Rattle.grammar_sample.specs.Kinds.{kind_of};
    ghost use Rattle.grammar_sample.specs.NodeIn.{place_in_section};

    ghost casts = { is_section };

    ghost node_of = { place_in_section };

    fn can_cast(kind: Kind) -> bool
        ensures { result ≡ is_section kind }
    {
        Section::can_cast(kind)
    }

    fn cast(syntax: SyntaxNodeRef<'tree, Sample>) -> Option<SectionRef<'tree>>
        ensures { let casting = casts_at kind_of is_section in
            option_map place_in_section result ≡ if_casts casting (node_place syntax.entry) }
    {
        match syntax.kind() {
            Kind::Table => Some(SectionRef::Table(NodeOfRef { syntax })),
            Kind::ArrayTable => Some(SectionRef::ArrayTable(NodeOfRef { syntax })),
            _ => None,
        }
    }

    #[tactic(auto, using(crate::proofs::CastLemmas::table_is_section_raw, crate::proofs::CastLemmas::array_table_is_section_raw))]
    fn syntax(&self) -> SyntaxNodeRef<'tree, Sample>
        ensures node { node_place result ≡ place_in_section self.now }
        ensures casts { casts_at kind_of is_section (node_place result) ≡ true }
    {
        match self {
            SectionRef::Table(node) => node.syntax(),
            SectionRef::ArrayTable(node) => node.syntax(),
        }
    }
}

impl<'tree> SectionRef<'tree> {
    ghost use Rattle.std.specs.Prelude.{◌≡◌, IfOk, IfErr};
    ghost use Rattle.grammar_sample.specs.NodeIn.{node_in_section, place_in_section};

    /// The same node in a wrapper that keeps the tree. Refused with `Memory` alone.
    pub fn to_owned(&self) -> Result<Section, Fault>
        ensures ok { IfOk result (λ owned. node_in_section owned ≡ place_in_section self.now) }
        ensures err { IfErr result (λ e. e ≡ Fault.Memory) }
    {
        let syntax = self.syntax().to_owned()?;
        Ok(Section::cast(syntax).unwrap())
    }
}

impl From<Table> for Section {
    ghost use Rattle.std.specs.Prelude.{◌≡◌};
    ghost use Rattle.grammar_sample.specs.NodeIn.{node_in_section};

    ghost from_gives = { λ node whole. node_in_section whole ≡ node };

    fn from(node: Table) -> Section {
        Section::Table(node)
    }
}

impl<'tree> From<TableRef<'tree>> for SectionRef<'tree> {
    ghost use Rattle.std.specs.Prelude.{◌≡◌};
    ghost use Rattle.grammar_sample.specs.NodeIn.{place_in_section, place_in};

    ghost from_gives = { λ node whole. place_in_section whole ≡ place_in node };

    fn from(node: TableRef<'tree>) -> SectionRef<'tree> {
        SectionRef::Table(node)
    }
}

impl From<ArrayTable> for Section {
    ghost use Rattle.std.specs.Prelude.{◌≡◌};
    ghost use Rattle.grammar_sample.specs.NodeIn.{node_in_section};

    ghost from_gives = { λ node whole. node_in_section whole ≡ node };

    fn from(node: ArrayTable) -> Section {
        Section::ArrayTable(node)
    }
}

impl<'tree> From<ArrayTableRef<'tree>> for SectionRef<'tree> {
    ghost use Rattle.std.specs.Prelude.{◌≡◌};
    ghost use Rattle.grammar_sample.specs.NodeIn.{place_in_section, place_in};

    ghost from_gives = { λ node whole. place_in_section whole ≡ place_in node };

    fn from(node: ArrayTableRef<'tree>) -> SectionRef<'tree> {
        SectionRef::ArrayTable(node)
    }
}

/// A header and the entries below it.
///
/// ```text
/// Table = Header Entry*
/// ```
pub type Table = NodeOf<21>;

/// [`Table`], borrowed from its tree.
pub type TableRef<'tree> = NodeOfRef<'tree, 21>;

impl Table {
    ghost use Rattle.std.specs.Prelude.{◌≡◌, IfOk, IfErr};
    ghost use Rattle.std.specs.List.{find};
    ghost use Rattle.std.specs.Option.{option_map};
    ghost use Rattle.rowan.specs.Moves.{children};
    ghost use Rattle.rowan.specs.Ast.{casts_at};
    ghost use Rattle.grammar_sample.specs.Kinds.{kind_of};
    ghost use Rattle.grammar_sample.specs.Casts.{is_header};

    /// The first child that is `Header`.
    pub fn header(&self) -> Result<Option<Header>, Fault>
        ensures ok { let casts = casts_at kind_of is_header in
            IfOk result (λ found.
            option_map (λ node. node) found ≡ find casts (children self.now)) }
        ensures err { IfErr result (λ e. e ≡ Fault.Memory) }
    {
        support::child(&self.syntax)
    }

    /// The children that are `Entry`, in order.
    pub fn entries(&self) -> AstChildren<Entry>
        ensures ok { IfOk result (λ nodes. nodes ≡ children self.now) }
        ensures err { IfErr result (λ e. e ≡ Fault.Memory) }
    {
        support::children(&self.syntax)
    }
}

impl<'tree> TableRef<'tree> {
    ghost use Rattle.std.specs.Prelude.{◌≡◌, filter};
    ghost use Rattle.std.specs.List.{find};
    ghost use Rattle.std.specs.Option.{option_map};
    ghost use Rattle.rowan.specs.Moves.{children};
    ghost use Rattle.rowan.specs.Ast.{casts_at, rest_that_casts};
    ghost use Rattle.grammar_sample.specs.Kinds.{kind_of};
    ghost use Rattle.grammar_sample.specs.Casts.{is_header, is_entry};
    ghost use Rattle.grammar_sample.specs.NodeIn.{place_in};

    /// The first child that is `Header`.
    pub fn header(&self) -> Option<HeaderRef<'tree>>
        ensures { let casts = casts_at kind_of is_header in
            option_map place_in result ≡ find casts (children (place_in self.now)) }
    {
        support::child_ref(self.syntax)
    }

    /// The children that are `Entry`, in order.
    pub fn entries(&self) -> AstNodesRef<'tree, EntryRef<'tree>>
        ensures { let casts = casts_at kind_of is_entry in
            rest_that_casts casts result ≡ filter casts (children (place_in self.now)) }
    {
        support::children_ref(self.syntax)
    }
}

/// A header in double brackets and the entries below it.
///
/// ```text
/// ArrayTable = ArrayHeader Entry*
/// ```
pub type ArrayTable = NodeOf<22>;

/// [`ArrayTable`], borrowed from its tree.
pub type ArrayTableRef<'tree> = NodeOfRef<'tree, 22>;

impl ArrayTable {
    ghost use Rattle.std.specs.Prelude.{◌≡◌, IfOk, IfErr};
    ghost use Rattle.std.specs.List.{find};
    ghost use Rattle.std.specs.Option.{option_map};
    ghost use Rattle.rowan.specs.Moves.{children};
    ghost use Rattle.rowan.specs.Ast.{casts_at};
    ghost use Rattle.grammar_sample.specs.Kinds.{kind_of};
    ghost use Rattle.grammar_sample.specs.Casts.{is_array_header};

    /// The first child that is `ArrayHeader`.
    pub fn array_header(&self) -> Result<Option<ArrayHeader>, Fault>
        ensures ok { let casts = casts_at kind_of is_array_header in
            IfOk result (λ found.
            option_map (λ node. node) found ≡ find casts (children self.now)) }
        ensures err { IfErr result (λ e. e ≡ Fault.Memory) }
    {
        support::child(&self.syntax)
    }

    /// The children that are `Entry`, in order.
    pub fn entries(&self) -> AstChildren<Entry>
        ensures ok { IfOk result (λ nodes. nodes ≡ children self.now) }
        ensures err { IfErr result (λ e. e ≡ Fault.Memory) }
    {
        support::children(&self.syntax)
    }
}

impl<'tree> ArrayTableRef<'tree> {
    ghost use Rattle.std.specs.Prelude.{◌≡◌, filter};
    ghost use Rattle.std.specs.List.{find};
    ghost use Rattle.std.specs.Option.{option_map};
    ghost use Rattle.rowan.specs.Moves.{children};
    ghost use Rattle.rowan.specs.Ast.{casts_at, rest_that_casts};
    ghost use Rattle.grammar_sample.specs.Kinds.{kind_of};
    ghost use Rattle.grammar_sample.specs.Casts.{is_array_header, is_entry};
    ghost use Rattle.grammar_sample.specs.NodeIn.{place_in};

    /// The first child that is `ArrayHeader`.
    pub fn array_header(&self) -> Option<ArrayHeaderRef<'tree>>
        ensures { let casts = casts_at kind_of is_array_header in
            option_map place_in result ≡ find casts (children (place_in self.now)) }
    {
        support::child_ref(self.syntax)
    }

    /// The children that are `Entry`, in order.
    pub fn entries(&self) -> AstNodesRef<'tree, EntryRef<'tree>>
        ensures { let casts = casts_at kind_of is_entry in
            rest_that_casts casts result ≡ filter casts (children (place_in self.now)) }
    {
        support::children_ref(self.syntax)
    }
}

/// A key in brackets.
///
/// ```text
/// Header = '[' Key ']'
/// ```
pub type Header = NodeOf<23>;

/// [`Header`], borrowed from its tree.
pub type HeaderRef<'tree> = NodeOfRef<'tree, 23>;

impl Header {
    ghost use Rattle.std.specs.Prelude.{◌≡◌, IfOk, IfErr};
    ghost use Rattle.std.specs.List.{find};
    ghost use Rattle.std.specs.Option.{option_map};
    ghost use Rattle.rowan.specs.Types.NodeOrToken.TheVariants.{Token};
    ghost use Rattle.rowan.specs.Moves.{children, children_with_tokens};
    ghost use Rattle.rowan.specs.Ast.{casts_at, is_token_of};
    ghost use Rattle.rowan.specs.Pointer.{means_kind};
    ghost use Rattle.grammar_sample.specs.contracts.kinds.Kind.{the_type};
    ghost use denote.Enum.Bare.{sameb};
    ghost use Rattle.grammar_sample.specs.Kinds.{kind_of};
    ghost use Rattle.grammar_sample.specs.Casts.{is_key};

    /// The first token `LeftBracket`.
    pub fn left_bracket_token(&self) -> Result<Option<SyntaxToken<Sample>>, Fault>
        ensures ok { let means = means_kind kind_of (sameb the_type) Kind.LeftBracket in
            IfOk result (λ found. option_map Token found
            ≡ find (is_token_of means) (children_with_tokens self.now)) }
        ensures err { IfErr result (λ e. e ≡ Fault.Memory) }
    {
        support::token(&self.syntax, Kind::LeftBracket)
    }

    /// The first child that is `Key`.
    pub fn key(&self) -> Result<Option<Key>, Fault>
        ensures ok { let casts = casts_at kind_of is_key in
            IfOk result (λ found.
            option_map (λ node. node) found ≡ find casts (children self.now)) }
        ensures err { IfErr result (λ e. e ≡ Fault.Memory) }
    {
        support::child(&self.syntax)
    }

    /// The first token `RightBracket`.
    pub fn right_bracket_token(&self) -> Result<Option<SyntaxToken<Sample>>, Fault>
        ensures ok { let means = means_kind kind_of (sameb the_type) Kind.RightBracket in
            IfOk result (λ found. option_map Token found
            ≡ find (is_token_of means) (children_with_tokens self.now)) }
        ensures err { IfErr result (λ e. e ≡ Fault.Memory) }
    {
        support::token(&self.syntax, Kind::RightBracket)
    }
}

impl<'tree> HeaderRef<'tree> {
    ghost use Rattle.std.specs.Prelude.{◌≡◌};
    ghost use Rattle.std.specs.List.{find};
    ghost use Rattle.std.specs.Option.{option_map};
    ghost use Rattle.rowan.specs.Types.NodeOrToken.TheVariants.{Token};
    ghost use Rattle.rowan.specs.Moves.{children, children_with_tokens};
    ghost use Rattle.rowan.specs.Ast.{casts_at, is_token_of};
    ghost use Rattle.rowan.specs.Refs.{token_place};
    ghost use Rattle.rowan.specs.Pointer.{means_kind};
    ghost use Rattle.grammar_sample.specs.contracts.kinds.Kind.{the_type};
    ghost use denote.Enum.Bare.{sameb};
    ghost use Rattle.grammar_sample.specs.Kinds.{kind_of};
    ghost use Rattle.grammar_sample.specs.Casts.{is_key};
    ghost use Rattle.grammar_sample.specs.NodeIn.{place_in};

    /// The first token `LeftBracket`.
    pub fn left_bracket_token(&self) -> Option<SyntaxTokenRef<'tree, Sample>>
        ensures { let means = means_kind kind_of (sameb the_type) Kind.LeftBracket in
            option_map Token (option_map token_place result)
            ≡ find (is_token_of means) (children_with_tokens (place_in self.now)) }
    {
        support::token_of(self.syntax, Kind::LeftBracket)
    }

    /// The first child that is `Key`.
    pub fn key(&self) -> Option<KeyRef<'tree>>
        ensures { let casts = casts_at kind_of is_key in
            option_map place_in result ≡ find casts (children (place_in self.now)) }
    {
        support::child_ref(self.syntax)
    }

    /// The first token `RightBracket`.
    pub fn right_bracket_token(&self) -> Option<SyntaxTokenRef<'tree, Sample>>
        ensures { let means = means_kind kind_of (sameb the_type) Kind.RightBracket in
            option_map Token (option_map token_place result)
            ≡ find (is_token_of means) (children_with_tokens (place_in self.now)) }
    {
        support::token_of(self.syntax, Kind::RightBracket)
    }
}

/// A key in double brackets.
///
/// ```text
/// ArrayHeader = '[' '[' Key ']' ']'
/// ```
pub type ArrayHeader = NodeOf<24>;

/// [`ArrayHeader`], borrowed from its tree.
pub type ArrayHeaderRef<'tree> = NodeOfRef<'tree, 24>;

impl ArrayHeader {
    ghost use Rattle.std.specs.Prelude.{◌≡◌, IfOk, IfErr};
    ghost use Rattle.std.specs.List.{find};
    ghost use Rattle.std.specs.Option.{option_map};
    ghost use Rattle.rowan.specs.Moves.{children};
    ghost use Rattle.rowan.specs.Ast.{casts_at};
    ghost use Rattle.grammar_sample.specs.Kinds.{kind_of};
    ghost use Rattle.grammar_sample.specs.Casts.{is_key};

    /// The first child that is `Key`.
    pub fn key(&self) -> Result<Option<Key>, Fault>
        ensures ok { let casts = casts_at kind_of is_key in
            IfOk result (λ found.
            option_map (λ node. node) found ≡ find casts (children self.now)) }
        ensures err { IfErr result (λ e. e ≡ Fault.Memory) }
    {
        support::child(&self.syntax)
    }
}

impl<'tree> ArrayHeaderRef<'tree> {
    ghost use Rattle.std.specs.Prelude.{◌≡◌};
    ghost use Rattle.std.specs.List.{find};
    ghost use Rattle.std.specs.Option.{option_map};
    ghost use Rattle.rowan.specs.Moves.{children};
    ghost use Rattle.rowan.specs.Ast.{casts_at};
    ghost use Rattle.grammar_sample.specs.Kinds.{kind_of};
    ghost use Rattle.grammar_sample.specs.Casts.{is_key};
    ghost use Rattle.grammar_sample.specs.NodeIn.{place_in};

    /// The first child that is `Key`.
    pub fn key(&self) -> Option<KeyRef<'tree>>
        ensures { let casts = casts_at kind_of is_key in
            option_map place_in result ≡ find casts (children (place_in self.now)) }
    {
        support::child_ref(self.syntax)
    }
}

/// A key, and behind an equals sign a value.
///
/// ```text
/// Entry = Key '=' Value Note?
/// ```
pub type Entry = NodeOf<25>;

/// [`Entry`], borrowed from its tree.
pub type EntryRef<'tree> = NodeOfRef<'tree, 25>;

impl Entry {
    ghost use Rattle.std.specs.Prelude.{◌≡◌, IfOk, IfErr};
    ghost use Rattle.std.specs.List.{find};
    ghost use Rattle.std.specs.Option.{option_map};
    ghost use Rattle.rowan.specs.Types.NodeOrToken.TheVariants.{Token};
    ghost use Rattle.rowan.specs.Moves.{children, children_with_tokens};
    ghost use Rattle.rowan.specs.Ast.{casts_at, is_token_of};
    ghost use Rattle.rowan.specs.Pointer.{means_kind};
    ghost use Rattle.grammar_sample.specs.contracts.kinds.Kind.{the_type};
    ghost use denote.Enum.Bare.{sameb};
    ghost use Rattle.grammar_sample.specs.Kinds.{kind_of};
    ghost use Rattle.grammar_sample.specs.Casts.{is_key, is_value, is_note};
    ghost use Rattle.grammar_sample.specs.NodeIn.{node_in_value};

    /// The first child that is `Key`.
    pub fn key(&self) -> Result<Option<Key>, Fault>
        ensures ok { let casts = casts_at kind_of is_key in
            IfOk result (λ found.
            option_map (λ node. node) found ≡ find casts (children self.now)) }
        ensures err { IfErr result (λ e. e ≡ Fault.Memory) }
    {
        support::child(&self.syntax)
    }

    /// The first token `Equals`.
    pub fn equals_token(&self) -> Result<Option<SyntaxToken<Sample>>, Fault>
        ensures ok { let means = means_kind kind_of (sameb the_type) Kind.Equals in
            IfOk result (λ found. option_map Token found
            ≡ find (is_token_of means) (children_with_tokens self.now)) }
        ensures err { IfErr result (λ e. e ≡ Fault.Memory) }
    {
        support::token(&self.syntax, Kind::Equals)
    }

    /// The first child that is `Value`.
    pub fn value(&self) -> Result<Option<Value>, Fault>
        ensures ok { let casts = casts_at kind_of is_value in
            IfOk result (λ found.
            option_map node_in_value found ≡ find casts (children self.now)) }
        ensures err { IfErr result (λ e. e ≡ Fault.Memory) }
    {
        support::child(&self.syntax)
    }

    /// The first child that is `Note`.
    pub fn note(&self) -> Result<Option<Note>, Fault>
        ensures ok { let casts = casts_at kind_of is_note in
            IfOk result (λ found.
            option_map (λ node. node) found ≡ find casts (children self.now)) }
        ensures err { IfErr result (λ e. e ≡ Fault.Memory) }
    {
        support::child(&self.syntax)
    }
}

impl<'tree> EntryRef<'tree> {
    ghost use Rattle.std.specs.Prelude.{◌≡◌};
    ghost use Rattle.std.specs.List.{find};
    ghost use Rattle.std.specs.Option.{option_map};
    ghost use Rattle.rowan.specs.Types.NodeOrToken.TheVariants.{Token};
    ghost use Rattle.rowan.specs.Moves.{children, children_with_tokens};
    ghost use Rattle.rowan.specs.Ast.{casts_at, is_token_of};
    ghost use Rattle.rowan.specs.Refs.{token_place};
    ghost use Rattle.rowan.specs.Pointer.{means_kind};
    ghost use Rattle.grammar_sample.specs.contracts.kinds.Kind.{the_type};
    ghost use denote.Enum.Bare.{sameb};
    ghost use Rattle.grammar_sample.specs.Kinds.{kind_of};
    ghost use Rattle.grammar_sample.specs.Casts.{is_key, is_value, is_note};
    ghost use Rattle.grammar_sample.specs.NodeIn.{place_in, place_in_value};

    /// The first child that is `Key`.
    pub fn key(&self) -> Option<KeyRef<'tree>>
        ensures { let casts = casts_at kind_of is_key in
            option_map place_in result ≡ find casts (children (place_in self.now)) }
    {
        support::child_ref(self.syntax)
    }

    /// The first token `Equals`.
    pub fn equals_token(&self) -> Option<SyntaxTokenRef<'tree, Sample>>
        ensures { let means = means_kind kind_of (sameb the_type) Kind.Equals in
            option_map Token (option_map token_place result)
            ≡ find (is_token_of means) (children_with_tokens (place_in self.now)) }
    {
        support::token_of(self.syntax, Kind::Equals)
    }

    /// The first child that is `Value`.
    pub fn value(&self) -> Option<ValueRef<'tree>>
        ensures { let casts = casts_at kind_of is_value in
            option_map place_in_value result ≡ find casts (children (place_in self.now)) }
    {
        support::child_ref(self.syntax)
    }

    /// The first child that is `Note`.
    pub fn note(&self) -> Option<NoteRef<'tree>>
        ensures { let casts = casts_at kind_of is_note in
            option_map place_in result ≡ find casts (children (place_in self.now)) }
    {
        support::child_ref(self.syntax)
    }
}

/// Parts of a key, with dots between them.
///
/// ```text
/// Key = KeyPart ('.' KeyPart)*
/// ```
pub type Key = NodeOf<26>;

/// [`Key`], borrowed from its tree.
pub type KeyRef<'tree> = NodeOfRef<'tree, 26>;

impl Key {
    ghost use Rattle.std.specs.Prelude.{◌≡◌, IfOk, IfErr};
    ghost use Rattle.rowan.specs.Moves.{children};

    /// The children that are `KeyPart`, in order.
    pub fn key_parts(&self) -> AstChildren<KeyPart>
        ensures ok { IfOk result (λ nodes. nodes ≡ children self.now) }
        ensures err { IfErr result (λ e. e ≡ Fault.Memory) }
    {
        support::children(&self.syntax)
    }
}

impl<'tree> KeyRef<'tree> {
    ghost use Rattle.std.specs.Prelude.{◌≡◌, filter};
    ghost use Rattle.rowan.specs.Moves.{children};
    ghost use Rattle.rowan.specs.Ast.{casts_at, rest_that_casts};
    ghost use Rattle.grammar_sample.specs.Kinds.{kind_of};
    ghost use Rattle.grammar_sample.specs.Casts.{is_key_part};
    ghost use Rattle.grammar_sample.specs.NodeIn.{place_in};

    /// The children that are `KeyPart`, in order.
    pub fn key_parts(&self) -> AstNodesRef<'tree, KeyPartRef<'tree>>
        ensures { let casts = casts_at kind_of is_key_part in
            rest_that_casts casts result ≡ filter casts (children (place_in self.now)) }
    {
        support::children_ref(self.syntax)
    }
}

/// A part of a key.
///
/// ```text
/// KeyPart = BareKey | QuotedKey
/// ```
#[derive(Clone, PartialEq, Eq, Hash, Debug, Drop)]
pub enum KeyPart {
    /// A bare part of a key.
    BareKey(BareKey),
    /// A part of a key in quotes.
    QuotedKey(QuotedKey),
}

impl AstNode for KeyPart {
    type Language = Sample;

    ghost use Rattle.std.specs.Prelude.{◌≡◌};
    ghost use Rattle.std.specs.Option.{option_map};
    ghost use Rattle.rowan.specs.Ast.{casts_at, if_casts};
    ghost use Rattle.grammar_sample.specs.Casts.{is_key_part, same_kind};
    ghost use Rattle.grammar_sample.specs.Kinds.{kind_of};
    ghost use Rattle.grammar_sample.specs.NodeIn.{node_in_key_part};
    ghost use Rattle.std.proofs.Common.{ap};

    ghost casts = { is_key_part };

    ghost node_of = { node_in_key_part };

    fn can_cast(kind: Kind) -> bool {
        match kind {
            Kind::BareKey => true,
            Kind::QuotedKey => true,
            _ => false,
        }
    }

    fn cast(syntax: SyntaxNode<Sample>) -> Option<KeyPart>
        ensures { let casting = casts_at kind_of is_key_part in
            option_map node_in_key_part result ≡ if_casts casting syntax }
    {
        match syntax.kind() {
            Kind::BareKey => Some(KeyPart::BareKey(NodeOf { syntax })),
            Kind::QuotedKey => Some(KeyPart::QuotedKey(NodeOf { syntax })),
            _ => None,
        }
    }

    #[tactic(auto, using(crate::proofs::CastLemmas::bare_key_is_key_part, crate::proofs::CastLemmas::quoted_key_is_key_part))]
    fn syntax(&self) -> &SyntaxNode<Sample> {
        match self {
            KeyPart::BareKey(node) => node.syntax(),
            KeyPart::QuotedKey(node) => node.syntax(),
        }
    }

    ghost equal_kinds = { λ a b same. ap is_key_part (same_kind a b same) };
}

impl KeyPart {
    ghost use Rattle.std.specs.Prelude.{◌≡◌};
    ghost use Rattle.grammar_sample.specs.NodeIn.{node_in_key_part, place_in_key_part};

    /// The same node, borrowed from its tree.
    pub fn as_ref(&self) -> KeyPartRef<'_>
        ensures { place_in_key_part result ≡ node_in_key_part self.now }
    {
        KeyPartRef::cast(self.syntax().as_ref()).unwrap()
    }
}

/// [`KeyPart`], borrowed from its tree.
#[derive(Clone, Copy, PartialEq, Eq, Hash, Debug)]
pub enum KeyPartRef<'tree> {
    /// A bare part of a key.
    BareKey(BareKeyRef<'tree>),
    /// A part of a key in quotes.
    QuotedKey(QuotedKeyRef<'tree>),
}

impl<'tree> AstNodeRef<'tree> for KeyPartRef<'tree> {
    type Language = Sample;

    ghost use Rattle.std.specs.Prelude.{◌≡◌, true};
    ghost use Rattle.std.specs.Option.{option_map};
    ghost use Rattle.rowan.specs.Ast.{casts_at, if_casts};
    ghost use Rattle.rowan.specs.Refs.{node_place};
    ghost use Rattle.grammar_sample.specs.Casts.{is_key_part};
    ghost use Rattle.grammar_sample.specs.Kinds.{kind_of};
    ghost use Rattle.grammar_sample.specs.NodeIn.{place_in_key_part};

    ghost casts = { is_key_part };

    ghost node_of = { place_in_key_part };

    fn can_cast(kind: Kind) -> bool
        ensures { result ≡ is_key_part kind }
    {
        KeyPart::can_cast(kind)
    }

    fn cast(syntax: SyntaxNodeRef<'tree, Sample>) -> Option<KeyPartRef<'tree>>
        ensures { let casting = casts_at kind_of is_key_part in
            option_map place_in_key_part result ≡ if_casts casting (node_place syntax.entry) }
    {
        match syntax.kind() {
            Kind::BareKey => Some(KeyPartRef::BareKey(NodeOfRef { syntax })),
            Kind::QuotedKey => Some(KeyPartRef::QuotedKey(NodeOfRef { syntax })),
            _ => None,
        }
    }

    #[tactic(auto, using(crate::proofs::CastLemmas::bare_key_is_key_part_raw, crate::proofs::CastLemmas::quoted_key_is_key_part_raw))]
    fn syntax(&self) -> SyntaxNodeRef<'tree, Sample>
        ensures node { node_place result ≡ place_in_key_part self.now }
        ensures casts { casts_at kind_of is_key_part (node_place result) ≡ true }
    {
        match self {
            KeyPartRef::BareKey(node) => node.syntax(),
            KeyPartRef::QuotedKey(node) => node.syntax(),
        }
    }
}

impl<'tree> KeyPartRef<'tree> {
    ghost use Rattle.std.specs.Prelude.{◌≡◌, IfOk, IfErr};
    ghost use Rattle.grammar_sample.specs.NodeIn.{node_in_key_part, place_in_key_part};

    /// The same node in a wrapper that keeps the tree. Refused with `Memory` alone.
    pub fn to_owned(&self) -> Result<KeyPart, Fault>
        ensures ok { IfOk result (λ owned. node_in_key_part owned ≡ place_in_key_part self.now) }
        ensures err { IfErr result (λ e. e ≡ Fault.Memory) }
    {
        let syntax = self.syntax().to_owned()?;
        Ok(KeyPart::cast(syntax).unwrap())
    }
}

impl From<BareKey> for KeyPart {
    ghost use Rattle.std.specs.Prelude.{◌≡◌};
    ghost use Rattle.grammar_sample.specs.NodeIn.{node_in_key_part};

    ghost from_gives = { λ node whole. node_in_key_part whole ≡ node };

    fn from(node: BareKey) -> KeyPart {
        KeyPart::BareKey(node)
    }
}

impl<'tree> From<BareKeyRef<'tree>> for KeyPartRef<'tree> {
    ghost use Rattle.std.specs.Prelude.{◌≡◌};
    ghost use Rattle.grammar_sample.specs.NodeIn.{place_in_key_part, place_in};

    ghost from_gives = { λ node whole. place_in_key_part whole ≡ place_in node };

    fn from(node: BareKeyRef<'tree>) -> KeyPartRef<'tree> {
        KeyPartRef::BareKey(node)
    }
}

impl From<QuotedKey> for KeyPart {
    ghost use Rattle.std.specs.Prelude.{◌≡◌};
    ghost use Rattle.grammar_sample.specs.NodeIn.{node_in_key_part};

    ghost from_gives = { λ node whole. node_in_key_part whole ≡ node };

    fn from(node: QuotedKey) -> KeyPart {
        KeyPart::QuotedKey(node)
    }
}

impl<'tree> From<QuotedKeyRef<'tree>> for KeyPartRef<'tree> {
    ghost use Rattle.std.specs.Prelude.{◌≡◌};
    ghost use Rattle.grammar_sample.specs.NodeIn.{place_in_key_part, place_in};

    ghost from_gives = { λ node whole. place_in_key_part whole ≡ place_in node };

    fn from(node: QuotedKeyRef<'tree>) -> KeyPartRef<'tree> {
        KeyPartRef::QuotedKey(node)
    }
}

/// A bare part of a key.
///
/// ```text
/// BareKey = Name
/// ```
pub type BareKey = NodeOf<27>;

/// [`BareKey`], borrowed from its tree.
pub type BareKeyRef<'tree> = NodeOfRef<'tree, 27>;

impl BareKey {
    ghost use Rattle.std.specs.Prelude.{◌≡◌, IfOk, IfErr};
    ghost use Rattle.std.specs.List.{find};
    ghost use Rattle.std.specs.Option.{option_map};
    ghost use Rattle.rowan.specs.Types.NodeOrToken.TheVariants.{Token};
    ghost use Rattle.rowan.specs.Moves.{children_with_tokens};
    ghost use Rattle.rowan.specs.Ast.{is_token_of};
    ghost use Rattle.rowan.specs.Pointer.{means_kind};
    ghost use Rattle.grammar_sample.specs.contracts.kinds.Kind.{the_type};
    ghost use denote.Enum.Bare.{sameb};
    ghost use Rattle.grammar_sample.specs.Kinds.{kind_of};

    /// The first token `Name`.
    pub fn name_token(&self) -> Result<Option<SyntaxToken<Sample>>, Fault>
        ensures ok { let means = means_kind kind_of (sameb the_type) Kind.Name in
            IfOk result (λ found. option_map Token found
            ≡ find (is_token_of means) (children_with_tokens self.now)) }
        ensures err { IfErr result (λ e. e ≡ Fault.Memory) }
    {
        support::token(&self.syntax, Kind::Name)
    }
}

impl<'tree> BareKeyRef<'tree> {
    ghost use Rattle.std.specs.Prelude.{◌≡◌};
    ghost use Rattle.std.specs.List.{find};
    ghost use Rattle.std.specs.Option.{option_map};
    ghost use Rattle.rowan.specs.Types.NodeOrToken.TheVariants.{Token};
    ghost use Rattle.rowan.specs.Moves.{children_with_tokens};
    ghost use Rattle.rowan.specs.Ast.{is_token_of};
    ghost use Rattle.rowan.specs.Refs.{token_place};
    ghost use Rattle.rowan.specs.Pointer.{means_kind};
    ghost use Rattle.grammar_sample.specs.contracts.kinds.Kind.{the_type};
    ghost use denote.Enum.Bare.{sameb};
    ghost use Rattle.grammar_sample.specs.Kinds.{kind_of};
    ghost use Rattle.grammar_sample.specs.NodeIn.{place_in};

    /// The first token `Name`.
    pub fn name_token(&self) -> Option<SyntaxTokenRef<'tree, Sample>>
        ensures { let means = means_kind kind_of (sameb the_type) Kind.Name in
            option_map Token (option_map token_place result)
            ≡ find (is_token_of means) (children_with_tokens (place_in self.now)) }
    {
        support::token_of(self.syntax, Kind::Name)
    }
}

/// A part of a key in quotes.
///
/// ```text
/// QuotedKey = Text
/// ```
pub type QuotedKey = NodeOf<28>;

/// [`QuotedKey`], borrowed from its tree.
pub type QuotedKeyRef<'tree> = NodeOfRef<'tree, 28>;

impl QuotedKey {
    ghost use Rattle.std.specs.Prelude.{◌≡◌, IfOk, IfErr};
    ghost use Rattle.std.specs.List.{find};
    ghost use Rattle.std.specs.Option.{option_map};
    ghost use Rattle.rowan.specs.Types.NodeOrToken.TheVariants.{Token};
    ghost use Rattle.rowan.specs.Moves.{children_with_tokens};
    ghost use Rattle.rowan.specs.Ast.{is_token_of};
    ghost use Rattle.rowan.specs.Pointer.{means_kind};
    ghost use Rattle.grammar_sample.specs.contracts.kinds.Kind.{the_type};
    ghost use denote.Enum.Bare.{sameb};
    ghost use Rattle.grammar_sample.specs.Kinds.{kind_of};

    /// The first token `Text`.
    pub fn text_token(&self) -> Result<Option<SyntaxToken<Sample>>, Fault>
        ensures ok { let means = means_kind kind_of (sameb the_type) Kind.Text in
            IfOk result (λ found. option_map Token found
            ≡ find (is_token_of means) (children_with_tokens self.now)) }
        ensures err { IfErr result (λ e. e ≡ Fault.Memory) }
    {
        support::token(&self.syntax, Kind::Text)
    }
}

impl<'tree> QuotedKeyRef<'tree> {
    ghost use Rattle.std.specs.Prelude.{◌≡◌};
    ghost use Rattle.std.specs.List.{find};
    ghost use Rattle.std.specs.Option.{option_map};
    ghost use Rattle.rowan.specs.Types.NodeOrToken.TheVariants.{Token};
    ghost use Rattle.rowan.specs.Moves.{children_with_tokens};
    ghost use Rattle.rowan.specs.Ast.{is_token_of};
    ghost use Rattle.rowan.specs.Refs.{token_place};
    ghost use Rattle.rowan.specs.Pointer.{means_kind};
    ghost use Rattle.grammar_sample.specs.contracts.kinds.Kind.{the_type};
    ghost use denote.Enum.Bare.{sameb};
    ghost use Rattle.grammar_sample.specs.Kinds.{kind_of};
    ghost use Rattle.grammar_sample.specs.NodeIn.{place_in};

    /// The first token `Text`.
    pub fn text_token(&self) -> Option<SyntaxTokenRef<'tree, Sample>>
        ensures { let means = means_kind kind_of (sameb the_type) Kind.Text in
            option_map Token (option_map token_place result)
            ≡ find (is_token_of means) (children_with_tokens (place_in self.now)) }
    {
        support::token_of(self.syntax, Kind::Text)
    }
}

/// A remark behind an entry.
///
/// ```text
/// Note = Text
/// ```
pub type Note = NodeOf<29>;

/// [`Note`], borrowed from its tree.
pub type NoteRef<'tree> = NodeOfRef<'tree, 29>;

impl Note {
    ghost use Rattle.std.specs.Prelude.{◌≡◌, IfOk, IfErr};
    ghost use Rattle.std.specs.List.{find};
    ghost use Rattle.std.specs.Option.{option_map};
    ghost use Rattle.rowan.specs.Types.NodeOrToken.TheVariants.{Token};
    ghost use Rattle.rowan.specs.Moves.{children_with_tokens};
    ghost use Rattle.rowan.specs.Ast.{is_token_of};
    ghost use Rattle.rowan.specs.Pointer.{means_kind};
    ghost use Rattle.grammar_sample.specs.contracts.kinds.Kind.{the_type};
    ghost use denote.Enum.Bare.{sameb};
    ghost use Rattle.grammar_sample.specs.Kinds.{kind_of};

    /// The first token `Text`.
    pub fn text_token(&self) -> Result<Option<SyntaxToken<Sample>>, Fault>
        ensures ok { let means = means_kind kind_of (sameb the_type) Kind.Text in
            IfOk result (λ found. option_map Token found
            ≡ find (is_token_of means) (children_with_tokens self.now)) }
        ensures err { IfErr result (λ e. e ≡ Fault.Memory) }
    {
        support::token(&self.syntax, Kind::Text)
    }
}

impl<'tree> NoteRef<'tree> {
    ghost use Rattle.std.specs.Prelude.{◌≡◌};
    ghost use Rattle.std.specs.List.{find};
    ghost use Rattle.std.specs.Option.{option_map};
    ghost use Rattle.rowan.specs.Types.NodeOrToken.TheVariants.{Token};
    ghost use Rattle.rowan.specs.Moves.{children_with_tokens};
    ghost use Rattle.rowan.specs.Ast.{is_token_of};
    ghost use Rattle.rowan.specs.Refs.{token_place};
    ghost use Rattle.rowan.specs.Pointer.{means_kind};
    ghost use Rattle.grammar_sample.specs.contracts.kinds.Kind.{the_type};
    ghost use denote.Enum.Bare.{sameb};
    ghost use Rattle.grammar_sample.specs.Kinds.{kind_of};
    ghost use Rattle.grammar_sample.specs.NodeIn.{place_in};

    /// The first token `Text`.
    pub fn text_token(&self) -> Option<SyntaxTokenRef<'tree, Sample>>
        ensures { let means = means_kind kind_of (sameb the_type) Kind.Text in
            option_map Token (option_map token_place result)
            ≡ find (is_token_of means) (children_with_tokens (place_in self.now)) }
    {
        support::token_of(self.syntax, Kind::Text)
    }
}

/// A value.
///
/// ```text
/// Value = Literal | Composed | Reference | Call
/// ```
#[derive(Clone, PartialEq, Eq, Hash, Debug, Drop)]
pub enum Value {
    /// A value that is one token.
    Literal(Literal),
    /// A value that has parts.
    Composed(Composed),
    /// The value of another key.
    Reference(Reference),
    /// A call of a function.
    Call(Call),
}

impl AstNode for Value {
    type Language = Sample;

    ghost use Rattle.std.specs.Prelude.{◌≡◌};
    ghost use Rattle.std.specs.Option.{option_map};
    ghost use Rattle.rowan.specs.Ast.{casts_at, if_casts};
    ghost use Rattle.grammar_sample.specs.Casts.{is_value, same_kind};
    ghost use Rattle.grammar_sample.specs.Kinds.{kind_of};
    ghost use Rattle.grammar_sample.specs.NodeIn.{node_in_value};
    ghost use Rattle.std.proofs.Common.{ap};

    ghost casts = { is_value };

    ghost node_of = { node_in_value };

    fn can_cast(kind: Kind) -> bool {
        match kind {
            Kind::TextLiteral => true,
            Kind::IntegerLiteral => true,
            Kind::FloatLiteral => true,
            Kind::BooleanLiteral => true,
            Kind::MomentLiteral => true,
            Kind::Array => true,
            Kind::InlineTable => true,
            Kind::Reference => true,
            Kind::Call => true,
            _ => false,
        }
    }

    fn cast(syntax: SyntaxNode<Sample>) -> Option<Value>
        ensures { let casting = casts_at kind_of is_value in
            option_map node_in_value result ≡ if_casts casting syntax }
    {
        match syntax.kind() {
            Kind::TextLiteral => Some(Value::Literal(Literal::TextLiteral(NodeOf { syntax }))),
            Kind::IntegerLiteral => {
                Some(Value::Literal(Literal::IntegerLiteral(NodeOf { syntax })))
            }
            Kind::FloatLiteral => Some(Value::Literal(Literal::FloatLiteral(NodeOf { syntax }))),
            Kind::BooleanLiteral => {
                Some(Value::Literal(Literal::BooleanLiteral(NodeOf { syntax })))
            }
            Kind::MomentLiteral => Some(Value::Literal(Literal::MomentLiteral(NodeOf { syntax }))),
            Kind::Array => Some(Value::Composed(Composed::Array(NodeOf { syntax }))),
            Kind::InlineTable => Some(Value::Composed(Composed::InlineTable(NodeOf { syntax }))),
            Kind::Reference => Some(Value::Reference(NodeOf { syntax })),
            Kind::Call => Some(Value::Call(NodeOf { syntax })),
            _ => None,
        }
    }

    #[tactic(auto, using(crate::proofs::CastLemmas::literal_is_value, crate::proofs::CastLemmas::composed_is_value, crate::proofs::CastLemmas::reference_is_value, crate::proofs::CastLemmas::call_is_value))]
    fn syntax(&self) -> &SyntaxNode<Sample> {
        match self {
            Value::Literal(node) => node.syntax(),
            Value::Composed(node) => node.syntax(),
            Value::Reference(node) => node.syntax(),
            Value::Call(node) => node.syntax(),
        }
    }

    ghost equal_kinds = { λ a b same. ap is_value (same_kind a b same) };
}

impl Value {
    ghost use Rattle.std.specs.Prelude.{◌≡◌};
    ghost use Rattle.grammar_sample.specs.NodeIn.{node_in_value, place_in_value};

    /// The same node, borrowed from its tree.
    pub fn as_ref(&self) -> ValueRef<'_>
        ensures { place_in_value result ≡ node_in_value self.now }
    {
        ValueRef::cast(self.syntax().as_ref()).unwrap()
    }
}

/// [`Value`], borrowed from its tree.
#[derive(Clone, Copy, PartialEq, Eq, Hash, Debug)]
pub enum ValueRef<'tree> {
    /// A value that is one token.
    Literal(LiteralRef<'tree>),
    /// A value that has parts.
    Composed(ComposedRef<'tree>),
    /// The value of another key.
    Reference(ReferenceRef<'tree>),
    /// A call of a function.
    Call(CallRef<'tree>),
}

impl<'tree> AstNodeRef<'tree> for ValueRef<'tree> {
    type Language = Sample;

    ghost use Rattle.std.specs.Prelude.{◌≡◌, true};
    ghost use Rattle.std.specs.Option.{option_map};
    ghost use Rattle.rowan.specs.Ast.{casts_at, if_casts};
    ghost use Rattle.rowan.specs.Refs.{node_place};
    ghost use Rattle.grammar_sample.specs.Casts.{is_value};
    ghost use Rattle.grammar_sample.specs.Kinds.{kind_of};
    ghost use Rattle.grammar_sample.specs.NodeIn.{place_in_value};

    ghost casts = { is_value };

    ghost node_of = { place_in_value };

    fn can_cast(kind: Kind) -> bool
        ensures { result ≡ is_value kind }
    {
        Value::can_cast(kind)
    }

    fn cast(syntax: SyntaxNodeRef<'tree, Sample>) -> Option<ValueRef<'tree>>
        ensures { let casting = casts_at kind_of is_value in
            option_map place_in_value result ≡ if_casts casting (node_place syntax.entry) }
    {
        match syntax.kind() {
            Kind::TextLiteral => {
                Some(ValueRef::Literal(LiteralRef::TextLiteral(NodeOfRef { syntax })))
            }
            Kind::IntegerLiteral => {
                Some(ValueRef::Literal(LiteralRef::IntegerLiteral(NodeOfRef { syntax })))
            }
            Kind::FloatLiteral => {
                Some(ValueRef::Literal(LiteralRef::FloatLiteral(NodeOfRef { syntax })))
            }
            Kind::BooleanLiteral => {
                Some(ValueRef::Literal(LiteralRef::BooleanLiteral(NodeOfRef { syntax })))
            }
            Kind::MomentLiteral => {
                Some(ValueRef::Literal(LiteralRef::MomentLiteral(NodeOfRef { syntax })))
            }
            Kind::Array => Some(ValueRef::Composed(ComposedRef::Array(NodeOfRef { syntax }))),
            Kind::InlineTable => {
                Some(ValueRef::Composed(ComposedRef::InlineTable(NodeOfRef { syntax })))
            }
            Kind::Reference => Some(ValueRef::Reference(NodeOfRef { syntax })),
            Kind::Call => Some(ValueRef::Call(NodeOfRef { syntax })),
            _ => None,
        }
    }

    #[tactic(auto, using(crate::proofs::CastLemmas::literal_is_value_raw, crate::proofs::CastLemmas::composed_is_value_raw, crate::proofs::CastLemmas::reference_is_value_raw, crate::proofs::CastLemmas::call_is_value_raw))]
    fn syntax(&self) -> SyntaxNodeRef<'tree, Sample>
        ensures node { node_place result ≡ place_in_value self.now }
        ensures casts { casts_at kind_of is_value (node_place result) ≡ true }
    {
        match self {
            ValueRef::Literal(node) => node.syntax(),
            ValueRef::Composed(node) => node.syntax(),
            ValueRef::Reference(node) => node.syntax(),
            ValueRef::Call(node) => node.syntax(),
        }
    }
}

impl<'tree> ValueRef<'tree> {
    ghost use Rattle.std.specs.Prelude.{◌≡◌, IfOk, IfErr};
    ghost use Rattle.grammar_sample.specs.NodeIn.{node_in_value, place_in_value};

    /// The same node in a wrapper that keeps the tree. Refused with `Memory` alone.
    pub fn to_owned(&self) -> Result<Value, Fault>
        ensures ok { IfOk result (λ owned. node_in_value owned ≡ place_in_value self.now) }
        ensures err { IfErr result (λ e. e ≡ Fault.Memory) }
    {
        let syntax = self.syntax().to_owned()?;
        Ok(Value::cast(syntax).unwrap())
    }
}

impl From<Literal> for Value {
    ghost use Rattle.std.specs.Prelude.{◌≡◌};
    ghost use Rattle.grammar_sample.specs.NodeIn.{node_in_value, node_in_literal};

    ghost from_gives = { λ node whole. node_in_value whole ≡ node_in_literal node };

    fn from(node: Literal) -> Value {
        Value::Literal(node)
    }
}

impl<'tree> From<LiteralRef<'tree>> for ValueRef<'tree> {
    ghost use Rattle.std.specs.Prelude.{◌≡◌};
    ghost use Rattle.grammar_sample.specs.NodeIn.{place_in_value, place_in_literal};

    ghost from_gives = { λ node whole. place_in_value whole ≡ place_in_literal node };

    fn from(node: LiteralRef<'tree>) -> ValueRef<'tree> {
        ValueRef::Literal(node)
    }
}

impl From<Composed> for Value {
    ghost use Rattle.std.specs.Prelude.{◌≡◌};
    ghost use Rattle.grammar_sample.specs.NodeIn.{node_in_value, node_in_composed};

    ghost from_gives = { λ node whole. node_in_value whole ≡ node_in_composed node };

    fn from(node: Composed) -> Value {
        Value::Composed(node)
    }
}

impl<'tree> From<ComposedRef<'tree>> for ValueRef<'tree> {
    ghost use Rattle.std.specs.Prelude.{◌≡◌};
    ghost use Rattle.grammar_sample.specs.NodeIn.{place_in_value, place_in_composed};

    ghost from_gives = { λ node whole. place_in_value whole ≡ place_in_composed node };

    fn from(node: ComposedRef<'tree>) -> ValueRef<'tree> {
        ValueRef::Composed(node)
    }
}

impl From<Reference> for Value {
    ghost use Rattle.std.specs.Prelude.{◌≡◌};
    ghost use Rattle.grammar_sample.specs.NodeIn.{node_in_value};

    ghost from_gives = { λ node whole. node_in_value whole ≡ node };

    fn from(node: Reference) -> Value {
        Value::Reference(node)
    }
}

impl<'tree> From<ReferenceRef<'tree>> for ValueRef<'tree> {
    ghost use Rattle.std.specs.Prelude.{◌≡◌};
    ghost use Rattle.grammar_sample.specs.NodeIn.{place_in_value, place_in};

    ghost from_gives = { λ node whole. place_in_value whole ≡ place_in node };

    fn from(node: ReferenceRef<'tree>) -> ValueRef<'tree> {
        ValueRef::Reference(node)
    }
}

impl From<Call> for Value {
    ghost use Rattle.std.specs.Prelude.{◌≡◌};
    ghost use Rattle.grammar_sample.specs.NodeIn.{node_in_value};

    ghost from_gives = { λ node whole. node_in_value whole ≡ node };

    fn from(node: Call) -> Value {
        Value::Call(node)
    }
}

impl<'tree> From<CallRef<'tree>> for ValueRef<'tree> {
    ghost use Rattle.std.specs.Prelude.{◌≡◌};
    ghost use Rattle.grammar_sample.specs.NodeIn.{place_in_value, place_in};

    ghost from_gives = { λ node whole. place_in_value whole ≡ place_in node };

    fn from(node: CallRef<'tree>) -> ValueRef<'tree> {
        ValueRef::Call(node)
    }
}

/// A value that is one token.
///
/// ```text
/// Literal = TextLiteral | IntegerLiteral | FloatLiteral | BooleanLiteral | MomentLiteral
/// ```
#[derive(Clone, PartialEq, Eq, Hash, Debug, Drop)]
pub enum Literal {
    /// A text.
    TextLiteral(TextLiteral),
    /// An integer.
    IntegerLiteral(IntegerLiteral),
    /// A number with a point.
    FloatLiteral(FloatLiteral),
    /// A boolean.
    BooleanLiteral(BooleanLiteral),
    /// A date and a time.
    MomentLiteral(MomentLiteral),
}

impl AstNode for Literal {
    type Language = Sample;

    ghost use Rattle.std.specs.Prelude.{◌≡◌};
    ghost use Rattle.std.specs.Option.{option_map};
    ghost use Rattle.rowan.specs.Ast.{casts_at, if_casts};
    ghost use Rattle.grammar_sample.specs.Casts.{is_literal, same_kind};
    ghost use Rattle.grammar_sample.specs.Kinds.{kind_of};
    ghost use Rattle.grammar_sample.specs.NodeIn.{node_in_literal};
    ghost use Rattle.std.proofs.Common.{ap};

    ghost casts = { is_literal };

    ghost node_of = { node_in_literal };

    fn can_cast(kind: Kind) -> bool {
        match kind {
            Kind::TextLiteral => true,
            Kind::IntegerLiteral => true,
            Kind::FloatLiteral => true,
            Kind::BooleanLiteral => true,
            Kind::MomentLiteral => true,
            _ => false,
        }
    }

    fn cast(syntax: SyntaxNode<Sample>) -> Option<Literal>
        ensures { let casting = casts_at kind_of is_literal in
            option_map node_in_literal result ≡ if_casts casting syntax }
    {
        match syntax.kind() {
            Kind::TextLiteral => Some(Literal::TextLiteral(NodeOf { syntax })),
            Kind::IntegerLiteral => Some(Literal::IntegerLiteral(NodeOf { syntax })),
            Kind::FloatLiteral => Some(Literal::FloatLiteral(NodeOf { syntax })),
            Kind::BooleanLiteral => Some(Literal::BooleanLiteral(NodeOf { syntax })),
            Kind::MomentLiteral => Some(Literal::MomentLiteral(NodeOf { syntax })),
            _ => None,
        }
    }

    #[tactic(auto, using(crate::proofs::CastLemmas::text_literal_is_literal, crate::proofs::CastLemmas::integer_literal_is_literal, crate::proofs::CastLemmas::float_literal_is_literal, crate::proofs::CastLemmas::boolean_literal_is_literal, crate::proofs::CastLemmas::moment_literal_is_literal))]
    fn syntax(&self) -> &SyntaxNode<Sample> {
        match self {
            Literal::TextLiteral(node) => node.syntax(),
            Literal::IntegerLiteral(node) => node.syntax(),
            Literal::FloatLiteral(node) => node.syntax(),
            Literal::BooleanLiteral(node) => node.syntax(),
            Literal::MomentLiteral(node) => node.syntax(),
        }
    }

    ghost equal_kinds = { λ a b same. ap is_literal (same_kind a b same) };
}

impl Literal {
    ghost use Rattle.std.specs.Prelude.{◌≡◌};
    ghost use Rattle.grammar_sample.specs.NodeIn.{node_in_literal, place_in_literal};

    /// The same node, borrowed from its tree.
    pub fn as_ref(&self) -> LiteralRef<'_>
        ensures { place_in_literal result ≡ node_in_literal self.now }
    {
        LiteralRef::cast(self.syntax().as_ref()).unwrap()
    }
}

/// [`Literal`], borrowed from its tree.
#[derive(Clone, Copy, PartialEq, Eq, Hash, Debug)]
pub enum LiteralRef<'tree> {
    /// A text.
    TextLiteral(TextLiteralRef<'tree>),
    /// An integer.
    IntegerLiteral(IntegerLiteralRef<'tree>),
    /// A number with a point.
    FloatLiteral(FloatLiteralRef<'tree>),
    /// A boolean.
    BooleanLiteral(BooleanLiteralRef<'tree>),
    /// A date and a time.
    MomentLiteral(MomentLiteralRef<'tree>),
}

impl<'tree> AstNodeRef<'tree> for LiteralRef<'tree> {
    type Language = Sample;

    ghost use Rattle.std.specs.Prelude.{◌≡◌, true};
    ghost use Rattle.std.specs.Option.{option_map};
    ghost use Rattle.rowan.specs.Ast.{casts_at, if_casts};
    ghost use Rattle.rowan.specs.Refs.{node_place};
    ghost use Rattle.grammar_sample.specs.Casts.{is_literal};
    ghost use Rattle.grammar_sample.specs.Kinds.{kind_of};
    ghost use Rattle.grammar_sample.specs.NodeIn.{place_in_literal};

    ghost casts = { is_literal };

    ghost node_of = { place_in_literal };

    fn can_cast(kind: Kind) -> bool
        ensures { result ≡ is_literal kind }
    {
        Literal::can_cast(kind)
    }

    fn cast(syntax: SyntaxNodeRef<'tree, Sample>) -> Option<LiteralRef<'tree>>
        ensures { let casting = casts_at kind_of is_literal in
            option_map place_in_literal result ≡ if_casts casting (node_place syntax.entry) }
    {
        match syntax.kind() {
            Kind::TextLiteral => Some(LiteralRef::TextLiteral(NodeOfRef { syntax })),
            Kind::IntegerLiteral => Some(LiteralRef::IntegerLiteral(NodeOfRef { syntax })),
            Kind::FloatLiteral => Some(LiteralRef::FloatLiteral(NodeOfRef { syntax })),
            Kind::BooleanLiteral => Some(LiteralRef::BooleanLiteral(NodeOfRef { syntax })),
            Kind::MomentLiteral => Some(LiteralRef::MomentLiteral(NodeOfRef { syntax })),
            _ => None,
        }
    }

    #[tactic(auto, using(crate::proofs::CastLemmas::text_literal_is_literal_raw, crate::proofs::CastLemmas::integer_literal_is_literal_raw, crate::proofs::CastLemmas::float_literal_is_literal_raw, crate::proofs::CastLemmas::boolean_literal_is_literal_raw, crate::proofs::CastLemmas::moment_literal_is_literal_raw))]
    fn syntax(&self) -> SyntaxNodeRef<'tree, Sample>
        ensures node { node_place result ≡ place_in_literal self.now }
        ensures casts { casts_at kind_of is_literal (node_place result) ≡ true }
    {
        match self {
            LiteralRef::TextLiteral(node) => node.syntax(),
            LiteralRef::IntegerLiteral(node) => node.syntax(),
            LiteralRef::FloatLiteral(node) => node.syntax(),
            LiteralRef::BooleanLiteral(node) => node.syntax(),
            LiteralRef::MomentLiteral(node) => node.syntax(),
        }
    }
}

impl<'tree> LiteralRef<'tree> {
    ghost use Rattle.std.specs.Prelude.{◌≡◌, IfOk, IfErr};
    ghost use Rattle.grammar_sample.specs.NodeIn.{node_in_literal, place_in_literal};

    /// The same node in a wrapper that keeps the tree. Refused with `Memory` alone.
    pub fn to_owned(&self) -> Result<Literal, Fault>
        ensures ok { IfOk result (λ owned. node_in_literal owned ≡ place_in_literal self.now) }
        ensures err { IfErr result (λ e. e ≡ Fault.Memory) }
    {
        let syntax = self.syntax().to_owned()?;
        Ok(Literal::cast(syntax).unwrap())
    }
}

impl From<TextLiteral> for Literal {
    ghost use Rattle.std.specs.Prelude.{◌≡◌};
    ghost use Rattle.grammar_sample.specs.NodeIn.{node_in_literal};

    ghost from_gives = { λ node whole. node_in_literal whole ≡ node };

    fn from(node: TextLiteral) -> Literal {
        Literal::TextLiteral(node)
    }
}

impl<'tree> From<TextLiteralRef<'tree>> for LiteralRef<'tree> {
    ghost use Rattle.std.specs.Prelude.{◌≡◌};
    ghost use Rattle.grammar_sample.specs.NodeIn.{place_in_literal, place_in};

    ghost from_gives = { λ node whole. place_in_literal whole ≡ place_in node };

    fn from(node: TextLiteralRef<'tree>) -> LiteralRef<'tree> {
        LiteralRef::TextLiteral(node)
    }
}

impl From<IntegerLiteral> for Literal {
    ghost use Rattle.std.specs.Prelude.{◌≡◌};
    ghost use Rattle.grammar_sample.specs.NodeIn.{node_in_literal};

    ghost from_gives = { λ node whole. node_in_literal whole ≡ node };

    fn from(node: IntegerLiteral) -> Literal {
        Literal::IntegerLiteral(node)
    }
}

impl<'tree> From<IntegerLiteralRef<'tree>> for LiteralRef<'tree> {
    ghost use Rattle.std.specs.Prelude.{◌≡◌};
    ghost use Rattle.grammar_sample.specs.NodeIn.{place_in_literal, place_in};

    ghost from_gives = { λ node whole. place_in_literal whole ≡ place_in node };

    fn from(node: IntegerLiteralRef<'tree>) -> LiteralRef<'tree> {
        LiteralRef::IntegerLiteral(node)
    }
}

impl From<FloatLiteral> for Literal {
    ghost use Rattle.std.specs.Prelude.{◌≡◌};
    ghost use Rattle.grammar_sample.specs.NodeIn.{node_in_literal};

    ghost from_gives = { λ node whole. node_in_literal whole ≡ node };

    fn from(node: FloatLiteral) -> Literal {
        Literal::FloatLiteral(node)
    }
}

impl<'tree> From<FloatLiteralRef<'tree>> for LiteralRef<'tree> {
    ghost use Rattle.std.specs.Prelude.{◌≡◌};
    ghost use Rattle.grammar_sample.specs.NodeIn.{place_in_literal, place_in};

    ghost from_gives = { λ node whole. place_in_literal whole ≡ place_in node };

    fn from(node: FloatLiteralRef<'tree>) -> LiteralRef<'tree> {
        LiteralRef::FloatLiteral(node)
    }
}

impl From<BooleanLiteral> for Literal {
    ghost use Rattle.std.specs.Prelude.{◌≡◌};
    ghost use Rattle.grammar_sample.specs.NodeIn.{node_in_literal};

    ghost from_gives = { λ node whole. node_in_literal whole ≡ node };

    fn from(node: BooleanLiteral) -> Literal {
        Literal::BooleanLiteral(node)
    }
}

impl<'tree> From<BooleanLiteralRef<'tree>> for LiteralRef<'tree> {
    ghost use Rattle.std.specs.Prelude.{◌≡◌};
    ghost use Rattle.grammar_sample.specs.NodeIn.{place_in_literal, place_in};

    ghost from_gives = { λ node whole. place_in_literal whole ≡ place_in node };

    fn from(node: BooleanLiteralRef<'tree>) -> LiteralRef<'tree> {
        LiteralRef::BooleanLiteral(node)
    }
}

impl From<MomentLiteral> for Literal {
    ghost use Rattle.std.specs.Prelude.{◌≡◌};
    ghost use Rattle.grammar_sample.specs.NodeIn.{node_in_literal};

    ghost from_gives = { λ node whole. node_in_literal whole ≡ node };

    fn from(node: MomentLiteral) -> Literal {
        Literal::MomentLiteral(node)
    }
}

impl<'tree> From<MomentLiteralRef<'tree>> for LiteralRef<'tree> {
    ghost use Rattle.std.specs.Prelude.{◌≡◌};
    ghost use Rattle.grammar_sample.specs.NodeIn.{place_in_literal, place_in};

    ghost from_gives = { λ node whole. place_in_literal whole ≡ place_in node };

    fn from(node: MomentLiteralRef<'tree>) -> LiteralRef<'tree> {
        LiteralRef::MomentLiteral(node)
    }
}

/// A text.
///
/// ```text
/// TextLiteral = Text
/// ```
pub type TextLiteral = NodeOf<30>;

/// [`TextLiteral`], borrowed from its tree.
pub type TextLiteralRef<'tree> = NodeOfRef<'tree, 30>;

impl TextLiteral {
    ghost use Rattle.std.specs.Prelude.{◌≡◌, IfOk, IfErr};
    ghost use Rattle.std.specs.List.{find};
    ghost use Rattle.std.specs.Option.{option_map};
    ghost use Rattle.rowan.specs.Types.NodeOrToken.TheVariants.{Token};
    ghost use Rattle.rowan.specs.Moves.{children_with_tokens};
    ghost use Rattle.rowan.specs.Ast.{is_token_of};
    ghost use Rattle.rowan.specs.Pointer.{means_kind};
    ghost use Rattle.grammar_sample.specs.contracts.kinds.Kind.{the_type};
    ghost use denote.Enum.Bare.{sameb};
    ghost use Rattle.grammar_sample.specs.Kinds.{kind_of};

    /// The first token `Text`.
    pub fn text_token(&self) -> Result<Option<SyntaxToken<Sample>>, Fault>
        ensures ok { let means = means_kind kind_of (sameb the_type) Kind.Text in
            IfOk result (λ found. option_map Token found
            ≡ find (is_token_of means) (children_with_tokens self.now)) }
        ensures err { IfErr result (λ e. e ≡ Fault.Memory) }
    {
        support::token(&self.syntax, Kind::Text)
    }
}

impl<'tree> TextLiteralRef<'tree> {
    ghost use Rattle.std.specs.Prelude.{◌≡◌};
    ghost use Rattle.std.specs.List.{find};
    ghost use Rattle.std.specs.Option.{option_map};
    ghost use Rattle.rowan.specs.Types.NodeOrToken.TheVariants.{Token};
    ghost use Rattle.rowan.specs.Moves.{children_with_tokens};
    ghost use Rattle.rowan.specs.Ast.{is_token_of};
    ghost use Rattle.rowan.specs.Refs.{token_place};
    ghost use Rattle.rowan.specs.Pointer.{means_kind};
    ghost use Rattle.grammar_sample.specs.contracts.kinds.Kind.{the_type};
    ghost use denote.Enum.Bare.{sameb};
    ghost use Rattle.grammar_sample.specs.Kinds.{kind_of};
    ghost use Rattle.grammar_sample.specs.NodeIn.{place_in};

    /// The first token `Text`.
    pub fn text_token(&self) -> Option<SyntaxTokenRef<'tree, Sample>>
        ensures { let means = means_kind kind_of (sameb the_type) Kind.Text in
            option_map Token (option_map token_place result)
            ≡ find (is_token_of means) (children_with_tokens (place_in self.now)) }
    {
        support::token_of(self.syntax, Kind::Text)
    }
}

/// An integer.
///
/// ```text
/// IntegerLiteral = Integer
/// ```
pub type IntegerLiteral = NodeOf<31>;

/// [`IntegerLiteral`], borrowed from its tree.
pub type IntegerLiteralRef<'tree> = NodeOfRef<'tree, 31>;

impl IntegerLiteral {
    ghost use Rattle.std.specs.Prelude.{◌≡◌, IfOk, IfErr};
    ghost use Rattle.std.specs.List.{find};
    ghost use Rattle.std.specs.Option.{option_map};
    ghost use Rattle.rowan.specs.Types.NodeOrToken.TheVariants.{Token};
    ghost use Rattle.rowan.specs.Moves.{children_with_tokens};
    ghost use Rattle.rowan.specs.Ast.{is_token_of};
    ghost use Rattle.rowan.specs.Pointer.{means_kind};
    ghost use Rattle.grammar_sample.specs.contracts.kinds.Kind.{the_type};
    ghost use denote.Enum.Bare.{sameb};
    ghost use Rattle.grammar_sample.specs.Kinds.{kind_of};

    /// The first token `Integer`.
    pub fn integer_token(&self) -> Result<Option<SyntaxToken<Sample>>, Fault>
        ensures ok { let means = means_kind kind_of (sameb the_type) Kind.Integer in
            IfOk result (λ found. option_map Token found
            ≡ find (is_token_of means) (children_with_tokens self.now)) }
        ensures err { IfErr result (λ e. e ≡ Fault.Memory) }
    {
        support::token(&self.syntax, Kind::Integer)
    }
}

impl<'tree> IntegerLiteralRef<'tree> {
    ghost use Rattle.std.specs.Prelude.{◌≡◌};
    ghost use Rattle.std.specs.List.{find};
    ghost use Rattle.std.specs.Option.{option_map};
    ghost use Rattle.rowan.specs.Types.NodeOrToken.TheVariants.{Token};
    ghost use Rattle.rowan.specs.Moves.{children_with_tokens};
    ghost use Rattle.rowan.specs.Ast.{is_token_of};
    ghost use Rattle.rowan.specs.Refs.{token_place};
    ghost use Rattle.rowan.specs.Pointer.{means_kind};
    ghost use Rattle.grammar_sample.specs.contracts.kinds.Kind.{the_type};
    ghost use denote.Enum.Bare.{sameb};
    ghost use Rattle.grammar_sample.specs.Kinds.{kind_of};
    ghost use Rattle.grammar_sample.specs.NodeIn.{place_in};

    /// The first token `Integer`.
    pub fn integer_token(&self) -> Option<SyntaxTokenRef<'tree, Sample>>
        ensures { let means = means_kind kind_of (sameb the_type) Kind.Integer in
            option_map Token (option_map token_place result)
            ≡ find (is_token_of means) (children_with_tokens (place_in self.now)) }
    {
        support::token_of(self.syntax, Kind::Integer)
    }
}

/// A number with a point.
///
/// ```text
/// FloatLiteral = Float
/// ```
pub type FloatLiteral = NodeOf<32>;

/// [`FloatLiteral`], borrowed from its tree.
pub type FloatLiteralRef<'tree> = NodeOfRef<'tree, 32>;

impl FloatLiteral {
    ghost use Rattle.std.specs.Prelude.{◌≡◌, IfOk, IfErr};
    ghost use Rattle.std.specs.List.{find};
    ghost use Rattle.std.specs.Option.{option_map};
    ghost use Rattle.rowan.specs.Types.NodeOrToken.TheVariants.{Token};
    ghost use Rattle.rowan.specs.Moves.{children_with_tokens};
    ghost use Rattle.rowan.specs.Ast.{is_token_of};
    ghost use Rattle.rowan.specs.Pointer.{means_kind};
    ghost use Rattle.grammar_sample.specs.contracts.kinds.Kind.{the_type};
    ghost use denote.Enum.Bare.{sameb};
    ghost use Rattle.grammar_sample.specs.Kinds.{kind_of};

    /// The first token `Float`.
    pub fn float_token(&self) -> Result<Option<SyntaxToken<Sample>>, Fault>
        ensures ok { let means = means_kind kind_of (sameb the_type) Kind.Float in
            IfOk result (λ found. option_map Token found
            ≡ find (is_token_of means) (children_with_tokens self.now)) }
        ensures err { IfErr result (λ e. e ≡ Fault.Memory) }
    {
        support::token(&self.syntax, Kind::Float)
    }
}

impl<'tree> FloatLiteralRef<'tree> {
    ghost use Rattle.std.specs.Prelude.{◌≡◌};
    ghost use Rattle.std.specs.List.{find};
    ghost use Rattle.std.specs.Option.{option_map};
    ghost use Rattle.rowan.specs.Types.NodeOrToken.TheVariants.{Token};
    ghost use Rattle.rowan.specs.Moves.{children_with_tokens};
    ghost use Rattle.rowan.specs.Ast.{is_token_of};
    ghost use Rattle.rowan.specs.Refs.{token_place};
    ghost use Rattle.rowan.specs.Pointer.{means_kind};
    ghost use Rattle.grammar_sample.specs.contracts.kinds.Kind.{the_type};
    ghost use denote.Enum.Bare.{sameb};
    ghost use Rattle.grammar_sample.specs.Kinds.{kind_of};
    ghost use Rattle.grammar_sample.specs.NodeIn.{place_in};

    /// The first token `Float`.
    pub fn float_token(&self) -> Option<SyntaxTokenRef<'tree, Sample>>
        ensures { let means = means_kind kind_of (sameb the_type) Kind.Float in
            option_map Token (option_map token_place result)
            ≡ find (is_token_of means) (children_with_tokens (place_in self.now)) }
    {
        support::token_of(self.syntax, Kind::Float)
    }
}

/// A boolean.
///
/// ```text
/// BooleanLiteral = Boolean
/// ```
pub type BooleanLiteral = NodeOf<33>;

/// [`BooleanLiteral`], borrowed from its tree.
pub type BooleanLiteralRef<'tree> = NodeOfRef<'tree, 33>;

impl BooleanLiteral {
    ghost use Rattle.std.specs.Prelude.{◌≡◌, IfOk, IfErr};
    ghost use Rattle.std.specs.List.{find};
    ghost use Rattle.std.specs.Option.{option_map};
    ghost use Rattle.rowan.specs.Types.NodeOrToken.TheVariants.{Token};
    ghost use Rattle.rowan.specs.Moves.{children_with_tokens};
    ghost use Rattle.rowan.specs.Ast.{is_token_of};
    ghost use Rattle.rowan.specs.Pointer.{means_kind};
    ghost use Rattle.grammar_sample.specs.contracts.kinds.Kind.{the_type};
    ghost use denote.Enum.Bare.{sameb};
    ghost use Rattle.grammar_sample.specs.Kinds.{kind_of};

    /// The first token `Boolean`.
    pub fn boolean_token(&self) -> Result<Option<SyntaxToken<Sample>>, Fault>
        ensures ok { let means = means_kind kind_of (sameb the_type) Kind.Boolean in
            IfOk result (λ found. option_map Token found
            ≡ find (is_token_of means) (children_with_tokens self.now)) }
        ensures err { IfErr result (λ e. e ≡ Fault.Memory) }
    {
        support::token(&self.syntax, Kind::Boolean)
    }
}

impl<'tree> BooleanLiteralRef<'tree> {
    ghost use Rattle.std.specs.Prelude.{◌≡◌};
    ghost use Rattle.std.specs.List.{find};
    ghost use Rattle.std.specs.Option.{option_map};
    ghost use Rattle.rowan.specs.Types.NodeOrToken.TheVariants.{Token};
    ghost use Rattle.rowan.specs.Moves.{children_with_tokens};
    ghost use Rattle.rowan.specs.Ast.{is_token_of};
    ghost use Rattle.rowan.specs.Refs.{token_place};
    ghost use Rattle.rowan.specs.Pointer.{means_kind};
    ghost use Rattle.grammar_sample.specs.contracts.kinds.Kind.{the_type};
    ghost use denote.Enum.Bare.{sameb};
    ghost use Rattle.grammar_sample.specs.Kinds.{kind_of};
    ghost use Rattle.grammar_sample.specs.NodeIn.{place_in};

    /// The first token `Boolean`.
    pub fn boolean_token(&self) -> Option<SyntaxTokenRef<'tree, Sample>>
        ensures { let means = means_kind kind_of (sameb the_type) Kind.Boolean in
            option_map Token (option_map token_place result)
            ≡ find (is_token_of means) (children_with_tokens (place_in self.now)) }
    {
        support::token_of(self.syntax, Kind::Boolean)
    }
}

/// A date and a time.
///
/// ```text
/// MomentLiteral = Moment
/// ```
pub type MomentLiteral = NodeOf<34>;

/// [`MomentLiteral`], borrowed from its tree.
pub type MomentLiteralRef<'tree> = NodeOfRef<'tree, 34>;

impl MomentLiteral {
    ghost use Rattle.std.specs.Prelude.{◌≡◌, IfOk, IfErr};
    ghost use Rattle.std.specs.List.{find};
    ghost use Rattle.std.specs.Option.{option_map};
    ghost use Rattle.rowan.specs.Types.NodeOrToken.TheVariants.{Token};
    ghost use Rattle.rowan.specs.Moves.{children_with_tokens};
    ghost use Rattle.rowan.specs.Ast.{is_token_of};
    ghost use Rattle.rowan.specs.Pointer.{means_kind};
    ghost use Rattle.grammar_sample.specs.contracts.kinds.Kind.{the_type};
    ghost use denote.Enum.Bare.{sameb};
    ghost use Rattle.grammar_sample.specs.Kinds.{kind_of};

    /// The first token `Moment`.
    pub fn moment_token(&self) -> Result<Option<SyntaxToken<Sample>>, Fault>
        ensures ok { let means = means_kind kind_of (sameb the_type) Kind.Moment in
            IfOk result (λ found. option_map Token found
            ≡ find (is_token_of means) (children_with_tokens self.now)) }
        ensures err { IfErr result (λ e. e ≡ Fault.Memory) }
    {
        support::token(&self.syntax, Kind::Moment)
    }
}

impl<'tree> MomentLiteralRef<'tree> {
    ghost use Rattle.std.specs.Prelude.{◌≡◌};
    ghost use Rattle.std.specs.List.{find};
    ghost use Rattle.std.specs.Option.{option_map};
    ghost use Rattle.rowan.specs.Types.NodeOrToken.TheVariants.{Token};
    ghost use Rattle.rowan.specs.Moves.{children_with_tokens};
    ghost use Rattle.rowan.specs.Ast.{is_token_of};
    ghost use Rattle.rowan.specs.Refs.{token_place};
    ghost use Rattle.rowan.specs.Pointer.{means_kind};
    ghost use Rattle.grammar_sample.specs.contracts.kinds.Kind.{the_type};
    ghost use denote.Enum.Bare.{sameb};
    ghost use Rattle.grammar_sample.specs.Kinds.{kind_of};
    ghost use Rattle.grammar_sample.specs.NodeIn.{place_in};

    /// The first token `Moment`.
    pub fn moment_token(&self) -> Option<SyntaxTokenRef<'tree, Sample>>
        ensures { let means = means_kind kind_of (sameb the_type) Kind.Moment in
            option_map Token (option_map token_place result)
            ≡ find (is_token_of means) (children_with_tokens (place_in self.now)) }
    {
        support::token_of(self.syntax, Kind::Moment)
    }
}

/// A value that has parts.
///
/// ```text
/// Composed = Array | InlineTable
/// ```
#[derive(Clone, PartialEq, Eq, Hash, Debug, Drop)]
pub enum Composed {
    /// Values in brackets.
    Array(Array),
    /// Entries in braces.
    InlineTable(InlineTable),
}

impl AstNode for Composed {
    type Language = Sample;

    ghost use Rattle.std.specs.Prelude.{◌≡◌};
    ghost use Rattle.std.specs.Option.{option_map};
    ghost use Rattle.rowan.specs.Ast.{casts_at, if_casts};
    ghost use Rattle.grammar_sample.specs.Casts.{is_composed, same_kind};
    ghost use Rattle.grammar_sample.specs.Kinds.{kind_of};
    ghost use Rattle.grammar_sample.specs.NodeIn.{node_in_composed};
    ghost use Rattle.std.proofs.Common.{ap};

    ghost casts = { is_composed };

    ghost node_of = { node_in_composed };

    fn can_cast(kind: Kind) -> bool {
        match kind {
            Kind::Array => true,
            Kind::InlineTable => true,
            _ => false,
        }
    }

    fn cast(syntax: SyntaxNode<Sample>) -> Option<Composed>
        ensures { let casting = casts_at kind_of is_composed in
            option_map node_in_composed result ≡ if_casts casting syntax }
    {
        match syntax.kind() {
            Kind::Array => Some(Composed::Array(NodeOf { syntax })),
            Kind::InlineTable => Some(Composed::InlineTable(NodeOf { syntax })),
            _ => None,
        }
    }

    #[tactic(auto, using(crate::proofs::CastLemmas::array_is_composed, crate::proofs::CastLemmas::inline_table_is_composed))]
    fn syntax(&self) -> &SyntaxNode<Sample> {
        match self {
            Composed::Array(node) => node.syntax(),
            Composed::InlineTable(node) => node.syntax(),
        }
    }

    ghost equal_kinds = { λ a b same. ap is_composed (same_kind a b same) };
}

impl Composed {
    ghost use Rattle.std.specs.Prelude.{◌≡◌};
    ghost use Rattle.grammar_sample.specs.NodeIn.{node_in_composed, place_in_composed};

    /// The same node, borrowed from its tree.
    pub fn as_ref(&self) -> ComposedRef<'_>
        ensures { place_in_composed result ≡ node_in_composed self.now }
    {
        ComposedRef::cast(self.syntax().as_ref()).unwrap()
    }
}

/// [`Composed`], borrowed from its tree.
#[derive(Clone, Copy, PartialEq, Eq, Hash, Debug)]
pub enum ComposedRef<'tree> {
    /// Values in brackets.
    Array(ArrayRef<'tree>),
    /// Entries in braces.
    InlineTable(InlineTableRef<'tree>),
}

impl<'tree> AstNodeRef<'tree> for ComposedRef<'tree> {
    type Language = Sample;

    ghost use Rattle.std.specs.Prelude.{◌≡◌, true};
    ghost use Rattle.std.specs.Option.{option_map};
    ghost use Rattle.rowan.specs.Ast.{casts_at, if_casts};
    ghost use Rattle.rowan.specs.Refs.{node_place};
    ghost use Rattle.grammar_sample.specs.Casts.{is_composed};
    ghost use Rattle.grammar_sample.specs.Kinds.{kind_of};
    ghost use Rattle.grammar_sample.specs.NodeIn.{place_in_composed};

    ghost casts = { is_composed };

    ghost node_of = { place_in_composed };

    fn can_cast(kind: Kind) -> bool
        ensures { result ≡ is_composed kind }
    {
        Composed::can_cast(kind)
    }

    fn cast(syntax: SyntaxNodeRef<'tree, Sample>) -> Option<ComposedRef<'tree>>
        ensures { let casting = casts_at kind_of is_composed in
            option_map place_in_composed result ≡ if_casts casting (node_place syntax.entry) }
    {
        match syntax.kind() {
            Kind::Array => Some(ComposedRef::Array(NodeOfRef { syntax })),
            Kind::InlineTable => Some(ComposedRef::InlineTable(NodeOfRef { syntax })),
            _ => None,
        }
    }

    #[tactic(auto, using(crate::proofs::CastLemmas::array_is_composed_raw, crate::proofs::CastLemmas::inline_table_is_composed_raw))]
    fn syntax(&self) -> SyntaxNodeRef<'tree, Sample>
        ensures node { node_place result ≡ place_in_composed self.now }
        ensures casts { casts_at kind_of is_composed (node_place result) ≡ true }
    {
        match self {
            ComposedRef::Array(node) => node.syntax(),
            ComposedRef::InlineTable(node) => node.syntax(),
        }
    }
}

impl<'tree> ComposedRef<'tree> {
    ghost use Rattle.std.specs.Prelude.{◌≡◌, IfOk, IfErr};
    ghost use Rattle.grammar_sample.specs.NodeIn.{node_in_composed, place_in_composed};

    /// The same node in a wrapper that keeps the tree. Refused with `Memory` alone.
    pub fn to_owned(&self) -> Result<Composed, Fault>
        ensures ok { IfOk result (λ owned. node_in_composed owned ≡ place_in_composed self.now) }
        ensures err { IfErr result (λ e. e ≡ Fault.Memory) }
    {
        let syntax = self.syntax().to_owned()?;
        Ok(Composed::cast(syntax).unwrap())
    }
}

impl From<Array> for Composed {
    ghost use Rattle.std.specs.Prelude.{◌≡◌};
    ghost use Rattle.grammar_sample.specs.NodeIn.{node_in_composed};

    ghost from_gives = { λ node whole. node_in_composed whole ≡ node };

    fn from(node: Array) -> Composed {
        Composed::Array(node)
    }
}

impl<'tree> From<ArrayRef<'tree>> for ComposedRef<'tree> {
    ghost use Rattle.std.specs.Prelude.{◌≡◌};
    ghost use Rattle.grammar_sample.specs.NodeIn.{place_in_composed, place_in};

    ghost from_gives = { λ node whole. place_in_composed whole ≡ place_in node };

    fn from(node: ArrayRef<'tree>) -> ComposedRef<'tree> {
        ComposedRef::Array(node)
    }
}

impl From<InlineTable> for Composed {
    ghost use Rattle.std.specs.Prelude.{◌≡◌};
    ghost use Rattle.grammar_sample.specs.NodeIn.{node_in_composed};

    ghost from_gives = { λ node whole. node_in_composed whole ≡ node };

    fn from(node: InlineTable) -> Composed {
        Composed::InlineTable(node)
    }
}

impl<'tree> From<InlineTableRef<'tree>> for ComposedRef<'tree> {
    ghost use Rattle.std.specs.Prelude.{◌≡◌};
    ghost use Rattle.grammar_sample.specs.NodeIn.{place_in_composed, place_in};

    ghost from_gives = { λ node whole. place_in_composed whole ≡ place_in node };

    fn from(node: InlineTableRef<'tree>) -> ComposedRef<'tree> {
        ComposedRef::InlineTable(node)
    }
}

/// Values in brackets.
///
/// ```text
/// Array = '[' (Value (',' Value)* ','?)? ']'
/// ```
pub type Array = NodeOf<35>;

/// [`Array`], borrowed from its tree.
pub type ArrayRef<'tree> = NodeOfRef<'tree, 35>;

impl Array {
    ghost use Rattle.std.specs.Prelude.{◌≡◌, IfOk, IfErr};
    ghost use Rattle.std.specs.List.{find};
    ghost use Rattle.std.specs.Option.{option_map};
    ghost use Rattle.rowan.specs.Types.NodeOrToken.TheVariants.{Token};
    ghost use Rattle.rowan.specs.Moves.{children, children_with_tokens};
    ghost use Rattle.rowan.specs.Ast.{is_token_of};
    ghost use Rattle.rowan.specs.Pointer.{means_kind};
    ghost use Rattle.grammar_sample.specs.contracts.kinds.Kind.{the_type};
    ghost use denote.Enum.Bare.{sameb};
    ghost use Rattle.grammar_sample.specs.Kinds.{kind_of};

    /// The first token `LeftBracket`.
    pub fn left_bracket_token(&self) -> Result<Option<SyntaxToken<Sample>>, Fault>
        ensures ok { let means = means_kind kind_of (sameb the_type) Kind.LeftBracket in
            IfOk result (λ found. option_map Token found
            ≡ find (is_token_of means) (children_with_tokens self.now)) }
        ensures err { IfErr result (λ e. e ≡ Fault.Memory) }
    {
        support::token(&self.syntax, Kind::LeftBracket)
    }

    /// The children that are `Value`, in order.
    pub fn values(&self) -> AstChildren<Value>
        ensures ok { IfOk result (λ nodes. nodes ≡ children self.now) }
        ensures err { IfErr result (λ e. e ≡ Fault.Memory) }
    {
        support::children(&self.syntax)
    }

    /// The first token `RightBracket`.
    pub fn right_bracket_token(&self) -> Result<Option<SyntaxToken<Sample>>, Fault>
        ensures ok { let means = means_kind kind_of (sameb the_type) Kind.RightBracket in
            IfOk result (λ found. option_map Token found
            ≡ find (is_token_of means) (children_with_tokens self.now)) }
        ensures err { IfErr result (λ e. e ≡ Fault.Memory) }
    {
        support::token(&self.syntax, Kind::RightBracket)
    }
}

impl<'tree> ArrayRef<'tree> {
    ghost use Rattle.std.specs.Prelude.{◌≡◌, filter};
    ghost use Rattle.std.specs.List.{find};
    ghost use Rattle.std.specs.Option.{option_map};
    ghost use Rattle.rowan.specs.Types.NodeOrToken.TheVariants.{Token};
    ghost use Rattle.rowan.specs.Moves.{children, children_with_tokens};
    ghost use Rattle.rowan.specs.Ast.{casts_at, is_token_of, rest_that_casts};
    ghost use Rattle.rowan.specs.Refs.{token_place};
    ghost use Rattle.rowan.specs.Pointer.{means_kind};
    ghost use Rattle.grammar_sample.specs.contracts.kinds.Kind.{the_type};
    ghost use denote.Enum.Bare.{sameb};
    ghost use Rattle.grammar_sample.specs.Kinds.{kind_of};
    ghost use Rattle.grammar_sample.specs.Casts.{is_value};
    ghost use Rattle.grammar_sample.specs.NodeIn.{place_in};

    /// The first token `LeftBracket`.
    pub fn left_bracket_token(&self) -> Option<SyntaxTokenRef<'tree, Sample>>
        ensures { let means = means_kind kind_of (sameb the_type) Kind.LeftBracket in
            option_map Token (option_map token_place result)
            ≡ find (is_token_of means) (children_with_tokens (place_in self.now)) }
    {
        support::token_of(self.syntax, Kind::LeftBracket)
    }

    /// The children that are `Value`, in order.
    pub fn values(&self) -> AstNodesRef<'tree, ValueRef<'tree>>
        ensures { let casts = casts_at kind_of is_value in
            rest_that_casts casts result ≡ filter casts (children (place_in self.now)) }
    {
        support::children_ref(self.syntax)
    }

    /// The first token `RightBracket`.
    pub fn right_bracket_token(&self) -> Option<SyntaxTokenRef<'tree, Sample>>
        ensures { let means = means_kind kind_of (sameb the_type) Kind.RightBracket in
            option_map Token (option_map token_place result)
            ≡ find (is_token_of means) (children_with_tokens (place_in self.now)) }
    {
        support::token_of(self.syntax, Kind::RightBracket)
    }
}

/// Entries in braces.
///
/// ```text
/// InlineTable = '{' (Entry (',' Entry)*)? '}'
/// ```
pub type InlineTable = NodeOf<36>;

/// [`InlineTable`], borrowed from its tree.
pub type InlineTableRef<'tree> = NodeOfRef<'tree, 36>;

impl InlineTable {
    ghost use Rattle.std.specs.Prelude.{◌≡◌, IfOk, IfErr};
    ghost use Rattle.std.specs.List.{find};
    ghost use Rattle.std.specs.Option.{option_map};
    ghost use Rattle.rowan.specs.Types.NodeOrToken.TheVariants.{Token};
    ghost use Rattle.rowan.specs.Moves.{children, children_with_tokens};
    ghost use Rattle.rowan.specs.Ast.{is_token_of};
    ghost use Rattle.rowan.specs.Pointer.{means_kind};
    ghost use Rattle.grammar_sample.specs.contracts.kinds.Kind.{the_type};
    ghost use denote.Enum.Bare.{sameb};
    ghost use Rattle.grammar_sample.specs.Kinds.{kind_of};

    /// The first token `LeftBrace`.
    pub fn left_brace_token(&self) -> Result<Option<SyntaxToken<Sample>>, Fault>
        ensures ok { let means = means_kind kind_of (sameb the_type) Kind.LeftBrace in
            IfOk result (λ found. option_map Token found
            ≡ find (is_token_of means) (children_with_tokens self.now)) }
        ensures err { IfErr result (λ e. e ≡ Fault.Memory) }
    {
        support::token(&self.syntax, Kind::LeftBrace)
    }

    /// The children that are `Entry`, in order.
    pub fn entries(&self) -> AstChildren<Entry>
        ensures ok { IfOk result (λ nodes. nodes ≡ children self.now) }
        ensures err { IfErr result (λ e. e ≡ Fault.Memory) }
    {
        support::children(&self.syntax)
    }

    /// The first token `RightBrace`.
    pub fn right_brace_token(&self) -> Result<Option<SyntaxToken<Sample>>, Fault>
        ensures ok { let means = means_kind kind_of (sameb the_type) Kind.RightBrace in
            IfOk result (λ found. option_map Token found
            ≡ find (is_token_of means) (children_with_tokens self.now)) }
        ensures err { IfErr result (λ e. e ≡ Fault.Memory) }
    {
        support::token(&self.syntax, Kind::RightBrace)
    }
}

impl<'tree> InlineTableRef<'tree> {
    ghost use Rattle.std.specs.Prelude.{◌≡◌, filter};
    ghost use Rattle.std.specs.List.{find};
    ghost use Rattle.std.specs.Option.{option_map};
    ghost use Rattle.rowan.specs.Types.NodeOrToken.TheVariants.{Token};
    ghost use Rattle.rowan.specs.Moves.{children, children_with_tokens};
    ghost use Rattle.rowan.specs.Ast.{casts_at, is_token_of, rest_that_casts};
    ghost use Rattle.rowan.specs.Refs.{token_place};
    ghost use Rattle.rowan.specs.Pointer.{means_kind};
    ghost use Rattle.grammar_sample.specs.contracts.kinds.Kind.{the_type};
    ghost use denote.Enum.Bare.{sameb};
    ghost use Rattle.grammar_sample.specs.Kinds.{kind_of};
    ghost use Rattle.grammar_sample.specs.Casts.{is_entry};
    ghost use Rattle.grammar_sample.specs.NodeIn.{place_in};

    /// The first token `LeftBrace`.
    pub fn left_brace_token(&self) -> Option<SyntaxTokenRef<'tree, Sample>>
        ensures { let means = means_kind kind_of (sameb the_type) Kind.LeftBrace in
            option_map Token (option_map token_place result)
            ≡ find (is_token_of means) (children_with_tokens (place_in self.now)) }
    {
        support::token_of(self.syntax, Kind::LeftBrace)
    }

    /// The children that are `Entry`, in order.
    pub fn entries(&self) -> AstNodesRef<'tree, EntryRef<'tree>>
        ensures { let casts = casts_at kind_of is_entry in
            rest_that_casts casts result ≡ filter casts (children (place_in self.now)) }
    {
        support::children_ref(self.syntax)
    }

    /// The first token `RightBrace`.
    pub fn right_brace_token(&self) -> Option<SyntaxTokenRef<'tree, Sample>>
        ensures { let means = means_kind kind_of (sameb the_type) Kind.RightBrace in
            option_map Token (option_map token_place result)
            ≡ find (is_token_of means) (children_with_tokens (place_in self.now)) }
    {
        support::token_of(self.syntax, Kind::RightBrace)
    }
}

/// The value of another key.
///
/// ```text
/// Reference = '.' target:Key
/// ```
pub type Reference = NodeOf<37>;

/// [`Reference`], borrowed from its tree.
pub type ReferenceRef<'tree> = NodeOfRef<'tree, 37>;

impl Reference {
    ghost use Rattle.std.specs.Prelude.{◌≡◌, IfOk, IfErr};
    ghost use Rattle.std.specs.List.{find};
    ghost use Rattle.std.specs.Option.{option_map};
    ghost use Rattle.rowan.specs.Types.NodeOrToken.TheVariants.{Token};
    ghost use Rattle.rowan.specs.Moves.{children, children_with_tokens};
    ghost use Rattle.rowan.specs.Ast.{casts_at, is_token_of};
    ghost use Rattle.rowan.specs.Pointer.{means_kind};
    ghost use Rattle.grammar_sample.specs.contracts.kinds.Kind.{the_type};
    ghost use denote.Enum.Bare.{sameb};
    ghost use Rattle.grammar_sample.specs.Kinds.{kind_of};
    ghost use Rattle.grammar_sample.specs.Casts.{is_key};

    /// The first token `Dot`.
    pub fn dot_token(&self) -> Result<Option<SyntaxToken<Sample>>, Fault>
        ensures ok { let means = means_kind kind_of (sameb the_type) Kind.Dot in
            IfOk result (λ found. option_map Token found
            ≡ find (is_token_of means) (children_with_tokens self.now)) }
        ensures err { IfErr result (λ e. e ≡ Fault.Memory) }
    {
        support::token(&self.syntax, Kind::Dot)
    }

    /// The first child that is `Key`.
    pub fn target(&self) -> Result<Option<Key>, Fault>
        ensures ok { let casts = casts_at kind_of is_key in
            IfOk result (λ found.
            option_map (λ node. node) found ≡ find casts (children self.now)) }
        ensures err { IfErr result (λ e. e ≡ Fault.Memory) }
    {
        support::child(&self.syntax)
    }
}

impl<'tree> ReferenceRef<'tree> {
    ghost use Rattle.std.specs.Prelude.{◌≡◌};
    ghost use Rattle.std.specs.List.{find};
    ghost use Rattle.std.specs.Option.{option_map};
    ghost use Rattle.rowan.specs.Types.NodeOrToken.TheVariants.{Token};
    ghost use Rattle.rowan.specs.Moves.{children, children_with_tokens};
    ghost use Rattle.rowan.specs.Ast.{casts_at, is_token_of};
    ghost use Rattle.rowan.specs.Refs.{token_place};
    ghost use Rattle.rowan.specs.Pointer.{means_kind};
    ghost use Rattle.grammar_sample.specs.contracts.kinds.Kind.{the_type};
    ghost use denote.Enum.Bare.{sameb};
    ghost use Rattle.grammar_sample.specs.Kinds.{kind_of};
    ghost use Rattle.grammar_sample.specs.Casts.{is_key};
    ghost use Rattle.grammar_sample.specs.NodeIn.{place_in};

    /// The first token `Dot`.
    pub fn dot_token(&self) -> Option<SyntaxTokenRef<'tree, Sample>>
        ensures { let means = means_kind kind_of (sameb the_type) Kind.Dot in
            option_map Token (option_map token_place result)
            ≡ find (is_token_of means) (children_with_tokens (place_in self.now)) }
    {
        support::token_of(self.syntax, Kind::Dot)
    }

    /// The first child that is `Key`.
    pub fn target(&self) -> Option<KeyRef<'tree>>
        ensures { let casts = casts_at kind_of is_key in
            option_map place_in result ≡ find casts (children (place_in self.now)) }
    {
        support::child_ref(self.syntax)
    }
}

/// A call of a function.
///
/// ```text
/// Call = function:BareKey Arguments
/// ```
pub type Call = NodeOf<38>;

/// [`Call`], borrowed from its tree.
pub type CallRef<'tree> = NodeOfRef<'tree, 38>;

impl Call {
    ghost use Rattle.std.specs.Prelude.{◌≡◌, IfOk, IfErr};
    ghost use Rattle.std.specs.List.{find};
    ghost use Rattle.std.specs.Option.{option_map};
    ghost use Rattle.rowan.specs.Moves.{children};
    ghost use Rattle.rowan.specs.Ast.{casts_at};
    ghost use Rattle.grammar_sample.specs.Kinds.{kind_of};
    ghost use Rattle.grammar_sample.specs.Casts.{is_bare_key, is_arguments};

    /// The first child that is `BareKey`.
    pub fn function(&self) -> Result<Option<BareKey>, Fault>
        ensures ok { let casts = casts_at kind_of is_bare_key in
            IfOk result (λ found.
            option_map (λ node. node) found ≡ find casts (children self.now)) }
        ensures err { IfErr result (λ e. e ≡ Fault.Memory) }
    {
        support::child(&self.syntax)
    }

    /// The first child that is `Arguments`.
    pub fn arguments(&self) -> Result<Option<Arguments>, Fault>
        ensures ok { let casts = casts_at kind_of is_arguments in
            IfOk result (λ found.
            option_map (λ node. node) found ≡ find casts (children self.now)) }
        ensures err { IfErr result (λ e. e ≡ Fault.Memory) }
    {
        support::child(&self.syntax)
    }
}

impl<'tree> CallRef<'tree> {
    ghost use Rattle.std.specs.Prelude.{◌≡◌};
    ghost use Rattle.std.specs.List.{find};
    ghost use Rattle.std.specs.Option.{option_map};
    ghost use Rattle.rowan.specs.Moves.{children};
    ghost use Rattle.rowan.specs.Ast.{casts_at};
    ghost use Rattle.grammar_sample.specs.Kinds.{kind_of};
    ghost use Rattle.grammar_sample.specs.Casts.{is_bare_key, is_arguments};
    ghost use Rattle.grammar_sample.specs.NodeIn.{place_in};

    /// The first child that is `BareKey`.
    pub fn function(&self) -> Option<BareKeyRef<'tree>>
        ensures { let casts = casts_at kind_of is_bare_key in
            option_map place_in result ≡ find casts (children (place_in self.now)) }
    {
        support::child_ref(self.syntax)
    }

    /// The first child that is `Arguments`.
    pub fn arguments(&self) -> Option<ArgumentsRef<'tree>>
        ensures { let casts = casts_at kind_of is_arguments in
            option_map place_in result ≡ find casts (children (place_in self.now)) }
    {
        support::child_ref(self.syntax)
    }
}

/// The arguments of a call.
///
/// ```text
/// Arguments = '(' (Value ','?)* ')'
/// ```
pub type Arguments = NodeOf<39>;

/// [`Arguments`], borrowed from its tree.
pub type ArgumentsRef<'tree> = NodeOfRef<'tree, 39>;

impl Arguments {
    ghost use Rattle.std.specs.Prelude.{◌≡◌, IfOk, IfErr};
    ghost use Rattle.std.specs.List.{find};
    ghost use Rattle.std.specs.Option.{option_map};
    ghost use Rattle.rowan.specs.Types.NodeOrToken.TheVariants.{Token};
    ghost use Rattle.rowan.specs.Moves.{children, children_with_tokens};
    ghost use Rattle.rowan.specs.Ast.{is_token_of};
    ghost use Rattle.rowan.specs.Pointer.{means_kind};
    ghost use Rattle.grammar_sample.specs.contracts.kinds.Kind.{the_type};
    ghost use denote.Enum.Bare.{sameb};
    ghost use Rattle.grammar_sample.specs.Kinds.{kind_of};

    /// The first token `LeftParen`.
    pub fn left_paren_token(&self) -> Result<Option<SyntaxToken<Sample>>, Fault>
        ensures ok { let means = means_kind kind_of (sameb the_type) Kind.LeftParen in
            IfOk result (λ found. option_map Token found
            ≡ find (is_token_of means) (children_with_tokens self.now)) }
        ensures err { IfErr result (λ e. e ≡ Fault.Memory) }
    {
        support::token(&self.syntax, Kind::LeftParen)
    }

    /// The children that are `Value`, in order.
    pub fn values(&self) -> AstChildren<Value>
        ensures ok { IfOk result (λ nodes. nodes ≡ children self.now) }
        ensures err { IfErr result (λ e. e ≡ Fault.Memory) }
    {
        support::children(&self.syntax)
    }

    /// The first token `RightParen`.
    pub fn right_paren_token(&self) -> Result<Option<SyntaxToken<Sample>>, Fault>
        ensures ok { let means = means_kind kind_of (sameb the_type) Kind.RightParen in
            IfOk result (λ found. option_map Token found
            ≡ find (is_token_of means) (children_with_tokens self.now)) }
        ensures err { IfErr result (λ e. e ≡ Fault.Memory) }
    {
        support::token(&self.syntax, Kind::RightParen)
    }
}

impl<'tree> ArgumentsRef<'tree> {
    ghost use Rattle.std.specs.Prelude.{◌≡◌, filter};
    ghost use Rattle.std.specs.List.{find};
    ghost use Rattle.std.specs.Option.{option_map};
    ghost use Rattle.rowan.specs.Types.NodeOrToken.TheVariants.{Token};
    ghost use Rattle.rowan.specs.Moves.{children, children_with_tokens};
    ghost use Rattle.rowan.specs.Ast.{casts_at, is_token_of, rest_that_casts};
    ghost use Rattle.rowan.specs.Refs.{token_place};
    ghost use Rattle.rowan.specs.Pointer.{means_kind};
    ghost use Rattle.grammar_sample.specs.contracts.kinds.Kind.{the_type};
    ghost use denote.Enum.Bare.{sameb};
    ghost use Rattle.grammar_sample.specs.Kinds.{kind_of};
    ghost use Rattle.grammar_sample.specs.Casts.{is_value};
    ghost use Rattle.grammar_sample.specs.NodeIn.{place_in};

    /// The first token `LeftParen`.
    pub fn left_paren_token(&self) -> Option<SyntaxTokenRef<'tree, Sample>>
        ensures { let means = means_kind kind_of (sameb the_type) Kind.LeftParen in
            option_map Token (option_map token_place result)
            ≡ find (is_token_of means) (children_with_tokens (place_in self.now)) }
    {
        support::token_of(self.syntax, Kind::LeftParen)
    }

    /// The children that are `Value`, in order.
    pub fn values(&self) -> AstNodesRef<'tree, ValueRef<'tree>>
        ensures { let casts = casts_at kind_of is_value in
            rest_that_casts casts result ≡ filter casts (children (place_in self.now)) }
    {
        support::children_ref(self.syntax)
    }

    /// The first token `RightParen`.
    pub fn right_paren_token(&self) -> Option<SyntaxTokenRef<'tree, Sample>>
        ensures { let means = means_kind kind_of (sameb the_type) Kind.RightParen in
            option_map Token (option_map token_place result)
            ≡ find (is_token_of means) (children_with_tokens (place_in self.now)) }
    {
        support::token_of(self.syntax, Kind::RightParen)
    }
}
