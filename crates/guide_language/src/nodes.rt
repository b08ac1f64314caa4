// Written by rowan_grammar from settings.ungram: change that, and not this file.
//! Wrappers of the nodes of Settings, which borrow the tree.
ghost use Rattle.std.specs.Prelude.{◌≡◌, true};
ghost use Rattle.rowan.specs.Ast.{casts_at};
ghost use Rattle.rowan.specs.Refs.{node_place};
ghost use Rattle.guide_language.specs.Casts.{has_number};
ghost use Rattle.guide_language.specs.Kinds.{kind_of};

use crate::kinds::{Kind, Settings};
use rowan::ast::{AstNodeRef, AstNodesRef, support};
use rowan::{SyntaxNodeRef, SyntaxTokenRef};

/// A node whose kind has this number, borrowed from its tree.
#[derive(Clone, Copy, PartialEq, Eq, Hash)]
pub struct NodeOfRef<'tree, const KIND: u16> {
    syntax: SyntaxNodeRef<'tree, Settings>,
    ghost casts: { casts_at kind_of (has_number KIND) (node_place syntax) ≡ true },
}

impl<'tree, const KIND: u16> AstNodeRef<'tree> for NodeOfRef<'tree, KIND> {
    type Language = Settings;

    ghost use Rattle.std.specs.Prelude.{◌≡◌, true};
    ghost use Rattle.std.specs.Option.{option_map};
    ghost use Rattle.rowan.specs.Ast.{casts_at, if_casts};
    ghost use Rattle.rowan.specs.Refs.{node_place};
    ghost use Rattle.guide_language.specs.Casts.{has_number};
    ghost use Rattle.guide_language.specs.Kinds.{kind_of};
    ghost use Rattle.guide_language.specs.NodeIn.{place_in};

    ghost casts = { has_number KIND };

    ghost node_of = { place_in };

    fn can_cast(kind: Kind) -> bool
        ensures { result ≡ has_number KIND kind }
    {
        <Settings as rowan::Language>::kind_to_raw(kind).0 == KIND
    }

    fn cast(syntax: SyntaxNodeRef<'tree, Settings>) -> Option<NodeOfRef<'tree, KIND>>
        ensures { let casting = casts_at kind_of (has_number KIND) in
            option_map place_in result ≡ if_casts casting (node_place syntax.entry) }
    {
        if Self::can_cast(syntax.kind()) {
            Some(NodeOfRef { syntax })
        } else {
            None
        }
    }

    fn syntax(&self) -> SyntaxNodeRef<'tree, Settings>
        ensures node { node_place result ≡ place_in self.now }
        ensures casts { casts_at kind_of (has_number KIND) (node_place result) ≡ true }
    {
        self.syntax
    }
}

impl<const KIND: u16> std::fmt::Debug for NodeOfRef<'_, KIND> {
    fn fmt<W: std::fmt::Write>(&self, f: &mut std::fmt::Formatter<W>) -> std::fmt::Result {
        self.syntax.fmt(f)
    }
}

/// A header with the entries below it.
///
/// ```text
/// Section = Header Entry*
/// ```
pub type SectionRef<'tree> = NodeOfRef<'tree, 15>;

impl<'tree> SectionRef<'tree> {
    ghost use Rattle.std.specs.Prelude.{◌≡◌, filter};
    ghost use Rattle.std.specs.List.{find};
    ghost use Rattle.std.specs.Option.{option_map};
    ghost use Rattle.rowan.specs.Moves.{children};
    ghost use Rattle.rowan.specs.Ast.{casts_at, rest_that_casts};
    ghost use Rattle.guide_language.specs.Kinds.{kind_of};
    ghost use Rattle.guide_language.specs.Casts.{is_header, is_entry};
    ghost use Rattle.guide_language.specs.NodeIn.{place_in};

    /// The first child that is `Header`.
    pub fn header(&self) -> Option<HeaderRef<'tree>>
        ensures { let casts = casts_at kind_of is_header in
            option_map place_in result ≡ find casts (children (place_in self.now)) }
    {
        support::child_ref(self.syntax)
    }

    /// The children that are `Entry`, in order.
    pub fn entries(&self) -> AstNodesRef<'tree, EntryRef<'tree>>
        ensures { let casts = casts_at kind_of is_entry in
            rest_that_casts casts result ≡ filter casts (children (place_in self.now)) }
    {
        support::children_ref(self.syntax)
    }
}

/// The name of a section, in brackets.
///
/// ```text
/// Header = '[' Name ']' Newline?
/// ```
pub type HeaderRef<'tree> = NodeOfRef<'tree, 16>;

impl<'tree> HeaderRef<'tree> {
    ghost use Rattle.std.specs.Prelude.{◌≡◌};
    ghost use Rattle.std.specs.List.{find};
    ghost use Rattle.std.specs.Option.{option_map};
    ghost use Rattle.rowan.specs.Types.NodeOrToken.TheVariants.{Token};
    ghost use Rattle.rowan.specs.Moves.{children_with_tokens};
    ghost use Rattle.rowan.specs.Ast.{is_token_of};
    ghost use Rattle.rowan.specs.Refs.{token_place};
    ghost use Rattle.rowan.specs.Pointer.{means_kind};
    ghost use Rattle.guide_language.specs.contracts.kinds.Kind.{the_type};
    ghost use denote.Enum.Bare.{sameb};
    ghost use Rattle.guide_language.specs.Kinds.{kind_of};
    ghost use Rattle.guide_language.specs.NodeIn.{place_in};

    /// The first token `Open`.
    pub fn open_token(&self) -> Option<SyntaxTokenRef<'tree, Settings>>
        ensures { let means = means_kind kind_of (sameb the_type) Kind.Open in
            option_map Token (option_map token_place result)
            ≡ find (is_token_of means) (children_with_tokens (place_in self.now)) }
    {
        support::token_of(self.syntax, Kind::Open)
    }

    /// The first token `Name`.
    pub fn name_token(&self) -> Option<SyntaxTokenRef<'tree, Settings>>
        ensures { let means = means_kind kind_of (sameb the_type) Kind.Name in
            option_map Token (option_map token_place result)
            ≡ find (is_token_of means) (children_with_tokens (place_in self.now)) }
    {
        support::token_of(self.syntax, Kind::Name)
    }

    /// The first token `Close`.
    pub fn close_token(&self) -> Option<SyntaxTokenRef<'tree, Settings>>
        ensures { let means = means_kind kind_of (sameb the_type) Kind.Close in
            option_map Token (option_map token_place result)
            ≡ find (is_token_of means) (children_with_tokens (place_in self.now)) }
    {
        support::token_of(self.syntax, Kind::Close)
    }

    /// The first token `Newline`.
    pub fn newline_token(&self) -> Option<SyntaxTokenRef<'tree, Settings>>
        ensures { let means = means_kind kind_of (sameb the_type) Kind.Newline in
            option_map Token (option_map token_place result)
            ≡ find (is_token_of means) (children_with_tokens (place_in self.now)) }
    {
        support::token_of(self.syntax, Kind::Newline)
    }
}

/// A key with its value.
///
/// ```text
/// Entry = Key '=' Value Newline?
/// ```
pub type EntryRef<'tree> = NodeOfRef<'tree, 17>;

impl<'tree> EntryRef<'tree> {
    ghost use Rattle.std.specs.Prelude.{◌≡◌};
    ghost use Rattle.std.specs.List.{find};
    ghost use Rattle.std.specs.Option.{option_map};
    ghost use Rattle.rowan.specs.Types.NodeOrToken.TheVariants.{Token};
    ghost use Rattle.rowan.specs.Moves.{children, children_with_tokens};
    ghost use Rattle.rowan.specs.Ast.{casts_at, is_token_of};
    ghost use Rattle.rowan.specs.Refs.{token_place};
    ghost use Rattle.rowan.specs.Pointer.{means_kind};
    ghost use Rattle.guide_language.specs.contracts.kinds.Kind.{the_type};
    ghost use denote.Enum.Bare.{sameb};
    ghost use Rattle.guide_language.specs.Kinds.{kind_of};
    ghost use Rattle.guide_language.specs.Casts.{is_value};
    ghost use Rattle.guide_language.specs.NodeIn.{place_in};

    /// The first token `Key`.
    pub fn key_token(&self) -> Option<SyntaxTokenRef<'tree, Settings>>
        ensures { let means = means_kind kind_of (sameb the_type) Kind.Key in
            option_map Token (option_map token_place result)
            ≡ find (is_token_of means) (children_with_tokens (place_in self.now)) }
    {
        support::token_of(self.syntax, Kind::Key)
    }

    /// The first token `Equals`.
    pub fn equals_token(&self) -> Option<SyntaxTokenRef<'tree, Settings>>
        ensures { let means = means_kind kind_of (sameb the_type) Kind.Equals in
            option_map Token (option_map token_place result)
            ≡ find (is_token_of means) (children_with_tokens (place_in self.now)) }
    {
        support::token_of(self.syntax, Kind::Equals)
    }

    /// The first child that is `Value`.
    pub fn value(&self) -> Option<ValueRef<'tree>>
        ensures { let casts = casts_at kind_of is_value in
            option_map place_in result ≡ find casts (children (place_in self.now)) }
    {
        support::child_ref(self.syntax)
    }

    /// The first token `Newline`.
    pub fn newline_token(&self) -> Option<SyntaxTokenRef<'tree, Settings>>
        ensures { let means = means_kind kind_of (sameb the_type) Kind.Newline in
            option_map Token (option_map token_place result)
            ≡ find (is_token_of means) (children_with_tokens (place_in self.now)) }
    {
        support::token_of(self.syntax, Kind::Newline)
    }
}

/// The value of an entry.
///
/// ```text
/// Value = Number | Text | 'true' | 'false'
/// ```
pub type ValueRef<'tree> = NodeOfRef<'tree, 18>;

impl<'tree> ValueRef<'tree> {
    ghost use Rattle.std.specs.Prelude.{◌≡◌};
    ghost use Rattle.std.specs.List.{find};
    ghost use Rattle.std.specs.Option.{option_map};
    ghost use Rattle.rowan.specs.Types.NodeOrToken.TheVariants.{Token};
    ghost use Rattle.rowan.specs.Moves.{children_with_tokens};
    ghost use Rattle.rowan.specs.Ast.{is_token_of};
    ghost use Rattle.rowan.specs.Refs.{token_place};
    ghost use Rattle.rowan.specs.Pointer.{means_kind};
    ghost use Rattle.guide_language.specs.contracts.kinds.Kind.{the_type};
    ghost use denote.Enum.Bare.{sameb};
    ghost use Rattle.guide_language.specs.Kinds.{kind_of};
    ghost use Rattle.guide_language.specs.NodeIn.{place_in};

    /// The first token `Number`.
    pub fn number_token(&self) -> Option<SyntaxTokenRef<'tree, Settings>>
        ensures { let means = means_kind kind_of (sameb the_type) Kind.Number in
            option_map Token (option_map token_place result)
            ≡ find (is_token_of means) (children_with_tokens (place_in self.now)) }
    {
        support::token_of(self.syntax, Kind::Number)
    }

    /// The first token `Text`.
    pub fn text_token(&self) -> Option<SyntaxTokenRef<'tree, Settings>>
        ensures { let means = means_kind kind_of (sameb the_type) Kind.Text in
            option_map Token (option_map token_place result)
            ≡ find (is_token_of means) (children_with_tokens (place_in self.now)) }
    {
        support::token_of(self.syntax, Kind::Text)
    }

    /// The first token `True`.
    pub fn true_token(&self) -> Option<SyntaxTokenRef<'tree, Settings>>
        ensures { let means = means_kind kind_of (sameb the_type) Kind.True in
            option_map Token (option_map token_place result)
            ≡ find (is_token_of means) (children_with_tokens (place_in self.now)) }
    {
        support::token_of(self.syntax, Kind::True)
    }

    /// The first token `False`.
    pub fn false_token(&self) -> Option<SyntaxTokenRef<'tree, Settings>>
        ensures { let means = means_kind kind_of (sameb the_type) Kind.False in
            option_map Token (option_map token_place result)
            ≡ find (is_token_of means) (children_with_tokens (place_in self.now)) }
    {
        support::token_of(self.syntax, Kind::False)
    }
}
