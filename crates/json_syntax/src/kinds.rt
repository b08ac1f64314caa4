// Written by rowan_grammar from json.ungram: change that, and not this file.
//! The kinds of the tokens and nodes of Json.
use rowan::{Language, SyntaxKind};
use rowan_parser::{TokenSet, token_set};

/// The language of JSON with comments.
#[derive(Clone, Copy, PartialEq, Eq, PartialOrd, Ord, Hash, Debug)]
pub struct Json;

/// The kind of a token or a node. What no other token has, and a string or a comment without its
/// end, is `Unknown`; a node around what has no place where it stands is an `Error`.
#[derive(Clone, Copy, PartialEq, Eq, PartialOrd, Ord, Hash, Debug)]
pub enum Kind {
    Whitespace = 0,
    Comment = 1,
    String = 2,
    Number = 3,
    Word = 4,
    LBrace = 5,
    RBrace = 6,
    LBracket = 7,
    RBracket = 8,
    Comma = 9,
    Colon = 10,
    Unknown = 11,
    /// An object.
    Object = 12,
    /// A member of an object.
    Member = 13,
    /// An array.
    Array = 14,
    /// A string, a number or a word.
    Literal = 15,
    Error = 16,
    Root = 17,
}

impl Language for Json {
    type Kind = Kind;

    ghost use Rattle.json_syntax.specs.Kinds.{kind_of, name_of, number_of};

    ghost meaning = { kind_of };

    ghost name = { name_of };

    ghost code = { number_of };

    fn kind_from_raw(raw: SyntaxKind) -> Kind {
        match raw.0 {
            0 => Kind::Whitespace,
            1 => Kind::Comment,
            2 => Kind::String,
            3 => Kind::Number,
            4 => Kind::Word,
            5 => Kind::LBrace,
            6 => Kind::RBrace,
            7 => Kind::LBracket,
            8 => Kind::RBracket,
            9 => Kind::Comma,
            10 => Kind::Colon,
            11 => Kind::Unknown,
            12 => Kind::Object,
            13 => Kind::Member,
            14 => Kind::Array,
            15 => Kind::Literal,
            17 => Kind::Root,
            _ => Kind::Error,
        }
    }

    fn kind_to_raw(kind: Kind) -> SyntaxKind {
        match kind {
            Kind::Whitespace => SyntaxKind(0),
            Kind::Comment => SyntaxKind(1),
            Kind::String => SyntaxKind(2),
            Kind::Number => SyntaxKind(3),
            Kind::Word => SyntaxKind(4),
            Kind::LBrace => SyntaxKind(5),
            Kind::RBrace => SyntaxKind(6),
            Kind::LBracket => SyntaxKind(7),
            Kind::RBracket => SyntaxKind(8),
            Kind::Comma => SyntaxKind(9),
            Kind::Colon => SyntaxKind(10),
            Kind::Unknown => SyntaxKind(11),
            Kind::Object => SyntaxKind(12),
            Kind::Member => SyntaxKind(13),
            Kind::Array => SyntaxKind(14),
            Kind::Literal => SyntaxKind(15),
            Kind::Error => SyntaxKind(16),
            Kind::Root => SyntaxKind(17),
        }
    }

    fn kind_name(kind: Kind) -> &'static str {
        match kind {
            Kind::Whitespace => "WHITESPACE",
            Kind::Comment => "COMMENT",
            Kind::String => "STRING",
            Kind::Number => "NUMBER",
            Kind::Word => "WORD",
            Kind::LBrace => "L_BRACE",
            Kind::RBrace => "R_BRACE",
            Kind::LBracket => "L_BRACKET",
            Kind::RBracket => "R_BRACKET",
            Kind::Comma => "COMMA",
            Kind::Colon => "COLON",
            Kind::Unknown => "UNKNOWN",
            Kind::Object => "OBJECT",
            Kind::Member => "MEMBER",
            Kind::Array => "ARRAY",
            Kind::Literal => "LITERAL",
            Kind::Error => "ERROR",
            Kind::Root => "ROOT",
        }
    }
}

/// The kinds of the tokens that may stand anywhere.
pub const TRIVIA: &[Kind] = &[Kind::Whitespace, Kind::Comment];

/// The kind of the node of a whole text.
pub const ROOT: Kind = Kind::Root;

/// What may stand between the tokens of a value.
pub const BLANK: TokenSet = token_set![Kind::Whitespace, Kind::Comment];

/// The tokens at which an element of an array or an object ends.
pub const ENDS: TokenSet = token_set![Kind::Comma, Kind::RBracket, Kind::RBrace];

impl Kind {
    ghost use Rattle.std.specs.Prelude.{◌≡◌};
    ghost use Rattle.json_syntax.specs.Kinds.{is_keyword, is_punct, keyword_of, is_in_blank};
    ghost use Rattle.json_syntax.specs.Kinds.{is_in_ends};

    /// Whether its tokens are always one word.
    pub fn is_keyword(self) -> bool
        ensures { result ≡ is_keyword self }
    {
        match self {
            _ => false,
        }
    }

    /// Whether its tokens always have one text that is no word.
    pub fn is_punct(self) -> bool
        ensures { result ≡ is_punct self }
    {
        match self {
            Kind::LBrace => true,
            Kind::RBrace => true,
            Kind::LBracket => true,
            Kind::RBracket => true,
            Kind::Comma => true,
            Kind::Colon => true,
            _ => false,
        }
    }

    /// The kind of the tokens that are always this word.
    pub fn from_keyword(text: &str) -> Option<Kind>
        ensures { result ≡ keyword_of text.now }
    {
        None
    }

    /// Whether its tokens are in `BLANK`.
    #[tactic(auto, using(crate::proofs::SetLemmas::blank_has))]
    pub fn is_in_blank(self) -> bool
        ensures { result ≡ is_in_blank self }
    {
        let raw = Json::kind_to_raw(self);
        BLANK.contains(raw)
    }

    /// Whether its tokens are in `ENDS`.
    #[tactic(auto, using(crate::proofs::SetLemmas::ends_has))]
    pub fn is_in_ends(self) -> bool
        ensures { result ≡ is_in_ends self }
    {
        let raw = Json::kind_to_raw(self);
        ENDS.contains(raw)
    }
}

/// The kind of a token by the text that it always has.
#[macro_export]
macro_rules! T {
    ['{'] => { $crate::kinds::Kind::LBrace };
    ['}'] => { $crate::kinds::Kind::RBrace };
    ['['] => { $crate::kinds::Kind::LBracket };
    [']'] => { $crate::kinds::Kind::RBracket };
    [,] => { $crate::kinds::Kind::Comma };
    [:] => { $crate::kinds::Kind::Colon };
}
