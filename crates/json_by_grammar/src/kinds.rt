// Written by rowan_grammar from json.ungram: change that, and not this file.
//! The kinds of the tokens and nodes of Json.
use rowan::{Language, SyntaxKind};

/// The language of JSON.
#[derive(Clone, Copy, PartialEq, Eq, PartialOrd, Ord, Hash, Debug)]
pub struct Json;

/// The kind of a token or a node.
#[derive(Clone, Copy, PartialEq, Eq, PartialOrd, Ord, Hash, Debug)]
pub enum Kind {
    Whitespace = 0,
    Comment = 1,
    String = 2,
    Number = 3,
    Word = 4,
    LBrace = 5,
    RBrace = 6,
    LBracket = 7,
    RBracket = 8,
    Comma = 9,
    Colon = 10,
    Unknown = 11,
    /// An object.
    Object = 12,
    /// A member of an object.
    Member = 13,
    /// An array.
    Array = 14,
    /// A string, a number or a word.
    Literal = 15,
    Error = 16,
    Root = 17,
}

impl Language for Json {
    type Kind = Kind;

    ghost use Rattle.json_by_grammar.specs.Kinds.{kind_of, name_of, number_of};

    ghost meaning = { kind_of };

    ghost name = { name_of };

    ghost code = { number_of };

    fn kind_from_raw(raw: SyntaxKind) -> Kind {
        match raw.0 {
            0 => Kind::Whitespace,
            1 => Kind::Comment,
            2 => Kind::String,
            3 => Kind::Number,
            4 => Kind::Word,
            5 => Kind::LBrace,
            6 => Kind::RBrace,
            7 => Kind::LBracket,
            8 => Kind::RBracket,
            9 => Kind::Comma,
            10 => Kind::Colon,
            11 => Kind::Unknown,
            12 => Kind::Object,
            13 => Kind::Member,
            14 => Kind::Array,
            15 => Kind::Literal,
            17 => Kind::Root,
            _ => Kind::Error,
        }
    }

    fn kind_to_raw(kind: Kind) -> SyntaxKind {
        match kind {
            Kind::Whitespace => SyntaxKind(0),
            Kind::Comment => SyntaxKind(1),
            Kind::String => SyntaxKind(2),
            Kind::Number => SyntaxKind(3),
            Kind::Word => SyntaxKind(4),
            Kind::LBrace => SyntaxKind(5),
            Kind::RBrace => SyntaxKind(6),
            Kind::LBracket => SyntaxKind(7),
            Kind::RBracket => SyntaxKind(8),
            Kind::Comma => SyntaxKind(9),
            Kind::Colon => SyntaxKind(10),
            Kind::Unknown => SyntaxKind(11),
            Kind::Object => SyntaxKind(12),
            Kind::Member => SyntaxKind(13),
            Kind::Array => SyntaxKind(14),
            Kind::Literal => SyntaxKind(15),
            Kind::Error => SyntaxKind(16),
            Kind::Root => SyntaxKind(17),
        }
    }

    fn kind_name(kind: Kind) -> &'static str {
        match kind {
            Kind::Whitespace => "WHITESPACE",
            Kind::Comment => "COMMENT",
            Kind::String => "STRING",
            Kind::Number => "NUMBER",
            Kind::Word => "WORD",
            Kind::LBrace => "L_BRACE",
            Kind::RBrace => "R_BRACE",
            Kind::LBracket => "L_BRACKET",
            Kind::RBracket => "R_BRACKET",
            Kind::Comma => "COMMA",
            Kind::Colon => "COLON",
            Kind::Unknown => "UNKNOWN",
            Kind::Object => "OBJECT",
            Kind::Member => "MEMBER",
            Kind::Array => "ARRAY",
            Kind::Literal => "LITERAL",
            Kind::Error => "ERROR",
            Kind::Root => "ROOT",
        }
    }
}

/// The kinds of the tokens that may stand anywhere.
pub const TRIVIA: &[Kind] = &[Kind::Whitespace, Kind::Comment];

/// The kind of the node of a whole text.
pub const ROOT: Kind = Kind::Root;

/// The texts of tokens that always have one, the longest first.
pub const TEXTS: [(&str, Kind); 6] = [
    ("{", Kind::LBrace),
    ("}", Kind::RBrace),
    ("[", Kind::LBracket),
    ("]", Kind::RBracket),
    (",", Kind::Comma),
    (":", Kind::Colon),
];

impl Kind {
    ghost use Rattle.std.specs.Prelude.{◌≡◌};
    ghost use Rattle.json_by_grammar.specs.Kinds.{is_keyword, is_punct, keyword_of, sign_of};

    /// Whether its tokens are always one word.
    pub fn is_keyword(self) -> bool
        ensures { result ≡ is_keyword self }
    {
        match self {
            _ => false,
        }
    }

    /// Whether its tokens always have one text that is no word.
    pub fn is_punct(self) -> bool
        ensures { result ≡ is_punct self }
    {
        match self {
            Kind::LBrace => true,
            Kind::RBrace => true,
            Kind::LBracket => true,
            Kind::RBracket => true,
            Kind::Comma => true,
            Kind::Colon => true,
            _ => false,
        }
    }

    /// The kind of the tokens that are always this word.
    pub fn from_keyword(text: &str) -> Option<Kind>
        ensures { result ≡ keyword_of text.now }
    {
        None
    }

    /// The kind and the length, in bytes, of the longest of these texts with which a text begins:
    /// those of tokens that always have one, and no words.
    pub fn from_start(text: &str) -> Option<(Kind, usize)>
        ensures { result ≡ sign_of text.now }
    {
        let bytes = text.as_bytes();
        if bytes.starts_with(b"{") {
            return Some((Kind::LBrace, 1));
        }
        if bytes.starts_with(b"}") {
            return Some((Kind::RBrace, 1));
        }
        if bytes.starts_with(b"[") {
            return Some((Kind::LBracket, 1));
        }
        if bytes.starts_with(b"]") {
            return Some((Kind::RBracket, 1));
        }
        if bytes.starts_with(b",") {
            return Some((Kind::Comma, 1));
        }
        if bytes.starts_with(b":") {
            return Some((Kind::Colon, 1));
        }
        None
    }
}

/// The kind of a token by the text that it always has.
#[macro_export]
macro_rules! T {
    ['{'] => { $crate::kinds::Kind::LBrace };
    ['}'] => { $crate::kinds::Kind::RBrace };
    ['['] => { $crate::kinds::Kind::LBracket };
    [']'] => { $crate::kinds::Kind::RBracket };
    [,] => { $crate::kinds::Kind::Comma };
    [:] => { $crate::kinds::Kind::Colon };
}
