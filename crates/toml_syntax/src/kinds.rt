// Written by rowan_grammar from toml.ungram: change that, and not this file.
//! The kinds of the tokens and nodes of Toml.
ghost use Rattle.std.specs.Prelude.{◌≡◌};
ghost use Rattle.toml_syntax.specs.Kinds.{block_kind_0, block_kind_1};

use rowan::{Language, SyntaxKind};

/// The language of TOML.
#[derive(Clone, Copy, PartialEq, Eq, PartialOrd, Ord, Hash, Debug)]
pub struct Toml;

/// The kind of a token or a node.
#[derive(Clone, Copy, PartialEq, Eq, PartialOrd, Ord, Hash, Debug)]
pub enum Kind {
    /// Blanks, and line ends that end no entry and no header.
    Whitespace = 0,
    Comment = 1,
    /// The end of the line of an entry or a header.
    Newline = 2,
    BareKey = 3,
    BasicString = 4,
    LiteralString = 5,
    MultiLineBasicString = 6,
    MultiLineLiteralString = 7,
    Integer = 8,
    Float = 9,
    Boolean = 10,
    OffsetDateTime = 11,
    LocalDateTime = 12,
    LocalDate = 13,
    LocalTime = 14,
    Dot = 15,
    Equals = 16,
    Comma = 17,
    LBracket = 18,
    RBracket = 19,
    LBrackets = 20,
    RBrackets = 21,
    LBrace = 22,
    RBrace = 23,
    /// What no other token has.
    Unknown = 24,
    Error = 25,
    /// A whole text: entries, and then tables.
    Document = 26,
    /// A table with a header.
    Table = 27,
    /// An element of an array of tables.
    ArrayTable = 28,
    /// A key with its value, in a line of its own or in an inline table.
    Entry = 29,
    /// A key, with its parts between dots.
    Key = 30,
    /// A part of a key.
    KeyPart = 31,
    /// A value in one token.
    Scalar = 32,
    /// An array.
    Array = 33,
    /// A table in braces.
    InlineTable = 34,
}

impl Language for Toml {
    type Kind = Kind;

    ghost use Rattle.toml_syntax.specs.Kinds.{kind_of, name_of, number_of};

    ghost meaning = { kind_of };

    ghost name = { name_of };

    ghost code = { number_of };

    fn kind_from_raw(raw: SyntaxKind) -> Kind {
        if raw.0 < 32 {
            kind_in_block_0(raw.0)
        } else {
            kind_in_block_1(raw.0)
        }
    }

    fn kind_to_raw(kind: Kind) -> SyntaxKind {
        match kind {
            Kind::Whitespace => SyntaxKind(0),
            Kind::Comment => SyntaxKind(1),
            Kind::Newline => SyntaxKind(2),
            Kind::BareKey => SyntaxKind(3),
            Kind::BasicString => SyntaxKind(4),
            Kind::LiteralString => SyntaxKind(5),
            Kind::MultiLineBasicString => SyntaxKind(6),
            Kind::MultiLineLiteralString => SyntaxKind(7),
            Kind::Integer => SyntaxKind(8),
            Kind::Float => SyntaxKind(9),
            Kind::Boolean => SyntaxKind(10),
            Kind::OffsetDateTime => SyntaxKind(11),
            Kind::LocalDateTime => SyntaxKind(12),
            Kind::LocalDate => SyntaxKind(13),
            Kind::LocalTime => SyntaxKind(14),
            Kind::Dot => SyntaxKind(15),
            Kind::Equals => SyntaxKind(16),
            Kind::Comma => SyntaxKind(17),
            Kind::LBracket => SyntaxKind(18),
            Kind::RBracket => SyntaxKind(19),
            Kind::LBrackets => SyntaxKind(20),
            Kind::RBrackets => SyntaxKind(21),
            Kind::LBrace => SyntaxKind(22),
            Kind::RBrace => SyntaxKind(23),
            Kind::Unknown => SyntaxKind(24),
            Kind::Error => SyntaxKind(25),
            Kind::Document => SyntaxKind(26),
            Kind::Table => SyntaxKind(27),
            Kind::ArrayTable => SyntaxKind(28),
            Kind::Entry => SyntaxKind(29),
            Kind::Key => SyntaxKind(30),
            Kind::KeyPart => SyntaxKind(31),
            Kind::Scalar => SyntaxKind(32),
            Kind::Array => SyntaxKind(33),
            Kind::InlineTable => SyntaxKind(34),
        }
    }

    fn kind_name(kind: Kind) -> &'static str {
        match kind {
            Kind::Whitespace => "WHITESPACE",
            Kind::Comment => "COMMENT",
            Kind::Newline => "NEWLINE",
            Kind::BareKey => "BARE_KEY",
            Kind::BasicString => "BASIC_STRING",
            Kind::LiteralString => "LITERAL_STRING",
            Kind::MultiLineBasicString => "MULTI_LINE_BASIC_STRING",
            Kind::MultiLineLiteralString => "MULTI_LINE_LITERAL_STRING",
            Kind::Integer => "INTEGER",
            Kind::Float => "FLOAT",
            Kind::Boolean => "BOOLEAN",
            Kind::OffsetDateTime => "OFFSET_DATE_TIME",
            Kind::LocalDateTime => "LOCAL_DATE_TIME",
            Kind::LocalDate => "LOCAL_DATE",
            Kind::LocalTime => "LOCAL_TIME",
            Kind::Dot => "DOT",
            Kind::Equals => "EQUALS",
            Kind::Comma => "COMMA",
            Kind::LBracket => "L_BRACKET",
            Kind::RBracket => "R_BRACKET",
            Kind::LBrackets => "L_BRACKETS",
            Kind::RBrackets => "R_BRACKETS",
            Kind::LBrace => "L_BRACE",
            Kind::RBrace => "R_BRACE",
            Kind::Unknown => "UNKNOWN",
            Kind::Error => "ERROR",
            Kind::Document => "DOCUMENT",
            Kind::Table => "TABLE",
            Kind::ArrayTable => "ARRAY_TABLE",
            Kind::Entry => "ENTRY",
            Kind::Key => "KEY",
            Kind::KeyPart => "KEY_PART",
            Kind::Scalar => "SCALAR",
            Kind::Array => "ARRAY",
            Kind::InlineTable => "INLINE_TABLE",
        }
    }
}

/// The kinds of the tokens that may stand anywhere.
pub const TRIVIA: &[Kind] = &[Kind::Whitespace, Kind::Comment];

/// The kind of the node of a whole text.
pub const ROOT: Kind = Kind::Document;

/// The texts of tokens that always have one, the longest first.
pub const TEXTS: [(&str, Kind); 9] = [
    ("[[", Kind::LBrackets),
    ("]]", Kind::RBrackets),
    (".", Kind::Dot),
    ("=", Kind::Equals),
    (",", Kind::Comma),
    ("[", Kind::LBracket),
    ("]", Kind::RBracket),
    ("{", Kind::LBrace),
    ("}", Kind::RBrace),
];

fn kind_in_block_0(raw: u16) -> Kind
    ensures { result ≡ block_kind_0 raw }
{
    match raw {
        0 => Kind::Whitespace,
        1 => Kind::Comment,
        2 => Kind::Newline,
        3 => Kind::BareKey,
        4 => Kind::BasicString,
        5 => Kind::LiteralString,
        6 => Kind::MultiLineBasicString,
        7 => Kind::MultiLineLiteralString,
        8 => Kind::Integer,
        9 => Kind::Float,
        10 => Kind::Boolean,
        11 => Kind::OffsetDateTime,
        12 => Kind::LocalDateTime,
        13 => Kind::LocalDate,
        14 => Kind::LocalTime,
        15 => Kind::Dot,
        16 => Kind::Equals,
        17 => Kind::Comma,
        18 => Kind::LBracket,
        19 => Kind::RBracket,
        20 => Kind::LBrackets,
        21 => Kind::RBrackets,
        22 => Kind::LBrace,
        23 => Kind::RBrace,
        24 => Kind::Unknown,
        26 => Kind::Document,
        27 => Kind::Table,
        28 => Kind::ArrayTable,
        29 => Kind::Entry,
        30 => Kind::Key,
        31 => Kind::KeyPart,
        _ => Kind::Error,
    }
}

fn kind_in_block_1(raw: u16) -> Kind
    ensures { result ≡ block_kind_1 raw }
{
    match raw {
        32 => Kind::Scalar,
        33 => Kind::Array,
        34 => Kind::InlineTable,
        _ => Kind::Error,
    }
}

impl Kind {
    ghost use Rattle.std.specs.Prelude.{◌≡◌};
    ghost use Rattle.toml_syntax.specs.Kinds.{is_keyword, is_punct, keyword_of, sign_of};

    /// Whether its tokens are always one word.
    pub fn is_keyword(self) -> bool
        ensures { result ≡ is_keyword self }
    {
        match self {
            _ => false,
        }
    }

    /// Whether its tokens always have one text that is no word.
    pub fn is_punct(self) -> bool
        ensures { result ≡ is_punct self }
    {
        match self {
            Kind::Dot => true,
            Kind::Equals => true,
            Kind::Comma => true,
            Kind::LBracket => true,
            Kind::RBracket => true,
            Kind::LBrackets => true,
            Kind::RBrackets => true,
            Kind::LBrace => true,
            Kind::RBrace => true,
            _ => false,
        }
    }

    /// The kind of the tokens that are always this word.
    pub fn from_keyword(text: &str) -> Option<Kind>
        ensures { result ≡ keyword_of text.now }
    {
        None
    }

    /// The kind and the length, in bytes, of the longest of these texts with which a text begins:
    /// those of tokens that always have one, and no words.
    pub fn from_start(text: &str) -> Option<(Kind, usize)>
        ensures { result ≡ sign_of text.now }
    {
        let bytes = text.as_bytes();
        if bytes.starts_with(b"[[") {
            return Some((Kind::LBrackets, 2));
        }
        if bytes.starts_with(b"]]") {
            return Some((Kind::RBrackets, 2));
        }
        if bytes.starts_with(b".") {
            return Some((Kind::Dot, 1));
        }
        if bytes.starts_with(b"=") {
            return Some((Kind::Equals, 1));
        }
        if bytes.starts_with(b",") {
            return Some((Kind::Comma, 1));
        }
        if bytes.starts_with(b"[") {
            return Some((Kind::LBracket, 1));
        }
        if bytes.starts_with(b"]") {
            return Some((Kind::RBracket, 1));
        }
        if bytes.starts_with(b"{") {
            return Some((Kind::LBrace, 1));
        }
        if bytes.starts_with(b"}") {
            return Some((Kind::RBrace, 1));
        }
        None
    }
}

/// The kind of a token by the text that it always has.
#[macro_export]
macro_rules! T {
    [.] => { $crate::kinds::Kind::Dot };
    [=] => { $crate::kinds::Kind::Equals };
    [,] => { $crate::kinds::Kind::Comma };
    ['['] => { $crate::kinds::Kind::LBracket };
    [']'] => { $crate::kinds::Kind::RBracket };
    ["[["] => { $crate::kinds::Kind::LBrackets };
    ["]]"] => { $crate::kinds::Kind::RBrackets };
    ['{'] => { $crate::kinds::Kind::LBrace };
    ['}'] => { $crate::kinds::Kind::RBrace };
}
