// Written by rowan_grammar from sample.ungram: change that, and not this file.
//! The kinds of the tokens and nodes of Sample.
ghost use Rattle.std.specs.Prelude.{◌≡◌};
ghost use Rattle.grammar_sample.specs.Kinds.{block_kind_0, block_kind_1};

use rowan::{Language, SyntaxKind};

/// The language.
#[derive(Clone, Copy, PartialEq, Eq, PartialOrd, Ord, Hash, Debug)]
pub struct Sample;

/// The kind of a token or a node.
#[derive(Clone, Copy, PartialEq, Eq, PartialOrd, Ord, Hash, Debug)]
pub enum Kind {
    /// Spaces and tabs.
    Whitespace = 0,
    /// A line feed, with the carriage return before it.
    Newline = 1,
    /// A `#` and what follows on its line.
    Comment = 2,
    /// A bare name.
    Name = 3,
    /// Text in quotes.
    Text = 4,
    /// An integer.
    Integer = 5,
    /// A number with a point.
    Float = 6,
    /// `true` or `false`.
    Boolean = 7,
    /// A date and a time.
    Moment = 8,
    Equals = 9,
    Dot = 10,
    Comma = 11,
    LeftBracket = 12,
    RightBracket = 13,
    LeftBrace = 14,
    RightBrace = 15,
    LeftParen = 16,
    RightParen = 17,
    /// Any other character.
    Unknown = 18,
    /// A node around what has no place where it stands.
    Error = 19,
    /// The node of the whole text.
    Document = 20,
    /// A header and the entries below it.
    Table = 21,
    /// A header in double brackets and the entries below it.
    ArrayTable = 22,
    /// A key in brackets.
    Header = 23,
    /// A key in double brackets.
    ArrayHeader = 24,
    /// A key, and behind an equals sign a value.
    Entry = 25,
    /// Parts of a key, with dots between them.
    Key = 26,
    /// A bare part of a key.
    BareKey = 27,
    /// A part of a key in quotes.
    QuotedKey = 28,
    /// A remark behind an entry.
    Note = 29,
    /// A text.
    TextLiteral = 30,
    /// An integer.
    IntegerLiteral = 31,
    /// A number with a point.
    FloatLiteral = 32,
    /// A boolean.
    BooleanLiteral = 33,
    /// A date and a time.
    MomentLiteral = 34,
    /// Values in brackets.
    Array = 35,
    /// Entries in braces.
    InlineTable = 36,
    /// The value of another key.
    Reference = 37,
    /// A call of a function.
    Call = 38,
    /// The arguments of a call.
    Arguments = 39,
}

impl Language for Sample {
    type Kind = Kind;

    ghost use Rattle.grammar_sample.specs.Kinds.{kind_of, name_of, number_of};

    ghost meaning = { kind_of };

    ghost name = { name_of };

    ghost code = { number_of };

    fn kind_from_raw(raw: SyntaxKind) -> Kind {
        if raw.0 < 32 {
            kind_in_block_0(raw.0)
        } else {
            kind_in_block_1(raw.0)
        }
    }

    fn kind_to_raw(kind: Kind) -> SyntaxKind {
        match kind {
            Kind::Whitespace => SyntaxKind(0),
            Kind::Newline => SyntaxKind(1),
            Kind::Comment => SyntaxKind(2),
            Kind::Name => SyntaxKind(3),
            Kind::Text => SyntaxKind(4),
            Kind::Integer => SyntaxKind(5),
            Kind::Float => SyntaxKind(6),
            Kind::Boolean => SyntaxKind(7),
            Kind::Moment => SyntaxKind(8),
            Kind::Equals => SyntaxKind(9),
            Kind::Dot => SyntaxKind(10),
            Kind::Comma => SyntaxKind(11),
            Kind::LeftBracket => SyntaxKind(12),
            Kind::RightBracket => SyntaxKind(13),
            Kind::LeftBrace => SyntaxKind(14),
            Kind::RightBrace => SyntaxKind(15),
            Kind::LeftParen => SyntaxKind(16),
            Kind::RightParen => SyntaxKind(17),
            Kind::Unknown => SyntaxKind(18),
            Kind::Error => SyntaxKind(19),
            Kind::Document => SyntaxKind(20),
            Kind::Table => SyntaxKind(21),
            Kind::ArrayTable => SyntaxKind(22),
            Kind::Header => SyntaxKind(23),
            Kind::ArrayHeader => SyntaxKind(24),
            Kind::Entry => SyntaxKind(25),
            Kind::Key => SyntaxKind(26),
            Kind::BareKey => SyntaxKind(27),
            Kind::QuotedKey => SyntaxKind(28),
            Kind::Note => SyntaxKind(29),
            Kind::TextLiteral => SyntaxKind(30),
            Kind::IntegerLiteral => SyntaxKind(31),
            Kind::FloatLiteral => SyntaxKind(32),
            Kind::BooleanLiteral => SyntaxKind(33),
            Kind::MomentLiteral => SyntaxKind(34),
            Kind::Array => SyntaxKind(35),
            Kind::InlineTable => SyntaxKind(36),
            Kind::Reference => SyntaxKind(37),
            Kind::Call => SyntaxKind(38),
            Kind::Arguments => SyntaxKind(39),
        }
    }

    fn kind_name(kind: Kind) -> &'static str {
        match kind {
            Kind::Whitespace => "WHITESPACE",
            Kind::Newline => "NEWLINE",
            Kind::Comment => "COMMENT",
            Kind::Name => "NAME",
            Kind::Text => "TEXT",
            Kind::Integer => "INTEGER",
            Kind::Float => "FLOAT",
            Kind::Boolean => "BOOLEAN",
            Kind::Moment => "MOMENT",
            Kind::Equals => "EQUALS",
            Kind::Dot => "DOT",
            Kind::Comma => "COMMA",
            Kind::LeftBracket => "LEFT_BRACKET",
            Kind::RightBracket => "RIGHT_BRACKET",
            Kind::LeftBrace => "LEFT_BRACE",
            Kind::RightBrace => "RIGHT_BRACE",
            Kind::LeftParen => "LEFT_PAREN",
            Kind::RightParen => "RIGHT_PAREN",
            Kind::Unknown => "UNKNOWN",
            Kind::Error => "ERROR",
            Kind::Document => "DOCUMENT",
            Kind::Table => "TABLE",
            Kind::ArrayTable => "ARRAY_TABLE",
            Kind::Header => "HEADER",
            Kind::ArrayHeader => "ARRAY_HEADER",
            Kind::Entry => "ENTRY",
            Kind::Key => "KEY",
            Kind::BareKey => "BARE_KEY",
            Kind::QuotedKey => "QUOTED_KEY",
            Kind::Note => "NOTE",
            Kind::TextLiteral => "TEXT_LITERAL",
            Kind::IntegerLiteral => "INTEGER_LITERAL",
            Kind::FloatLiteral => "FLOAT_LITERAL",
            Kind::BooleanLiteral => "BOOLEAN_LITERAL",
            Kind::MomentLiteral => "MOMENT_LITERAL",
            Kind::Array => "ARRAY",
            Kind::InlineTable => "INLINE_TABLE",
            Kind::Reference => "REFERENCE",
            Kind::Call => "CALL",
            Kind::Arguments => "ARGUMENTS",
        }
    }
}

/// The kinds of the tokens that may stand anywhere.
pub const TRIVIA: &[Kind] = &[Kind::Whitespace, Kind::Newline, Kind::Comment];

/// The kind of the node of a whole text.
pub const ROOT: Kind = Kind::Document;

fn kind_in_block_0(raw: u16) -> Kind
    ensures { result ≡ block_kind_0 raw }
{
    match raw {
        0 => Kind::Whitespace,
        1 => Kind::Newline,
        2 => Kind::Comment,
        3 => Kind::Name,
        4 => Kind::Text,
        5 => Kind::Integer,
        6 => Kind::Float,
        7 => Kind::Boolean,
        8 => Kind::Moment,
        9 => Kind::Equals,
        10 => Kind::Dot,
        11 => Kind::Comma,
        12 => Kind::LeftBracket,
        13 => Kind::RightBracket,
        14 => Kind::LeftBrace,
        15 => Kind::RightBrace,
        16 => Kind::LeftParen,
        17 => Kind::RightParen,
        18 => Kind::Unknown,
        20 => Kind::Document,
        21 => Kind::Table,
        22 => Kind::ArrayTable,
        23 => Kind::Header,
        24 => Kind::ArrayHeader,
        25 => Kind::Entry,
        26 => Kind::Key,
        27 => Kind::BareKey,
        28 => Kind::QuotedKey,
        29 => Kind::Note,
        30 => Kind::TextLiteral,
        31 => Kind::IntegerLiteral,
        _ => Kind::Error,
    }
}

fn kind_in_block_1(raw: u16) -> Kind
    ensures { result ≡ block_kind_1 raw }
{
    match raw {
        32 => Kind::FloatLiteral,
        33 => Kind::BooleanLiteral,
        34 => Kind::MomentLiteral,
        35 => Kind::Array,
        36 => Kind::InlineTable,
        37 => Kind::Reference,
        38 => Kind::Call,
        39 => Kind::Arguments,
        _ => Kind::Error,
    }
}

impl Kind {
    ghost use Rattle.std.specs.Prelude.{◌≡◌};
    ghost use Rattle.grammar_sample.specs.Kinds.{is_keyword, is_punct, keyword_of};

    /// Whether its tokens are always one word.
    pub fn is_keyword(self) -> bool
        ensures { result ≡ is_keyword self }
    {
        match self {
            _ => false,
        }
    }

    /// Whether its tokens always have one text that is no word.
    pub fn is_punct(self) -> bool
        ensures { result ≡ is_punct self }
    {
        match self {
            Kind::Equals => true,
            Kind::Dot => true,
            Kind::Comma => true,
            Kind::LeftBracket => true,
            Kind::RightBracket => true,
            Kind::LeftBrace => true,
            Kind::RightBrace => true,
            Kind::LeftParen => true,
            Kind::RightParen => true,
            _ => false,
        }
    }

    /// The kind of the tokens that are always this word.
    pub fn from_keyword(text: &str) -> Option<Kind>
        ensures { result ≡ keyword_of text.now }
    {
        None
    }
}

/// The kind of a token by the text that it always has.
#[macro_export]
macro_rules! T {
    [=] => { $crate::kinds::Kind::Equals };
    [.] => { $crate::kinds::Kind::Dot };
    [,] => { $crate::kinds::Kind::Comma };
    ['['] => { $crate::kinds::Kind::LeftBracket };
    [']'] => { $crate::kinds::Kind::RightBracket };
    ['{'] => { $crate::kinds::Kind::LeftBrace };
    ['}'] => { $crate::kinds::Kind::RightBrace };
    ['('] => { $crate::kinds::Kind::LeftParen };
    [')'] => { $crate::kinds::Kind::RightParen };
}
