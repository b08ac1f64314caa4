// Written by rowan_grammar from settings.ungram: change that, and not this file.
//! The kinds of the tokens and nodes of Settings.
use rowan::{Language, SyntaxKind};

/// The language of the guide: settings, one a line, in sections.
#[derive(Clone, Copy, PartialEq, Eq, PartialOrd, Ord, Hash, Debug)]
pub struct Settings;

/// The kind of a token or a node.
#[derive(Clone, Copy, PartialEq, Eq, PartialOrd, Ord, Hash, Debug)]
pub enum Kind {
    /// Spaces and tabs, and a line with nothing else.
    Whitespace = 0,
    /// From `#` to the end of the line. With the line's end, if nothing stands before it in the line.
    Comment = 1,
    /// The end of a line with something in it.
    Newline = 2,
    /// A word at the start of a line.
    Key = 3,
    /// Any other word.
    Name = 4,
    Number = 5,
    /// A text in quotes.
    Text = 6,
    True = 7,
    False = 8,
    Equals = 9,
    Open = 10,
    Close = 11,
    /// Any other character, and a text without its end.
    Unknown = 12,
    Error = 13,
    /// All entries and sections.
    File = 14,
    /// A header with the entries below it.
    Section = 15,
    /// The name of a section, in brackets.
    Header = 16,
    /// A key with its value.
    Entry = 17,
    /// The value of an entry.
    Value = 18,
}

impl Language for Settings {
    type Kind = Kind;

    ghost use Rattle.guide_language.specs.Kinds.{kind_of, name_of, number_of};

    ghost meaning = { kind_of };

    ghost name = { name_of };

    ghost code = { number_of };

    fn kind_from_raw(raw: SyntaxKind) -> Kind {
        match raw.0 {
            0 => Kind::Whitespace,
            1 => Kind::Comment,
            2 => Kind::Newline,
            3 => Kind::Key,
            4 => Kind::Name,
            5 => Kind::Number,
            6 => Kind::Text,
            7 => Kind::True,
            8 => Kind::False,
            9 => Kind::Equals,
            10 => Kind::Open,
            11 => Kind::Close,
            12 => Kind::Unknown,
            14 => Kind::File,
            15 => Kind::Section,
            16 => Kind::Header,
            17 => Kind::Entry,
            18 => Kind::Value,
            _ => Kind::Error,
        }
    }

    fn kind_to_raw(kind: Kind) -> SyntaxKind {
        match kind {
            Kind::Whitespace => SyntaxKind(0),
            Kind::Comment => SyntaxKind(1),
            Kind::Newline => SyntaxKind(2),
            Kind::Key => SyntaxKind(3),
            Kind::Name => SyntaxKind(4),
            Kind::Number => SyntaxKind(5),
            Kind::Text => SyntaxKind(6),
            Kind::True => SyntaxKind(7),
            Kind::False => SyntaxKind(8),
            Kind::Equals => SyntaxKind(9),
            Kind::Open => SyntaxKind(10),
            Kind::Close => SyntaxKind(11),
            Kind::Unknown => SyntaxKind(12),
            Kind::Error => SyntaxKind(13),
            Kind::File => SyntaxKind(14),
            Kind::Section => SyntaxKind(15),
            Kind::Header => SyntaxKind(16),
            Kind::Entry => SyntaxKind(17),
            Kind::Value => SyntaxKind(18),
        }
    }

    fn kind_name(kind: Kind) -> &'static str {
        match kind {
            Kind::Whitespace => "WHITESPACE",
            Kind::Comment => "COMMENT",
            Kind::Newline => "NEWLINE",
            Kind::Key => "KEY",
            Kind::Name => "NAME",
            Kind::Number => "NUMBER",
            Kind::Text => "TEXT",
            Kind::True => "TRUE",
            Kind::False => "FALSE",
            Kind::Equals => "EQUALS",
            Kind::Open => "OPEN",
            Kind::Close => "CLOSE",
            Kind::Unknown => "UNKNOWN",
            Kind::Error => "ERROR",
            Kind::File => "FILE",
            Kind::Section => "SECTION",
            Kind::Header => "HEADER",
            Kind::Entry => "ENTRY",
            Kind::Value => "VALUE",
        }
    }
}

/// The kinds of the tokens that may stand anywhere.
pub const TRIVIA: &[Kind] = &[Kind::Whitespace, Kind::Comment];

/// The kind of the node of a whole text.
pub const ROOT: Kind = Kind::File;

/// The texts of tokens that always have one, the longest first.
pub const TEXTS: [(&str, Kind); 5] = [
    ("false", Kind::False),
    ("true", Kind::True),
    ("=", Kind::Equals),
    ("[", Kind::Open),
    ("]", Kind::Close),
];

impl Kind {
    ghost use Rattle.std.specs.Prelude.{◌≡◌};
    ghost use Rattle.guide_language.specs.Kinds.{is_keyword, is_punct, keyword_of, sign_of};

    /// Whether its tokens are always one word.
    pub fn is_keyword(self) -> bool
        ensures { result ≡ is_keyword self }
    {
        match self {
            Kind::True => true,
            Kind::False => true,
            _ => false,
        }
    }

    /// Whether its tokens always have one text that is no word.
    pub fn is_punct(self) -> bool
        ensures { result ≡ is_punct self }
    {
        match self {
            Kind::Equals => true,
            Kind::Open => true,
            Kind::Close => true,
            _ => false,
        }
    }

    /// The kind of the tokens that are always this word.
    pub fn from_keyword(text: &str) -> Option<Kind>
        ensures { result ≡ keyword_of text.now }
    {
        if text == "true" {
            return Some(Kind::True);
        }
        if text == "false" {
            return Some(Kind::False);
        }
        None
    }

    /// The kind and the length, in bytes, of the longest of these texts with which a text begins:
    /// those of tokens that always have one, and no words.
    pub fn from_start(text: &str) -> Option<(Kind, usize)>
        ensures { result ≡ sign_of text.now }
    {
        let bytes = text.as_bytes();
        if bytes.starts_with(b"=") {
            return Some((Kind::Equals, 1));
        }
        if bytes.starts_with(b"[") {
            return Some((Kind::Open, 1));
        }
        if bytes.starts_with(b"]") {
            return Some((Kind::Close, 1));
        }
        None
    }
}

/// The kind of a token by the text that it always has.
#[macro_export]
macro_rules! T {
    [true] => { $crate::kinds::Kind::True };
    [false] => { $crate::kinds::Kind::False };
    [=] => { $crate::kinds::Kind::Equals };
    ['['] => { $crate::kinds::Kind::Open };
    [']'] => { $crate::kinds::Kind::Close };
}
