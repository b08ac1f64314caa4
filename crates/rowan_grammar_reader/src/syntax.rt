// Written by rowan_grammar from grammar.ungram: change that, and not this file.
//! The kinds of the tokens and nodes of Grammars.
use rowan::{Language, SyntaxKind};

/// The language of grammars.
#[derive(Clone, Copy, PartialEq, Eq, PartialOrd, Ord, Hash, Debug)]
pub struct Grammars;

/// The kind of a token or a node.
#[derive(Clone, Copy, PartialEq, Eq, PartialOrd, Ord, Hash, Debug)]
pub enum Kind {
    /// A name, or the word of a label.
    Word = 0,
    /// The word that begins a line of the head, as `token`.
    Keyword = 1,
    /// A text in single quotes.
    Literal = 2,
    /// A quote whose text does not end in its line.
    Unclosed = 3,
    /// A line from `///` on.
    Doc = 4,
    Equals = 5,
    Bar = 6,
    Star = 7,
    Question = 8,
    Open = 9,
    Close = 10,
    Colon = 11,
    /// A character that no other token has.
    Unknown = 12,
    Whitespace = 13,
    /// A line from `//` on.
    Comment = 14,
    /// A line of the head.
    Head = 15,
    /// A node or a choice.
    Rule = 16,
    /// Alternatives: also where there is one alone.
    Choice = 17,
    /// One alternative.
    Sequence = 18,
    /// What may stand at a place, and how often.
    Part = 19,
    /// What names the accessor of a part.
    Label = 20,
    /// Alternatives in parentheses.
    Group = 21,
    /// A node around what has no place where it stands.
    Error = 22,
    /// A whole grammar.
    Root = 23,
}

impl Language for Grammars {
    type Kind = Kind;

    ghost use Rattle.rowan_grammar_reader.specs.Kinds.{kind_of, name_of, number_of};

    ghost meaning = { kind_of };

    ghost name = { name_of };

    ghost code = { number_of };

    fn kind_from_raw(raw: SyntaxKind) -> Kind {
        match raw.0 {
            0 => Kind::Word,
            1 => Kind::Keyword,
            2 => Kind::Literal,
            3 => Kind::Unclosed,
            4 => Kind::Doc,
            5 => Kind::Equals,
            6 => Kind::Bar,
            7 => Kind::Star,
            8 => Kind::Question,
            9 => Kind::Open,
            10 => Kind::Close,
            11 => Kind::Colon,
            12 => Kind::Unknown,
            13 => Kind::Whitespace,
            14 => Kind::Comment,
            15 => Kind::Head,
            16 => Kind::Rule,
            17 => Kind::Choice,
            18 => Kind::Sequence,
            19 => Kind::Part,
            20 => Kind::Label,
            21 => Kind::Group,
            23 => Kind::Root,
            _ => Kind::Error,
        }
    }

    fn kind_to_raw(kind: Kind) -> SyntaxKind {
        match kind {
            Kind::Word => SyntaxKind(0),
            Kind::Keyword => SyntaxKind(1),
            Kind::Literal => SyntaxKind(2),
            Kind::Unclosed => SyntaxKind(3),
            Kind::Doc => SyntaxKind(4),
            Kind::Equals => SyntaxKind(5),
            Kind::Bar => SyntaxKind(6),
            Kind::Star => SyntaxKind(7),
            Kind::Question => SyntaxKind(8),
            Kind::Open => SyntaxKind(9),
            Kind::Close => SyntaxKind(10),
            Kind::Colon => SyntaxKind(11),
            Kind::Unknown => SyntaxKind(12),
            Kind::Whitespace => SyntaxKind(13),
            Kind::Comment => SyntaxKind(14),
            Kind::Head => SyntaxKind(15),
            Kind::Rule => SyntaxKind(16),
            Kind::Choice => SyntaxKind(17),
            Kind::Sequence => SyntaxKind(18),
            Kind::Part => SyntaxKind(19),
            Kind::Label => SyntaxKind(20),
            Kind::Group => SyntaxKind(21),
            Kind::Error => SyntaxKind(22),
            Kind::Root => SyntaxKind(23),
        }
    }

    fn kind_name(kind: Kind) -> &'static str {
        match kind {
            Kind::Word => "WORD",
            Kind::Keyword => "KEYWORD",
            Kind::Literal => "LITERAL",
            Kind::Unclosed => "UNCLOSED",
            Kind::Doc => "DOC",
            Kind::Equals => "EQUALS",
            Kind::Bar => "BAR",
            Kind::Star => "STAR",
            Kind::Question => "QUESTION",
            Kind::Open => "OPEN",
            Kind::Close => "CLOSE",
            Kind::Colon => "COLON",
            Kind::Unknown => "UNKNOWN",
            Kind::Whitespace => "WHITESPACE",
            Kind::Comment => "COMMENT",
            Kind::Head => "HEAD",
            Kind::Rule => "RULE",
            Kind::Choice => "CHOICE",
            Kind::Sequence => "SEQUENCE",
            Kind::Part => "PART",
            Kind::Label => "LABEL",
            Kind::Group => "GROUP",
            Kind::Error => "ERROR",
            Kind::Root => "ROOT",
        }
    }
}

/// The kinds of the tokens that may stand anywhere.
pub const TRIVIA: &[Kind] = &[Kind::Whitespace, Kind::Comment];

/// The kind of the node of a whole text.
pub const ROOT: Kind = Kind::Root;
