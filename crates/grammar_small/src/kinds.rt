// Written by rowan_grammar from small.ungram: change that, and not this file.
//! The kinds of the tokens and nodes of Small.
use rowan::{Language, SyntaxKind};

/// The language.
#[derive(Clone, Copy, PartialEq, Eq, PartialOrd, Ord, Hash, Debug)]
pub struct Small;

/// The kind of a token or a node.
#[derive(Clone, Copy, PartialEq, Eq, PartialOrd, Ord, Hash, Debug)]
pub enum Kind {
    /// Spaces and line feeds.
    Space = 0,
    /// Digits.
    Number = 1,
    Plus = 2,
    Minus = 3,
    Dots = 4,
    Comma = 5,
    OpenParen = 6,
    CloseParen = 7,
    OpenBrace = 8,
    CloseBrace = 9,
    If = 10,
    Else = 11,
    /// Names that the written files need, and words of the language.
    String = 12,
    Eq = 13,
    Some = 14,
    Token_ = 15,
    /// A node around what has no place where it stands.
    Error = 16,
    /// The node of the whole text.
    Program = 17,
    /// A number.
    Literal = 18,
    /// A sum or a difference.
    Sum = 19,
    /// The numbers between two.
    Range = 20,
    /// A call, named by a trait.
    Fn = 21,
    /// An argument, named by a word of the language.
    Self_ = 22,
    /// Expressions in braces, named by a word of clauses.
    List = 23,
    /// One of two lists, or a list or nothing.
    Condition = 24,
    /// What may end a text, named by a type of the library.
    Option = 25,
}

impl Language for Small {
    type Kind = Kind;

    ghost use Rattle.grammar_small.specs.Kinds.{kind_of, name_of, number_of};

    ghost meaning = { kind_of };

    ghost name = { name_of };

    ghost code = { number_of };

    fn kind_from_raw(raw: SyntaxKind) -> Kind {
        match raw.0 {
            0 => Kind::Space,
            1 => Kind::Number,
            2 => Kind::Plus,
            3 => Kind::Minus,
            4 => Kind::Dots,
            5 => Kind::Comma,
            6 => Kind::OpenParen,
            7 => Kind::CloseParen,
            8 => Kind::OpenBrace,
            9 => Kind::CloseBrace,
            10 => Kind::If,
            11 => Kind::Else,
            12 => Kind::String,
            13 => Kind::Eq,
            14 => Kind::Some,
            15 => Kind::Token_,
            17 => Kind::Program,
            18 => Kind::Literal,
            19 => Kind::Sum,
            20 => Kind::Range,
            21 => Kind::Fn,
            22 => Kind::Self_,
            23 => Kind::List,
            24 => Kind::Condition,
            25 => Kind::Option,
            _ => Kind::Error,
        }
    }

    fn kind_to_raw(kind: Kind) -> SyntaxKind {
        match kind {
            Kind::Space => SyntaxKind(0),
            Kind::Number => SyntaxKind(1),
            Kind::Plus => SyntaxKind(2),
            Kind::Minus => SyntaxKind(3),
            Kind::Dots => SyntaxKind(4),
            Kind::Comma => SyntaxKind(5),
            Kind::OpenParen => SyntaxKind(6),
            Kind::CloseParen => SyntaxKind(7),
            Kind::OpenBrace => SyntaxKind(8),
            Kind::CloseBrace => SyntaxKind(9),
            Kind::If => SyntaxKind(10),
            Kind::Else => SyntaxKind(11),
            Kind::String => SyntaxKind(12),
            Kind::Eq => SyntaxKind(13),
            Kind::Some => SyntaxKind(14),
            Kind::Token_ => SyntaxKind(15),
            Kind::Error => SyntaxKind(16),
            Kind::Program => SyntaxKind(17),
            Kind::Literal => SyntaxKind(18),
            Kind::Sum => SyntaxKind(19),
            Kind::Range => SyntaxKind(20),
            Kind::Fn => SyntaxKind(21),
            Kind::Self_ => SyntaxKind(22),
            Kind::List => SyntaxKind(23),
            Kind::Condition => SyntaxKind(24),
            Kind::Option => SyntaxKind(25),
        }
    }

    fn kind_name(kind: Kind) -> &'static str {
        match kind {
            Kind::Space => "SPACE",
            Kind::Number => "NUMBER",
            Kind::Plus => "PLUS",
            Kind::Minus => "MINUS",
            Kind::Dots => "DOTS",
            Kind::Comma => "COMMA",
            Kind::OpenParen => "OPEN_PAREN",
            Kind::CloseParen => "CLOSE_PAREN",
            Kind::OpenBrace => "OPEN_BRACE",
            Kind::CloseBrace => "CLOSE_BRACE",
            Kind::If => "IF",
            Kind::Else => "ELSE",
            Kind::String => "STRING",
            Kind::Eq => "EQ",
            Kind::Some => "SOME",
            Kind::Token_ => "TOKEN",
            Kind::Error => "ERROR",
            Kind::Program => "PROGRAM",
            Kind::Literal => "LITERAL",
            Kind::Sum => "SUM",
            Kind::Range => "RANGE",
            Kind::Fn => "FN",
            Kind::Self_ => "SELF",
            Kind::List => "LIST",
            Kind::Condition => "CONDITION",
            Kind::Option => "OPTION",
        }
    }
}

/// The kinds of the tokens that may stand anywhere.
pub const TRIVIA: &[Kind] = &[Kind::Space];

/// The kind of the node of a whole text.
pub const ROOT: Kind = Kind::Program;

impl Kind {
    ghost use Rattle.std.specs.Prelude.{◌≡◌};
    ghost use Rattle.grammar_small.specs.Kinds.{is_keyword, is_punct, keyword_of};

    /// Whether its tokens are always one word.
    pub fn is_keyword(self) -> bool
        ensures { result ≡ is_keyword self }
    {
        match self {
            Kind::If => true,
            Kind::Else => true,
            _ => false,
        }
    }

    /// Whether its tokens always have one text that is no word.
    pub fn is_punct(self) -> bool
        ensures { result ≡ is_punct self }
    {
        match self {
            Kind::Plus => true,
            Kind::Minus => true,
            Kind::Dots => true,
            Kind::Comma => true,
            Kind::OpenParen => true,
            Kind::CloseParen => true,
            Kind::OpenBrace => true,
            Kind::CloseBrace => true,
            Kind::Eq => true,
            _ => false,
        }
    }

    /// The kind of the tokens that are always this word.
    pub fn from_keyword(text: &str) -> Option<Kind>
        ensures { result ≡ keyword_of text.now }
    {
        if text == "if" {
            return Some(Kind::If);
        }
        if text == "else" {
            return Some(Kind::Else);
        }
        None
    }
}

/// The kind of a token by the text that it always has.
#[macro_export]
macro_rules! T {
    [+] => { $crate::kinds::Kind::Plus };
    [-] => { $crate::kinds::Kind::Minus };
    [..] => { $crate::kinds::Kind::Dots };
    [,] => { $crate::kinds::Kind::Comma };
    ['('] => { $crate::kinds::Kind::OpenParen };
    [')'] => { $crate::kinds::Kind::CloseParen };
    ['{'] => { $crate::kinds::Kind::OpenBrace };
    ['}'] => { $crate::kinds::Kind::CloseBrace };
    [if] => { $crate::kinds::Kind::If };
    [else] => { $crate::kinds::Kind::Else };
    [=] => { $crate::kinds::Kind::Eq };
}
