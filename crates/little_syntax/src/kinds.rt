// Written by rowan_grammar from little.ungram: change that, and not this file.
//! The kinds of the tokens and nodes of Little.
ghost use Rattle.std.specs.Prelude.{◌≡◌};
ghost use Rattle.little_syntax.specs.Kinds.{block_kind_0, block_kind_1};

use rowan::{Language, SyntaxKind};

/// The language.
#[derive(Clone, Copy, PartialEq, Eq, PartialOrd, Ord, Hash, Debug)]
pub struct Little;

/// The kind of a token or a node.
#[derive(Clone, Copy, PartialEq, Eq, PartialOrd, Ord, Hash, Debug)]
pub enum Kind {
    Whitespace = 0,
    Comment = 1,
    Number = 2,
    Name = 3,
    Let = 4,
    Fn = 5,
    If = 6,
    Else = 7,
    Open = 8,
    Close = 9,
    LBrace = 10,
    RBrace = 11,
    Comma = 12,
    Semi = 13,
    Assign = 14,
    Equal = 15,
    Less = 16,
    Plus = 17,
    Minus = 18,
    Star = 19,
    Slash = 20,
    Not = 21,
    Unknown = 22,
    Error = 23,
    Program = 24,
    Function = 25,
    Parameters = 26,
    LetStatement = 27,
    IfStatement = 28,
    Block = 29,
    ExprStatement = 30,
    Assignment = 31,
    Comparison = 32,
    Sum = 33,
    Product = 34,
    Prefix = 35,
    Call = 36,
    Arguments = 37,
    Literal = 38,
    Variable = 39,
    Group = 40,
}

impl Language for Little {
    type Kind = Kind;

    ghost use Rattle.little_syntax.specs.Kinds.{kind_of, name_of, number_of};

    ghost meaning = { kind_of };

    ghost name = { name_of };

    ghost code = { number_of };

    fn kind_from_raw(raw: SyntaxKind) -> Kind {
        if raw.0 < 32 {
            kind_in_block_0(raw.0)
        } else {
            kind_in_block_1(raw.0)
        }
    }

    fn kind_to_raw(kind: Kind) -> SyntaxKind {
        match kind {
            Kind::Whitespace => SyntaxKind(0),
            Kind::Comment => SyntaxKind(1),
            Kind::Number => SyntaxKind(2),
            Kind::Name => SyntaxKind(3),
            Kind::Let => SyntaxKind(4),
            Kind::Fn => SyntaxKind(5),
            Kind::If => SyntaxKind(6),
            Kind::Else => SyntaxKind(7),
            Kind::Open => SyntaxKind(8),
            Kind::Close => SyntaxKind(9),
            Kind::LBrace => SyntaxKind(10),
            Kind::RBrace => SyntaxKind(11),
            Kind::Comma => SyntaxKind(12),
            Kind::Semi => SyntaxKind(13),
            Kind::Assign => SyntaxKind(14),
            Kind::Equal => SyntaxKind(15),
            Kind::Less => SyntaxKind(16),
            Kind::Plus => SyntaxKind(17),
            Kind::Minus => SyntaxKind(18),
            Kind::Star => SyntaxKind(19),
            Kind::Slash => SyntaxKind(20),
            Kind::Not => SyntaxKind(21),
            Kind::Unknown => SyntaxKind(22),
            Kind::Error => SyntaxKind(23),
            Kind::Program => SyntaxKind(24),
            Kind::Function => SyntaxKind(25),
            Kind::Parameters => SyntaxKind(26),
            Kind::LetStatement => SyntaxKind(27),
            Kind::IfStatement => SyntaxKind(28),
            Kind::Block => SyntaxKind(29),
            Kind::ExprStatement => SyntaxKind(30),
            Kind::Assignment => SyntaxKind(31),
            Kind::Comparison => SyntaxKind(32),
            Kind::Sum => SyntaxKind(33),
            Kind::Product => SyntaxKind(34),
            Kind::Prefix => SyntaxKind(35),
            Kind::Call => SyntaxKind(36),
            Kind::Arguments => SyntaxKind(37),
            Kind::Literal => SyntaxKind(38),
            Kind::Variable => SyntaxKind(39),
            Kind::Group => SyntaxKind(40),
        }
    }

    fn kind_name(kind: Kind) -> &'static str {
        match kind {
            Kind::Whitespace => "WHITESPACE",
            Kind::Comment => "COMMENT",
            Kind::Number => "NUMBER",
            Kind::Name => "NAME",
            Kind::Let => "LET",
            Kind::Fn => "FN",
            Kind::If => "IF",
            Kind::Else => "ELSE",
            Kind::Open => "OPEN",
            Kind::Close => "CLOSE",
            Kind::LBrace => "L_BRACE",
            Kind::RBrace => "R_BRACE",
            Kind::Comma => "COMMA",
            Kind::Semi => "SEMI",
            Kind::Assign => "ASSIGN",
            Kind::Equal => "EQUAL",
            Kind::Less => "LESS",
            Kind::Plus => "PLUS",
            Kind::Minus => "MINUS",
            Kind::Star => "STAR",
            Kind::Slash => "SLASH",
            Kind::Not => "NOT",
            Kind::Unknown => "UNKNOWN",
            Kind::Error => "ERROR",
            Kind::Program => "PROGRAM",
            Kind::Function => "FUNCTION",
            Kind::Parameters => "PARAMETERS",
            Kind::LetStatement => "LET_STATEMENT",
            Kind::IfStatement => "IF_STATEMENT",
            Kind::Block => "BLOCK",
            Kind::ExprStatement => "EXPR_STATEMENT",
            Kind::Assignment => "ASSIGNMENT",
            Kind::Comparison => "COMPARISON",
            Kind::Sum => "SUM",
            Kind::Product => "PRODUCT",
            Kind::Prefix => "PREFIX",
            Kind::Call => "CALL",
            Kind::Arguments => "ARGUMENTS",
            Kind::Literal => "LITERAL",
            Kind::Variable => "VARIABLE",
            Kind::Group => "GROUP",
        }
    }
}

/// The kinds of the tokens that may stand anywhere.
pub const TRIVIA: &[Kind] = &[Kind::Whitespace, Kind::Comment];

/// The kind of the node of a whole text.
pub const ROOT: Kind = Kind::Program;

/// The texts of tokens that always have one, the longest first.
pub const TEXTS: [(&str, Kind); 18] = [
    ("else", Kind::Else),
    ("let", Kind::Let),
    ("fn", Kind::Fn),
    ("if", Kind::If),
    ("==", Kind::Equal),
    ("(", Kind::Open),
    (")", Kind::Close),
    ("{", Kind::LBrace),
    ("}", Kind::RBrace),
    (",", Kind::Comma),
    (";", Kind::Semi),
    ("=", Kind::Assign),
    ("<", Kind::Less),
    ("+", Kind::Plus),
    ("-", Kind::Minus),
    ("*", Kind::Star),
    ("/", Kind::Slash),
    ("!", Kind::Not),
];

fn kind_in_block_0(raw: u16) -> Kind
    ensures { result ≡ block_kind_0 raw }
{
    match raw {
        0 => Kind::Whitespace,
        1 => Kind::Comment,
        2 => Kind::Number,
        3 => Kind::Name,
        4 => Kind::Let,
        5 => Kind::Fn,
        6 => Kind::If,
        7 => Kind::Else,
        8 => Kind::Open,
        9 => Kind::Close,
        10 => Kind::LBrace,
        11 => Kind::RBrace,
        12 => Kind::Comma,
        13 => Kind::Semi,
        14 => Kind::Assign,
        15 => Kind::Equal,
        16 => Kind::Less,
        17 => Kind::Plus,
        18 => Kind::Minus,
        19 => Kind::Star,
        20 => Kind::Slash,
        21 => Kind::Not,
        22 => Kind::Unknown,
        24 => Kind::Program,
        25 => Kind::Function,
        26 => Kind::Parameters,
        27 => Kind::LetStatement,
        28 => Kind::IfStatement,
        29 => Kind::Block,
        30 => Kind::ExprStatement,
        31 => Kind::Assignment,
        _ => Kind::Error,
    }
}

fn kind_in_block_1(raw: u16) -> Kind
    ensures { result ≡ block_kind_1 raw }
{
    match raw {
        32 => Kind::Comparison,
        33 => Kind::Sum,
        34 => Kind::Product,
        35 => Kind::Prefix,
        36 => Kind::Call,
        37 => Kind::Arguments,
        38 => Kind::Literal,
        39 => Kind::Variable,
        40 => Kind::Group,
        _ => Kind::Error,
    }
}

impl Kind {
    ghost use Rattle.std.specs.Prelude.{◌≡◌};
    ghost use Rattle.little_syntax.specs.Kinds.{is_keyword, is_punct, keyword_of, sign_of};

    /// Whether its tokens are always one word.
    pub fn is_keyword(self) -> bool
        ensures { result ≡ is_keyword self }
    {
        match self {
            Kind::Let => true,
            Kind::Fn => true,
            Kind::If => true,
            Kind::Else => true,
            _ => false,
        }
    }

    /// Whether its tokens always have one text that is no word.
    pub fn is_punct(self) -> bool
        ensures { result ≡ is_punct self }
    {
        match self {
            Kind::Open => true,
            Kind::Close => true,
            Kind::LBrace => true,
            Kind::RBrace => true,
            Kind::Comma => true,
            Kind::Semi => true,
            Kind::Assign => true,
            Kind::Equal => true,
            Kind::Less => true,
            Kind::Plus => true,
            Kind::Minus => true,
            Kind::Star => true,
            Kind::Slash => true,
            Kind::Not => true,
            _ => false,
        }
    }

    /// The kind of the tokens that are always this word.
    pub fn from_keyword(text: &str) -> Option<Kind>
        ensures { result ≡ keyword_of text.now }
    {
        if text == "let" {
            return Some(Kind::Let);
        }
        if text == "fn" {
            return Some(Kind::Fn);
        }
        if text == "if" {
            return Some(Kind::If);
        }
        if text == "else" {
            return Some(Kind::Else);
        }
        None
    }

    /// The kind and the length, in bytes, of the longest of these texts with which a text begins:
    /// those of tokens that always have one, and no words.
    pub fn from_start(text: &str) -> Option<(Kind, usize)>
        ensures { result ≡ sign_of text.now }
    {
        let bytes = text.as_bytes();
        if bytes.starts_with(b"==") {
            return Some((Kind::Equal, 2));
        }
        if bytes.starts_with(b"(") {
            return Some((Kind::Open, 1));
        }
        if bytes.starts_with(b")") {
            return Some((Kind::Close, 1));
        }
        if bytes.starts_with(b"{") {
            return Some((Kind::LBrace, 1));
        }
        if bytes.starts_with(b"}") {
            return Some((Kind::RBrace, 1));
        }
        if bytes.starts_with(b",") {
            return Some((Kind::Comma, 1));
        }
        if bytes.starts_with(b";") {
            return Some((Kind::Semi, 1));
        }
        if bytes.starts_with(b"=") {
            return Some((Kind::Assign, 1));
        }
        if bytes.starts_with(b"<") {
            return Some((Kind::Less, 1));
        }
        if bytes.starts_with(b"+") {
            return Some((Kind::Plus, 1));
        }
        if bytes.starts_with(b"-") {
            return Some((Kind::Minus, 1));
        }
        if bytes.starts_with(b"*") {
            return Some((Kind::Star, 1));
        }
        if bytes.starts_with(b"/") {
            return Some((Kind::Slash, 1));
        }
        if bytes.starts_with(b"!") {
            return Some((Kind::Not, 1));
        }
        None
    }
}

/// The kind of a token by the text that it always has.
#[macro_export]
macro_rules! T {
    [let] => { $crate::kinds::Kind::Let };
    [fn] => { $crate::kinds::Kind::Fn };
    [if] => { $crate::kinds::Kind::If };
    [else] => { $crate::kinds::Kind::Else };
    ['('] => { $crate::kinds::Kind::Open };
    [')'] => { $crate::kinds::Kind::Close };
    ['{'] => { $crate::kinds::Kind::LBrace };
    ['}'] => { $crate::kinds::Kind::RBrace };
    [,] => { $crate::kinds::Kind::Comma };
    [;] => { $crate::kinds::Kind::Semi };
    [=] => { $crate::kinds::Kind::Assign };
    [==] => { $crate::kinds::Kind::Equal };
    [<] => { $crate::kinds::Kind::Less };
    [+] => { $crate::kinds::Kind::Plus };
    [-] => { $crate::kinds::Kind::Minus };
    [*] => { $crate::kinds::Kind::Star };
    [/] => { $crate::kinds::Kind::Slash };
    [!] => { $crate::kinds::Kind::Not };
}
