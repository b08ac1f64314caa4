// Written by rowan_grammar from script.ungram: change that, and not this file.
//! The kinds of the tokens and nodes of Script.
ghost use Rattle.std.specs.Prelude.{◌≡◌};
ghost use Rattle.script_syntax.specs.Kinds.{block_kind_0, block_kind_1};

use rowan::{Language, SyntaxKind};
use rowan_parser::{TokenSet, token_set};

/// The language of scripts.
#[derive(Clone, Copy, PartialEq, Eq, PartialOrd, Ord, Hash, Debug)]
pub struct Script;

/// The kind of a token or a node. The kinds of tokens come first.
#[derive(Clone, Copy, PartialEq, Eq, PartialOrd, Ord, Hash, Debug)]
pub enum Kind {
    /// Spaces, tabs and line ends.
    Whitespace = 0,
    /// A comment from `//` to the end of its line, with nothing but white space before it.
    Comment = 1,
    /// The same behind something else in its line.
    Remark = 2,
    Name = 3,
    Number = 4,
    LetKw = 5,
    FnKw = 6,
    ReturnKw = 7,
    /// The name `union` where a declaration begins.
    UnionKw = 8,
    /// `>`, and so each of the next is one character.
    Gt = 9,
    Lt = 10,
    Eq = 11,
    Plus = 12,
    Minus = 13,
    Star = 14,
    Slash = 15,
    Comma = 16,
    Colon = 17,
    Semicolon = 18,
    LParen = 19,
    RParen = 20,
    LBrace = 21,
    RBrace = 22,
    OpenQuote = 23,
    CloseQuote = 24,
    /// Characters of a string that stand for themselves.
    StringText = 25,
    /// A backslash in a string, and the character behind it.
    Escape = 26,
    /// `${` in a string.
    HoleOpen = 27,
    /// The `}` that ends what `${` began.
    HoleClose = 28,
    /// Any other character.
    Unknown = 29,
    /// `>>`, and so each of the next is made of two tokens.
    Shr = 30,
    Shl = 31,
    GtEq = 32,
    LtEq = 33,
    EqEq = 34,
    /// A function, with the comments directly above it.
    Function = 35,
    Parameters = 36,
    Parameter = 37,
    /// A union, with the comments directly above it.
    Union = 38,
    Field = 39,
    Block = 40,
    Let = 41,
    Return = 42,
    /// Two operands and the operator between them.
    Binary = 43,
    Call = 44,
    Arguments = 45,
    /// An expression in parentheses.
    Group = 46,
    /// A string from its quote to the other one.
    Text = 47,
    /// `${`, an expression, and `}`.
    Hole = 48,
    /// A name that stands for a value.
    Reference = 49,
    Literal = 50,
    TypeName = 51,
    TypeArguments = 52,
    /// A node around what has no place where it stands.
    Error = 53,
    /// The node of a whole text: what `Parse::tree` makes of what `parse` answers.
    Root = 54,
}

impl Language for Script {
    type Kind = Kind;

    ghost use Rattle.script_syntax.specs.Kinds.{kind_of, name_of, number_of};

    ghost meaning = { kind_of };

    ghost name = { name_of };

    ghost code = { number_of };

    fn kind_from_raw(raw: SyntaxKind) -> Kind {
        if raw.0 < 32 {
            kind_in_block_0(raw.0)
        } else {
            kind_in_block_1(raw.0)
        }
    }

    fn kind_to_raw(kind: Kind) -> SyntaxKind {
        match kind {
            Kind::Whitespace => SyntaxKind(0),
            Kind::Comment => SyntaxKind(1),
            Kind::Remark => SyntaxKind(2),
            Kind::Name => SyntaxKind(3),
            Kind::Number => SyntaxKind(4),
            Kind::LetKw => SyntaxKind(5),
            Kind::FnKw => SyntaxKind(6),
            Kind::ReturnKw => SyntaxKind(7),
            Kind::UnionKw => SyntaxKind(8),
            Kind::Gt => SyntaxKind(9),
            Kind::Lt => SyntaxKind(10),
            Kind::Eq => SyntaxKind(11),
            Kind::Plus => SyntaxKind(12),
            Kind::Minus => SyntaxKind(13),
            Kind::Star => SyntaxKind(14),
            Kind::Slash => SyntaxKind(15),
            Kind::Comma => SyntaxKind(16),
            Kind::Colon => SyntaxKind(17),
            Kind::Semicolon => SyntaxKind(18),
            Kind::LParen => SyntaxKind(19),
            Kind::RParen => SyntaxKind(20),
            Kind::LBrace => SyntaxKind(21),
            Kind::RBrace => SyntaxKind(22),
            Kind::OpenQuote => SyntaxKind(23),
            Kind::CloseQuote => SyntaxKind(24),
            Kind::StringText => SyntaxKind(25),
            Kind::Escape => SyntaxKind(26),
            Kind::HoleOpen => SyntaxKind(27),
            Kind::HoleClose => SyntaxKind(28),
            Kind::Unknown => SyntaxKind(29),
            Kind::Shr => SyntaxKind(30),
            Kind::Shl => SyntaxKind(31),
            Kind::GtEq => SyntaxKind(32),
            Kind::LtEq => SyntaxKind(33),
            Kind::EqEq => SyntaxKind(34),
            Kind::Function => SyntaxKind(35),
            Kind::Parameters => SyntaxKind(36),
            Kind::Parameter => SyntaxKind(37),
            Kind::Union => SyntaxKind(38),
            Kind::Field => SyntaxKind(39),
            Kind::Block => SyntaxKind(40),
            Kind::Let => SyntaxKind(41),
            Kind::Return => SyntaxKind(42),
            Kind::Binary => SyntaxKind(43),
            Kind::Call => SyntaxKind(44),
            Kind::Arguments => SyntaxKind(45),
            Kind::Group => SyntaxKind(46),
            Kind::Text => SyntaxKind(47),
            Kind::Hole => SyntaxKind(48),
            Kind::Reference => SyntaxKind(49),
            Kind::Literal => SyntaxKind(50),
            Kind::TypeName => SyntaxKind(51),
            Kind::TypeArguments => SyntaxKind(52),
            Kind::Error => SyntaxKind(53),
            Kind::Root => SyntaxKind(54),
        }
    }

    fn kind_name(kind: Kind) -> &'static str {
        match kind {
            Kind::Whitespace => "WHITESPACE",
            Kind::Comment => "COMMENT",
            Kind::Remark => "REMARK",
            Kind::Name => "NAME",
            Kind::Number => "NUMBER",
            Kind::LetKw => "LET_KW",
            Kind::FnKw => "FN_KW",
            Kind::ReturnKw => "RETURN_KW",
            Kind::UnionKw => "UNION_KW",
            Kind::Gt => "GT",
            Kind::Lt => "LT",
            Kind::Eq => "EQ",
            Kind::Plus => "PLUS",
            Kind::Minus => "MINUS",
            Kind::Star => "STAR",
            Kind::Slash => "SLASH",
            Kind::Comma => "COMMA",
            Kind::Colon => "COLON",
            Kind::Semicolon => "SEMICOLON",
            Kind::LParen => "L_PAREN",
            Kind::RParen => "R_PAREN",
            Kind::LBrace => "L_BRACE",
            Kind::RBrace => "R_BRACE",
            Kind::OpenQuote => "OPEN_QUOTE",
            Kind::CloseQuote => "CLOSE_QUOTE",
            Kind::StringText => "STRING_TEXT",
            Kind::Escape => "ESCAPE",
            Kind::HoleOpen => "HOLE_OPEN",
            Kind::HoleClose => "HOLE_CLOSE",
            Kind::Unknown => "UNKNOWN",
            Kind::Shr => "SHR",
            Kind::Shl => "SHL",
            Kind::GtEq => "GT_EQ",
            Kind::LtEq => "LT_EQ",
            Kind::EqEq => "EQ_EQ",
            Kind::Function => "FUNCTION",
            Kind::Parameters => "PARAMETERS",
            Kind::Parameter => "PARAMETER",
            Kind::Union => "UNION",
            Kind::Field => "FIELD",
            Kind::Block => "BLOCK",
            Kind::Let => "LET",
            Kind::Return => "RETURN",
            Kind::Binary => "BINARY",
            Kind::Call => "CALL",
            Kind::Arguments => "ARGUMENTS",
            Kind::Group => "GROUP",
            Kind::Text => "TEXT",
            Kind::Hole => "HOLE",
            Kind::Reference => "REFERENCE",
            Kind::Literal => "LITERAL",
            Kind::TypeName => "TYPE_NAME",
            Kind::TypeArguments => "TYPE_ARGUMENTS",
            Kind::Error => "ERROR",
            Kind::Root => "ROOT",
        }
    }
}

/// The kinds of the tokens that may stand anywhere.
pub const TRIVIA: &[Kind] = &[Kind::Whitespace, Kind::Comment, Kind::Remark];

/// The kind of the node of a whole text.
pub const ROOT: Kind = Kind::Root;

/// What stands anywhere.
pub const BLANK: TokenSet = token_set![Kind::Whitespace, Kind::Comment, Kind::Remark];

/// What may end brackets.
pub const CLOSINGS: TokenSet = token_set![Kind::RParen, Kind::RBrace, Kind::HoleClose];

/// Where an element of a list ends.
pub const LIST_ENDS: TokenSet = token_set![
    Kind::Comma,
    Kind::RParen,
    Kind::RBrace,
    Kind::HoleClose
];

/// Where the statements of a block end.
pub const BLOCK_ENDS: TokenSet = token_set![Kind::RBrace, Kind::HoleClose];

/// Where a statement ends.
pub const STATEMENT_ENDS: TokenSet = token_set![Kind::Semicolon, Kind::RBrace, Kind::HoleClose];

/// How an operand begins.
pub const OPERANDS: TokenSet = token_set![
    Kind::Name,
    Kind::Number,
    Kind::OpenQuote,
    Kind::LParen,
    Kind::LBrace
];

/// How a statement begins that is no expression, but for a union.
pub const KEYWORDS: TokenSet = token_set![Kind::LetKw, Kind::FnKw, Kind::ReturnKw];

fn kind_in_block_0(raw: u16) -> Kind
    ensures { result ≡ block_kind_0 raw }
{
    match raw {
        0 => Kind::Whitespace,
        1 => Kind::Comment,
        2 => Kind::Remark,
        3 => Kind::Name,
        4 => Kind::Number,
        5 => Kind::LetKw,
        6 => Kind::FnKw,
        7 => Kind::ReturnKw,
        8 => Kind::UnionKw,
        9 => Kind::Gt,
        10 => Kind::Lt,
        11 => Kind::Eq,
        12 => Kind::Plus,
        13 => Kind::Minus,
        14 => Kind::Star,
        15 => Kind::Slash,
        16 => Kind::Comma,
        17 => Kind::Colon,
        18 => Kind::Semicolon,
        19 => Kind::LParen,
        20 => Kind::RParen,
        21 => Kind::LBrace,
        22 => Kind::RBrace,
        23 => Kind::OpenQuote,
        24 => Kind::CloseQuote,
        25 => Kind::StringText,
        26 => Kind::Escape,
        27 => Kind::HoleOpen,
        28 => Kind::HoleClose,
        29 => Kind::Unknown,
        30 => Kind::Shr,
        31 => Kind::Shl,
        _ => Kind::Error,
    }
}

fn kind_in_block_1(raw: u16) -> Kind
    ensures { result ≡ block_kind_1 raw }
{
    match raw {
        32 => Kind::GtEq,
        33 => Kind::LtEq,
        34 => Kind::EqEq,
        35 => Kind::Function,
        36 => Kind::Parameters,
        37 => Kind::Parameter,
        38 => Kind::Union,
        39 => Kind::Field,
        40 => Kind::Block,
        41 => Kind::Let,
        42 => Kind::Return,
        43 => Kind::Binary,
        44 => Kind::Call,
        45 => Kind::Arguments,
        46 => Kind::Group,
        47 => Kind::Text,
        48 => Kind::Hole,
        49 => Kind::Reference,
        50 => Kind::Literal,
        51 => Kind::TypeName,
        52 => Kind::TypeArguments,
        54 => Kind::Root,
        _ => Kind::Error,
    }
}

impl Kind {
    ghost use Rattle.std.specs.Prelude.{◌≡◌};
    ghost use Rattle.script_syntax.specs.Kinds.{is_keyword, is_punct, keyword_of, is_in_blank};
    ghost use Rattle.script_syntax.specs.Kinds.{is_in_closings, is_in_list_ends, is_in_block_ends};
    ghost use Rattle.script_syntax.specs.Kinds.{is_in_statement_ends, is_in_operands};
    ghost use Rattle.script_syntax.specs.Kinds.{is_in_keywords};

    /// Whether its tokens are always one word.
    pub fn is_keyword(self) -> bool
        ensures { result ≡ is_keyword self }
    {
        match self {
            Kind::LetKw => true,
            Kind::FnKw => true,
            Kind::ReturnKw => true,
            _ => false,
        }
    }

    /// Whether its tokens always have one text that is no word.
    pub fn is_punct(self) -> bool
        ensures { result ≡ is_punct self }
    {
        match self {
            Kind::Gt => true,
            Kind::Lt => true,
            Kind::Eq => true,
            Kind::Plus => true,
            Kind::Minus => true,
            Kind::Star => true,
            Kind::Slash => true,
            Kind::Comma => true,
            Kind::Colon => true,
            Kind::Semicolon => true,
            Kind::LParen => true,
            Kind::RParen => true,
            Kind::LBrace => true,
            Kind::RBrace => true,
            Kind::Shr => true,
            Kind::Shl => true,
            Kind::GtEq => true,
            Kind::LtEq => true,
            Kind::EqEq => true,
            _ => false,
        }
    }

    /// The kind of the tokens that are always this word.
    pub fn from_keyword(text: &str) -> Option<Kind>
        ensures { result ≡ keyword_of text.now }
    {
        if text == "let" {
            return Some(Kind::LetKw);
        }
        if text == "fn" {
            return Some(Kind::FnKw);
        }
        if text == "return" {
            return Some(Kind::ReturnKw);
        }
        None
    }

    /// Whether its tokens are in `BLANK`.
    #[tactic(auto, using(crate::proofs::SetLemmas::blank_has))]
    pub fn is_in_blank(self) -> bool
        ensures { result ≡ is_in_blank self }
    {
        let raw = Script::kind_to_raw(self);
        BLANK.contains(raw)
    }

    /// Whether its tokens are in `CLOSINGS`.
    #[tactic(auto, using(crate::proofs::SetLemmas::closings_has))]
    pub fn is_in_closings(self) -> bool
        ensures { result ≡ is_in_closings self }
    {
        let raw = Script::kind_to_raw(self);
        CLOSINGS.contains(raw)
    }

    /// Whether its tokens are in `LIST_ENDS`.
    #[tactic(auto, using(crate::proofs::SetLemmas::list_ends_has))]
    pub fn is_in_list_ends(self) -> bool
        ensures { result ≡ is_in_list_ends self }
    {
        let raw = Script::kind_to_raw(self);
        LIST_ENDS.contains(raw)
    }

    /// Whether its tokens are in `BLOCK_ENDS`.
    #[tactic(auto, using(crate::proofs::SetLemmas::block_ends_has))]
    pub fn is_in_block_ends(self) -> bool
        ensures { result ≡ is_in_block_ends self }
    {
        let raw = Script::kind_to_raw(self);
        BLOCK_ENDS.contains(raw)
    }

    /// Whether its tokens are in `STATEMENT_ENDS`.
    #[tactic(auto, using(crate::proofs::SetLemmas::statement_ends_has))]
    pub fn is_in_statement_ends(self) -> bool
        ensures { result ≡ is_in_statement_ends self }
    {
        let raw = Script::kind_to_raw(self);
        STATEMENT_ENDS.contains(raw)
    }

    /// Whether its tokens are in `OPERANDS`.
    #[tactic(auto, using(crate::proofs::SetLemmas::operands_has))]
    pub fn is_in_operands(self) -> bool
        ensures { result ≡ is_in_operands self }
    {
        let raw = Script::kind_to_raw(self);
        OPERANDS.contains(raw)
    }

    /// Whether its tokens are in `KEYWORDS`.
    #[tactic(auto, using(crate::proofs::SetLemmas::keywords_has))]
    pub fn is_in_keywords(self) -> bool
        ensures { result ≡ is_in_keywords self }
    {
        let raw = Script::kind_to_raw(self);
        KEYWORDS.contains(raw)
    }
}

/// The kind of a token by the text that it always has.
#[macro_export]
macro_rules! T {
    [let] => { $crate::kinds::Kind::LetKw };
    [fn] => { $crate::kinds::Kind::FnKw };
    [return] => { $crate::kinds::Kind::ReturnKw };
    [>] => { $crate::kinds::Kind::Gt };
    [<] => { $crate::kinds::Kind::Lt };
    [=] => { $crate::kinds::Kind::Eq };
    [+] => { $crate::kinds::Kind::Plus };
    [-] => { $crate::kinds::Kind::Minus };
    [*] => { $crate::kinds::Kind::Star };
    [/] => { $crate::kinds::Kind::Slash };
    [,] => { $crate::kinds::Kind::Comma };
    [:] => { $crate::kinds::Kind::Colon };
    [;] => { $crate::kinds::Kind::Semicolon };
    ['('] => { $crate::kinds::Kind::LParen };
    [')'] => { $crate::kinds::Kind::RParen };
    ['{'] => { $crate::kinds::Kind::LBrace };
    ['}'] => { $crate::kinds::Kind::RBrace };
    [>>] => { $crate::kinds::Kind::Shr };
    [<<] => { $crate::kinds::Kind::Shl };
    [>=] => { $crate::kinds::Kind::GtEq };
    [<=] => { $crate::kinds::Kind::LtEq };
    [==] => { $crate::kinds::Kind::EqEq };
}
