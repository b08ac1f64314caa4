// Written by rowan_grammar from arithmetic.ungram: change that, and not this file.
//! The kinds of the tokens and nodes of Arithmetic.
use rowan::{Language, SyntaxKind};

/// The language of sums and products.
#[derive(Clone, Copy, PartialEq, Eq, PartialOrd, Ord, Hash, Debug)]
pub struct Arithmetic;

/// The kind of a token or a node.
#[derive(Clone, Copy, PartialEq, Eq, PartialOrd, Ord, Hash, Debug)]
pub enum Kind {
    /// A space.
    Space = 0,
    /// Digits.
    Number = 1,
    Plus = 2,
    Star = 3,
    Open = 4,
    Close = 5,
    /// Any other character, and a node where an operand is missing.
    Error = 6,
    /// A node of a number.
    Literal = 7,
    /// A node from a parenthesis to the one that closes it.
    Group = 8,
    /// Two factors and the star between them.
    Product = 9,
    /// Two summands and the plus sign between them.
    Sum = 10,
    /// The node of the whole text.
    Root = 11,
}

impl Language for Arithmetic {
    type Kind = Kind;

    ghost use Rattle.arithmetic_syntax.specs.Kinds.{kind_of, name_of, number_of};

    ghost meaning = { kind_of };

    ghost name = { name_of };

    ghost code = { number_of };

    fn kind_from_raw(raw: SyntaxKind) -> Kind {
        match raw.0 {
            0 => Kind::Space,
            1 => Kind::Number,
            2 => Kind::Plus,
            3 => Kind::Star,
            4 => Kind::Open,
            5 => Kind::Close,
            7 => Kind::Literal,
            8 => Kind::Group,
            9 => Kind::Product,
            10 => Kind::Sum,
            11 => Kind::Root,
            _ => Kind::Error,
        }
    }

    fn kind_to_raw(kind: Kind) -> SyntaxKind {
        match kind {
            Kind::Space => SyntaxKind(0),
            Kind::Number => SyntaxKind(1),
            Kind::Plus => SyntaxKind(2),
            Kind::Star => SyntaxKind(3),
            Kind::Open => SyntaxKind(4),
            Kind::Close => SyntaxKind(5),
            Kind::Error => SyntaxKind(6),
            Kind::Literal => SyntaxKind(7),
            Kind::Group => SyntaxKind(8),
            Kind::Product => SyntaxKind(9),
            Kind::Sum => SyntaxKind(10),
            Kind::Root => SyntaxKind(11),
        }
    }

    fn kind_name(kind: Kind) -> &'static str {
        match kind {
            Kind::Space => "SPACE",
            Kind::Number => "NUMBER",
            Kind::Plus => "PLUS",
            Kind::Star => "STAR",
            Kind::Open => "OPEN",
            Kind::Close => "CLOSE",
            Kind::Error => "ERROR",
            Kind::Literal => "LITERAL",
            Kind::Group => "GROUP",
            Kind::Product => "PRODUCT",
            Kind::Sum => "SUM",
            Kind::Root => "ROOT",
        }
    }
}

/// The kinds of the tokens that may stand anywhere.
pub const TRIVIA: &[Kind] = &[Kind::Space];

/// The kind of the node of a whole text.
pub const ROOT: Kind = Kind::Root;
