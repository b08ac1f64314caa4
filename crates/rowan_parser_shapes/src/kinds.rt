//! The kinds of sums and lists.
use rowan::{Language, SyntaxKind};

/// The language of sums and lists.
#[derive(Clone, Copy, PartialEq, Eq, PartialOrd, Ord, Hash, Debug)]
pub struct Sums;

/// The kind of a token or a node.
#[derive(Clone, Copy, PartialEq, Eq, PartialOrd, Ord, Hash, Debug)]
pub enum Kind {
    /// Digits.
    Number = 0,
    Plus = 1,
    Open = 2,
    Close = 3,
    Comma = 4,
    /// Any other character, and a node over what does not fit.
    Error = 5,
    /// A node over a number.
    Literal = 6,
    /// A node over two summands and the plus sign between them.
    Sum = 7,
    /// A node from a bracket to the one that closes it.
    Group = 8,
}

impl Language for Sums {
    type Kind = Kind;

    ghost use Rattle.rowan_parser_shapes.specs.Kinds.{kind_of, name_of, code_of};

    ghost meaning = { kind_of };

    ghost name = { name_of };

    ghost code = { code_of };

    fn kind_from_raw(raw: SyntaxKind) -> Kind {
        match raw.0 {
            0 => Kind::Number,
            1 => Kind::Plus,
            2 => Kind::Open,
            3 => Kind::Close,
            4 => Kind::Comma,
            6 => Kind::Literal,
            7 => Kind::Sum,
            8 => Kind::Group,
            _ => Kind::Error,
        }
    }

    fn kind_to_raw(kind: Kind) -> SyntaxKind {
        SyntaxKind(kind as u16)
    }

    fn kind_name(kind: Kind) -> &'static str {
        match kind {
            Kind::Number => "NUMBER",
            Kind::Plus => "PLUS",
            Kind::Open => "OPEN",
            Kind::Close => "CLOSE",
            Kind::Comma => "COMMA",
            Kind::Error => "ERROR",
            Kind::Literal => "LITERAL",
            Kind::Sum => "SUM",
            Kind::Group => "GROUP",
        }
    }
}
