//! The kinds of s-expressions.
ghost use Rattle.std.specs.Prelude.{◌≡◌};
ghost use Rattle.rowan_sexp.specs.Sexp.{number_of};

use rowan::{Language, green};

/// The kind of a token or a node of an s-expression.
#[allow(non_camel_case_types)]
#[derive(Clone, Copy, PartialEq, Eq, PartialOrd, Ord, Hash, Debug)]
pub enum SyntaxKind {
    /// A token `(`.
    L_PAREN = 0,
    /// A token `)`.
    R_PAREN = 1,
    /// A token such as `+` or `15`.
    WORD = 2,
    /// A token of white space.
    WHITESPACE = 3,
    /// A node around a `)` that closes no list.
    ERROR = 4,
    /// A node such as `(+ 2 3)`.
    LIST = 5,
    /// A node around one word.
    ATOM = 6,
    /// The node of the whole text.
    ROOT = 7,
}

impl SyntaxKind {
    /// The raw kind of this kind: its number.
    #[doc(hidden)]
    pub fn to_raw(self) -> green::SyntaxKind
        ensures { result.0 ≡ number_of self }
    {
        green::SyntaxKind(self as u16)
    }
}

/// The language of s-expressions. It stands for its kinds; its one value says nothing.
#[derive(Clone, Copy, PartialEq, Eq, PartialOrd, Ord, Hash, Debug)]
pub struct Lang;

impl Language for Lang {
    ghost use Rattle.rowan_sexp.specs.Sexp.{kind_of, name_of, number_of};

    type Kind = SyntaxKind;

    ghost meaning = { kind_of };

    ghost name = { name_of };

    ghost code = { number_of };

    /// The kind of a number, and `ERROR` for a number that no kind has.
    fn kind_from_raw(raw: green::SyntaxKind) -> SyntaxKind {
        match raw.0 {
            0 => SyntaxKind::L_PAREN,
            1 => SyntaxKind::R_PAREN,
            2 => SyntaxKind::WORD,
            3 => SyntaxKind::WHITESPACE,
            5 => SyntaxKind::LIST,
            6 => SyntaxKind::ATOM,
            7 => SyntaxKind::ROOT,
            _ => SyntaxKind::ERROR,
        }
    }

    fn kind_to_raw(kind: SyntaxKind) -> green::SyntaxKind {
        kind.to_raw()
    }

    fn kind_name(kind: SyntaxKind) -> &'static str {
        match kind {
            SyntaxKind::L_PAREN => "L_PAREN",
            SyntaxKind::R_PAREN => "R_PAREN",
            SyntaxKind::WORD => "WORD",
            SyntaxKind::WHITESPACE => "WHITESPACE",
            SyntaxKind::ERROR => "ERROR",
            SyntaxKind::LIST => "LIST",
            SyntaxKind::ATOM => "ATOM",
            SyntaxKind::ROOT => "ROOT",
        }
    }
}
