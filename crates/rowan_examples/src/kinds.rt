//! A language of lists, words and spaces.
use rowan::{Language, SyntaxKind};

/// The language.
#[derive(Clone, Copy, PartialEq, Eq, PartialOrd, Ord, Hash, Debug)]
pub struct Lists;

/// Its kinds.
#[derive(Clone, Copy, PartialEq, Eq, PartialOrd, Ord, Hash, Debug)]
pub enum Kind {
    /// A node of words, spaces and lists. Its raw kind is 0.
    List,
    /// A token, of any other raw kind.
    Word,
    /// A token between words. Its raw kind is 2.
    Space,
}

impl Language for Lists {
    type Kind = Kind;

    ghost use Rattle.rowan_examples.specs.Kinds.{kind_of, name_of, number_of};

    ghost meaning = { kind_of };

    ghost name = { name_of };

    ghost code = { number_of };

    fn kind_from_raw(raw: SyntaxKind) -> Kind {
        match raw.0 {
            0 => Kind::List,
            2 => Kind::Space,
            _ => Kind::Word,
        }
    }

    fn kind_to_raw(kind: Kind) -> SyntaxKind {
        match kind {
            Kind::List => SyntaxKind(0),
            Kind::Word => SyntaxKind(1),
            Kind::Space => SyntaxKind(2),
        }
    }

    fn kind_name(kind: Kind) -> &'static str {
        match kind {
            Kind::List => "LIST",
            Kind::Word => "WORD",
            Kind::Space => "SPACE",
        }
    }
}
