ghost use Rattle.std.specs.Prelude.{◌≡◌, ℕ, List};

use rowan_green::green::SyntaxKind;
use std::fmt;
use std::hash::Hash;

/// The kinds of a language: what each raw kind means, and how it is called. None of the calls can
/// be refused.
///
/// The type that implements it stands for the language; its values say nothing. Every raw kind
/// means a kind, and several may mean the same one. The three ghost members are what contracts see:
/// `meaning`, the kind of each raw kind, `name`, the bytes of each kind's name, and `code`, the raw
/// kind that `kind_to_raw` answers for each kind.
///
/// A language of lists, which have the raw kind 0, and of words, which have all others:
///
/// ```rust
/// #[derive(Clone, Copy, PartialEq, Eq, PartialOrd, Ord, Hash, Debug)]
/// enum Kind {
///     List,
///     Word,
/// }
///
/// #[derive(Clone, Copy, PartialEq, Eq, PartialOrd, Ord, Hash, Debug)]
/// struct Lists;
///
/// impl Language for Lists {
///     type Kind = Kind;
///
///     ghost meaning = { λ raw. if raw == 0 then List else Word };
///     ghost name = { elim [ List ↦ codes "LIST" | Word ↦ codes "WORD" ] };
///     ghost code = { elim [ List ↦ 0 | Word ↦ 1 ] };
///
///     fn kind_from_raw(raw: SyntaxKind) -> Kind {
///         if raw.0 == 0 { Kind::List } else { Kind::Word }
///     }
///
///     fn kind_to_raw(kind: Kind) -> SyntaxKind {
///         SyntaxKind(kind as u16)
///     }
///
///     fn kind_name(kind: Kind) -> &'static str {
///         match kind {
///             Kind::List => "LIST",
///             Kind::Word => "WORD",
///         }
///     }
/// }
/// ```
pub trait Language: Sized + Copy + fmt::Debug + Eq + Ord + Hash {
    /// The kinds of the language.
    type Kind: Sized + Copy + fmt::Debug + Eq + Ord + Hash;

    ghost meaning: { ℕ → Self.Kind };

    ghost name: { Self.Kind → List ℕ };

    ghost code: { Self.Kind → ℕ };

    /// The kind that a raw kind means. Every raw kind means one.
    fn kind_from_raw(raw: SyntaxKind) -> Self::Kind
        ensures { result ≡ meaning raw.0 };

    /// A raw kind that means the kind.
    fn kind_to_raw(kind: Self::Kind) -> SyntaxKind
        ensures means { meaning result.0 ≡ kind }
        ensures raw { result ≡ record { 0 = code kind } };

    /// How the kind is called in printed trees.
    fn kind_name(kind: Self::Kind) -> &'static str
        ensures { result.now ≡ name kind };
}
