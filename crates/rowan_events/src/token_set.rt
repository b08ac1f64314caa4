//! Sets of kinds, as constants.
ghost use Rattle.std.specs.Prelude.{◌≡◌, ℕ, ◌==◌, ◌&&◌, ◌||◌, ltb};
ghost use Rattle.rowan_events.specs.Seen.{has};

use rowan::SyntaxKind;

/// A set of kinds whose raw kinds are below 128: bit number k says whether k is in the set. By
/// `token_set!` it is a constant: `const ENDS: TokenSet = token_set![Kind::Comma, Kind::Close];`.
#[derive(Clone, Copy)]
pub struct TokenSet(pub u128);

impl TokenSet {
    pub const EMPTY: TokenSet = TokenSet(0);

    /// Whether a raw kind is in the set. One of 128 or more is in none.
    pub fn contains(self, kind: SyntaxKind) -> bool
        ensures { result ≡ has self.0 kind.0 }
    {
        kind.0 < 128 && (self.0 >> kind.0) % 2 == 1
    }

    /// The kinds of both sets. In a constant: `TokenSet(A.0 | B.0)`.
    pub fn union(self, other: TokenSet) -> TokenSet
        ensures { (k : ℕ) → has result.0 k ≡ (has self.0 k || has other.0 k) }
    {
        TokenSet(self.0 | other.0)
    }

    /// The kinds of this set, and one more. A raw kind of 128 or more changes nothing.
    pub fn with(self, kind: SyntaxKind) -> TokenSet
        ensures { (k : ℕ) → has result.0 k ≡ (has self.0 k || (ltb k 128 && (k == kind.0))) }
    {
        if kind.0 >= 128 {
            return self;
        }
        TokenSet(self.0 | (1 << kind.0))
    }
}

/// The kinds of the tokens that open a bracket, and of those that close one.
#[derive(Clone, Copy)]
pub struct Brackets {
    pub open: TokenSet,
    pub close: TokenSet,
}
