//! Equality, hash and printed forms of a borrowed token.
use super::SyntaxTokenRef;
use std::fmt;
use std::hash::{Hash, Hasher};

/// Two tokens are equal if they have equal green tokens and their texts start at the same offset.
impl PartialEq for SyntaxTokenRef<'_> {
    ghost use Rattle.std.specs.Cmp.{on_equiv, partial_equiv_from_equiv};
    ghost use Rattle.rowan_table.specs.Equal.{same_place, same_place-laws};
    ghost use Rattle.rowan_cursor.specs.Refs.{token_place};

    ghost eq = { λ r s. same_place (token_place r) (token_place s) };

    ghost laws = { partial_equiv_from_equiv (on_equiv token_place same_place-laws) };

    fn eq(&self, other: &Self) -> bool {
        self.table.has_equal(self.number, other.table, other.number)
    }
}

impl Eq for SyntaxTokenRef<'_> {
    ghost use Rattle.std.specs.Cmp.{on_equiv};
    ghost use Rattle.rowan_table.specs.Equal.{same_place-laws};
    ghost use Rattle.rowan_cursor.specs.Refs.{token_place};

    ghost laws = { on_equiv token_place same_place-laws };
}

impl Hash for SyntaxTokenRef<'_> {
    ghost use Rattle.rowan_table.specs.Equal.{fed_place, fed_place-same};
    ghost use Rattle.rowan_cursor.specs.Refs.{token_place};

    ghost hash_input = { λ r. fed_place (token_place r) };

    ghost respects_eq = { λ r s. fed_place-same (token_place r) (token_place s) };

    fn hash<H: Hasher>(&self, state: &mut H) {
        self.table.hash_element(self.number, state);
    }
}

impl fmt::Display for SyntaxTokenRef<'_> {
    ghost use Rattle.std.specs.Prelude.{Some};
    ghost use Rattle.rowan_table.specs.Cursor.{text_at};
    ghost use Rattle.rowan_cursor.specs.Refs.{token_place};

    ghost output = { λ r. Some (text_at (token_place r)) };

    fn fmt<W: fmt::Write>(&self, f: &mut fmt::Formatter<W>) -> fmt::Result {
        self.green().fmt(f)
    }
}

/// Prints as [`SyntaxToken`] does.
impl fmt::Debug for SyntaxTokenRef<'_> {
    fn fmt<W: fmt::Write>(&self, f: &mut fmt::Formatter<W>) -> fmt::Result {
        self.table.show_element(self.number, "SyntaxToken", f)
    }
}
