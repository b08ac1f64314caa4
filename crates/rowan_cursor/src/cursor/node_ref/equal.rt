//! Equality, hash and printed forms of a borrowed node.
use super::SyntaxNodeRef;
use std::fmt;
use std::hash::{Hash, Hasher};

/// Two nodes are equal if they have equal green nodes and their texts start at the same offset.
impl PartialEq for SyntaxNodeRef<'_> {
    ghost use Rattle.std.specs.Cmp.{on_equiv, partial_equiv_from_equiv};
    ghost use Rattle.rowan_table.specs.Equal.{same_place, same_place-laws};
    ghost use Rattle.rowan_cursor.specs.Refs.{node_place};

    ghost eq = { λ r s. same_place (node_place r) (node_place s) };

    ghost laws = { partial_equiv_from_equiv (on_equiv node_place same_place-laws) };

    fn eq(&self, other: &Self) -> bool {
        self.table.has_equal(self.number, other.table, other.number)
    }
}

impl Eq for SyntaxNodeRef<'_> {
    ghost use Rattle.std.specs.Cmp.{on_equiv};
    ghost use Rattle.rowan_table.specs.Equal.{same_place-laws};
    ghost use Rattle.rowan_cursor.specs.Refs.{node_place};

    ghost laws = { on_equiv node_place same_place-laws };
}

impl Hash for SyntaxNodeRef<'_> {
    ghost use Rattle.rowan_table.specs.Equal.{fed_place, fed_place-same};
    ghost use Rattle.rowan_cursor.specs.Refs.{node_place};

    ghost hash_input = { λ r. fed_place (node_place r) };

    ghost respects_eq = { λ r s. fed_place-same (node_place r) (node_place s) };

    fn hash<H: Hasher>(&self, state: &mut H) {
        self.table.hash_element(self.number, state);
    }
}

impl fmt::Display for SyntaxNodeRef<'_> {
    ghost use Rattle.std.specs.Prelude.{Some};
    ghost use Rattle.rowan_table.specs.Cursor.{text_at};
    ghost use Rattle.rowan_cursor.specs.Refs.{node_place};

    ghost output = { λ r. Some (text_at (node_place r)) };

    fn fmt<W: fmt::Write>(&self, f: &mut fmt::Formatter<W>) -> fmt::Result {
        self.green().fmt(f)
    }
}

/// Prints as [`SyntaxNode`] does.
impl fmt::Debug for SyntaxNodeRef<'_> {
    fn fmt<W: fmt::Write>(&self, f: &mut fmt::Formatter<W>) -> fmt::Result {
        self.table.show_element(self.number, "SyntaxNode", f)
    }
}
