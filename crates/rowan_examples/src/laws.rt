//! Laws of the crates below, as they are reached through `rowan`.
ghost use Rattle.std.specs.Prelude.{◌≡◌};
ghost use Rattle.std.specs.List.{concat};
ghost use Rattle.std.specs.Prelude.{Some};
ghost use Rattle.rowan.specs.Cursor.{term_at};
ghost use Rattle.rowan.specs.SyntaxText.{TextSlice, IsTextSlice, slice_text, chunks};
ghost use Rattle.rowan.specs.Term.{NodeTerm, Term};
ghost use Rattle.rowan.specs.Word.{node_word};

use crate::kinds::{Kind, Lists};
use rowan::laws::{api, cursor, green};

/// Green nodes that are built by the same accepted calls are the same.
pub fn nodes_are_their_words()
    ensures { (m n : NodeTerm) → node_word m ≡ node_word n → m ≡ n }
{
    green::word_determines_node()
}

/// The chunks of a text, one after the other, are the text.
pub fn chunks_are_the_text()
    ensures { (s : TextSlice) (t : Term) → term_at s.node ≡ Some t → IsTextSlice s
        → concat (chunks s) ≡ slice_text s }
{
    cursor::chunks_joined_are_the_text()
}

/// A kind of the language is what its raw kind means.
pub fn kind_by_its_raw_kind(kind: Kind) -> Kind
    ensures { result ≡ kind }
{
    api::raw_kind_means_its_kind::<Lists>(kind)
}
