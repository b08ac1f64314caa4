//! Laws of cursors, each as the contract of a function that does nothing.
ghost use Rattle.std.specs.Prelude.{◌≡◌, ℕ, ◌<◌, false, List, [], ◌∷◌, ◌++◌, ◌↔◌, IsTrue, Some};
ghost use Rattle.std.specs.Prelude.{None, length};
ghost use Rattle.std.specs.List.{concat, flat_map};
ghost use Rattle.rowan_green.specs.declared.utility_types.NodeOrToken.TheVariants.{Node};
ghost use Rattle.rowan_terms.specs.Path.{Path, offset};
ghost use Rattle.rowan_green.specs.Span.{Span};
ghost use Rattle.rowan_green.specs.Term.{Term};
ghost use Rattle.rowan_green.specs.Word.{term_word};
ghost use Rattle.rowan_table.specs.Cursor.{Cursor, term_at, text_at, text_range};
ghost use Rattle.rowan_table.specs.Equal.{same_place, start_of};
ghost use Rattle.rowan_table.specs.Preorder.{preorder_with_tokens, preorder};
ghost use Rattle.rowan_table.specs.Preorder.{descendants_with_tokens, descendants, entered_by};
ghost use Rattle.rowan_table.specs.Preorder.{event_symbols};
ghost use Rattle.rowan_cursor.specs.PreorderRuns.{WalkCall, output_of, rest_after, LeavesAll};
ghost use Rattle.rowan_table.specs.Moves.{Element, place_of, cursor_at};
ghost use Rattle.rowan_table.specs.Moves.{children, children_with_tokens};
ghost use Rattle.rowan_cursor.specs.Sizes.{size_at, AreSmaller, AreSmallerElements};
ghost use Rattle.rowan_table.specs.Search.{LiesIn, IsCovering, FindsChild, IsLeafOver, tokens_at};
ghost use Rattle.rowan_table.specs.SyntaxText.{TextSlice, IsTextSlice, chunks, slice_len};
ghost use Rattle.rowan_table.specs.SyntaxText.{slice_text, token_texts};

/// Two cursors are equal exactly if the same stands there, and its text starts at the same offset.
pub fn cursors_are_equal_by_value_and_start()
    ensures { (c d : Cursor)
        → IsTrue (same_place c d) ↔ ((start_of c ≡ start_of d) × (term_at c ≡ term_at d)) }
{}

/// Nothing equals what is in it, at any depth.
pub fn nothing_equals_what_is_in_it()
    ensures { (c d : Cursor) (i : ℕ) (q : Path) (t : Term) → d.root ≡ c.root
        → d.path ≡ c.path ++ i ∷ q → term_at d ≡ Some t → same_place c d ≡ false }
{}

/// Each child is smaller than its node. So a function that calls itself for the children of a node
/// ends: `size_at` is its measure.
pub fn children_are_smaller()
    ensures nodes { (c : Cursor) → AreSmaller (size_at c) (children c) }
    ensures elements { (c : Cursor) → AreSmallerElements (size_at c) (children_with_tokens c) }
{}

/// In a walk that ran to its end each element that was entered was left, the last one first,
/// whatever was skipped.
pub fn walks_leave_what_they_enter()
    ensures with_tokens { (c : Cursor) (calls : List WalkCall) →
        let events = preorder_with_tokens c in
        rest_after calls events ≡ [] → LeavesAll (output_of calls events) [] }
    ensures nodes { (c : Cursor) (calls : List WalkCall) →
        let events = preorder c in
        rest_after calls events ≡ [] → LeavesAll (output_of calls events) [] }
{}

/// What a walk enters, where nothing is skipped, are the descendants in their order.
pub fn walks_enter_the_descendants()
    ensures with_tokens { (c : Cursor) →
        entered_by (preorder_with_tokens c) ≡ descendants_with_tokens c }
    ensures nodes { (c : Cursor) → entered_by (preorder c) ≡ descendants c }
{}

/// The events of a walk with tokens, read as symbols, are the word of the subtree.
pub fn walks_spell_the_subtree()
    ensures { (c : Cursor) (t : Term) → term_at c ≡ Some t
        → flat_map event_symbols (preorder_with_tokens c) ≡ term_word t }
{}

/// The element that covers a range has it, and has no child at the range.
pub fn nothing_smaller_covers_a_range()
    ensures has { (c : Cursor) (span : Span) (t : Term) (e : Element) → term_at c ≡ Some t
        → LiesIn span (text_range c) → IsCovering span c e → LiesIn span (text_range (place_of e)) }
    ensures last { (c : Cursor) (span : Span) (e : Element) → IsCovering span c e
        → FindsChild span (place_of e) None }
{}

/// Where one token is at an offset between two bytes of a node, it has both of them; and a token
/// that has the bytes on both sides of an offset is the one that is there.
pub fn one_token_has_the_bytes_on_both_sides()
    ensures has { (c t : Cursor) (x : ℕ) → tokens_at x c ≡ t ∷ []
        → (text_range c).start < x → x < (text_range c).end
        → ((text_range t).start < x) × (x < (text_range t).end) }
    ensures one { (c : Cursor) (q : Path) (x : ℕ) → IsLeafOver c.root x c.path q
        → offset (Node c.root) q < x → tokens_at x c ≡ cursor_at c.root q ∷ [] }
{}

/// The text of an element is the texts of its tokens, one after the other.
pub fn text_is_that_of_the_tokens()
    ensures { (c : Cursor) → concat (token_texts (term_at c)) ≡ text_at c }
{}

/// The chunks of a slice, one after the other, are its text.
pub fn chunks_joined_are_the_text()
    ensures { (s : TextSlice) (t : Term) → term_at s.node ≡ Some t → IsTextSlice s
        → concat (chunks s) ≡ slice_text s }
{}

/// A slice has as many bytes as its range.
pub fn a_slice_is_as_long_as_its_range()
    ensures { (s : TextSlice) (t : Term) → term_at s.node ≡ Some t → IsTextSlice s
        → length (slice_text s) ≡ slice_len s }
{}
