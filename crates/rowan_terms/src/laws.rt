//! Laws of terms and words, each as the contract of a function that does nothing.
ghost use Rattle.std.specs.Prelude.{◌≡◌, ◌↔◌, ◌⊎◌, ◌<◌, ◌≤◌, ◌^◌, ℕ, List, [], ◌∷◌, ◌++◌, true};
ghost use Rattle.std.specs.Prelude.{false, not, Some, None, IsPermutation};
ghost use Rattle.std.specs.Prelude.{slice_get, ◌+◌, length, take, drop, slice_range};
ghost use Rattle.std.specs.List.{flat_map};
ghost use Rattle.std.specs.Bool.{Decides};
ghost use Rattle.rowan_green.specs.Edits.{replaced, inserted, removed, spliced};
ghost use Rattle.rowan_green.specs.Fits.{byte_limit, AreWithin, Fits, PassesLimit};
ghost use Rattle.rowan_terms.specs.Path.{Path, subterm, offset, range, text_of, tokens};
ghost use Rattle.rowan_terms.specs.Path.{stands_before, begins, put, separate, moved_range};
ghost use Rattle.rowan_terms.specs.Replacements.{Replacement, Makes, SeparateFromAll};
ghost use Rattle.rowan_terms.specs.Replacements.{PairwiseSeparate, moved_in_turn};
ghost use Rattle.rowan_green.specs.Same.{same_node, same_token};
ghost use Rattle.rowan_green.specs.Search.{HasRange, IsChildAt, digits};
ghost use Rattle.rowan_green.specs.Term.{TokenTerm, NodeTerm, Term, node_of, node_len, node_text};
ghost use Rattle.rowan_green.specs.Term.{sum_of_lens, joined_text, node_kind, node_children};
ghost use Rattle.rowan_green.specs.Term.{term_text, term_len};
ghost use Rattle.rowan_green.specs.declared.utility_types.NodeOrToken.TheVariants.{Node};
ghost use Rattle.rowan_green.specs.declared.fault.Fault.{Fault};
ghost use Rattle.rowan_green.specs.Span.{Span, Holds, EndsBefore, intersection};
ghost use Rattle.rowan_green.specs.Word.{Symbol, Item, HasParts, HasTerms, IsFinished, node_word};
ghost use Rattle.rowan_green.specs.Word.{word_text, word_tokens};

/// A word has at most one list of items: bare openings and whole terms.
pub fn word_has_one_reading()
    ensures { (w : List Symbol) (xs ys : List Item) → HasParts w xs → HasParts w ys → xs ≡ ys }
{}

/// The word of a node determines the node.
pub fn word_determines_node()
    ensures { (m n : NodeTerm) → node_word m ≡ node_word n → m ≡ n }
{}

/// Equality decides whether two nodes, or two tokens, are the same term.
pub fn equality_is_of_terms()
    ensures nodes { (m n : NodeTerm) → Decides (same_node m n) (m ≡ n) }
    ensures tokens { (t u : TokenTerm) → Decides (same_token t u) (t ≡ u) }
{}

/// The text of a node is its children's texts, one after the other, and its length the sum of their
/// lengths.
pub fn node_has_its_children_text()
    ensures text { (k : ℕ) (ts : List Term) → node_text (node_of k ts) ≡ joined_text ts }
    ensures len { (k : ℕ) (ts : List Term) → node_len (node_of k ts) ≡ sum_of_lens ts }
{}

/// The text of an edited node is the texts of what stays before, of what is put there, and of what
/// stays behind, in this order.
pub fn edited_node_has_the_text_of_its_parts()
    ensures replaced { (k : ℕ) (ts : List Term) (i : ℕ) (t : Term) → i < length ts
        → node_text (node_of k (replaced ts i t))
        ≡ joined_text (take i ts) ++ term_text t ++ joined_text (drop (i + 1) ts) }
    ensures inserted { (k : ℕ) (ts : List Term) (i : ℕ) (t : Term)
        → node_text (node_of k (inserted ts i t))
        ≡ joined_text (take i ts) ++ term_text t ++ joined_text (drop i ts) }
    ensures removed { (k : ℕ) (ts : List Term) (i : ℕ)
        → node_text (node_of k (removed ts i))
        ≡ joined_text (take i ts) ++ joined_text (drop (i + 1) ts) }
    ensures spliced { (k : ℕ) (ts : List Term) (start end : ℕ) (us : List Term)
        → node_text (node_of k (spliced ts start end us))
        ≡ joined_text (take start ts) ++ joined_text us ++ joined_text (drop end ts) }
{}

/// A child that is replaced by itself, one that is not there, and one that is removed as soon as it
/// is inserted, leave an equal node.
pub fn some_edits_change_nothing()
    ensures itself { (n : NodeTerm) (i : ℕ) (t : Term) → slice_get (node_children n) i ≡ Some t
        → node_of (node_kind n) (replaced (node_children n) i t) ≡ n }
    ensures past { (n : NodeTerm) (i : ℕ) (t : Term) → length (node_children n) ≤ i
        → node_of (node_kind n) (replaced (node_children n) i t) ≡ n }
    ensures taken_back { (n : NodeTerm) (i : ℕ) (t : Term) → i ≤ length (node_children n)
        → node_of (node_kind n) (removed (inserted (node_children n) i t) i) ≡ n }
{}

/// Children that pass a limit are not within the limits, and there is one limit that they pass
/// first.
pub fn one_limit_is_passed_first()
    ensures excluded { (ts : List Term) (e : Fault) → PassesLimit ts e → ¬ AreWithin ts }
    ensures one { (ts : List Term) (e f : Fault) → PassesLimit ts e → PassesLimit ts f → e ≡ f }
{}

/// The text of a word's whole terms is the texts of its leaves, in order: a finished tree has the
/// text of the accepted tokens.
pub fn word_keeps_text()
    ensures { (w : List Symbol) (ts : List Term) → HasTerms w ts → word_text w ≡ joined_text ts }
{}

/// The tokens of a word's whole terms are the word's tokens, in order: the tokens of a finished
/// tree are the accepted ones. The text of a word is the texts of its tokens.
pub fn word_keeps_tokens()
    ensures terms { (w : List Symbol) (ts : List Term) → HasTerms w ts
        → word_tokens w ≡ flat_map tokens ts }
    ensures tree { (w : List Symbol) (n : NodeTerm) → IsFinished w n
        → word_tokens w ≡ tokens (Node n) }
    ensures text { (w : List Symbol)
        → word_text w ≡ flat_map (λ token. token.text) (word_tokens w) }
{}

/// The text of a term is the texts of its tokens, in order. What stands at a path has the bytes of
/// the whole text in the range of the path, and that range ends within the text: so offsets, which
/// count the tokens before, fit texts, which join children.
pub fn text_is_that_of_the_tokens()
    ensures joined { (t : Term) → term_text t ≡ flat_map (λ token. token.text) (tokens t) }
    ensures at_path { (t : Term) (p : Path)
        → text_of (subterm t p) ≡ slice_range (term_text t) (range t p).start (range t p).end }
    ensures within { (t : Term) (p : Path) (u : Term) → subterm t p ≡ Some u
        → (range t p).end ≤ term_len t }
{}

/// At most one child of a node is the one at a range; of a range with bytes it is the one that has
/// them all, and each place in the text, its ends among them, is at a child, if there are children.
/// A child has the range that it is at, so no child is at a range that ends behind the node.
pub fn one_child_is_at_a_range()
    // which child is at a range
    ensures one { (ts : List Term) (a b j k : ℕ) → IsChildAt ts a b j → IsChildAt ts a b k → j ≡ k }
    ensures bytes { (ts : List Term) (a b k : ℕ) → a < b → IsChildAt ts a b k ↔ HasRange ts a b k }
    ensures places { (ts : List Term) (x : ℕ) → 0 < length ts → x ≤ sum_of_lens ts
        → (k : ℕ) × IsChildAt ts x x k }

    // the range of that child
    ensures has { (ts : List Term) (a b k : ℕ) → IsChildAt ts a b k → HasRange ts a b k }
    ensures inside { (ts : List Term) (a b k : ℕ) → IsChildAt ts a b k → b ≤ sum_of_lens ts }
{}

/// A number has at most d binary digits exactly where it is below 2^d.
pub fn digits_are_binary()
    ensures { (n d : ℕ) → digits n ≤ d ↔ n < 2 ^ d }
{}

/// The offsets of an intersection are those that both ranges hold.
pub fn intersection_holds_what_both_hold()
    ensures { (a b : Span) (byte : ℕ)
        → Holds (intersection a b) byte ↔ (Holds a byte × Holds b byte) }
{}

/// A replacement leaves what stands at a separate path, and that range moves with the text before
/// it. What was put stands at its path, where the text of the old subterm started.
pub fn what_stands_apart_stays()
    // at a path that is separate from that of the replacement
    ensures subterm { (t : Term) (p q : Path) (u : Term) → separate p q ≡ true
        → subterm (put t p u) q ≡ subterm t q }
    ensures range { (t : Term) (p q : Path) (u w : Term) → subterm t p ≡ Some w
        → separate p q ≡ true → range (put t p u) q ≡ moved_range t p u q }

    // at the path of the replacement
    ensures new { (t : Term) (p : Path) (u w : Term) → subterm t p ≡ Some w
        → subterm (put t p u) p ≡ Some u }
    ensures start { (t : Term) (p : Path) (u : Term) → offset (put t p u) p ≡ offset t p }
{}

/// Putting back what stood at a path restores the term, and so does putting it in place of itself.
/// Of two replacements at one path the later one counts. Where nothing stands at the path the term
/// stays; at the empty path the new term takes its place.
pub fn putting_back_restores()
    ensures back { (t : Term) (p : Path) (u w : Term) → subterm t p ≡ Some w
        → put (put t p u) p w ≡ t }
    ensures itself { (t : Term) (p : Path) (w : Term) → subterm t p ≡ Some w → put t p w ≡ t }
    ensures again { (t : Term) (p : Path) (u v : Term) → put (put t p u) p v ≡ put t p v }

    // at paths of no subterm, and of the term itself
    ensures absent { (t : Term) (p : Path) (u : Term) → subterm t p ≡ None → put t p u ≡ t }
    ensures whole { (t u : Term) → put t [] u ≡ u }
{}

/// Replacements at separate paths give the same term in either order.
pub fn replacements_commute()
    ensures { (t : Term) (p q : Path) (u v : Term) → separate p q ≡ true
        → put (put t p u) q v ≡ put (put t q v) p u }
{}

/// Where a term and what is put into it are within the limits, the new term is within them exactly
/// where its text is not too long. Whatever is put: a term within the limits has only subterms
/// within them, the new one too, and is not within them where the children of a node, with the new
/// one among them, pass a limit.
pub fn replacement_fits_by_its_length()
    ensures fits { (t : Term) (p : Path) (u w : Term) → subterm t p ≡ Some w → Fits t → Fits u
        → Fits (put t p u) ↔ term_len (put t p u) ≤ byte_limit }
    ensures new { (t : Term) (p : Path) (u w : Term) → subterm t p ≡ Some w
        → Fits (put t p u) → Fits u }
    ensures passes { (t : Term) (p : Path) (i : ℕ) (n : NodeTerm) (u : Term) (e : Fault)
        → subterm t p ≡ Some (Node n) → PassesLimit (replaced (node_children n) i u) e
        → ¬ Fits (put t (p ++ i ∷ []) u) }
    ensures subterm { (t : Term) (p : Path) (w : Term) → subterm t p ≡ Some w → Fits t → Fits w }
{}

/// The text with a replacement is the old text before the range of the old subterm, the text of the
/// new one, and the old text behind. So the length changes as that of the subterm does.
pub fn replacement_exchanges_the_text()
    ensures text { (t : Term) (p : Path) (u w : Term) → subterm t p ≡ Some w
        → term_text (put t p u) ≡ take (range t p).start (term_text t)
        ++ term_text u ++ drop (range t p).end (term_text t) }
    ensures len { (t : Term) (p : Path) (u w : Term) → subterm t p ≡ Some w
        → term_len (put t p u) + term_len w ≡ term_len t + term_len u }
{}

/// Below the path of a replacement stands what stands in the new subterm. Above it stands what
/// stood there, with the replacement in it: a node of the same kind with as many children. So a
/// replacement further down is one of each subterm on the way.
pub fn replacement_is_seen_above_and_below()
    ensures below { (t : Term) (p q : Path) (u w : Term) → subterm t p ≡ Some w
        → subterm (put t p u) (p ++ q) ≡ subterm u q }
    ensures above { (t : Term) (p q : Path) (u v : Term) → subterm t p ≡ Some v
        → subterm (put t (p ++ q) u) p ≡ Some (put v q u) }
    ensures ancestor { (t : Term) (p : Path) (i : ℕ) (q : Path) (u : Term) (n : NodeTerm)
        → subterm t p ≡ Some (Node n)
        → (m : NodeTerm) × (subterm (put t (p ++ i ∷ q) u) p ≡ Some (Node m))
        × (node_kind m ≡ node_kind n) × (length (node_children m) ≡ length (node_children n)) }
    ensures join { (t : Term) (p q : Path) (u v : Term) → subterm t p ≡ Some v
        → put t (p ++ q) u ≡ put t p (put v q u) }
{}

/// Of two separate paths one stands before the other, and its range ends where the other's starts,
/// or before. Of two paths that are not separate, one begins the other.
pub fn separate_paths_are_in_order()
    ensures symmetric { (p q : Path) → separate p q ≡ separate q p }
    ensures begins { (p q : Path) → separate p q ≡ false
        → (begins p q ≡ true) ⊎ (begins q p ≡ true) }
    ensures order { (p q : Path) → separate p q ≡ true
        → stands_before p q ≡ not (stands_before q p) }
    ensures ranges { (t : Term) (p q : Path) → separate p q ≡ true → stands_before p q ≡ true
        → EndsBefore (range t p) (range t q) }
{}

/// Replacements one after the other leave what stands at a path that is separate from all of
/// theirs, and its range moves with each in turn. What one of them puts stands in the end, if the
/// later ones are at separate paths.
pub fn what_stands_apart_from_all_stays()
    ensures subterm { (t : Term) (rs : List Replacement) (last : Term) (q : Path)
        → Makes t rs last → SeparateFromAll q rs → subterm last q ≡ subterm t q }
    ensures range { (t : Term) (rs : List Replacement) (last : Term) (q : Path)
        → Makes t rs last → SeparateFromAll q rs
        → range last q ≡ moved_in_turn t rs q (range t q) }
    ensures new { (t : Term) (before after : List Replacement) (r : Replacement) (last : Term)
        → Makes t (before ++ r ∷ after) last → SeparateFromAll r.path after
        → subterm last r.path ≡ Some r.new }
{}

/// Replacements at pairwise separate paths make the same term in every order; if something stands
/// at each path in one order, it does in all. Of the limits this says nothing: one order may pass
/// them on the way, and another not.
pub fn order_of_separate_replacements_is_free()
    ensures same { (t : Term) (rs ss : List Replacement) (a b : Term) → PairwiseSeparate rs
        → IsPermutation rs ss → Makes t rs a → Makes t ss b → a ≡ b }
    ensures any { (t : Term) (rs ss : List Replacement) (last : Term) → PairwiseSeparate rs
        → IsPermutation rs ss → Makes t rs last → Makes t ss last }
{}
