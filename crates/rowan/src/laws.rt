//! Laws of runs, traces and pointers, each as the contract of a function that does nothing. Those
//! of green trees are in `green`, those of cursors in `cursor`, and those of languages in `api`.
ghost use Rattle.std.specs.Prelude.{◌≡◌, ℕ, ◌+◌, ◌<◌, ◌≤◌, Bool, true, List, [], ◌∷◌, ◌++◌, length};
ghost use Rattle.std.specs.Prelude.{Option, Some, IsPermutation};
ghost use Rattle.std.specs.Option.{option_and_then, option_map_or};
ghost use Rattle.rowan_builder.specs.Builder.{BuilderValue};
ghost use Rattle.rowan_builder.specs.Cache.{first_seen};
ghost use Rattle.rowan_green.specs.Fits.{byte_limit};
ghost use Rattle.rowan_terms.specs.Path.{Path, subterm, range, tokens, put, separate};
ghost use Rattle.rowan_terms.specs.Replacements.{Replacement, Makes, SeparateFromAll};
ghost use Rattle.rowan_terms.specs.Replacements.{PairwiseSeparate, moved_in_turn};
ghost use Rattle.rowan_green.specs.Span.{Span};
ghost use Rattle.rowan_builder.specs.Stream.{intern_all, BuildsOn};
ghost use Rattle.rowan_green.specs.Term.{NodeTerm, node_len, Term, term_len};
ghost use Rattle.rowan_green.specs.Word.{Symbol, IsFinished, word_text, word_tokens};
ghost use Rattle.rowan_green.specs.declared.utility_types.Direction.TheVariants.{Next, Prev};
ghost use Rattle.rowan_green.specs.declared.utility_types.NodeOrToken.TheVariants.{Node};
ghost use Rattle.rowan_table.specs.Cursor.{Cursor};
ghost use Rattle.rowan_table.specs.Moves.{Element, nodes_at, cursor_at, next_token, prev_token};
ghost use Rattle.rowan_table.specs.Search.{IsChain};
ghost use Rattle.rowan.specs.Around.{other_tokens, tokens_from};
ghost use Rattle.rowan.specs.Pointer.{Pointer, pointer_to, means_kind, is_meant, up_to, Resolves};
ghost use Rattle.rowan.specs.Pointer.{LeadsAbove, carried, carried_in_turn};
ghost use Rattle.rowan_script.specs.declared.script.calls.Call.{Call};
ghost use Rattle.rowan_script.specs.declared.script.calls.Outcome.{Outcome};
ghost use Rattle.rowan_script.specs.declared.script.steps.Report.{Report};
ghost use Rattle.rowan_script.specs.declared.script.steps.Step.{Step};
ghost use Rattle.rowan_script.specs.Rewriting.{Rewrites};
ghost use Rattle.rowan_script.specs.Requests.{stream, accepted_tokens, accepted_text};
ghost use Rattle.rowan_script.specs.Run.{Run};
ghost use Rattle.rowan_script.specs.Trace.{Trace, root_of, tree_of, last_root, last_tree, replacements};

use crate::api::Language;
pub use rowan_api::laws as api;
pub use rowan_builder::laws as cache;
pub use rowan_cursor::laws as cursor;
pub use rowan_terms::laws as green;

/// A run asks its cache for the terms of its stream, in their order. So where the cache kept what
/// is first seen of some terms, as each cache does, it keeps what is first seen of these followed
/// by the stream, and a cache that kept nothing what is first seen of the stream.
pub fn cache_keeps_the_stream()
    ensures cache { (old new : BuilderValue) (calls : List Call) (outcomes : List Outcome)
        (run : Run old calls outcomes new) → new.cache ≡ intern_all old.cache (stream run.words) }
    ensures first { (old new : BuilderValue) (calls : List Call) (outcomes : List Outcome)
        (run : Run old calls outcomes new)
        → first_seen old.cache.limit old.cache.seen ≡ old.cache.seen
        → new.cache.seen ≡ first_seen old.cache.limit (old.cache.seen ++ stream run.words) }
    ensures from_empty { (old new : BuilderValue) (calls : List Call) (outcomes : List Outcome)
        (run : Run old calls outcomes new)
        → old.cache.seen ≡ []
        → new.cache.seen ≡ first_seen old.cache.limit (stream run.words) }
{}

/// The calls and their outcomes alone determine the word after a run, and what the run asks the
/// cache for: trees never depend on the cache.
pub fn word_is_independent_of_the_cache()
    ensures word { (old old' new new' : BuilderValue) (calls : List Call) (outcomes : List Outcome)
        → old.word ≡ old'.word
        → Run old calls outcomes new
        → Run old' calls outcomes new'
        → new.word ≡ new'.word }
    ensures cache { (old old' new new' : BuilderValue) (calls : List Call) (outcomes : List Outcome)
        (run : Run old calls outcomes new) (run' : Run old' calls outcomes new')
        → old.word ≡ old'.word
        → stream run.words ≡ stream run'.words }
{}

/// Calls add the accepted tokens to the tokens of the word, and their texts to its text, in order.
pub fn run_adds_the_accepted_text()
    ensures tokens { (w v : List Symbol) (calls : List Call) (outcomes : List Outcome)
        → Rewrites w calls outcomes v
        → word_tokens v ≡ word_tokens w ++ accepted_tokens calls outcomes }
    ensures text { (w v : List Symbol) (calls : List Call) (outcomes : List Outcome)
        → Rewrites w calls outcomes v
        → word_text v ≡ word_text w ++ accepted_text calls outcomes }
{}

/// The leaves of a tree that is finished from a word that began empty are the accepted tokens, each
/// with its kind and its text, in the order of the calls.
pub fn tree_has_the_accepted_tokens()
    ensures { (w : List Symbol) (calls : List Call) (outcomes : List Outcome) (n : NodeTerm)
        → Rewrites [] calls outcomes w
        → IsFinished w n
        → tokens (Node n) ≡ accepted_tokens calls outcomes }
{}

/// What the calls of a builder say of its cache holds of a run, too: the cache grew, and was asked
/// for the subterms that ended meanwhile.
pub fn run_builds_on()
    ensures { (old new : BuilderValue) (calls : List Call) (outcomes : List Outcome)
        → Run old calls outcomes new → BuildsOn old new }
{}

/// The replacements of a trace that were accepted, one after the other, make its last tree of its
/// first.
pub fn trace_makes_its_replacements()
    ensures { (e : Element) (steps : List Step) (reports : List Report)
        → Trace e steps reports
        → Makes (tree_of e) (replacements e steps reports) (last_tree e reports) }
{}

/// What stands at a path that is separate from those of all accepted replacements of a trace stands
/// in its last tree, too, and the range there is the old one, moved with each replacement in turn.
/// What a replacement put stands in the last tree, if all later ones were at separate paths.
pub fn trace_leaves_what_stands_apart()
    ensures subterm { (e : Element) (steps : List Step) (reports : List Report) (q : Path)
        → Trace e steps reports
        → SeparateFromAll q (replacements e steps reports)
        → subterm (last_tree e reports) q ≡ subterm (tree_of e) q }
    ensures range { (e : Element) (steps : List Step) (reports : List Report) (q : Path)
        → Trace e steps reports
        → SeparateFromAll q (replacements e steps reports)
        → range (last_tree e reports) q
        ≡ moved_in_turn (tree_of e) (replacements e steps reports) q (range (tree_of e) q) }
    ensures new { (e : Element) (steps : List Step) (reports : List Report)
        (before : List Replacement) (r : Replacement) (after : List Replacement)
        → Trace e steps reports
        → replacements e steps reports ≡ before ++ r ∷ after
        → SeparateFromAll r.path after
        → subterm (last_tree e reports) r.path ≡ Some r.new }
{}

/// Two traces from one tree whose accepted replacements are the same, in any order, end with equal
/// trees, if those are at pairwise separate paths.
pub fn order_of_a_traces_replacements_is_free()
    ensures { (e d : Element) (steps steps' : List Step) (reports reports' : List Report)
        → tree_of e ≡ tree_of d
        → PairwiseSeparate (replacements e steps reports)
        → IsPermutation (replacements e steps reports) (replacements d steps' reports')
        → Trace e steps reports
        → Trace d steps' reports'
        → last_tree e reports ≡ last_tree d reports' }
{}

/// A pointer outlives each replacement beside its node. Where the node has text and the new tree is
/// within the limits, the pointer carried over the edit is the pointer to that node in the new
/// tree.
pub fn pointers_outlive_replacements_beside<L: Language>()
    ensures { (root new : NodeTerm) (p q : Path) (u w : Term) (n : NodeTerm)
        → put (Node root) p u ≡ Node new → node_len new ≤ byte_limit
        → subterm (Node root) p ≡ Some w → subterm (Node root) q ≡ Some (Node n)
        → separate p q ≡ true → 0 < node_len n
        → option_and_then (carried (range (Node root) p) (term_len u))
        (pointer_to L.meaning (cursor_at root q)) ≡ pointer_to L.meaning (cursor_at new q) }
{}

/// The pointer to a node with text leads to that node, or to one above it that has the same range
/// and an equal kind.
pub fn pointers_lead_to_their_nodes<L: Language>()
    ensures { (root : NodeTerm) (q : Path) (n : NodeTerm) (pointer : Pointer L.Kind)
        (found : Option Cursor)
        → subterm (Node root) q ≡ Some (Node n) → 0 < node_len n
        → pointer_to L.meaning (cursor_at root q) ≡ Some pointer →
        let means = means_kind L.meaning L.Kind.eq pointer.kind in
        Resolves means pointer.range (cursor_at root []) found
        → LeadsAbove means pointer.range root q found }
{}

/// Pointers outlive whole traces. A pointer to a node with text that stands apart from all accepted
/// replacements of a trace, carried over each in turn, is the pointer to that node in the last
/// tree; and there it leads to the node, or to one above it that has the same range and an equal
/// kind.
pub fn pointers_outlive_traces<L: Language>()
    ensures carried { (e : Element) (steps : List Step) (reports : List Report)
        (q : Path) (n : NodeTerm)
        → Trace e steps reports
        → SeparateFromAll q (replacements e steps reports)
        → subterm (tree_of e) q ≡ Some (Node n) → 0 < node_len n
        → option_and_then (carried_in_turn (tree_of e) (replacements e steps reports))
        (pointer_to L.meaning (cursor_at (root_of e) q))
        ≡ pointer_to L.meaning (cursor_at (last_root e reports) q) }
    ensures leads { (e : Element) (steps : List Step) (reports : List Report)
        (q : Path) (n : NodeTerm) (first last : Pointer L.Kind) (found : Option Cursor)
        → Trace e steps reports
        → SeparateFromAll q (replacements e steps reports)
        → subterm (tree_of e) q ≡ Some (Node n) → 0 < node_len n
        → pointer_to L.meaning (cursor_at (root_of e) q) ≡ Some first
        → carried_in_turn (tree_of e) (replacements e steps reports) first ≡ Some last →
        let means = means_kind L.meaning L.Kind.eq last.kind in
        Resolves means last.range (cursor_at (last_root e reports) []) found
        → LeadsAbove means last.range (last_root e reports) q found }
{}

/// One chain of a range begins at each element. A search along that of the root visits one node
/// more at most than the longest path has places.
pub fn one_chain_begins_at_each_element()
    ensures some { (root : NodeTerm) (span : Span) (p : Path)
        → (chain : List Path) × IsChain root span p chain }
    ensures one { (root : NodeTerm) (span : Span) (p : Path) (xs ys : List Path)
        → IsChain root span p xs → IsChain root span p ys → xs ≡ ys }
    ensures visits { (means : ℕ → Bool) (root : NodeTerm) (span : Span) (chain : List Path) (d : ℕ)
        → IsChain root span [] chain
        → ((q : Path) (t : Term) → subterm (Node root) q ≡ Some t → length q ≤ d)
        → length (nodes_at root (up_to (is_meant means span root) ([] ∷ chain))) ≤ d + 1 }
{}

/// In each direction the other tokens from a token on are its next token and the others from there
/// on, and there are none where it has no next one. So a search in `tokens_from` is one by
/// `next_token` or `prev_token`.
pub fn tokens_follow_one_another()
    ensures next { (c : Cursor)
        → other_tokens Next c ≡ option_map_or (tokens_from Next) (next_token c) [] }
    ensures prev { (c : Cursor)
        → other_tokens Prev c ≡ option_map_or (tokens_from Prev) (prev_token c) [] }
{}
