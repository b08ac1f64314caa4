//! Laws of edits, each as the contract of a function that does nothing.
ghost use Rattle.std.specs.Prelude.{◌≡◌, ◌≤◌, ◌<◌, ◌+◌, ℕ, List, [], ◌∷◌, ◌++◌, length};
ghost use Rattle.std.specs.Prelude.{Bool, true, false, Some, ◌↔◌, IsPermutation, slice_get};
ghost use Rattle.std.specs.List.{AllByRecursion, list_any, filter};
ghost use Rattle.rowan_green.specs.declared.utility_types.NodeOrToken.TheVariants.{Node};
ghost use Rattle.rowan_green.specs.Fits.{Fits};
ghost use Rattle.rowan_terms.specs.Path.{Path, subterm, tokens, put, range, shifted};
ghost use Rattle.rowan_terms.specs.Replacements.{Replacement, Makes};
ghost use Rattle.rowan_green.specs.Term.{NodeTerm, Term, term_text, term_len, node_children};
ghost use Rattle.rowan_green.specs.Term.{node_kind, TokenTerm};
ghost use Rattle.rowan_edit.specs.ArrangedTree.{all_made, IsPlanned};
ghost use Rattle.rowan_edit.specs.Arrangements.{ArrangedPlan, plain_edits};
ghost use Rattle.rowan_changes.specs.Changes.{changes_of, edits_before, old_bytes, new_bytes};
ghost use Rattle.rowan_changes.specs.Changes.{moved_through};
ghost use Rattle.rowan_changes.specs.Edit.{Edit, edited, edited_once, ends_before};
ghost use Rattle.rowan_changes.specs.Edit.{conflicts, EditsOverlap};
ghost use Rattle.rowan_edit.specs.Inside.{edits_inside};
ghost use Rattle.rowan_changes.specs.Moved.{moved_by, IsUntouchedBy};
ghost use Rattle.rowan_edit_laws.specs.Orders.{AreReplacements};
ghost use Rattle.rowan_changes.specs.Plan.{Plan, EndInTurn, AreInOrder, with_edit};
ghost use Rattle.rowan_rewrite.specs.declared.rewriting.Rewrite.{Rewrite};
ghost use Rattle.rowan_rewrite.specs.declared.rewriting.Rewritten.{Rewritten};
ghost use Rattle.rowan_rewrite.specs.Rewriting.{rewritten, rewritten_tokens, AllKeep};
ghost use Rattle.rowan_rewrite.specs.RewritingCalls.{IsRewritten, AlwaysKeeps, AlwaysFormats};
ghost use Rattle.rowan_changes.specs.Sites.{sites_of, is_taken_at, moved_over, ArePutAt};
ghost use Rattle.rowan_changes.specs.TextWith.{text_with};
ghost use Rattle.rowan_rewrite.specs.Trivia.{StandOutside, AllFormat};

use rowan_green::fault::Fault;
use rowan_rewrite::rewriting::{Rewrite, TokenAt};

/// An element that no edit takes away, and in which none stands, is in the edited tree as it was.
pub fn untouched_elements_stay()
    ensures { (t : Term) (es : List Edit) (p : Path) (u : Term) → EndInTurn es
        → AllByRecursion (λ e. IsUntouchedBy e p) es → subterm t p ≡ Some u
        → subterm (edited t es) (moved_by es p) ≡ Some u }
{}

/// An element stays where no edit takes it away, or something around it: it stands at its new path,
/// with the edits of it and of what is in it made.
pub fn elements_move_with_their_edits()
    ensures { (t : Term) (es : List Edit) (p : Path) (u : Term) → EndInTurn es
        → list_any (is_taken_at p) (sites_of es) ≡ false → subterm t p ≡ Some u
        → subterm (edited t es) (moved_over (sites_of es) p)
        ≡ Some (edited u (edits_inside p es)) }
{}

/// An edited node is a node of the same kind.
pub fn edited_nodes_keep_their_kind()
    ensures { (n : NodeTerm) (es : List Edit)
        → (m : NodeTerm) × (edited (Node n) es ≡ Node m) × (node_kind m ≡ node_kind n) }
{}

/// Each element that an edit puts in stands in the new tree, where `Edited::placed` says.
pub fn new_elements_stand()
    ensures { (root : NodeTerm) (es : List Edit) (n : ℕ) (e : Edit) (parent : Path) (start : ℕ)
        (end : ℕ) (i : ℕ) (u : Term) → AreInOrder root es → slice_get es n ≡ Some e
        → ArePutAt (sites_of es) n parent start end → slice_get e.new i ≡ Some u
        → subterm (edited (Node root) es) (parent ++ (start + i) ∷ []) ≡ Some u }
{}

/// The sites of edits alone say where elements go.
pub fn sites_say_where_elements_go()
    ensures { (es : List Edit) (p : Path) → moved_by es p ≡ moved_over (sites_of es) p }
{}

/// The range of an element that no edit takes away, and in which none stands, is moved by the
/// differences of the edits that end before it: by as many bytes as they make the text longer or
/// shorter.
pub fn untouched_ranges_are_shifted()
    ensures { (root : NodeTerm) (es : List Edit) (p : Path) (u : Term) → AreInOrder root es
        → AllByRecursion (λ e. IsUntouchedBy e p) es → subterm (Node root) p ≡ Some u
        → let before = changes_of (Node root) (edits_before p es) in
        range (edited (Node root) es) (moved_by es p)
        ≡ shifted (old_bytes before) (new_bytes before) (range (Node root) p) }
{}

/// The range of such an element that has text is where the changes of the edits move it.
pub fn changes_move_untouched_ranges()
    ensures { (root : NodeTerm) (es : List Edit) (p : Path) (u : Term) → AreInOrder root es
        → AllByRecursion (λ e. IsUntouchedBy e p) es → subterm (Node root) p ≡ Some u
        → 0 < term_len u → Fits (edited (Node root) es)
        → moved_through (changes_of (Node root) es) (range (Node root) p)
        ≡ Some (range (edited (Node root) es) (moved_by es p)) }
{}

/// Of two edits of which only the first ends before the other begins, either may be added first.
pub fn the_order_of_edits_says_nothing()
    ensures { (plan : Plan) (e : Edit) (f : Edit) → e.start ≤ e.end → ends_before e f ≡ true
        → ends_before f e ≡ false
        → with_edit (with_edit plan e) f ≡ with_edit (with_edit plan f) e }
{}

/// The new text is the old one, with the range that each edit has in the old text replaced by the
/// texts of its new elements.
pub fn the_text_is_spliced()
    ensures { (root : NodeTerm) (es : List Edit) → AreInOrder root es
        → term_text (edited (Node root) es) ≡ text_with (Node root) es }
{}

/// An edit that puts one element in place of one child is the replacement at the child's path.
pub fn one_for_one_is_a_replacement()
    ensures { (t : Term) (p : Path) (i : ℕ) (u : Term) (n : NodeTerm)
        → subterm t p ≡ Some (Node n) → i < length (node_children n)
        → edited_once t (record { parent = p; start = i; end = i + 1; new = u ∷ [] })
        ≡ put t (p ++ i ∷ []) u }
{}

/// Edits that each put one element in place of one child make the tree that the replacements at
/// the children's paths make, one after the other in any order.
pub fn replacements_may_come_in_any_order()
    ensures { (root : NodeTerm) (es : List Edit) (rs : List Replacement) (ss : List Replacement)
        → AreInOrder root es → AreReplacements es rs → IsPermutation rs ss
        → Makes (Node root) ss (edited (Node root) es) }
{}

/// Two edits conflict exactly where both take away one child, or one of them is inside of what the
/// other takes away.
pub fn conflicts_are_overlaps()
    ensures { (e : Edit) (f : Edit) → (conflicts e f ≡ true) ↔ EditsOverlap e f }
{}

/// The tree of the edits that edits and arrangements come to is the one with the edits and the
/// arrangements made, one after the other, from the last place to the first.
pub fn arrangements_are_edits()
    ensures { (plan : ArrangedPlan) → IsPlanned plan
        → edited (Node plan.root) (plain_edits plan)
        ≡ all_made (Node plan.root) plan.edits plan.arrangements }
{}

/// The tokens of a rewritten tree are those of what comes in the place of each token.
pub fn tokens_are_rewritten()
    ensures { (old : NodeTerm) (answers : List Rewrite) → tokens (Node (rewritten old answers))
        ≡ rewritten_tokens (tokens (Node old)) answers }
{}

/// Where each answer keeps the tokens that pass a test, the new tree has the same ones as the old
/// one, in the same order.
pub fn kept_tokens_stay()
    ensures { (old : NodeTerm) (answers : List Rewrite) (test : TokenTerm → Bool)
        → AllKeep test (tokens (Node old)) answers
        → filter test (tokens (Node (rewritten old answers)))
        ≡ filter test (tokens (Node old)) }
{}

/// A closure that keeps the tokens that pass a test, whatever token it is shown, keeps those of a
/// whole tree by `rewrite_tokens`.
pub fn closures_keep_tokens<F: FnMut(TokenAt<'_>) -> Result<Rewrite, Fault>>()
    ensures { (test : TokenTerm → Bool) (f : F) (last : F) (old : NodeTerm) (new : Rewritten)
        → AlwaysKeeps F.FnMut test old → IsRewritten F.FnMut f last old new
        → filter test (tokens (Node new.green)) ≡ filter test (tokens (Node old)) }
{}

/// Where no node below the root begins with a token that passes a test, as white space, none does
/// in a tree that is formatted: with answers that put in nothing but tokens, and let the others stay
/// or begin what comes in their place.
pub fn trivia_stay_outside()
    ensures { (old : NodeTerm) (answers : List Rewrite) (test : TokenTerm → Bool)
        → StandOutside test old → AllFormat test (tokens (Node old)) answers
        → StandOutside test (rewritten old answers) }
{}

/// So it is by `rewrite_tokens`, with a closure that answers so, whatever token it is shown.
pub fn formatters_keep_trivia_outside<F: FnMut(TokenAt<'_>) -> Result<Rewrite, Fault>>()
    ensures { (test : TokenTerm → Bool) (f : F) (last : F) (old : NodeTerm) (new : Rewritten)
        → AlwaysFormats F.FnMut test old → StandOutside test old
        → IsRewritten F.FnMut f last old new → StandOutside test new.green }
{}
