//! Laws of grammars, each as the contract of a function that does nothing.
ghost use Rattle.std.specs.Prelude.{◌≡◌, ◌++◌, ◌∷◌, [], false, ℕ, List};
ghost use Rattle.rowan_green.specs.Term.{NodeTerm};
ghost use Rattle.rowan_green.specs.Word.{node_word};
ghost use Rattle.rowan_green.specs.declared.green.SyntaxKind.{SyntaxKind};
ghost use Rattle.rowan_parser.specs.Shape.{Forest, Step, Enter, Exit, word};
ghost use Rattle.rowan_lines.specs.declared.syntax_error.SyntaxError.{SyntaxError};
ghost use Rattle.rowan_events.specs.declared.token_set.TokenSet.{TokenSet};
ghost use Rattle.rowan_predictive.specs.declared.grammars.Grammar.{Grammar};
ghost use Rattle.rowan_predictive.specs.declared.rules.Action.{Action};
ghost use Rattle.rowan_predictive.specs.declared.rules.Action.TheVariants.{Open};
ghost use Rattle.rowan_predictive.specs.declared.rules.Complaint.{Complaint};
ghost use Rattle.rowan_predictive.specs.declared.rules.Entry.{Entry};
ghost use Rattle.rowan_predictive.specs.declared.rules.Item.{Item};
ghost use Rattle.rowan_predictive.specs.declared.rules.Rule.{Rule};
ghost use Rattle.rowan_predictive.specs.declared.rules.Rule.TheVariants.{Wrap};
ghost use Rattle.rowan_predictive.specs.Alone.{AreAlike, in_whole};
ghost use Rattle.rowan_predictive.specs.Amid.{IsAmid, OpensNode};
ghost use Rattle.rowan_predictive.specs.Derivations.{HasRule, Parses};
ghost use Rattle.rowan_predictive.specs.Machine.{State, is_told, steps_of};
ghost use Rattle.rowan_predictive.specs.Parsing.{HasTree, kinds_of};
ghost use Rattle.rowan_predictive.specs.TreeNodes.{IsNodeIn, IsReplaceable, word_by};
ghost use Rattle.rowan_predictive.specs.Trees.{MakesForest, HasForest, HasActions};
ghost use Rattle.rowan_predictive.specs.View.{entries_in, rules_in};
ghost use Rattle.rowan_predictive.specs.Whole.{IsRun};

/// A derivation by actions has a forest, which the events of the actions spell, and each forest
/// that derives is that of such a derivation.
pub fn derivations_make_forests()
    ensures forest { (rules : List Rule) (error i : ℕ) (kinds : List ℕ) (actions : List Action)
        → Parses rules i kinds actions → HasForest rules error i kinds actions }
    ensures actions { (rules : List Rule) (error i : ℕ) (kinds : List ℕ) (f : Forest)
        → MakesForest rules i kinds f → HasActions rules error i kinds f }
{}

/// Where a rule derives a part of the tokens, other tokens of that rule may stand in their place: the
/// actions around the part stay, with those of the new tokens between them. So between the old
/// actions a run over the whole does what a run over the new part alone does.
pub fn a_part_is_replaced()
    ensures derives { (rules : List Rule) (start rule : ℕ) (before kinds behind : List ℕ)
        (opening actions closing : List Action)
        → IsAmid rules rule start before behind opening closing → Parses rules rule kinds actions
        → Parses rules start (before ++ (kinds ++ behind)) (opening ++ (actions ++ closing)) }
    ensures run { (grammar : Grammar) (start rule : ℕ) (before kinds behind : List ℕ)
        (opening actions closing done : List Action) (complaints : List Complaint)
        → IsAmid (rules_in grammar) rule start before behind opening closing
        → IsRun (entries_in grammar) rule kinds actions []
        → IsRun (entries_in grammar) start (before ++ (kinds ++ behind)) done complaints
        → (complaints ≡ []) × (done ≡ opening ++ (actions ++ closing)) }
{}

/// Each node that a derivation opens is such a part: a rule for nodes of its kind derives it, amid
/// the rest of the derivation.
pub fn nodes_stand_amid_the_rest()
    ensures { (rules : List Rule) (i kind : ℕ) (tokens : List ℕ) (opening rest : List Action)
        → Parses rules i tokens (opening ++ Open kind ∷ rest)
        → OpensNode rules i kind tokens opening rest }
{}

/// Each node of a tree that derives was derived by a rule for such nodes, unless a `Wrap` has its
/// kind. Whatever else that rule derives may stand below the node: its tokens then stand in place of
/// the old ones, and what stands around the node stays as it is. So a parse of a text with the new
/// tokens has no errors, and this tree.
pub fn a_node_is_replaced()
    ensures node { (rules : List Rule) (start kind : ℕ) (kinds : List ℕ) (tree below : Forest)
        (ahead after : List Step)
        → ((i a : ℕ) → HasRule rules i (Wrap kind a) → ⊥)
        → MakesForest rules start kinds tree → IsNodeIn kind below ahead after tree
        → IsReplaceable rules start kind kinds below ahead after }
    ensures parsed { (rules : List Rule) (start kind : ℕ) (kinds : List ℕ) (below : Forest)
        (ahead after : List Step) (old : IsReplaceable rules start kind kinds below ahead after)
        (trivia : TokenSet) (attached : List (SyntaxKind × TokenSet)) (root : ℕ) (text : List ℕ)
        (errors : List SyntaxError) (tree : NodeTerm)
        (new : HasTree rules trivia attached root start text errors tree)
        (others : List ℕ) (f : Forest)
        → new.complained ≡ []
        → kinds_of new.trivia new.tokens ≡ old.before ++ (others ++ old.behind)
        → MakesForest rules old.content others f
        → (errors ≡ []) × (node_word tree ≡ word_by root new.trivia new.tokens
        (ahead ++ Enter kind ∷ (word f ++ Exit ∷ after))) }
{}

/// What a machine does over the tokens of a part alone, it does over those of the whole in which the
/// part stands, with the same complaints. For that it must look at the same tokens, and what is
/// expected behind the part must not change which of them are skipped. Before the part nothing may
/// have been complained of since a token was taken.
pub fn a_part_is_parsed_as_it_is_alone()
    ensures { (entries : List Entry) (part whole : List ℕ) (d : ℕ) (actions : List Action)
        (errors : List Complaint) (behind : List Item) (k : ℕ) (state : State)
        → is_told d errors ≡ false
        → AreAlike entries part whole d behind k state
        → steps_of k entries whole (in_whole d actions errors behind state)
        ≡ in_whole d actions errors behind (steps_of k entries part state) }
{}
