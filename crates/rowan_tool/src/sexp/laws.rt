//! Laws of the grammar, each as the contract of a function that does nothing.
ghost use Rattle.std.specs.Prelude.{◌≡◌, ℕ, List, ◌∷◌, Some};
ghost use Rattle.std.specs.List.{AllByRecursion};
ghost use Rattle.std.specs.Str.{IsUtf8};
ghost use Rattle.rowan_green.specs.declared.utility_types.NodeOrToken.TheVariants.{Node};
ghost use Rattle.rowan_green.specs.Edits.{spliced};
ghost use Rattle.rowan_terms.specs.Path.{Path, subterm, range, put};
ghost use Rattle.rowan_green.specs.Term.{TokenTerm, NodeTerm};
ghost use Rattle.rowan_sexp.specs.Grammar.{IsSexp, IsParse, IsBalanced, IsOneList, token_terms};
ghost use Rattle.rowan_sexp.specs.Sexp.{LexedToken, IsLexed, IsToken};

/// A text has one list of tokens.
pub fn text_has_one_list_of_tokens()
    ensures some { (text : List ℕ) → IsUtf8 text
        → (tokens : List LexedToken) × IsLexed text tokens }
    ensures one { (text : List ℕ) (xs ys : List LexedToken) → IsLexed text xs → IsLexed text ys
        → token_terms xs ≡ token_terms ys }
{}

/// A list of tokens has one tree, and so has a text.
pub fn tokens_have_one_tree()
    ensures some { (tokens : List LexedToken) → AllByRecursion IsToken tokens
        → (tree : NodeTerm) × IsSexp (token_terms tokens) tree }
    ensures one { (tokens : List TokenTerm) (m n : NodeTerm) → IsSexp tokens m → IsSexp tokens n
        → m ≡ n }
    ensures parse { (text : List ℕ) → IsUtf8 text → (tree : NodeTerm) × IsParse text tree }
    ensures one_parse { (text : List ℕ) (m n : NodeTerm) → IsParse text m → IsParse text n
        → m ≡ n }
{}

/// A balanced text is that of one closed list, which stands alone in the root of its tree; and a
/// text that is that of one list is balanced.
pub fn balanced_text_is_one_list()
    ensures one { (text : List ℕ) → IsUtf8 text → IsBalanced text
        → (list : NodeTerm) × IsOneList text list }
    ensures balanced { (text : List ℕ) (list : NodeTerm) → IsOneList text list → IsBalanced text }
{}

/// Where a node below the root of a text's tree becomes the list that another text is, the tree is
/// that of the text with the other one in the node's range.
pub fn one_list_in_place_is_parsed()
    ensures { (text new : List ℕ) (tree list old n : NodeTerm) (i : ℕ) (p : Path)
        → IsParse text tree → IsOneList new list
        → subterm (Node tree) (i ∷ p) ≡ Some (Node old)
        → Node n ≡ put (Node tree) (i ∷ p) (Node list)
        → let span = range (Node tree) (i ∷ p) in
        IsParse (spliced text span.start span.end new) n }
{}
