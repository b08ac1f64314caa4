//! Laws of caches, each as the contract of a function that does nothing.
ghost use Rattle.std.specs.Prelude.{◌≡◌, ◌↔◌, ℕ, List, [], ◌∷◌, ◌++◌, Some, Contains, IsTrue};
ghost use Rattle.std.specs.Prelude.{slice_get};
ghost use Rattle.rowan_green.specs.Term.{Term};
ghost use Rattle.rowan_builder.specs.Cache.{is_eligible, with_term, first_seen, Continues};

/// The terms that a cache with this limit keeps, after it was asked for the terms of a list: those
/// of the list that are eligible, each once. They begin with what it kept before, and one more term
/// is kept as if it had come at the list's end.
pub fn cache_keeps_first_seen()
    ensures members { (limit : ℕ) (ts : List Term) (t : Term)
        → Contains (first_seen limit ts) t ↔ (Contains ts t × IsTrue (is_eligible limit t)) }
    ensures once { (limit : ℕ) (ts : List Term) (i j : ℕ) (t : Term)
        → slice_get (first_seen limit ts) i ≡ Some t → slice_get (first_seen limit ts) j ≡ Some t
        → i ≡ j }
    ensures continues { (limit : ℕ) (ts us : List Term)
        → Continues (first_seen limit ts) (first_seen limit (ts ++ us)) }
    ensures one_more { (limit : ℕ) (seen : List Term) (t : Term) → first_seen limit seen ≡ seen
        → with_term limit seen t ≡ first_seen limit (seen ++ t ∷ []) }
{}
