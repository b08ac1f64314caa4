//! Laws of parsers and trees, each as the contract of a function that does nothing.
ghost use Rattle.std.specs.Prelude.{◌≡◌, ◌<◌, ◌+◌, ◌-◌, ◌++◌, ◌∷◌, ℕ, List, [], length, drop};
ghost use Rattle.std.specs.Prelude.{Some, None, false};
ghost use Rattle.rowan_green.specs.Term.{NodeTerm};
ghost use Rattle.rowan_green.specs.Word.{node_word, word_text, word_tokens};
ghost use Rattle.rowan_green.specs.declared.green.SyntaxKind.{SyntaxKind};
ghost use Rattle.rowan_parser.specs.Events.{tree_word, spelled_by, grown, after, seen, join_some};
ghost use Rattle.rowan_events.specs.Log.{closed_by, outer_at};
ghost use Rattle.rowan_parser.specs.Parsing.{IsRun, IsParsed};
ghost use Rattle.rowan_parser.specs.Shape.{Forest, none, token_then, joined_then, node_then};
ghost use Rattle.rowan_parser.specs.Shape.{joined, IsPart, IsNode, steps, token_count};
ghost use Rattle.rowan_events.specs.Tokens.{tokens_text, token_terms};
ghost use Rattle.rowan_events.specs.declared.event.Event.{Event};
ghost use Rattle.rowan_events.specs.declared.event.Event.TheVariants.{Open, Around, Close, Nothing};
ghost use Rattle.rowan_events.specs.declared.event.Event.TheVariants as event;
ghost use Rattle.rowan_events.specs.declared.lexer.Token.{Token};
ghost use Rattle.rowan_lines.specs.declared.syntax_error.SyntaxError.{SyntaxError};
ghost use Rattle.rowan_parser.specs.declared.tree.Trivia.{Trivia};

use rowan::Language;
use rowan_events::lexer::Lexer;
use rowan_events::parser::Parser;

/// A token that is taken is a part of what is made, and so are tokens that are joined. A marker
/// that is given up makes nothing. Parts that follow each other are one, and a node that ended is
/// a part.
pub fn parts_join()
    ensures nothing { IsPart [] none }
    ensures token { (events : List Event) (f : Forest) → IsPart events f
        → IsPart (events ++ event.Token ∷ []) (joined f (token_then none)) }
    ensures joined { (kind : SyntaxKind) (n : ℕ) (events : List Event) (f : Forest)
        → IsPart events f
        → IsPart (events ++ event.Joined kind n ∷ []) (joined f (joined_then kind.0 n none)) }
    ensures given_up { (events : List Event) (f : Forest) → IsPart events f
        → IsPart (events ++ Nothing ∷ []) f }
    ensures both { (a b : List Event) (f g : Forest) → IsPart a f → IsPart b g
        → IsPart (a ++ b) (joined f g) }
    ensures node { (i : ℕ) (events : List Event) (kind : ℕ) (f : Forest)
        → IsNode i events kind f → IsPart events (node_then kind f none) }
{}

/// A completed marker is a node of its kind over what was made since it began.
pub fn a_completed_marker_is_a_node()
    ensures events { (before inside : List Event) (kind : SyntaxKind)
        → closed_by None (length before) kind (before ++ Nothing ∷ inside)
        ≡ before ++ Open kind 0 ∷ (inside ++ Close ∷ []) }
    ensures node { (inside : List Event) (f : Forest) (kind : SyntaxKind) → IsPart inside f
        → IsNode 0 (Open kind 0 ∷ (inside ++ Close ∷ [])) kind.0 f }
{}

/// `precede` puts a node around one that ended, what was made behind that one, and what is made
/// until it is completed.
pub fn precede_puts_one_around()
    ensures events { (before node gap inside : List Event) (kind : SyntaxKind) (i : ℕ)
        → i < length node
        → closed_by (Some (length before + i)) (length before + (length node + length gap)) kind
        (before ++ node ++ gap ++ Nothing ∷ inside)
        ≡ before ++ outer_at i ((length node + length gap) - i) node ++ gap
        ++ Around kind 0 ∷ (inside ++ Close ∷ []) }
    ensures node { (node gap inside : List Event) (f g h : Forest) (kind : SyntaxKind)
        (i inner : ℕ) → IsNode i node inner f → IsPart gap g → IsPart inside h
        → IsNode (length node + length gap)
        (outer_at i ((length node + length gap) - i) node ++ gap
        ++ Around kind 0 ∷ (inside ++ Close ∷ []))
        kind.0 (node_then inner f (joined g h)) }
{}

/// Tokens and events have one tree. So the cache that a builder has changes nothing of it: what
/// `build_tree` and `build_tree_with` make of one source is the same, with each cache.
pub fn events_have_one_tree()
    ensures { (root : ℕ) (trivia : Trivia) (tokens : List Token) (events : List Event)
        (a b : NodeTerm) → node_word a ≡ tree_word root trivia tokens events
        → node_word b ≡ tree_word root trivia tokens events → a ≡ b }
{}

/// What the events of a part place in a tree is its forest over the tokens that come next: a node
/// begins behind the trivia before it, but those that are attached to it. Of the tokens that are no
/// trivia these are the first, as many as the forest takes.
pub fn a_part_is_over_its_tokens()
    ensures placed { (trivia : Trivia) (open_nodes : ℕ) (part more : List Event) (f : Forest)
        (tokens : List Token) → IsPart part f
        → spelled_by trivia open_nodes (steps (part ++ more)) tokens ≡ grown trivia f tokens
        ++ spelled_by trivia open_nodes (steps more) (after trivia f tokens) }
    ensures tokens { (trivia : Trivia) (f : Forest) (tokens : List Token)
        → seen trivia (after trivia f tokens) ≡ drop (token_count f) (seen trivia tokens) }
{}

/// Whatever the events are, the leaves of their tree have the text of the tokens. Where no event
/// joins tokens, the leaves are the tokens.
pub fn leaves_have_the_text()
    ensures text { (root : ℕ) (trivia : Trivia) (tokens : List Token) (events : List Event)
        → word_text (tree_word root trivia tokens events) ≡ tokens_text tokens }
    ensures leaves { (root : ℕ) (trivia : Trivia) (tokens : List Token) (events : List Event)
        → join_some events ≡ false
        → word_tokens (tree_word root trivia tokens events) ≡ token_terms tokens }
{}

/// Two parses with equal tokens and equal events have one tree. So the cache that `parse_with` is
/// lent changes nothing of it.
pub fn equal_events_have_one_tree<'text, L: Language, X: Lexer, G: FnOnce(&mut Parser<'text, L>)>()
    ensures { (lexer other : X) (grammar otherwise : G) (trivia : Trivia) (text longer : List ℕ)
        (root : ℕ) (errors others : List SyntaxError) (a b : NodeTerm)
        (first : IsParsed (IsRun X.says lexer G.FnOnce grammar trivia text) trivia root errors a)
        (second : IsParsed (IsRun X.says other G.FnOnce otherwise trivia longer) trivia root
        others b)
        → first.tokens ≡ second.tokens → first.events ≡ second.events → a ≡ b }
{}
