//! The sets of tokens that a grammar names, as source text: constants, calls that tell the kinds in
//! them, and the definitions and lemmas of these.
use crate::writer::{ARGUMENTS, Imports, Scope, Text, WIDTH, add_docs, fill};
use rowan_grammar_model::names::upper;

const CALL: &str = "
    /// Whether its tokens are in `$constant`.
    #[tactic(auto, using(crate::proofs::SetLemmas::$snake_has))]
    pub fn is_in_$snake(self) -> bool
        ensures { result ≡ is_in_$snake self }
    {
        let raw = $language::kind_to_raw(self);
        $constant.contains(raw)
    }
";

const LEMMAS: &str = "\
-- What the sets of tokens have.
use Rattle.std.specs.Prelude.{◌≡◌, refl}
use Rattle.rowan_parser.specs.Seen.{has}
use Rattle.$crate.specs.declared.$module.Kind.{Kind}
";

/// What a constant has around its name and its kinds.
const CONSTANT: &str = "pub const : TokenSet = token_set![];";

/// The name of the constant of a set.
fn constant(scope: &Scope<'_>, set: usize) -> Text {
    Text::of(scope.alloc, upper(scope.alloc, scope.grammar.snake(set)))
}

/// Adds the constants of the sets.
pub fn add_sets(out: &mut Text, scope: &Scope<'_>) {
    for set in scope.sets.iter() {
        let name = constant(scope, *set);
        out.add("\n");
        add_docs(out, "", scope.grammar.docs(*set), "");
        out.add("pub const ");
        out.add_text(&name);
        out.add(": TokenSet = token_set![");
        add_kinds(out, scope, *set, name.len());
        out.add("];\n");
    }
}

/// Adds the kinds of a set whose constant has a name of this length, each on a line of its own where
/// they are long.
fn add_kinds(out: &mut Text, scope: &Scope<'_>, set: usize, name_len: usize) {
    let kinds = scope.grammar.alternatives(set);
    let mut len = 0usize;
    for used in kinds.iter() {
        len = len.saturating_add(", Kind::".len());
        len = len.saturating_add(scope.grammar.name(used.item).len());
    }
    len = len.saturating_sub(", ".len());
    let whole = len.saturating_add(name_len).saturating_add(CONSTANT.len());
    let is_long = len > ARGUMENTS || whole > WIDTH;
    let (first, next) = match is_long {
        true => ("\n    Kind::", ",\n    Kind::"),
        false => ("Kind::", ", Kind::"),
    };
    for (number, used) in kinds.iter().enumerate() {
        out.add(if number == 0 { first } else { next });
        out.add(scope.grammar.name(used.item));
    }
    out.add(if is_long { "\n" } else { "" });
}

/// Adds the words that the contracts of the calls name.
pub fn add_set_words(words: &mut Imports, scope: &Scope<'_>) {
    for set in scope.sets.iter() {
        words.add_word("is_in_", scope.grammar.snake(*set));
    }
}

/// Adds the calls that tell the kinds in the sets.
pub fn add_set_calls(out: &mut Text, scope: &Scope<'_>) {
    for set in scope.sets.iter() {
        let name = constant(scope, *set);
        let snake = scope.grammar.snake(*set);
        let values = [
            "snake",
            snake,
            "constant",
            out.read(&name),
            "language",
            scope.language,
        ];
        fill(out, CALL, &values);
    }
}

/// Adds the definitions that the contracts of these calls name.
pub fn add_set_specs(out: &mut Text, scope: &Scope<'_>) {
    for set in scope.sets.iter() {
        let snake = scope.grammar.snake(*set);
        let name = scope.grammar.name(*set);
        let head =
            "\n-- whether its tokens are in the set `$name`\nabbrev pub is_in_$snake : Kind → Bool\n";
        fill(out, head, &["snake", snake, "name", name]);
        for used in scope.grammar.alternatives(*set).iter() {
            let kind = scope.grammar.name(used.item);
            fill(
                out,
                "is_in_$snake Kind.$kind = true\n",
                &["snake", snake, "kind", kind],
            );
        }
        fill(out, "is_in_$snake _ = false\n", &["snake", snake]);
    }
}

/// The text of `proofs/SetLemmas.antt`: a set has the bits of its tokens, and no others.
pub fn add_set_lemmas(out: &mut Text, scope: &Scope<'_>) {
    let names = ["crate", scope.crate_name, "module", scope.module];
    fill(out, LEMMAS, &names);
    add_constants(out, scope);
    add_words(out, scope);
    for set in scope.sets.iter() {
        add_lemma(out, scope, *set);
    }
}

/// Adds the lines that import the constants.
fn add_constants(out: &mut Text, scope: &Scope<'_>) {
    let head = "use Rattle.$crate.specs.declared.$module.TheConstants.{";
    let mut constants = Imports::new(scope, head, "");
    for set in scope.sets.iter() {
        let name = constant(scope, *set);
        constants.add(out.read(&name));
    }
    constants.finish(out);
}

/// Adds the lines that import what tells the kinds in the sets.
fn add_words(out: &mut Text, scope: &Scope<'_>) {
    let mut words = Imports::new(scope, "use Rattle.$crate.specs.Kinds.{", "");
    words.add("number_of");
    add_set_words(&mut words, scope);
    words.finish(out);
}

/// Adds the lemma of one set: a line for each kind.
fn add_lemma(out: &mut Text, scope: &Scope<'_>, set: usize) {
    add_lemma_head(out, scope, set);
    let snake = scope.grammar.snake(set);
    for kind in scope.kinds.iter() {
        let kind = scope.grammar.name(*kind);
        fill(
            out,
            "${snake}_has Kind.$kind = refl\n",
            &["snake", snake, "kind", kind],
        );
    }
}

fn add_lemma_head(out: &mut Text, scope: &Scope<'_>, set: usize) {
    let name = constant(scope, set);
    let values = [
        "constant",
        out.read(&name),
        "snake",
        scope.grammar.snake(set),
    ];
    fill(out, LEMMA_HEAD, &values);
}

const LEMMA_HEAD: &str = "
pub ${snake}_has : (k : Kind) → has $constant.0 (number_of k) ≡ is_in_$snake k
";
