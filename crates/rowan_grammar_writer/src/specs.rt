//! The files of definitions and lemmas on wrappers: `specs/Casts.antt`, `specs/NodeIn.antt` and
//! `proofs/CastLemmas.antt`.
use crate::writer::{Imports, Scope, Text, fill};
use rowan_grammar_model::forms::Form;
use rowan_grammar_model::grammar::Sort;

/// Behind the names from the prelude.
const CASTS: &str = "}
use Rattle.$crate.specs.declared.$module.Kind.{Kind}
";

/// What `same_kind` needs, before and behind the line that all need.
const THE_TYPE: &str = "use Rattle.$crate.specs.contracts.$module.Kind.{the_type}\n";

const NUMBERS: &str = "use Rattle.$crate.specs.Kinds.{number_of}\n";

const SAME: &str = "use denote.Enum.Bare.{same_true, sameb}\n";

const HAS_NUMBER: &str = "
-- whether it is the kind with this number
abbrev pub has_number : ℕ → Kind → Bool
has_number n kind = number_of kind == n
";

const SAME_KIND: &str = "
-- kinds that `==` holds equal are one kind
pub same_kind : (a b : Kind) → sameb the_type a b ≡ true → a ≡ b
same_kind a b same = same_true the_type tt a b same
";

/// The text of `specs/Casts.antt`.
pub fn add_casts_specs(out: &mut Text, scope: &Scope<'_>) {
    let has_owned = scope.has_nodes(Form::Owned);
    add_casts_head(out, scope, has_owned);
    for index in scope.nodes.iter().chain(scope.contents.iter()) {
        add_number_test(out, scope, *index);
    }
    for index in scope.choices.iter() {
        add_any(out, scope, *index);
    }
    out.add(if has_owned { SAME_KIND } else { "" });
}

/// What the definitions name, and `has_number`.
fn add_casts_head(out: &mut Text, scope: &Scope<'_>, has_owned: bool) {
    let names = [
        "language",
        scope.language,
        "crate",
        scope.crate_name,
        "module",
        scope.module,
    ];
    fill(out, CASTS_HEAD, &names);
    out.add(match (has_owned, scope.choices.is_empty()) {
        (true, true) => "◌≡◌, ℕ, ◌==◌, Bool, true",
        (true, false) => "◌≡◌, ℕ, ◌==◌, Bool, true, ◌||◌",
        (false, true) => "ℕ, ◌==◌, Bool",
        (false, false) => "ℕ, ◌==◌, Bool, ◌||◌",
    });
    fill(out, CASTS, &names);
    if has_owned {
        fill(out, THE_TYPE, &names);
    }
    fill(out, NUMBERS, &names);
    out.add(if has_owned { SAME } else { "" });
    out.add(HAS_NUMBER);
}

const CASTS_HEAD: &str = "\
-- Wrappers of the nodes of $language: the kinds that cast to each of them.
use Rattle.std.specs.Prelude.{";

/// Whether a kind is that of a node or of a token with a wrapper.
fn add_number_test(out: &mut Text, scope: &Scope<'_>, index: usize) {
    fill(out, NUMBER_TEST, &["snake", scope.grammar.snake(index)]);
    out.add_number(scope.kind_number(index));
    out.add("\n");
}

const NUMBER_TEST: &str = "
abbrev pub is_$snake : Kind → Bool
is_$snake = has_number ";

/// Whether a kind is one of those of a choice: one of its alternatives casts. `||` leans to the left, and the lemmas take the first
/// alternative off: hence the parentheses.
fn add_any(out: &mut Text, scope: &Scope<'_>, choice: usize) {
    let whole = scope.grammar.snake(choice);
    let head = "\nabbrev pub is_$whole : Kind → Bool\nis_$whole kind =";
    fill(out, head, &["whole", whole]);
    let alternatives = scope.grammar.alternatives(choice);
    let last = alternatives.len().saturating_sub(1);
    for (number, used) in alternatives.iter().enumerate() {
        let or = match number {
            0 => "",
            _ if number == last => "|| ",
            _ => "|| (",
        };
        let one = scope.grammar.snake(used.item);
        out.add("\n    ");
        out.add(or);
        fill(out, "is_$one kind", &["one", one]);
    }
    out.close(last);
    out.add("\n");
}

const NODES_IN: &str = "\
-- The nodes in wrappers: in borrowed ones, and in those of more than one kind.
";

const NODE_TYPE: &str = "use Rattle.$crate.specs.declared.nodes.NodeOfRef.{NodeOfRef}\n";

const TOKEN_TYPE: &str = "use Rattle.$crate.specs.declared.nodes.TokenOfRef.{TokenOfRef}\n";

const PLACE_IN: &str = "
-- where the node of a borrowed wrapper stands
abbrev pub place_in : {kind : ℕ} → NodeOfRef kind → Cursor
place_in wrapper = node_place wrapper.syntax
";

const TOKEN_IN: &str = "
-- where the token of a borrowed wrapper stands
abbrev pub token_in : {kind : ℕ} → TokenOfRef kind → Cursor
token_in wrapper = token_place wrapper.syntax
";

/// The text of `specs/NodeIn.antt`.
pub fn add_nodes_in_specs(out: &mut Text, scope: &Scope<'_>) {
    let has_borrowed = scope.has_nodes(Form::Borrowed);
    let has_contents = !scope.contents.is_empty();
    add_nodes_in_head(out, scope, has_borrowed, has_contents);
    for form in [Form::Owned, Form::Borrowed] {
        for index in scope.choices.iter() {
            if scope.grammar.forms(*index).has(form) {
                let name = scope.grammar.wrapper(form, *index);
                let line = "use Rattle.$crate.specs.declared.nodes.$wrapper.{$wrapper}\n";
                fill(out, line, &["crate", scope.crate_name, "wrapper", name]);
            }
        }
    }
    out.add(if has_borrowed { PLACE_IN } else { "" });
    out.add(if has_contents { TOKEN_IN } else { "" });
    for index in scope.choices.iter() {
        for form in [Form::Owned, Form::Borrowed] {
            if scope.grammar.forms(*index).has(form) {
                add_node_in(out, scope, form, *index);
            }
        }
    }
}

/// What the definitions name, but for the wrappers of choices.
fn add_nodes_in_head(out: &mut Text, scope: &Scope<'_>, has_borrowed: bool, has_contents: bool) {
    let names = ["crate", scope.crate_name];
    out.add(NODES_IN);
    if has_borrowed || has_contents {
        out.add("use Rattle.std.specs.Prelude.{ℕ}\n");
    }
    out.add("use Rattle.rowan.specs.Cursor.{Cursor}\n");
    out.add(places(has_borrowed, has_contents));
    if has_borrowed {
        fill(out, NODE_TYPE, &names);
    }
    if has_contents {
        fill(out, TOKEN_TYPE, &names);
    }
}

/// What the places of borrowed wrappers need.
fn places(has_nodes: bool, has_tokens: bool) -> &'static str {
    match (has_nodes, has_tokens) {
        (false, false) => "",
        (true, false) => "use Rattle.rowan.specs.Refs.{node_place}\n",
        (false, true) => "use Rattle.rowan.specs.Refs.{token_place}\n",
        (true, true) => "use Rattle.rowan.specs.Refs.{node_place, token_place}\n",
    }
}

/// The node in the wrapper of a choice. What is borrowed is in a wrapper of its own also where it is
/// a node.
fn add_node_in(out: &mut Text, scope: &Scope<'_>, form: Form, choice: usize) {
    let word = scope.node_of(form, choice);
    let values = [
        "word",
        out.read(&word),
        "whole",
        scope.grammar.wrapper(form, choice),
    ];
    fill(out, "\nabbrev pub $word : $whole → Cursor\n", &values);
    for used in scope.grammar.alternatives(choice).iter() {
        let values = [
            "word",
            out.read(&word),
            "whole",
            scope.grammar.wrapper(form, choice),
            "one",
            scope.grammar.name(used.item),
        ];
        fill(out, "$word ($whole.$one node) = ", &values);
        if form == Form::Borrowed || scope.grammar.sort(used.item) != Sort::Node {
            scope.add_node_of(out, form, used.item);
            out.add(" ");
        }
        out.add("node\n");
    }
}

const LEMMAS: &str = "\
-- What casts to an alternative casts to the whole.
use Rattle.std.specs.Prelude.{◌≡◌, ℕ, Bool, true, false, Option, Some, None}
use Rattle.std.specs.Option.{option_map, option_map_or}
use Rattle.std.proofs.lemmas.Bool.{or_left, or_right}
${nodes}use Rattle.$crate.specs.declared.$module.Kind.{Kind}
";

/// What stands behind the names of what casts.
const CAST_TO_MORE: &str = "\
use Rattle.$crate.specs.Kinds.{kind_of}

cast_to_more : (p q : Kind → Bool) → ((k : Kind) → p k ≡ true → q k ≡ true)
    → (raw : Option ℕ)
    → option_map_or p (option_map kind_of raw) false ≡ true
    → option_map_or q (option_map kind_of raw) false ≡ true
cast_to_more p q more (Some raw) casts = more (kind_of raw) casts
cast_to_more p q more None casts = casts
";

/// What the lemmas on nodes need.
const OF_NODES: &str = "\
use Rattle.rowan.specs.Cursor.{Cursor, kind}
use Rattle.rowan.specs.Ast.{casts_at}
";

/// A lemma on what a raw kind means, by which borrowed wrappers are proved.
const RAW_LEMMA: &str = "
pub $one_is_$whole_raw : (raw : Option ℕ)
    → option_map_or is_$one (option_map kind_of raw) false ≡ true
    → option_map_or is_$whole (option_map kind_of raw) false ≡ true
$one_is_$whole_raw = cast_to_more is_$one is_$whole
    (λ k casts. $term)
";

/// A lemma on a node, by which owned wrappers are proved.
const LEMMA: &str = "
pub $one_is_$whole : (c : Cursor)
    → casts_at kind_of is_$one c ≡ true → casts_at kind_of is_$whole c ≡ true
$one_is_$whole c = $one_is_$whole_raw (kind c)
";

/// The text of `proofs/CastLemmas.antt`.
pub fn add_cast_lemmas(out: &mut Text, scope: &Scope<'_>) {
    let mut choices = scope.choices.iter();
    let has_owned = choices.any(|index| scope.grammar.forms(*index).owned);
    let values = [
        "crate",
        scope.crate_name,
        "module",
        scope.module,
        "nodes",
        if has_owned { OF_NODES } else { "" },
    ];
    fill(out, LEMMAS, &values);
    match vec![in scope.alloc; false; scope.grammar.items.len()] {
        Ok(mut is_named) => add_cast_imports(out, scope, &mut is_named),
        Err(_) => out.fail(),
    }
    fill(out, CAST_TO_MORE, &values);
    for index in scope.choices.iter() {
        add_lemmas(out, scope, *index);
    }
}

/// The lemmas of the alternatives of one choice.
fn add_lemmas(out: &mut Text, scope: &Scope<'_>, choice: usize) {
    for (number, used) in scope.grammar.alternatives(choice).iter().enumerate() {
        let one = scope.grammar.snake(used.item);
        let term = way_to(scope, choice, number);
        let values = [
            "one",
            one,
            "whole",
            scope.grammar.snake(choice),
            "term",
            out.read(&term),
        ];
        fill(out, RAW_LEMMA, &values);
        if scope.grammar.forms(choice).owned {
            fill(out, LEMMA, &values);
        }
    }
}

/// How the alternative with this number is one of all: those to the left of it come first.
fn way_to(scope: &Scope<'_>, choice: usize, number: usize) -> Text {
    let mut out = Text::new(scope.alloc);
    let alternatives = scope.grammar.alternatives(choice);
    let is_last = number.saturating_add(1) == alternatives.len();
    for (step, used) in alternatives.iter().enumerate().take(number) {
        let one = scope.grammar.snake(used.item);
        fill(&mut out, "or_right (is_$one k) _ ", &["one", one]);
        if !is_last || step.saturating_add(1) < number {
            out.add("(\n    ");
        }
    }
    match alternatives.get(number) {
        Some(used) if !is_last => {
            let one = scope.grammar.snake(used.item);
            fill(&mut out, "or_left (is_$one k) _ casts", &["one", one]);
        }
        _ => out.add("casts"),
    }
    for _ in usize::from(is_last)..number {
        out.add(")");
    }
    out
}

/// Adds the lines that import what casts to the choices and to their alternatives, each name once.
fn add_cast_imports(out: &mut Text, scope: &Scope<'_>, is_named: &mut Vec<bool>) {
    let mut imports = Imports::new(scope, "use Rattle.$crate.specs.Casts.{", "");
    for index in scope.choices.iter() {
        add_cast(&mut imports, scope, is_named, *index);
        for used in scope.grammar.alternatives(*index).iter() {
            add_cast(&mut imports, scope, is_named, used.item);
        }
    }
    imports.finish(out);
}

fn add_cast(imports: &mut Imports, scope: &Scope<'_>, is_named: &mut Vec<bool>, index: usize) {
    if let Some(slot) = is_named.get_mut(index) {
        if !*slot {
            *slot = true;
            imports.add_word("is_", scope.grammar.snake(index));
        }
    }
}
