//! The files of the kinds: that of the code, as `src/kinds.rt`, and `specs/Kinds.antt`.
use crate::sets::{add_set_specs, add_sets};
use crate::signs::{add_sign_specs, add_table, has_signs};
use crate::texts::{add_calls_of_kinds, add_text_specs, has_texts};
use crate::writer::{Imports, KindList, Scope, Text, add_arm, add_docs, fill};
use rowan_grammar_model::grammar::Sort;
use rowan_grammar_model::names::upper;

/// How many kinds one `match` on numbers tells apart: over many more the checker finds no proof.
const BLOCK: usize = 32;

const HEAD: &str = "\
//! The kinds of the tokens and nodes of $language.
";

const LANGUAGE_TYPE: &str = "\
#[derive(Clone, Copy, PartialEq, Eq, PartialOrd, Ord, Hash, Debug)]
pub struct $language;

";

const KIND_TYPE: &str = "\
#[derive(Clone, Copy, PartialEq, Eq, PartialOrd, Ord, Hash, Debug)]
pub enum Kind {
";

const LANGUAGE: &str = "\
}

impl Language for $language {
    type Kind = Kind;

    ghost use Rattle.$crate.specs.Kinds.{kind_of, name_of, number_of};

    ghost meaning = { kind_of };

    ghost name = { name_of };

    ghost code = { number_of };

    fn kind_from_raw(raw: SyntaxKind) -> Kind {
";

const BLOCK_HEAD: &str = "
fn kind_in_block_$number(raw: u16) -> Kind
    ensures { result ≡ block_kind_$number raw }
{
    match raw {
";

/// The code of the kinds.
pub fn add_kinds_code(out: &mut Text, scope: &Scope<'_>) {
    let blocks = block_count(scope);
    add_head(out, scope, blocks);
    for (number, index) in scope.kinds.iter().enumerate() {
        add_docs(out, "    ", scope.grammar.docs(*index), "");
        out.add("    ");
        out.add(scope.grammar.name(*index));
        out.add(" = ");
        out.add_number(number);
        out.add(",\n");
    }
    let names = ["crate", scope.crate_name, "language", scope.language];
    fill(out, LANGUAGE, &names);
    add_from_raw(out, scope, blocks);
    add_to_raw(out, scope);
    add_kind_names(out, scope);
    add_trivia(out, scope);
    add_sets(out, scope);
    add_table(out, scope);
    if blocks > 1 {
        for block in 0..blocks {
            add_block(out, scope, block);
        }
    }
    add_calls_of_kinds(out, scope);
}

/// What stands before the kinds.
fn add_head(out: &mut Text, scope: &Scope<'_>, blocks: usize) {
    let names = ["language", scope.language];
    fill(out, HEAD, &names);
    if blocks > 1 {
        add_block_imports(out, scope, blocks);
    }
    out.add("use rowan::{Language, SyntaxKind};\n");
    if !scope.sets.is_empty() {
        out.add("use rowan_parser::{TokenSet, token_set};\n");
    }
    out.add("\n");
    add_docs_or(out, scope.grammar.language_docs.as_str(), "The language.");
    fill(out, LANGUAGE_TYPE, &names);
    let line = "The kind of a token or a node.";
    add_docs_or(out, scope.grammar.kinds_docs.as_str(), line);
    out.add(KIND_TYPE);
}

/// The lines of a comment, or this line where there is none.
fn add_docs_or(out: &mut Text, docs: &str, line: &str) {
    let docs = if docs.is_empty() { line } else { docs };
    add_docs(out, "", docs, "");
}

fn block_count(scope: &Scope<'_>) -> usize {
    scope.kinds.len().div_ceil(BLOCK)
}

fn add_block_imports(out: &mut Text, scope: &Scope<'_>, blocks: usize) {
    let mut imports = Imports::new(scope, "ghost use Rattle.$crate.specs.Kinds.{", ";");
    for block in 0..blocks {
        let number = scope.number(block);
        imports.add_word("block_kind_", out.read(&number));
    }
    out.add("ghost use Rattle.std.specs.Prelude.{◌≡◌};\n");
    imports.finish(out);
    out.add("\n");
}

/// The body of `kind_from_raw`.
fn add_from_raw(out: &mut Text, scope: &Scope<'_>, blocks: usize) {
    if blocks < 2 {
        out.add("        match raw.0 {\n");
        add_arms(out, scope, 0, "            ");
        out.add("        }\n    }\n\n");
    } else {
        for block in 1..blocks {
            out.add(if block == 1 { "        if" } else { " else if" });
            out.add(" raw.0 < ");
            out.add_number(block.saturating_mul(BLOCK));
            add_block_call(out, block.saturating_sub(1));
        }
        out.add(" else");
        add_block_call(out, blocks.saturating_sub(1));
        out.add("\n    }\n\n");
    }
}

/// The call for the numbers of one block, in braces.
fn add_block_call(out: &mut Text, block: usize) {
    out.add(" {\n            kind_in_block_");
    out.add_number(block);
    out.add("(raw.0)\n        }");
}

/// The arms from the numbers of one block to their kinds.
fn add_arms(out: &mut Text, scope: &Scope<'_>, block: usize, indent: &str) {
    let first = block.saturating_mul(BLOCK);
    for (number, index) in scope.kinds.iter().enumerate().skip(first).take(BLOCK) {
        let name = scope.grammar.name(*index);
        if name != scope.error {
            out.add(indent);
            out.add_number(number);
            fill(out, " => Kind::$kind,\n", &["kind", name]);
        }
    }
    fill(
        out,
        "$indent_ => Kind::$kind,\n",
        &["indent", indent, "kind", scope.error],
    );
}

fn add_block(out: &mut Text, scope: &Scope<'_>, block: usize) {
    let number = scope.number(block);
    let number = ["number", out.read(&number)];
    fill(out, BLOCK_HEAD, &number);
    add_arms(out, scope, block, "        ");
    out.add("    }\n}\n");
}

fn add_to_raw(out: &mut Text, scope: &Scope<'_>) {
    out.add("    fn kind_to_raw(kind: Kind) -> SyntaxKind {\n        match kind {\n");
    for (number, index) in scope.kinds.iter().enumerate() {
        out.add("            Kind::");
        out.add(scope.grammar.name(*index));
        out.add(" => SyntaxKind(");
        out.add_number(number);
        out.add("),\n");
    }
    out.add("        }\n    }\n\n");
}

fn add_kind_names(out: &mut Text, scope: &Scope<'_>) {
    out.add("    fn kind_name(kind: Kind) -> &'static str {\n        match kind {\n");
    for index in scope.kinds.iter() {
        let shown = shown_name(scope, *index);
        let pattern = scope.filled("Kind::$kind", &["kind", scope.grammar.name(*index)]);
        let body = scope.filled("\"$shown\"", &["shown", out.read(&shown)]);
        let pattern = out.read(&pattern);
        let body = out.read(&body);
        add_arm(out, "            ", pattern, body);
    }
    out.add("        }\n    }\n}\n");
}

/// How a kind is called.
fn shown_name(scope: &Scope<'_>, index: usize) -> Text {
    Text::of(scope.alloc, upper(scope.alloc, scope.grammar.snake(index)))
}

/// The kinds of what stands anywhere.
pub fn trivia_of(scope: &Scope<'_>) -> KindList {
    let mut kinds = KindList::new(scope.alloc);
    for index in scope.kinds.iter() {
        if scope.grammar.sort(*index) == Sort::Trivia {
            kinds.add(scope.grammar.name(*index));
        }
    }
    kinds
}

/// The kinds of what stands anywhere, and the kind of the root.
fn add_trivia(out: &mut Text, scope: &Scope<'_>) {
    out.add(TRIVIA);
    trivia_of(scope).add_to(out);
    fill(out, ROOT, &["root", scope.root]);
}

const TRIVIA: &str = "
/// The kinds of the tokens that may stand anywhere.
pub const TRIVIA: &[Kind] = &[";

/// What stands behind them.
const ROOT: &str = "];

/// The kind of the node of a whole text.
pub const ROOT: Kind = Kind::$root;
";

const SPECS: &str = "\
-- The kinds of $language.
use Rattle.std.specs.Prelude.{ℕ, ◌==◌, ${limits}List, codes, if◌then◌else◌$tests}
$texts${signs}use Rattle.$crate.specs.declared.$module.Kind.{Kind}

";

/// What the definitions for the texts of tokens need.
const OF_TEXTS: &str = "\
use Rattle.std.specs.Prelude.{Option, Some, None}
use Rattle.std.specs.Str.{bytes_eq}
";

/// What the definition for the signs needs besides.
const OF_SIGNS: &str = "\
use Rattle.std.specs.Prelude.{nat_eq}
use Rattle.std.specs.List.{starts_with}
";

/// The text of `specs/Kinds.antt`. Kinds are named by their type, since a kind may have any name.
pub fn add_kinds_specs(out: &mut Text, scope: &Scope<'_>) {
    let blocks = block_count(scope);
    add_specs_head(out, scope, blocks);
    if blocks > 1 {
        for block in 0..blocks {
            let number = scope.number(block);
            let number = ["number", out.read(&number)];
            fill(out, BLOCK_SPECS, &number);
            add_chain(out, scope, block);
        }
    }
    out.add("-- the kind that a raw kind means\nabbrev pub kind_of : ℕ → Kind\nkind_of n =\n");
    if blocks > 1 {
        add_block_chain(out, blocks);
    } else {
        add_chain(out, scope, 0);
    }
    add_numbers_and_names(out, scope);
    if has_texts(scope) {
        add_text_specs(out, scope);
    }
    if has_signs(scope) {
        add_sign_specs(out, scope);
    }
    add_set_specs(out, scope);
}

const BLOCK_SPECS: &str = "\
abbrev pub block_kind_$number : ℕ → Kind
block_kind_$number n =
";

/// What the definitions name.
fn add_specs_head(out: &mut Text, scope: &Scope<'_>, blocks: usize) {
    let has_tests = has_texts(scope) || !scope.sets.is_empty();
    let values = [
        "crate",
        scope.crate_name,
        "language",
        scope.language,
        "limits",
        if blocks > 1 { "nat_lt, " } else { "" },
        "module",
        scope.module,
        "tests",
        if has_tests { ", Bool, true, false" } else { "" },
        "texts",
        if has_texts(scope) { OF_TEXTS } else { "" },
        "signs",
        if has_signs(scope) { OF_SIGNS } else { "" },
    ];
    fill(out, SPECS, &values);
}

/// The numbers of the kinds, and how they are called.
fn add_numbers_and_names(out: &mut Text, scope: &Scope<'_>) {
    out.add("-- the raw kind of a kind\nabbrev pub number_of : Kind → ℕ\n");
    for (number, index) in scope.kinds.iter().enumerate() {
        fill(
            out,
            "number_of Kind.$kind = ",
            &["kind", scope.grammar.name(*index)],
        );
        out.add_number(number);
        out.add("\n");
    }
    out.add("\n-- how the kinds are called\nabbrev pub name_of : Kind → List ℕ\n");
    for index in scope.kinds.iter() {
        fill(
            out,
            "name_of Kind.$kind = codes \"",
            &["kind", scope.grammar.name(*index)],
        );
        out.add_text(&shown_name(scope, *index));
        out.add("\"\n");
    }
}

/// Comparisons with the numbers of one block.
fn add_chain(out: &mut Text, scope: &Scope<'_>, block: usize) {
    let first = block.saturating_mul(BLOCK);
    let mut count = 0usize;
    for (number, index) in scope.kinds.iter().enumerate().skip(first).take(BLOCK) {
        let name = scope.grammar.name(*index);
        if name != scope.error {
            out.add(if count == 0 { "    " } else { "    else (" });
            out.add("if n == ");
            out.add_number(number);
            fill(out, " then Kind.$kind\n", &["kind", name]);
            count = count.saturating_add(1);
        }
    }
    fill(
        out,
        if count == 0 {
            "    Kind.$kind"
        } else {
            "    else Kind.$kind"
        },
        &["kind", scope.error],
    );
    out.close(count);
    out.add("\n\n");
}

/// Comparisons with the limits of the blocks.
fn add_block_chain(out: &mut Text, blocks: usize) {
    for block in 1..blocks {
        out.add(if block == 1 { "    " } else { "    else (" });
        out.add("if nat_lt n ");
        out.add_number(block.saturating_mul(BLOCK));
        out.add(" then block_kind_");
        out.add_number(block.saturating_sub(1));
        out.add(" n\n");
    }
    let last = blocks.saturating_sub(1);
    out.add("    else block_kind_");
    out.add_number(last);
    out.add(" n");
    out.close(last);
    out.add("\n\n");
}
