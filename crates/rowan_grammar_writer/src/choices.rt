//! The wrappers of choices as source text.
use crate::structs::add_wrapper_docs;
use crate::writer::{Scope, Text, WIDTH, add_cast_head, add_docs, add_signature, fill};
use rowan_grammar_calls::reach::{Reach, Step, steps_from};
use rowan_grammar_model::forms::Form;
use rowan_grammar_model::grammar::{Item, Sort};
use std::alloc::Global;

/// How long a kind and what is made of its node are together at most on one line.
const MAX_ARM: usize = 70;

/// How long what is made of a node is at most in one expression.
const MAX_MADE: usize = 78;

const CHOICE: &str = "\
}

impl @AstNode for $name {
    type Language = $language;

    ghost use Rattle.std.specs.Prelude.{◌≡◌};
    ghost use Rattle.std.specs.Option.{option_map};
    ghost use Rattle.rowan.specs.Ast.{casts_at, if_casts};
    ghost use Rattle.$crate.specs.Casts.{is_$snake, same_kind};
    ghost use Rattle.$crate.specs.Kinds.{kind_of};
    ghost use Rattle.$crate.specs.NodeIn.{node_in_$snake};
    ghost use Rattle.std.proofs.Common.{ap};

    ghost casts = { is_$snake };

    ghost node_of = { node_in_$snake };

    fn can_cast(kind: Kind) -> bool {
$test    }

$cast
        ensures { let casting = casts_at kind_of is_$snake in
            option_map node_in_$snake result ≡ if_casts casting syntax }
    {
        match syntax.kind() {
$casts            _ => None,
        }
    }

    #[tactic(auto, using($lemmas))]
    fn syntax(&self) -> &@SyntaxNode<$language> {
        match self {
$arms        }
    }

    ghost equal_kinds = { λ a b same. ap is_$snake (same_kind a b same) };
}
";

const OWNED: &str = "
impl $name {
    ghost use Rattle.std.specs.Prelude.{◌≡◌};
    ghost use Rattle.$crate.specs.NodeIn.{node_in_$snake, place_in_$snake};

    /// The same node, borrowed from its tree.
    pub fn as_ref(&self) -> $borrowed<'_>
        ensures { place_in_$snake result ≡ node_in_$snake self.now }
    {
        $borrowed::cast(self.syntax().as_ref()).unwrap()
    }
}
";

const CHOICE_REF: &str = "\
}

impl<'tree> @AstNodeRef<'tree> for $borrowed<'tree> {
    type Language = $language;

    ghost use Rattle.std.specs.Prelude.{◌≡◌, true};
    ghost use Rattle.std.specs.Option.{option_map};
    ghost use Rattle.rowan.specs.Ast.{casts_at, if_casts};
    ghost use Rattle.rowan.specs.Refs.{node_place};
    ghost use Rattle.$crate.specs.Casts.{is_$snake};
    ghost use Rattle.$crate.specs.Kinds.{kind_of};
    ghost use Rattle.$crate.specs.NodeIn.{place_in_$snake};

    ghost casts = { is_$snake };

    ghost node_of = { place_in_$snake };

    fn can_cast(kind: Kind) -> bool
        ensures { result ≡ is_$snake kind }
    {
$test    }

$cast
        ensures { let casting = casts_at kind_of is_$snake in
            option_map place_in_$snake result ≡ if_casts casting (node_place syntax.entry) }
    {
        match syntax.kind() {
$casts            _ => None,
        }
    }

    #[tactic(auto, using($lemmas))]
    fn syntax(&self) -> @SyntaxNodeRef<'tree, $language>
        ensures node { node_place result ≡ place_in_$snake self.now }
        ensures casts { casts_at kind_of is_$snake (node_place result) ≡ true }
    {
        match self {
$arms        }
    }
}
";

const BORROWED: &str = "
impl<'tree> $borrowed<'tree> {
    ghost use Rattle.std.specs.Prelude.{◌≡◌, IfOk, IfErr};
    ghost use Rattle.$crate.specs.NodeIn.{node_in_$snake, place_in_$snake};

    /// The same node in a wrapper that keeps the tree. Refused with `Memory` alone.
    pub fn to_owned(&self) -> @Result<$name, Fault>
        ensures ok { IfOk result (λ owned. node_in_$snake owned ≡ place_in_$snake self.now) }
        ensures err { IfErr result (λ e. e ≡ Fault.Memory) }
    {
        let syntax = self.syntax().to_owned()?;
        Ok($name::cast(syntax).unwrap())
    }
}
";

/// The wrappers of a choice: enums of the wrappers of its alternatives.
pub fn add_choice(out: &mut Text, scope: &Scope<'_>, item: &Item, index: usize) {
    let forms = [Form::Owned, Form::Borrowed];
    for form in forms {
        if item.forms.has(form) {
            add_wrapper_docs(out, form, item);
            out.add(match form {
                Form::Owned => "#[derive(Clone, PartialEq, Eq, Hash, Debug, Drop)]\n",
                Form::Borrowed => "#[derive(Clone, Copy, PartialEq, Eq, Hash, Debug)]\n",
            });
            add_form(out, scope, form, item, index);
        }
    }
    for used in item.alternatives.iter() {
        for form in forms {
            if item.forms.has(form) {
                add_from(out, scope, form, index, used.item);
            }
        }
    }
}

/// What makes a choice of one of its alternatives.
fn add_from(out: &mut Text, scope: &Scope<'_>, form: Form, whole: usize, one: usize) {
    let one_type = wrapper_type(scope, form, one);
    let whole_type = wrapper_type(scope, form, whole);
    let from = out.read(&one_type);
    let into = out.read(&whole_type);
    out.add("\n");
    add_impl_line(out, scope, form, from, into);
    add_from_words(out, scope, form, whole, one);
    add_from_head(out, scope, from, into);
    add_from_body(out, scope, form, whole, one);
    out.add("    }\n}\n");
}

/// The contract of what makes a choice: the node stays.
fn add_from_words(out: &mut Text, scope: &Scope<'_>, form: Form, whole: usize, one: usize) {
    let has_word = has_word(scope, form, one);
    fill(out, FROM_WORDS, &["crate", scope.crate_name]);
    scope.add_node_of(out, form, whole);
    if has_word {
        out.add(", ");
        scope.add_node_of(out, form, one);
    }
    out.add("};\n\n    ghost from_gives = { λ node whole. ");
    scope.add_node_of(out, form, whole);
    out.add(" whole ≡ ");
    if has_word {
        scope.add_node_of(out, form, one);
        out.add(" ");
    }
    out.add("node };\n\n");
}

const FROM_WORDS: &str = "    ghost use Rattle.std.specs.Prelude.{◌≡◌};
    ghost use Rattle.$crate.specs.NodeIn.{";

fn add_from_head(out: &mut Text, scope: &Scope<'_>, from: &str, into: &str) {
    let parameter = scope.filled("node: $from", &["from", from]);
    let end = scope.filled("$into {", &["into", into]);
    let parameter = out.read(&parameter);
    let end = out.read(&end);
    add_signature(out, "    fn ", "from", parameter, end);
    out.add("\n");
}

/// The type of the wrapper of an item.
fn wrapper_type(scope: &Scope<'_>, form: Form, index: usize) -> Text {
    let mut out = Text::new(scope.alloc);
    out.add(scope.grammar.wrapper(form, index));
    out.add(form.lifetime());
    out
}

/// The first line of an impl of `From`, or the first two where it is long.
fn add_impl_line(out: &mut Text, scope: &Scope<'_>, form: Form, from: &str, into: &str) {
    let mut start = Text::new(scope.alloc);
    start.add(match form {
        Form::Owned => "impl ",
        Form::Borrowed => "impl<'tree> ",
    });
    start.add(scope.outside("From"));
    start.add("<");
    start.add(from);
    start.add(">");
    let len = start.len().saturating_add(into.len());
    let is_long = len.saturating_add(" for  {".len()) > WIDTH;
    out.add_text(&start);
    out.add(if is_long { "\n    for " } else { " for " });
    out.add(into);
    out.add(" {\n");
}

/// A node in its variant.
fn add_from_body(out: &mut Text, scope: &Scope<'_>, form: Form, whole: usize, one: usize) {
    let variant = variant_of(scope, form, whole, one);
    let template = match variant.len() {
        0..=86 => "        $variant(node)\n",
        _ => "        $variant(\n            node,\n        )\n",
    };
    let variant = ["variant", out.read(&variant)];
    fill(out, template, &variant);
}

/// The variant of an alternative.
fn variant_of(scope: &Scope<'_>, form: Form, whole: usize, one: usize) -> Text {
    let mut out = Text::new(scope.alloc);
    out.add(scope.grammar.wrapper(form, whole));
    out.add("::");
    out.add(scope.grammar.name(one));
    out
}

/// Whether clauses name the node in the wrapper of an item by a word.
fn has_word(scope: &Scope<'_>, form: Form, item: usize) -> bool {
    form == Form::Borrowed || scope.grammar.sort(item) == Sort::Choice
}

/// What the templates of a choice have of its alternatives.
#[derive(Drop)]
struct Parts {
    test: Text,
    cast: Text,
    casts: Text,
    lemmas: Text,
    arms: Text,
}

impl Parts {
    fn new(alloc: Global) -> Parts {
        Parts {
            test: Text::new(alloc),
            cast: Text::new(alloc),
            casts: Text::new(alloc),
            lemmas: Text::new(alloc),
            arms: Text::new(alloc),
        }
    }

    /// Which kinds cast to it, and how.
    fn read_kinds(&mut self, scope: &Scope<'_>, form: Form, item: &Item, index: usize) {
        match steps_from(scope.alloc, scope.grammar, index) {
            Ok(reached) => {
                add_casts(&mut self.casts, scope, form, &reached);
                if form == Form::Borrowed && item.forms.owned {
                    let name = ["name", item.name.as_str()];
                    fill(&mut self.test, "        $name::can_cast(kind)\n", &name);
                } else {
                    add_test(&mut self.test, scope, &reached);
                }
            }
            Err(_) => self.test.fail(),
        }
    }

    /// The head of `cast`.
    fn read_cast(&mut self, scope: &Scope<'_>, form: Form, index: usize) {
        let wrapper = wrapper_type(scope, form, index);
        let from = node_type(form);
        let wrapper = self.cast.read(&wrapper);
        add_cast_head(&mut self.cast, scope, from, form, wrapper);
    }
}

/// One form of the wrapper of a choice, from the line of its enum on.
fn add_form(out: &mut Text, scope: &Scope<'_>, form: Form, item: &Item, index: usize) {
    add_variants(out, scope, form, item, index);
    let mut parts = Parts::new(scope.alloc);
    parts.read_kinds(scope, form, item, index);
    parts.read_cast(scope, form, index);
    add_lemmas(&mut parts.lemmas, scope, form, item);
    add_arms(&mut parts.arms, scope, form, item, index);
    add_impls(out, scope, form, item, &parts);
}

/// What the wrapper of a choice implements.
fn add_impls(out: &mut Text, scope: &Scope<'_>, form: Form, item: &Item, parts: &Parts) {
    let values = [
        "name",
        item.name.as_str(),
        "snake",
        item.snake.as_str(),
        "crate",
        scope.crate_name,
        "language",
        scope.language,
        "test",
        out.read(&parts.test),
        "cast",
        out.read(&parts.cast),
        "casts",
        out.read(&parts.casts),
        "lemmas",
        out.read(&parts.lemmas),
        "arms",
        out.read(&parts.arms),
        "borrowed",
        item.borrowed.as_str(),
    ];
    let (template, other) = match form {
        Form::Owned => (CHOICE, OWNED),
        Form::Borrowed => (CHOICE_REF, BORROWED),
    };
    scope.fill(out, template, &values);
    if item.forms.is_both() {
        scope.fill(out, other, &values);
    }
}

/// The type of the nodes from which wrappers are cast.
fn node_type(form: Form) -> &'static str {
    match form {
        Form::Owned => "SyntaxNode",
        Form::Borrowed => "SyntaxNodeRef",
    }
}

/// The type that wrappers of nodes of one kind are.
fn wrapped(form: Form) -> &'static str {
    match form {
        Form::Owned => "NodeOf",
        Form::Borrowed => "NodeOfRef",
    }
}

/// The enum of a choice up to its closing brace.
fn add_variants(out: &mut Text, scope: &Scope<'_>, form: Form, item: &Item, index: usize) {
    out.add("pub enum ");
    out.add_text(&wrapper_type(scope, form, index));
    out.add(" {\n");
    for used in item.alternatives.iter() {
        add_docs(out, "    ", scope.grammar.docs(used.item), "");
        add_variant(out, scope, form, used.item);
    }
}

/// The variant of one alternative.
fn add_variant(out: &mut Text, scope: &Scope<'_>, form: Form, one: usize) {
    let name = scope.grammar.name(one);
    let inner = wrapper_type(scope, form, one);
    let len = name.len().saturating_add(inner.len());
    let template = match len.saturating_add("    (),".len()) > WIDTH {
        true => "    $name(\n        $inner,\n    ),\n",
        false => "    $name($inner),\n",
    };
    let values = ["name", name, "inner", out.read(&inner)];
    fill(out, template, &values);
}

/// Whether a kind casts to a choice.
fn add_test(out: &mut Text, scope: &Scope<'_>, reached: &Reach) {
    out.add("        match kind {\n");
    for step in reached.steps.iter() {
        if scope.grammar.sort(step.item) == Sort::Node {
            let name = scope.grammar.name(step.item);
            fill(out, "            Kind::$name => true,\n", &["name", name]);
        }
    }
    out.add("            _ => false,\n        }\n");
}

/// The arms that make the choice of nodes.
fn add_casts(out: &mut Text, scope: &Scope<'_>, form: Form, reached: &Reach) {
    for step in reached.steps.iter() {
        if scope.grammar.sort(step.item) == Sort::Node {
            add_cast_arm(out, scope, form, reached, *step);
        }
    }
}

/// The arms that give the node in an alternative.
fn add_arms(out: &mut Text, scope: &Scope<'_>, form: Form, item: &Item, index: usize) {
    for used in item.alternatives.iter() {
        let variant = variant_of(scope, form, index, used.item);
        let template = match variant.len() {
            0..=64 => "            $variant(node) => node.syntax(),\n",
            65..=79 => "            $variant(node) =>\n                node.syntax(),\n",
            _ => "            $variant(\n                node,\n            ) => node.syntax(),\n",
        };
        let variant = ["variant", out.read(&variant)];
        fill(out, template, &variant);
    }
}

/// The arm that wraps a node of the kind that was reached by this step.
fn add_cast_arm(out: &mut Text, scope: &Scope<'_>, form: Form, reached: &Reach, step: Step) {
    let kind = scope.grammar.name(step.item);
    let made = made_of(scope, form, reached, step);
    if made.len() > MAX_MADE {
        add_long_arm(out, scope, form, reached, step);
    } else {
        let template = match kind.len().saturating_add(made.len()) <= MAX_ARM {
            true => "            Kind::$kind => Some($made),\n",
            false => "            Kind::$kind => {\n                Some($made)\n            }\n",
        };
        let values = ["kind", kind, "made", out.read(&made)];
        fill(out, template, &values);
    }
}

/// A node in its variants in one expression, or the beginning of it where it is too long.
fn made_of(scope: &Scope<'_>, form: Form, reached: &Reach, step: Step) -> Text {
    let mut made = scope.filled("$wrapper { syntax }", &["wrapper", wrapped(form)]);
    let mut at = step;
    for _ in 0..reached.steps.len() {
        let Some(before) = reached.steps.get(at.from) else {
            break;
        };
        if before.item == at.item || made.len() > MAX_MADE {
            break;
        }
        made = wrapped_once(scope, form, before.item, at.item, &made);
        at = *before;
    }
    made
}

/// What was made of a node, in the variant of an alternative.
fn wrapped_once(scope: &Scope<'_>, form: Form, whole: usize, one: usize, made: &Text) -> Text {
    let mut out = variant_of(scope, form, whole, one);
    out.add("(");
    out.add_text(made);
    out.add(")");
    out
}

/// An arm that makes the alternative by which a node was reached, and then puts it into its variant.
fn add_long_arm(out: &mut Text, scope: &Scope<'_>, form: Form, reached: &Reach, step: Step) {
    let kind = scope.grammar.name(step.item);
    let whole = match reached.steps.first() {
        Some(first) => first.item,
        None => step.top,
    };
    fill(out, "            Kind::$kind => {\n", &["kind", kind]);
    let template = match step.top == step.item {
        true => "                let node = $wrapper { syntax };\n",
        false => "                let node = $wrapper::cast(syntax)?;\n",
    };
    let wrapper = match step.top == step.item {
        true => wrapped(form),
        false => scope.grammar.wrapper(form, step.top),
    };
    fill(out, template, &["wrapper", wrapper]);
    let variant = variant_of(scope, form, whole, step.top);
    let variant = out.read(&variant);
    add_wrap(out, variant);
    out.add("                Some(node)\n            }\n");
}

/// Adds a statement that puts a node into a variant, on as many lines as `rt fmt` takes.
fn add_wrap(out: &mut Text, variant: &str) {
    let template = match variant.len() {
        0..=66 => "                let node = $variant(node);\n",
        67..=72 =>
            "                let node = $variant(\n                    node,\n                );\n",
        73 => "                let node =\n                    $variant(node);\n",
        _ => LONG_WRAP,
    };
    fill(out, template, &["variant", variant]);
}

const LONG_WRAP: &str = "                let node =
                    $variant(
                        node,
                    );
";

/// The lemmas that what casts to an alternative casts to the whole.
fn add_lemmas(out: &mut Text, scope: &Scope<'_>, form: Form, item: &Item) {
    let template = match form {
        Form::Owned => "crate::proofs::CastLemmas::$one_is_$whole",
        Form::Borrowed => "crate::proofs::CastLemmas::$one_is_$whole_raw",
    };
    for (number, used) in item.alternatives.iter().enumerate() {
        let one = scope.grammar.snake(used.item);
        out.add(if number == 0 { "" } else { ", " });
        fill(out, template, &["one", one, "whole", item.snake.as_str()]);
    }
}
