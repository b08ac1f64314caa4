//! The traits of parts that many nodes share, as source text.
use crate::accessors::{add_clause_words, add_nodes_in};
use crate::pieces::Pieces;
use crate::writer::{Scope, Text, WIDTH, add_docs, fill};
use rowan_grammar_calls::calls::{Call, Gives};
use rowan_grammar_calls::shared::Shared;
use rowan_grammar_model::forms::Form;

const CHILD: &str = "
    /// The first child that is `$target`.
$head
        ensures ok { let casts = casts_at kind_of is_$snake in
            IfOk result (λ found.
            option_map $inner found ≡ find casts (children ($node self.now))) }
        ensures err { IfErr result (λ e. e ≡ Fault.Memory) }$body";

const CHILD_REF: &str = "
    /// The first child that is `$target`.
$head
        ensures { let casts = casts_at kind_of is_$snake in
            option_map $inner result ≡ find casts (children ($node self.now)) }$body";

const CHILDREN: &str = "
    /// The children that are `$target`, in order.
$head
        ensures ok { IfOk result (λ nodes. nodes ≡ children ($node self.now)) }
        ensures err { IfErr result (λ e. e ≡ Fault.Memory) }$body";

const CHILDREN_REF: &str = "
    /// The children that are `$target`, in order.
$head
        ensures { let casts = casts_at kind_of is_$snake in
            rest_that_casts casts result ≡ filter casts (children ($node self.now)) }$body";

const TOKEN: &str = "
    /// The first token `$target`.
$head
        ensures ok { let means = means_kind kind_of (sameb the_type) Kind.$target in
            IfOk result (λ found. option_map Token found
            ≡ find (is_token_of means) (children_with_tokens ($node self.now))) }
        ensures err { IfErr result (λ e. e ≡ Fault.Memory) }$body";

const TOKEN_REF: &str = "
    /// The first token `$target`.
$head
        ensures { let means = means_kind kind_of (sameb the_type) Kind.$target in
            option_map Token (option_map token_place result)
            ≡ find (is_token_of means) (children_with_tokens ($node self.now)) }$body";

/// The traits, and what has them. A trait has the form of wrappers that all its calls have.
pub fn add_traits(out: &mut Text, scope: &Scope<'_>) {
    for shared in scope.traits.iter() {
        for form in [Form::Owned, Form::Borrowed] {
            if shared.forms.has(form) {
                add_trait(out, scope, form, shared);
            }
        }
    }
}

/// A trait, and its impls. Owned wrappers have its calls by their bodies in the trait.
fn add_trait(out: &mut Text, scope: &Scope<'_>, form: Form, shared: &Shared) {
    let name = scope.grammar.name(shared.item);
    out.add("\n");
    match form {
        Form::Borrowed if shared.forms.owned => {
            fill(
                out,
                "/// [`$name`], of wrappers that borrow the tree.\n",
                &["name", name],
            );
        }
        _ => add_docs(out, "", scope.grammar.docs(shared.item), ""),
    }
    add_head(out, scope, form, scope.grammar.wrapper(form, shared.item));
    add_clause_words(out, scope, form, shared.item);
    add_nodes_in(out, scope, form, None, scope.calls(shared.item));
    for call in scope.calls(shared.item).iter() {
        add_own_call(out, scope, form, call);
    }
    out.add("}\n");
    for user in shared.users.iter() {
        if scope.grammar.forms(*user).has(form) {
            add_impl(out, scope, form, shared, *user);
        }
    }
}

/// The first line of a trait, or its parts on lines of their own where it is long.
fn add_head(out: &mut Text, scope: &Scope<'_>, form: Form, name: &str) {
    let mut start = Text::new(scope.alloc);
    start.add("pub trait ");
    start.add(name);
    start.add(form.lifetime());
    start.add(": ");
    start.add(match form {
        Form::Owned => scope.outside("AstNode"),
        Form::Borrowed => scope.outside("AstNodeRef"),
    });
    start.add("<");
    let inside = match form {
        Form::Owned => "Language = $language> {\n",
        Form::Borrowed => "'tree, Language = $language> {\n",
    };
    let outside = match form {
        Form::Owned => "\n    Language = $language,\n> {\n",
        Form::Borrowed => "\n    'tree,\n    Language = $language,\n> {\n",
    };
    let len = inside.len().saturating_sub("$language\n".len());
    let len = len
        .saturating_add(start.len())
        .saturating_add(scope.language.len());
    out.add_text(&start);
    let template = if len > WIDTH { outside } else { inside };
    fill(out, template, &["language", scope.language]);
}

/// The impl of a trait for a node or a choice.
fn add_impl(out: &mut Text, scope: &Scope<'_>, form: Form, shared: &Shared, user: usize) {
    add_impl_line(out, scope, form, shared, user);
    if form == Form::Borrowed {
        let calls = scope.calls(shared.item);
        add_clause_words(out, scope, form, shared.item);
        add_nodes_in(out, scope, form, Some(user), calls);
        for call in calls.iter() {
            add_call_of(out, scope, form, user, call);
        }
        out.add("}\n");
    }
}

/// The first line of an impl, or the first two where it is long. An owned wrapper has no more.
fn add_impl_line(out: &mut Text, scope: &Scope<'_>, form: Form, shared: &Shared, user: usize) {
    let name = scope.grammar.wrapper(form, shared.item);
    let whole = scope.grammar.wrapper(form, user);
    let (short, long) = match form {
        Form::Owned => (
            "\nimpl $name for $whole {}\n",
            "\nimpl $name\n    for $whole {}\n",
        ),
        Form::Borrowed => (IMPL, LONG_IMPL),
    };
    let len = short.len().saturating_sub("\n$name$whole\n".len());
    let len = len.saturating_add(name.len()).saturating_add(whole.len());
    let template = if len > WIDTH { long } else { short };
    fill(out, template, &["name", name, "whole", whole]);
}

const IMPL: &str = "
impl<'tree> $name<'tree> for $whole<'tree> {
";

const LONG_IMPL: &str = "
impl<'tree> $name<'tree>
    for $whole<'tree> {
";

/// A call in its trait: owned wrappers have it by its body there.
fn add_own_call(out: &mut Text, scope: &Scope<'_>, form: Form, call: &Call) {
    let mut pieces = Pieces::new(scope.alloc);
    pieces.node.add("Self.node_of");
    match form {
        Form::Owned => pieces.read_body(scope, function_of(form, call.gives), call),
        Form::Borrowed => pieces.body.add(";\n"),
    }
    pieces.read(scope, form, "    fn ", call);
    pieces.fill(out, template_of(form, call.gives));
}

/// A call in the impl for a node or a choice.
fn add_call_of(out: &mut Text, scope: &Scope<'_>, form: Form, user: usize, call: &Call) {
    let mut pieces = Pieces::new(scope.alloc);
    pieces.read_node(scope, form, user);
    pieces.read_body(scope, function_of(form, call.gives), call);
    pieces.read(scope, form, "    fn ", call);
    pieces.fill(out, template_of(form, call.gives));
}

fn template_of(form: Form, gives: Gives) -> &'static str {
    match (form, gives) {
        (Form::Owned, Gives::Child(_) | Gives::NthChild(_, _)) => CHILD,
        (Form::Owned, Gives::Children(_)) => CHILDREN,
        (Form::Owned, Gives::Token(_) | Gives::NthToken(_)) => TOKEN,
        (Form::Borrowed, Gives::Child(_) | Gives::NthChild(_, _)) => CHILD_REF,
        (Form::Borrowed, Gives::Children(_)) => CHILDREN_REF,
        (Form::Borrowed, Gives::Token(_) | Gives::NthToken(_)) => TOKEN_REF,
    }
}

/// The function of `support` that a call goes by.
fn function_of(form: Form, gives: Gives) -> &'static str {
    match (form, gives) {
        (Form::Owned, Gives::Child(_) | Gives::NthChild(_, _)) => "child",
        (Form::Owned, Gives::Children(_)) => "children",
        (Form::Owned, Gives::Token(_) | Gives::NthToken(_)) => "token",
        (Form::Borrowed, Gives::Child(_) | Gives::NthChild(_, _)) => "child_ref",
        (Form::Borrowed, Gives::Children(_)) => "children_ref",
        (Form::Borrowed, Gives::Token(_) | Gives::NthToken(_)) => "token_of",
    }
}
