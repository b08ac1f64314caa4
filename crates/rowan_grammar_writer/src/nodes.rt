//! The file of the wrappers: `src/nodes.rt`.
use crate::choices::add_choice;
use crate::structs::{add_node, add_node_types};
use crate::tokens::{add_token, add_token_types};
use crate::traits::add_traits;
use crate::writer::{Scope, Text, fill};
use rowan_grammar_calls::calls::Gives;
use rowan_grammar_model::forms::Form;
use rowan_grammar_model::grammar::Sort;

/// What the ghost fields of borrowed wrappers name, and the contract of `nth_child`: before the words
/// of that contract, and behind the places of what is borrowed.
const OF_FIELDS: &str = "ghost use Rattle.std.specs.Prelude.{◌≡◌, true};\n";

const OF_CASTS: &str = "ghost use Rattle.rowan.specs.Ast.{casts_at};\n";

const OF_KINDS: &str = "ghost use Rattle.$crate.specs.Kinds.{kind_of};\n\n";

/// What the contract of `nth_child` names.
const OF_NTH: &str = "\
ghost use Rattle.std.specs.Prelude.{filter, slice_get, IfOk, IfErr};
ghost use Rattle.std.specs.Option.{option_map, option_and_then};
ghost use Rattle.rowan.specs.Moves.{children};
ghost use Rattle.rowan.specs.Ast.{if_casts, has_one_of};
ghost use Rattle.$crate.specs.contracts.$module.Kind.{the_type};
ghost use denote.Enum.Bare.{sameb};
";

/// The function by which owned wrappers find parts that are alike. Its contract compares kinds as
/// those of the accessors do, which are not proved by that of `support::nth_child`.
const NTH: &str = "
/// Of the children with one of these kinds the one at an index, if it casts.
fn nth_child<N: @AstNode<Language = $language>>(
    parent: &@SyntaxNode<$language>,
    kinds: &[Kind],
    index: usize,
) -> @Result<@Option<N>, Fault>
    ensures ok { let alike = has_one_of kind_of (sameb the_type) kinds.now in
        let casts = casts_at kind_of N.casts in IfOk result (λ found.
        option_map N.node_of found ≡ option_and_then (if_casts casts)
        (slice_get (filter alike (children parent.now)) index)) }
    ensures err { IfErr result (λ e. e ≡ Fault.Memory) }
{
    support::nth_child(parent, kinds, index)
}
";

/// What the calls of a grammar need.
#[derive(Clone, Copy)]
struct Needs {
    many: bool,
    one: bool,
    token: bool,
    nth_child: bool,
}

impl Needs {
    fn has_calls(self) -> bool {
        self.many || self.one || self.token || self.nth_child
    }
}

/// The text of `src/nodes.rt`.
pub fn add_nodes_code(out: &mut Text, scope: &Scope<'_>) {
    let owned = needs_of(scope, Form::Owned);
    add_head(out, scope, owned, needs_of(scope, Form::Borrowed));
    add_node_types(out, scope);
    if !scope.contents.is_empty() {
        add_token_types(out, scope);
    }
    for (index, item) in scope.grammar.items.iter().enumerate() {
        match item.sort {
            _ if !item.is_wrapped() => {}
            Sort::Node => add_node(out, scope, item, index),
            Sort::Choice => add_choice(out, scope, item, index),
            _ => add_token(out, scope, item, index),
        }
    }
    add_traits(out, scope);
    if owned.nth_child {
        scope.fill(out, NTH, &["language", scope.language]);
    }
}

fn add_head(out: &mut Text, scope: &Scope<'_>, owned: Needs, borrowed: Needs) {
    let has_contents = !scope.contents.is_empty();
    let has_owned = scope.has_nodes(Form::Owned) || has_contents;
    let has_borrowed = scope.has_nodes(Form::Borrowed) || has_contents;
    let names = ["language", scope.language, "module", scope.module];
    fill(out, which(has_owned, has_borrowed), &names);
    if has_borrowed || owned.nth_child {
        add_words_of_fields(out, scope, owned);
    }
    let line = match scope.language < "Kind" {
        true => "use crate::$module::{$language, Kind};\n",
        false => "use crate::$module::{Kind, $language};\n",
    };
    fill(out, line, &names);
    add_uses(out, scope, owned, borrowed);
}

/// What is named from other crates.
fn add_uses(out: &mut Text, scope: &Scope<'_>, owned: Needs, borrowed: Needs) {
    let has_owned = scope.has_nodes(Form::Owned);
    let has_borrowed = scope.has_nodes(Form::Borrowed);
    let has_contents = !scope.contents.is_empty();
    let has_fault = owned.has_calls() || scope.has_both();
    add_use(
        out,
        scope,
        "rowan::ast",
        &[
            (owned.many, "AstChildren"),
            (has_owned, "AstNode"),
            (has_borrowed, "AstNodeRef"),
            (borrowed.many, "AstNodesRef"),
            (has_contents, "AstToken"),
            (has_contents, "AstTokenRef"),
            (owned.has_calls() || borrowed.has_calls(), "support"),
        ],
    );
    add_use(
        out,
        scope,
        "rowan",
        &[
            (has_fault || has_contents, "Fault"),
            (has_owned, "SyntaxNode"),
            (has_borrowed, "SyntaxNodeRef"),
            (owned.token || has_contents, "SyntaxToken"),
            (borrowed.token || has_contents, "SyntaxTokenRef"),
        ],
    );
    let has_models = has_owned || has_contents;
    add_use(out, scope, "std::marker", &[(has_models, "Model")]);
}

/// The words that are named outside of impls.
fn add_words_of_fields(out: &mut Text, scope: &Scope<'_>, owned: Needs) {
    let names = ["crate", scope.crate_name, "module", scope.module];
    out.add(OF_FIELDS);
    if owned.nth_child {
        fill(out, OF_NTH, &names);
    }
    out.add(OF_CASTS);
    let places = places(scope.has_nodes(Form::Borrowed), !scope.contents.is_empty());
    fill(out, places, &names);
    fill(out, OF_KINDS, &names);
}

/// The lines that import the places of what is borrowed, and which kinds cast to it.
fn places(has_nodes: bool, has_tokens: bool) -> &'static str {
    match (has_nodes, has_tokens) {
        (false, false) => "",
        (true, false) => PLACES_OF_NODES,
        (false, true) => PLACES_OF_TOKENS,
        (true, true) => PLACES,
    }
}

const PLACES_OF_NODES: &str = "\
ghost use Rattle.rowan.specs.Refs.{node_place};
ghost use Rattle.$crate.specs.Casts.{has_number};
";

const PLACES_OF_TOKENS: &str = "\
ghost use Rattle.rowan.specs.Refs.{token_place};
ghost use Rattle.$crate.specs.Casts.{has_number};
";

const PLACES: &str = "\
ghost use Rattle.rowan.specs.Refs.{node_place, token_place};
ghost use Rattle.$crate.specs.Casts.{has_number};
";

/// The first line, which says which wrappers the file has.
fn which(has_owned: bool, has_borrowed: bool) -> &'static str {
    match (has_owned, has_borrowed) {
        (true, true) => BOTH,
        (true, false) => "//! Wrappers of the nodes of $language, which keep the tree.\n",
        _ => "//! Wrappers of the nodes of $language, which borrow the tree.\n",
    }
}

const BOTH: &str = "\
//! Wrappers of the nodes of $language: owned ones, which keep the tree, and those that borrow it.
";

/// A line that imports those of the names of a module that are wanted and that no wrapper has.
fn add_use(out: &mut Text, scope: &Scope<'_>, module: &str, names: &[(bool, &str)]) {
    let mut list = Text::new(scope.alloc);
    let mut count = 0usize;
    for (is_wanted, name) in names.iter() {
        if *is_wanted && scope.outside(name) == *name {
            list.add(if count == 0 { "" } else { ", " });
            list.add(name);
            count = count.saturating_add(1);
        }
    }
    let template = match count {
        0 => "",
        1 => "use $module::$list;\n",
        _ => "use $module::{$list};\n",
    };
    let values = ["module", module, "list", out.read(&list)];
    fill(out, template, &values);
}

/// What the calls of wrappers of a form need.
fn needs_of(scope: &Scope<'_>, form: Form) -> Needs {
    let mut needs = Needs {
        many: false,
        one: false,
        token: false,
        nth_child: false,
    };
    for index in scope.nodes.iter() {
        if !scope.grammar.forms(*index).has(form) {
            continue;
        }
        for call in scope
            .calls(*index)
            .iter()
            .filter(|call| scope.has_call(form, call))
        {
            match call.gives {
                Gives::Token(_) | Gives::NthToken(_) => needs.token = true,
                Gives::Child(_) => needs.one = true,
                Gives::NthChild(_, _) => needs.nth_child = true,
                Gives::Children(_) => needs.many = true,
            }
        }
    }
    needs
}
