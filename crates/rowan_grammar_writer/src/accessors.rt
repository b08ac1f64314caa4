//! The calls of a wrapper as source text.
use crate::pieces::Pieces;
use crate::writer::{ARGUMENTS, Imports, KindList, Scope, Text, WIDTH, fill};
use rowan_grammar_calls::calls::{Alike, Call, Gives};
use rowan_grammar_model::forms::Form;
use rowan_grammar_model::grammar::Sort;
use std::collections::HashMap;

/// What a constant has around its name and its kinds.
const ALIKE_HEAD: &str = "pub const : &[Kind] = &[];";

const CHILD: &str = "
    /// The first child that is `$target`.
$head
        ensures ok { let casts = casts_at kind_of is_$snake in
            IfOk result (λ found.
            option_map $inner found ≡ find casts (children self.now)) }
        ensures err { IfErr result (λ e. e ≡ Fault.Memory) }
    {
        support::child(&self.syntax)
    }
";

const CHILD_REF: &str = "
    /// The first child that is `$target`.
$head
        ensures { let casts = casts_at kind_of is_$snake in
            option_map $inner result ≡ find casts (children ($node self.now)) }
    {
        support::child_ref(self.syntax)
    }
";

const CHILDREN: &str = "
    /// The children that are `$target`, in order.
$head
        ensures ok { IfOk result (λ nodes. nodes ≡ children self.now) }
        ensures err { IfErr result (λ e. e ≡ Fault.Memory) }
    {
        support::children(&self.syntax)
    }
";

const CHILDREN_REF: &str = "
    /// The children that are `$target`, in order.
$head
        ensures { let casts = casts_at kind_of is_$snake in
            rest_that_casts casts result ≡ filter casts (children ($node self.now)) }
    {
        support::children_ref(self.syntax)
    }
";

const TOKEN: &str = "
    /// The first token `$target`.
$head
        ensures ok { let means = means_kind kind_of (sameb the_type) Kind.$target in
            IfOk result (λ found. option_map Token found
            ≡ find (is_token_of means) (children_with_tokens self.now)) }
        ensures err { IfErr result (λ e. e ≡ Fault.Memory) }
    {
        support::token($arguments)
    }
";

const TOKEN_REF: &str = "
    /// The first token `$target`.
$head
        ensures { let means = means_kind kind_of (sameb the_type) Kind.$target in
            option_map Token (option_map token_place result)
            ≡ find (is_token_of means) (children_with_tokens ($node self.now)) }
    {
        support::token_of($arguments)
    }
";

const NTH_CHILD: &str = "
    /// The child at index $index among those of `$kinds`, if it is `$target`.
$head
        ensures ok { let alike = has_one_of kind_of (sameb the_type) $kinds.now in
            let casts = casts_at kind_of is_$snake in IfOk result (λ found.
            option_map $inner found ≡ option_and_then (if_casts casts)
            (slice_get (filter alike (children self.now)) $index)) }
        ensures err { IfErr result (λ e. e ≡ Fault.Memory) }
    {
        nth_child($arguments)
    }
";

const NTH_CHILD_REF: &str = "
    /// The child at index $index among those of `$kinds`, if it is `$target`.
$head
        ensures { let alike = has_one_of kind_of (sameb the_type) $kinds.now in
            let casts = casts_at kind_of is_$snake in
            option_map $inner result ≡ option_and_then (if_casts casts)
            (slice_get (filter alike (children ($node self.now))) $index) }
    {
        support::nth_child_ref($arguments)
    }
";

const NTH_TOKEN: &str = "
    /// The token at index $index among those of `$kinds`.
$head
        ensures ok { let alike = is_token_of (means_one_of kind_of (sameb the_type) $kinds.now) in
            IfOk result (λ found. option_map Token found
            ≡ slice_get (filter alike (children_with_tokens self.now)) $index) }
        ensures err { IfErr result (λ e. e ≡ Fault.Memory) }
    {
        support::nth_token($arguments)
    }
";

const NTH_TOKEN_REF: &str = "
    /// The token at index $index among those of `$kinds`.
$head
        ensures { let alike = is_token_of (means_one_of kind_of (sameb the_type) $kinds.now) in
            option_map Token (option_map token_place result)
            ≡ slice_get (filter alike (children_with_tokens ($node self.now))) $index }
    {
        support::nth_token_ref($arguments)
    }
";

/// The constants with the kinds of the parts of a node that are alike.
pub fn add_kinds(out: &mut Text, scope: &Scope<'_>, index: usize) {
    for alike in scope.alike(index).iter() {
        add_alike(out, scope, alike);
    }
}

/// The calls of the wrapper of a node.
pub fn add_calls(out: &mut Text, scope: &Scope<'_>, form: Form, index: usize) {
    for call in scope.calls(index).iter() {
        if scope.has_call(form, call) {
            add_call(out, scope, form, index, call);
        }
    }
}

/// The constant that has the kinds of parts that are alike.
fn add_alike(out: &mut Text, scope: &Scope<'_>, alike: &Alike) {
    let mut kinds = KindList::new(scope.alloc);
    for kind in alike.kinds.iter() {
        kinds.add(scope.grammar.name(*kind));
    }
    let name = alike.name.as_str();
    let len = ALIKE_HEAD
        .len()
        .saturating_add(name.len())
        .saturating_add(kinds.len());
    let head = match kinds.len() {
        0..=ARGUMENTS if len > WIDTH => "$name: &[Kind] =\n    &[",
        _ => "$name: &[Kind] = &[",
    };
    out.add("\n/// The kinds of parts that are alike.\npub const ");
    fill(out, head, &["name", name]);
    kinds.add_to(out);
    out.add("];\n");
}

fn add_call(out: &mut Text, scope: &Scope<'_>, form: Form, index: usize, call: &Call) {
    let mut pieces = Pieces::new(scope.alloc);
    pieces.read(scope, form, "    pub fn ", call);
    pieces.read_kinds(scope, index, call);
    pieces.read_arguments(scope, form.parent(), call);
    pieces.read_node(scope, form, index);
    pieces.fill(out, template_of(form, call.gives));
}

fn template_of(form: Form, gives: Gives) -> &'static str {
    match (form, gives) {
        (Form::Owned, Gives::Token(_)) => TOKEN,
        (Form::Owned, Gives::NthToken(_)) => NTH_TOKEN,
        (Form::Owned, Gives::Child(_)) => CHILD,
        (Form::Owned, Gives::NthChild(_, _)) => NTH_CHILD,
        (Form::Owned, Gives::Children(_)) => CHILDREN,
        (Form::Borrowed, Gives::Token(_)) => TOKEN_REF,
        (Form::Borrowed, Gives::NthToken(_)) => NTH_TOKEN_REF,
        (Form::Borrowed, Gives::Child(_)) => CHILD_REF,
        (Form::Borrowed, Gives::NthChild(_, _)) => NTH_CHILD_REF,
        (Form::Borrowed, Gives::Children(_)) => CHILDREN_REF,
    }
}

/// Which contracts some calls have.
#[derive(Clone, Copy)]
struct Uses {
    form: Form,
    token: bool,
    child: bool,
    many: bool,
    nth_token: bool,
    nth_child: bool,
}

impl Uses {
    fn of(scope: &Scope<'_>, form: Form, calls: &[Call]) -> Uses {
        let mut uses = Uses {
            form,
            token: false,
            child: false,
            many: false,
            nth_token: false,
            nth_child: false,
        };
        for call in calls.iter().filter(|call| scope.has_call(form, call)) {
            match call.gives {
                Gives::Token(_) => uses.token = true,
                Gives::Child(_) => uses.child = true,
                Gives::Children(_) => uses.many = true,
                Gives::NthToken(_) => uses.nth_token = true,
                Gives::NthChild(_, _) => uses.nth_child = true,
            }
        }
        uses
    }

    fn has_nth(self) -> bool {
        self.nth_token || self.nth_child
    }

    fn has_token(self) -> bool {
        self.token || self.nth_token
    }

    fn has_child(self) -> bool {
        self.child || self.nth_child || self.many
    }

    /// Whether the clause for many names what they cast to.
    fn has_many_casts(self) -> bool {
        self.many && self.form == Form::Borrowed
    }

    /// Whether clauses name the kinds of the language.
    fn has_kinds(self) -> bool {
        self.has_token() || self.child || self.nth_child || self.has_many_casts()
    }
}

/// What the contracts of the calls of a node name.
pub fn add_call_imports(out: &mut Text, scope: &Scope<'_>, form: Form, index: usize) {
    add_clause_words(out, scope, form, index);
    let itself = match form {
        Form::Owned => None,
        Form::Borrowed => Some(index),
    };
    add_nodes_in(out, scope, form, itself, scope.calls(index));
}

/// What the contracts of the calls of a node or a trait name, but for the nodes in wrappers.
pub fn add_clause_words(out: &mut Text, scope: &Scope<'_>, form: Form, index: usize) {
    let calls = scope.calls(index);
    let uses = Uses::of(scope, form, calls);
    add_words(
        out,
        scope,
        "    ghost use Rattle.std.specs.Prelude.{",
        &[
            (true, "◌≡◌"),
            (uses.has_nth() || uses.has_many_casts(), "filter"),
            (uses.has_nth(), "slice_get"),
            (form == Form::Owned, "IfOk"),
            (form == Form::Owned, "IfErr"),
        ],
    );
    let has_first = uses.token || uses.child;
    add_words(
        out,
        scope,
        "    ghost use Rattle.std.specs.List.{",
        &[(has_first, "find")],
    );
    add_words(
        out,
        scope,
        "    ghost use Rattle.std.specs.Option.{",
        &[
            (has_first || uses.has_nth(), "option_map"),
            (uses.nth_child, "option_and_then"),
        ],
    );
    add_tree_words(out, scope, uses);
    if uses.has_token() || uses.nth_child {
        let module = "    ghost use Rattle.$crate.specs.contracts.$module.Kind.{";
        add_words(out, scope, module, &[(true, "the_type")]);
        let module = "    ghost use denote.Enum.Bare.{";
        add_words(out, scope, module, &[(true, "sameb")]);
    }
    let kinds = "    ghost use Rattle.$crate.specs.Kinds.{";
    add_words(out, scope, kinds, &[(uses.has_kinds(), "kind_of")]);
    add_casts(out, scope, form, calls);
}

/// The words for trees and wrappers that the contracts name.
fn add_tree_words(out: &mut Text, scope: &Scope<'_>, uses: Uses) {
    add_words(
        out,
        scope,
        "    ghost use Rattle.rowan.specs.Types.NodeOrToken.TheVariants.{",
        &[(uses.has_token(), "Token")],
    );
    add_words(
        out,
        scope,
        "    ghost use Rattle.rowan.specs.Moves.{",
        &[
            (uses.has_child(), "children"),
            (uses.has_token(), "children_with_tokens"),
        ],
    );
    add_words(
        out,
        scope,
        "    ghost use Rattle.rowan.specs.Ast.{",
        &[
            (
                uses.child || uses.nth_child || uses.has_many_casts(),
                "casts_at",
            ),
            (uses.nth_child, "if_casts"),
            (uses.nth_child, "has_one_of"),
            (uses.has_token(), "is_token_of"),
            (uses.nth_token, "means_one_of"),
            (uses.has_many_casts(), "rest_that_casts"),
        ],
    );
    let has_places = uses.form == Form::Borrowed && uses.has_token();
    add_words(
        out,
        scope,
        "    ghost use Rattle.rowan.specs.Refs.{",
        &[(has_places, "token_place")],
    );
    add_words(
        out,
        scope,
        "    ghost use Rattle.rowan.specs.Pointer.{",
        &[(uses.token, "means_kind")],
    );
}

/// A line with this head that imports the words that are wanted, if one is.
fn add_words(out: &mut Text, scope: &Scope<'_>, head: &str, words: &[(bool, &str)]) {
    let mut imports = Imports::new(scope, head, ";");
    for (is_wanted, word) in words.iter() {
        if *is_wanted {
            imports.add(word);
        }
    }
    imports.finish(out);
}

/// What casts to the wrappers of the children that the calls give.
fn add_casts(out: &mut Text, scope: &Scope<'_>, form: Form, calls: &[Call]) {
    let mut imports = Imports::new(scope, "    ghost use Rattle.$crate.specs.Casts.{", ";");
    let mut named: HashMap<usize, bool> = HashMap::new(scope.alloc);
    for call in calls.iter().filter(|call| scope.has_call(form, call)) {
        let item = match call.gives {
            Gives::Child(item) | Gives::NthChild(item, _) => Some(item),
            Gives::Children(item) if form == Form::Borrowed => Some(item),
            _ => None,
        };
        if let Some(item) = item {
            match named.insert(item, true) {
                Ok(None) => imports.add_word("is_", scope.grammar.snake(item)),
                Ok(Some(_)) => {}
                Err(_) => out.fail(),
            }
        }
    }
    imports.finish(out);
}

/// The nodes in the wrappers of the children that the calls give, behind the word for that of the
/// wrapper itself, if there is one.
pub fn add_nodes_in(
    out: &mut Text,
    scope: &Scope<'_>,
    form: Form,
    itself: Option<usize>,
    calls: &[Call],
) {
    let mut nodes = NodesIn {
        form,
        imports: Imports::new(scope, "    ghost use Rattle.$crate.specs.NodeIn.{", ";"),
        named: HashMap::new(scope.alloc),
    };
    if let Some(itself) = itself {
        nodes.add(out, scope, itself);
    }
    for call in calls.iter().filter(|call| scope.has_call(form, call)) {
        match call.gives {
            Gives::Child(item) | Gives::NthChild(item, _) => nodes.add(out, scope, item),
            _ => {}
        }
    }
    nodes.imports.finish(out);
}

/// The words for nodes in wrappers, each once.
#[derive(Drop)]
struct NodesIn {
    form: Form,
    imports: Imports,
    /// The choices that are named. All nodes have one word, by the largest number.
    named: HashMap<usize, bool>,
}

impl NodesIn {
    /// Names the node in the wrapper of an item, if clauses have a word for it.
    fn add(&mut self, out: &mut Text, scope: &Scope<'_>, item: usize) {
        let is_choice = scope.grammar.sort(item) == Sort::Choice;
        if self.form == Form::Owned && !is_choice {
            return;
        }
        let key = if is_choice { item } else { usize::MAX };
        match self.named.insert(key, true) {
            Ok(None) => {
                let name = scope.node_of(self.form, item);
                self.imports.add(out.read(&name));
            }
            Ok(Some(_)) => {}
            Err(_) => out.fail(),
        }
    }
}
