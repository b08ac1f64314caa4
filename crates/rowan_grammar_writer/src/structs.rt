//! The wrappers of nodes as source text.
use crate::accessors::{add_call_imports, add_calls, add_kinds};
use crate::writer::{Scope, Text, add_cast_head, add_docs, fill, kind_test};
use rowan_grammar_model::forms::Form;
use rowan_grammar_model::grammar::Item;

/// What wrappers of nodes of one kind are: a type for each number of a kind.
const NODE_OF: &str = "
/// A node whose kind has this number.
#[derive(Clone, PartialEq, Eq, Hash, Drop)]
pub struct NodeOf<const KIND: u16> {
    syntax: @SyntaxNode<$language>,
}

impl<const KIND: u16> @Model for NodeOf<KIND> {
    ghost use Rattle.std.specs.Prelude.{◌≡◌, true};
    ghost use Rattle.rowan.specs.Cursor.{Cursor};
    ghost use Rattle.rowan.specs.CursorCode.{coded_cursor};
    ghost use Rattle.rowan.specs.Ast.{casts_at};
    ghost use Rattle.$crate.specs.Casts.{has_number};
    ghost use Rattle.$crate.specs.Kinds.{kind_of};

    ghost Value = { Cursor };

    ghost coded = { coded_cursor };

    ghost view = { λ wrapper. wrapper.syntax };

    ghost inverse = { λ node. record { syntax = node } };

    ghost invariant = { λ wrapper. casts_at kind_of (has_number KIND) wrapper.syntax ≡ true };
}

impl<const KIND: u16> @AstNode for NodeOf<KIND> {
    type Language = $language;

    ghost use Rattle.std.specs.Prelude.{◌≡◌};
    ghost use Rattle.std.specs.Option.{option_map};
    ghost use Rattle.rowan.specs.Ast.{casts_at, if_casts};
    ghost use Rattle.$crate.specs.Casts.{has_number, same_kind};
    ghost use Rattle.$crate.specs.Kinds.{kind_of};
    ghost use Rattle.std.proofs.Common.{ap};

    ghost casts = { has_number KIND };

    ghost node_of = { λ wrapper. wrapper };

    fn can_cast(kind: Kind) -> bool {
$test
    }

$cast
        ensures { let casting = casts_at kind_of (has_number KIND) in
            option_map (λ wrapper. wrapper) result ≡ if_casts casting syntax }
    {
        if Self::can_cast(syntax.kind()) {
            Some(NodeOf { syntax })
        } else {
            None
        }
    }

    fn syntax(&self) -> &@SyntaxNode<$language> {
        &self.syntax
    }

    ghost equal_kinds = { λ a b same. ap (has_number KIND) (same_kind a b same) };
}
";

/// What leads from owned wrappers to borrowed ones.
const AS_REF: &str = "
impl<const KIND: u16> NodeOf<KIND> {
    ghost use Rattle.std.specs.Prelude.{◌≡◌};
    ghost use Rattle.$crate.specs.NodeIn.{place_in};

    /// The same node, borrowed from its tree.
    pub fn as_ref(&self) -> NodeOfRef<'_, KIND>
        ensures { place_in result ≡ self.now }
    {
        NodeOfRef {
            syntax: self.syntax.as_ref(),
        }
    }
}
";

/// The same of borrowed ones.
const NODE_OF_REF: &str = "
/// A node whose kind has this number, borrowed from its tree.
#[derive(Clone, Copy, PartialEq, Eq, Hash)]
pub struct NodeOfRef<'tree, const KIND: u16> {
    syntax: @SyntaxNodeRef<'tree, $language>,
    ghost casts: { casts_at kind_of (has_number KIND) (node_place syntax) ≡ true },
}

impl<'tree, const KIND: u16> @AstNodeRef<'tree> for NodeOfRef<'tree, KIND> {
    type Language = $language;

    ghost use Rattle.std.specs.Prelude.{◌≡◌, true};
    ghost use Rattle.std.specs.Option.{option_map};
    ghost use Rattle.rowan.specs.Ast.{casts_at, if_casts};
    ghost use Rattle.rowan.specs.Refs.{node_place};
    ghost use Rattle.$crate.specs.Casts.{has_number};
    ghost use Rattle.$crate.specs.Kinds.{kind_of};
    ghost use Rattle.$crate.specs.NodeIn.{place_in};

    ghost casts = { has_number KIND };

    ghost node_of = { place_in };

    fn can_cast(kind: Kind) -> bool
        ensures { result ≡ has_number KIND kind }
    {
$test
    }

$cast
        ensures { let casting = casts_at kind_of (has_number KIND) in
            option_map place_in result ≡ if_casts casting (node_place syntax.entry) }
    {
        if Self::can_cast(syntax.kind()) {
            Some(NodeOfRef { syntax })
        } else {
            None
        }
    }

    fn syntax(&self) -> @SyntaxNodeRef<'tree, $language>
        ensures node { node_place result ≡ place_in self.now }
        ensures casts { casts_at kind_of (has_number KIND) (node_place result) ≡ true }
    {
        self.syntax
    }
}
";

/// What leads from borrowed wrappers to owned ones.
const TO_OWNED: &str = "
impl<'tree, const KIND: u16> NodeOfRef<'tree, KIND> {
    ghost use Rattle.std.specs.Prelude.{◌≡◌, IfOk, IfErr};
    ghost use Rattle.$crate.specs.NodeIn.{place_in};

    /// The same node in a wrapper that keeps the tree. Refused with `Memory` alone.
    pub fn to_owned(&self) -> @Result<NodeOf<KIND>, Fault>
        ensures ok { IfOk result (λ owned. owned ≡ place_in self.now) }
        ensures err { IfErr result (λ e. e ≡ Fault.Memory) }
    {
        let syntax = self.syntax.to_owned()?;
        Ok(NodeOf { syntax })
    }
}
";

const DEBUG: &str = "
impl<const KIND: u16> std::fmt::Debug for $wrapper {
    fn fmt<W: std::fmt::Write>(&self, f: &mut std::fmt::Formatter<W>) -> std::fmt::Result {
        self.syntax.fmt(f)
    }
}
";

/// The name of the owned wrapper of one kind.
const NODE: &str = "pub type $name = NodeOf<$number>;\n";

/// That of the borrowed one.
const NODE_REF: &str = "pub type $borrowed<'tree> = NodeOfRef<'tree, $number>;\n";

/// The types that wrappers of nodes of one kind are.
pub fn add_node_types(out: &mut Text, scope: &Scope<'_>) {
    let test = kind_test(scope);
    let test = out.read(&test);
    if scope.has_nodes(Form::Owned) {
        add_node_type(out, scope, Form::Owned, test);
    }
    if scope.has_nodes(Form::Borrowed) {
        add_node_type(out, scope, Form::Borrowed, test);
    }
}

/// The type of wrappers of one form, and what leads from it to the other one.
fn add_node_type(out: &mut Text, scope: &Scope<'_>, form: Form, test: &str) {
    let (from, into, template, other, wrapper) = match form {
        Form::Owned => (
            "SyntaxNode",
            "NodeOf<KIND>",
            NODE_OF,
            AS_REF,
            "NodeOf<KIND>",
        ),
        Form::Borrowed => (
            "SyntaxNodeRef",
            "NodeOfRef<'tree, KIND>",
            NODE_OF_REF,
            TO_OWNED,
            "NodeOfRef<'_, KIND>",
        ),
    };
    let mut cast = Text::new(scope.alloc);
    add_cast_head(&mut cast, scope, from, form, into);
    let values = [
        "crate",
        scope.crate_name,
        "language",
        scope.language,
        "cast",
        out.read(&cast),
        "test",
        test,
    ];
    scope.fill(out, template, &values);
    if scope.has_both() {
        scope.fill(out, other, &values);
    }
    fill(out, DEBUG, &["wrapper", wrapper]);
}

/// The wrappers of a node, and their calls.
pub fn add_node(out: &mut Text, scope: &Scope<'_>, item: &Item, index: usize) {
    let number = scope.number(scope.kind_number(index));
    let values = [
        "name",
        item.name.as_str(),
        "borrowed",
        item.borrowed.as_str(),
        "number",
        out.read(&number),
    ];
    for form in [Form::Owned, Form::Borrowed] {
        if item.forms.has(form) {
            add_wrapper_docs(out, form, item);
            let template = match form {
                Form::Owned => NODE,
                Form::Borrowed => NODE_REF,
            };
            fill(out, template, &values);
        }
    }
    add_kinds(out, scope, index);
    for form in [Form::Owned, Form::Borrowed] {
        if item.forms.has(form) {
            add_own_calls(out, scope, form, index);
        }
    }
}

/// The comment of a wrapper. Where there are both, the borrowed one has the name of the other.
pub fn add_wrapper_docs(out: &mut Text, form: Form, item: &Item) {
    out.add("\n");
    if form == Form::Borrowed && item.forms.owned {
        let name = item.name.as_str();
        let line = "/// [`$name`], borrowed from its tree.\n";
        fill(out, line, &["name", name]);
    } else {
        add_docs(out, "", item.docs.as_str(), item.rule.as_str());
    }
}

/// The calls that a wrapper of a node has beside those of its trait: nothing where it has none.
fn add_own_calls(out: &mut Text, scope: &Scope<'_>, form: Form, index: usize) {
    let mut calls = scope.calls(index).iter();
    if !calls.any(|call| scope.has_call(form, call)) {
        return;
    }
    let head = match form {
        Form::Owned => "\nimpl $wrapper {\n",
        Form::Borrowed => "\nimpl<'tree> $wrapper<'tree> {\n",
    };
    fill(out, head, &["wrapper", scope.grammar.wrapper(form, index)]);
    add_call_imports(out, scope, form, index);
    add_calls(out, scope, form, index);
    out.add("}\n");
}
