//! The pieces of which a call of a wrapper is written.
use crate::writer::{Scope, Text, add_arguments, add_signature, fill};
use rowan_grammar_calls::calls::{Call, Gives};
use rowan_grammar_model::forms::Form;
use std::alloc::Global;

/// The values of a template, each under its own name.
#[derive(Drop)]
pub struct Pieces {
    target: Text,
    snake: Text,
    /// The function from the wrapper of a child to its node.
    inner: Text,
    head: Text,
    /// What the function of `support` takes.
    arguments: Text,
    kinds: Text,
    index: Text,
    /// The function from the wrapper to its node.
    pub node: Text,
    /// What stands behind the contract of a trait's call.
    pub body: Text,
}

impl Pieces {
    pub fn new(alloc: Global) -> Pieces {
        Pieces {
            target: Text::new(alloc),
            snake: Text::new(alloc),
            inner: Text::new(alloc),
            head: Text::new(alloc),
            arguments: Text::new(alloc),
            kinds: Text::new(alloc),
            index: Text::new(alloc),
            node: Text::new(alloc),
            body: Text::new(alloc),
        }
    }

    /// The head of a call behind `pub` or nothing, and the child or token that it gives.
    pub fn read(&mut self, scope: &Scope<'_>, form: Form, start: &str, call: &Call) {
        let item = call.item().unwrap_or(0);
        self.target.add(scope.grammar.name(item));
        self.snake.add(scope.grammar.snake(item));
        scope.add_node_of(&mut self.inner, form, item);
        let result = result_of(scope, form, call);
        let result = self.head.read(&result);
        add_signature(&mut self.head, start, call.name.as_str(), "&self", result);
    }

    /// The parts that are alike, of which a call gives one.
    pub fn read_kinds(&mut self, scope: &Scope<'_>, index: usize, call: &Call) {
        if let Some(nth) = call.nth() {
            if let Some(alike) = scope.alike(index).get(nth.alike) {
                self.kinds.add(alike.name.as_str());
            }
            self.index.add_number(nth.index);
        }
    }

    /// What the function of `support` takes behind its parent.
    pub fn read_arguments(&mut self, scope: &Scope<'_>, parent: &str, call: &Call) {
        let mut values = Text::new(scope.alloc);
        values.add(parent);
        match call.gives {
            Gives::Token(item) => {
                values.add("\nKind::");
                values.add(scope.grammar.name(item));
            }
            Gives::NthToken(nth) | Gives::NthChild(_, nth) => {
                values.add("\n");
                values.add_text(&self.kinds);
                values.add("\n");
                values.add_number(nth.index);
            }
            Gives::Child(_) | Gives::Children(_) => {}
        }
        let values = self.arguments.read(&values);
        add_arguments(&mut self.arguments, values, ",");
    }

    /// The function from a wrapper to its node.
    pub fn read_node(&mut self, scope: &Scope<'_>, form: Form, index: usize) {
        scope.add_node_of(&mut self.node, form, index);
    }

    /// The body of a trait's call, by this function of `support`.
    pub fn read_body(&mut self, scope: &Scope<'_>, function: &str, call: &Call) {
        self.read_arguments(scope, "self.syntax()", call);
        self.body.add("\n    {\n        support::");
        self.body.add(function);
        self.body.add("(");
        self.body.add_text(&self.arguments);
        self.body.add(")\n    }\n");
    }

    /// Adds a template with these values.
    pub fn fill(&self, out: &mut Text, template: &str) {
        let values = [
            "target",
            out.read(&self.target),
            "head",
            out.read(&self.head),
            "snake",
            out.read(&self.snake),
            "inner",
            out.read(&self.inner),
            "kinds",
            out.read(&self.kinds),
            "index",
            out.read(&self.index),
            "arguments",
            out.read(&self.arguments),
            "node",
            out.read(&self.node),
            "body",
            out.read(&self.body),
        ];
        fill(out, template, &values);
    }
}

/// The type of what a call gives.
fn result_of(scope: &Scope<'_>, form: Form, call: &Call) -> Text {
    let template = match (form, call.gives) {
        (Form::Owned, Gives::Token(_) | Gives::NthToken(_)) =>
            "@Result<@Option<@SyntaxToken<$language>>, Fault>",
        (Form::Owned, Gives::Children(_)) => "@AstChildren<$name>",
        (Form::Owned, _) => "@Result<@Option<$name>, Fault>",
        (Form::Borrowed, Gives::Token(_) | Gives::NthToken(_)) =>
            "@Option<@SyntaxTokenRef<'tree, $language>>",
        (Form::Borrowed, Gives::Children(_)) => "@AstNodesRef<'tree, $name<'tree>>",
        (Form::Borrowed, _) => "@Option<$name<'tree>>",
    };
    let name = scope.grammar.wrapper(form, call.item().unwrap_or(0));
    let mut out = Text::new(scope.alloc);
    scope.fill(
        &mut out,
        template,
        &["name", name, "language", scope.language],
    );
    out
}
