//! Source text from templates.
use crate::files::WrittenRules;
use rowan_grammar_calls::calls::{Alike, Call, Calls};
use rowan_grammar_calls::shared::Shared;
use rowan_grammar_model::forms::Form;
use rowan_grammar_model::grammar::{Grammar, Sort};
use rowan_grammar_model::names::path_of;
use std::alloc::{AllocError, Global};
use std::collections::HashMap;

/// A text that is written. Where an allocation fails, `finish` says so: until then nothing has to
/// look at it.
#[derive(Drop)]
pub struct Text {
    text: String,
    has_failed: bool,
}

impl Text {
    pub fn new(alloc: Global) -> Text {
        Text {
            text: String::new(alloc),
            has_failed: false,
        }
    }

    /// A text that was made elsewhere, or could not be.
    pub fn of(alloc: Global, made: Result<String, AllocError>) -> Text {
        match made {
            Ok(text) => Text {
                text,
                has_failed: false,
            },
            Err(_) => Text {
                text: String::new(alloc),
                has_failed: true,
            },
        }
    }

    pub fn len(&self) -> usize {
        self.text.len()
    }

    pub fn is_empty(&self) -> bool {
        self.text.is_empty()
    }

    pub fn add(&mut self, part: &str) {
        if self.text.push_str(part).is_err() {
            self.has_failed = true;
        }
    }

    pub fn add_character(&mut self, character: char) {
        if self.text.push(character).is_err() {
            self.has_failed = true;
        }
    }

    /// Adds a text as it stands in quotes.
    pub fn add_escaped(&mut self, text: &str) {
        for character in text.chars() {
            if character == '"' || character == '\\' {
                self.add("\\");
            }
            self.add_character(character);
        }
    }

    pub fn add_number(&mut self, number: usize) {
        if write!(self.text, "{number}").is_err() {
            self.has_failed = true;
        }
    }

    /// Adds the parentheses that end a chain of so many comparisons.
    pub fn close(&mut self, count: usize) {
        for _ in 1..count {
            self.add(")");
        }
    }

    /// Says that an allocation failed.
    pub fn fail(&mut self) {
        self.has_failed = true;
    }

    /// Takes all that it has away, so that the same memory takes another text.
    pub fn clear(&mut self) {
        self.text.clear();
    }

    /// Another text, for a place in this one. Where that one failed, this one has too.
    pub fn read<'t>(&mut self, part: &'t Text) -> &'t str {
        if part.has_failed {
            self.has_failed = true;
        }
        part.text.as_str()
    }

    /// Adds another text. Where that one failed, this one has too.
    pub fn add_text(&mut self, part: &Text) {
        let text = self.read(part);
        self.add(text);
    }

    /// What was written.
    ///
    /// Errors: `AllocError` if an allocation failed on the way.
    pub fn finish(self) -> Result<String, AllocError> {
        let Text { text, has_failed } = self;
        match has_failed {
            true => Err(AllocError),
            false => Ok(text),
        }
    }
}

/// The kinds in the brackets of a list: on one line where it takes them, else each on its own.
#[derive(Drop)]
pub struct KindList {
    line: Text,
    lines: Text,
}

impl KindList {
    pub fn new(alloc: Global) -> KindList {
        KindList {
            line: Text::new(alloc),
            lines: Text::new(alloc),
        }
    }

    pub fn add(&mut self, name: &str) {
        self.line.add(if self.line.is_empty() {
            "Kind::"
        } else {
            ", Kind::"
        });
        self.line.add(name);
        self.lines.add("\n    Kind::");
        self.lines.add(name);
        self.lines.add(",");
    }

    /// Adds them where they are to stand.
    pub fn add_to(&self, out: &mut Text) {
        if self.line.len() > ARGUMENTS {
            out.add_text(&self.lines);
            out.add("\n");
        } else {
            out.add_text(&self.line);
        }
    }

    /// How long they are on one line.
    pub fn len(&self) -> usize {
        self.line.len()
    }
}

/// What every written file is of.
#[derive(Drop)]
pub struct Scope<'g> {
    pub alloc: Global,
    pub text: &'g str,
    pub grammar: &'g Grammar,
    /// The calls of each item.
    pub calls: &'g [Calls],
    pub crate_name: &'g str,
    /// The module of the kinds.
    pub module: &'g str,
    pub language: &'g str,
    /// The names of the error kind and of the root.
    pub error: &'g str,
    pub root: &'g str,
    /// The numbers of the items that are kinds.
    pub kinds: &'g [usize],
    /// Of each item the number of its kind.
    pub numbers: &'g [usize],
    /// The numbers of the nodes and of the choices that have a wrapper.
    pub nodes: &'g [usize],
    pub choices: &'g [usize],
    /// The numbers of the tokens that have a wrapper.
    pub contents: &'g [usize],
    /// The numbers of the sets.
    pub sets: &'g [usize],
    /// The traits, and what has them.
    pub traits: &'g [Shared],
    /// The rules of the parser, where one is asked for.
    pub rules: Option<&'g WrittenRules>,
    /// The names from elsewhere that wrappers have.
    pub taken: &'g HashMap<String, bool>,
}

impl Scope<'_> {
    /// A name from elsewhere: its path where a wrapper has that name.
    pub fn outside<'n>(&self, name: &'n str) -> &'n str {
        match path_of(name) {
            Some(path) if self.taken.contains_key(name) => path,
            _ => name,
        }
    }

    /// Adds a template as `fill` does. Behind an `@` it has names from elsewhere.
    pub fn fill(&self, out: &mut Text, template: &str, values: &[&str]) {
        let mut named = Text::new(self.alloc);
        for (index, piece) in template.split('@').enumerate() {
            let len = match index {
                0 => 0,
                _ => piece
                    .find(|character: char| !character.is_ascii_alphanumeric())
                    .unwrap_or(piece.len()),
            };
            named.add(self.outside(piece.get(..len).unwrap_or("")));
            named.add(piece.get(len..).unwrap_or(""));
        }
        let template = out.read(&named);
        fill(out, template, values);
    }

    /// A number as a text.
    pub fn number(&self, number: usize) -> Text {
        let mut out = Text::new(self.alloc);
        out.add_number(number);
        out
    }

    /// A text as it stands in quotes.
    pub fn escaped(&self, text: &str) -> Text {
        let mut out = Text::new(self.alloc);
        out.add_escaped(text);
        out
    }

    /// A template with its values.
    pub fn filled(&self, template: &str, values: &[&str]) -> Text {
        let mut out = Text::new(self.alloc);
        fill(&mut out, template, values);
        out
    }

    /// The kinds of the parts of an item that are alike.
    pub fn alike(&self, index: usize) -> &[Alike] {
        match self.calls.get(index) {
            Some(calls) => calls.alike.as_slice(),
            None => &[],
        }
    }

    /// The calls of an item.
    pub fn calls(&self, index: usize) -> &[Call] {
        match self.calls.get(index) {
            Some(calls) => calls.calls.as_slice(),
            None => &[],
        }
    }

    /// Whether a node has a wrapper of a form, or a choice.
    pub fn has_nodes(&self, form: Form) -> bool {
        let mut items = self.nodes.iter().chain(self.choices.iter());
        items.any(|index| self.grammar.forms(*index).has(form))
    }

    /// Whether some node has wrappers that lead to each other.
    pub fn has_both(&self) -> bool {
        let mut items = self.nodes.iter();
        items.any(|index| self.grammar.forms(*index).is_both())
    }

    /// Whether wrappers of a form have a call.
    pub fn has_call(&self, form: Form, call: &Call) -> bool {
        call.is_in(self.grammar, form)
    }

    /// The number of the kind of an item.
    pub fn kind_number(&self, index: usize) -> usize {
        match self.numbers.get(index) {
            Some(number) => *number,
            None => 0,
        }
    }

    /// Adds the function from a wrapper to its node, as clauses have it.
    pub fn add_node_of(&self, out: &mut Text, form: Form, item: usize) {
        if self.grammar.sort(item) == Sort::Choice {
            out.add(form.word());
            out.add("_");
            out.add(self.grammar.snake(item));
        } else {
            out.add(match form {
                Form::Owned => "(λ node. node)",
                Form::Borrowed => "place_in",
            });
        }
    }

    /// The function from a wrapper to its node.
    pub fn node_of(&self, form: Form, item: usize) -> Text {
        let mut out = Text::new(self.alloc);
        self.add_node_of(&mut out, form, item);
        out
    }
}

/// The longest line of what is written, where it can be broken.
pub const WIDTH: usize = 100;

/// How long the raw kind may be that is compared on one line with a number.
const MAX_TESTED: usize = 92;

/// How long arguments on one line may be, and the elements of a list.
pub const ARGUMENTS: usize = 60;

/// Adds a template, in which `$name` stands for the value of that name, or `${name}` where a letter
/// or a digit follows. The values are names, in small letters, each with its value behind it. A name
/// that has none is left out.
pub fn fill(out: &mut Text, template: &str, values: &[&str]) {
    for (index, piece) in template.split('$').enumerate() {
        if index == 0 {
            out.add(piece);
        } else {
            let (name, rest) = name_before(piece);
            out.add(value_of(name, values));
            out.add(rest);
        }
    }
}

/// The name with which a piece begins, and what stands behind it.
fn name_before(piece: &str) -> (&str, &str) {
    if let Some(inner) = piece.strip_prefix('{') {
        return inner.split_once('}').unwrap_or((inner, ""));
    }
    let len = piece
        .find(|character: char| !character.is_ascii_lowercase())
        .unwrap_or(piece.len());
    (
        piece.get(..len).unwrap_or(""),
        piece.get(len..).unwrap_or(""),
    )
}

/// The value behind a name.
fn value_of<'a>(name: &str, values: &[&'a str]) -> &'a str {
    for pair in values.chunks_exact(2) {
        if let [other, value] = pair {
            if *other == name {
                return value;
            }
        }
    }
    ""
}

/// Adds the head of a function of one parameter, from what stands before its name on. The parameter
/// has a line of its own where one line is too short.
pub fn add_signature(out: &mut Text, start: &str, name: &str, parameter: &str, gives: &str) {
    let len = start.len().saturating_add(name.len());
    let len = len
        .saturating_add(parameter.len())
        .saturating_add(gives.len());
    let is_long = len.saturating_add("() -> ".len()) > WIDTH;
    out.add(start);
    out.add(name);
    out.add(if is_long { "(\n        " } else { "(" });
    out.add(parameter);
    out.add(if is_long { ",\n    ) -> " } else { ") -> " });
    out.add(gives);
}

/// Adds the head of `cast` from a node or a token of this type to a wrapper.
pub fn add_cast_head(
    out: &mut Text,
    scope: &Scope<'_>,
    from: &'static str,
    form: Form,
    into: &str,
) {
    let mut parameter = Text::new(scope.alloc);
    parameter.add("syntax: ");
    parameter.add(scope.outside(from));
    parameter.add(match form {
        Form::Owned => "<",
        Form::Borrowed => "<'tree, ",
    });
    parameter.add(scope.language);
    parameter.add(">");
    let mut result = Text::new(scope.alloc);
    result.add(scope.outside("Option"));
    result.add("<");
    result.add(into);
    result.add(">");
    let parameter = out.read(&parameter);
    let result = out.read(&result);
    add_signature(out, "    fn ", "cast", parameter, result);
}

/// The test that a kind has the number of a wrapper.
pub fn kind_test(scope: &Scope<'_>) -> Text {
    let mut out = Text::new(scope.alloc);
    out.add("        <");
    out.add(scope.language);
    out.add(" as rowan::Language>::kind_to_raw(kind).0");
    let is_long = out.len() > MAX_TESTED;
    out.add(if is_long {
        "\n            == KIND"
    } else {
        " == KIND"
    });
    out
}

/// Adds arguments of a call in a function's body, which are given one a line: each on a line of its
/// own where they are long, with this end behind the last one.
pub fn add_arguments(out: &mut Text, values: &str, end: &str) {
    let commas = values.lines().count().saturating_sub(1);
    let is_long = values.len().saturating_add(commas) > ARGUMENTS;
    let (first, next) = match is_long {
        true => ("\n            ", ",\n            "),
        false => ("", ", "),
    };
    for (number, value) in values.lines().enumerate() {
        out.add(if number == 0 { first } else { next });
        out.add(value);
    }
    if is_long {
        out.add(end);
        out.add("\n        ");
    }
}

/// Adds an arm of a `match`. What it gives has a line of its own where one line is too short.
pub fn add_arm(out: &mut Text, indent: &str, pattern: &str, body: &str) {
    let len = indent.len().saturating_add(pattern.len());
    let len = len.saturating_add(body.len()).saturating_add(" => ,".len());
    let template = match len > WIDTH {
        true => "$indent$pattern =>\n$indent    $body,\n",
        false => "$indent$pattern => $body,\n",
    };
    fill(
        out,
        template,
        &["indent", indent, "pattern", pattern, "body", body],
    );
}

/// Lines that import names of one module, as many in a line as it takes.
#[derive(Drop)]
pub struct Imports {
    alloc: Global,
    /// A line up to its brace.
    head: Text,
    /// What stands behind its other brace.
    end: &'static str,
    line: Text,
    lines: Text,
}

impl Imports {
    /// The head is a line up to its brace, with the names of the crate and of its module of kinds
    /// as a template has them; the end is what stands behind that brace.
    pub fn new(scope: &Scope<'_>, head: &str, end: &'static str) -> Imports {
        let names = ["crate", scope.crate_name, "module", scope.module];
        Imports {
            alloc: scope.alloc,
            head: scope.filled(head, &names),
            end,
            line: Text::new(scope.alloc),
            lines: Text::new(scope.alloc),
        }
    }

    pub fn add(&mut self, name: &str) {
        let len = self.line.len().saturating_add(name.len());
        if self.line.is_empty() {
            self.line.add_text(&self.head);
        } else if len.saturating_add(4) > WIDTH {
            self.end_line();
            self.line.add_text(&self.head);
        } else {
            self.line.add(", ");
        }
        self.line.add(name);
    }

    /// Adds a name that begins with this prefix.
    pub fn add_word(&mut self, prefix: &str, rest: &str) {
        let mut name = Text::new(self.alloc);
        name.add(prefix);
        name.add(rest);
        let name = self.lines.read(&name);
        self.add(name);
    }

    fn end_line(&mut self) {
        self.lines.add_text(&self.line);
        self.lines.add("}");
        self.lines.add(self.end);
        self.lines.add("\n");
        self.line.clear();
    }

    /// Adds the lines; nothing where no name was added.
    pub fn finish(&mut self, out: &mut Text) {
        if !self.line.is_empty() {
            self.end_line();
        }
        out.add_text(&self.lines);
    }
}

/// Adds the lines of a comment, and its rule where there is one.
pub fn add_docs(out: &mut Text, indent: &str, docs: &str, rule: &str) {
    for line in docs.lines() {
        out.add(indent);
        out.add(if line.is_empty() { "///" } else { "/// " });
        out.add(line);
        out.add("\n");
    }
    if !rule.is_empty() {
        let indented = ["indent", indent];
        if !docs.is_empty() {
            fill(out, "$indent///\n", &indented);
        }
        fill(out, "$indent/// ```text\n$indent///", &indented);
        add_rule(out, indent, rule);
        fill(out, "\n$indent/// ```\n", &indented);
    }
}

/// Adds the words of a rule, as many in a line as it takes.
fn add_rule(out: &mut Text, indent: &str, rule: &str) {
    let mut width = 0usize;
    for word in rule.split(' ') {
        width = width.saturating_add(word.len()).saturating_add(1);
        if width > 90 {
            fill(out, "\n$indent///    ", &["indent", indent]);
            width = word.len().saturating_add(4);
        }
        out.add(" ");
        out.add(word);
    }
}
