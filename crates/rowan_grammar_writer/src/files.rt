//! The files of a language.
use crate::kinds::{add_kinds_code, add_kinds_specs};
use crate::nodes::add_nodes_code;
use crate::parsers::add_parser_code;
use crate::sets::add_set_lemmas;
use crate::specs::{add_cast_lemmas, add_casts_specs, add_nodes_in_specs};
use crate::writer::{Scope, Text, fill};
use rowan_grammar_calls::calls::Calls;
use rowan_grammar_calls::reach::choices_of;
use rowan_grammar_calls::shared::Shared;
use rowan_grammar_model::forms::{Form, Forms};
use rowan_grammar_model::grammar::{
    Grammar, Sort, add_numbers, contents_of, kind_numbers, kinds_of, nodes_of,
};
use rowan_grammar_model::names::is_outside;
use rowan_grammar_model::place::part_of;
use std::alloc::{AllocError, Global};
use std::collections::HashMap;

/// A file of the crate, by its path in the crate's folder.
#[derive(Debug, Drop)]
pub struct File {
    pub path: String,
    /// The line with which the file begins, by which it is known as one of this grammar.
    pub mark: String,
    /// What the file has, with its mark; `None` where the grammar gives no such file.
    pub text: Option<String>,
}

/// The rules of a parser, as the list of them is written.
#[derive(Drop)]
pub struct WrittenRules {
    /// A line of source text for each rule, in UTF-8, with comments between them.
    pub lines: String,
    /// How many rules they are.
    pub count: usize,
    /// The number of the rule for what stands in the root.
    pub start: usize,
}

/// A grammar in which nothing is wrong, and what follows from it.
#[derive(Drop)]
pub struct Source<'g> {
    pub alloc: Global,
    pub text: &'g str,
    /// How messages name the grammar: its path.
    pub name: &'g str,
    pub grammar: &'g Grammar,
    /// The calls of each item.
    pub calls: &'g [Calls],
    /// The traits, and what has them.
    pub traits: &'g [Shared],
    /// The rules of the parser, where one is asked for.
    pub rules: Option<&'g WrittenRules>,
}

/// The files of the language, in UTF-8. What the grammar has nothing for has no text.
///
/// Errors: `AllocError` if an allocation failed.
pub fn files_of(source: &Source<'_>) -> Result<Vec<File>, AllocError> {
    let alloc = source.alloc;
    let text = source.text;
    let grammar = source.grammar;
    let mut lists = Lists::new(alloc);
    lists.read(alloc, grammar)?;
    let scope = Scope {
        alloc,
        text,
        grammar,
        calls: source.calls,
        crate_name: part_of(text, grammar.crate_name),
        module: match part_of(text, grammar.kinds) {
            "" => "kinds",
            module => module,
        },
        language: part_of(text, grammar.language),
        error: error_name(grammar),
        root: root_name(grammar, part_of(text, grammar.root)),
        kinds: lists.kinds.as_slice(),
        numbers: lists.numbers.as_slice(),
        nodes: lists.nodes.as_slice(),
        choices: lists.choices.as_slice(),
        contents: lists.contents.as_slice(),
        sets: lists.sets.as_slice(),
        traits: source.traits,
        rules: source.rules,
        taken: &lists.taken,
    };
    files_in(&scope, source.name)
}

/// The items of a grammar by what they are. The fields are those of `Scope`.
#[derive(Drop)]
struct Lists {
    kinds: Vec<usize>,
    numbers: Vec<usize>,
    nodes: Vec<usize>,
    choices: Vec<usize>,
    contents: Vec<usize>,
    sets: Vec<usize>,
    taken: HashMap<String, bool>,
}

impl Lists {
    fn new(alloc: Global) -> Lists {
        Lists {
            kinds: Vec::new(alloc),
            numbers: Vec::new(alloc),
            nodes: Vec::new(alloc),
            choices: Vec::new(alloc),
            contents: Vec::new(alloc),
            sets: Vec::new(alloc),
            taken: HashMap::new(alloc),
        }
    }

    fn read(&mut self, alloc: Global, grammar: &Grammar) -> Result<(), AllocError> {
        self.kinds = kinds_of(alloc, grammar)?;
        self.numbers = kind_numbers(alloc, grammar, self.kinds.as_slice())?;
        self.nodes = nodes_of(alloc, grammar)?;
        self.contents = contents_of(alloc, grammar)?;
        add_numbers(&mut self.sets, grammar, &[Sort::Set])?;
        self.read_choices(alloc, grammar)?;
        self.read_taken(alloc, grammar)
    }

    /// The choices that have a wrapper, each behind those among its alternatives.
    fn read_choices(&mut self, alloc: Global, grammar: &Grammar) -> Result<(), AllocError> {
        for choice in choices_of(alloc, grammar)?.iter() {
            if grammar.forms(*choice) != Forms::NONE {
                self.choices.push(*choice)?;
            }
        }
        Ok(())
    }

    /// The names from elsewhere that wrappers and traits have.
    fn read_taken(&mut self, alloc: Global, grammar: &Grammar) -> Result<(), AllocError> {
        for item in grammar.items.iter() {
            for form in [Form::Owned, Form::Borrowed] {
                let name = match form {
                    Form::Owned => item.name.as_str(),
                    Form::Borrowed => item.borrowed.as_str(),
                };
                let is_named = item.forms.has(form) || item.sort == Sort::Trait;
                if is_named && is_outside(name) {
                    self.taken.insert(String::from_str(alloc, name)?, true)?;
                }
            }
        }
        Ok(())
    }
}

/// What a file of the crate is.
#[derive(Clone, Copy)]
enum Part {
    Kinds,
    Nodes,
    KindSpecs,
    CastSpecs,
    NodeInSpecs,
    CastLemmas,
    SetLemmas,
    Parser,
}

/// The files of a grammar that is called by this name. What the grammar has nothing for has no text.
fn files_in(scope: &Scope<'_>, name: &str) -> Result<Vec<File>, AllocError> {
    let mut files = Vec::new(scope.alloc);
    for part in [
        Part::Kinds,
        Part::Nodes,
        Part::KindSpecs,
        Part::CastSpecs,
        Part::NodeInSpecs,
        Part::CastLemmas,
        Part::SetLemmas,
        Part::Parser,
    ] {
        files.push(file_of(scope, name, part)?)?;
    }
    Ok(files)
}

/// The path of a file, and whether it has a text.
fn path_of(out: &mut Text, scope: &Scope<'_>, part: Part) -> bool {
    let has_choices = !scope.choices.is_empty();
    let has_wrapped = has_choices || !scope.contents.is_empty();
    let (path, is_given) = match part {
        Part::Kinds => ("src/$module.rt", true),
        Part::Nodes => ("src/nodes.rt", has_wrapped || !scope.nodes.is_empty()),
        Part::KindSpecs => ("specs/Kinds.antt", true),
        Part::CastSpecs => ("specs/Casts.antt", has_wrapped || !scope.nodes.is_empty()),
        Part::NodeInSpecs => {
            (
                "specs/NodeIn.antt",
                has_wrapped || scope.has_nodes(Form::Borrowed),
            )
        }
        Part::CastLemmas => ("proofs/CastLemmas.antt", has_choices),
        Part::SetLemmas => ("proofs/SetLemmas.antt", !scope.sets.is_empty()),
        Part::Parser => ("src/parser.rt", has_parser(scope)),
    };
    fill(out, path, &["module", scope.module]);
    is_given
}

/// Whether a parser is asked for.
fn has_parser(scope: &Scope<'_>) -> bool {
    scope.rules.is_some() && scope.grammar.parsing.lexer.is_some()
}

fn add_part(out: &mut Text, scope: &Scope<'_>, part: Part) {
    match part {
        Part::Kinds => add_kinds_code(out, scope),
        Part::Nodes => add_nodes_code(out, scope),
        Part::KindSpecs => add_kinds_specs(out, scope),
        Part::CastSpecs => add_casts_specs(out, scope),
        Part::NodeInSpecs => add_nodes_in_specs(out, scope),
        Part::CastLemmas => add_cast_lemmas(out, scope),
        Part::SetLemmas => add_set_lemmas(out, scope),
        Part::Parser => add_parser_code(out, scope),
    }
}

/// One file. Its text has the mark before it.
fn file_of(scope: &Scope<'_>, name: &str, part: Part) -> Result<File, AllocError> {
    let mut path = Text::new(scope.alloc);
    let mut mark = Text::new(scope.alloc);
    let mut text = Text::new(scope.alloc);
    let is_given = path_of(&mut path, scope, part);
    add_mark(&mut mark, part, name);
    if is_given {
        text.add_text(&mark);
        add_part(&mut text, scope, part);
    }
    made_file(path, mark, text, is_given)
}

/// A file of these texts.
fn made_file(path: Text, mark: Text, text: Text, is_given: bool) -> Result<File, AllocError> {
    let path = path.finish()?;
    let mark = mark.finish()?;
    let text = text.finish()?;
    Ok(File {
        path,
        mark,
        text: if is_given { Some(text) } else { None },
    })
}

/// The first line of a file. It names the grammar as its folder does.
fn add_mark(out: &mut Text, part: Part, name: &str) {
    out.add(match part {
        Part::Kinds | Part::Nodes | Part::Parser => "//",
        _ => "--",
    });
    out.add(" Written by rowan_grammar from ");
    let start = name.rfind('/').map_or(0, |slash| slash.saturating_add(1));
    for character in name.get(start..).unwrap_or("").chars() {
        out.add_character(if character.is_control() {
            '?'
        } else {
            character
        });
    }
    out.add(": change that, and not this file.\n");
}

/// The name of the root as it is written, which may have an underscore behind it.
fn root_name<'g>(grammar: &'g Grammar, root: &str) -> &'g str {
    for item in grammar.items.iter() {
        let name = item.name.as_str();
        if item.sort == Sort::Node && name.strip_suffix('_').unwrap_or(name) == root {
            return name;
        }
    }
    ""
}

fn error_name(grammar: &Grammar) -> &str {
    for item in grammar.items.iter() {
        if item.sort == Sort::Error {
            return item.name.as_str();
        }
    }
    ""
}
