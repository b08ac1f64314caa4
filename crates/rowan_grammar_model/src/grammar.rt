//! What a grammar says.
use crate::forms::{Form, Forms};
use crate::names::is_taken;
use crate::parser_lines::ParserLines;
use crate::place::top;
use rowan_green::TextRange;
use std::alloc::{AllocError, Global};
use std::collections::HashMap;

/// What a name of a grammar stands for.
#[derive(Clone, Copy, PartialEq, Eq, Debug)]
pub enum Sort {
    Token,
    /// A token that stands anywhere, as white space.
    Trivia,
    /// The kind of nodes around what has no place where it stands. It has no wrapper.
    Error,
    Node,
    /// A rule all of whose alternatives are nodes or choices: it has no kind of its own.
    Choice,
    /// A set of tokens.
    Set,
    /// A trait of the nodes that share some parts.
    Trait,
}

/// A name or a text of a token in a rule, and the number of the item that it stands for.
#[derive(Clone, Copy, PartialEq, Eq, Debug)]
pub struct Use {
    pub range: TextRange,
    pub item: usize,
}

/// What may stand in a node.
#[derive(Drop)]
pub enum Part {
    Token(Use),
    /// A node, or one of those of a choice.
    Node(Use),
    /// Parts one behind the other.
    Group(Vec<Part>),
    /// One of these parts.
    Choice(Vec<Part>),
    /// None or more.
    Repeated(Box<Part>),
    /// One or none.
    Optional(Box<Part>),
    /// A part whose call has this name.
    Labelled(TextRange, Box<Part>),
}

/// A token or a rule.
#[derive(Drop)]
pub struct Item {
    pub sort: Sort,
    pub name: String,
    /// The name as calls have it.
    pub snake: String,
    /// The name of the borrowed wrapper, once the names are settled.
    pub borrowed: String,
    pub range: TextRange,
    /// The text that the token always has.
    pub literal: Option<TextRange>,
    /// The lines of its comment.
    pub docs: String,
    /// The rule in one line.
    pub rule: String,
    /// Of a choice what it is one of, of a set its tokens.
    pub alternatives: Vec<Use>,
    /// Of a node what may stand in it, of a trait what its nodes share.
    pub body: Part,
    /// Whether a rule names it.
    pub is_used: bool,
    /// Whether the text of the token means something, so that it has wrappers.
    pub has_content: bool,
    /// The forms in which it has a wrapper.
    pub forms: Forms,
}

impl Item {
    /// Whether it has a wrapper that keeps its tree, or one that borrows from it.
    pub fn is_wrapped(&self) -> bool {
        self.forms.owned || self.forms.borrowed
    }
}

/// A name of a token whose text means something.
#[derive(Drop)]
pub struct Content {
    pub range: TextRange,
    pub name: String,
}

/// A name of a node or a choice that has a wrapper of a form.
#[derive(Drop)]
pub struct Wrap {
    pub range: TextRange,
    pub name: String,
    pub form: Form,
}

/// A whole grammar.
#[derive(Drop)]
pub struct Grammar {
    pub language: Option<TextRange>,
    pub crate_name: Option<TextRange>,
    pub root: Option<TextRange>,
    /// The module of the kinds.
    pub kinds: Option<TextRange>,
    /// The line that says which wrappers there are, but for those that are named, and what it says.
    pub wrappers: Option<TextRange>,
    pub forms: Forms,
    /// The lines of the comments of the language and of its kinds.
    pub language_docs: String,
    pub kinds_docs: String,
    pub contents: Vec<Content>,
    pub wraps: Vec<Wrap>,
    pub items: Vec<Item>,
    /// What the head says of a parser.
    pub parsing: ParserLines,
}

impl Grammar {
    pub fn new(alloc: Global) -> Grammar {
        Grammar {
            language: None,
            crate_name: None,
            root: None,
            kinds: None,
            wrappers: None,
            forms: Forms::BOTH,
            language_docs: String::new(alloc),
            kinds_docs: String::new(alloc),
            contents: Vec::new(alloc),
            wraps: Vec::new(alloc),
            items: Vec::new(alloc),
            parsing: ParserLines::new(alloc),
        }
    }

    /// Settles how things are named: an underscore is behind each name that a word of the language is
    /// in the way of, and behind that of a borrowed wrapper where another item is named so.
    pub fn rename(&mut self) -> Result<(), AllocError> {
        let alloc = *self.items.allocator();
        let mut names: HashMap<String, bool> = HashMap::new(alloc);
        for item in self.items.iter_mut() {
            if is_taken(item.name.as_str()) {
                item.name.push('_')?;
                item.snake.push('_')?;
            }
            let mut key = item.name.clone()?;
            key.make_ascii_lowercase();
            names.insert(key, true)?;
        }
        for item in self.items.iter_mut() {
            let mut key = format!(in alloc; "{}ref", item.name)?;
            key.make_ascii_lowercase();
            let end = if names.contains_key(key.as_str()) {
                "Ref_"
            } else {
                "Ref"
            };
            item.borrowed = format!(in alloc; "{}{end}", item.name)?;
        }
        Ok(())
    }

    /// The name of the wrapper of an item.
    pub fn wrapper(&self, form: Form, index: usize) -> &str {
        match (self.items.get(index), form) {
            (Some(item), Form::Owned) => item.name.as_str(),
            (Some(item), Form::Borrowed) => item.borrowed.as_str(),
            (None, _) => "",
        }
    }

    pub fn name(&self, index: usize) -> &str {
        match self.items.get(index) {
            Some(item) => item.name.as_str(),
            None => "",
        }
    }

    pub fn range(&self, index: usize) -> TextRange {
        match self.items.get(index) {
            Some(item) => item.range,
            None => top(),
        }
    }

    pub fn snake(&self, index: usize) -> &str {
        match self.items.get(index) {
            Some(item) => item.snake.as_str(),
            None => "",
        }
    }

    pub fn docs(&self, index: usize) -> &str {
        match self.items.get(index) {
            Some(item) => item.docs.as_str(),
            None => "",
        }
    }

    pub fn sort(&self, index: usize) -> Sort {
        match self.items.get(index) {
            Some(item) => item.sort,
            None => Sort::Error,
        }
    }

    /// The forms in which an item has a wrapper.
    pub fn forms(&self, index: usize) -> Forms {
        match self.items.get(index) {
            Some(item) => item.forms,
            None => Forms::NONE,
        }
    }

    /// What a choice is one of; nothing where the item is none.
    pub fn alternatives(&self, index: usize) -> &[Use] {
        match self.items.get(index) {
            Some(item) => item.alternatives.as_slice(),
            None => &[],
        }
    }
}

/// The numbers of the items that are kinds, in the order of the kinds: tokens, which a `TokenSet`
/// takes if they come first, and then nodes and the kind of errors, as the grammar has them.
pub fn kinds_of(alloc: Global, grammar: &Grammar) -> Result<Vec<usize>, AllocError> {
    let mut kinds = Vec::new(alloc);
    add_numbers(&mut kinds, grammar, &[Sort::Token, Sort::Trivia])?;
    add_numbers(&mut kinds, grammar, &[Sort::Error, Sort::Node])?;
    Ok(kinds)
}

/// Of each item the number of its kind.
pub fn kind_numbers(
    alloc: Global,
    grammar: &Grammar,
    kinds: &[usize],
) -> Result<Vec<usize>, AllocError> {
    let mut numbers: Vec<usize> = vec![in alloc; 0; grammar.items.len()]?;
    for (number, item) in kinds.iter().enumerate() {
        if let Some(slot) = numbers.get_mut(*item) {
            *slot = number;
        }
    }
    Ok(numbers)
}

/// The numbers of the tokens that have a wrapper.
pub fn contents_of(alloc: Global, grammar: &Grammar) -> Result<Vec<usize>, AllocError> {
    let mut contents = Vec::new(alloc);
    for (index, item) in grammar.items.iter().enumerate() {
        if item.has_content {
            contents.push(index)?;
        }
    }
    Ok(contents)
}

/// The numbers of the nodes that have a wrapper.
pub fn nodes_of(alloc: Global, grammar: &Grammar) -> Result<Vec<usize>, AllocError> {
    let mut nodes = Vec::new(alloc);
    for (index, item) in grammar.items.iter().enumerate() {
        if item.sort == Sort::Node && item.is_wrapped() {
            nodes.push(index)?;
        }
    }
    Ok(nodes)
}

/// Adds the numbers of the items of these sorts.
pub fn add_numbers(
    numbers: &mut Vec<usize>,
    grammar: &Grammar,
    sorts: &[Sort],
) -> Result<(), AllocError> {
    for (index, item) in grammar.items.iter().enumerate() {
        if sorts.iter().any(|sort| *sort == item.sort) {
            numbers.push(index)?;
        }
    }
    Ok(())
}

impl Sort {
    pub fn is_kind(self) -> bool {
        !matches!(self, Sort::Choice | Sort::Set | Sort::Trait)
    }

    pub fn is_token(self) -> bool {
        self == Sort::Token || self == Sort::Trivia
    }

    pub fn is_wrapped(self) -> bool {
        self == Sort::Node || self == Sort::Choice
    }
}
