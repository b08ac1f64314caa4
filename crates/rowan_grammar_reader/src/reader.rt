//! From the tree of a grammar to its items.
use crate::problems::Problem;
use crate::syntax::{Grammars, Kind};
use rowan::{NodeOrToken, SyntaxNodeRef, SyntaxTokenRef, TextRange};
use rowan_grammar_model::forms::{Form, Forms};
use rowan_grammar_model::grammar::{Content, Grammar, Item, Part, Sort};
use rowan_grammar_model::names::snake;
use rowan_parser::Severity;
use std::alloc::{AllocError, Global};
use std::collections::HashMap;
use std::mem;

const SAID: &str = "a line of the head says this already";

/// A grammar that is being read, and what is wrong with it.
#[derive(Drop)]
pub struct Reader {
    pub alloc: Global,
    pub grammar: Grammar,
    pub problems: Vec<Problem>,
    /// The numbers of the items by their names.
    pub names: HashMap<String, usize>,
    /// The numbers of the tokens by the texts that they always have.
    pub literals: HashMap<String, usize>,
    /// The numbers of the choices by what they are one of.
    pub choices: HashMap<String, usize>,
}

/// A rule, and the number of its item.
#[derive(Clone, Copy)]
pub struct Rule<'tree> {
    pub choice: SyntaxNodeRef<'tree, Grammars>,
    pub item: usize,
}

impl Reader {
    pub fn new(alloc: Global, problems: Vec<Problem>) -> Reader {
        Reader {
            alloc,
            grammar: Grammar::new(alloc),
            problems,
            names: HashMap::new(alloc),
            literals: HashMap::new(alloc),
            choices: HashMap::new(alloc),
        }
    }

    /// Reads the items of a tree: first their names, so that a rule may name a later one.
    pub fn read(&mut self, root: SyntaxNodeRef<'_, Grammars>) -> Result<(), AllocError> {
        let mut rules: Vec<Rule<'_>> = Vec::new(self.alloc);
        for node in root.children() {
            let Some(name) = node.first_token_of_kind(Kind::Word) else {
                continue;
            };
            if node.kind() == Kind::Head && !self.head(node, name)? {
                continue;
            }
            if let Some(choice) = node.first_child_by_kind(Kind::Choice) {
                let item = self.add_item(node, name, sort_of(node))?;
                rules.push(Rule { choice, item })?;
                self.check_end(node, name)?;
            }
        }
        self.read_contents()?;
        self.read_rules(rules.as_slice())?;
        self.read_shown()?;
        self.read_attached()?;
        self.read_forms()
    }

    /// Marks the tokens whose text means something.
    fn read_contents(&mut self) -> Result<(), AllocError> {
        let contents = mem::replace(&mut self.grammar.contents, Vec::new(self.alloc));
        for content in contents.iter() {
            let name = content.name.as_str();
            match self.names.get(name).copied() {
                Some(number) if self.grammar.sort(number).is_token() => {
                    if self.mark(number) {
                        self.problem(content.range, SAID)?;
                    }
                }
                _ => {
                    let message = format!(in self.alloc; "no token is called `{name}`")?;
                    self.error(content.range, message)?;
                }
            }
        }
        Ok(())
    }

    /// Says that the text of a token means something. Says whether that was said before.
    fn mark(&mut self, number: usize) -> bool {
        match self.grammar.items.get_mut(number) {
            Some(item) => mem::replace(&mut item.has_content, true),
            None => false,
        }
    }

    pub fn error(&mut self, range: TextRange, message: String) -> Result<(), AllocError> {
        self.problems.push(Problem {
            severity: Severity::Error,
            range,
            message,
        })?;
        Ok(())
    }

    pub fn problem(&mut self, range: TextRange, message: &str) -> Result<(), AllocError> {
        let message = String::from_str(self.alloc, message)?;
        self.error(range, message)
    }

    /// A line of the head. Says whether parts stand in it, as in a rule.
    fn head(
        &mut self,
        head: SyntaxNodeRef<'_, Grammars>,
        name: SyntaxTokenRef<'_, Grammars>,
    ) -> Result<bool, AllocError> {
        match first_text(head, Kind::Keyword) {
            "set" | "trait" => return Ok(true),
            "error" => self.add_kind(head, name, Sort::Error)?,
            "trivia" => self.add_kind(head, name, Sort::Trivia)?,
            "token" => self.add_kind(head, name, Sort::Token)?,
            "content" => {
                let range = name.text_range();
                let name = String::from_str(self.alloc, name.text())?;
                self.grammar.contents.push(Content { range, name })?;
            }
            "owned" => self.add_wrap(name, Form::Owned)?,
            "borrowed" => self.add_wrap(name, Form::Borrowed)?,
            "wrappers" => self.set_forms(name)?,
            word @ ("parser" | "lexer" | "shown" | "attached") => self.parser_line(
                word, head, name,
            )?,
            word => self.line(word, head, name.text_range())?,
        }
        Ok(false)
    }

    fn add_kind(
        &mut self,
        head: SyntaxNodeRef<'_, Grammars>,
        name: SyntaxTokenRef<'_, Grammars>,
        sort: Sort,
    ) -> Result<(), AllocError> {
        self.add_item(head, name, sort)?;
        Ok(())
    }

    /// A line of the head that may stand there once.
    fn line(
        &mut self,
        word: &str,
        head: SyntaxNodeRef<'_, Grammars>,
        range: TextRange,
    ) -> Result<(), AllocError> {
        let old = match word {
            "language" => {
                self.grammar.language_docs = docs(self.alloc, head)?;
                mem::replace(&mut self.grammar.language, Some(range))
            }
            "kinds" => {
                self.grammar.kinds_docs = docs(self.alloc, head)?;
                mem::replace(&mut self.grammar.kinds, Some(range))
            }
            "crate" => mem::replace(&mut self.grammar.crate_name, Some(range)),
            _ => mem::replace(&mut self.grammar.root, Some(range)),
        };
        self.check_once(old, range)
    }

    /// Complains where a line of the head has said the same.
    pub fn check_once(
        &mut self,
        old: Option<TextRange>,
        range: TextRange,
    ) -> Result<(), AllocError> {
        match old {
            Some(_) => self.problem(range, SAID),
            None => Ok(()),
        }
    }

    fn check_end(
        &mut self,
        rule: SyntaxNodeRef<'_, Grammars>,
        name: SyntaxTokenRef<'_, Grammars>,
    ) -> Result<(), AllocError> {
        if ends_early(rule) {
            let message = "this rule ends where a part is wanted";
            return self.problem(name.text_range(), message);
        }
        Ok(())
    }

    /// Adds what a rule or a line of the head names, and says its number. A token is known by its
    /// text, too.
    fn add_item(
        &mut self,
        node: SyntaxNodeRef<'_, Grammars>,
        name: SyntaxTokenRef<'_, Grammars>,
        sort: Sort,
    ) -> Result<usize, AllocError> {
        let number = self.grammar.items.len();
        let literal = node.first_token_of_kind(Kind::Literal);
        self.names
            .insert(String::from_str(self.alloc, name.text())?, number)?;
        if let Some(literal) = literal {
            if !self.literals.contains_key(literal.text()) {
                let text = String::from_str(self.alloc, literal.text())?;
                self.literals.insert(text, number)?;
            }
        }
        let item = Item {
            sort,
            name: String::from_str(self.alloc, name.text())?,
            snake: snake(self.alloc, name.text())?,
            borrowed: String::new(self.alloc),
            range: name.text_range(),
            literal: literal.map(|token| token.text_range()),
            docs: docs(self.alloc, node)?,
            rule: rule_text(self.alloc, node)?,
            alternatives: Vec::new(self.alloc),
            body: Part::Group(Vec::new(self.alloc)),
            is_used: false,
            has_content: false,
            forms: Forms::NONE,
        };
        self.grammar.items.push(item)?;
        Ok(number)
    }
}

/// What a rule or a line of the head with parts in it names.
fn sort_of(node: SyntaxNodeRef<'_, Grammars>) -> Sort {
    match first_text(node, Kind::Keyword) {
        "set" => Sort::Set,
        "trait" => Sort::Trait,
        _ => Sort::Node,
    }
}

/// The text of the first token of a kind.
fn first_text<'tree>(node: SyntaxNodeRef<'tree, Grammars>, kind: Kind) -> &'tree str {
    match node.first_token_of_kind(kind) {
        Some(token) => token.text(),
        None => "",
    }
}

/// Whether a rule ends where a part is wanted: behind its `=`, a bar, a parenthesis or a label.
fn ends_early(rule: SyntaxNodeRef<'_, Grammars>) -> bool {
    let mut is_part_wanted = false;
    for element in rule.descendants_with_tokens() {
        let NodeOrToken::Token(token) = element else {
            continue;
        };
        match token.kind() {
            _ if is_in_error(token) => {}
            Kind::Equals | Kind::Bar | Kind::Open | Kind::Colon => is_part_wanted = true,
            Kind::Word | Kind::Literal | Kind::Close => is_part_wanted = false,
            _ => {}
        }
    }
    is_part_wanted
}

fn is_in_error(token: SyntaxTokenRef<'_, Grammars>) -> bool {
    match token.parent() {
        Some(parent) => parent.kind() == Kind::Error,
        None => false,
    }
}

/// The lines of the comment of an item.
fn docs(alloc: Global, item: SyntaxNodeRef<'_, Grammars>) -> Result<String, AllocError> {
    let mut docs = String::new(alloc);
    for element in item.children_with_tokens() {
        let NodeOrToken::Token(token) = element else {
            continue;
        };
        if token.kind() == Kind::Doc {
            docs.push_str(token.text().get(3..).unwrap_or("").trim())?;
            docs.push('\n')?;
        }
    }
    Ok(docs)
}

/// A rule in one line. Empty for a line of the head.
fn rule_text(alloc: Global, item: SyntaxNodeRef<'_, Grammars>) -> Result<String, AllocError> {
    let mut out = String::new(alloc);
    if item.kind() != Kind::Rule {
        return Ok(out);
    }
    let mut is_joined = true;
    for element in item.descendants_with_tokens() {
        let NodeOrToken::Token(token) = element else {
            continue;
        };
        let kind = token.kind();
        if matches!(kind, Kind::Whitespace | Kind::Comment | Kind::Doc) {
            continue;
        }
        let joins_left = matches!(
            kind,
            Kind::Star | Kind::Question | Kind::Close | Kind::Colon
        );
        if !is_joined && !joins_left {
            out.push(' ')?;
        }
        out.push_str(token.text())?;
        is_joined = matches!(kind, Kind::Open | Kind::Colon);
    }
    Ok(out)
}
