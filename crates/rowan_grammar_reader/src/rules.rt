//! From the trees of rules to what may stand in nodes, and to choices.
use crate::reader::{Reader, Rule};
use crate::syntax::{Grammars, Kind};
use rowan::{SyntaxNodeRef, SyntaxTokenRef, TextRange, WalkEvent};
use rowan_grammar_model::forms::Forms;
use rowan_grammar_model::grammar::{Item, Part, Sort, Use};
use rowan_grammar_model::names::{camel, snake};
use std::alloc::{AllocError, Global};
use std::mem;

/// What the alternatives of a choice with a label are.
#[derive(Clone, Copy, PartialEq, Eq)]
enum Alternatives {
    Tokens,
    Nodes,
    /// Some are tokens and some are nodes.
    Mixed,
    /// One of them has more than one part.
    Longer,
}

const NO_TOKEN: &str = "a set has tokens alone, each by its name or its text";

impl Reader {
    /// Reads choices first: a label may stand for what a later one is. Traits come last: a label in
    /// one stands for what it does in a node.
    pub fn read_rules(&mut self, rules: &[Rule<'_>]) -> Result<(), AllocError> {
        for rule in rules.iter() {
            match self.grammar.sort(rule.item) {
                Sort::Set => self.read_set(*rule)?,
                Sort::Node if self.is_choice(rule.choice) => self.read_choice(*rule)?,
                _ => {}
            }
        }
        self.read_bodies(rules, Sort::Node)?;
        self.read_bodies(rules, Sort::Trait)
    }

    /// Reads what may stand in the items of a sort.
    fn read_bodies(&mut self, rules: &[Rule<'_>], sort: Sort) -> Result<(), AllocError> {
        for rule in rules.iter() {
            if self.grammar.sort(rule.item) == sort {
                let body = self.body(*rule)?;
                if let Some(item) = self.grammar.items.get_mut(rule.item) {
                    item.body = body;
                }
            }
        }
        Ok(())
    }

    /// Whether these are alternatives of which each is the name of a rule alone, or a name that is
    /// not known. A rule with tokens among its alternatives is a node that has one of them.
    fn is_choice(&self, choice: SyntaxNodeRef<'_, Grammars>) -> bool {
        for sequence in choice.children() {
            let Some(name) = only_name(sequence) else {
                return false;
            };
            let is_rule = match self.names.get(name.text()) {
                Some(item) => self.grammar.sort(*item).is_wrapped(),
                None => true,
            };
            if !is_rule {
                return false;
            }
        }
        has(choice, Kind::Bar)
    }

    fn read_choice(&mut self, rule: Rule<'_>) -> Result<(), AllocError> {
        let mut alternatives = Vec::new(self.alloc);
        for sequence in rule.choice.children() {
            if let Some(name) = only_name(sequence) {
                if let Some(used) = self.resolve(name)? {
                    alternatives.push(used)?;
                }
            }
        }
        let key = key_of(self.alloc, alternatives.as_slice())?;
        if !self.choices.contains_key(key.as_str()) {
            self.choices.insert(key, rule.item)?;
        }
        if let Some(item) = self.grammar.items.get_mut(rule.item) {
            item.sort = Sort::Choice;
            item.alternatives = alternatives;
        }
        Ok(())
    }

    /// The tokens of a set.
    fn read_set(&mut self, rule: Rule<'_>) -> Result<(), AllocError> {
        let mut tokens: Vec<Use> = Vec::new(self.alloc);
        for sequence in rule.choice.children() {
            let Some(token) = only_token(sequence) else {
                if sequence.first_token().is_some() {
                    self.problem(sequence.text_range(), NO_TOKEN)?;
                }
                continue;
            };
            match self.resolve(token)? {
                Some(used) if self.grammar.sort(used.item).is_token() => tokens.push(used)?,
                Some(used) => self.problem(used.range, NO_TOKEN)?,
                None => {}
            }
        }
        if let Some(item) = self.grammar.items.get_mut(rule.item) {
            item.alternatives = tokens;
        }
        Ok(())
    }

    /// The item that a name or a text of a token stands for.
    fn resolve(&mut self, token: SyntaxTokenRef<'_, Grammars>) -> Result<Option<Use>, AllocError> {
        let name = token.text();
        let range = token.text_range();
        let is_literal = token.kind() == Kind::Literal;
        let found = match is_literal {
            true => self.literals.get(name).copied(),
            false => self.names.get(name).copied(),
        };
        let Some(item) = found else {
            let message = match is_literal {
                true => format!(in self.alloc; "no token has the text {name}")?,
                false => format!(in self.alloc; "no rule or token is called `{name}`")?,
            };
            self.error(range, message)?;
            return Ok(None);
        };
        if let Some(item) = self.grammar.items.get_mut(item) {
            item.is_used = true;
        }
        Ok(Some(Use { range, item }))
    }

    /// What may stand in the node of a rule. The parts of the nodes of its tree that are open are
    /// kept until their nodes end.
    fn body(&mut self, rule: Rule<'_>) -> Result<Part, AllocError> {
        let mut open: Vec<Vec<Part>> = Vec::new(self.alloc);
        let mut outer: Vec<Part> = Vec::new(self.alloc);
        for event in rule.choice.preorder() {
            match event {
                WalkEvent::Enter(node) => {
                    self.check_closed(node)?;
                    open.push(mem::replace(&mut outer, Vec::new(self.alloc)))?;
                }
                WalkEvent::Leave(node) => {
                    let inner = mem::replace(&mut outer, Vec::new(self.alloc));
                    outer = match open.pop() {
                        Some(parts) => parts,
                        None => Vec::new(self.alloc),
                    };
                    if let Some(part) = self.part(rule.item, node, inner)? {
                        outer.push(part)?;
                    }
                }
            }
        }
        match outer.pop() {
            Some(part) => Ok(part),
            None => Ok(Part::Group(outer)),
        }
    }

    fn check_closed(&mut self, node: SyntaxNodeRef<'_, Grammars>) -> Result<(), AllocError> {
        if node.kind() != Kind::Group || has(node, Kind::Close) {
            return Ok(());
        }
        match node.first_token_of_kind(Kind::Open) {
            Some(open) => self.problem(open.text_range(), "this parenthesis is not closed"),
            None => Ok(()),
        }
    }

    /// What a node of the tree stands for, of what the nodes in it stand for.
    fn part(
        &mut self,
        rule: usize,
        node: SyntaxNodeRef<'_, Grammars>,
        mut inner: Vec<Part>,
    ) -> Result<Option<Part>, AllocError> {
        match node.kind() {
            Kind::Choice | Kind::Sequence if inner.len() == 1 => Ok(inner.pop()),
            Kind::Choice => Ok(Some(Part::Choice(inner))),
            Kind::Sequence => Ok(Some(Part::Group(inner))),
            Kind::Group => Ok(inner.pop()),
            Kind::Part => self.whole_part(rule, node, inner.pop()),
            _ => Ok(None),
        }
    }

    /// A part with what repeats it and its label; nothing where it names what is not known. The
    /// inner part is what it has in parentheses.
    fn whole_part(
        &mut self,
        rule: usize,
        node: SyntaxNodeRef<'_, Grammars>,
        inner: Option<Part>,
    ) -> Result<Option<Part>, AllocError> {
        let bare = match inner {
            Some(part) => Some(part),
            None => self.leaf(node)?,
        };
        let Some(bare) = bare else {
            return Ok(None);
        };
        let Some(label) = label_of(node) else {
            return Ok(Some(self.repeated(node, bare)?));
        };
        let range = label.text_range();
        let inner = self.labelled(rule, range, label.text(), bare)?;
        let whole = self.repeated(node, inner)?;
        let whole = Box::new(self.alloc, whole)?;
        Ok(Some(Part::Labelled(range, whole)))
    }

    /// The token or the node that a part names.
    fn leaf(&mut self, node: SyntaxNodeRef<'_, Grammars>) -> Result<Option<Part>, AllocError> {
        let literal = node.first_token_of_kind(Kind::Literal);
        let Some(token) = literal.or(node.first_token_of_kind(Kind::Word)) else {
            return Ok(None);
        };
        let Some(used) = self.resolve(token)? else {
            return Ok(None);
        };
        match self.grammar.sort(used.item) {
            Sort::Token | Sort::Trivia => Ok(Some(Part::Token(used))),
            Sort::Node | Sort::Choice => Ok(Some(Part::Node(used))),
            Sort::Set | Sort::Trait => {
                self.problem(used.range, "sets and traits stand in no rule")?;
                Ok(None)
            }
            Sort::Error => {
                self.problem(
                    used.range,
                    "nodes of errors have no wrapper, and stand in no rule",
                )?;
                Ok(None)
            }
        }
    }

    fn repeated(&self, node: SyntaxNodeRef<'_, Grammars>, part: Part) -> Result<Part, AllocError> {
        if has(node, Kind::Star) {
            return Ok(Part::Repeated(Box::new(self.alloc, part)?));
        }
        if has(node, Kind::Question) {
            return Ok(Part::Optional(Box::new(self.alloc, part)?));
        }
        Ok(part)
    }

    /// What a label stands for: in place of alternatives that are nodes a choice of these.
    fn labelled(
        &mut self,
        rule: usize,
        range: TextRange,
        label: &str,
        part: Part,
    ) -> Result<Part, AllocError> {
        let Part::Choice(parts) = part else {
            return Ok(part);
        };
        match kind_of(parts.as_slice()) {
            Alternatives::Tokens => {}
            Alternatives::Nodes => {
                let item = self.choice_of(rule, range, label, parts.as_slice())?;
                return Ok(Part::Node(Use { range, item }));
            }
            Alternatives::Mixed => self.problem(
                range,
                "a label stands for tokens or for nodes, not for both: label each alternative, or make \
                rules of the tokens",
            )?,
            Alternatives::Longer => self.problem(
                range,
                "an alternative here has more than one part: label these, or make a rule of them",
            )?,
        }
        Ok(Part::Choice(parts))
    }

    /// The choice of the nodes for which a label stands: that of a rule with these alternatives, or
    /// one of its own.
    fn choice_of(
        &mut self,
        rule: usize,
        range: TextRange,
        label: &str,
        parts: &[Part],
    ) -> Result<usize, AllocError> {
        let mut alternatives: Vec<Use> = Vec::new(self.alloc);
        for part in parts.iter() {
            if let Part::Node(used) = part {
                alternatives.push(*used)?;
            }
        }
        let key = key_of(self.alloc, alternatives.as_slice())?;
        let known = self.choices.get(key.as_str()).copied();
        match known {
            Some(item) => Ok(item),
            None => self.add_choice(rule, range, label, alternatives),
        }
    }

    fn add_choice(
        &mut self,
        rule: usize,
        range: TextRange,
        label: &str,
        alternatives: Vec<Use>,
    ) -> Result<usize, AllocError> {
        let number = self.grammar.items.len();
        let whole = self.grammar.name(rule);
        let end = camel(self.alloc, label)?;
        let name = format!(in self.alloc; "{whole}{end}")?;
        let docs = format!(in self.alloc; "The `{label}` of `{whole}`.\n")?;
        let mut text = format!(in self.alloc; "{name} =")?;
        for (index, used) in alternatives.iter().enumerate() {
            text.push_str(if index == 0 { " " } else { " | " })?;
            text.push_str(self.grammar.name(used.item))?;
        }
        let item = Item {
            sort: Sort::Choice,
            snake: snake(self.alloc, name.as_str())?,
            borrowed: String::new(self.alloc),
            name,
            range,
            literal: None,
            docs,
            rule: text,
            alternatives,
            body: Part::Group(Vec::new(self.alloc)),
            is_used: true,
            has_content: false,
            forms: Forms::NONE,
        };
        self.grammar.items.push(item)?;
        Ok(number)
    }
}

fn has(node: SyntaxNodeRef<'_, Grammars>, kind: Kind) -> bool {
    node.first_token_of_kind(kind).is_some()
}

/// The word of the last label of a part.
fn label_of<'tree>(
    part: SyntaxNodeRef<'tree, Grammars>,
) -> Option<SyntaxTokenRef<'tree, Grammars>> {
    let mut label = None;
    for child in part.children() {
        if child.kind() == Kind::Label {
            label = child.first_token_of_kind(Kind::Word);
        }
    }
    label
}

/// The name that an alternative is alone.
pub(crate) fn only_name<'tree>(
    sequence: SyntaxNodeRef<'tree, Grammars>,
) -> Option<SyntaxTokenRef<'tree, Grammars>> {
    only_token(sequence).filter(|token| token.kind() == Kind::Word)
}

/// The name or the text that an alternative is alone.
fn only_token<'tree>(
    sequence: SyntaxNodeRef<'tree, Grammars>,
) -> Option<SyntaxTokenRef<'tree, Grammars>> {
    match sequence.first_token() {
        Some(token) if token.text_range() == sequence.text_range() => Some(token).filter(
            |token| matches!(token.kind(), Kind::Word | Kind::Literal),
        ),
        _ => None,
    }
}

/// What the alternatives of a choice are.
fn kind_of(parts: &[Part]) -> Alternatives {
    let mut has_token = false;
    let mut has_node = false;
    for part in parts.iter() {
        match part {
            Part::Token(_) => has_token = true,
            Part::Node(_) => has_node = true,
            _ => return Alternatives::Longer,
        }
    }
    match (has_token, has_node) {
        (true, true) => Alternatives::Mixed,
        (true, false) => Alternatives::Tokens,
        _ => Alternatives::Nodes,
    }
}

/// The numbers of alternatives in order, by which choices are found.
fn key_of(alloc: Global, alternatives: &[Use]) -> Result<String, AllocError> {
    let mut numbers: Vec<usize> = Vec::new(alloc);
    for used in alternatives.iter() {
        numbers.push(used.item)?;
    }
    numbers.sort()?;
    let mut key = String::new(alloc);
    for number in numbers.iter() {
        write!(key, "{number} ")?;
    }
    Ok(key)
}
