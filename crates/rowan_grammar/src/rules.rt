//! From a grammar to the rules of its parser.
use crate::operators::{Way, ways_of};
use rowan::TextRange;
use rowan_grammar_model::grammar::{Grammar, Part, Sort, Use, kinds_of};
use rowan_grammar_model::place::{cover, top};
use rowan_predictive::Rule;
use std::alloc::{AllocError, Global};

/// The number of what is no base.
const NO_PLACE: usize = usize::MAX;

/// What a rule is of in the grammar.
#[derive(Clone, Copy, PartialEq, Eq, Debug)]
pub enum Of {
    /// All of a token, a node or a choice.
    Item(usize),
    /// A node of this item around what stands before it.
    Around(usize),
    /// What may stand behind an operand of this choice.
    Operators(usize),
    /// A part of a rule.
    Part,
}

/// What a rule is of, and where that stands.
#[derive(Clone, Copy)]
pub struct Origin {
    pub of: Of,
    pub range: TextRange,
}

/// The rules of a parser.
#[derive(Drop)]
pub struct Rules {
    pub rules: Vec<Rule>,
    /// What each of them is of.
    pub origins: Vec<Origin>,
    /// The number of the rule for what stands in the root.
    pub start: usize,
}

/// A rule, and where its part stands.
#[derive(Clone, Copy)]
struct At {
    rule: usize,
    range: TextRange,
}

/// A grammar whose rules are being made.
#[derive(Drop)]
struct Maker<'g> {
    alloc: Global,
    grammar: &'g Grammar,
    /// How the alternatives of choices begin.
    ways: Vec<Vec<Way>>,
    /// The raw kinds by items.
    kinds: Vec<u16>,
    /// The numbers of rules by items. None of an item that no parse reaches.
    slots: Vec<Option<usize>>,
    /// The numbers of items among the bases of a choice.
    places: Vec<usize>,
    rules: Rules,
}

/// An alternative of a choice, and the nodes that may stand around it.
#[derive(Drop)]
struct Base {
    at: At,
    behind: Vec<At>,
}

/// The rules for a grammar from the root on: first those of nodes and choices in the order of the
/// grammar, then those of tokens, then those of parts, each before the parts in it.
pub fn rules_of(alloc: Global, grammar: &Grammar, root: usize) -> Result<Rules, AllocError> {
    let ways = ways_of(alloc, grammar)?;
    let is_reached = reached_from(alloc, grammar, ways.as_slice(), root)?;
    let mut maker = Maker::new(alloc, grammar, ways)?;
    maker.add_slots(is_reached.as_slice(), false)?;
    maker.add_slots(is_reached.as_slice(), true)?;
    let count = maker.rules.rules.len();
    maker.fill_slots(root)?;
    maker.rules.turned(alloc, count)
}

/// The raw kinds by items, and 0 of those that are none.
fn numbers_of(alloc: Global, grammar: &Grammar) -> Result<Vec<u16>, AllocError> {
    let mut numbers: Vec<u16> = vec![in alloc; 0; grammar.items.len()]?;
    for (number, index) in kinds_of(alloc, grammar)?.iter().enumerate() {
        if let (Some(kind), Ok(number)) = (numbers.get_mut(*index), u16::try_from(number)) {
            *kind = number;
        }
    }
    Ok(numbers)
}

/// Items that were reached, and those of them whose parts are still to be looked at.
#[derive(Drop)]
struct Search {
    is_reached: Vec<bool>,
    left: Vec<usize>,
}

impl Search {
    fn add(&mut self, item: usize) -> Result<(), AllocError> {
        match self.is_reached.get_mut(item) {
            Some(mark) if !*mark => {
                *mark = true;
                self.left.push(item)?;
                Ok(())
            }
            _ => Ok(()),
        }
    }
}

/// Which items a parse reaches from the root. A node around an operand has no rule of its own.
fn reached_from(
    alloc: Global,
    grammar: &Grammar,
    ways: &[Vec<Way>],
    root: usize,
) -> Result<Vec<bool>, AllocError> {
    let mut search = Search {
        is_reached: vec![in alloc; false; grammar.items.len()]?,
        left: Vec::new(alloc),
    };
    search.add(root)?;
    for _ in 0..grammar.items.len() {
        let Some(index) = search.left.pop() else {
            break;
        };
        if let (Some(item), Some(ways)) = (grammar.items.get(index), ways.get(index)) {
            add_uses(&item.body, &mut search)?;
            for (used, way) in item.alternatives.iter().zip(ways.iter()) {
                match (way, grammar.items.get(used.item)) {
                    (Way::Base, _) => search.add(used.item)?,
                    (_, Some(item)) => add_uses(&item.body, &mut search)?,
                    _ => {}
                }
            }
        }
    }
    let Search { is_reached, .. } = search;
    Ok(is_reached)
}

/// Adds all items that a part names.
fn add_uses(part: &Part, search: &mut Search) -> Result<(), AllocError> {
    match part {
        Part::Token(used) | Part::Node(used) => search.add(used.item),
        Part::Group(parts) | Part::Choice(parts) => {
            for part in parts.iter() {
                add_uses(part, search)?;
            }
            Ok(())
        }
        Part::Labelled(_, part) => add_uses(part, search),
        Part::Repeated(part) | Part::Optional(part) => add_uses(part, search),
    }
}

impl Rules {
    /// The same rules, those behind the first ones in the other order: so rules name later ones.
    fn turned(&self, alloc: Global, first: usize) -> Result<Rules, AllocError> {
        let end = self.rules.len().saturating_add(first).saturating_sub(1);
        let place = |number: usize| match number < first {
            true => number,
            false => end.saturating_sub(number),
        };
        let mut turned = Rules {
            rules: Vec::new(alloc),
            origins: Vec::new(alloc),
            start: place(self.start),
        };
        for number in 0..self.rules.len() {
            let rule = match self.rule(place(number)) {
                Rule::Empty => Rule::Empty,
                Rule::Token(kind) => Rule::Token(kind),
                Rule::Node(kind, part) => Rule::Node(kind, place(part)),
                Rule::Chain(part) => Rule::Chain(place(part)),
                Rule::Wrap(kind, part) => Rule::Wrap(kind, place(part)),
                Rule::Seq(one, other) => Rule::Seq(place(one), place(other)),
                Rule::Choice(one, other) => Rule::Choice(place(one), place(other)),
                Rule::Optional(part) => Rule::Optional(place(part)),
                Rule::Star(part) => Rule::Star(place(part)),
            };
            turned.rules.push(rule)?;
            turned.origins.push(self.origin(place(number)))?;
        }
        Ok(turned)
    }

    fn push(&mut self, rule: Rule, of: Of, range: TextRange) -> Result<At, AllocError> {
        let number = self.rules.len();
        self.rules.push(rule)?;
        self.origins.push(Origin { of, range })?;
        Ok(At {
            rule: number,
            range,
        })
    }

    fn set(&mut self, number: usize, rule: Rule) {
        if let Some(place) = self.rules.get_mut(number) {
            *place = rule;
        }
    }

    /// Takes a rule back, if it is the last one.
    fn take(&mut self, number: usize) -> Rule {
        let rule = self.rule(number);
        if self.rules.len() == number.saturating_add(1) {
            let _last = self.rules.pop();
            let _origin = self.origins.pop();
        }
        rule
    }

    pub fn rule(&self, number: usize) -> Rule {
        match self.rules.get(number) {
            Some(rule) => *rule,
            None => Rule::Empty,
        }
    }

    pub fn origin(&self, number: usize) -> Origin {
        match self.origins.get(number) {
            Some(origin) => *origin,
            None => Origin {
                of: Of::Part,
                range: top(),
            },
        }
    }

    /// Makes of `(',' A)* ','?` one rule, which begins by a comma and goes on with what may stand
    /// behind one. Says whether the two rules are of that form.
    fn make_list(&mut self, list: usize, last: usize) -> Result<bool, AllocError> {
        let (Rule::Star(pair), Rule::Optional(comma)) = (self.rule(list), self.rule(last)) else {
            return Ok(false);
        };
        let (Rule::Seq(first, element), Rule::Token(_)) = (self.rule(pair), self.rule(comma)) else {
            return Ok(false);
        };
        if first != comma {
            return Ok(false);
        }
        let range = self.origin(pair).range;
        let again = self.push(Rule::Seq(element, list), Of::Part, range)?;
        self.set(last, Rule::Optional(again.rule));
        self.set(pair, Rule::Seq(comma, last));
        self.set(list, Rule::Optional(pair));
        Ok(true)
    }

    /// The rule of parts one behind the other; nothing where there are none. The first part stands
    /// innermost: so all parts behind it are on the parser's stack while it is parsed, and no token
    /// with which one of them begins is skipped there.
    fn sequence(&mut self, alloc: Global, parts: &[At]) -> Result<Option<At>, AllocError> {
        let mut left: Vec<At> = Vec::new(alloc);
        for part in parts.iter() {
            let is_of_list = match left.last().copied() {
                Some(list) => self.make_list(list.rule, part.rule)?,
                None => false,
            };
            if !is_of_list {
                left.push(*part)?;
            }
        }
        let mut whole: Option<At> = None;
        for part in left.iter() {
            whole = match whole {
                None => Some(*part),
                Some(first) => {
                    let range = cover(first.range, part.range);
                    Some(self.push(Rule::Seq(first.rule, part.rule), Of::Part, range)?)
                }
            };
        }
        Ok(whole)
    }

    /// The rule of one of these parts; nothing where there are none. A parser finds each in as many
    /// steps as their number has binary digits.
    fn one_of(&mut self, alloc: Global, parts: &[At]) -> Result<Option<At>, AllocError> {
        let mut left: Vec<At> = parts.to_vec(alloc)?;
        for _ in 0..usize::BITS {
            if left.len() < 2 {
                break;
            }
            left = self.in_pairs(alloc, left.as_slice())?;
        }
        Ok(left.pop())
    }

    /// Choices of two of these parts each, and behind them the last one where their number is odd.
    fn in_pairs(&mut self, alloc: Global, parts: &[At]) -> Result<Vec<At>, AllocError> {
        let mut pairs: Vec<At> = Vec::new(alloc);
        let mut before: Option<At> = None;
        for part in parts.iter() {
            match before {
                None => before = Some(*part),
                Some(one) => {
                    let range = cover(one.range, part.range);
                    let rule = Rule::Choice(one.rule, part.rule);
                    pairs.push(self.push(rule, Of::Part, range)?)?;
                    before = None;
                }
            }
        }
        if let Some(last) = before {
            pairs.push(last)?;
        }
        Ok(pairs)
    }
}

impl<'g> Maker<'g> {
    /// A maker that has no rules yet.
    fn new(
        alloc: Global,
        grammar: &'g Grammar,
        ways: Vec<Vec<Way>>,
    ) -> Result<Maker<'g>, AllocError> {
        let kinds = numbers_of(alloc, grammar)?;
        let slots = vec![in alloc; None; grammar.items.len()]?;
        let places = vec![in alloc; 0; grammar.items.len()]?;
        let rules = Rules {
            rules: Vec::new(alloc),
            origins: Vec::new(alloc),
            start: 0,
        };
        Ok(Maker {
            alloc,
            grammar,
            ways,
            kinds,
            slots,
            places,
            rules,
        })
    }
}

impl Maker<'_> {
    /// Makes the rules of the items that have a slot.
    fn fill_slots(&mut self, root: usize) -> Result<(), AllocError> {
        for index in 0..self.grammar.items.len() {
            if let Some(slot) = self.slot(index) {
                let rule = self.rule_of_item(index)?;
                self.rules.set(slot, rule);
                if let (Rule::Node(_, body), true) = (rule, index == root) {
                    self.rules.start = body;
                }
            }
        }
        Ok(())
    }

    /// Adds a rule for each item that is reached, for tokens or for nodes and choices. Those of nodes
    /// and choices are still empty.
    fn add_slots(&mut self, is_reached: &[bool], of_tokens: bool) -> Result<(), AllocError> {
        for (index, item) in self.grammar.items.iter().enumerate() {
            let is_wanted = is_reached.get(index).copied().unwrap_or(false);
            if is_wanted && item.sort.is_token() == of_tokens {
                let rule = match of_tokens {
                    true => Rule::Token(self.kind(index)),
                    false => Rule::Empty,
                };
                let at = self.rules.push(rule, Of::Item(index), item.range)?;
                if let Some(slot) = self.slots.get_mut(index) {
                    *slot = Some(at.rule);
                }
            }
        }
        Ok(())
    }

    /// The number of the rule of an item.
    fn slot(&self, index: usize) -> Option<usize> {
        self.slots.get(index).copied().flatten()
    }

    /// The rule of what a part names.
    fn used(&self, used: &Use) -> At {
        At {
            rule: self.slot(used.item).unwrap_or(0),
            range: used.range,
        }
    }

    fn kind(&self, index: usize) -> u16 {
        self.kinds.get(index).copied().unwrap_or(0)
    }

    /// The rule of a part, or one that derives nothing, for what stands at this range.
    fn or_empty(&mut self, at: Option<At>, range: TextRange) -> Result<At, AllocError> {
        match at {
            Some(at) => Ok(at),
            None => self.rules.push(Rule::Empty, Of::Part, range),
        }
    }

    /// The rule of a group or a choice of these parts.
    fn joined(&mut self, part: &Part, parts: &[At]) -> Result<Option<At>, AllocError> {
        match part {
            Part::Choice(_) => self.rules.one_of(self.alloc, parts),
            _ => self.rules.sequence(self.alloc, parts),
        }
    }

    /// The rule of a part that is repeated or optional.
    fn maybe(&mut self, part: &Part, inner: Option<At>) -> Result<Option<At>, AllocError> {
        let Some(at) = inner else {
            return Ok(None);
        };
        let rule = match part {
            Part::Repeated(_) => Rule::Star(at.rule),
            _ => Rule::Optional(at.rule),
        };
        Ok(Some(self.rules.push(rule, Of::Part, at.range)?))
    }

    fn rule_of_item(&mut self, index: usize) -> Result<Rule, AllocError> {
        let grammar = self.grammar;
        let kind = self.kind(index);
        match grammar.items.get(index) {
            Some(item) if item.sort == Sort::Node => {
                let body = rule_of(self, &item.body)?;
                let body = self.or_empty(body, item.range)?;
                Ok(Rule::Node(kind, body.rule))
            }
            Some(item) if item.sort == Sort::Choice => self.rule_of_choice(index),
            _ => Ok(Rule::Token(kind)),
        }
    }

    /// The rule of a choice: its bases, each with the nodes that may stand around it, and then those
    /// that may stand around all that stands there so far.
    fn rule_of_choice(&mut self, index: usize) -> Result<Rule, AllocError> {
        let range = self.grammar.range(index);
        let mut bases = self.bases_of(index)?;
        let mut around: Vec<At> = Vec::new(self.alloc);
        let mut is_plain = true;
        for (number, used) in self.grammar.alternatives(index).iter().enumerate() {
            match self.way(index, number) {
                Way::Base => continue,
                Way::Around => around.push(self.node_around(used)?)?,
                Way::Behind(first) => {
                    let node = self.node_around(used)?;
                    if let Some(base) = bases.get_mut(self.place(first)) {
                        base.behind.push(node)?;
                    }
                }
            }
            is_plain = false;
        }
        let mut whole: Vec<At> = Vec::new(self.alloc);
        for base in bases.iter() {
            whole.push(self.whole_base(index, base)?)?;
        }
        let one = self.rules.one_of(self.alloc, whole.as_slice())?;
        let one = self.or_empty(one, range)?;
        if is_plain {
            return Ok(self.rules.take(one.rule));
        }
        let around = self.rules.one_of(self.alloc, around.as_slice())?;
        let Some(around) = around else {
            return Ok(Rule::Chain(one.rule));
        };
        let of = Of::Operators(index);
        let many = self.rules.push(Rule::Star(around.rule), of, range)?;
        let chain = self
            .rules
            .push(Rule::Seq(one.rule, many.rule), Of::Part, range)?;
        Ok(Rule::Chain(chain.rule))
    }

    /// How an alternative of a choice begins.
    fn way(&self, choice: usize, number: usize) -> Way {
        match self.ways.get(choice) {
            Some(ways) => ways.get(number).copied().unwrap_or(Way::Base),
            None => Way::Base,
        }
    }

    /// The number of an item among the bases of the last choice that has it as one.
    fn place(&self, item: usize) -> usize {
        self.places.get(item).copied().unwrap_or(NO_PLACE)
    }

    /// The bases of a choice. Their numbers are noted.
    fn bases_of(&mut self, choice: usize) -> Result<Vec<Base>, AllocError> {
        let mut bases: Vec<Base> = Vec::new(self.alloc);
        for (number, used) in self.grammar.alternatives(choice).iter().enumerate() {
            if self.way(choice, number) == Way::Base {
                if let Some(place) = self.places.get_mut(used.item) {
                    *place = bases.len();
                }
                bases.push(Base {
                    at: self.used(used),
                    behind: Vec::new(self.alloc),
                })?;
            }
        }
        Ok(bases)
    }

    /// The rule of a base, with the nodes that may stand around it.
    fn whole_base(&mut self, choice: usize, base: &Base) -> Result<At, AllocError> {
        let nodes = self.rules.one_of(self.alloc, base.behind.as_slice())?;
        let Some(nodes) = nodes else {
            return Ok(base.at);
        };
        let range = base.at.range;
        let of = Of::Operators(choice);
        let maybe = self.rules.push(Rule::Optional(nodes.rule), of, range)?;
        self.rules
            .push(Rule::Seq(base.at.rule, maybe.rule), Of::Part, range)
    }

    /// The rule of a node around what stands before it.
    fn node_around(&mut self, used: &Use) -> Result<At, AllocError> {
        let grammar = self.grammar;
        let rest = match grammar.items.get(used.item) {
            Some(item) => rest_of(self, &item.body)?,
            None => None,
        };
        let rest = self.or_empty(rest, used.range)?;
        let rule = Rule::Wrap(self.kind(used.item), rest.rule);
        self.rules.push(rule, Of::Around(used.item), used.range)
    }
}

/// The rule of a part; nothing where nothing stands in it.
fn rule_of(maker: &mut Maker<'_>, part: &Part) -> Result<Option<At>, AllocError> {
    match part {
        Part::Token(used) | Part::Node(used) => Ok(Some(maker.used(used))),
        Part::Group(parts) | Part::Choice(parts) => {
            let mut inner: Vec<At> = Vec::new(maker.alloc);
            for part in parts.iter() {
                if let Some(at) = rule_of(maker, part)? {
                    inner.push(at)?;
                }
            }
            maker.joined(part, inner.as_slice())
        }
        Part::Labelled(_, part) => rule_of(maker, part),
        Part::Repeated(inner) | Part::Optional(inner) => {
            let at = rule_of(maker, inner)?;
            maker.maybe(part, at)
        }
    }
}

/// The rule of what stands behind the first part of a part.
fn rest_of(maker: &mut Maker<'_>, part: &Part) -> Result<Option<At>, AllocError> {
    match part {
        Part::Group(parts) => {
            let mut inner: Vec<At> = Vec::new(maker.alloc);
            for (number, part) in parts.iter().enumerate() {
                let at = match number {
                    0 => rest_of(maker, part)?,
                    _ => rule_of(maker, part)?,
                };
                if let Some(at) = at {
                    inner.push(at)?;
                }
            }
            maker.joined(part, inner.as_slice())
        }
        Part::Labelled(_, part) => rest_of(maker, part),
        _ => Ok(None),
    }
}
