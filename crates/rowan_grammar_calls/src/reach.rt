//! To which nodes a choice leads.
use rowan_grammar_model::grammar::{Grammar, Sort};
use std::alloc::{AllocError, Global};
use std::collections::HashMap;

/// More steps than any way through a grammar has: a loop over it ends where nothing is open.
const MAX_STEPS: usize = usize::MAX;

/// An item that was reached, the number of the step whose alternative it is, and the alternative of
/// the first item by which it was reached.
#[derive(Clone, Copy, PartialEq, Eq, Debug)]
pub struct Step {
    pub item: usize,
    pub from: usize,
    pub top: usize,
}

/// The items to which one leads, itself first, each with its alternatives behind it.
#[derive(Drop)]
pub struct Reach {
    pub steps: Vec<Step>,
    /// The first item that was reached again, at which the search ended.
    pub twice: Option<usize>,
    /// How many alternatives were looked at.
    pub looks: usize,
}

/// How many alternatives may be looked at where choices and parts are compared.
const MAX_LOOKS: usize = 4_000_000;

/// Looks at what items lead to, until it has looked at too many alternatives.
#[derive(Clone, Copy)]
pub struct Looker {
    looks: usize,
}

impl Looker {
    pub fn new() -> Looker {
        Looker { looks: 0 }
    }

    /// Whether it has looked at too many.
    pub fn is_over(&self) -> bool {
        self.looks > MAX_LOOKS
    }

    /// To what an item leads; to nothing where too many were looked at before.
    pub fn reach(
        &mut self,
        alloc: Global,
        grammar: &Grammar,
        start: usize,
    ) -> Result<Reach, AllocError> {
        if self.is_over() {
            return Ok(Reach {
                steps: Vec::new(alloc),
                twice: None,
                looks: 0,
            });
        }
        let reached = steps_from(alloc, grammar, start)?;
        self.looks = self.looks.saturating_add(reached.looks);
        Ok(reached)
    }
}

/// The items to which this one leads.
pub fn steps_from(alloc: Global, grammar: &Grammar, start: usize) -> Result<Reach, AllocError> {
    let mut steps: Vec<Step> = Vec::new(alloc);
    let mut found: HashMap<usize, usize> = HashMap::new(alloc);
    let mut open: Vec<Step> = Vec::new(alloc);
    let mut looks = 0usize;
    let mut twice = None;
    open.push(Step {
        item: start,
        from: 0,
        top: start,
    })?;
    for number in 0..=grammar.items.len() {
        let Some(step) = open.pop() else {
            break;
        };
        if found.contains_key(&step.item) {
            twice = Some(step.item);
            break;
        }
        found.insert(step.item, number)?;
        steps.push(step)?;
        looks = looks.saturating_add(1);
        if grammar.sort(step.item) == Sort::Choice {
            let alternatives = grammar.alternatives(step.item);
            looks = looks.saturating_add(alternatives.len());
            for used in alternatives.iter().rev() {
                let item = used.item;
                let from = number;
                let top = if number == 0 { item } else { step.top };
                open.push(Step { item, from, top })?;
            }
        }
    }
    Ok(Reach {
        steps,
        twice,
        looks,
    })
}

/// An item that is to be looked at, or whose alternatives were.
#[derive(Clone, Copy)]
struct Visit {
    item: usize,
    is_done: bool,
}

/// The numbers of the choices, each behind those among its alternatives, where none leads to
/// itself.
pub fn choices_of(alloc: Global, grammar: &Grammar) -> Result<Vec<usize>, AllocError> {
    let mut choices = Vec::new(alloc);
    let mut is_known: Vec<bool> = vec![in alloc; false; grammar.items.len()]?;
    for (index, item) in grammar.items.iter().enumerate() {
        if item.sort == Sort::Choice {
            add_choices(alloc, grammar, &mut choices, &mut is_known, index)?;
        }
    }
    Ok(choices)
}

/// Adds the choices to which one leads and that are not known, and then itself.
fn add_choices(
    alloc: Global,
    grammar: &Grammar,
    choices: &mut Vec<usize>,
    is_known: &mut Vec<bool>,
    start: usize,
) -> Result<(), AllocError> {
    let mut open: Vec<Visit> = Vec::new(alloc);
    open.push(to_visit(start))?;
    for _ in 0..MAX_STEPS {
        let Some(Visit { item, is_done }) = open.pop() else {
            break;
        };
        if is_done {
            choices.push(item)?;
        } else if grammar.sort(item) == Sort::Choice && set(is_known, item) {
            let is_done = true;
            open.push(Visit { item, is_done })?;
            for used in grammar.alternatives(item).iter() {
                open.push(to_visit(used.item))?;
            }
        }
    }
    Ok(())
}

fn to_visit(item: usize) -> Visit {
    Visit {
        item,
        is_done: false,
    }
}

/// The choices that may lead to an item in two ways, each behind those among its alternatives: what
/// they lead to is an alternative more than once.
pub fn doubtful_choices(alloc: Global, grammar: &Grammar) -> Result<Vec<usize>, AllocError> {
    let mut doubtful = Vec::new(alloc);
    let mut is_doubtful = shared_items(alloc, grammar)?;
    for index in choices_of(alloc, grammar)?.iter() {
        if leads_to(grammar, *index, is_doubtful.as_slice()) {
            set(&mut is_doubtful, *index);
            doubtful.push(*index)?;
        }
    }
    Ok(doubtful)
}

/// To how many nodes all choices lead together, where each leads to a node in one way: what is
/// written for choices is as long as that.
pub fn count_arms(alloc: Global, grammar: &Grammar) -> Result<usize, AllocError> {
    let mut counts: Vec<usize> = vec![in alloc; 1; grammar.items.len()]?;
    let mut total = 0usize;
    for index in choices_of(alloc, grammar)?.iter() {
        let count = sum_of(grammar, *index, counts.as_slice());
        total = total.saturating_add(count);
        if let Some(slot) = counts.get_mut(*index) {
            *slot = count;
        }
    }
    Ok(total)
}

/// The count of a choice, from those of its alternatives.
fn sum_of(grammar: &Grammar, choice: usize, counts: &[usize]) -> usize {
    let mut sum = 0usize;
    for used in grammar.alternatives(choice).iter() {
        sum = sum.saturating_add(counts.get(used.item).copied().unwrap_or(0));
    }
    sum
}

/// Which items are alternatives more than once.
fn shared_items(alloc: Global, grammar: &Grammar) -> Result<Vec<bool>, AllocError> {
    let mut is_used: Vec<bool> = vec![in alloc; false; grammar.items.len()]?;
    let mut is_shared: Vec<bool> = vec![in alloc; false; grammar.items.len()]?;
    for item in grammar.items.iter() {
        for used in item.alternatives.iter() {
            if !set(&mut is_used, used.item) {
                set(&mut is_shared, used.item);
            }
        }
    }
    Ok(is_shared)
}

/// Whether one of the alternatives of a choice is marked.
pub fn leads_to(grammar: &Grammar, choice: usize, marks: &[bool]) -> bool {
    grammar
        .alternatives(choice)
        .iter()
        .any(|used| marks.get(used.item).copied().unwrap_or(false))
}

/// Sets a mark. Says whether it was not set before; of what has no mark that it was.
pub fn set(marks: &mut Vec<bool>, index: usize) -> bool {
    match marks.get_mut(index) {
        Some(mark) if !*mark => {
            *mark = true;
            true
        }
        _ => false,
    }
}
