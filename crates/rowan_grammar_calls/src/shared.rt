//! Which nodes and choices have the traits of a grammar.
use crate::calls::{Call, Calls, Gives};
use rowan_grammar_model::forms::{Form, Forms};
use rowan_grammar_model::grammar::{Grammar, Sort};
use std::alloc::{AllocError, Global};
use std::collections::HashMap;

/// A trait of the grammar.
#[derive(Drop)]
pub struct Shared {
    /// The number of its item.
    pub item: usize,
    /// The numbers of the nodes and choices that have it, in their order.
    pub users: Vec<usize>,
    /// The forms of wrappers that have it: what its calls give has wrappers of that form, too.
    pub forms: Forms,
}

/// A node whose wrapper has a call.
#[derive(Clone, Copy)]
struct Caller {
    item: usize,
    gives: Gives,
}

/// Finds what has traits.
#[derive(Drop)]
struct Finder<'g> {
    alloc: Global,
    grammar: &'g Grammar,
    /// The nodes that have a wrapper by the names of their calls.
    callers: HashMap<String, Vec<Caller>>,
    /// Of each item the choices that have a wrapper and are one of it.
    wholes: Vec<Vec<usize>>,
}

/// The traits of a grammar with what has them: nodes with all calls of the trait, and choices of
/// nothing else.
pub fn shared_of(
    alloc: Global,
    grammar: &Grammar,
    calls: &[Calls],
) -> Result<Vec<Shared>, AllocError> {
    let mut finder = Finder {
        alloc,
        grammar,
        callers: HashMap::new(alloc),
        wholes: Vec::new(alloc),
    };
    finder.read(calls)?;
    let mut shared = Vec::new(alloc);
    for (item, (whole, calls)) in grammar.items.iter().zip(calls.iter()).enumerate() {
        if whole.sort == Sort::Trait {
            let calls = calls.calls.as_slice();
            let users = finder.users_of(calls)?;
            let forms = forms_of(grammar, calls, users.as_slice());
            shared.push(Shared { item, users, forms })?;
        }
    }
    Ok(shared)
}

/// Whether a trait can have a call that gives this.
pub fn can_share(gives: Gives) -> bool {
    matches!(
        gives,
        Gives::Token(_) | Gives::Child(_) | Gives::Children(_)
    )
}

/// The forms of wrappers that a trait with these calls has.
fn forms_of(grammar: &Grammar, calls: &[Call], users: &[usize]) -> Forms {
    let mut forms = Forms::NONE;
    for form in [Form::Owned, Form::Borrowed] {
        let has_calls = calls.iter().all(|call| call.is_in(grammar, form));
        if has_calls && users.iter().any(|user| grammar.forms(*user).has(form)) {
            forms = forms.with(form);
        }
    }
    forms
}

impl Finder<'_> {
    fn read(&mut self, calls: &[Calls]) -> Result<(), AllocError> {
        for _ in self.grammar.items.iter() {
            self.wholes.push(Vec::new(self.alloc))?;
        }
        for (index, (item, calls)) in self.grammar.items.iter().zip(calls.iter()).enumerate() {
            match item.sort {
                _ if !item.is_wrapped() => {}
                Sort::Node => self.add_callers(index, calls.calls.as_slice())?,
                Sort::Choice => self.add_whole(index)?,
                _ => {}
            }
        }
        Ok(())
    }

    fn add_callers(&mut self, item: usize, calls: &[Call]) -> Result<(), AllocError> {
        for call in calls.iter() {
            let gives = call.gives;
            if let Some(callers) = self.callers.get_mut(call.name.as_str()) {
                callers.push(Caller { item, gives })?;
                continue;
            }
            let callers = vec![in self.alloc; Caller { item, gives }]?;
            self.callers.insert(call.name.clone()?, callers)?;
        }
        Ok(())
    }

    fn add_whole(&mut self, choice: usize) -> Result<(), AllocError> {
        for used in self.grammar.alternatives(choice).iter() {
            if let Some(wholes) = self.wholes.get_mut(used.item) {
                wholes.push(choice)?;
            }
        }
        Ok(())
    }

    /// The nodes with all of these calls, and the choices that are one of such alone.
    fn users_of(&self, calls: &[Call]) -> Result<Vec<usize>, AllocError> {
        let mut users = Vec::new(self.alloc);
        let mut found: HashMap<usize, usize> = HashMap::new(self.alloc);
        for call in calls.iter() {
            let Some(callers) = self.callers.get(call.name.as_str()) else {
                break;
            };
            for caller in callers.iter().filter(|caller| caller.gives == call.gives) {
                let count = found
                    .get(&caller.item)
                    .copied()
                    .unwrap_or(0)
                    .saturating_add(1);
                found.insert(caller.item, count)?;
                if count == calls.len() {
                    users.push(caller.item)?;
                }
            }
        }
        self.add_choices(&mut users)?;
        users.sort()?;
        Ok(users)
    }

    /// Adds the choices that are one of these items alone, and those that are one of the choices that
    /// were added.
    fn add_choices(&self, users: &mut Vec<usize>) -> Result<(), AllocError> {
        let mut found: HashMap<usize, usize> = HashMap::new(self.alloc);
        let mut next = 0usize;
        for _ in 0..self.grammar.items.len() {
            let Some(wholes) = users.get(next).and_then(|item| self.wholes.get(*item)) else {
                break;
            };
            for whole in wholes.iter() {
                let count = found.get(whole).copied().unwrap_or(0).saturating_add(1);
                found.insert(*whole, count)?;
                if count == self.grammar.alternatives(*whole).len() {
                    users.push(*whole)?;
                }
            }
            next = next.saturating_add(1);
        }
        Ok(())
    }
}
