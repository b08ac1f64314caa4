//! Which parts of a node are alike: a child or a token may be either.
use crate::places::{Place, Stands};
use crate::reach::Looker;
use crate::roles::Role;
use rowan_grammar_model::grammar::{Grammar, Sort};
use std::alloc::{AllocError, Global};
use std::collections::HashMap;

/// Sets of places at which the same kinds may stand. A set is known by its first place.
#[derive(Drop)]
pub struct Sets {
    /// Of each place one before it in its set, or itself.
    before: Vec<usize>,
    /// The places by the items that may stand there.
    owners: HashMap<usize, usize>,
    /// The kinds in the order of the places.
    kinds: Vec<KindAt>,
}

/// A kind, and the first place at which it may stand.
#[derive(Clone, Copy)]
struct KindAt {
    kind: usize,
    place: usize,
}

impl Sets {
    /// The sets of these places.
    pub fn new(
        alloc: Global,
        grammar: &Grammar,
        looker: &mut Looker,
        places: &[Place],
        roles: &[Role],
    ) -> Result<Sets, AllocError> {
        let mut sets = Sets {
            before: Vec::new(alloc),
            owners: HashMap::new(alloc),
            kinds: Vec::new(alloc),
        };
        let is_alone = count_children(places, roles) < 2;
        for (number, (place, role)) in places.iter().zip(roles.iter()).enumerate() {
            sets.before.push(number)?;
            match &place.stands {
                Stands::Token(tokens) => sets.own_all(grammar, tokens.as_slice(), number)?,
                Stands::Child(_) if *role == Role::Given => {}
                Stands::Child(item) if is_alone || sets.owners.contains_key(item) => sets.own(
                    grammar, *item, number,
                )?,
                Stands::Child(item) => {
                    let reached = looker.reach(alloc, grammar, *item)?;
                    for step in reached.steps.iter() {
                        sets.own(grammar, step.item, number)?;
                    }
                }
            }
        }
        Ok(sets)
    }

    fn own_all(
        &mut self,
        grammar: &Grammar,
        items: &[usize],
        place: usize,
    ) -> Result<(), AllocError> {
        for item in items.iter() {
            self.own(grammar, *item, place)?;
        }
        Ok(())
    }

    /// Says that an item may stand at a place: where it may stand at another one, their sets are
    /// one.
    fn own(&mut self, grammar: &Grammar, item: usize, place: usize) -> Result<(), AllocError> {
        if let Some(owner) = self.owners.get(&item).copied() {
            let one = self.set_of(owner);
            let other = self.set_of(place);
            if let Some(before) = self.before.get_mut(one.max(other)) {
                *before = one.min(other);
            }
            return Ok(());
        }
        self.owners.insert(item, place)?;
        if grammar.sort(item) != Sort::Choice {
            self.kinds.push(KindAt { kind: item, place })?;
        }
        Ok(())
    }

    /// The set of a place. Each look makes the way shorter for the next one.
    pub fn set_of(&mut self, place: usize) -> usize {
        let mut at = place;
        for _ in 0..self.before.len() {
            let before = self.before.get(at).copied().unwrap_or(at);
            if before == at {
                break;
            }
            let first = self.before.get(before).copied().unwrap_or(before);
            if let Some(slot) = self.before.get_mut(at) {
                *slot = first;
            }
            at = first;
        }
        at
    }

    /// The kinds that may stand at the places of a set.
    pub fn kinds_of(&mut self, alloc: Global, set: usize) -> Result<Vec<usize>, AllocError> {
        let mut kinds = Vec::new(alloc);
        for number in 0..self.kinds.len() {
            let Some(found) = self.kinds.get(number).copied() else {
                break;
            };
            if self.set_of(found.place) == set {
                kinds.push(found.kind)?;
            }
        }
        Ok(kinds)
    }
}

/// How many places are those of children that have a call of their own.
fn count_children(places: &[Place], roles: &[Role]) -> usize {
    places
        .iter()
        .zip(roles.iter())
        .filter(|(place, role)| !place.is_token() && **role != Role::Given)
        .count()
}
