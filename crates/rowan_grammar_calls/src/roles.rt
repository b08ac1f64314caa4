//! Which places of a rule have a call.
use crate::places::Place;
use rowan_green::TextRange;
use std::alloc::{AllocError, Global};
use std::collections::HashMap;

/// What is done with what stands at a place.
#[derive(Clone, Copy, PartialEq, Eq)]
pub enum Role {
    /// A call gives it alone.
    One,
    /// A call gives all of it that come.
    Many,
    /// The call for an earlier place gives it too.
    Given,
    /// No call gives it: a token that may come more than once, as the comma between elements.
    Passed,
}

/// Places that have one call: those without labels at which one item stands, and those in a group
/// with a label.
#[derive(Clone, Copy, PartialEq, Eq, Hash)]
struct Name {
    label: Option<TextRange>,
    item: usize,
}

/// How many places have one name.
#[derive(Clone, Copy)]
struct Run {
    /// The number of the first of them.
    first: usize,
    count: usize,
    /// Whether one of them may come many times.
    is_many: bool,
}

/// What is done with each place. Places without labels at which one node stands have one call, where
/// one of them may come many times.
pub fn roles_of(alloc: Global, places: &[Place]) -> Result<Vec<Role>, AllocError> {
    let mut runs: HashMap<Name, Run> = HashMap::new(alloc);
    for (number, place) in places.iter().enumerate() {
        let run = match runs.get(&place.name()).copied() {
            Some(run) => Run {
                first: run.first,
                count: run.count.saturating_add(1),
                is_many: run.is_many || place.is_many,
            },
            None => Run {
                first: number,
                count: 1,
                is_many: place.is_many,
            },
        };
        runs.insert(place.name(), run)?;
    }
    let mut roles = Vec::new(alloc);
    for (number, place) in places.iter().enumerate() {
        let role = match runs.get(&place.name()) {
            Some(run) => role_in(*run, number, place),
            None => Role::One,
        };
        roles.push(role)?;
    }
    Ok(roles)
}

/// The role of a place with this number, of those that have its name.
fn role_in(run: Run, number: usize, place: &Place) -> Role {
    if place.is_token() {
        let is_one = run.count == 1 && !run.is_many;
        return if is_one { Role::One } else { Role::Passed };
    }
    if !run.is_many && (run.count == 1 || place.label.is_none()) {
        return Role::One;
    }
    if run.first == number {
        Role::Many
    } else {
        Role::Given
    }
}

impl Place {
    fn name(&self) -> Name {
        Name {
            label: self.label,
            item: self.item(),
        }
    }
}
