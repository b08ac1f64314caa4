//! Which alternatives of a choice are nodes around an operand.
use rowan_grammar_model::grammar::{Grammar, Part, Sort};
use std::alloc::{AllocError, Global};

/// How an alternative of a choice begins.
#[derive(Clone, Copy, PartialEq, Eq, Debug)]
pub enum Way {
    /// Neither with the choice nor with another alternative of it.
    Base,
    /// A node that begins with the choice itself: it stands around all that stands there so far.
    Around,
    /// A node that begins with another alternative, the item with this number.
    Behind(usize),
}

/// How the alternatives of each item begin; none of an item that is no choice.
pub fn ways_of(alloc: Global, grammar: &Grammar) -> Result<Vec<Vec<Way>>, AllocError> {
    let mut firsts: Vec<Option<usize>> = Vec::new(alloc);
    for item in grammar.items.iter() {
        firsts.push(match item.sort {
            Sort::Node => first_of(&item.body),
            _ => None,
        })?;
    }
    let mut choices: Vec<Option<usize>> = vec![in alloc; None; grammar.items.len()]?;
    let mut ways: Vec<Vec<Way>> = Vec::new(alloc);
    for (choice, item) in grammar.items.iter().enumerate() {
        for used in item.alternatives.iter() {
            if let Some(mark) = choices.get_mut(used.item) {
                *mark = Some(choice);
            }
        }
        let mut found: Vec<Way> = Vec::new(alloc);
        for used in item.alternatives.iter() {
            found.push(way_of(firsts.as_slice(), choices.as_slice(), choice, used.item))?;
        }
        ways.push(found)?;
    }
    Ok(ways)
}

/// How an alternative of a choice begins, by what nodes begin with and by the last choice of which an
/// item is an alternative.
fn way_of(
    firsts: &[Option<usize>],
    choices: &[Option<usize>],
    choice: usize,
    alternative: usize,
) -> Way {
    match item_at(firsts, alternative) {
        Some(first) if first == choice => Way::Around,
        Some(first) if first != alternative && item_at(choices, first) == Some(choice) => {
            match item_at(firsts, first) {
                Some(inner) if inner == choice => Way::Base,
                Some(inner) if item_at(choices, inner) == Some(choice) => Way::Base,
                _ => Way::Behind(first),
            }
        }
        _ => Way::Base,
    }
}

fn item_at(items: &[Option<usize>], index: usize) -> Option<usize> {
    items.get(index).copied().flatten()
}

/// The node or the choice with which a part always begins, if it stands there alone.
fn first_of(part: &Part) -> Option<usize> {
    match part {
        Part::Node(used) => Some(used.item),
        Part::Labelled(_, part) => first_of(part),
        Part::Group(parts) => match parts.first() {
            Some(part) => first_of(part),
            None => None,
        },
        _ => None,
    }
}
