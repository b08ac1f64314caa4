//! Items that need themselves: nodes that have no end, and choices that lead to no node.
use rowan_grammar_model::grammar::{Grammar, Part, Sort};
use std::alloc::{AllocError, Global};

/// What items are asked for. Where one has it not, it needs another that has it not either.
#[derive(Clone, Copy, PartialEq, Eq, Debug)]
pub enum Want {
    /// A text that ends: a node has all its parts in it, and a choice one of its alternatives.
    End,
    /// Nodes alone as what a choice leads to, by whatever choices.
    Nodes,
}

/// What each item needs for what is wanted. Of a choice that is to end each alternative does, of
/// which one is enough.
fn wants_of(alloc: Global, grammar: &Grammar, want: Want) -> Result<Vec<Vec<usize>>, AllocError> {
    let mut wants: Vec<Vec<usize>> = Vec::new(alloc);
    for item in grammar.items.iter() {
        let mut needed: Vec<usize> = Vec::new(alloc);
        for used in item.alternatives.iter() {
            if want == Want::End || grammar.sort(used.item) == Sort::Choice {
                needed.push(used.item)?;
            }
        }
        if want == Want::End {
            add_needed(&item.body, &mut needed)?;
        }
        wants.push(needed)?;
    }
    Ok(wants)
}

/// Adds the nodes that stand in each node of this body. Of alternatives none does.
fn add_needed(body: &Part, needed: &mut Vec<usize>) -> Result<(), AllocError> {
    match body {
        Part::Node(used) => {
            needed.push(used.item)?;
            Ok(())
        }
        Part::Group(parts) => {
            for part in parts.iter() {
                add_needed(part, needed)?;
            }
            Ok(())
        }
        Part::Labelled(_, part) => add_needed(part, needed),
        Part::Token(_) | Part::Choice(_) | Part::Repeated(_) | Part::Optional(_) => Ok(()),
    }
}

/// How many parts each item still needs for what is wanted: none where it has it. Each part is
/// looked at once.
fn needs_left(
    alloc: Global,
    grammar: &Grammar,
    want: Want,
    wants: &[Vec<usize>],
) -> Result<Vec<usize>, AllocError> {
    let users = users_of(alloc, wants)?;
    let mut needs: Vec<usize> = Vec::new(alloc);
    let mut met: Vec<usize> = Vec::new(alloc);
    for (index, needed) in wants.iter().enumerate() {
        let count = match grammar.sort(index) {
            Sort::Choice if want == Want::End => 1,
            _ => needed.len(),
        };
        needs.push(count)?;
        if count == 0 {
            met.push(index)?;
        }
    }
    for _ in 0..wants.len() {
        let Some(index) = met.pop() else {
            break;
        };
        let Some(list) = users.get(index) else {
            continue;
        };
        for user in list.iter() {
            if meet(&mut needs, *user) {
                met.push(*user)?;
            }
        }
    }
    Ok(needs)
}

/// Of each item the numbers of those that need it, once for each part that does.
fn users_of(alloc: Global, wants: &[Vec<usize>]) -> Result<Vec<Vec<usize>>, AllocError> {
    let mut users: Vec<Vec<usize>> = Vec::new(alloc);
    for _ in 0..wants.len() {
        users.push(Vec::new(alloc))?;
    }
    for (index, needed) in wants.iter().enumerate() {
        for item in needed.iter() {
            if let Some(list) = users.get_mut(*item) {
                list.push(index)?;
            }
        }
    }
    Ok(users)
}

/// Takes one off what an item needs. Says whether it needs no more now, and did before.
fn meet(needs: &mut Vec<usize>, index: usize) -> bool {
    match needs.get_mut(index) {
        Some(count) if *count > 0 => {
            *count = count.saturating_sub(1);
            *count == 0
        }
        _ => false,
    }
}

/// Items of which each needs the next one, and the last one the first.
#[derive(Drop)]
pub struct Ring {
    pub first: usize,
    pub others: Vec<usize>,
}

/// The rings of items that have not what is wanted. An item is in one ring at most, and what only
/// leads to a ring is in none.
pub fn rings(alloc: Global, grammar: &Grammar, want: Want) -> Result<Vec<Ring>, AllocError> {
    let wants = wants_of(alloc, grammar, want)?;
    let needs = needs_left(alloc, grammar, want, wants.as_slice())?;
    let next = next_left(alloc, wants.as_slice(), needs.as_slice())?;
    let mut rings: Vec<Ring> = Vec::new(alloc);
    let mut walks: Vec<usize> = vec![in alloc; 0; next.len()]?;
    for start in 0..next.len() {
        if let Some(back) = comes_back(next.as_slice(), &mut walks, start) {
            let first = first_of(grammar, next.as_slice(), back);
            let others = others_of(alloc, next.as_slice(), first)?;
            rings.push(Ring { first, others })?;
        }
    }
    Ok(rings)
}

/// Of each item that has not what is wanted the first that it needs and that has it not either.
fn next_left(
    alloc: Global,
    wants: &[Vec<usize>],
    needs: &[usize],
) -> Result<Vec<Option<usize>>, AllocError> {
    let mut next: Vec<Option<usize>> = Vec::new(alloc);
    for (needed, count) in wants.iter().zip(needs.iter()) {
        let found = match *count {
            0 => None,
            _ => first_left(needed.as_slice(), needs),
        };
        next.push(found)?;
    }
    Ok(next)
}

fn first_left(needed: &[usize], needs: &[usize]) -> Option<usize> {
    needed
        .iter()
        .copied()
        .find(|item| needs.get(*item).copied().unwrap_or(0) > 0)
}

/// Walks from an item to the next that is needed, and so on, up to where a walk came by: the item,
/// if it was this walk.
fn comes_back(next: &[Option<usize>], walks: &mut Vec<usize>, start: usize) -> Option<usize> {
    let number = start.saturating_add(1);
    let mut at = start;
    for _ in 0..=next.len() {
        let walk = walks.get_mut(at)?;
        if *walk == number {
            return Some(at);
        }
        if *walk != 0 {
            return None;
        }
        *walk = number;
        at = next.get(at).copied().flatten()?;
    }
    None
}

/// The first node of a ring in the order of the grammar; of choices alone the first of these.
fn first_of(grammar: &Grammar, next: &[Option<usize>], start: usize) -> usize {
    let mut first = start;
    let mut at = start;
    for _ in 0..next.len() {
        if comes_before(grammar, at, first) {
            first = at;
        }
        match next.get(at).copied().flatten() {
            Some(after) if after != start => at = after,
            _ => break,
        }
    }
    first
}

fn comes_before(grammar: &Grammar, one: usize, other: usize) -> bool {
    match (grammar.sort(one), grammar.sort(other)) {
        (Sort::Choice, Sort::Node) => false,
        (Sort::Node, Sort::Choice) => true,
        _ => one < other,
    }
}

/// The items of a ring behind one of them.
fn others_of(
    alloc: Global,
    next: &[Option<usize>],
    first: usize,
) -> Result<Vec<usize>, AllocError> {
    let mut others = Vec::new(alloc);
    let mut at = first;
    for _ in 0..next.len() {
        match next.get(at).copied().flatten() {
            Some(after) if after != first => at = after,
            _ => break,
        }
        others.push(at)?;
    }
    Ok(others)
}
