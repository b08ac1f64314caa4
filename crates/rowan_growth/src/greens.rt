//! Calls of green values, and of builders.
use crate::trees::{self, ROOT, TEXT, Tree, WORD};
use rowan::{Fault, GreenElement, GreenNodeBuilder, NodeCache, Steps, TextRange, TextSize};
use std::hash::{FoldHasher, Hash, Hasher};

pub fn make(call: &str, tree: &Tree) -> Result<Option<u64>, Fault> {
    let number = match call {
        "new" => new(tree),
        "build" => build(tree),
        "build_with_cache" => build_with_cache(tree),
        "wrap" => wrap(tree),
        "children" => children(tree),
        "children_nth" => children_nth(tree),
        "children_nth_back" => children_nth_back(tree),
        "children_last" => children_last(tree),
        "children_count" => children_count(tree),
        "child_at_range" => child_at_range(tree),
        "replace_child" => replace_child(tree),
        "insert_child" => insert_child(tree),
        "remove_child" => remove_child(tree),
        "splice_children" => splice_children(tree),
        "green_eq_clone" => green_eq_clone(tree),
        "green_eq_twin" => green_eq_twin(tree),
        "green_hash" => green_hash(tree),
        "green_display" => green_display(tree),
        _ => return Ok(None),
    };
    Ok(Some(number?))
}

/// Makes the tree again, and drops it.
fn new(tree: &Tree) -> Result<u64, Fault> {
    let green = trees::green(tree.alloc, tree.shape, tree.size)?;
    Ok(green.children().len() as u64)
}

/// A node over tokens, by a builder with a cache of its own.
fn build(tree: &Tree) -> Result<u64, Fault> {
    let mut cache = NodeCache::new(tree.alloc);
    place_tokens(tree, &mut cache)
}

/// Twice with one cache.
fn build_with_cache(tree: &Tree) -> Result<u64, Fault> {
    let mut cache = NodeCache::new(tree.alloc);
    let first = place_tokens(tree, &mut cache)?;
    Ok(first.wrapping_add(place_tokens(tree, &mut cache)?))
}

fn place_tokens(tree: &Tree, cache: &mut NodeCache) -> Result<u64, Fault> {
    let mut builder = GreenNodeBuilder::with_cache(tree.alloc, cache);
    builder.start_node(ROOT)?;
    for number in 0..tree.size {
        builder.token(WORD, format!(in tree.alloc; "{number}")?.as_str())?;
    }
    builder.finish_node()?;
    match builder.finish() {
        Ok(green) => return Ok(u64::from(u32::from(green.text_len()))),
        Err(unfinished) => return Err(unfinished.fault()),
    }
}

/// A node around all that came before, for each token.
fn wrap(tree: &Tree) -> Result<u64, Fault> {
    let mut cache = NodeCache::new(tree.alloc);
    let mut builder = GreenNodeBuilder::with_cache(tree.alloc, &mut cache);
    let left = builder.checkpoint();
    for _ in 0..tree.size {
        builder.start_node_at(left, ROOT)?;
        builder.token(WORD, TEXT)?;
        builder.finish_node()?;
    }
    match builder.finish() {
        Ok(green) => return Ok(u64::from(u32::from(green.text_len()))),
        Err(unfinished) => return Err(unfinished.fault()),
    }
}

fn len_of(child: &GreenElement) -> u64 {
    u64::from(u32::from(child.text_len()))
}

fn children(tree: &Tree) -> Result<u64, Fault> {
    let mut sum: u64 = 0;
    for child in tree.green.children() {
        sum = sum.wrapping_add(len_of(&child?));
    }
    Ok(sum)
}

/// Each child by its index.
fn children_nth(tree: &Tree) -> Result<u64, Fault> {
    let mut sum: u64 = 0;
    for index in 0..tree.green.children().len() {
        if let Some(child) = tree.green.children().nth(index) {
            sum = sum.wrapping_add(len_of(&child?));
        }
    }
    Ok(sum)
}

fn children_nth_back(tree: &Tree) -> Result<u64, Fault> {
    let mut sum: u64 = 0;
    for index in 0..tree.green.children().len() {
        if let Some(child) = tree.green.children().nth_back(index) {
            sum = sum.wrapping_add(len_of(&child?));
        }
    }
    Ok(sum)
}

fn children_last(tree: &Tree) -> Result<u64, Fault> {
    match tree.green.children().last() {
        Some(child) => Ok(len_of(&child?)),
        None => Ok(0),
    }
}

/// The child at a place between bytes, for each fourth of them.
fn child_at_range(tree: &Tree) -> Result<u64, Fault> {
    let mut steps = Steps::new();
    let mut sum: u64 = 0;
    for start in (0..u32::from(tree.green.text_len())).step_by(4) {
        let range = TextRange::at(TextSize::from(start), TextSize::from(0));
        if let Some((index, _, _)) = tree.green.child_at_range(range, &mut steps) {
            sum = sum.wrapping_add(index as u64);
        }
    }
    Ok(sum)
}

fn children_count(tree: &Tree) -> Result<u64, Fault> {
    Ok(tree.green.children().count() as u64)
}

fn replace_child(tree: &Tree) -> Result<u64, Fault> {
    let child = trees::token(tree.alloc, TEXT)?;
    let green = tree.green.replace_child(0, child)?;
    Ok(green.children().len() as u64)
}

fn insert_child(tree: &Tree) -> Result<u64, Fault> {
    let child = trees::token(tree.alloc, TEXT)?;
    let green = tree.green.insert_child(0, child)?;
    Ok(green.children().len() as u64)
}

fn remove_child(tree: &Tree) -> Result<u64, Fault> {
    if tree.green.children().len() == 0 {
        return Ok(0);
    }
    let green = tree.green.remove_child(0)?;
    Ok(green.children().len() as u64)
}

/// The children twice.
fn splice_children(tree: &Tree) -> Result<u64, Fault> {
    let green = tree
        .green
        .splice_children(0..0, trees::words(tree.alloc, tree.size)?)?;
    Ok(green.children().len() as u64)
}

fn green_eq_clone(tree: &Tree) -> Result<u64, Fault> {
    let clone = tree.green.clone()?;
    Ok(u64::from(tree.green == clone))
}

fn green_eq_twin(tree: &Tree) -> Result<u64, Fault> {
    Ok(u64::from(tree.green == tree.twin))
}

/// The hash itself is not the same in rowan.
fn green_hash(tree: &Tree) -> Result<u64, Fault> {
    let mut state = FoldHasher::default();
    tree.green.hash(&mut state);
    let _hash = state.finish();
    Ok(0)
}

fn green_display(tree: &Tree) -> Result<u64, Fault> {
    let text = tree.green.to_string(tree.alloc)?;
    Ok(text.len() as u64)
}
