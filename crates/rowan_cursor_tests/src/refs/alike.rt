//! What borrowed elements show of themselves is what owned ones show.
use super::borrowed;
use crate::fixture::{MIXED, at, root_of};
use rowan_cursor::cursor::{SyntaxElement, SyntaxNode};
use rowan_green::Fault;
use std::alloc::{AllocError, Global};
use std::hash::{DefaultHasher, Hash, Hasher};
use std::test::Fail;

/// The root, a node and two tokens of `ROOT["a" LIST["b"] " " ATOM["c"]]`.
const PATHS: [&[usize]; 4] = [&[], &[1], &[2], &[3, 0]];

/// What a value feeds to a hasher, as one number.
pub fn hash_of<T: Hash>(value: &T) -> u64 {
    let mut state = DefaultHasher::new();
    value.hash(&mut state);
    state.finish()
}

fn is_debugged_alike(alloc: Global, owned: &SyntaxElement) -> Result<bool, AllocError> {
    let borrowed = borrowed(owned);
    let line = format!(in alloc; "{borrowed:?}")?;
    Ok(line == format!(in alloc; "{owned:?}")?)
}

fn is_displayed_alike(alloc: Global, owned: &SyntaxElement) -> Result<bool, AllocError> {
    Ok(borrowed(owned).to_string(alloc)? == owned.to_string(alloc)?)
}

/// Whether the hash, the debug line and the text of the element at a path, borrowed, are those of
/// the owned one.
fn is_alike(alloc: Global, root: &SyntaxNode, path: &[usize]) -> Result<bool, Fault> {
    let owned = at(root, path)?;
    Ok(
        hash_of(&borrowed(&owned)) == hash_of(&owned)
            && is_debugged_alike(alloc, &owned) == Ok(true)
            && is_displayed_alike(alloc, &owned) == Ok(true),
    )
}

#[test]
fn hashes_debug_lines_and_texts_are_those_of_owned_ones(rt: HostRuntime) -> Result<(), Fail> {
    let root = root_of(rt.alloc(), MIXED.as_slice())?;
    for path in PATHS {
        assert!(rt; is_alike(rt.alloc(), &root, path) == Ok(true));
    }
    Ok(())
}

/// Whether elements of two trees are equal, borrowed.
fn are_equal(one: Result<SyntaxElement, Fault>, other: &SyntaxElement) -> Result<bool, Fault> {
    Ok(borrowed(&one?) == borrowed(other))
}

#[test]
fn elements_of_two_trees_are_compared(rt: HostRuntime) -> Result<(), Fail> {
    let root = root_of(rt.alloc(), MIXED.as_slice())?;
    let other = at(&root_of(rt.alloc(), MIXED.as_slice())?, &[1])?;
    for path in PATHS {
        let is_it = path.len() == 1 && path[0] == 1;
        assert!(rt; are_equal(at(&root, path), &other) == Ok(is_it));
    }
    Ok(())
}
