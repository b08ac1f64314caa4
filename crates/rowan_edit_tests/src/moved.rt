//! Where ranges and pointers of an old text lie in the new one.
use crate::fixture::{LIST, Moving, Splice, moves, nested, range, spliced, tree};
use crate::json::Node;
use json_syntax::Json;
use rowan::ast::SyntaxNodePtr;
use rowan::{Fault, GreenNode, SyntaxNode};
use rowan_edit::{EditError, Edited, Refusal};
use std::alloc::Global;
use std::test::Fail;

/// The text `abcde` becomes `axyzcde`: two bytes are put before `b`, and `z` in its place.
const CHANGED: [Splice; 2] = [Splice(&[1], 0, 1, &["z"]), Splice(&[1], 0, 0, &["xy"])];

/// A range, and where it is moved to.
const MOVED: [Moving; 8] = [
    ((0, 1), Some((0, 1))),
    ((0, 2), None),
    ((1, 2), None),
    ((2, 5), Some((4, 7))),
    // Empty ranges: before what is put there, and behind what gave way.
    ((1, 1), Some((1, 1))),
    ((2, 2), Some((4, 4))),
    // Past the text, and past the limit.
    ((7, 9), Some((9, 11))),
    ((7, 4_294_967_295), None),
];

#[test]
fn borders_and_empty_ranges(rt: HostRuntime) -> Result<(), Fail> {
    let alloc = rt.alloc();
    let edited = spliced(alloc, &tree(alloc)?, &CHANGED)?;
    for moving in MOVED {
        assert!(rt; moves(&edited.changes, moving));
    }
    Ok(())
}

type Pointer = SyntaxNodePtr<Json>;

/// The root of a tree, what edits made of the tree, and the root of that.
#[derive(Drop)]
struct Trees {
    old: SyntaxNode<Json>,
    edited: Edited,
    new: SyntaxNode<Json>,
}

fn before_and_after(alloc: Global, green: GreenNode, edits: &[Splice]) -> Result<Trees, EditError> {
    let edited = spliced(alloc, &green, edits)?;
    let new = SyntaxNode::new_root(alloc, edited.green.clone()?)?;
    let old = SyntaxNode::new_root(alloc, green)?;
    Ok(Trees { old, edited, new })
}

/// The pointer of the list in the root.
fn list_pointer(root: &SyntaxNode<Json>) -> Result<Pointer, Fault> {
    match root.first_child()? {
        Some(list) => Ok(SyntaxNodePtr::new(&list)),
        None => Err(Fault::NotFound),
    }
}

/// Whether a pointer leads to a list in the tree with this root, which has this range there.
fn leads_to_list(pointer: Pointer, root: &SyntaxNode<Json>, start: u32, end: u32) -> bool {
    match pointer.to_node(root) {
        Ok(found) => found.green().kind() == LIST && found.text_range() == range(start, end),
        Err(_) => false,
    }
}

/// Two bytes before the list.
const BEFORE: [Splice; 1] = [Splice(&[], 1, 1, &["xy"])];

/// A list behind what is put is found again, and its parent is nowhere.
#[test]
fn pointers(rt: HostRuntime) -> Result<(), Fail> {
    let alloc = rt.alloc();
    let trees = before_and_after(alloc, tree(alloc)?, &BEFORE)?;
    let whole = trees
        .edited
        .changes
        .moved_pointer(SyntaxNodePtr::new(&trees.old));
    assert!(rt; whole.is_none());
    let list = list_pointer(&trees.old)?;
    match trees.edited.changes.moved_pointer(list) {
        Some(moved) => assert!(rt; leads_to_list(moved, &trees.new, 3, 6)),
        None => return Err(Fault::NotFound.into()),
    }
    Ok(())
}

/// The list in a node of a tree.
fn list_in(node: Node<'_>) -> Result<Node<'_>, Fault> {
    let Some(list) = node.first_child() else {
        return Err(Fault::NotFound);
    };
    Ok(list)
}

/// Each edit of `ROOT["a" LIST[LIST["bcd"]] "e"]`, and the range to which it moves the pointer of the
/// outer list.
const AROUND: [(Splice, Option<(u32, u32)>); 6] = [
    // Inside of it, before the inner list, which has the range that the outer one would have by
    // the changes alone.
    (Splice(&[1], 0, 0, &["x"]), Some((1, 5))),
    (Splice(&[1, 0], 0, 1, &["xyz"]), Some((1, 4))),
    (Splice(&[1], 0, 1, &[]), Some((1, 1))),
    // Beside it.
    (Splice(&[], 1, 1, &["x"]), Some((2, 5))),
    (Splice(&[], 2, 2, &["x"]), Some((1, 4))),
    (Splice(&[], 1, 2, &["x"]), None),
];

/// Whether an edit moved the pointer of the outer list to this range, where the list is found.
fn follows(alloc: Global, trees: &Trees, to: Option<(u32, u32)>) -> Result<bool, EditError> {
    let new = trees.new.as_ref();
    let list = SyntaxNodePtr::from_ref(list_in(trees.old.as_ref())?);
    let moved = trees
        .edited
        .moved_pointer(alloc, list, trees.old.as_ref(), new)?;
    match (moved, to) {
        (Some(moved), Some((start, end))) => {
            let found = moved.to_node_ref(new)?;
            Ok(moved.text_range() == range(start, end) && found == list_in(new)?)
        }
        (moved, _) => Ok(moved.is_none() && to.is_none()),
    }
}

#[test]
fn pointers_around_edits(rt: HostRuntime) -> Result<(), Fail> {
    let alloc = rt.alloc();
    for (edit, to) in AROUND {
        let trees = before_and_after(alloc, nested(alloc)?, &[edit])?;
        assert!(rt; follows(alloc, &trees, to) == Ok(true));
    }
    Ok(())
}

/// A word before the inner list, and that word taken away.
const PUT: [Splice; 1] = [Splice(&[1], 0, 0, &["x"])];

const TAKEN: [Splice; 1] = [Splice(&[1], 0, 1, &[])];

/// The old tree, with a word before the inner list.
fn with_word(alloc: Global) -> Result<GreenNode, EditError> {
    Ok(spliced(alloc, &nested(alloc)?, &PUT)?.green)
}

/// Whether no pointer leads to the inner list, which is somewhere, and a cursor of another tree is
/// refused.
fn leads_nowhere(alloc: Global, trees: &Trees) -> Result<bool, EditError> {
    let old = trees.old.as_ref();
    let inner = SyntaxNodePtr::from_ref(list_in(list_in(old)?)?);
    let moved = trees
        .edited
        .moved_pointer(alloc, inner, old, trees.new.as_ref());
    let other = trees.edited.moved_pointer(alloc, inner, old, old);
    Ok(
        trees.edited.moved_path(alloc, &[1, 1])?.is_some()
            && moved == Ok(None)
            && other == Err(EditError::Refused(Refusal::OtherTree)),
    )
}

/// No pointer leads to the inner list once it has all of the text of the outer one, and a cursor of
/// another tree is refused.
#[test]
fn pointers_that_lead_elsewhere(rt: HostRuntime) -> Result<(), Fail> {
    let alloc = rt.alloc();
    let trees = before_and_after(alloc, with_word(alloc)?, &TAKEN)?;
    assert!(rt; leads_nowhere(alloc, &trees) == Ok(true));
    Ok(())
}
