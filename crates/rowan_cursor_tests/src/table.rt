//! The elements of the tree of `(+ (* 15 2) 62)`, level by level. The table of a tree is private:
//! what its entries keep is seen by public calls, and the parent of an element is named by its
//! place here.
use crate::fixture::{SUM, root_of};
use rowan_cursor::cursor::{ElementCalls, SyntaxElement};
use rowan_green::{Fault, NodeOrToken};
use std::alloc::Global;
use std::test::Fail;

/// What is shown of an element: its parent's place in the order, its index, where its text starts,
/// and how many children it has.
type Row = (usize, usize, u32, usize);

/// The rows of all elements. The root, which has no parent, is shown as its own.
const TABLE: [Row; 21] = [
    (0, 0, 0, 1),
    (0, 0, 0, 7),
    (1, 0, 0, 0),
    (1, 1, 1, 1),
    (1, 2, 2, 0),
    (1, 3, 3, 7),
    (1, 4, 11, 0),
    (1, 5, 12, 1),
    (1, 6, 14, 0),
    (3, 0, 1, 0),
    (5, 0, 3, 0),
    (5, 1, 4, 1),
    (5, 2, 5, 0),
    (5, 3, 6, 1),
    (5, 4, 8, 0),
    (5, 5, 9, 1),
    (5, 6, 10, 0),
    (7, 0, 12, 0),
    (11, 0, 4, 0),
    (13, 0, 6, 0),
    (15, 0, 9, 0),
];

/// The children of an element; a token has none.
fn children_of(alloc: Global, element: &SyntaxElement) -> Result<Vec<SyntaxElement>, Fault> {
    match element {
        NodeOrToken::Node(node) => node.children_with_tokens().try_collect(alloc),
        NodeOrToken::Token(_) => Ok(Vec::new(alloc)),
    }
}

/// What is shown of the element at a place, where there is one. Its children are put behind those
/// that are reached, each with its parent's place.
fn reach(
    alloc: Global,
    reached: &mut Vec<(usize, SyntaxElement)>,
    place: usize,
) -> Result<Option<Row>, Fault> {
    let Some((parent, element)) = reached.as_slice().get(place) else {
        return Ok(None);
    };
    let start = u32::from(element.text_range().start());
    let (parent, index) = (*parent, element.index());
    let children = children_of(alloc, element)?;
    let count = children.len();
    for child in children {
        reached.push((place, child))?;
    }
    Ok(Some((parent, index, start, count)))
}

#[test]
fn table_of_sum(rt: HostRuntime) -> Result<(), Fail> {
    let alloc = rt.alloc();
    let root = SyntaxElement::from(root_of(alloc, SUM.as_slice())?);
    let mut reached = vec![in alloc; (0usize, root)]?;
    for (place, shown) in TABLE.into_iter().enumerate() {
        assert_eq!(rt;
            reach(alloc, &mut reached, place),
            Ok(Some(shown)),
            "{place}"
        );
    }
    assert_eq!(rt; reached.len(), TABLE.len());
    Ok(())
}
