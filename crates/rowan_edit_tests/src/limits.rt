//! Other children up to the greatest length of a text, by new elements that share their children.
use crate::fixture::{old_pieces, words};
use crate::json::{Editor, Node, root_of};
use json_syntax::Kind;
use rowan::{Fault, GreenElement, GreenNode, NodeOrToken, SyntaxKind};
use rowan_edit::{EditError, Piece, Position, SyntaxEditor};
use std::alloc::Global;
use std::test::Fail;

const KIND: SyntaxKind = SyntaxKind(0);

/// A node whose text has 4,294,967,295 bytes: over children of 1, 2, 4 bytes and so on up to 2^31,
/// each over the one before it twice.
fn longest(alloc: Global) -> Result<GreenElement, Fault> {
    let mut children = words(alloc, &["a"])?;
    push_doubled(alloc, &mut children)?;
    GreenNode::new(alloc, KIND, children).map(NodeOrToken::Node)
}

/// Puts 31 elements behind others, each over the one before it twice.
fn push_doubled(alloc: Global, children: &mut Vec<GreenElement>) -> Result<(), Fault> {
    for _ in 0..31 {
        let doubled = match children.last() {
            Some(last) => twice(alloc, last)?,
            None => return Err(Fault::NotFound),
        };
        children.push(doubled)?;
    }
    Ok(())
}

fn twice(alloc: Global, element: &GreenElement) -> Result<GreenElement, Fault> {
    let mut pair = Vec::new(alloc);
    for _ in 0..2 {
        pair.push(element.clone()?)?;
    }
    GreenNode::new(alloc, KIND, pair).map(NodeOrToken::Node)
}

/// The first array below a node, or else that node.
fn first_array<'tree>(root: Node<'tree>) -> Node<'tree> {
    let mut found = root.descendants().by_kind(Kind::Array);
    found.next().unwrap_or(root)
}

/// Where the longest node is put.
#[derive(Clone, Copy)]
enum Place {
    /// It is a child of the array, behind the children at these indexes.
    Behind(&'static [usize]),
    /// It is put into a child of the array that is then taken away.
    Nowhere,
}

impl Place {
    fn put(self, editor: &mut Editor, root: Node<'_>) -> Result<(), EditError> {
        let longest = longest(editor.allocator())?;
        let array = first_array(root);
        match self {
            Place::Behind(indexes) => {
                let mut pieces = old_pieces(editor.allocator(), indexes)?;
                pieces.push(Piece::New(longest))?;
                editor.replace_children(array, pieces)
            }
            Place::Nowhere => {
                let none = Vec::new(editor.allocator());
                editor.replace_children(array, none)?;
                let mut literals = root.descendants().by_kind(Kind::Literal);
                let literal = literals.next().unwrap_or(array);
                editor.insert(Position::first_child_of(literal), longest)
            }
        }
    }
}

/// How long the text is with the longest node in a place.
fn len_with(alloc: Global, root: Node<'_>, place: Place) -> Result<u32, EditError> {
    let mut editor: Editor = SyntaxEditor::new(alloc, root)?;
    place.put(&mut editor, root)?;
    Ok(u32::from(editor.finish()?.green.text_len()))
}

#[test]
fn other_children_keep_the_limit(rt: HostRuntime) -> Result<(), Fail> {
    let alloc = rt.alloc();
    let root = root_of(alloc, "[1]")?;
    let refused = Err(EditError::Failed(Fault::TextTooLong));
    assert!(rt; len_with(alloc, root.as_ref(), Place::Behind(&[])) == Ok(4_294_967_295));
    assert!(rt; len_with(alloc, root.as_ref(), Place::Behind(&[0])) == refused);
    assert!(rt; len_with(alloc, root.as_ref(), Place::Nowhere) == refused);
    Ok(())
}
