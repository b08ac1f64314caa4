//! Edits of JSON texts by typed cursors, and other orders of children beside them.
use crate::fixture::{has_text, old_pieces};
use crate::json::{Answer, Editor, Node, root_of};
use json_syntax::{Json, Kind};
use rowan::{NodeOrToken, SyntaxNode};
use rowan_edit::{EditError, Edited, Piece, Position, Refusal, SyntaxEditor};
use std::alloc::Global;
use std::test::Fail;

/// The node of a kind at an index among all of that kind, or else the root.
#[derive(Clone, Copy)]
pub struct At(pub Kind, pub usize);

impl At {
    pub fn node<'tree>(self, root: &'tree SyntaxNode<Json>) -> Node<'tree> {
        let mut found = root.as_ref().descendants().by_kind(self.0);
        found.nth(self.1).unwrap_or(root.as_ref())
    }
}

/// A position at a node.
#[derive(Clone, Copy)]
pub enum Place {
    Before,
    After,
    FirstChild,
    LastChild,
}

impl Place {
    fn of(self, node: Node<'_>) -> Position<'_, Json> {
        match self {
            Place::Before => Position::before(node),
            Place::After => Position::after(NodeOrToken::Node(node)),
            Place::FirstChild => Position::first_child_of(node),
            Place::LastChild => Position::last_child_of(node),
        }
    }
}

#[derive(Clone, Copy)]
pub enum Edit {
    /// Gives a node the children at these indexes.
    Arrange(At, &'static [usize]),
    /// Gives a node its children 3 and 1, a new semicolon and the child 1 once more.
    Mix(At),
    Delete(At),
    DeleteRoot,
    /// Takes children away, from one index to another.
    Cut(At, usize, usize),
    /// Puts nothing in place of a node.
    ReplaceByNothing(At),
    /// Puts another node in place of the first one, too.
    ReplaceByOther(At, At),
    InsertNothing(Place, At),
    InsertZero(Place, At),
}

impl Edit {
    /// Makes the edit in the tree with this root.
    fn make(self, editor: &mut Editor, root: &SyntaxNode<Json>) -> Answer {
        match self {
            Edit::Arrange(at, indexes) => {
                let pieces = old_pieces(editor.allocator(), indexes)?;
                editor.replace_children(at.node(root), pieces)
            }
            Edit::Mix(at) => mix(editor, at.node(root)),
            Edit::Delete(at) => editor.delete(at.node(root)),
            Edit::DeleteRoot => editor.delete(root),
            Edit::Cut(at, start, end) => editor.splice(at.node(root), start..end, ()),
            Edit::ReplaceByNothing(at) => editor.replace(at.node(root), ()),
            Edit::ReplaceByOther(at, other) => editor.replace(at.node(root), other.node(root)),
            Edit::InsertNothing(place, at) => editor.insert(place.of(at.node(root)), ()),
            Edit::InsertZero(place, at) => {
                let zero = editor.token(Kind::Number, "0")?;
                editor.insert(place.of(at.node(root)), zero)
            }
        }
    }
}

/// Another order with a new child, one child twice, and two that are taken away.
fn mix(editor: &mut Editor, node: Node<'_>) -> Answer {
    let mut pieces = old_pieces(editor.allocator(), &[3, 1])?;
    pieces.push(Piece::New(editor.token(Kind::Comma, ";")?))?;
    pieces.push(Piece::Old(1))?;
    editor.replace_children(node, pieces)
}

/// An edit, and what the editor answers.
pub type Row = (Edit, Answer);

/// Whether an editor answers so to edits in the tree with this root.
fn answers(editor: &mut Editor, root: &SyntaxNode<Json>, rows: &[Row]) -> bool {
    for (edit, answer) in rows {
        if edit.make(editor, root) != *answer {
            return false;
        }
    }
    true
}

/// What edits make of a text, after edits in the tree of another text. Refused where the editor
/// answers otherwise than it should.
pub fn made(
    alloc: Global,
    text: &str,
    in_other: &[Row],
    rows: &[Row],
) -> Result<Edited, EditError> {
    let root = root_of(alloc, text)?;
    let other = root_of(alloc, "[2]")?;
    let mut editor: Editor = SyntaxEditor::new(alloc, root.as_ref())?;
    if answers(&mut editor, &other, in_other) && answers(&mut editor, &root, rows) {
        editor.finish()
    } else {
        Err(EditError::NoSuchNode)
    }
}

/// Whether all answers are as they should be, and edits make this text of another one.
pub fn makes(alloc: Global, text: &str, rows: &[Row], new: &str) -> bool {
    match made(alloc, text, &[], rows) {
        Ok(edited) => has_text(alloc, &edited.green, new),
        Err(_) => false,
    }
}

const CONFLICT: Answer = Err(EditError::Refused(Refusal::Conflict));

const ROOT: At = At(Kind::Root, 0);

const ARRAY: At = At(Kind::Array, 0);

const INNER: At = At(Kind::Array, 1);

const MIX: [Row; 1] = [(Edit::Mix(ARRAY), Ok(()))];

#[test]
fn replaces_children(rt: HostRuntime) {
    assert!(rt; makes(rt.alloc(), "[1,2]", &MIX, "21;1"));
}

/// The arrays in reverse order, the inner ones too, and an edit in the innermost one: that edit and
/// the arrangements in the order of their nodes, and the other way round.
const NESTED: [Row; 4] = [
    (
        Edit::InsertZero(Place::FirstChild, At(Kind::Literal, 2)),
        Ok(()),
    ),
    (Edit::Arrange(ARRAY, &[4, 3, 2, 1, 0]), Ok(())),
    (Edit::Arrange(INNER, &[4, 3, 2, 1, 0]), Ok(())),
    (Edit::Arrange(At(Kind::Array, 2), &[2, 1, 0]), Ok(())),
];

const NESTED_BACK: [Row; 4] = [
    (Edit::Arrange(At(Kind::Array, 2), &[2, 1, 0]), Ok(())),
    (Edit::Arrange(INNER, &[4, 3, 2, 1, 0]), Ok(())),
    (Edit::Arrange(ARRAY, &[4, 3, 2, 1, 0]), Ok(())),
    (
        Edit::InsertZero(Place::FirstChild, At(Kind::Literal, 2)),
        Ok(()),
    ),
];

#[test]
fn replaces_children_in_children(rt: HostRuntime) {
    assert!(rt; makes(rt.alloc(), "[1,[2,[3]]]", &NESTED, "]]]03[,2[,1["));
    assert!(rt; makes(rt.alloc(), "[1,[2,[3]]]", &NESTED_BACK, "]]]03[,2[,1["));
}

const TAKEN: [Row; 2] = [
    (Edit::Delete(At(Kind::Literal, 1)), Ok(())),
    (Edit::Arrange(ROOT, &[]), Ok(())),
];

/// The children of the root are taken away with the edits in them; a change is that of all.
#[test]
fn takes_edits_away(rt: HostRuntime) -> Result<(), Fail> {
    let alloc = rt.alloc();
    let edited = made(alloc, "[1,2]", &[], &TAKEN)?;
    assert!(rt; has_text(alloc, &edited.green, ""));
    assert!(rt; edited.changes.as_slice().len() == 1);
    assert!(rt; edited.moved_path(alloc, &[0])?.is_none());
    Ok(())
}

const IN_OTHER: [Row; 1] = [(
    Edit::Arrange(ARRAY, &[9]),
    Err(EditError::Refused(Refusal::OtherTree)),
)];

const REFUSED: [Row; 7] = [
    (
        Edit::Arrange(ARRAY, &[0, 5]),
        Err(EditError::Refused(Refusal::NotFound)),
    ),
    (Edit::InsertNothing(Place::LastChild, ARRAY), Ok(())),
    (Edit::Arrange(ARRAY, &[0]), CONFLICT),
    (Edit::Delete(INNER), Ok(())),
    (Edit::Arrange(INNER, &[0]), CONFLICT),
    (Edit::Arrange(ROOT, &[0]), Ok(())),
    (Edit::Arrange(ROOT, &[0]), CONFLICT),
];

#[test]
fn refuses_arrangements(rt: HostRuntime) -> Result<(), Fail> {
    let alloc = rt.alloc();
    let edited = made(alloc, "[1,[2]]", &IN_OTHER, &REFUSED)?;
    assert!(rt; has_text(alloc, &edited.green, "[1,]"));
    Ok(())
}

const AROUND_ARRANGED: [Row; 7] = [
    (Edit::Arrange(INNER, &[2, 1, 0]), Ok(())),
    (Edit::InsertNothing(Place::FirstChild, INNER), CONFLICT),
    (Edit::Delete(At(Kind::Literal, 1)), CONFLICT),
    (Edit::Delete(INNER), CONFLICT),
    (Edit::ReplaceByNothing(ARRAY), CONFLICT),
    (Edit::InsertNothing(Place::Before, INNER), Ok(())),
    (Edit::Delete(At(Kind::Literal, 2)), Ok(())),
];

#[test]
fn refuses_edits_of_arranged_nodes(rt: HostRuntime) {
    assert!(rt; makes(rt.alloc(), "[1,[2],3]", &AROUND_ARRANGED, "[1,]2[,]"));
}
