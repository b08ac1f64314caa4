//! Edits of JSON texts by typed cursors.
use crate::arranging::{At, Edit, Place, Row, made, makes};
use crate::fixture::has_text;
use crate::json::{Editor, root_of};
use json_syntax::{Json, Kind};
use rowan::{Fault, GreenNode, SyntaxNode, SyntaxTokenRef};
use rowan_edit::{EditError, Refusal, SyntaxEditor};
use std::alloc::Global;
use std::test::Fail;

const LITERAL: At = At(Kind::Literal, 0);

const ARRAY: At = At(Kind::Array, 0);

/// Where a zero is put in the text `[1,2]`, and the new text.
const ZEROS: [(Edit, &str); 4] = [
    (Edit::InsertZero(Place::Before, LITERAL), "[01,2]"),
    (Edit::InsertZero(Place::After, LITERAL), "[10,2]"),
    (Edit::InsertZero(Place::FirstChild, ARRAY), "0[1,2]"),
    (Edit::InsertZero(Place::LastChild, ARRAY), "[1,2]0"),
];

#[test]
fn puts_elements_beside_others_and_into_nodes(rt: HostRuntime) {
    for (edit, new) in ZEROS {
        assert!(rt; makes(rt.alloc(), "[1,2]", &[(edit, Ok(()))], new));
    }
}

/// The first literal in place of the object too, and deleted where it was; the last comma deleted.
const REPLACED: [Row; 3] = [
    (Edit::ReplaceByOther(At(Kind::Object, 0), LITERAL), Ok(())),
    (Edit::Delete(LITERAL), Ok(())),
    (Edit::Cut(ARRAY, 4, 5), Ok(())),
];

#[test]
fn replaces_and_deletes(rt: HostRuntime) {
    assert!(rt; makes(rt.alloc(), "[1,{},true]", &REPLACED, "[,1true]"));
}

/// The tree with another text for a token, or with another kind.
fn set(
    alloc: Global,
    token: SyntaxTokenRef<'_, Json>,
    text: Option<&str>,
) -> Result<GreenNode, EditError> {
    let mut editor: Editor = SyntaxEditor::new(alloc, token.tree_top())?;
    let answer = match text {
        Some(text) => editor.set_text(token, text),
        None => editor.set_kind(token, Kind::Word),
    };
    answer?;
    Ok(editor.finish()?.green)
}

/// Whether a tree has this text with another text for a token.
fn has_set_text(alloc: Global, token: SyntaxTokenRef<'_, Json>, text: &str, new: &str) -> bool {
    match set(alloc, token, Some(text)) {
        Ok(green) => has_text(alloc, &green, new),
        Err(_) => false,
    }
}

/// Whether the first literal of a tree has a word with another kind for a token.
fn has_set_kind(alloc: Global, token: SyntaxTokenRef<'_, Json>) -> Result<bool, EditError> {
    let root: SyntaxNode<Json> = SyntaxNode::new_root(alloc, set(alloc, token, None)?)?;
    let literal = LITERAL.node(&root);
    Ok(literal.first_token_of_kind(Kind::Word).is_some())
}

#[test]
fn sets_texts_and_kinds(rt: HostRuntime) -> Result<(), Fail> {
    let alloc = rt.alloc();
    let root = root_of(alloc, "[1]")?;
    let Some(token) = LITERAL.node(&root).first_token() else {
        return Err(Fault::NotFound.into());
    };
    assert!(rt; has_set_text(alloc, token, "17", "[17]"));
    assert!(rt; has_set_kind(alloc, token) == Ok(true));
    Ok(())
}

const DELETED: [Row; 3] = [
    (Edit::DeleteRoot, Err(EditError::Refused(Refusal::Root))),
    (Edit::Delete(LITERAL), Ok(())),
    (
        Edit::Delete(LITERAL),
        Err(EditError::Refused(Refusal::Conflict)),
    ),
];

#[test]
fn refuses_the_root_and_two_edits(rt: HostRuntime) {
    assert!(rt; makes(rt.alloc(), "[1]", &DELETED, "[]"));
}

const IN_OTHER: [Row; 1] = [(
    Edit::Delete(LITERAL),
    Err(EditError::Refused(Refusal::OtherTree)),
)];

const ELSEWHERE: [Row; 1] = [(
    Edit::Cut(ARRAY, 4, 4),
    Err(EditError::Refused(Refusal::NotFound)),
)];

#[test]
fn refuses_other_trees_and_places(rt: HostRuntime) -> Result<(), Fail> {
    let alloc = rt.alloc();
    let edited = made(alloc, "[1]", &IN_OTHER, &ELSEWHERE)?;
    assert!(rt; has_text(alloc, &edited.green, "[1]"));
    Ok(())
}
