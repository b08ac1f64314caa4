//! Edits by cursors of a language, and where elements and texts are afterwards.
use crate::trees::{self, TEXT, Tree};
use rowan::{Fault, SyntaxElementRef, SyntaxNodeRef};
use rowan_edit::{EditError, GreenEditor, Make, Piece, Position, SyntaxEditor};
use rowan_tool::sexp::{Lang, SyntaxKind, parse};

pub fn make(call: &str, tree: &Tree) -> Result<Option<u64>, Fault> {
    let number = match call {
        "typed_edits" => typed_edits(tree),
        "replace_children" => arrange(tree),
        "moved_path" => moved_paths(tree),
        "from_text" => from_text(tree),
        _ => return Ok(None),
    };
    match number {
        Ok(number) => Ok(Some(number)),
        Err(EditError::Failed(fault)) => Err(fault),
        Err(_refused) => Err(Fault::NotFound),
    }
}

/// An edit of each child of the root, and the tree of all of them.
fn typed_edits(tree: &Tree) -> Result<u64, EditError> {
    let root = tree.root.as_ref();
    let mut editor = SyntaxEditor::new(tree.alloc, root)?;
    for (number, element) in root.children_with_tokens().enumerate() {
        edit(&mut editor, element, number)?;
        put_behind(&mut editor, element, number)?;
    }
    let edited = editor.finish()?;
    Ok(edited.changes.as_slice().len() as u64)
}

/// A token gets another text or another kind, and a node gives way to an empty one.
fn edit(
    editor: &mut SyntaxEditor<Lang>,
    element: SyntaxElementRef<'_, Lang>,
    number: usize,
) -> Result<(), EditError> {
    let Some(token) = element.into_token() else {
        let new = editor.node(SyntaxKind::ATOM, Vec::new(editor.allocator()))?;
        return editor.replace(element, new);
    };
    if number % 2 == 0 {
        return editor.set_text(token, "other");
    }
    editor.set_kind(token, SyntaxKind::WHITESPACE)
}

/// A word behind each fourth element.
fn put_behind(
    editor: &mut SyntaxEditor<Lang>,
    element: SyntaxElementRef<'_, Lang>,
    number: usize,
) -> Result<(), EditError> {
    if number % 4 != 0 {
        return Ok(());
    }
    let new = editor.token(SyntaxKind::WORD, TEXT)?;
    editor.insert(Position::after(element), new)
}

/// The children of the root in the reverse order, and in it those of each of them.
fn arrange(tree: &Tree) -> Result<u64, EditError> {
    let root = tree.root.as_ref();
    let mut editor = SyntaxEditor::new(tree.alloc, root)?;
    reverse(&mut editor, root)?;
    for node in root.children() {
        reverse(&mut editor, node)?;
    }
    let edited = editor.finish()?;
    Ok(edited.changes.as_slice().len() as u64)
}

fn reverse(
    editor: &mut SyntaxEditor<Lang>,
    node: SyntaxNodeRef<'_, Lang>,
) -> Result<(), EditError> {
    let count = node.green().children().len();
    let mut pieces = Vec::new(editor.allocator());
    for index in (0..count).rev() {
        pieces.push(Piece::Old(index))?;
    }
    editor.replace_children(node, pieces)
}

/// Another token in place of each second child of the root; then the path of each child in the new
/// tree, and the edits as those of a text.
fn moved_paths(tree: &Tree) -> Result<u64, EditError> {
    let count = tree.green.children().len();
    let mut editor = GreenEditor::new(tree.alloc, &tree.green)?;
    for index in (0..count).step_by(2) {
        let new = vec![in tree.alloc; trees::token(tree.alloc, TEXT)?]?;
        editor.splice(&[], index..index.saturating_add(1), new)?;
    }
    let edited = editor.finish()?;
    let mut moved: u64 = 0;
    for index in 0..count {
        if edited.moved_path(tree.alloc, &[index])?.is_some() {
            moved = moved.wrapping_add(1);
        }
    }
    let texts = edited.text_edits(tree.alloc)?;
    Ok(moved.wrapping_add(texts.len() as u64))
}

/// The first list of a text.
fn from_text(tree: &Tree) -> Result<u64, EditError> {
    let alloc = tree.alloc;
    let mut text = String::new(alloc);
    for _ in 0..tree.size {
        text.push_str("word ")?;
    }
    text.push_str("(word)")?;
    let make: Make<Lang> = Make::new(alloc);
    let parse = |text: &str| Ok((parse(alloc, text)?.green().clone()?, 0));
    let list = make.from_text(text.as_str(), parse, |kind| kind == SyntaxKind::LIST)?;
    Ok(u64::from(u32::from(list.text_len())))
}
