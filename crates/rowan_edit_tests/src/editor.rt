//! Edits of a small tree by cursors.
use crate::fixture::{Call, ROOT, built, has_text, tree, words};
use rowan::cursor::{ElementCalls, SyntaxElement, SyntaxNode};
use rowan::{Fault, GreenNode, NodeOrToken};
use rowan_edit::{Editor, Refusal};
use std::alloc::Global;
use std::test::Fail;

/// The root of a tree, its first element, and its first node; the root again where it has none.
#[derive(Drop)]
struct Cursors {
    root: SyntaxNode,
    first: SyntaxElement,
    list: SyntaxNode,
}

fn cursors_in(alloc: Global, green: GreenNode) -> Result<Cursors, Fault> {
    let root = SyntaxNode::new_root(alloc, green)?;
    let Some(first) = root.first_child_or_token()? else {
        return Err(Fault::NotFound);
    };
    let list = match root.first_child()? {
        Some(list) => list,
        None => root.clone()?,
    };
    Ok(Cursors { root, first, list })
}

/// What an edit does at the first element, at the list, or at the root.
#[derive(Clone, Copy)]
enum Way {
    After,
    Before,
    Append,
    Prepend,
    Replace,
    Delete,
    AppendToRoot,
    /// In place of all children of the root.
    SpliceRoot,
    DeleteRoot,
}

/// Makes an edit with these words.
fn edit(
    way: Way,
    alloc: Global,
    editor: &mut Editor,
    at: &Cursors,
    texts: &[&str],
) -> Result<(), Refusal> {
    let Ok(new) = words(alloc, texts) else {
        return Err(Refusal::Memory);
    };
    match way {
        Way::After => editor.insert_after(&at.first, new),
        Way::Before => editor.insert_before(&at.first, new),
        Way::Append => editor.append(&at.list, new),
        Way::Prepend => editor.prepend(&at.list, new),
        Way::Replace => editor.replace(&at.first, new),
        Way::Delete => editor.delete(&at.first),
        Way::AppendToRoot => editor.append(&at.root, new),
        Way::SpliceRoot => editor.splice(&at.root, 0..3, new),
        Way::DeleteRoot => match at.root.clone() {
            Ok(root) => editor.delete(&NodeOrToken::Node(root)),
            Err(_) => Err(Refusal::Memory),
        },
    }
}

/// Whether the cursors of an edit are those of the tree that is edited, or of another one.
#[derive(Clone, Copy)]
enum Whose {
    Own,
    Other,
}

/// An edit, and what the editor answers.
type Row = (Whose, Way, &'static [&'static str], Result<(), Refusal>);

/// Whether an editor at a node answers so to edits, and makes a tree with this text of them.
fn holds(
    alloc: Global,
    node: &SyntaxNode,
    own: &Cursors,
    other: &Cursors,
    rows: &[Row],
    new: &str,
) -> Result<bool, Fault> {
    let mut editor = Editor::new(alloc, node)?;
    for (whose, way, texts, answer) in rows {
        let at = match whose {
            Whose::Own => own,
            Whose::Other => other,
        };
        if edit(*way, alloc, &mut editor, at, texts) != *answer {
            return Ok(false);
        }
    }
    match editor.finish() {
        Ok(edited) => Ok(has_text(alloc, &edited.green, new)),
        Err(_) => Ok(false),
    }
}

const EDITS: [Row; 7] = [
    (Whose::Own, Way::After, &["1"], Ok(())),
    (Whose::Own, Way::Before, &["2"], Ok(())),
    (Whose::Own, Way::Append, &["3"], Ok(())),
    (Whose::Own, Way::Prepend, &["4"], Ok(())),
    (Whose::Own, Way::Replace, &["5"], Ok(())),
    (Whose::Own, Way::Delete, &[], Err(Refusal::Conflict)),
    (Whose::Own, Way::DeleteRoot, &[], Err(Refusal::Root)),
];

#[test]
fn edits_by_cursors(rt: HostRuntime) -> Result<(), Fail> {
    let alloc = rt.alloc();
    let at = cursors_in(alloc, tree(alloc)?)?;
    assert!(rt; holds(alloc, &at.root, &at, &at, &EDITS, "2514bcd3e") == Ok(true));
    Ok(())
}

const AT_A_NODE: [Row; 2] = [
    (
        Whose::Other,
        Way::AppendToRoot,
        &[],
        Err(Refusal::OtherTree),
    ),
    (Whose::Own, Way::Delete, &[], Ok(())),
];

/// An editor at a node edits the tree of its root, and a cursor at a root of another tree is none
/// in it.
#[test]
fn an_editor_at_a_node(rt: HostRuntime) -> Result<(), Fail> {
    let alloc = rt.alloc();
    let at = cursors_in(alloc, tree(alloc)?)?;
    let other = cursors_in(alloc, at.list.green().clone()?)?;
    assert!(rt; holds(alloc, &at.list, &at, &other, &AT_A_NODE, "bcde") == Ok(true));
    Ok(())
}

/// `ROOT["cd" "ef"]`
const PAIR: [Call; 4] = [
    Call::Open(ROOT),
    Call::Word("cd"),
    Call::Word("ef"),
    Call::Close,
];

/// `ROOT["ef" "cd"]`
const TURNED: [Call; 4] = [
    Call::Open(ROOT),
    Call::Word("ef"),
    Call::Word("cd"),
    Call::Close,
];

const BY_OTHERS: [Row; 4] = [
    (Whose::Other, Way::Delete, &[], Err(Refusal::OtherTree)),
    (Whose::Other, Way::After, &["1"], Err(Refusal::OtherTree)),
    (Whose::Other, Way::SpliceRoot, &[], Err(Refusal::OtherTree)),
    (Whose::Other, Way::DeleteRoot, &[], Err(Refusal::OtherTree)),
];

/// The trees have the same kinds and lengths in the same places.
#[test]
fn cursors_of_another_tree(rt: HostRuntime) -> Result<(), Fail> {
    let alloc = rt.alloc();
    let old = cursors_in(alloc, built(alloc, &PAIR)?)?;
    let new = cursors_in(alloc, built(alloc, &TURNED)?)?;
    assert!(rt; holds(alloc, &new.root, &new, &old, &BY_OTHERS, "efcd") == Ok(true));
    Ok(())
}

const BY_EQUALS: [Row; 2] = [
    (Whose::Other, Way::Delete, &[], Ok(())),
    (Whose::Other, Way::AppendToRoot, &["1"], Ok(())),
];

/// The trees share no node.
#[test]
fn cursors_of_an_equal_tree(rt: HostRuntime) -> Result<(), Fail> {
    let alloc = rt.alloc();
    let tree = cursors_in(alloc, built(alloc, &PAIR)?)?;
    let equal = cursors_in(alloc, built(alloc, &PAIR)?)?;
    assert!(rt; holds(alloc, &tree.root, &tree, &equal, &BY_EQUALS, "ef1") == Ok(true));
    Ok(())
}
