//! Replacements: one of them, made often, and many, one after the other.
use crate::{turns, walks};
use anyhow::Result;
use rowan::cursor::{SyntaxElement, SyntaxNode, SyntaxToken};
use rowan::script::{Report, Step, trace};
use rowan::{Fault, GreenElement, GreenNode, GreenToken, NodeOrToken, SyntaxKind, TextSize};
use rowan_edit::{Editor, Refusal};
use std::alloc::Global;
use std::time::Duration;

/// How often the token in the middle is replaced in one turn.
const TIMES: usize = 10_000;

/// How many tokens are replaced in one turn, one after the other.
const EDITS: usize = 1_000;

/// The text of a new token is the beginning of this one, as long as the old token's, which is no longer here.
const MARKS: &str = "############";

/// What is timed, in each of many turns.
#[derive(Clone, Copy)]
pub enum Operation {
    /// The token in the middle is replaced, each time in the tree that was parsed.
    Replace,
    /// A cursor at the root is made of the tree with that replacement.
    Root,
    /// Tokens are replaced by one trace.
    Trace,
    /// Tokens are replaced, with a cursor at each new root.
    Cursors,
    /// Tokens are replaced in the green trees, with a cursor at the last root.
    Green,
    /// Tokens are replaced together, by an editor.
    Editor,
    /// The same, with a cursor at the new root.
    EditorRoot,
}

impl Operation {
    /// The operation of that name.
    pub fn from_word(word: &str) -> Option<Operation> {
        match word {
            "replace" => Some(Operation::Replace),
            "root" => Some(Operation::Root),
            "trace" => Some(Operation::Trace),
            "cursors" => Some(Operation::Cursors),
            "green" => Some(Operation::Green),
            "editor" => Some(Operation::Editor),
            "editor_root" => Some(Operation::EditorRoot),
            _ => None,
        }
    }
}

/// A token that takes the place of another one, and where that one is.
#[derive(Drop)]
struct Edit {
    offset: TextSize,
    path: Vec<usize>,
    token: GreenToken,
}

impl Edit {
    /// The edit of a token of a text. Other tokens stay where they are, since the new one has as many bytes.
    fn new(alloc: Global, offset: TextSize, old: &SyntaxToken) -> Result<Edit, Fault> {
        let path = path_of(alloc, old)?;
        let token = marks(alloc, old.kind(), old.text().len())?;
        Ok(Edit {
            offset,
            path,
            token,
        })
    }
}

/// The places that lead from the root to a token.
fn path_of(alloc: Global, token: &SyntaxToken) -> Result<Vec<usize>, Fault> {
    let mut path = Vec::new(alloc);
    path.push(token.index())?;
    for node in token.ancestors() {
        path.push(node?.index())?;
    }
    // The root has no place among others.
    let _ = path.pop();
    path.reverse();
    Ok(path)
}

fn marks(alloc: Global, kind: SyntaxKind, len: usize) -> Result<GreenToken, Fault> {
    let (text, _) = MARKS.split_at(MARKS.ceil_char_boundary(len));
    GreenToken::new(alloc, kind, text)
}

/// The token at an offset, of two the right one.
fn token_at(root: &SyntaxNode, offset: TextSize) -> Result<Option<SyntaxToken>, Fault> {
    if !root.text_range().contains_inclusive(offset) {
        return Ok(None);
    }
    Ok(root.token_at_offset(offset)?.right_biased())
}

/// The edits of a turn, at places that are drawn.
fn drawn_edits(alloc: Global, root: &SyntaxNode) -> Result<Vec<Edit>, Fault> {
    let len = u32::from(root.text_range().len());
    let offsets = walks::drawn_offsets(alloc, len)?;
    let mut edits = Vec::with_capacity(alloc, EDITS)?;
    for offset in offsets.iter().take(EDITS) {
        if let Some(token) = token_at(root, *offset)? {
            edits.push(Edit::new(alloc, *offset, &token)?)?;
        }
    }
    Ok(edits)
}

/// The token in the middle of a text, and its edit.
fn middle_edit(alloc: Global, root: &SyntaxNode) -> Result<Option<(SyntaxToken, Edit)>, Fault> {
    let offset = TextSize::from(u32::from(root.text_range().len()) / 2);
    let Some(token) = token_at(root, offset)? else {
        return Ok(None);
    };
    let edit = Edit::new(alloc, offset, &token)?;
    Ok(Some((token, edit)))
}

/// The steps of a trace that makes edits: to the old token, and to the root of the new tree.
fn steps_of(alloc: Global, edits: &[Edit]) -> Result<Vec<Step>, Fault> {
    let mut steps = Vec::new(alloc);
    for edit in edits {
        steps.push(Step::RightTokenAt(edit.offset))?;
        steps.push(Step::ReplaceToken(edit.token.clone()?))?;
    }
    Ok(steps)
}

/// Makes the edit so often, and answers the last tree.
fn replace_often(old: &SyntaxToken, new: &GreenToken, times: usize) -> Result<GreenNode, Fault> {
    let mut tree = old.replace_with(new.clone()?)?;
    for _ in 1..times {
        tree = old.replace_with(new.clone()?)?;
    }
    Ok(tree)
}

/// Makes the steps, and answers the last tree. The reports keep all trees until then.
fn replace_by_trace(alloc: Global, root: &SyntaxNode, steps: &[Step]) -> Result<GreenNode, Fault> {
    let reports = trace(alloc, root, steps)?;
    match reports.last() {
        Some(Report::Replaced(root)) => Ok(root.green().clone()?),
        _ => Ok(root.green().clone()?),
    }
}

/// Makes the edits, with a cursor at each new root, and answers the last tree.
fn replace_by_cursors(
    alloc: Global,
    root: &SyntaxNode,
    edits: &[Edit],
) -> Result<GreenNode, Fault> {
    let mut root = root.clone()?;
    for edit in edits {
        if let Some(old) = token_at(&root, edit.offset)? {
            let tree = old.replace_with(edit.token.clone()?)?;
            root = SyntaxNode::new_root(alloc, tree)?;
        }
    }
    Ok(root.green().clone()?)
}

/// Makes the edits in the green trees, and answers the last one, after a cursor was made at its root.
fn replace_by_green(alloc: Global, tree: &GreenNode, edits: &[Edit]) -> Result<GreenNode, Fault> {
    let mut tree = tree.clone()?;
    for edit in edits {
        tree = put(&tree, edit.path.as_slice(), &edit.token)?;
    }
    let root = SyntaxNode::new_root(alloc, tree)?;
    Ok(root.green().clone()?)
}

/// Finds the tokens, collects the edits and makes them together. Where two are of one token, the first is made.
fn replace_by_editor(alloc: Global, root: &SyntaxNode, edits: &[Edit]) -> Result<GreenNode, Fault> {
    let mut editor = Editor::new(alloc, root)?;
    for edit in edits {
        if let Some(old) = token_at(root, edit.offset)? {
            let new = vec![in alloc; GreenElement::from(edit.token.clone()?)]?;
            match editor.replace(&SyntaxElement::from(old), new) {
                Err(Refusal::Memory) => return Err(Fault::Memory),
                _ => (),
            }
        }
    }
    Ok(editor.finish()?.green)
}

/// The tree with a token in place of what the places lead to. Each node on the way is made anew.
fn put(tree: &GreenNode, path: &[usize], token: &GreenToken) -> Result<GreenNode, Fault> {
    let Some((place, below)) = path.split_first() else {
        return Ok(tree.clone()?);
    };
    let child = match tree.child_ref(*place) {
        Some((_, NodeOrToken::Node(node))) => GreenElement::from(put(node, below, token)?),
        _ => GreenElement::from(token.clone()?),
    };
    tree.replace_child(*place, child)
}

/// What a turn of an operation needs, which is made before the time is taken.
#[derive(Drop)]
enum Turn {
    Nothing,
    Replace(SyntaxToken, Edit),
    Root(GreenNode),
    Trace(SyntaxNode, Vec<Step>),
    Cursors(SyntaxNode, Vec<Edit>),
    Green(GreenNode, Vec<Edit>),
    Editor(SyntaxNode, Vec<Edit>),
    EditorRoot(SyntaxNode, Vec<Edit>),
}

impl Turn {
    fn new(alloc: Global, tree: &GreenNode, operation: Operation) -> Result<Turn, Fault> {
        let root = SyntaxNode::new_root(alloc, tree.clone()?)?;
        match operation {
            Operation::Replace | Operation::Root => Turn::in_the_middle(alloc, &root, operation),
            _ => Turn::in_all_places(alloc, root, operation),
        }
    }

    fn in_the_middle(
        alloc: Global,
        root: &SyntaxNode,
        operation: Operation,
    ) -> Result<Turn, Fault> {
        let Some((old, edit)) = middle_edit(alloc, root)? else {
            return Ok(Turn::Nothing);
        };
        match operation {
            Operation::Root => Ok(Turn::Root(replace_often(&old, &edit.token, 1)?)),
            _ => Ok(Turn::Replace(old, edit)),
        }
    }

    fn in_all_places(alloc: Global, root: SyntaxNode, operation: Operation) -> Result<Turn, Fault> {
        let edits = drawn_edits(alloc, &root)?;
        match operation {
            Operation::Trace => Ok(Turn::Trace(root, steps_of(alloc, edits.as_slice())?)),
            Operation::Cursors => Ok(Turn::Cursors(root, edits)),
            Operation::Editor => Ok(Turn::Editor(root, edits)),
            Operation::EditorRoot => Ok(Turn::EditorRoot(root, edits)),
            _ => Ok(Turn::Green(root.green().clone()?, edits)),
        }
    }
}

impl turns::Turn for Turn {
    fn take(&self, alloc: Global) -> Result<Option<GreenNode>, Fault> {
        match self {
            Turn::Nothing => Ok(None),
            Turn::Replace(old, edit) => Ok(Some(replace_often(old, &edit.token, TIMES)?)),
            Turn::Root(tree) => {
                let root = SyntaxNode::new_root(alloc, tree.clone()?)?;
                Ok(Some(root.green().clone()?))
            }
            Turn::Trace(root, steps) => Ok(Some(replace_by_trace(alloc, root, steps.as_slice())?)),
            Turn::Cursors(root, edits) => {
                Ok(Some(replace_by_cursors(alloc, root, edits.as_slice())?))
            }
            Turn::Green(tree, edits) => Ok(Some(replace_by_green(alloc, tree, edits.as_slice())?)),
            Turn::Editor(root, edits) => {
                Ok(Some(replace_by_editor(alloc, root, edits.as_slice())?))
            }
            Turn::EditorRoot(root, edits) => {
                let tree = replace_by_editor(alloc, root, edits.as_slice())?;
                Ok(Some(SyntaxNode::new_root(alloc, tree)?.green().clone()?))
            }
        }
    }
}

/// Times an operation over a tree, and answers the time of all turns and how many marks the last tree has.
pub fn time(
    rt: &HostRuntime,
    tree: &GreenNode,
    operation: Operation,
    turns: usize,
) -> Result<(Duration, usize)> {
    let turn = Turn::new(rt.alloc(), tree, operation)?;
    turns::time(rt, &turn, turns)
}
