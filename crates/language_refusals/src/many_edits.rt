//! Cases of many edits of one tree in one pass, and of a cursor that costs no table.

use rowan::cursor::{SyntaxElement, SyntaxNode};
use rowan::{Fault, GreenElement, GreenNode, GreenToken, SyntaxKind, TextRange, TextSize};
use rowan_edit::{
    Edited, Editor, GreenEditor, Refusal, Rewrite, Rewritten, TreeCursor, rewrite_tokens,
};
use rowan_tool::sexp::parse;
use rowan_transcript::{Phase, Shape, Stop, Transcript, ask};
use std::alloc::Global;
use std::ops::Range;

const SUM: &str = "(+ (* 15 2) 62)";

/// What is edited, and the token that is put there.
#[derive(Drop)]
struct Subject {
    alloc: Global,
    tree: GreenNode,
    root: SyntaxNode,
    token: GreenToken,
}

pub fn run_edits(log: &Transcript<'_>) -> Result<(), Stop> {
    log.case("many edits of the sum")?;
    log.phase(Phase::Making)?;
    let subject = ask(log, "a tree, with drops", || make_subject(log.alloc()))?;
    let _by_paths = tell_by_paths(log, &subject)?;
    let edited = ask(log, "Editor, with drops", || by_cursors(&subject))?;
    tell(log, &edited)?;
    let _others = tell_others(log, &subject)?;
    log.phase(Phase::Moving)?;
    tell_moved(log, &edited)?;
    log.phase(Phase::Dropping)
}

fn tell_by_paths(log: &Transcript<'_>, subject: &Subject) -> Result<Edited, Stop> {
    let edited = ask(log, "GreenEditor, with drops", || by_paths(subject))?;
    tell(log, &edited)?;
    tell_places(log, subject, &edited)?;
    Ok(edited)
}

fn tell_others(log: &Transcript<'_>, subject: &Subject) -> Result<(Rewritten, GreenNode), Stop> {
    let rewritten = ask(log, "rewrite_tokens, with drops", || rewritten(subject))?;
    log.tell("tree", &Shape(&rewritten.green))?;
    let replaced = ask(log, "TreeCursor, with drops", || replaced(subject))?;
    log.tell("tree", &Shape(&replaced))?;
    Ok((rewritten, replaced))
}

fn tell_moved(log: &Transcript<'_>, edited: &Edited) -> Result<(), Stop> {
    let list = TextRange::new(TextSize::from(3), TextSize::from(11));
    log.tell("moved", &edited.changes.moved(list))?;
    let atom = TextRange::new(TextSize::from(12), TextSize::from(14));
    log.tell("moved", &edited.changes.moved(atom))
}

fn tell(log: &Transcript<'_>, edited: &Edited) -> Result<(), Stop> {
    log.tell("tree", &Shape(&edited.green))?;
    log.tell("changes", &edited.changes.as_slice())
}

/// Says where the last child of the list is, where the elements of the second edit are, and what
/// the edits are in the text.
fn tell_places(log: &Transcript<'_>, subject: &Subject, edited: &Edited) -> Result<(), Stop> {
    let alloc = subject.alloc;
    let path = ask(log, "moved_path", || edited.moved_path(alloc, &[0, 5]))?;
    log.tell("path", &path)?;
    let edits = ask(log, "text_edits, with drops", || edited.text_edits(alloc))?;
    log.tell("edits", &edits)?;
    log.tell("placed", &edited.placed(1))
}

fn make_subject(alloc: Global) -> Result<Subject, Fault> {
    let tree = parse(alloc, SUM)?.green().clone()?;
    let root = SyntaxNode::new_root(alloc, tree.clone()?)?;
    Ok(Subject {
        alloc,
        tree,
        root,
        token: GreenToken::new(alloc, SyntaxKind(4), "new")?,
    })
}

/// A token is put before the first child, two in place of the inner list, one behind the last child.
fn by_paths(subject: &Subject) -> Result<Edited, Fault> {
    let mut editor = GreenEditor::new(subject.alloc, &subject.tree)?;
    put(&mut editor, subject, 3..4)?;
    put(&mut editor, subject, 0..0)?;
    put(&mut editor, subject, 6..6)?;
    editor.finish()
}

fn put(editor: &mut GreenEditor, subject: &Subject, children: Range<usize>) -> Result<(), Fault> {
    let new = vec![in subject.alloc; leaf(&subject.token)?, leaf(&subject.token)?]?;
    taken(editor.splice(&[0], children, new))
}

fn leaf(token: &GreenToken) -> Result<GreenElement, Fault> {
    Ok(GreenElement::from(token.clone()?))
}

fn taken(answer: Result<(), Refusal>) -> Result<(), Fault> {
    match answer {
        Ok(()) => Ok(()),
        Err(Refusal::Memory) => Err(Fault::Memory),
        Err(_) => Err(Fault::NotFound),
    }
}

/// A token is put before the first token of the tree, and one in place of the last.
fn by_cursors(subject: &Subject) -> Result<Edited, Fault> {
    let mut editor = Editor::new(subject.alloc, &subject.root)?;
    replace_last(subject, &mut editor)?;
    insert_before_first(subject, &mut editor)?;
    editor.finish()
}

fn replace_last(subject: &Subject, editor: &mut Editor) -> Result<(), Fault> {
    let last = subject.root.last_token()?.ok_or(Fault::NotFound)?;
    let new = vec![in subject.alloc; leaf(&subject.token)?]?;
    taken(editor.replace(&SyntaxElement::from(last), new))
}

fn insert_before_first(subject: &Subject, editor: &mut Editor) -> Result<(), Fault> {
    let first = subject.root.first_token()?.ok_or(Fault::NotFound)?;
    let new = vec![in subject.alloc; leaf(&subject.token)?]?;
    taken(editor.insert_before(&SyntaxElement::from(first), new))
}

/// Another token comes in place of each that is one byte long, and before each other one.
fn rewritten(subject: &Subject) -> Result<Rewritten, Fault> {
    rewrite_tokens(
        subject.alloc,
        &subject.tree,
        &mut |at| {
            let new = vec![in subject.alloc; leaf(&subject.token)?]?;
            if at.text().len() == 1 {
                return Ok(Rewrite::Replace(new));
            }
            Ok(Rewrite::KeepBehind(new))
        },
    )
}

/// Another token comes in place of the one in the middle.
fn replaced(subject: &Subject) -> Result<GreenNode, Fault> {
    let mut cursor = TreeCursor::new(subject.alloc, &subject.tree);
    cursor.goto_offset(TextSize::from(7))?;
    cursor.replace(GreenElement::from(subject.token.clone()?))
}
