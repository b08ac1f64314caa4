//! Cases of edits by typed cursors, and of new elements for them.

use json_syntax::{Json, Kind};
use rowan::{Fault, GreenElement, GreenNode, SyntaxNode, SyntaxNodeRef};
use rowan_edit::{EditError, Edited, Make, Piece, Position, Refusal, SyntaxEditor};
use rowan_transcript::{Phase, Shape, Stop, Transcript, ask};
use std::alloc::Global;

/// What is edited.
#[derive(Drop)]
struct Subject {
    alloc: Global,
    root: SyntaxNode<Json>,
}

pub fn run_typed_edits(log: &Transcript<'_>) -> Result<(), Stop> {
    log.case("typed edits of a JSON text")?;
    log.phase(Phase::Making)?;
    let subject = ask(log, "a tree, with drops", || make_subject(log.alloc()))?;
    let _edited = tell_edited(log, &subject)?;
    let _arranged = tell_arranged(log, &subject)?;
    let made = ask(log, "Make, with drops", || fault_of(made(&subject)))?;
    log.tell("made", &made.text_len())?;
    log.phase(Phase::Dropping)
}

fn tell_edited(log: &Transcript<'_>, subject: &Subject) -> Result<Edited, Stop> {
    let edited = ask(
        log,
        "SyntaxEditor, with drops",
        || fault_of(edited(subject)),
    )?;
    log.tell("tree", &Shape(&edited.green))?;
    log.tell("changes", &edited.changes.as_slice())?;
    Ok(edited)
}

fn tell_arranged(log: &Transcript<'_>, subject: &Subject) -> Result<Edited, Stop> {
    let arranged = ask(
        log,
        "SyntaxEditor::replace_children, with drops",
        || fault_of(arranged(subject)),
    )?;
    log.tell("arranged", &Shape(&arranged.green))?;
    Ok(arranged)
}

fn make_subject(alloc: Global) -> Result<Subject, Fault> {
    let root = json_syntax::parse(alloc, "[1, {\"a\": 2}]")?.syntax(alloc)?;
    Ok(Subject { alloc, root })
}

fn fault_of<T: Drop>(answer: Result<T, EditError>) -> Result<T, Fault> {
    match answer {
        Ok(value) => Ok(value),
        Err(EditError::Failed(fault)) => Err(fault),
        Err(EditError::Refused(Refusal::Memory)) => Err(Fault::Memory),
        Err(_) => Err(Fault::NotFound),
    }
}

fn first<'a>(subject: &'a Subject, kind: Kind) -> Result<SyntaxNodeRef<'a, Json>, Fault> {
    let mut nodes = subject.root.as_ref().descendants().by_kind(kind);
    nodes.next().ok_or(Fault::NotFound)
}

/// Another text for the name, the number in place of the object too, an element more.
fn edited(subject: &Subject) -> Result<Edited, EditError> {
    let mut editor = SyntaxEditor::new(subject.alloc, subject.root.as_ref())?;
    let number = first(subject, Kind::Literal)?;
    let name = first(subject, Kind::Member)?.first_token();
    editor.set_text(name.ok_or(Fault::NotFound)?, "\"b\"")?;
    editor.insert(Position::after(number), number)?;
    let comma = editor.token(Kind::Comma, ",")?;
    editor.insert(Position::before(number), comma)?;
    editor.delete(number)?;
    editor.finish()
}

/// The two elements change places, with edits inside of the second one.
fn arranged(subject: &Subject) -> Result<Edited, EditError> {
    let alloc = subject.alloc;
    let mut editor = SyntaxEditor::new(alloc, subject.root.as_ref())?;
    let name = first(subject, Kind::Member)?.first_token();
    editor.set_text(name.ok_or(Fault::NotFound)?, "\"b\"")?;
    let object = first(subject, Kind::Object)?;
    let whole = vec![in alloc; Piece::Old(0), Piece::Old(1), Piece::Old(2)]?;
    editor.replace_children(object, whole)?;
    let array = first(subject, Kind::Array)?;
    let comma = editor.token(Kind::Comma, ",")?;
    let mut pieces = vec![in alloc; Piece::Old(0), Piece::Old(object.index())]?;
    pieces.push(Piece::New(comma))?;
    pieces.push(Piece::Old(1))?;
    pieces.push(Piece::Old(object.index().saturating_add(1)))?;
    editor.replace_children(array, pieces)?;
    editor.finish()
}

/// An array that is parsed, in a node over a token.
fn made(subject: &Subject) -> Result<GreenElement, EditError> {
    let mut make: Make<Json> = Make::new(subject.alloc);
    let parse = |text: &str| parsed(subject.alloc, text);
    let array = make.from_text("[1]", parse, |kind| kind == Kind::Array)?;
    let comma = make.token(Kind::Comma, ",")?;
    let again = make.token(Kind::Comma, ",")?;
    make.node(Kind::Error, vec![in subject.alloc; array, comma, again]?)
}

fn parsed(alloc: Global, text: &str) -> Result<(GreenNode, usize), Fault> {
    let parse = json_syntax::parse(alloc, text)?;
    Ok((parse.green, parse.errors.len()))
}
