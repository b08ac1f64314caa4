//! What a formatter has to leave: the nodes, and the tokens that are neither white space nor line
//! ends.
ghost use Rattle.std.specs.Prelude.{◌≡◌, [], ◌∷◌, map, true, IfOk, MatchOption};
ghost use Rattle.std.specs.List.{flat_map};
ghost use Rattle.rowan.specs.Preorder.{preorder_with_tokens, event_symbols};
ghost use Rattle.rowan.specs.RawRefs.{node_place};
ghost use Rattle.rowan.specs.RawWalks.{element_event};
ghost use Rattle.toml_format.specs.Skeleton.{is_white, kept, skeleton, mark_symbol};

use rowan::cursor::{SyntaxElementRef, SyntaxNode, SyntaxNodeRef};
use rowan::laws::cursor as laws;
use rowan::{Fault, GreenNode, NodeOrToken, SyntaxKind, WalkEvent};
use std::alloc::{AllocError, Global};
use toml_syntax::Kind;

/// A part of a skeleton: where a node begins or ends, or a token.
#[derive(Clone, Copy)]
enum Mark<'tree> {
    Open(SyntaxKind),
    Leaf(SyntaxKind, &'tree str),
    Close,
}

/// Whether two trees have the same skeleton: the same nodes, and in them the same tokens but for
/// white space and line ends.
///
/// Errors: `Memory` if an allocation failed.
pub fn has_skeleton_of(alloc: Global, new: &GreenNode, old: &GreenNode) -> Result<bool, Fault>
    ensures { IfOk result (λ same. same ≡ true → skeleton new.now ≡ skeleton old.now) }
{
    let new = root_of(alloc, new)?;
    let old = root_of(alloc, old)?;
    laws::walks_spell_the_subtree();
    have_same_marks(alloc, new.as_ref(), old.as_ref())
}

/// The cursor at the root of a tree.
pub(crate) fn root_of(alloc: Global, tree: &GreenNode) -> Result<SyntaxNode, Fault>
    ensures { IfOk result (λ n. n ≡ record { root = tree.now; path = [] }) }
{
    SyntaxNode::new_root(alloc, tree.clone()?)
}

fn have_same_marks(
    alloc: Global,
    new: SyntaxNodeRef<'_>,
    old: SyntaxNodeRef<'_>,
) -> Result<bool, Fault>
    ensures { IfOk result (λ same. same ≡ true
        → kept (flat_map event_symbols (preorder_with_tokens (node_place new.entry)))
        ≡ kept (flat_map event_symbols (preorder_with_tokens (node_place old.entry)))) }
{
    let new = marks_of(alloc, new)?;
    let old = marks_of(alloc, old)?;
    Ok(are_same(new.as_slice(), old.as_slice()))
}

fn marks_of<'tree>(
    alloc: Global,
    root: SyntaxNodeRef<'tree>,
) -> Result<Vec<Mark<'tree>>, AllocError>
    ensures { IfOk result (λ marks. map mark_symbol marks.items
        ≡ kept (flat_map event_symbols (preorder_with_tokens (node_place root.entry)))) }
{
    let mut marks = Vec::new(alloc);
    for event in root.preorder_with_tokens() {
        if let Some(mark) = mark_of(event) {
            marks.push(mark)?;
        }
    }
    Ok(marks)
}

/// The mark of an event, if it has one.
fn mark_of<'tree>(event: WalkEvent<SyntaxElementRef<'tree>>) -> Option<Mark<'tree>>
    ensures { let symbols = kept (event_symbols (element_event event.entry)) in
        MatchOption result (symbols ≡ []) (λ mark. symbols ≡ mark_symbol mark ∷ []) }
{
    match event {
        WalkEvent::Enter(NodeOrToken::Node(node)) => Some(Mark::Open(node.green().kind())),
        WalkEvent::Enter(NodeOrToken::Token(token)) => {
            let green = token.green();
            if is_white(green.kind()) {
                return None;
            }
            Some(Mark::Leaf(green.kind(), green.text()))
        }
        WalkEvent::Leave(NodeOrToken::Node(_)) => Some(Mark::Close),
        WalkEvent::Leave(NodeOrToken::Token(_)) => None,
    }
}

/// Whether a kind is that of white space or of a line end.
pub(crate) fn is_white(kind: SyntaxKind) -> bool
    ensures { result ≡ is_white kind.0 }
{
    kind.0 == Kind::Whitespace as u16 || kind.0 == Kind::Newline as u16
}

fn are_same(new: &[Mark<'_>], old: &[Mark<'_>]) -> bool
    ensures { result ≡ true → map mark_symbol new.now ≡ map mark_symbol old.now }
{
    if new.len() != old.len() {
        return false;
    }
    for (mark, other) in new.iter().zip(old) {
        if !is_same(*mark, *other) {
            return false;
        }
    }
    true
}

fn is_same(mark: Mark<'_>, other: Mark<'_>) -> bool
    ensures { result ≡ true → mark_symbol mark.entry ≡ mark_symbol other.entry }
{
    match (mark, other) {
        (Mark::Open(kind), Mark::Open(other)) => kind == other,
        (Mark::Leaf(kind, text), Mark::Leaf(other, other_text)) => {
            kind == other && text == other_text
        }
        (Mark::Close, Mark::Close) => true,
        _ => false,
    }
}
