//! Borrowed wrappers, parts of a node that are alike, and searches around a place.
use crate::trees::Tree;
use rowan::ast::{AstNodeRef, NodeOfRef, algo, support};
use rowan::{Direction, Fault, NodeOrToken, SyntaxNodeRef, TextRange, TextSize};
use rowan_tool::sexp::{Atom, Lang, SyntaxKind};

const ATOM: u16 = SyntaxKind::ATOM as u16;

/// An atom that is borrowed from its tree.
type AtomRef<'tree> = NodeOfRef<'tree, Lang, ATOM>;

pub fn make(call: &str, tree: &Tree) -> Result<Option<u64>, Fault> {
    let root = tree.root.as_ref();
    let number = match call {
        "children_ref" => children(root),
        "nth_alike" => nth_alike(root),
        "nth_owned" => nth_owned(tree)?,
        "around_a_place" => around(root),
        "other_siblings" => siblings(root),
        "skip_trivia" => skip_trivia(root),
        _ => return Ok(None),
    };
    Ok(Some(number))
}

fn children(root: SyntaxNodeRef<'_, Lang>) -> u64 {
    let first: Option<AtomRef<'_>> = support::child_ref(root);
    let mut count: u64 = u64::from(first.is_some());
    let mut atoms = support::children_ref::<AtomRef<'_>>(root);
    while let Some(atom) = atoms.next() {
        count = count.wrapping_add(u64::from(u32::from(atom.syntax().text_range().len())));
    }
    count
}

/// The last of the children of a kind, and the last of the tokens.
fn nth_alike(root: SyntaxNodeRef<'_, Lang>) -> u64 {
    let last = root.green().children().len().saturating_sub(1);
    let atom: Option<AtomRef<'_>> = support::nth_child_ref(root, &[SyntaxKind::ATOM], last);
    let token = support::nth_token_ref(root, &[SyntaxKind::WORD], last);
    u64::from(atom.is_some()).wrapping_add(u64::from(token.is_some()))
}

fn nth_owned(tree: &Tree) -> Result<u64, Fault> {
    let last = tree.green.children().len().saturating_sub(1);
    let atom: Option<Atom> = support::nth_child(&tree.root, &[SyntaxKind::ATOM], last)?;
    let token = support::nth_token(&tree.root, &[SyntaxKind::WORD], last)?;
    Ok(u64::from(atom.is_some()).wrapping_add(u64::from(token.is_some())))
}

/// What is around the end of the text.
fn around(root: SyntaxNodeRef<'_, Lang>) -> u64 {
    let end = root.text_range().end();
    let atom: Option<AtomRef<'_>> = algo::find_node_at_offset(root, end);
    let whole: Option<AtomRef<'_>> = algo::find_node_at_range(root, TextRange::new(end, end));
    let mut count = u64::from(atom.is_some()).wrapping_add(u64::from(whole.is_some()));
    let mut nodes = algo::ancestors_at_offset(root, TextSize::from(0));
    while nodes.next().is_some() {
        count = count.wrapping_add(1);
    }
    count
}

/// The first child's sibling that is neither a word nor a node.
fn siblings(root: SyntaxNodeRef<'_, Lang>) -> u64 {
    let Some(first) = root.first_child_or_token() else {
        return 0;
    };
    match algo::non_trivia_sibling(first, Direction::Next, &[SyntaxKind::WORD]) {
        Some(NodeOrToken::Node(_)) => 2,
        Some(NodeOrToken::Token(_)) => 1,
        None => 0,
    }
}

/// From the first token to the first that is no word, and back from the last one.
fn skip_trivia(root: SyntaxNodeRef<'_, Lang>) -> u64 {
    let (Some(first), Some(last)) = (root.first_token(), root.last_token()) else {
        return 0;
    };
    let words = &[SyntaxKind::WORD];
    let on = algo::skip_trivia_token(first, Direction::Next, words);
    let back = algo::skip_trivia_token(last, Direction::Prev, words);
    u64::from(on.is_some()).wrapping_add(u64::from(back.is_some()))
}
