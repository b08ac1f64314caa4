//! Moves of cursors from place to place, and searches by place.
use crate::trees::Tree;
use rowan::{Fault, NodeOrToken, SyntaxElement, TextRange, TextSize, TypedElementCalls};
use rowan_moves::{MOVES, Move, typed};
use rowan_tool::sexp::Lang;

type Element = SyntaxElement<Lang>;

pub fn make(call: &str, tree: &Tree) -> Result<Option<u64>, Fault> {
    let number = match call {
        "first_token" => index_at(tree, Move::FirstToken),
        "last_token" => index_at(tree, Move::LastToken),
        "next_token" => moves(tree, Move::FirstToken, Move::NextToken),
        "prev_token" => moves(tree, Move::LastToken, Move::PrevToken),
        "next_sibling" => moves(tree, Move::FirstChild, Move::NextSibling),
        "prev_sibling" => moves(tree, Move::LastChild, Move::PrevSibling),
        "next_sibling_or_token" => moves(tree, Move::FirstChildOrToken, Move::NextSiblingOrToken),
        "prev_sibling_or_token" => moves(tree, Move::LastChildOrToken, Move::PrevSiblingOrToken),
        "first_child" => moves(tree, Move::FirstChild, Move::FirstChild),
        "last_child" => moves(tree, Move::LastChild, Move::LastChild),
        "each_move" => each_move(tree),
        "tree_top" => tree_top(tree),
        "child_or_token_at_index" => child_or_token_at_index(tree),
        "child_or_token_at_range" => child_or_token_at_range(tree),
        "token_at_offset" => token_at_offset(tree),
        "covering_element" => covering_element(tree),
        _ => return Ok(None),
    };
    Ok(Some(number?))
}

/// Where a move from the root leads.
fn target(tree: &Tree, way: Move) -> Result<Option<Element>, Fault> {
    typed::target(way, &NodeOrToken::Node(tree.root.clone()?))
}

/// The index of the element to which a move from the root leads.
fn index_at(tree: &Tree, way: Move) -> Result<u64, Fault> {
    match target(tree, way)? {
        Some(element) => Ok(element.index() as u64),
        None => Ok(0),
    }
}

/// How many elements there are on the way from the root by one move, and from there by the other,
/// as often as that leads anywhere.
fn moves(tree: &Tree, first: Move, further: Move) -> Result<u64, Fault> {
    let mut next = target(tree, first)?;
    let mut elements: u64 = 0;
    for _ in 0..u64::MAX {
        let Some(element) = next else {
            break;
        };
        elements = elements.wrapping_add(1);
        next = typed::target(further, &element)?;
    }
    Ok(elements)
}

/// Each move once, from each child of the root.
fn each_move(tree: &Tree) -> Result<u64, Fault> {
    let mut sum: u64 = 0;
    for element in tree.root.children_with_tokens() {
        sum = sum.wrapping_add(each_move_from(&element?)?);
    }
    Ok(sum)
}

/// Each move once, from an element.
fn each_move_from(element: &Element) -> Result<u64, Fault> {
    let mut sum: u64 = 0;
    for way in MOVES {
        if let Some(found) = typed::target(way, element)? {
            sum = sum.wrapping_add(found.index() as u64);
        }
    }
    Ok(sum)
}

/// The root, from the last token.
fn tree_top(tree: &Tree) -> Result<u64, Fault> {
    match tree.root.last_token()? {
        Some(token) => Ok(u64::from(u32::from(token.tree_top()?.text_range().len()))),
        None => Ok(0),
    }
}

/// The child of the root at each index.
fn child_or_token_at_index(tree: &Tree) -> Result<u64, Fault> {
    let mut sum: u64 = 0;
    for index in 0..tree.green.children().len() {
        if let Some(element) = tree.root.child_or_token_at_index(index)? {
            sum = sum.wrapping_add(element.index() as u64);
        }
    }
    Ok(sum)
}

/// The child of the root at a place between bytes, for each fourth of them.
fn child_or_token_at_range(tree: &Tree) -> Result<u64, Fault> {
    let mut sum: u64 = 0;
    for start in (0..u32::from(tree.green.text_len())).step_by(4) {
        let range = TextRange::at(TextSize::from(start), TextSize::from(0));
        if let Some(element) = tree.root.child_or_token_at_range(range)? {
            sum = sum.wrapping_add(u64::from(u32::from(element.text_range().len())));
        }
    }
    Ok(sum)
}

/// The token at the middle.
fn token_at_offset(tree: &Tree) -> Result<u64, Fault> {
    let offset = TextSize::from(u32::from(tree.green.text_len()) / 2);
    if !tree.root.text_range().contains_inclusive(offset) {
        return Ok(0);
    }
    match tree.root.token_at_offset(offset)?.right_biased() {
        Some(token) => Ok(u64::from(u32::from(token.text_range().start()))),
        None => Ok(0),
    }
}

/// The element that covers the bytes at the middle.
fn covering_element(tree: &Tree) -> Result<u64, Fault> {
    let start = u32::from(tree.green.text_len()) / 2;
    let range = TextRange::at(TextSize::from(start), TextSize::from(0));
    if !tree.root.text_range().contains_range(range) {
        return Ok(0);
    }
    Ok(u64::from(u32::from(tree.root.covering_element(range)?.text_range().len())))
}
