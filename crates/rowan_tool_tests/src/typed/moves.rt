//! Moves and searches.
use super::{Answers, Element, Node, is_found};
use rowan::{Fault, NodeOrToken, TextRange, cursor};
use rowan_moves::{Move, raw, typed};

/// The moves that elements have.
const OF_ELEMENTS: [Move; 4] = [
    Move::TreeTop,
    Move::Parent,
    Move::NextSiblingOrToken,
    Move::PrevSiblingOrToken,
];

/// Whether a move leads from a typed element where it does from the raw one.
pub fn is_same(way: Move, typed: &Element, raw: &cursor::SyntaxElement) -> bool {
    is_found(typed::target(way, typed), raw::target(way, raw))
}

/// Whether a move leads anywhere.
pub fn leads(way: Move, from: &cursor::SyntaxElement) -> bool {
    match raw::target(way, from) {
        Ok(target) => target.is_some(),
        Err(_) => false,
    }
}

/// Compares where the moves of elements lead.
pub fn add_of_element(answers: &mut Answers, typed: &Element, raw: &cursor::SyntaxElement) {
    for way in OF_ELEMENTS {
        let target = typed::target_of_element(way, typed);
        answers.add(is_found(target, raw::target_of_element(way, raw)));
    }
}

/// A search from a node.
#[derive(Clone, Copy)]
enum Search {
    Second,
    AtRange,
    AtStart,
    Covering,
    RightOfStart,
    LeftOfEnd,
}

const SEARCHES: [Search; 6] = [
    Search::Second,
    Search::AtRange,
    Search::AtStart,
    Search::Covering,
    Search::RightOfStart,
    Search::LeftOfEnd,
];

/// The empty range where another one starts.
fn start_of(range: TextRange) -> TextRange {
    TextRange::new(range.start(), range.start())
}

fn typed_found(from: &Node, search: Search) -> Result<Option<Element>, Fault> {
    let range = from.text_range();
    match search {
        Search::Second => from.child_or_token_at_index(1),
        Search::AtRange => from.child_or_token_at_range(range),
        Search::AtStart => from.child_or_token_at_range(start_of(range)),
        Search::Covering => from.covering_element(range).map(Some),
        Search::RightOfStart => {
            let tokens = from.token_at_offset(range.start())?;
            Ok(tokens.right_biased().map(NodeOrToken::Token))
        }
        Search::LeftOfEnd => {
            let tokens = from.token_at_offset(range.end())?;
            Ok(tokens.left_biased().map(NodeOrToken::Token))
        }
    }
}

fn raw_found(
    from: &cursor::SyntaxNode,
    search: Search,
) -> Result<Option<cursor::SyntaxElement>, Fault> {
    let range = from.text_range();
    match search {
        Search::Second => from.child_or_token_at_index(1),
        Search::AtRange => from.child_or_token_at_range(range),
        Search::AtStart => from.child_or_token_at_range(start_of(range)),
        Search::Covering => from.covering_element(range).map(Some),
        Search::RightOfStart => {
            let tokens = from.token_at_offset(range.start())?;
            Ok(tokens.right_biased().map(NodeOrToken::Token))
        }
        Search::LeftOfEnd => {
            let tokens = from.token_at_offset(range.end())?;
            Ok(tokens.left_biased().map(NodeOrToken::Token))
        }
    }
}

/// Compares what the searches from a node find.
pub fn add_searches(answers: &mut Answers, typed: &Element, raw: &cursor::SyntaxElement) {
    match (typed, raw) {
        (NodeOrToken::Node(typed), NodeOrToken::Node(raw)) => {
            for search in SEARCHES {
                answers.add(is_found(typed_found(typed, search), raw_found(raw, search)));
            }
        }
        (_, _) => {}
    }
}
