//! The calls of typed cursors, none of which asks for memory.

use crate::moving::tell_each;
use crate::typed_refs;
use rowan::cursor::{self, ElementCalls};
use rowan::{Direction, NodeOrToken, SyntaxElement, SyntaxNode, SyntaxToken, TypedElementCalls};
use rowan_moves::{MOVES, Move, raw, typed};
use rowan_tool::sexp::Lang;
use rowan_transcript::{Stop, Transcript};

/// Each move once.
pub fn moves() -> &'static [Move] {
    &MOVES
}

/// Says where the moves from an element lead, by the calls of the node or the token, by those of
/// the element, and by borrowed cursors.
pub fn tell_moves(log: &Transcript<'_>, element: &SyntaxElement<Lang>) -> Result<(), Stop> {
    for way in moves() {
        log.tell(way.name(), &typed::target(*way, element))?;
    }
    for way in moves() {
        log.tell(way.name(), &typed::target_of_element(*way, element))?;
    }
    tell_each(log, "ancestor", element.ancestors())?;
    match element {
        NodeOrToken::Node(node) => log.tell("text", &node.text())?,
        NodeOrToken::Token(token) => tell_lists_at_token(log, token)?,
    }
    typed_refs::tell_moves(log, element)
}

fn tell_lists_at_token(log: &Transcript<'_>, token: &SyntaxToken<Lang>) -> Result<(), Stop> {
    tell_each(log, "ancestor", token.ancestors())?;
    tell_each(log, "parent_ancestor", token.parent_ancestors())?;
    let siblings = token.siblings_with_tokens(Direction::Prev);
    tell_each(log, "sibling_with_tokens", siblings)
}

/// Says what an element is without the kinds of its language, and with them once more.
pub fn tell_conversions(log: &Transcript<'_>, element: SyntaxElement<Lang>) -> Result<(), Stop> {
    log.tell(
        "typed",
        &(element.kind(), element.index(), element.text_range()),
    )?;
    let raw = element.into_raw();
    log.tell("into_raw", &raw)?;
    for way in moves() {
        log.tell(way.name(), &raw::target_of_element(*way, &raw))?;
    }
    tell_each(log, "ancestor", ElementCalls::ancestors(&raw))?;
    let typed = SyntaxElement::<Lang>::from_raw(raw);
    log.tell("from_raw", &typed)?;
    match typed {
        NodeOrToken::Node(node) => {
            let raw = cursor::SyntaxNode::from(node);
            log.tell("raw node", &raw)?;
            log.tell(
                "typed node",
                &SyntaxElement::from(SyntaxNode::<Lang>::from(raw)),
            )
        }
        NodeOrToken::Token(token) => {
            let raw = cursor::SyntaxToken::from(token);
            log.tell("raw token", &raw)?;
            log.tell(
                "typed token",
                &SyntaxElement::from(SyntaxToken::<Lang>::from(raw)),
            )
        }
    }
}
