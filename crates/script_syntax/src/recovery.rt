//! Ends of lines and of lists, and how the grammar goes on behind an error.
ghost use Rattle.std.specs.Prelude.{◌≡◌, ◌+◌, IfSome};

use crate::kinds::{CLOSINGS, KEYWORDS, Kind, LIST_ENDS, OPERANDS, STATEMENT_ENDS, Script};
use rowan::Language;
use rowan_parser::{Brackets, Parser, TokenSet, token_set};

pub(crate) const BRACKETS: Brackets = Brackets {
    open: token_set![Kind::LParen, Kind::LBrace, Kind::HoleOpen],
    close: CLOSINGS,
};

/// Where an expression stands. The end of a line ends it, but not in brackets.
#[derive(Clone, Copy)]
pub(crate) enum Place {
    Line,
    Brackets,
}

/// Whether the current token may still belong to an expression in this place.
pub(crate) fn goes_on(p: &Parser<Script>, place: Place) -> bool {
    matches!(place, Place::Brackets) || !p.newline_before()
}

/// Whether a token of this kind follows in the same line.
pub(crate) fn is_here(p: &Parser<Script>, kind: Kind) -> bool {
    p.at(kind) && !p.newline_before()
}

/// Takes a token of this kind in the same line, and else complains.
pub(crate) fn expect_here(p: &mut Parser<Script>, kind: Kind, message: &str) -> bool {
    let is_here = is_here(p, kind);
    if is_here {
        p.bump();
    } else {
        p.missing(message);
    }
    is_here
}

/// The kinds of this set, and the semicolon.
fn or_semicolon(set: TokenSet) -> TokenSet {
    set.with(Script::kind_to_raw(Kind::Semicolon))
}

/// Puts the tokens up to one of this set, or to the end of the line, into an error node.
pub(crate) fn skip(p: &mut Parser<Script>, set: TokenSet) {
    if p.at_stop(set) {
        return;
    }
    let node = p.start();
    p.bump();
    for _ in 0..p.tokens_left() {
        if p.at_stop(set) || p.newline_before() {
            break;
        }
        p.bump();
    }
    p.complete(node, Kind::Error);
}

/// Complains of a token with which no statement begins, and goes on at the next one.
pub(crate) fn no_statement(p: &mut Parser<Script>) {
    p.error("expected a statement");
    skip(p, STATEMENT_ENDS);
}

/// Ends a statement: by `;`, by the end of its line, or before a closing brace.
pub(crate) fn end_statement(p: &mut Parser<Script>) {
    if p.eat(Kind::Semicolon) || p.newline_before() || p.at_stop(STATEMENT_ENDS) {
        return;
    }
    p.missing("expected `;` or a new line");
    if !p.at_any(OPERANDS.union(KEYWORDS)) {
        skip(p, STATEMENT_ENDS);
        p.eat(Kind::Semicolon);
    }
}

/// Whether another element follows: behind a comma, or, with a complaint, by a token with which one
/// begins. What else stands before the comma in its line has no place.
pub(crate) fn has_next(p: &mut Parser<Script>, starts: TokenSet, message: &str) -> bool {
    if p.eat(Kind::Comma) {
        return true;
    }
    if p.newline_before() || p.at_stop(CLOSINGS) {
        return false;
    }
    p.missing(message);
    if p.at_any(starts) {
        return true;
    }
    skip(p, or_semicolon(LIST_ENDS));
    p.eat(Kind::Comma)
}

/// Takes a closing bracket. What stands before it in its line has no place.
pub(crate) fn close(p: &mut Parser<Script>, kind: Kind, message: &str) {
    if !p.expect(kind, message) && !p.newline_before() {
        skip(p, or_semicolon(CLOSINGS));
        p.eat(kind);
    }
}

/// The depth for what stands in the brackets that were opened last. Where it is too deep, what
/// stands up to their end is put into an error node.
pub(crate) fn deeper(p: &mut Parser<Script>, depth: usize, brackets: Brackets) -> Option<usize>
    ensures { IfSome result (λ less. less + 1 ≡ depth) }
{
    let message = "this is nested too deeply";
    p.deeper_or_recover(depth, Kind::Error, message, brackets.close, brackets)
}
