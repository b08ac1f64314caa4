//! Types, and names with types.
use crate::kinds::{CLOSINGS, KEYWORDS, Kind, LIST_ENDS, Script};
use crate::recovery::{close, deeper, expect_here, has_next, is_here, skip};
use rowan_parser::{Brackets, Parser, TokenSet, token_set};

const ANGLES: Brackets = Brackets {
    open: token_set![Kind::Lt],
    close: token_set![Kind::Gt],
};

/// How a parameter or a field begins.
const NAMES: TokenSet = token_set![Kind::Name];

/// A type, which stands in one line.
#[cycle(types)]
pub(crate) fn type_name(p: &mut Parser<Script>, depth: usize) {
    if !is_here(p, Kind::Name) {
        p.missing("expected a type");
        return;
    }
    let node = p.start();
    p.bump();
    if is_here(p, Kind::Lt) {
        type_arguments(p, depth);
    }
    p.complete(node, Kind::TypeName);
}

/// `<`, types, and `>`. In `>>` each character is a token, so it ends two lists of arguments.
#[cycle(types)]
fn type_arguments(p: &mut Parser<Script>, depth: usize) {
    let node = p.start();
    p.bump();
    if let Some(depth) = deeper(p, depth, ANGLES) {
        for _ in 0..p.tokens_left() {
            type_name(p, depth);
            if !p.eat(Kind::Comma) {
                break;
            }
        }
    }
    expect_here(p, Kind::Gt, "expected `>`");
    p.complete(node, Kind::TypeArguments);
}

/// A name with its type.
fn typed_name(p: &mut Parser<Script>, depth: usize, kind: Kind) {
    let node = p.start();
    p.bump();
    if p.expect(Kind::Colon, "expected `:`") {
        type_name(p, depth);
    }
    p.complete(node, kind);
}

pub(crate) fn parameters(p: &mut Parser<Script>, depth: usize) {
    let node = p.start();
    p.bump();
    for _ in 0..p.tokens_left() {
        if p.at_stop(CLOSINGS) {
            break;
        }
        if p.at(Kind::Name) {
            typed_name(p, depth, Kind::Parameter);
        } else {
            p.missing("expected a parameter");
        }
        if !has_next(p, NAMES, "expected `,` or `)`") {
            break;
        }
    }
    close(p, Kind::RParen, "expected `,` or `)`");
    p.complete(node, Kind::Parameters);
}

/// Whether a union begins here. `union` is a name elsewhere.
pub(crate) fn at_union(p: &Parser<Script>) -> bool {
    p.at_contextual("union") && p.nth(1) == Some(Kind::Name) && p.nth(2) == Some(Kind::LBrace)
}

/// `union`, a name and `{`, and fields that end at commas or at the ends of lines.
pub(crate) fn union_declaration(p: &mut Parser<Script>, depth: usize) {
    let node = p.start();
    p.bump_as(Kind::UnionKw);
    p.bump();
    p.bump();
    for _ in 0..p.tokens_left() {
        if p.at_stop(CLOSINGS) || p.at_any(KEYWORDS) {
            break;
        }
        field(p, depth);
    }
    close(p, Kind::RBrace, "expected `}`");
    p.complete(node, Kind::Union);
}

fn field(p: &mut Parser<Script>, depth: usize) {
    if p.at(Kind::Name) {
        typed_name(p, depth, Kind::Field);
    } else {
        p.error("expected a field");
        skip(p, LIST_ENDS);
    }
    has_next(p, NAMES, "expected `,` or a new line");
}
