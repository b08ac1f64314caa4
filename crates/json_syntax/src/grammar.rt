//! The grammar of JSON.
use crate::dialect::{MAX_DEPTH, Options};
use crate::kinds::{ENDS, Json, Kind};
use rowan_parser::Parser;

/// A value, and nothing behind it.
pub fn document(p: &mut Parser<Json>, options: &Options) {
    value(p, options, options.max_depth.min(MAX_DEPTH));
    if !p.at_end() {
        p.error_to_end(Kind::Error, "expected the end of the text");
    }
}

#[cycle(json)]
fn value(p: &mut Parser<Json>, options: &Options, depth: usize) {
    match p.current() {
        Some(Kind::LBracket) => list(p, options, depth, Kind::Array),
        Some(Kind::LBrace) => list(p, options, depth, Kind::Object),
        Some(Kind::Word) if !matches!(p.text(), "true" | "false" | "null") => {
            p.error_and_bump(Kind::Error, "expected `true`, `false` or `null`");
        }
        Some(Kind::String | Kind::Number | Kind::Word) => {
            let literal = p.start();
            p.bump();
            p.complete(literal, Kind::Literal);
        }
        Some(Kind::Colon | Kind::Unknown) => p.error_and_bump(Kind::Error, "expected a value"),
        _ => p.error("expected a value"),
    }
}

/// An array or an object. After an error it goes on at the next comma or closing token.
#[cycle(json)]
fn list(p: &mut Parser<Json>, options: &Options, depth: usize, kind: Kind) {
    let Some(depth) = p.deeper(depth, Kind::Error, "expected no more nesting") else {
        return;
    };
    let (close, message) = end_of(kind);
    let node = p.start();
    p.bump();
    for _ in 0..p.tokens_left() {
        match p.current() {
            Some(Kind::RBracket | Kind::RBrace) | None => break,
            Some(Kind::Comma) => p.error("expected an element"),
            _ if kind == Kind::Object => member(p, options, depth),
            _ => value(p, options, depth),
        }
        if !p.at_end() && !p.at_any(ENDS) {
            p.error(message);
            p.recover_until(ENDS, Kind::Error);
        }
        comma(p, options);
    }
    p.expect(close, message);
    p.complete(node, kind);
}

#[cycle(json)]
fn member(p: &mut Parser<Json>, options: &Options, depth: usize) {
    let member = p.start();
    if !p.eat(Kind::String) {
        p.error_and_bump(Kind::Error, "expected a name in quotes");
    }
    p.expect(Kind::Colon, "expected `:`");
    value(p, options, depth);
    p.complete(member, Kind::Member);
}

/// The token that ends an array or an object, and the message where it is missing.
fn end_of(kind: Kind) -> (Kind, &'static str) {
    match kind {
        Kind::Object => (Kind::RBrace, "expected `,` or `}`"),
        _ => (Kind::RBracket, "expected `,` or `]`"),
    }
}

/// A comma, if there is one.
fn comma(p: &mut Parser<Json>, options: &Options) {
    if p.at(Kind::Comma) {
        if !options.allows_trailing_commas
            && matches!(p.nth(1), Some(Kind::RBracket | Kind::RBrace))
        {
            p.error("expected no trailing comma");
        }
        p.bump();
    }
}
