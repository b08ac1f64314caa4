//! The grammar of scripts: statements and expressions.
use crate::kinds::{BLOCK_ENDS, CLOSINGS, Kind, OPERANDS, Script};
use crate::operators::{COMPARISON, operator, power_of, take_operator};
use crate::recovery::{
    BRACKETS, Place, close, deeper, end_statement, expect_here, goes_on, has_next, is_here,
    no_statement,
};
use crate::types::{at_union, parameters, type_name, union_declaration};
use rowan_parser::{CompletedMarker, Parser};

const CHAINED: &str = "a comparison stands in another one only in parentheses";

/// Statements up to the end of the text.
pub(crate) fn script(p: &mut Parser<Script>, depth: usize) {
    for _ in 0..p.tokens_left() {
        match p.current() {
            None => break,
            Some(Kind::RBrace | Kind::HoleClose) => {
                p.error_and_bump(Kind::Error, "this closes nothing");
            }
            _ => statement(p, depth),
        }
    }
}

#[cycle(script)]
fn statement(p: &mut Parser<Script>, depth: usize) {
    match p.current() {
        Some(Kind::LetKw) => let_statement(p, depth),
        Some(Kind::FnKw) => function(p, depth),
        Some(Kind::ReturnKw) => return_statement(p, depth),
        Some(Kind::Semicolon) => {}
        Some(Kind::Name) if at_union(p) => union_declaration(p, depth),
        _ if p.at_any(OPERANDS) => {
            expression(p, depth, 0, Place::Line);
        }
        _ => no_statement(p),
    }
    end_statement(p);
}

#[cycle(script)]
fn let_statement(p: &mut Parser<Script>, depth: usize) {
    let node = p.start();
    p.bump();
    expect_here(p, Kind::Name, "expected a name");
    if is_here(p, Kind::Colon) {
        p.bump();
        type_name(p, depth);
    }
    if expect_here(p, Kind::Eq, "expected `=`") {
        expression(p, depth, 0, Place::Line);
    }
    p.complete(node, Kind::Let);
}

#[cycle(script)]
fn function(p: &mut Parser<Script>, depth: usize) {
    let node = p.start();
    p.bump();
    expect_here(p, Kind::Name, "expected a name");
    if is_here(p, Kind::LParen) {
        parameters(p, depth);
    } else {
        p.missing("expected `(`");
    }
    if is_here(p, Kind::LBrace) {
        block(p, depth);
    } else {
        p.missing("expected `{`");
    }
    p.complete(node, Kind::Function);
}

/// `return`, and a value in the same line, if there is one.
#[cycle(script)]
fn return_statement(p: &mut Parser<Script>, depth: usize) {
    let node = p.start();
    p.bump();
    if p.at_any(OPERANDS) && !p.newline_before() {
        expression(p, depth, 0, Place::Line);
    }
    p.complete(node, Kind::Return);
}

#[cycle(script)]
fn block(p: &mut Parser<Script>, depth: usize) -> CompletedMarker {
    let node = p.start();
    let opening = p.range();
    p.bump();
    if let Some(depth) = deeper(p, depth, BRACKETS) {
        for _ in 0..p.tokens_left() {
            if p.at_stop(BLOCK_ENDS) {
                break;
            }
            statement(p, depth);
        }
    }
    if !p.eat(Kind::RBrace)
        && let Some(range) = opening
    {
        p.error_at(range, "this `{` has no `}`");
    }
    p.complete(node, Kind::Block)
}

/// Operands, and the operators between them that bind more tightly than `power`. `None` where no
/// operand stands.
#[cycle(script)]
fn expression(
    p: &mut Parser<Script>,
    depth: usize,
    power: u8,
    place: Place,
) -> Option<CompletedMarker> {
    let mut left = operand(p, depth, place)?;
    let mut is_compared = false;
    for _ in 0..p.tokens_left() {
        let Some(kind) = operator(p, place) else {
            break;
        };
        let above = power_of(kind);
        if above <= power {
            break;
        }
        if is_compared && above == COMPARISON {
            p.error_over(&left, CHAINED);
        }
        is_compared = above == COMPARISON;
        let around = p.precede(left);
        take_operator(p, kind);
        expression(p, depth, above, place);
        left = p.complete(around, Kind::Binary);
    }
    Some(left)
}

/// What operators stand between, with the calls behind it.
#[cycle(script)]
fn operand(p: &mut Parser<Script>, depth: usize, place: Place) -> Option<CompletedMarker> {
    let mut left = match p.current() {
        Some(Kind::Number) => leaf(p, Kind::Literal),
        Some(Kind::Name) => leaf(p, Kind::Reference),
        Some(Kind::OpenQuote) => text(p, depth),
        Some(Kind::LParen) => group(p, depth),
        Some(Kind::LBrace) => block(p, depth),
        _ => {
            p.missing("expected an expression");
            return None;
        }
    };
    for _ in 0..p.tokens_left() {
        if !p.at(Kind::LParen) || !goes_on(p, place) {
            break;
        }
        let call = p.precede(left);
        arguments(p, depth);
        left = p.complete(call, Kind::Call);
    }
    Some(left)
}

/// A node around one token.
fn leaf(p: &mut Parser<Script>, kind: Kind) -> CompletedMarker {
    let node = p.start();
    p.bump();
    p.complete(node, kind)
}

#[cycle(script)]
fn group(p: &mut Parser<Script>, depth: usize) -> CompletedMarker {
    let node = p.start();
    p.bump();
    if let Some(depth) = deeper(p, depth, BRACKETS) {
        expression(p, depth, 0, Place::Brackets);
    }
    close(p, Kind::RParen, "expected `)`");
    p.complete(node, Kind::Group)
}

#[cycle(script)]
fn arguments(p: &mut Parser<Script>, depth: usize) {
    let node = p.start();
    p.bump();
    if let Some(depth) = deeper(p, depth, BRACKETS) {
        for _ in 0..p.tokens_left() {
            if p.at_stop(CLOSINGS) {
                break;
            }
            expression(p, depth, 0, Place::Brackets);
            if !has_next(p, OPERANDS, "expected `,` or `)`") {
                break;
            }
        }
    }
    close(p, Kind::RParen, "expected `,` or `)`");
    p.complete(node, Kind::Arguments);
}

/// A string, of which the lexer says whether it ends.
#[cycle(script)]
fn text(p: &mut Parser<Script>, depth: usize) -> CompletedMarker {
    let node = p.start();
    p.bump();
    for _ in 0..p.tokens_left() {
        match p.current() {
            Some(Kind::StringText | Kind::Escape) => p.bump(),
            Some(Kind::HoleOpen) => hole(p, depth),
            _ => break,
        }
    }
    p.eat(Kind::CloseQuote);
    p.complete(node, Kind::Text)
}

#[cycle(script)]
fn hole(p: &mut Parser<Script>, depth: usize) {
    let node = p.start();
    p.bump();
    if let Some(depth) = deeper(p, depth, BRACKETS) {
        expression(p, depth, 0, Place::Line);
    }
    close(p, Kind::HoleClose, "expected `}`");
    p.complete(node, Kind::Hole);
}
