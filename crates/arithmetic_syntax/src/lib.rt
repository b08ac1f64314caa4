//! A parser of sums and products, as `1 + 2 * (3`. No text is refused for its form, and the tree
//! has each byte of it.
#![tactic(auto)]

mod kinds;

ghost use Rattle.std.specs.Prelude.{◌≡◌, IfOk};
ghost use Rattle.rowan.specs.Term.{node_text};

pub use kinds::{Arithmetic, Kind};
use rowan::{Fault, Language, SyntaxKind};
use rowan_parser::{CompletedMarker, Parse, Parser, Trivia, token_set};
use std::alloc::Global;

/// How many groups may stand one in the other.
const MAX_DEPTH: usize = 500;

/// Parses a text. Refused where a node would pass a limit of trees, and for want of memory.
pub fn parse(alloc: Global, text: &str) -> Result<Parse, Fault>
    ensures { IfOk result (λ parse. node_text parse.green ≡ text.now) }
{
    let trivia = Trivia {
        kinds: token_set![Kind::Space],
        attached: &[],
    };
    rowan_parser::parse(alloc, text, next_token, trivia, Kind::Root, document)
}

fn raw(kind: Kind) -> SyntaxKind {
    Arithmetic::kind_to_raw(kind)
}

/// What is no number is one character.
pub fn next_token(rest: &str) -> (SyntaxKind, usize) {
    let kind = match rest.bytes().next() {
        Some(b' ') => Kind::Space,
        Some(b'0'..=b'9') => Kind::Number,
        Some(b'+') => Kind::Plus,
        Some(b'*') => Kind::Star,
        Some(b'(') => Kind::Open,
        Some(b')') => Kind::Close,
        _ => Kind::Error,
    };
    (
        raw(kind),
        rest.bytes().take_while(u8::is_ascii_digit).count(),
    )
}

fn document(p: &mut Parser<Arithmetic>) {
    expression(p, MAX_DEPTH, 0);
    if !p.at_end() {
        p.error_to_end(Kind::Error, "expected the end of the text");
    }
}

/// Operands, and the operators between them that bind more tightly than `power`.
#[cycle(expression)]
fn expression(p: &mut Parser<Arithmetic>, depth: usize, power: u8) {
    let Some(depth) = p.deeper(depth, Kind::Error, "this is nested too deeply") else {
        return;
    };
    let mut left = operand(p, depth);
    for _ in 0..p.tokens_left() {
        let (kind, above) = match p.current() {
            Some(Kind::Plus) if power < 1 => (Kind::Sum, 1),
            Some(Kind::Star) if power < 2 => (Kind::Product, 2),
            _ => break,
        };
        let around = p.precede(left);
        p.bump();
        expression(p, depth, above);
        left = p.complete(around, kind);
    }
}

#[cycle(expression)]
fn operand(p: &mut Parser<Arithmetic>, depth: usize) -> CompletedMarker {
    let node = p.start();
    if p.eat(Kind::Number) {
        return p.complete(node, Kind::Literal);
    }
    if p.eat(Kind::Open) {
        expression(p, depth, 0);
        p.expect(Kind::Close, "expected `)`");
        return p.complete(node, Kind::Group);
    }
    p.error("expected a number or `(`");
    p.eat(Kind::Error);
    p.complete(node, Kind::Error)
}
