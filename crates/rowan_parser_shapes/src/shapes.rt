//! A node over a token, a node put around another one, a list, and a loop with `precede`.
#![tactic(auto, using(rowan_parser::proofs::Rules::grammar))]

ghost use Rattle.std.specs.Prelude.{◌≡◌, ◌<◌, length, drop};
ghost use Rattle.rowan_parser.specs.Making.{IsEnded, IsListNode, IsNodeOf};
ghost use Rattle.rowan_parser.specs.Shape.{none, token_then, node_then};
ghost use Rattle.rowan_parser_shapes.specs.Kinds.{code_of};
ghost use Rattle.rowan_parser_shapes.specs.Shapes.{IsElement, IsTerm};
ghost use Rattle.rowan_parser_shapes.specs.declared.kinds.Kind.TheVariants.{Literal, Sum, Group};

use crate::kinds::{Kind, Sums};
use rowan_parser::{CompletedMarker, Parser, TokenSet, token_set};

const STARTS: TokenSet = token_set![Kind::Number];

/// A node over one token.
pub fn literal(p: &mut Parser<Sums>) -> CompletedMarker
    requires { 0 < length p.old.left }
    ensures left { p.new.left ≡ drop 1 p.old.left }
    ensures node { IsEnded p.old p.new result (code_of Literal) (token_then none) }
{
    let node = p.start();
    p.bump();
    p.complete(node, Kind::Literal)
}

/// Two literals with a token between them: a sum around the literal that ended first.
pub fn sum(p: &mut Parser<Sums>) -> CompletedMarker
    requires { 2 < length p.old.left }
    ensures { IsEnded p.old p.new result (code_of Sum)
        (node_then (code_of Literal) (token_then none)
        (token_then (node_then (code_of Literal) (token_then none) none))) }
{
    let left = literal(p);
    let around = p.precede(left);
    p.bump();
    literal(p);
    p.complete(around, Kind::Sum)
}

/// `[`, literals with `,` between them, and `]`.
pub fn list(p: &mut Parser<Sums>) -> CompletedMarker
    requires { 0 < length p.old.left }
    ensures { IsListNode IsElement (token_then none) p.old p.new result (code_of Group) }
{
    let node = p.start();
    p.bump();
    'items: while p.at_any(STARTS) {
        literal(p);
        if !p.eat(Kind::Comma) {
            break;
        }
    }
    p.expect(Kind::Close, "expected `]`");
    p.complete(node, Kind::Group)
}

/// Literals with `+` between them: each sum stands around the one before it.
pub fn terms(p: &mut Parser<Sums>) -> CompletedMarker
    requires { 0 < length p.old.left }
    ensures { IsNodeOf IsTerm p.old p.new result }
{
    let mut left = literal(p);
    'terms: while p.at(Kind::Plus) && p.tokens_left() > 1 {
        let around = p.precede(left);
        p.bump();
        literal(p);
        left = p.complete(around, Kind::Sum);
    }
    left
}
