//! Lists in lists, with what does not fit in error nodes: each function says what it makes.
#![tactic(auto, using(rowan_parser::proofs::Rules::grammar, crate::proofs::Values::values))]

ghost use Rattle.std.specs.Prelude.{◌≡◌, ◌<◌, ◌≤◌, length};
ghost use Rattle.rowan_parser.specs.Making.{IsMade, IsListNode};
ghost use Rattle.rowan_parser.specs.Shape.{none, token_then};
ghost use Rattle.rowan_parser_shapes.specs.Kinds.{code_of};
ghost use Rattle.rowan_parser_shapes.specs.Shapes.{IsValue};
ghost use Rattle.rowan_parser_shapes.specs.declared.kinds.Kind.TheVariants.{Group};

use crate::kinds::{Kind, Sums};
use crate::shapes::literal;
use rowan_parser::{CompletedMarker, Parser, TokenSet, token_set};

const ENDS: TokenSet = token_set![Kind::Comma, Kind::Close];

/// A number, a list, or else an error node over one token, unless this may follow a value.
#[cycle(value)]
pub fn value(p: &mut Parser<Sums>, depth: usize)
    ensures made { IsMade (IsValue depth) p.old p.new }
    ensures left { length p.new.left ≤ length p.old.left }
{
    let Some(depth) = p.deeper(depth, Kind::Error, "this is nested too deeply") else {
        return;
    };
    if p.at(Kind::Number) {
        literal(p);
        return;
    }
    if p.at(Kind::Open) {
        list(p, depth);
        return;
    }
    p.err_recover("expected a value", ENDS, Kind::Error);
}

/// `[`, values with `,` between them, and `]`.
#[cycle(value)]
pub fn list(p: &mut Parser<Sums>, depth: usize) -> CompletedMarker
    requires { 0 < length p.old.left }
    ensures made { IsListNode (IsValue depth) (token_then none) p.old p.new result (code_of Group) }
    ensures left { length p.new.left ≤ length p.old.left }
{
    let node = p.start();
    p.bump();
    'items: while !p.at_stop(ENDS) {
        value(p, depth);
        if !p.eat(Kind::Comma) {
            break;
        }
    }
    p.expect(Kind::Close, "expected `]`");
    p.complete(node, Kind::Group)
}
