//! Binary operators. Some are made of two tokens that touch each other.
ghost use Rattle.std.specs.Prelude.{◌<◌};

use crate::kinds::{Kind, Script};
use crate::recovery::{Place, goes_on};
use rowan_parser::Parser;

/// How tightly comparisons bind.
pub(crate) const COMPARISON: u8 = 1;

/// Operators of two tokens.
const GLUED: [([Kind; 2], Kind); 5] = [
    ([Kind::Gt, Kind::Gt], Kind::Shr),
    ([Kind::Lt, Kind::Lt], Kind::Shl),
    ([Kind::Gt, Kind::Eq], Kind::GtEq),
    ([Kind::Lt, Kind::Eq], Kind::LtEq),
    ([Kind::Eq, Kind::Eq], Kind::EqEq),
];

/// The kind of what follows an operand, with two tokens read as one operator where they touch.
pub(crate) fn operator(p: &Parser<Script>, place: Place) -> Option<Kind> {
    if !goes_on(p, place) {
        return None;
    }
    for (parts, whole) in GLUED {
        if p.at_glued(&parts) {
            return Some(whole);
        }
    }
    p.current()
}

/// How tightly an operator binds: 0 for what is none.
pub(crate) fn power_of(kind: Kind) -> u8
    ensures { result < 5 }
{
    match kind {
        Kind::Gt | Kind::Lt | Kind::GtEq | Kind::LtEq | Kind::EqEq => COMPARISON,
        Kind::Shr | Kind::Shl => 2,
        Kind::Plus | Kind::Minus => 3,
        Kind::Star | Kind::Slash => 4,
        _ => 0,
    }
}

/// Takes what `operator` said.
pub(crate) fn take_operator(p: &mut Parser<Script>, kind: Kind) {
    if p.at(kind) {
        p.bump();
    } else {
        p.bump_glued(kind, 2);
    }
}
