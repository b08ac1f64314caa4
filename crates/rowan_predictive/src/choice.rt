//! What to do where a rule is expected, by the next token alone.
ghost use Rattle.std.specs.Prelude.{◌≡◌};
ghost use Rattle.rowan_predictive.specs.Choice.{is_begun, is_followed, may_be_empty, may_pass};
ghost use Rattle.rowan_predictive.specs.Choice.{move_in, move_of};
ghost use Rattle.rowan_predictive.specs.Sets.{first_set, follow_set};

use crate::rules::{Entry, Move, Rule};
use rowan::SyntaxKind;
use rowan_parser::TokenSet;

/// The tokens by which a rule may begin.
pub(crate) fn first(entries: &[Entry], number: usize) -> TokenSet
    ensures { result.0 ≡ first_set entries.now number }
{
    match entries.get(number) {
        None => TokenSet::EMPTY,
        Some(entry) => entry.facts.first,
    }
}

/// The tokens that may stand behind a rule.
pub(crate) fn follow(entries: &[Entry], number: usize) -> TokenSet
    ensures { result.0 ≡ follow_set entries.now number }
{
    match entries.get(number) {
        None => TokenSet::EMPTY,
        Some(entry) => entry.facts.follow,
    }
}

/// Whether a rule may begin by the next token.
pub(crate) fn is_begun(entries: &[Entry], number: usize, next: Option<u16>) -> bool
    ensures { result ≡ is_begun entries.now number next }
{
    match next {
        None => false,
        Some(kind) => first(entries, number).contains(SyntaxKind(kind)),
    }
}

/// Whether the next token may stand behind a rule.
fn is_followed(entries: &[Entry], number: usize, next: Option<u16>) -> bool
    ensures { result ≡ is_followed entries.now number next }
{
    match next {
        None => false,
        Some(kind) => follow(entries, number).contains(SyntaxKind(kind)),
    }
}

pub(crate) fn may_be_empty(entries: &[Entry], number: usize) -> bool
    ensures { result ≡ may_be_empty entries.now number }
{
    match entries.get(number) {
        None => false,
        Some(entry) => entry.facts.may_be_empty,
    }
}

/// Whether a rule that may be empty is left here: before a token that may follow it, and at the
/// end.
fn may_pass(entries: &[Entry], number: usize, next: Option<u16>) -> bool
    ensures { result ≡ may_pass entries.now number next }
{
    match next {
        None => true,
        Some(kind) => is_followed(entries, number, Some(kind)),
    }
}

fn choose_in(entries: &[Entry], number: usize, rule: Rule, next: Option<u16>) -> Option<Move>
    ensures { result ≡ move_in entries.now number next rule }
{
    match rule {
        Rule::Empty => Some(Move::Pass),
        Rule::Token(kind) => match next {
            None => None,
            Some(there) => {
                if there == kind {
                    Some(Move::Take(kind))
                } else {
                    None
                }
            }
        },
        Rule::Node(kind, inner) => Some(Move::Enter(kind, inner)),
        Rule::Chain(inner) => Some(Move::Begin(inner)),
        Rule::Wrap(kind, inner) => Some(Move::Surround(kind, inner)),
        Rule::Seq(a, b) => Some(Move::Both(a, b)),
        Rule::Choice(a, b) => {
            if is_begun(entries, a, next) {
                return Some(Move::Become(a));
            }
            if is_begun(entries, b, next) {
                return Some(Move::Become(b));
            }
            if may_be_empty(entries, a) {
                return Some(Move::Become(a));
            }
            if may_be_empty(entries, b) {
                return Some(Move::Become(b));
            }
            None
        }
        Rule::Optional(a) => {
            if is_begun(entries, a, next) {
                return Some(Move::Become(a));
            }
            if may_pass(entries, number, next) {
                return Some(Move::Pass);
            }
            None
        }
        Rule::Star(a) => {
            if is_begun(entries, a, next) {
                return Some(Move::Both(a, number));
            }
            if may_pass(entries, number, next) {
                return Some(Move::Pass);
            }
            None
        }
    }
}

/// What to do where a rule is expected. Nothing where the next token does not fit.
pub(crate) fn choose(entries: &[Entry], number: usize, next: Option<u16>) -> Option<Move>
    ensures { result ≡ move_of entries.now number next }
{
    match entries.get(number) {
        None => None,
        Some(entry) => choose_in(entries, number, entry.rule, next),
    }
}
