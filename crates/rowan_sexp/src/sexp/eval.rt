//! The evaluation of s-expressions.
ghost use Rattle.std.specs.Prelude.{◌≡◌, IfOk, IfErr};
ghost use Rattle.std.specs.Option.{option_map};
ghost use Rattle.rowan_sexp.specs.Eval.{number_in, operator_in, result_of, atom_text_at};
ghost use Rattle.rowan_sexp.specs.Eval.{operator_at, value_at};
ghost use Rattle.rowan_sexp.specs.Operation.{IsOperationOf};
ghost use Rattle.rowan_sexp.specs.Wrappers.{node_in};

use crate::sexp::ast::{Atom, List, Sexp};
use crate::sexp::lang::{Lang, SyntaxKind};
use rowan::ast::AstNode;
use rowan::{Fault, NodeOrToken, SyntaxNode};

/// What a list does with two numbers.
#[derive(Clone, Copy, PartialEq, Eq, Debug)]
pub(super) enum Operator {
    /// `+`
    Add,
    /// `-`
    Sub,
    /// `*`
    Mul,
    /// `/`
    Div,
}

impl Operator {
    /// The operator that a text is.
    fn from_text(text: &str) -> Option<Operator>
        ensures { result ≡ operator_in text.now }
    {
        match text {
            "+" => Some(Operator::Add),
            "-" => Some(Operator::Sub),
            "*" => Some(Operator::Mul),
            "/" => Some(Operator::Div),
            _ => None,
        }
    }

    /// What it gives for two numbers; none where that has more than 64 bits, or the divisor is 0.
    fn apply(self, left: i64, right: i64) -> Option<i64>
        ensures { result ≡ result_of self left right }
    {
        match self {
            Operator::Add => left.checked_add(right),
            Operator::Sub => left.checked_sub(right),
            Operator::Mul => left.checked_mul(right),
            Operator::Div => left.checked_div(right),
        }
    }
}

/// What a list computes: an operator, and the expressions that read its numbers.
#[derive(Drop)]
pub(super) struct Operation {
    operator: Operator,
    left: Sexp,
    right: Sexp,
}

impl Sexp {
    /// The number that the expression reads, as [`Atom::eval`] and [`List::eval`] say, or `None`
    /// where it reads none.
    #[cycle(eval)]
    pub fn eval(&self) -> Result<Option<i64>, Fault>
        ensures ok { IfOk result (λ value. value ≡ value_at (node_in self.now)) }
        ensures err { IfErr result (λ e. e ≡ Fault.Memory) }
    {
        match self {
            Sexp::Atom(atom) => atom.eval(),
            Sexp::List(list) => list.eval(),
        }
    }
}

impl Atom {
    /// The number that the atom's word writes: a sign or none, and then ASCII digits alone. `None`
    /// where it writes none, or one past 64 bits with a sign.
    pub fn eval(&self) -> Result<Option<i64>, Fault>
        ensures ok { IfOk result (λ value. value ≡ value_at self.now) }
        ensures err { IfErr result (λ e. e ≡ Fault.Memory) }
    {
        let Some(word) = text_of(self.syntax()) else {
            return Ok(None);
        };
        Ok(number_in(word))
    }
}

/// The number that a text writes.
fn number_in(text: &str) -> Option<i64>
    ensures { result ≡ number_in text.now }
{
    text.parse().ok()
}

impl List {
    /// What the list's operator gives for its two numbers. The first expression is an atom with the
    /// operator, `+`, `-`, `*` or `/`, and the second and third read the numbers, which may be
    /// lists again; further ones are not looked at. `None` where one of these is missing or reads
    /// no number, where the divisor is 0, and where the result is past 64 bits with a sign. A
    /// quotient is cut towards zero.
    ///
    /// It calls itself for the lists in the second and third place: two calls deep for each level
    /// at which lists are nested there. So the stack bounds how deep they may be.
    #[cycle(eval)]
    pub fn eval(&self) -> Result<Option<i64>, Fault>
        ensures ok { IfOk result (λ value. value ≡ value_at self.now) }
        ensures err { IfErr result (λ e. e ≡ Fault.Memory) }
    {
        let Some(operation) = self.operation()? else {
            return Ok(None);
        };
        let Some(left) = operation.left.eval()? else {
            return Ok(None);
        };
        let Some(right) = operation.right.eval()? else {
            return Ok(None);
        };
        Ok(operation.operator.apply(left, right))
    }

    /// What the list computes, if its first three expressions are there and the first is an
    /// operator.
    fn operation(&self) -> Result<Option<Operation>, Fault>
        ensures ok { IfOk result (IsOperationOf self.now) }
        ensures err { IfErr result (λ e. e ≡ Fault.Memory) }
    {
        let mut sexps = self.sexps();
        let Some(first) = sexps.next() else {
            return Ok(None);
        };
        let Some(operator) = operator_of(&first?) else {
            return Ok(None);
        };
        let Some(left) = sexps.next() else {
            return Ok(None);
        };
        let left = left?;
        let Some(right) = sexps.next() else {
            return Ok(None);
        };
        let right = right?;
        Ok(Some(Operation {
            operator,
            left,
            right,
        }))
    }
}

/// The operator that an expression is.
fn operator_of(sexp: &Sexp) -> Option<Operator>
    ensures { result ≡ operator_at (node_in sexp.now) }
{
    match sexp.syntax().kind() {
        SyntaxKind::ATOM => Operator::from_text(text_of(sexp.syntax())?),
        _ => None,
    }
}

/// The text of an atom: that of its first child, if this is a token.
fn text_of(atom: &SyntaxNode<Lang>) -> Option<&str>
    ensures { option_map (λ text. text.now) result ≡ atom_text_at atom.now }
{
    let Some((_, child)) = atom.green().child_ref(0) else {
        return None;
    };
    match child {
        NodeOrToken::Token(token) => Some(token.text()),
        NodeOrToken::Node(_) => None,
    }
}
