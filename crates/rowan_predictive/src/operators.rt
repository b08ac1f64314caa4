//! Chains of operators among rules.
ghost use Rattle.std.specs.Prelude.{ℕ, IfSome, IsNone};
ghost use Rattle.rowan_predictive.specs.declared.rules.Rule.TheVariants.{Chain, Wrap, Seq, Star};
ghost use Rattle.rowan_predictive.specs.Binary.{HasBinary, DerivesBinary};
ghost use Rattle.rowan_predictive.specs.Derivations.{HasRule};

use crate::rules::Rule;

/// An operand, and for each operator and operand behind it a node of this kind around all so far.
#[derive(Clone, Copy)]
pub struct Operators {
    pub kind: u16,
    pub operand: usize,
    pub operator: usize,
}

fn chain_at(rules: &[Rule], number: usize) -> Option<usize>
    ensures some { IfSome result (λ a. HasRule rules.now number (Chain a)) }
    ensures none { IsNone result → (a : ℕ) → HasRule rules.now number (Chain a) → ⊥ }
{
    match rules.get(number) {
        Some(Rule::Chain(inner)) => Some(*inner),
        _ => None,
    }
}

fn star_at(rules: &[Rule], number: usize) -> Option<usize>
    ensures some { IfSome result (λ a. HasRule rules.now number (Star a)) }
    ensures none { IsNone result → (a : ℕ) → HasRule rules.now number (Star a) → ⊥ }
{
    match rules.get(number) {
        Some(Rule::Star(inner)) => Some(*inner),
        _ => None,
    }
}

fn seq_at(rules: &[Rule], number: usize) -> Option<(usize, usize)>
    ensures some { IfSome result (λ p. HasRule rules.now number (Seq p.0 p.1)) }
    ensures none { IsNone result → (a b : ℕ) → HasRule rules.now number (Seq a b) → ⊥ }
{
    match rules.get(number) {
        Some(Rule::Seq(first, second)) => Some((*first, *second)),
        _ => None,
    }
}

fn wrap_at(rules: &[Rule], number: usize) -> Option<(u16, usize)>
    ensures some { IfSome result (λ p. HasRule rules.now number (Wrap p.0 p.1)) }
    ensures none { IsNone result → (k a : ℕ) → HasRule rules.now number (Wrap k a) → ⊥ }
{
    match rules.get(number) {
        Some(Rule::Wrap(kind, inner)) => Some((*kind, *inner)),
        _ => None,
    }
}

/// The chain of operators that a rule is, if it is one: five rules, as `Chain(s)`, `Seq(a, r)`,
/// `Star(w)`, `Wrap(kind, p)` and `Seq(op, a)`. It derives `a`, `a op a`, `a op a op a` and so on,
/// and the trees of these lean to the left.
pub fn operators_at(rules: &[Rule], number: usize) -> Option<Operators>
    ensures some { IfSome result (λ o.
        DerivesBinary rules.now number o.kind o.operand o.operator) }
    ensures none { IsNone result → (kind operand operator : ℕ)
        → HasBinary rules.now number kind operand operator → ⊥ }
{
    let whole = chain_at(rules, number)?;
    let parts = seq_at(rules, whole)?;
    let step = star_at(rules, parts.1)?;
    let wrap = wrap_at(rules, step)?;
    let pair = seq_at(rules, wrap.1)?;
    if pair.1 != parts.0 {
        return None;
    }
    Some(Operators {
        kind: wrap.0,
        operand: parts.0,
        operator: pair.0,
    })
}
