//! Sessions: calls of a builder, and then steps through the tree that they build.
ghost use Rattle.std.specs.Prelude.{◌≡◌, [], IfOk, IfErr, OnErr};
ghost use Rattle.rowan_green.specs.declared.utility_types.NodeOrToken.TheVariants.{Node};
ghost use Rattle.rowan_builder.specs.Loan.{value_of, cache_of, loan_of};
ghost use Rattle.rowan_script.specs.Session.{Plays, IsSession};
ghost use Rattle.rowan_script.specs.Trace.{Trace};

use crate::script::answers::Session;
use crate::script::calls::Call;
use crate::script::replay;
use crate::script::steps::{Report, Step};
use crate::script::traces::trace;
use rowan_builder::builder::{CacheHome, GreenNodeBuilder};
use rowan_cursor::cursor::SyntaxNode;
use rowan_green::fault::Fault;
use rowan_green::green::GreenNode;
use std::alloc::Global;

/// Makes the calls on a builder, as `replay` does, finishes its tree, and makes the steps from the
/// root of that, as `trace` does. The builder is spent in any case: a cache that was lent goes
/// back, with what the calls left in it.
///
/// Refused with `Memory` where `replay` is, and then no call was made. All else that is refused
/// stands in the session: what the calls and the steps were refused, and that there is no tree or
/// no memory for its cursor and the reports.
pub fn session<H: CacheHome>(
    alloc: Global,
    builder: GreenNodeBuilder<'_, H>,
    calls: &[Call],
    steps: &[Step],
) -> Result<Session, Fault>
    ensures ok { IfOk result (λ session. IsSession H.receives (value_of builder.entry) calls.now
        steps.now session builder.exit.0.now) }
    ensures err { IfErr result (λ e. e ≡ Fault.Memory) }
    ensures unchanged { OnErr result (H.receives builder.exit.0.now (cache_of builder.entry)) }
{
    builder.with(|builder| play(alloc, builder, calls, steps))
}

// Makes the calls, and then the steps from the root of the tree that the builder then has.
fn play<H: CacheHome>(
    alloc: Global,
    builder: &mut GreenNodeBuilder<'_, H>,
    calls: &[Call],
    steps: &[Step],
) -> Result<Session, Fault>
    ensures ok { IfOk result (λ session.
        Plays (value_of builder.old) calls.now steps.now session (value_of builder.new)) }
    ensures err { IfErr result (λ e. e ≡ Fault.Memory) }
    ensures unchanged { OnErr result (value_of builder.new ≡ value_of builder.old) }
    ensures loan { loan_of builder.new ≡ loan_of builder.old }
{
    let outcomes = replay(alloc, builder, calls)?;
    let end = match builder.tree() {
        Ok(tree) => walk(alloc, tree, steps),
        Err(fault) => Err(fault),
    };
    Ok(Session { outcomes, end })
}

// The root of a tree, and the reports of the steps from there.
fn walk(alloc: Global, tree: &GreenNode, steps: &[Step]) -> Result<(SyntaxNode, Vec<Report>), Fault>
    ensures root { IfOk result (λ end. end.0 ≡ record { root = tree.now; path = [] }) }
    ensures trace { IfOk result (λ end. Trace (Node end.0) steps.now end.1.items) }
    ensures err { IfErr result (λ e. e ≡ Fault.Memory) }
{
    let root = SyntaxNode::new_root(alloc, tree.clone()?)?;
    let reports = trace(alloc, &root, steps)?;
    Ok((root, reports))
}
