//! Lists of calls and of steps, as values.
ghost use Rattle.std.specs.Prelude.{[], IfOk};
ghost use Rattle.rowan.specs.Moves.{cursor_at};
ghost use Rattle.rowan.specs.Types.NodeOrToken.TheVariants.{Node};
ghost use Rattle.rowan.specs.Loan.{value_of};
ghost use Rattle.rowan.specs.Run.{Run};
ghost use Rattle.rowan.specs.Trace.{Trace};

use rowan::script::{Call, Outcome, Report, Step, replay, trace};
use rowan::{Fault, GreenNode, GreenNodeBuilder, OwnedCache, cursor};
use std::alloc::Global;

/// Makes calls on a builder.
pub fn make_calls(
    alloc: Global,
    builder: &mut GreenNodeBuilder<'_, OwnedCache>,
    calls: &[Call],
) -> Result<Vec<Outcome>, Fault>
    ensures { IfOk result (λ outcomes.
        Run (value_of builder.old) calls.now outcomes.items (value_of builder.new)) }
{
    replay(alloc, builder, calls)
}

/// Makes steps from the root of a tree.
pub fn make_steps(alloc: Global, tree: GreenNode, steps: &[Step]) -> Result<Vec<Report>, Fault>
    ensures { IfOk result (λ reports.
        Trace (Node (cursor_at tree [])) steps.now reports.items) }
{
    let root = cursor::SyntaxNode::new_root(alloc, tree)?;
    trace(alloc, &root, steps)
}
