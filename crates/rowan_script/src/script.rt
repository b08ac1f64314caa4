//! Scripts: builder calls as values and their replay on a builder, steps through a tree as values
//! and their trace, sessions of both, and the elements of a tree by their places.
mod answers;
mod calls;
mod places;
mod sessions;
mod steps;
mod traces;

ghost use Rattle.std.specs.Prelude.{◌≡◌, IfOk, IfErr, OnErr};
ghost use Rattle.rowan_builder.specs.Loan.{value_of, word_of, loan_of};
ghost use Rattle.rowan_builder.specs.Stream.{BuildsOn};
ghost use Rattle.rowan_script.specs.Rewriting.{Rewrites};
ghost use Rattle.rowan_script.specs.Run.{Advances, Run};

pub use answers::Session;
pub use calls::{Call, Outcome};
pub use places::element_at;
use rowan_builder::builder::{CacheHome, Checkpoint, GreenNodeBuilder};
use rowan_green::fault::Fault;
pub use sessions::session;
use std::alloc::Global;
pub use steps::{Report, Step};
pub use traces::trace;

/// Makes the calls on the builder, in order, and gives the outcome of each. A refused call leaves
/// the builder as it was and ends nothing: the next call is made.
///
/// A mark that was taken has the next number, from 0, in this replay alone. A wrap at a mark that
/// was not taken yet is refused with `UnknownMark`.
///
/// The room for the outcomes and the marks is asked for first. Where there is none, the answer is
/// `Memory` and no call was made. It is not refused for another cause.
///
/// ```rust
/// let name = Call::Token(SyntaxKind(1), String::from(alloc, "f")?);
/// let wrap = Call::StartNodeAt(0, SyntaxKind(0));
/// let calls = vec![in alloc; Call::Mark, name, wrap, Call::FinishNode]?;
/// let mut builder = GreenNodeBuilder::new(alloc);
/// let outcomes = replay(alloc, &mut builder, calls.as_slice())?;
/// // The outcomes are `Marked`, and `Accepted` three times. The builder holds a node of kind 0
/// // around the token.
/// ```
pub fn replay<H: CacheHome>(
    alloc: Global,
    builder: &mut GreenNodeBuilder<'_, H>,
    calls: &[Call],
) -> Result<Vec<Outcome>, Fault>
    ensures ok { IfOk result (λ outcomes.
        Rewrites (word_of builder.old) calls.now outcomes.items (word_of builder.new)) }
    ensures err { IfErr result (λ e. e ≡ Fault.Memory) }
    ensures unchanged { OnErr result (value_of builder.new ≡ value_of builder.old) }

    // The builder's cache.
    ensures run { IfOk result (λ outcomes.
        Run (value_of builder.old) calls.now outcomes.items (value_of builder.new)) }
    ensures stream { BuildsOn (value_of builder.old) (value_of builder.new) }
    ensures loan { loan_of builder.new ≡ loan_of builder.old }
{
    let mut outcomes = Vec::with_capacity(alloc, calls.len())?;
    let mut marks = Vec::with_capacity(alloc, calls.len())?;
    for call in calls {
        let outcome = make_call(builder, marks.as_slice(), call);
        if let Outcome::Marked(checkpoint) = outcome {
            marks.push_reserved(checkpoint);
        }
        outcomes.push_reserved(outcome);
    }
    Ok(outcomes)
}

// Makes one call, where these marks were taken before.
fn make_call<H: CacheHome>(
    builder: &mut GreenNodeBuilder<'_, H>,
    marks: &[Checkpoint],
    call: &Call,
) -> Outcome
    ensures advances { Advances marks.now (value_of builder.old) call.now result
        (value_of builder.new) }
    ensures loan { loan_of builder.new ≡ loan_of builder.old }
{
    match call {
        Call::Token(kind, text) => Outcome::from(builder.token(*kind, text)),
        Call::StartNode(kind) => Outcome::from(builder.start_node(*kind)),
        Call::FinishNode => Outcome::from(builder.finish_node()),
        Call::Mark => Outcome::Marked(builder.checkpoint()),
        Call::StartNodeAt(mark, kind) => match marks.get(*mark) {
            Some(checkpoint) => Outcome::from(builder.start_node_at(*checkpoint, *kind)),
            None => Outcome::Refused(Fault::UnknownMark),
        },
        Call::StartNodeAtCheckpoint(checkpoint, kind) => {
            Outcome::from(builder.start_node_at(*checkpoint, *kind))
        }
    }
}
