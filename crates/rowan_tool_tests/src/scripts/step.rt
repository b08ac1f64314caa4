//! The calls of a run, as the tests write them.
use rowan::script::Call;
use rowan::{Checkpoint, Fault, GreenNodeBuilder, SyntaxKind};
use std::alloc::{AllocError, Global};

/// A call of a builder, as a constant can hold it. Marks are numbered from 0.
#[derive(Clone, Copy)]
pub enum Step {
    Token(u16, &'static str),
    Start(u16),
    Finish,
    Mark,
    StartAtMark(usize, u16),
}

/// The checkpoint of another builder that holds so many elements.
pub fn checkpoint(alloc: Global, count: usize) -> Result<Checkpoint, Fault> {
    let mut other = GreenNodeBuilder::new(alloc);
    for _element in 0..count {
        other.token(SyntaxKind(0), "")?;
    }
    Ok(other.checkpoint())
}

/// The call of a builder.
pub fn call(alloc: Global, step: Step) -> Result<Call, AllocError> {
    match step {
        Step::Token(kind, text) => {
            let text = String::from_str(alloc, text)?;
            Ok(Call::Token(SyntaxKind(kind), text))
        }
        Step::Start(kind) => Ok(Call::StartNode(SyntaxKind(kind))),
        Step::Finish => Ok(Call::FinishNode),
        Step::Mark => Ok(Call::Mark),
        Step::StartAtMark(mark, kind) => Ok(Call::StartNodeAt(mark, SyntaxKind(kind))),
    }
}
