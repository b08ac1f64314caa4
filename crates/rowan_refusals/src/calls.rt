//! Calls of a builder, as values.

use rowan::builder::CacheHome;
use rowan::script::{self, Outcome, replay};
use rowan::{Checkpoint, Fault, GreenNode, GreenNodeBuilder, SyntaxKind};
use std::alloc::Global;
use std::fmt::{self, Display};

/// A call of a builder.
#[derive(Clone, Copy)]
pub enum Call {
    /// Adds a token of a kind and a text.
    Token(u16, &'static str),
    /// Opens a node of a kind.
    Start(u16),
    /// Closes the innermost open node.
    Finish,
    /// Takes a checkpoint.
    Mark,
    /// Opens a node at a checkpoint that was taken.
    StartAtMark(usize, u16),
}

use Call::{Finish, Mark, Start, StartAtMark, Token};

/// How a call is made.
#[derive(Clone, Copy)]
pub enum Way {
    /// By the method of the builder.
    Method,
    /// As a script of this one call.
    Replay,
}

impl Display for Call {
    fn fmt<W: fmt::Write>(&self, f: &mut fmt::Formatter<W>) -> fmt::Result {
        match self {
            Token(kind, text) => write!(f, "token {kind} {text:?}"),
            Start(kind) => write!(f, "start_node {kind}"),
            Finish => f.write_str("finish_node"),
            Mark => f.write_str("checkpoint"),
            StartAtMark(mark, kind) => write!(f, "start_node_at {mark} {kind}"),
        }
    }
}

impl Call {
    /// Makes the call.
    pub fn make<H: CacheHome>(
        self,
        builder: &mut GreenNodeBuilder<'_, H>,
        marks: &mut Vec<Checkpoint>,
    ) -> Result<(), Fault> {
        match self {
            Token(kind, text) => builder.token(SyntaxKind(kind), text),
            Start(kind) => builder.start_node(SyntaxKind(kind)),
            Finish => builder.finish_node(),
            Mark => Ok(marks.push(builder.checkpoint())?),
            StartAtMark(mark, kind) => match marks.get(mark) {
                Some(mark) => builder.start_node_at(*mark, SyntaxKind(kind)),
                None => Err(Fault::UnknownMark),
            },
        }
    }

    /// Makes the call, and says what became of it.
    pub fn outcome<H: CacheHome>(
        self,
        builder: &mut GreenNodeBuilder<'_, H>,
        marks: &mut Vec<Checkpoint>,
    ) -> Outcome {
        match (self, self.make(builder, marks)) {
            (Mark, Ok(())) => Outcome::Marked(builder.checkpoint()),
            (_, made) => Outcome::from(made),
        }
    }

    /// Makes the call by a script, which has this one call.
    pub fn replay<H: CacheHome>(
        self,
        alloc: Global,
        builder: &mut GreenNodeBuilder<'_, H>,
        marks: &mut Vec<Checkpoint>,
    ) -> Result<(), Fault> {
        let script = vec![in alloc; self.as_script_call(alloc, marks.as_slice())?]?;
        for outcome in replay(alloc, builder, script.as_slice())? {
            match outcome {
                Outcome::Accepted => (),
                Outcome::Marked(mark) => marks.push(mark)?,
                Outcome::Refused(fault) => return Err(fault),
            }
        }
        Ok(())
    }

    /// The call of a script, which numbers its own marks: so one that was taken before stands there
    /// as a checkpoint.
    fn as_script_call(self, alloc: Global, marks: &[Checkpoint]) -> Result<script::Call, Fault> {
        Ok(match self {
            Token(kind, text) => {
                script::Call::Token(SyntaxKind(kind), String::from_str(alloc, text)?)
            }
            Start(kind) => script::Call::StartNode(SyntaxKind(kind)),
            Finish => script::Call::FinishNode,
            Mark => script::Call::Mark,
            StartAtMark(mark, kind) => match marks.get(mark) {
                Some(mark) => script::Call::StartNodeAtCheckpoint(*mark, SyntaxKind(kind)),
                None => return Err(Fault::UnknownMark),
            },
        })
    }
}

/// The calls as one script.
pub fn script_of(alloc: Global, calls: &[Call]) -> Result<Vec<script::Call>, Fault> {
    let mut script = Vec::new(alloc);
    for call in calls {
        script.push(match call {
            StartAtMark(mark, kind) => script::Call::StartNodeAt(*mark, SyntaxKind(*kind)),
            _ => call.as_script_call(alloc, &[])?,
        })?;
    }
    Ok(script)
}

/// The tree that the calls build.
pub fn tree_of(alloc: Global, calls: &[Call]) -> Result<GreenNode, Fault> {
    let mut builder = GreenNodeBuilder::new(alloc);
    let mut marks = Vec::new(alloc);
    for call in calls {
        call.make(&mut builder, &mut marks)?;
    }
    match builder.finish() {
        Ok(tree) => Ok(tree),
        Err(unfinished) => Err(unfinished.fault()),
    }
}
