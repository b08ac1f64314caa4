//! The calls of a script, and their outcomes.
use rowan_builder::builder::Checkpoint;
use rowan_green::fault::Fault;
use rowan_green::green::SyntaxKind;

/// A call of a builder, as a value. Each but `Mark` may be refused with `Memory`, too.
#[derive(PartialEq, Eq, Debug, Drop)]
pub enum Call {
    /// Adds a token. Refused with `TextTooLong` for a text of more than 4,294,967,295 bytes.
    Token(SyntaxKind, String),
    /// Opens a node.
    StartNode(SyntaxKind),
    /// Closes the innermost open node. Refused with `NothingOpen` where none is open, and with
    /// `TooManyChildren` or `TextTooLong` where the node would pass a limit.
    FinishNode,
    /// Takes a checkpoint, which is the next mark. Never refused.
    Mark,
    /// Opens a node at a mark of the script, which are numbered from 0. Refused with `UnknownMark`
    /// where the mark was not taken yet, and else as `StartNodeAtCheckpoint`.
    StartNodeAt(usize, SyntaxKind),
    /// Opens a node at a checkpoint from anywhere. Refused with `CheckpointPast` where the builder
    /// holds fewer finished elements than the checkpoint says, and with `CheckpointBefore` where
    /// the innermost open node was opened behind it.
    StartNodeAtCheckpoint(Checkpoint, SyntaxKind),
}

/// What became of a call.
#[derive(Clone, Copy, PartialEq, Eq, Debug)]
pub enum Outcome {
    /// The builder made the call.
    Accepted,
    /// The checkpoint that `Mark` took.
    Marked(Checkpoint),
    /// The call was refused, and the builder is as it was.
    Refused(Fault),
}

impl From<Result<(), Fault>> for Outcome {
    ghost use Rattle.std.specs.Prelude.{◌≡◌};
    ghost use Rattle.rowan_script.specs.Outcome.{outcome_of};

    ghost from_gives = { λ made outcome. outcome ≡ outcome_of made };

    fn from(made: Result<(), Fault>) -> Outcome {
        match made {
            Ok(()) => Outcome::Accepted,
            Err(fault) => Outcome::Refused(fault),
        }
    }
}
