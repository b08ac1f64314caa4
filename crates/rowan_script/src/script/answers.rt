//! What a session answers.
use crate::script::calls::Outcome;
use crate::script::steps::Report;
use rowan_cursor::cursor::SyntaxNode;
use rowan_green::fault::Fault;

/// What a session answers.
#[derive(PartialEq, Eq, Debug, Drop)]
pub struct Session {
    /// The outcome of each call.
    pub outcomes: Vec<Outcome>,
    /// The root of the tree and the report of each step; or why there is no tree, or no memory for
    /// these.
    pub end: Result<(SyntaxNode, Vec<Report>), Fault>,
}
