//! What a grammar did, in order.
use rowan::SyntaxKind;

/// One step of a grammar. The numbers of nodes are distances: so many events further on stands the
/// one of the node around this one, and 0 says that there is none.
#[derive(Clone, Copy)]
pub enum Event {
    /// A node of this kind begins, and before it the nodes around it, the outermost first.
    Open(SyntaxKind, u32),
    /// A node of this kind, which begins at an earlier `Open`.
    Around(SyntaxKind, u32),
    /// The innermost node ends.
    Close,
    /// The next token that is no trivia.
    Token,
    /// The next so many tokens that are no trivia, with what stands between them, as one leaf of
    /// this kind.
    Joined(SyntaxKind, u32),
    /// Nothing, as of a marker that was abandoned.
    Nothing,
}
