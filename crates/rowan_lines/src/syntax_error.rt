//! What a grammar complained of.
use rowan_green::TextRange;

/// A message, and where it stands: the range of the token of which the grammar complained, or an
/// empty range at the end of the text.
#[derive(Drop)]
pub struct SyntaxError {
    pub message: String,
    pub range: TextRange,
}
