//! Lines with borrowed elements.

use crate::operand;
use rowan::NodeOrToken;
use rowan::cursor::{ElementRefCalls, SyntaxElementRef};
use std::alloc::{AllocError, Global};

/// The line of a call that has no such place, or found nothing.
pub fn nowhere(alloc: Global) -> Result<String, AllocError> {
    String::from_str(alloc, "Nowhere")
}

/// The line that says where a call led.
pub fn moved(alloc: Global, found: Option<SyntaxElementRef<'_>>) -> Result<String, AllocError> {
    let Some(element) = found else {
        return nowhere(alloc);
    };
    let mut text = String::new(alloc);
    push(alloc, &mut text, "Moved ", element)?;
    Ok(text)
}

/// Writes an element behind a word: a node or a token, its raw kind, its range, its index among all
/// children, and the text of a token.
pub fn push(
    alloc: Global,
    text: &mut String,
    word: &str,
    element: SyntaxElementRef<'_>,
) -> Result<(), AllocError> {
    text.push_str(word)?;
    let (kind, range, index) = (element.kind().0, element.text_range(), element.index());
    let written = match element {
        NodeOrToken::Node(_) => format!(in alloc; "node {kind} {range:?} {index}")?,
        NodeOrToken::Token(token) => {
            let quoted = operand::quote(alloc, token.text())?;
            format!(in alloc; "token {kind} {range:?} {index} {quoted}")?
        }
    };
    text.push_str(written.as_str())
}
