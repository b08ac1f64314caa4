//! Green tokens.
use crate::green::fixture::{displays, token};
use crate::green::utility_types::debugs;
use rowan_green::{Fault, GreenToken, SyntaxKind};
use std::alloc::Global;

/// Texts with their lengths in bytes.
const TEXTS: [(&str, u32); 4] = [("", 0), ("let", 3), ("é日本", 8), (" \n", 2)];

/// Whether a token of this text says and displays it, with its kind and this length.
fn is_shown(alloc: Global, text: &str, len: u32) -> Result<bool, Fault> {
    let token = GreenToken::new(alloc, SyntaxKind(7), text)?;
    let is_it = token.kind() == SyntaxKind(7)
        && token.text() == text
        && u32::from(token.text_len()) == len;
    Ok(is_it && displays(alloc, &token, text) == Ok(true))
}

#[test]
fn tokens_have_their_kind_and_text(rt: HostRuntime) {
    for (text, len) in TEXTS {
        assert!(rt; is_shown(rt.alloc(), text, len) == Ok(true));
    }
}

#[test]
fn token_shows_its_fields(rt: HostRuntime) -> Result<(), Fault> {
    let token = token(rt.alloc(), 7, "let")?;
    let shown = "GreenToken { kind: SyntaxKind(7), text: \"let\" }";
    assert!(rt; debugs(rt.alloc(), &token, shown) == Ok(true));
    Ok(())
}
