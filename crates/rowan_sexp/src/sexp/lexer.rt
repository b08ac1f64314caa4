//! The lexer of s-expressions.
ghost use Rattle.std.specs.Prelude.{◌≡◌, IfOk, IfErr, IfSome, MatchOption, take, drop, []};
ghost use Rattle.std.specs.Char.{is_not_whitespace};
ghost use Rattle.std.specs.Str.{IsCharBoundary, IsUtf8, NoCharPasses};
ghost use Rattle.rowan_sexp.specs.Sexp.{IsLexed, IsCut, BeginsWith, IsStopped, is_delimiter};

use crate::sexp::lang::SyntaxKind;
use rowan::Fault;
use std::alloc::Global;

/// The kind of a token and its text, a slice of the text that was lexed.
pub type Token<'a> = (SyntaxKind, &'a str);

/// Cuts a text into its tokens, in order.
///
/// A `(` and a `)` are tokens of their own. A longest run of white space, in the sense of
/// `char::is_whitespace`, is one token, and so is a longest run of other characters.
///
/// Fails with [`Fault::Memory`] alone, where there is no memory for the list.
pub fn lex(alloc: Global, text: &str) -> Result<Vec<Token<'_>>, Fault>
    ensures lexed { IfOk result (λ tokens. IsLexed text.now tokens.items) }
    ensures memory { IfErr result (λ fault. fault ≡ Fault.Memory) }
{
    let mut tokens = Vec::new(alloc);
    let mut rest = text;
    while let Some((token, others)) = split_token(rest) {
        tokens.push(token)?;
        rest = others;
    }
    Ok(tokens)
}

/// The first token of a text and the rest of the text, unless the text is empty.
pub(super) fn split_token(text: &str) -> Option<(Token<'_>, &str)>
    ensures cut { MatchOption result (text.now ≡ []) (λ split. IsCut text.now split.0 split.1.now) }
    ensures text { IfSome result (λ split. IsUtf8 split.1.now) }
{
    let (kind, len) = first_token(text)?;
    let (token, rest) = text.split_at(len);
    Some(((kind, token), rest))
}

/// The kind of the first token of a text and its length in bytes, unless the text is empty.
fn first_token(text: &str) -> Option<(SyntaxKind, usize)>
    ensures { MatchOption result (text.now ≡ []) (λ first. BeginsWith text.now first.0 first.1) }
{
    match text.chars().next()? {
        '(' => Some((SyntaxKind::L_PAREN, 1)),
        ')' => Some((SyntaxKind::R_PAREN, 1)),
        first if first.is_whitespace() => Some((SyntaxKind::WHITESPACE, whitespace_len(text))),
        _ => Some((SyntaxKind::WORD, word_len(text))),
    }
}

/// How many bytes of white space a text begins with.
fn whitespace_len(text: &str) -> usize
    ensures border { IsCharBoundary text.now result }
    ensures run { NoCharPasses is_not_whitespace (take result text.now) }
    ensures longest { IsStopped is_not_whitespace (drop result text.now) }
{
    match text.find(|c: char| !c.is_whitespace()) {
        Some(len) => len,
        None => text.len(),
    }
}

/// How many bytes of a word a text begins with.
fn word_len(text: &str) -> usize
    ensures border { IsCharBoundary text.now result }
    ensures run { NoCharPasses is_delimiter (take result text.now) }
    ensures longest { IsStopped is_delimiter (drop result text.now) }
{
    match text.find(is_delimiter) {
        Some(len) => len,
        None => text.len(),
    }
}

/// Whether a character ends a word.
fn is_delimiter(c: char) -> bool
    ensures { result ≡ is_delimiter c }
{
    c == '(' || c == ')' || c.is_whitespace()
}
