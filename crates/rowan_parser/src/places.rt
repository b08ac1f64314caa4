//! What stands where in a text: the errors of a lexer, and the tokens that are no trivia.
ghost use Rattle.std.specs.Prelude.{◌≡◌, ◌+◌, ◌≤◌, ◌++◌, ◌∷◌, [], length, map, cond, All};
ghost use Rattle.std.specs.Prelude.{IfOk, IfErr, OnOk};
ghost use Rattle.rowan_green.specs.Fits.{byte_limit};
ghost use Rattle.rowan_parser.specs.Parsing.{ranges_from, empty_at, end_behind, nth_range};
ghost use Rattle.rowan_parser.specs.Parsing.{error_value, lexer_error};
ghost use Rattle.rowan_events.specs.Tokens.{tokens_text, lies_within};

use crate::tree::{Trivia, is_trivia};
use rowan::{Fault, TextRange, TextSize};
use rowan_events::lexer::{LexError, Token};
use rowan_lines::SyntaxError;
use std::alloc::Global;

/// What a lexer complained of, as errors of a parse, in the same order.
///
/// Errors: `Memory` if an allocation failed.
pub fn lexer_errors(alloc: Global, complained: &[LexError]) -> Result<Vec<SyntaxError>, Fault>
    requires { All (lies_within byte_limit) complained.now }
    ensures told { IfOk result (λ errors.
        map error_value errors.items ≡ map lexer_error complained.now) }
    ensures err { IfErr result (λ e. e ≡ Fault.Memory) }
{
    let mut errors = Vec::new(alloc);
    for error in complained {
        errors.push(told_error(alloc, error)?)?;
    }
    Ok(errors)
}

fn told_error(alloc: Global, error: &LexError) -> Result<SyntaxError, Fault>
    requires { lies_within byte_limit error.now }
    ensures ok { IfOk result (λ e. error_value e ≡ lexer_error error.now) }
    ensures err { IfErr result (λ e. e ≡ Fault.Memory) }
{
    let message = String::from_str(alloc, error.message)?;
    let start = TextSize::from(error.range.start as u32);
    let end = TextSize::from(error.range.end as u32);
    Ok(SyntaxError {
        message,
        range: TextRange::new(start, end),
    })
}

/// The ranges of the tokens that are no trivia. The first token starts at 0, and each other one
/// where the one before it ends.
///
/// Errors: `Memory` if an allocation failed.
pub fn token_ranges(
    alloc: Global,
    tokens: &[Token<'_>],
    trivia: Trivia<'_>,
) -> Result<Vec<TextRange>, Fault>
    requires { length (tokens_text tokens.now) ≤ byte_limit }
    ensures ranges { IfOk result (λ ranges. ranges.items ≡ ranges_from 0 trivia.entry tokens.now) }
    ensures err { IfErr result (λ e. e ≡ Fault.Memory) }
{
    let mut ranges = Vec::new(alloc);
    let mut end = 0u32;
    for token in tokens {
        let start = end;
        end += token.text.len() as u32;
        let range = TextRange::new(TextSize::from(start), TextSize::from(end));
        push_range(&mut ranges, range, is_trivia(trivia, token))?;
    }
    Ok(ranges)
}

/// Puts the range of a token behind the others, unless the token is trivia.
#[inline(always)]
fn push_range(ranges: &mut Vec<TextRange>, range: TextRange, is_trivia: bool) -> Result<(), Fault>
    ensures ranges { OnOk result (ranges.new.items
        ≡ ranges.old.items ++ cond is_trivia [] (range ∷ [])) }
    ensures err { IfErr result (λ e. e ≡ Fault.Memory) }
{
    if !is_trivia {
        ranges.push(range)?;
    }
    Ok(())
}

/// One of the ranges, or the empty one behind the last where there are fewer.
pub fn nth_range(ranges: &[TextRange], n: usize) -> TextRange
    ensures { result ≡ nth_range ranges.now n }
{
    match ranges.get(n) {
        Some(range) => *range,
        None => empty_at(end_behind(ranges, n)),
    }
}

pub(crate) fn empty_at(offset: TextSize) -> TextRange
    ensures { result ≡ empty_at offset }
{
    TextRange::new(offset, offset)
}

/// Where the first so many ranges end, or all of them where they are fewer.
pub(crate) fn end_behind(ranges: &[TextRange], n: usize) -> TextSize
    ensures { result ≡ end_behind ranges.now n }
{
    match n.min(ranges.len()).checked_sub(1) {
        Some(last) => ranges[last].end(),
        None => TextSize::from(0),
    }
}
