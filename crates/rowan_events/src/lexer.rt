//! The tokens of a text, cut as a lexer says.
ghost use Rattle.std.specs.Prelude.{◌≡◌, ℕ, ◌<◌, ◌≤◌, ◌++◌, List, length, All, None};
ghost use Rattle.std.specs.Prelude.{IfOk, IfErr, OnOk};
ghost use Rattle.std.specs.Fn.{CalledAt};
ghost use Rattle.rowan_events.specs.Tokens.{tokens_text, said_of, lies_within, AreSaid};
ghost use Rattle.rowan_events.specs.declared.lexer.Lexeme.{Lexeme};

use rowan::{Fault, SyntaxKind};
use std::alloc::{AllocError, Global};
use std::ops::Range;

/// A piece of a text, with its kind.
#[derive(Clone, Copy)]
pub struct Token<'text> {
    pub kind: SyntaxKind,
    pub text: &'text str,
}

/// What a lexer complained of.
#[derive(Drop)]
pub struct LexError {
    /// Where its token stands in the text, in bytes.
    pub range: Range<usize>,
    pub message: &'static str,
}

/// A text in tokens.
#[derive(Drop)]
pub struct Lexed<'text> {
    pub tokens: Vec<Token<'text>>,
    /// What the lexer complained of, in the order of the text.
    pub errors: Vec<LexError>,
}

/// What a lexer says of the first token of a text: its kind, its length in bytes, and, where
/// something is wrong in it, as a string without its end, what that is. The message is among the
/// errors of the parse.
#[derive(Clone, Copy)]
pub struct Lexeme {
    pub kind: SyntaxKind,
    pub len: usize,
    pub message: Option<&'static str>,
}

/// Says how a text begins. It may keep a state, as the mode inside of a string. It has nothing to
/// prove: a length that does not fit is cut to one that does.
///
/// Each closure and function from a text to a kind and a length is a lexer that never complains. A
/// type of your own writes `ghost is_ready` and `ghost says`, which may both claim nothing.
pub trait Lexer {
    ghost is_ready: { Self → Type 0 };

    ghost says: { Self → List ℕ → Lexeme → Self → Type 0 };

    /// What the first token of `rest` is, which is not empty.
    fn next(&mut self, rest: &str) -> Lexeme
        requires { is_ready self.old }
        ensures says { says self.old rest.now result self.new }
        ensures ready { is_ready self.new };
}

impl<F: FnMut(&str) -> (SyntaxKind, usize)> Lexer for F {
    ghost is_ready = { λ lexer. F.IsAlwaysCallable lexer };

    ghost says = { λ lexer rest lexeme later. (lexeme.message ≡ None)
        × CalledAt F.FnMut lexer rest (lexeme.kind, lexeme.len) later };

    fn next(&mut self, rest: &str) -> Lexeme {
        let (kind, len) = self(rest);
        Lexeme {
            kind,
            len,
            message: None,
        }
    }
}

/// Cuts a text into tokens, from its start to its end, each as the lexer says. A token has at least
/// one character, and ends where a character ends: a length of 0 and one that ends within a
/// character reach to the next such place, and one past the end reaches to the end.
///
/// Errors: `Memory` if an allocation failed.
pub fn lex<X: Lexer + Drop>(alloc: Global, text: &str, mut lexer: X) -> Result<Lexed<'_>, Fault>
    requires { X.is_ready lexer }
    ensures text { IfOk result (λ lexed. tokens_text lexed.tokens.items ≡ text.now) }
    ensures said { IfOk result (λ lexed.
        AreSaid X.says lexer 0 lexed.tokens.items lexed.errors.items) }
    ensures filled { IfOk result (λ lexed.
        All (λ token. 0 < length token.text.now) lexed.tokens.items) }
    ensures within { IfOk result (λ lexed.
        All (lies_within (length text.now)) lexed.errors.items) }
    ensures memory { IfErr result (λ fault. fault ≡ Fault.Memory) }
{
    let mut tokens = Vec::new(alloc);
    let mut errors = Vec::new(alloc);
    let mut rest = text;
    let mut start = 0;
    while !rest.is_empty() {
        let Lexeme { kind, len, message } = lexer.next(rest);
        let (text, others) = rest.split_at(rest.ceil_char_boundary(len.max(1)));
        let end = start + text.len();
        tokens.push(Token { kind, text })?;
        note(&mut errors, message, start, end)?;
        rest = others;
        start = end;
    }
    Ok(Lexed { tokens, errors })
}

/// Puts what the lexer said of a token from `start` to `end` behind the rest, if it complained.
#[inline(always)]
fn note(
    errors: &mut Vec<LexError>,
    message: Option<&'static str>,
    start: usize,
    end: usize,
) -> Result<(), AllocError>
    ensures noted { OnOk result (errors.new.items
        ≡ errors.old.items ++ said_of message.entry start end) }
{
    let Some(message) = message else {
        return Ok(());
    };
    errors.push(LexError {
        range: start..end,
        message,
    })?;
    Ok(())
}
