//! Texts of s-expressions, as a program in a Lisp is one: definitions of a few lines, which hold names that come again and again, and
//! some that come once.
ghost use Rattle.std.specs.Prelude.{◌<◌, length};

use crate::draws::Draws;
use std::alloc::{AllocError, Global};
use std::fmt::Write;

const WORDS: [&str; 48] = [
    "define",
    "lambda",
    "let",
    "let*",
    "if",
    "cond",
    "else",
    "begin",
    "set!",
    "quote",
    "list",
    "cons",
    "car",
    "cdr",
    "map",
    "filter",
    "fold-left",
    "append",
    "length",
    "null?",
    "not",
    "and",
    "or",
    "+",
    "-",
    "*",
    "/",
    "<",
    "=",
    ">",
    "x",
    "y",
    "n",
    "acc",
    "self",
    "state",
    "next-state",
    "parse-expression",
    "token-stream",
    "file-name",
    "line-number",
    "0",
    "1",
    "42",
    "\"text\"",
    "größe",
    "λ",
    "名前",
];

/// How many phrases there are.
const PHRASES: usize = 600;

/// The lines of which texts are made, and which come again in many of them.
#[derive(Drop)]
pub struct Phrases {
    lines: Vec<String>,
}

impl Phrases {
    pub fn new(alloc: Global, draws: &mut Draws) -> Result<Phrases, AllocError> {
        let mut lines = Vec::with_capacity(alloc, PHRASES)?;
        for _ in 0..PHRASES {
            lines.push(phrase(alloc, draws)?)?;
        }
        Ok(Phrases { lines })
    }

    fn line(&self, draws: &mut Draws) -> &str {
        match self.lines.get(draws.low_below(PHRASES)) {
            Some(line) => line.as_str(),
            None => "",
        }
    }
}

/// A list with some lists in it.
fn phrase(alloc: Global, draws: &mut Draws) -> Result<String, AllocError> {
    let mut text = String::new(alloc);
    text.push_str("(")?;
    text.push_str(draws.word(WORDS.as_slice()))?;
    let mut open: usize = 1;
    for _ in 0..draws.below(16) {
        match draws.below(8) {
            0 | 1 if open < 6 => {
                text.push_str(" (")?;
                text.push_str(draws.word(WORDS.as_slice()))?;
                open += 1;
            }
            2 if open > 1 => {
                text.push_str(")")?;
                open -= 1;
            }
            3 => write!(text, " name-{}", draws.low_below(3_000))?,
            _ => {
                text.push_str(" ")?;
                text.push_str(draws.word(WORDS.as_slice()))?;
            }
        }
    }
    for _ in 0..open {
        text.push_str(")")?;
    }
    Ok(text)
}

/// A text of at least so many bytes, and few more.
pub fn text(
    alloc: Global,
    draws: &mut Draws,
    phrases: &Phrases,
    bytes: usize,
) -> Result<String, AllocError> {
    let mut text = String::new(alloc);
    for _ in 0..bytes {
        if text.len() >= bytes {
            break;
        }
        write!(text, "(define (f{} x y)", draws.below(1_000_000))?;
        for _ in 0..draws.below(8) {
            text.push_str("\n  ")?;
            text.push_str(phrases.line(draws))?;
        }
        text.push_str(")\n\n")?;
    }
    Ok(text)
}
