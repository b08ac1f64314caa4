//! What the head of a grammar says of a parser.
use rowan_green::TextRange;
use std::alloc::Global;

/// The lines of the head that ask for a parser.
#[derive(Drop)]
pub struct ParserLines {
    /// Which kind of parser is written.
    pub parser: Option<TextRange>,
    pub lexer: Option<LexerPath>,
    pub shown: Vec<Shown>,
    pub attached: Vec<Attached>,
}

/// The path of what cuts a text into tokens.
#[derive(Drop)]
pub struct LexerPath {
    pub range: TextRange,
    pub path: String,
}

/// How messages name a token.
#[derive(Drop)]
pub struct Shown {
    pub range: TextRange,
    pub name: String,
    /// The words, in quotes.
    pub words: Option<TextRange>,
    /// The number of the token.
    pub item: Option<usize>,
}

/// Trivia that belong to the nodes behind them.
#[derive(Drop)]
pub struct Attached {
    pub trivia: Named,
    pub nodes: Vec<Named>,
}

/// A name in a line of the head.
#[derive(Drop)]
pub struct Named {
    pub range: TextRange,
    pub name: String,
    /// The number of what has this name.
    pub item: Option<usize>,
}

impl ParserLines {
    pub fn new(alloc: Global) -> ParserLines {
        ParserLines {
            parser: None,
            lexer: None,
            shown: Vec::new(alloc),
            attached: Vec::new(alloc),
        }
    }

    /// The words of a token, in quotes.
    pub fn words(&self, item: usize) -> Option<TextRange> {
        let shown = self.shown.iter().find(|shown| shown.item == Some(item))?;
        shown.words
    }
}
