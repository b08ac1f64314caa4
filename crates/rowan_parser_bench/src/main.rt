//! Measures a parse by events beside direct calls of a builder for the same tokens. Without
//! arguments it prints how it is called.
#![tactic(auto)]

mod direct_json;
mod direct_sums;

use anyhow::{Context, Result, bail};
use arithmetic_syntax::Arithmetic;
use json_by_grammar::JsonParser;
use json_syntax::Json;
use rowan::{Fault, GreenNode, Language, SyntaxNode, WalkEvent};
use rowan_parser::{Event, Lexed, Parse, Token, lex};
use std::alloc::Global;
use std::mem::size_of;
use std::time::Instant;
use std::{env, io};

const HELP: &str = "\
usage: rowan_parser_bench json|sums lex|direct|events TURNS
       rowan_parser_bench json rules TURNS
       rowan_parser_bench json|sums counts

Reads JSON, or sums and products, from standard input, and then makes that many turns, in each of
which
  lex     the text is cut into tokens
  direct  the same, and a tree is built by direct calls of a builder
  events  the text is parsed by a lexer, a grammar and its events
  rules   the same by a lexer and the rules of a grammar, of which a parser was made before
It prints the time of all turns, and how many bytes the last tree has, or how many tokens there are.
counts  prints how many tokens the text has, how many of them are no trivia, how many nodes its tree
        has, what an event takes in memory, and whether both trees are equal";

/// What is measured.
#[derive(Clone, Copy)]
enum Input {
    Json,
    Sums,
}

impl Input {
    fn from_word(word: &str) -> Option<Input> {
        match word {
            "json" => Some(Input::Json),
            "sums" => Some(Input::Sums),
            _ => None,
        }
    }

    fn lex(self, alloc: Global, text: &str) -> Result<Lexed<'_>, Fault> {
        match self {
            Input::Json => lex(alloc, text, json_syntax::next_token),
            Input::Sums => lex(alloc, text, arithmetic_syntax::next_token),
        }
    }

    fn build(self, alloc: Global, tokens: &[Token<'_>]) -> Result<GreenNode, Fault> {
        match self {
            Input::Json => direct_json::build(alloc, tokens),
            Input::Sums => direct_sums::build(alloc, tokens),
        }
    }

    fn parse(self, alloc: Global, text: &str) -> Result<Parse, Fault> {
        match self {
            Input::Json => json_syntax::parse(alloc, text),
            Input::Sums => arithmetic_syntax::parse(alloc, text),
        }
    }

    fn is_trivia(self, token: &Token<'_>) -> bool {
        match self {
            Input::Json => direct_json::is_trivia(token),
            Input::Sums => direct_sums::is_trivia(token),
        }
    }
}

fn main(rt: HostRuntime) -> Result<()> {
    let words: Vec<String> = env::args(&rt)?.skip(1).collect(rt.alloc())?;
    let [input, command, ..] = words.as_slice() else {
        println!(rt; "{HELP}")?;
        return Ok(());
    };
    let input = Input::from_word(input.as_str()).context("there is no such input")?;
    let turns = match words.get(2) {
        Some(word) => word.parse::<usize>().unwrap_or(0),
        None => 0,
    };
    let text = io::read_to_string(rt.alloc(), rt.reader())?;
    if command.as_str() == "counts" {
        return count(&rt, input, text.as_str());
    }
    let parser = JsonParser::new(rt.alloc())?;
    let start = Instant::now(&rt)?;
    let mut number = 0;
    for _ in 0..turns {
        number = match command.as_str() {
            "rules" => len_of(&parser.parse(rt.alloc(), text.as_str())?.green),
            command => take_turn(rt.alloc(), input, command, text.as_str())?,
        };
    }
    println!(rt; "{} ns, {number}", start.elapsed(&rt)?.as_nanos())?;
    Ok(())
}

/// Makes one turn, and gives its number.
fn take_turn(alloc: Global, input: Input, command: &str, text: &str) -> Result<usize> {
    match command {
        "lex" => Ok(input.lex(alloc, text)?.tokens.len()),
        "direct" => {
            let lexed = input.lex(alloc, text)?;
            Ok(len_of(&input.build(alloc, lexed.tokens.as_slice())?))
        }
        "events" => Ok(len_of(&input.parse(alloc, text)?.green)),
        _ => bail!("there is no such command"),
    }
}

fn len_of(tree: &GreenNode) -> usize {
    u32::from(tree.text_len()) as usize
}

fn count(rt: &HostRuntime, input: Input, text: &str) -> Result<()> {
    let tokens = input.lex(rt.alloc(), text)?.tokens;
    let direct = input.build(rt.alloc(), tokens.as_slice())?;
    let parse = input.parse(rt.alloc(), text)?;
    let mut seen = 0usize;
    for token in tokens.iter() {
        seen = seen.saturating_add(usize::from(!input.is_trivia(token)));
    }
    let nodes = match input {
        Input::Json => count_nodes::<Json>(rt.alloc(), &parse)?,
        Input::Sums => count_nodes::<Arithmetic>(rt.alloc(), &parse)?,
    };
    let size = size_of::<Event>();
    let is_same = direct == parse.green;
    println!(rt;
        "{} tokens, {seen} without trivia, {nodes} nodes, {size} bytes an event, equal: {is_same}",
        tokens.len()
    )?;
    Ok(())
}

fn count_nodes<L: Language>(alloc: Global, parse: &Parse) -> Result<usize> {
    let root: SyntaxNode<L> = parse.syntax(alloc)?;
    let mut nodes = 0usize;
    for event in root.preorder() {
        if let WalkEvent::Enter(_) = event? {
            nodes = nodes.saturating_add(1);
        }
    }
    Ok(nodes)
}
