//! Measures what the library does with large trees and nodes. Without arguments it prints how it is called.
#![tactic(auto)]

mod borrowed;
mod children;
mod cursors;
mod depth;
mod draws;
mod edits;
mod many_edits;
mod printed;
mod reparse;
mod timed;
mod tree_cursors;
mod turns;
mod typed;
mod walks;

use anyhow::{Context, Result, bail};
use children::{Edit, Memory};
use depth::Operation;
use rowan::cursor::SyntaxNode;
use rowan::{GreenElement, NodeCache, Steps, TextSize};
use rowan_tool::sexp;
use std::process::ExitCode;
use std::time::Instant;
use std::{env, io};

const HELP: &str = "\
usage: rowan_bench depth parse|compare|hash|show LEVELS
       rowan_bench depth walk|search|copy|replace|point|lines|json LEVELS
       rowan_bench build TOKENS
       rowan_bench parse
       rowan_bench keep
       rowan_bench intern tokens|nodes COUNT
       rowan_bench search shared|own CHILDREN TIMES
       rowan_bench reach shared|own CHILDREN TIMES
       rowan_bench edit shared|own CHILDREN TIMES
       rowan_bench cursors fill|whole|walk|tree_walk|move|nodes TURNS
       rowan_bench cursors walk_by_refs|loops_by_refs|move_by_refs|nodes_by_refs TURNS
       rowan_bench walks events|offset|cover|copy|find|equal TURNS
       rowan_bench typed raw|walk|pointers TURNS
       rowan_bench edits replace|root|trace|cursors|green|editor|editor_root TURNS
       rowan_bench many_edits forwards|backwards|mixed|finish TURNS
       rowan_bench printed debug_tree|json|value TURNS
       rowan_bench reparse list|table|tree_cursor|whole TURNS

depth   parses that many lists, one in the other, and then
          parse    drops the tree
          compare  compares it with the tree of another parse
          hash     hashes both
          show     writes its text
          walk     goes through its nodes
          search   searches the token in the middle, and what covers the place there
          copy     copies its text
          replace  replaces the token in the middle
          point    resolves a pointer to the innermost list
          lines    makes the lines of the printed tree, which are quadratic in the levels
          json     makes its JSON, and drops that
        The status is 0 if it ends; a stack that is too small ends the process by a signal.
build   builds a tree of that many tokens, with a new cache and once more with the same cache
parse   parses the s-expressions of standard input, with a new cache and once more with the same cache
keep    parses the s-expressions of standard input once, and keeps the tree to the end
intern  makes that many tokens, or nodes of two tokens, no two equal, and keeps them in a cache
search  searches the child at so many ranges in a node over that many tokens, where
          shared   equal tokens are one, as a cache makes them
          own      each token has memory of its own
reach   makes the same searches by a cursor at that node
edit    makes each edit of such a node so often, and copies its list of children as often;
        what was made is dropped within the time
cursors parses the s-expressions of standard input, and then in each turn
          fill     makes a cursor at the root
          whole    makes one, walks through the tree, and drops it
          walk     walks through the tree from a cursor that is there
          tree_walk walks through it by a cursor that costs no table
          move     makes 1,000,000 moves from it between nodes and tokens, drawn from five
          nodes    makes 1,000,000 moves from it between nodes, drawn from three
          ..._by_refs does the same by borrowed cursors; loops_by_refs walks through the tree by loops over children
walks   parses the s-expressions of standard input, makes a cursor at the root, and then in each turn
          events   goes through all events of a walk with tokens
          offset   searches the tokens at 10,000 offsets, which are drawn
          cover    searches the elements that cover 10,000 ranges of 0 to 63 bytes, which are drawn
          copy     copies the text
          find     searches a character that the text has not
          equal    compares the text with an equal one
typed   parses the s-expressions of standard input, makes a cursor at the root, and then in each turn
          raw      counts the words in a walk with tokens, by the numbers of their kinds
          walk     counts them in the same walk of a tree of a language
          pointers resolves pointers to the nodes at 10,000 offsets, which are drawn
edits   parses the s-expressions of standard input, and then in each turn
          replace  replaces the token in the middle 10,000 times
          root     makes a cursor at the root of the tree with that replacement
          trace    replaces tokens at 1,000 offsets, which are drawn, one after the other, by one trace
          cursors  makes the same replacements, with a cursor at each new root
          green    makes them in green trees alone, and then a cursor at the last root
          editor   collects them by cursors at the first root, and makes them together
          editor_root does so, and makes a cursor at the new root
many_edits parses the s-expressions of standard input, and then in each turn
          forwards adds 100,000 replacements of tokens to an editor, in the order of the text
          backwards adds them from the last to the first
          mixed    adds them in a mixed order
          finish   adds them in a mixed order, and makes them
printed parses the s-expressions of standard input, makes a cursor at the root, and then in each turn
          debug_tree  prints the tree, a line for each node and token
          json        makes its compact JSON
          value       makes the JSON value of the tree, and that text of it
reparse parses the s-expressions of standard input, and then in each turn
          list     parses a list of 100 bytes or more in the middle anew, 1,000 times, by a cursor that is there
          table    finds it, parses it anew and makes a cursor at the new root, 10 times, each in the tree of the time before
          tree_cursor finds it, parses it anew and goes on in the new tree, 10 times, by a cursor that costs no table
          whole    parses the whole text anew";

fn main(rt: HostRuntime) -> ExitCode {
    match run(&rt) {
        Ok(()) => ExitCode::SUCCESS,
        Err(why) => {
            let _ = eprintln!(rt; "rowan_bench: {why}");
            ExitCode::FAILURE
        }
    }
}

fn run(rt: &HostRuntime) -> Result<()> {
    let words: Vec<String> = env::args(rt)?.skip(1).collect(rt.alloc())?;
    let words = words.as_slice();
    let Some(command) = words.first() else {
        println!(rt; "{HELP}")?;
        return Ok(());
    };
    match command.as_str() {
        "depth" => nest(rt, words),
        "build" => build(rt, number_at(words, 1)?),
        "parse" => parse(rt),
        "keep" => keep(rt),
        "intern" => intern(rt, words),
        "search" => search(rt, words),
        "reach" => reach(rt, words),
        "edit" => edit(rt, words),
        "cursors" => move_cursors(rt, words),
        "walks" => walk(rt, words),
        "typed" => walk_typed(rt, words),
        "edits" => replace(rt, words),
        "many_edits" => replace_many(rt, words),
        "printed" => print(rt, words),
        "reparse" => parse_anew(rt, words),
        _ => bail!("there is no such command"),
    }
}

/// The word at a place; an empty one where there is none.
fn word_at(words: &[String], place: usize) -> &str {
    match words.get(place) {
        Some(word) => word.as_str(),
        None => "",
    }
}

/// The word at a place, as a number.
fn number_at(words: &[String], place: usize) -> Result<usize> {
    match word_at(words, place).parse::<usize>() {
        Ok(number) => Ok(number),
        Err(_) => bail!("a number is missing"),
    }
}

fn nest(rt: &HostRuntime, words: &[String]) -> Result<()> {
    let operation = Operation::from_word(word_at(words, 1)).context(
        "what is done with the tree is missing",
    )?;
    let levels = number_at(words, 2)?;
    let bytes = operation.run(rt.alloc(), levels)?;
    println!(rt; "{levels} levels, {bytes} bytes")?;
    Ok(())
}

fn build(rt: &HostRuntime, tokens: usize) -> Result<()> {
    let texts = timed::texts(rt.alloc(), tokens)?;
    let mut cache = NodeCache::new(rt.alloc());
    for state in ["new", "warm"] {
        let start = Instant::now(rt)?;
        let tree = timed::build(rt.alloc(), &mut cache, texts.as_slice(), tokens)?;
        tell(rt, state, start, &cache, tree.text_len())?;
    }
    Ok(())
}

fn parse(rt: &HostRuntime) -> Result<()> {
    let text = io::read_to_string(rt.alloc(), rt.reader())?;
    let mut cache = NodeCache::new(rt.alloc());
    for state in ["new", "warm"] {
        let start = Instant::now(rt)?;
        let tree = sexp::parse_with(rt.alloc(), text.as_str(), &mut cache)?;
        tell(rt, state, start, &cache, tree.green().text_len())?;
    }
    Ok(())
}

/// Parses a text once. The tree stays until its length was printed, and there is no cursor.
fn keep(rt: &HostRuntime) -> Result<()> {
    let text = io::read_to_string(rt.alloc(), rt.reader())?;
    let parsed = sexp::parse(rt.alloc(), text.as_str())?;
    println!(rt; "{:?} bytes", parsed.green().text_len())?;
    Ok(())
}

fn intern(rt: &HostRuntime, words: &[String]) -> Result<()> {
    let count = number_at(words, 2)?;
    let mut cache = NodeCache::new(rt.alloc());
    let start = Instant::now(rt)?;
    match word_at(words, 1) {
        "tokens" => timed::intern_tokens(rt.alloc(), &mut cache, count)?,
        "nodes" => timed::intern_nodes(rt.alloc(), &mut cache, count)?,
        _ => bail!("tokens or nodes is missing"),
    }
    tell(rt, "new", start, &cache, TextSize::from(0))
}

/// The tokens that the words ask for, and how often something is done with them.
fn tokens(rt: &HostRuntime, words: &[String]) -> Result<(Vec<GreenElement>, usize)> {
    let memory = Memory::from_word(word_at(words, 1)).context("shared or own is missing")?;
    let tokens = memory.tokens(rt.alloc(), number_at(words, 2)?)?;
    Ok((tokens, number_at(words, 3)?))
}

fn search(rt: &HostRuntime, words: &[String]) -> Result<()> {
    let (tokens, times) = tokens(rt, words)?;
    let node = children::node(rt.alloc(), tokens)?;
    let ranges = children::ranges(rt.alloc(), &node, times)?;
    let mut steps = Steps::new();
    let start = Instant::now(rt)?;
    let found = children::search(&node, ranges.as_slice(), &mut steps);
    let nanos = start.elapsed(rt)?.as_nanos();
    let comparisons = steps.comparisons();
    println!(rt; "search {nanos} ns, {found} found, {comparisons} comparisons")?;
    Ok(())
}

fn reach(rt: &HostRuntime, words: &[String]) -> Result<()> {
    let (tokens, times) = tokens(rt, words)?;
    let node = children::node(rt.alloc(), tokens)?;
    let ranges = children::ranges(rt.alloc(), &node, times)?;
    let root = SyntaxNode::new_root(rt.alloc(), node)?;
    let start = Instant::now(rt)?;
    let found = children::reach(&root, ranges.as_slice())?;
    let nanos = start.elapsed(rt)?.as_nanos();
    println!(rt; "reach {nanos} ns, {found} found")?;
    Ok(())
}

fn edit(rt: &HostRuntime, words: &[String]) -> Result<()> {
    let (tokens, times) = tokens(rt, words)?;
    let node = children::node(rt.alloc(), tokens.clone()?)?;
    for edit in Edit::ALL {
        let start = Instant::now(rt)?;
        edit.make_often(rt.alloc(), &node, times)?;
        println!(rt; "{} {} ns", edit.word(), start.elapsed(rt)?.as_nanos())?;
    }
    let start = Instant::now(rt)?;
    children::copy_often(&tokens, times)?;
    println!(rt; "copy {} ns", start.elapsed(rt)?.as_nanos())?;
    Ok(())
}

fn move_cursors(rt: &HostRuntime, words: &[String]) -> Result<()> {
    let operation = cursors::Operation::from_word(word_at(words, 1)).context(
        "what is done by cursors is missing",
    )?;
    let turns = number_at(words, 2)?;
    let text = io::read_to_string(rt.alloc(), rt.reader())?;
    let parsed = sexp::parse(rt.alloc(), text.as_str())?;
    let (total, visited) = cursors::time(rt, parsed.green(), operation, turns)?;
    let nanos = total.as_nanos();
    match visited {
        Some(it) => println!(rt; "{nanos} ns, {} places, last at {:?}", it.places, it.last)?,
        None => println!(rt; "{nanos} ns")?,
    }
    Ok(())
}

fn walk(rt: &HostRuntime, words: &[String]) -> Result<()> {
    let operation = walks::Operation::from_word(word_at(words, 1)).context(
        "events, offset, cover, copy, find or equal is missing",
    )?;
    let turns = number_at(words, 2)?;
    let text = io::read_to_string(rt.alloc(), rt.reader())?;
    let parsed = sexp::parse(rt.alloc(), text.as_str())?;
    let root = SyntaxNode::new_root(rt.alloc(), parsed.green().clone()?)?;
    let (total, number) = walks::time(rt, &root, text.as_str(), operation, turns)?;
    println!(rt; "{} ns, {number}", total.as_nanos())?;
    Ok(())
}

fn walk_typed(rt: &HostRuntime, words: &[String]) -> Result<()> {
    let operation = typed::Operation::from_word(word_at(words, 1)).context(
        "raw, walk or pointers is missing",
    )?;
    let turns = number_at(words, 2)?;
    let text = io::read_to_string(rt.alloc(), rt.reader())?;
    let parsed = sexp::parse(rt.alloc(), text.as_str())?;
    let (total, number) = typed::time(rt, parsed.green(), operation, turns)?;
    println!(rt; "{} ns, {number}", total.as_nanos())?;
    Ok(())
}

fn replace(rt: &HostRuntime, words: &[String]) -> Result<()> {
    let operation = edits::Operation::from_word(word_at(words, 1)).context(
        "replace, root, trace, cursors, green, editor or editor_root is missing",
    )?;
    let turns = number_at(words, 2)?;
    let text = io::read_to_string(rt.alloc(), rt.reader())?;
    let parsed = sexp::parse(rt.alloc(), text.as_str())?;
    let (total, marks) = edits::time(rt, parsed.green(), operation, turns)?;
    println!(rt; "{} ns, {marks}", total.as_nanos())?;
    Ok(())
}

fn replace_many(rt: &HostRuntime, words: &[String]) -> Result<()> {
    let operation = many_edits::Operation::from_word(word_at(words, 1)).context(
        "forwards, backwards, mixed or finish is missing",
    )?;
    let turns = number_at(words, 2)?;
    let text = io::read_to_string(rt.alloc(), rt.reader())?;
    let parsed = sexp::parse(rt.alloc(), text.as_str())?;
    let (total, marks) = many_edits::time(rt, parsed.green(), operation, turns)?;
    println!(rt; "{} ns, {marks}", total.as_nanos())?;
    Ok(())
}

fn print(rt: &HostRuntime, words: &[String]) -> Result<()> {
    let form = printed::Form::from_word(word_at(words, 1)).context(
        "debug_tree, json or value is missing",
    )?;
    let turns = number_at(words, 2)?;
    let text = io::read_to_string(rt.alloc(), rt.reader())?;
    let parsed = sexp::parse(rt.alloc(), text.as_str())?;
    let (total, len) = printed::time(rt, parsed.green(), form, turns)?;
    println!(rt; "{} ns, {len}", total.as_nanos())?;
    Ok(())
}

fn parse_anew(rt: &HostRuntime, words: &[String]) -> Result<()> {
    let operation = reparse::Operation::from_word(word_at(words, 1)).context(
        "list, table, tree_cursor or whole is missing",
    )?;
    let turns = number_at(words, 2)?;
    let text = io::read_to_string(rt.alloc(), rt.reader())?;
    let parsed = sexp::parse(rt.alloc(), text.as_str())?;
    let (total, marks) = reparse::time(rt, parsed.green(), operation, turns)?;
    println!(rt; "{} ns, {marks}", total.as_nanos())?;
    Ok(())
}

/// Prints what was done, and since when.
fn tell(
    rt: &HostRuntime,
    state: &str,
    start: Instant,
    cache: &NodeCache,
    len: TextSize,
) -> Result<()> {
    let micros = start.elapsed(rt)?.as_micros();
    let (tokens, nodes) = (cache.token_count(), cache.node_count());
    println!(rt;
        "{state} {micros} us, {len:?} bytes, {tokens} tokens and {nodes} nodes in the cache"
    )?;
    Ok(())
}
