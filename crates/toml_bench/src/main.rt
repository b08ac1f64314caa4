//! Measures what is read of TOML, edited and formatted. Without arguments it prints how it is called.
#![tactic(auto)]

mod edits;

use anyhow::{Result, bail};
use rowan::SyntaxNode;
use std::alloc::Global;
use std::time::Instant;
use std::{env, io};
use toml_document::{Reading, Version, read};
use toml_format::{Style, format};
use toml_syntax::{Toml, TomlParser};

const HELP: &str = "\
usage: toml_bench parse|read|kit|print|fmt|set|sets TURNS

Reads TOML from standard input, and then makes that many turns, in each of which
  parse  the text is parsed by toml_syntax, of which a parser was made before
  read   the same, and toml_document reads the values
  kit    the kit's toml reads the values
  print  the same as parse, and the text of the tree is made
  fmt    the text is formatted by toml_format, and the text of the tree is made
  set    the same as read and print, and between them the key `key0` gets another value
  sets   the same with a thousand keys, `key0` to `key999`, in one pass
It prints the time of all turns, and the number of bytes, of values or of keys that the last one
came to";

fn main(rt: HostRuntime) -> Result<()> {
    let words: Vec<String> = env::args(&rt)?.skip(1).collect(rt.alloc())?;
    let [command, turns] = words.as_slice() else {
        println!(rt; "{HELP}")?;
        return Ok(());
    };
    let turns = turns.parse::<usize>().unwrap_or(0);
    let text = io::read_to_string(rt.alloc(), rt.reader())?;
    let parser = TomlParser::new(rt.alloc())?;
    let start = Instant::now(&rt)?;
    let mut number: usize = 0;
    for _ in 0..turns {
        number = turn(rt.alloc(), &parser, command.as_str(), text.as_str())?;
    }
    println!(rt; "{} ns, {number}", start.elapsed(&rt)?.as_nanos())?;
    Ok(())
}

/// Makes one turn, and gives its number.
fn turn(alloc: Global, parser: &TomlParser, command: &str, text: &str) -> Result<usize> {
    match command {
        "parse" => parse(alloc, parser, text),
        "read" => read_values(alloc, parser, text),
        "kit" => Ok(toml::table_from_str(alloc, text)?.len()),
        "print" => print(alloc, parser, text),
        "fmt" => print_formatted(alloc, parser, text),
        "set" => edits::set(alloc, parser, text, 1),
        "sets" => edits::set(alloc, parser, text, 1_000),
        _ => bail!("there is no such command"),
    }
}

fn parse(alloc: Global, parser: &TomlParser, text: &str) -> Result<usize> {
    let green = parser.parse(alloc, text)?.green;
    Ok(u32::from(green.text_len()) as usize)
}

fn read_values(alloc: Global, parser: &TomlParser, text: &str) -> Result<usize> {
    let root: SyntaxNode<Toml> = parser.parse(alloc, text)?.syntax(alloc)?;
    let Reading {
        values,
        problems: _,
    } = read(alloc, root.as_ref(), Version::V1_0)?;
    Ok(values.count())
}

fn print(alloc: Global, parser: &TomlParser, text: &str) -> Result<usize> {
    let green = parser.parse(alloc, text)?.green;
    Ok(green.to_string(alloc)?.len())
}

fn print_formatted(alloc: Global, parser: &TomlParser, text: &str) -> Result<usize> {
    let green = format(alloc, parser, text, Style::default())?.green;
    Ok(green.to_string(alloc)?.len())
}
