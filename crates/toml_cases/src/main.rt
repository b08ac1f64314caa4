//! Documents of TOML with their trees, errors and values, which `stdout` has. The documents stand in
//! `stdin`, each behind a line `=== NAME`. Marks as `‹CR›` stand for characters that nobody sees.
#![tactic(auto)]

mod kit;
mod printing;

use crate::printing::push_tree;
use anyhow::{Result, bail};
use rowan::SyntaxNode;
use std::alloc::Global;
use std::io::{self, Write};
use toml_document::{Form, Reading, Version, read};
use toml_syntax::{Toml, TomlParser};

fn main(rt: HostRuntime) -> Result<()> {
    let alloc = rt.alloc();
    let parser = TomlParser::new(alloc)?;
    let cases = io::read_to_string(alloc, rt.reader())?;
    let mut out = String::new(alloc);
    for case in cases.as_str().split("=== ").skip(1) {
        let (name, text) = case.split_once('\n').unwrap_or((case, ""));
        writeln!(out, "=== {name}")?;
        let text = printing::without_marks(alloc, text)?;
        show(alloc, &parser, &mut out, name, text.as_str())?;
        check_prefixes(alloc, &parser, name, text.as_str())?;
    }
    let mut writer = io::writer(&rt);
    writer.write_all(out.as_bytes())?;
    Ok(writer.flush()?)
}

/// Prints what a document is read as. One in which nothing is wrong has the same values for the kit's
/// `toml`.
fn show(
    alloc: Global,
    parser: &TomlParser,
    out: &mut String,
    name: &str,
    text: &str,
) -> Result<()> {
    let parse = parser.parse(alloc, text)?;
    let root: SyntaxNode<Toml> = parse.syntax(alloc)?;
    push_tree(out, root.as_ref())?;
    for error in parse.errors.iter() {
        writeln!(out, "{:?} {}", error.range, error.message)?;
    }
    let Reading { values, problems } = read(alloc, root.as_ref(), Version::V1_0)?;
    for problem in problems.iter() {
        write!(out, "{:?} {}", problem.range, problem.kind)?;
        match problem.first {
            Some(first) => writeln!(out, ", as at {first:?}")?,
            None => out.push('\n')?,
        }
    }
    if parse.errors.is_empty() && problems.is_empty() {
        writeln!(out, "{}", values.root().to_json(alloc, Form::Plain)?)?;
        kit::check(alloc, name, text, &values)?;
    }
    Ok(())
}

/// The tree of each prefix of a text has the text of the prefix.
fn check_prefixes(alloc: Global, parser: &TomlParser, name: &str, text: &str) -> Result<()> {
    for end in 0..=text.len() {
        if let Some(prefix) = text.get(..end) {
            let kept = parser.parse(alloc, prefix)?.green.to_string(alloc)?;
            if kept.as_str() != prefix {
                bail!("{name}: the tree of {end} bytes has another text");
            }
        }
    }
    Ok(())
}
