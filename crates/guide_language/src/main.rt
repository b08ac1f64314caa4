//! Reads files of settings, asks for what stands in them and edits them. Each argument is a step:
//! `open:FILE`, `tree`, `keys`, `get:PATH`, `at:OFFSET`, `set:PATH:VALUE`, `remove:PATH`,
//! `rename:PATH:KEY`, `format` and `print`.
#![tactic(auto)]

mod edits;
pub mod kinds;
mod layout;
mod lexer;
pub mod nodes;
pub mod parser;
mod walks;

use crate::edits::{remove, rename, set};
use crate::kinds::{Kind, Settings};
use crate::nodes::EntryRef;
use crate::parser::SettingsParser;
use crate::walks::{Node, entry_at, get, key_of, section_name};
use anyhow::{Context, Result, bail};
use rowan::ast::AstNodeRef;
use rowan::{GreenNode, SyntaxNode, TextSize};
use rowan_edit::SyntaxEditor;
use std::{env, fs};

fn main(rt: HostRuntime) -> Result<()> {
    let parser = SettingsParser::new(rt.alloc())?;
    let mut tree = parser.parse(rt.alloc(), "")?.green;
    for word in env::args(&rt)?.skip(1) {
        let word = word.as_str();
        let (step, rest) = word.split_once(':').unwrap_or((word, ""));
        tree = match step {
            "open" => open(&rt, &parser, rest)?,
            "format" => layout::formatted(rt.alloc(), &tree)?,
            "set" | "remove" | "rename" => edit(&rt, &parser, tree, step, rest)?,
            _ => ask(&rt, tree, step, rest)?,
        };
    }
    Ok(())
}

/// The tree of a file. Prints its errors, each with its line.
fn open(rt: &HostRuntime, parser: &SettingsParser, name: &str) -> Result<GreenNode> {
    let text = fs::read_to_string(rt, name).context(format_args!("reading {name}"))?;
    let parse = parser.parse(rt.alloc(), &text)?;
    let errors = rowan_parser::render(rt.alloc(), parse.errors(), &text, name)?;
    print!(rt; "{errors}")?;
    Ok(parse.green)
}

/// The tree after an edit. Prints what it changed in the text.
fn edit(
    rt: &HostRuntime,
    parser: &SettingsParser,
    tree: GreenNode,
    step: &str,
    rest: &str,
) -> Result<GreenNode> {
    let tree: SyntaxNode<Settings> = SyntaxNode::new_root(rt.alloc(), tree)?;
    let root = tree.as_ref();
    let mut editor = SyntaxEditor::new(rt.alloc(), root)?;
    let (path, new) = rest.split_once(':').unwrap_or((rest, ""));
    match step {
        "set" => set(&mut editor, parser, root, path, new),
        "remove" => remove(&mut editor, root, path),
        _ => rename(&mut editor, root, path, new),
    }?;
    let edited = editor.finish()?;
    for change in edited.text_edits(rt.alloc())?.iter() {
        println!(rt; "{:?} becomes {:?}", change.range, change.text)?;
    }
    Ok(edited.green)
}

/// Prints what is asked for, and leaves the tree as it is.
fn ask(rt: &HostRuntime, green: GreenNode, step: &str, rest: &str) -> Result<GreenNode> {
    let tree: SyntaxNode<Settings> = SyntaxNode::new_root(rt.alloc(), green.clone()?)?;
    let root = tree.as_ref();
    match step {
        "print" => print!(rt; "{green}")?,
        "tree" => print!(rt; "{}", root.debug_tree(rt.alloc())?)?,
        "keys" => print_keys(rt, root)?,
        "get" => print_entry(rt, get(root, rest))?,
        "at" => {
            let offset = rest.parse::<u32>().context("an offset is a number")?;
            let entry = entry_at(root, TextSize::from(offset));
            print_entry(rt, entry.map(|entry| entry.syntax()))?
        }
        _ => bail!("no such step: {step}"),
    }
    Ok(green)
}

/// Prints all keys, each with its section.
fn print_keys(rt: &HostRuntime, root: Node<'_>) -> Result<()> {
    let mut section = None;
    for node in root.descendants() {
        match node.kind() {
            Kind::Section => section = section_name(node),
            Kind::Entry => {
                let key = key_of(node).unwrap_or("");
                println!(rt; "{} {key}", section.unwrap_or("-"))?;
            }
            _ => {}
        }
    }
    Ok(())
}

/// Prints the value of an entry, and where it stands.
fn print_entry(rt: &HostRuntime, found: Option<Node<'_>>) -> Result<()> {
    let entry = found.and_then(|node| EntryRef::cast(node));
    match entry.and_then(|entry| entry.value()) {
        Some(value) => {
            let value = value.syntax();
            println!(rt; "{value} at {:?}", value.text_range())?;
        }
        None => println!(rt; "no value")?,
    }
    Ok(())
}
