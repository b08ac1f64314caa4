//! Documents of TOML with edits, and what these make of them, which `stdout` has. They stand in
//! `stdin`, each behind a line `=== NAME`, with edits behind a line `---`. Edits without a blank line
//! between are made together. Marks as `‹CR›` stand for characters that nobody sees.
#![tactic(auto)]

mod checks;
mod edits;

use crate::checks::check;
use crate::edits::{edit_of, path_of};
use anyhow::{Result, bail};
use std::alloc::Global;
use std::io::{self, Write};
use toml_document::Version;
use toml_edit::{Document, Edit, Maker};
use toml_syntax::TomlParser;

fn main(rt: HostRuntime) -> Result<()> {
    let alloc = rt.alloc();
    let parser = TomlParser::new(alloc)?;
    let maker = Maker {
        alloc,
        parser: &parser,
        version: Version::V1_0,
    };
    let cases = io::read_to_string(alloc, rt.reader())?;
    let mut out = String::new(alloc);
    for case in cases.as_str().split("=== ").skip(1) {
        let case = without_marks(alloc, case)?;
        let (name, rest) = case.split_once('\n').unwrap_or((&case, ""));
        let (text, edits) = rest.split_once("---\n").unwrap_or((rest, ""));
        writeln!(out, "=== {name}")?;
        show(maker, &mut out, text, edits)?;
    }
    let mut writer = io::writer(&rt);
    writer.write_all(out.as_bytes())?;
    Ok(writer.flush()?)
}

/// A text with what its marks stand for: a carriage return, and the end of a text without a line end.
fn without_marks(alloc: Global, text: &str) -> Result<String> {
    let text = text.replace(alloc, "‹END›\n", "")?;
    Ok(text.replace(alloc, "‹CR›", "\r")?)
}

/// Prints what each list of edits makes of a document.
fn show(maker: Maker<'_>, out: &mut String, text: &str, edits: &str) -> Result<()> {
    let document = Document::parse(maker, text)?;
    for lines in edits.split("\n\n") {
        let lines = lines.trim_end_matches('\n');
        let shown = lines.replace(maker.alloc, "\n", "\n--- ")?;
        writeln!(out, "--- {}", shown.replace(maker.alloc, "\r", "‹CR›")?)?;
        show_list(maker, out, &document, lines)?;
    }
    Ok(())
}

fn show_list(
    maker: Maker<'_>,
    out: &mut String,
    document: &Document<'_>,
    lines: &str,
) -> Result<()> {
    let mut paths = Vec::new(maker.alloc);
    for line in lines.lines() {
        paths.push(path_of(maker.alloc, line)?)?;
    }
    let mut list = Vec::new(maker.alloc);
    for (line, path) in lines.lines().zip(paths.iter()) {
        let Some(edit) = edit_of(line, path) else {
            bail!("no such edit: {line}");
        };
        list.push(edit)?;
    }
    show_edited(maker, out, document, &list)
}

/// Prints the edited text, or why there is none.
fn show_edited(
    maker: Maker<'_>,
    out: &mut String,
    document: &Document<'_>,
    edits: &[Edit<'_>],
) -> Result<()> {
    let edited = match document.edit(edits) {
        Ok(edited) => edited,
        Err(error) => {
            writeln!(out, "refused: {error:?}")?;
            return Ok(());
        }
    };
    let text = edited.green.to_string(maker.alloc)?;
    write!(out, "{}", text.replace(maker.alloc, "\r", "‹CR›")?)?;
    if !text.ends_with('\n') {
        writeln!(out, "‹END›")?;
    }
    check(maker, out, &text, &edited.green, edits)
}
