//! Documents of TOML in `stdin`, each behind a line `=== NAME`, formatted in two styles: as they are by
//! default, and in narrow lines without blank ones. What is formatted stays as it is, and so it is with
//! each prefix of a document that has no error.
#![tactic(auto)]

use anyhow::{Result, bail};
use std::alloc::Global;
use std::fmt::Write as _;
use std::io::{self, Write as _};
use toml_format::{Style, format};
use toml_syntax::TomlParser;

const NARROW: Style = Style {
    width: 40,
    indent: 4,
    keeps_blank_lines: false,
};

fn main(rt: HostRuntime) -> Result<()> {
    let alloc = rt.alloc();
    let parser = TomlParser::new(alloc)?;
    let cases = io::read_to_string(alloc, rt.reader())?;
    let mut out = String::new(alloc);
    for case in cases.as_str().split("=== ").skip(1) {
        let (name, text) = case.split_once('\n').unwrap_or((case, ""));
        writeln!(out, "=== {name}")?;
        show(alloc, &parser, &mut out, text, Style::default())?;
        writeln!(out, "--- {name}, narrow")?;
        show(alloc, &parser, &mut out, text, NARROW)?;
        check_prefixes(alloc, &parser, name, text)?;
    }
    let mut writer = io::writer(&rt);
    writer.write_all(out.as_bytes())?;
    Ok(writer.flush()?)
}

/// Prints a document as it is formatted.
fn show(
    alloc: Global,
    parser: &TomlParser,
    out: &mut String,
    text: &str,
    style: Style,
) -> Result<()> {
    let formatted = format(alloc, parser, text, style)?.green.to_string(alloc)?;
    out.push_str(formatted.as_str())?;
    Ok(())
}

/// Each prefix without errors is formatted, and what is formatted stays as it is.
fn check_prefixes(alloc: Global, parser: &TomlParser, name: &str, text: &str) -> Result<()> {
    for end in 0..=text.len() {
        if let Some(prefix) = text.get(..end) {
            if !parser.parse(alloc, prefix)?.errors.is_empty() {
                continue;
            }
            let once = format(alloc, parser, prefix, NARROW)?
                .green
                .to_string(alloc)?;
            let twice = format(alloc, parser, once.as_str(), NARROW)?
                .green
                .to_string(alloc)?;
            if once.as_str() != twice.as_str() {
                bail!("{name}: formatting {end} bytes again gives another text");
            }
        }
    }
    Ok(())
}
