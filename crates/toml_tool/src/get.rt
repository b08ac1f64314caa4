//! The value of a key.
use crate::document::Document;
use anyhow::{Context, Result, bail};
use rowan::TextRange;
use std::alloc::Global;
use toml_path::Path;

/// What `get` prints, and its status.
pub(crate) fn answer(
    alloc: Global,
    document: &Document<'_>,
    key: &str,
    is_raw: bool,
) -> Result<(u8, String)> {
    let path = Path::parse(alloc, key).context("reading the key")?;
    if !document.is_right() {
        return Ok((1, String::new(alloc)));
    }
    let Some(found) = document.values.find(&path) else {
        bail!("no key {path}");
    };
    let mut out = match is_raw {
        true => String::from_str(alloc, raw(document.text, found.range()))?,
        false => found.to_text(alloc)?,
    };
    out.push('\n')?;
    Ok((0, out))
}

/// The text at a range.
fn raw(text: &str, range: TextRange) -> &str {
    let start = u32::from(range.start()) as usize;
    let end = u32::from(range.end()) as usize;
    text.get(start..end).unwrap_or("")
}
