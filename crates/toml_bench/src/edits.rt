//! Keys that get other values, all in one pass.
use anyhow::Result;
use std::alloc::Global;
use toml_document::Version;
use toml_edit::{Document, Edit, Maker, NewValue};
use toml_path::Path;
use toml_syntax::TomlParser;

/// How many bytes the text has once the first keys of those named `key0`, `key1` and so on have
/// another value.
pub(crate) fn set(alloc: Global, parser: &TomlParser, text: &str, count: usize) -> Result<usize> {
    let maker = Maker {
        alloc,
        parser,
        version: Version::V1_0,
    };
    let document = Document::parse(maker, text)?;
    let paths = paths(alloc, count)?;
    let green = document.edit(&edits(alloc, &paths)?)?.green;
    Ok(green.to_string(alloc)?.len())
}

fn paths(alloc: Global, count: usize) -> Result<Vec<Path>> {
    let mut paths = Vec::new(alloc);
    for number in 0..count {
        let text = format!(in alloc; "key{number}")?;
        paths.push(Path::parse(alloc, &text)?)?;
    }
    Ok(paths)
}

fn edits<'a>(alloc: Global, paths: &'a [Path]) -> Result<Vec<Edit<'a>>> {
    let mut edits = Vec::new(alloc);
    for path in paths {
        edits.push(Edit::Set(path, NewValue::Text("\"another\"")))?;
    }
    Ok(edits)
}
