//! All values of a document.
use crate::document::Document;
use anyhow::Result;
use std::alloc::Global;
use toml_document::Form;

/// What `json` prints, and its status.
pub(crate) fn answer(alloc: Global, document: &Document<'_>) -> Result<(u8, String)> {
    if !document.is_right() {
        return Ok((1, String::new(alloc)));
    }
    let mut out = document.values.root().to_json(alloc, Form::Tagged)?;
    out.push('\n')?;
    Ok((0, out))
}
