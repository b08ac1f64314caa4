//! What holds of each edited document: nothing is wrong with it, and a value that was put in is read
//! back.
use anyhow::{Result, bail};
use rowan::GreenNode;
use std::alloc::Global;
use toml_document::{Form, Values};
use toml_edit::{Document, Edit, Maker, NewValue};
use toml_path::Path;

/// Notes what is wrong with an edited text. The tree is that of the text, but where the last line of
/// the old text had no end, or a comment stands above what is new.
pub(crate) fn check(
    maker: Maker<'_>,
    out: &mut String,
    text: &str,
    green: &GreenNode,
    edits: &[Edit<'_>],
) -> Result<()> {
    let document = Document::parse(maker, text)?;
    if !document.is_right {
        bail!("something is wrong with the edited text {text:?}");
    }
    if document.green != *green {
        out.push_str("(the parser makes another tree of it)\n")?;
    }
    for edit in edits {
        match *edit {
            Edit::Set(path, NewValue::Text(value)) if edits.len() == 1 => {
                read_back(maker, &document.values, path, value)?;
            }
            _ => {}
        }
    }
    Ok(())
}

/// A value at a path is the one that a text is.
fn read_back(maker: Maker<'_>, values: &Values, path: &Path, value: &str) -> Result<()> {
    let line = format!(in maker.alloc; "x = {value}")?;
    let wanted = Document::parse(maker, &line)?;
    let found = json_at(maker.alloc, values, path)?;
    let x = Path::parse(maker.alloc, "x")?;
    if found.as_str() != json_at(maker.alloc, &wanted.values, &x)?.as_str() {
        bail!("{path} is not {value} but {found}");
    }
    Ok(())
}

fn json_at(alloc: Global, values: &Values, path: &Path) -> Result<String> {
    match values.find(path) {
        Some(found) => Ok(found.to_json(alloc, Form::Tagged)?),
        None => Ok(String::new(alloc)),
    }
}
