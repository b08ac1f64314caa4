//! What is wrong with a document.
use crate::document::Document;
use anyhow::Result;
use rowan::TextRange;
use rowan_parser::{LineIndex, Renderer, Severity};
use std::alloc::Global;
use toml_document::push_quoted;

/// How many errors of each sort are printed as text.
const MAX_PRINTED: usize = 20;

/// What `check` prints, and its status.
pub(crate) fn answer(
    alloc: Global,
    document: &Document<'_>,
    is_json: bool,
) -> Result<(u8, String)> {
    let status = u8::from(!document.is_right());
    let answer = match is_json {
        true => lines(alloc, document)?,
        false => rendered(alloc, document)?,
    };
    Ok((status, answer))
}

/// The first errors with the lines where they stand, those of syntax first.
pub(crate) fn rendered(alloc: Global, document: &Document<'_>) -> Result<String> {
    let index = LineIndex::new(alloc, document.text)?;
    let renderer = Renderer {
        index: &index,
        name: document.name,
    };
    let mut out = String::new(alloc);
    for error in document.errors.iter().take(MAX_PRINTED) {
        renderer.diagnostic(
            &mut out,
            Severity::Error,
            error.message.as_str(),
            error.range,
        )?;
    }
    for problem in document.problems.iter().take(MAX_PRINTED) {
        let message = problem.kind.message();
        renderer.diagnostic(&mut out, Severity::Error, message, problem.range)?;
        if let Some(first) = problem.first {
            renderer.diagnostic(&mut out, Severity::Note, "it stands here first", first)?;
        }
    }
    let printed = document.errors.len().min(MAX_PRINTED);
    let printed = printed.saturating_add(document.problems.len().min(MAX_PRINTED));
    let all = document
        .errors
        .len()
        .saturating_add(document.problems.len());
    if all > printed {
        writeln!(out, "{} more errors", all.saturating_sub(printed))?;
    }
    Ok(out)
}

/// Each error in a line of JSON.
fn lines(alloc: Global, document: &Document<'_>) -> Result<String> {
    let index = LineIndex::new(alloc, document.text)?;
    let mut out = String::new(alloc);
    for error in document.errors.iter() {
        push_line(&mut out, &index, error.message.as_str(), error.range, None)?;
    }
    for problem in document.problems.iter() {
        let message = problem.kind.message();
        push_line(&mut out, &index, message, problem.range, problem.first)?;
    }
    Ok(out)
}

fn push_line(
    out: &mut String,
    index: &LineIndex<'_>,
    message: &str,
    range: TextRange,
    first: Option<TextRange>,
) -> Result<()> {
    out.push_str("{\"message\": ")?;
    push_quoted(out, message)?;
    push_range(out, index, ", ", range)?;
    if let Some(first) = first {
        out.push_str(", \"first\": {")?;
        push_range(out, index, "", first)?;
        out.push('}')?;
    }
    out.push_str("}\n")?;
    Ok(())
}

/// The offsets of a range in bytes, and the line and the column where it starts, both from 1.
fn push_range(
    out: &mut String,
    index: &LineIndex<'_>,
    before: &str,
    range: TextRange,
) -> Result<()> {
    let place = index.line_column(range.start());
    let line = place.line.saturating_add(1);
    let column = place.column.saturating_add(1);
    let start = u32::from(range.start());
    let end = u32::from(range.end());
    write!(out, "{before}\"start\": {start}, \"end\": {end}, ")?;
    write!(out, "\"line\": {line}, \"column\": {column}")?;
    Ok(())
}
