//! The text that the program reads.
use anyhow::{Context, Result, bail};
use std::{fs, io};

/// The most bytes that an input may have, as every offset in a tree has 32 bits.
const MAX_INPUT: usize = u32::MAX as usize;

/// The text of a file, or of standard input.
///
/// Errors: what can't be read, is no UTF-8, or has more than 4,294,967,295 bytes.
pub(crate) fn text(rt: &HostRuntime, file: Option<&str>) -> Result<String> {
    let text = match file {
        Some(name) => { fs::read_to_string(rt, name).context(format_args!("reading {name}"))? }
        None => io::read_to_string(rt.alloc(), rt.reader()).context("reading standard input")?,
    };
    if text.len() > MAX_INPUT {
        bail!("the input has more than {MAX_INPUT} bytes");
    }
    Ok(text)
}
