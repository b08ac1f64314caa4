//! Files that are formatted.
use crate::args::{Formatting, Options};
use crate::document::Document;
use crate::{check, input};
use anyhow::{Context, Error, Result};
use std::fs;
use std::path::Path;
use toml_document::Version;
use toml_format::formatted;
use toml_syntax::TomlParser;

/// Formats what the arguments name, and gives the status.
pub(crate) fn run(rt: &HostRuntime, options: Options<'_, '_>, how: Formatting) -> Result<u8> {
    let formatter = Formatter {
        rt,
        parser: TomlParser::new(rt.alloc())?,
        version: options.version,
        how,
    };
    if options.files.is_empty() {
        return formatter.standard_input();
    }
    let mut status = 0;
    for name in options.files.iter() {
        status = formatter
            .all_in(name)
            .unwrap_or_else(|error| told(rt, &error))
            .max(status);
    }
    Ok(status)
}

/// Prints an error, and gives the status behind it.
fn told(rt: &HostRuntime, error: &Error) -> u8 {
    // Where standard error takes no line either, the status alone tells.
    let _ = eprintln!(rt; "toml_tool: {error:#}");
    1
}

#[derive(Drop)]
struct Formatter<'a> {
    rt: &'a HostRuntime,
    parser: TomlParser,
    version: Version,
    how: Formatting,
}

impl Formatter<'_> {
    fn standard_input(&self) -> Result<u8> {
        let text = input::text(self.rt, None)?;
        let Some(new) = self.formatted("<stdin>", text.as_str())? else {
            return Ok(1);
        };
        if self.how.is_check {
            return Ok(u8::from(new.as_str() != text.as_str()));
        }
        print!(self.rt; "{new}")?;
        Ok(0)
    }

    /// Formats a file, or the files of a folder whose names end with `.toml`, in the order of their
    /// names. Goes on behind one that can't be formatted.
    fn all_in(&self, name: &str) -> Result<u8> {
        if !fs::metadata(self.rt, name)
            .context(format_args!("reading {name}"))?
            .is_dir()
        {
            return self.file(name);
        }
        let mut status = 0;
        let names = self.names_in(name).context(format_args!("reading {name}"))?;
        for name in names.iter() {
            let one = self.file(name.as_str());
            status = one
                .unwrap_or_else(|error| told(self.rt, &error))
                .max(status);
        }
        Ok(status)
    }

    fn names_in(&self, folder: &str) -> Result<Vec<String>> {
        let alloc = self.rt.alloc();
        let mut names = Vec::new(alloc);
        for entry in fs::read_dir(self.rt, folder)? {
            let entry = entry?;
            let name = entry.file_name();
            if name.ends_with(".toml") && !entry.file_type()?.is_dir() {
                let path = Path::new(folder).join(alloc, name)?;
                names.push(String::from_str(alloc, path.as_path().as_str())?)?;
            }
        }
        names.sort()?;
        Ok(names)
    }

    fn file(&self, name: &str) -> Result<u8> {
        let text = input::text(self.rt, Some(name))?;
        let Some(new) = self.formatted(name, text.as_str())? else {
            return Ok(1);
        };
        if new.as_str() == text.as_str() {
            return Ok(0);
        }
        if self.how.is_check {
            println!(self.rt; "{name}")?;
            return Ok(1);
        }
        atomic_file::replace(self.rt, self.rt.alloc(), name, new.as_str()).context(format_args!(
            "writing {name}"
        ))?;
        Ok(0)
    }

    /// The text as it is formatted. Where something is wrong with it, and nothing forces that, this is
    /// printed.
    fn formatted(&self, name: &str, text: &str) -> Result<Option<String>> {
        let alloc = self.rt.alloc();
        let document = Document::new(alloc, &self.parser, text, name, self.version)?;
        if !document.is_right() && !self.how.is_forced {
            let complaints = check::rendered(alloc, &document)?;
            eprint!(self.rt; "{complaints}")?;
            return Ok(None);
        }
        let parse = formatted(alloc, &self.parser, &document.green, self.how.style).context(
            format_args!("formatting {name}"),
        )?;
        Ok(Some(parse.green.to_string(alloc)?))
    }
}
