//! The program `toml_tool`: says what is wrong with a document of TOML, prints its values, and formats
//! it.
//!
//!     toml_tool check [--spec 1.1] [--format json] [FILE]
//!     toml_tool get [--spec 1.1] [--raw] KEY [FILE]
//!     toml_tool json [--spec 1.1] [FILE]
//!     toml_tool fmt [--check] [FILE|FOLDER]..
//!
//! Without a file it reads standard input. Its status is 0; 1 for a document with errors, a key that
//! is not there, or what can't be read or written; and 2 for wrong arguments.
#![tactic(auto)]

mod args;
mod check;
mod document;
mod formatting;
mod get;
mod input;
mod json;

use crate::args::{Options, Task};
use crate::document::Document;
use anyhow::Result;
use std::env;
use std::io::{self, Write};
use std::process::ExitCode;
use toml_syntax::TomlParser;

fn main(rt: HostRuntime) -> ExitCode {
    match run(&rt) {
        Ok(status) => ExitCode::from(status),
        Err(error) => {
            // Where standard error takes no line either, the status alone tells.
            let _ = eprintln!(rt; "toml_tool: {error:#}");
            ExitCode::from(1)
        }
    }
}

/// Does what the words behind the program's name ask for, and gives the status.
fn run(rt: &HostRuntime) -> Result<u8> {
    let words: Vec<String> = env::args(rt)?.collect(rt.alloc())?;
    let command = args::command(rt.alloc())?;
    match command.try_get_matches_from(words.as_slice()) {
        Ok(matches) => match args::asked_for(&matches) {
            Some(options) => match options.task {
                Task::Format(how) => formatting::run(rt, options, how),
                _ => answer(rt, options),
            },
            None => Ok(2),
        },
        Err(error) => {
            error.print(rt)?;
            Ok(if error.use_stderr() { 2 } else { 0 })
        }
    }
}

/// Reads the input, and prints what is asked for.
fn answer(rt: &HostRuntime, options: Options<'_, '_>) -> Result<u8> {
    let alloc = rt.alloc();
    let text = input::text(rt, options.file())?;
    let name = options.file().unwrap_or("<stdin>");
    let parser = TomlParser::new(alloc)?;
    let document = Document::new(alloc, &parser, text.as_str(), name, options.version)?;
    let (status, answer) = match options.task {
        Task::Get { key, is_raw } => get::answer(alloc, &document, key, is_raw)?,
        Task::Json => json::answer(alloc, &document)?,
        _ => check::answer(alloc, &document, options.is_json)?,
    };
    print(rt, answer.as_str())?;
    if !document.is_right() && !options.is_check() {
        let complaints = check::rendered(alloc, &document)?;
        eprint!(rt; "{complaints}")?;
    }
    Ok(status)
}

/// Writes a text to standard output, all of it.
fn print(rt: &HostRuntime, text: &str) -> Result<()> {
    let mut out = io::writer(rt);
    out.write_all(text.as_bytes())?;
    out.flush()?;
    Ok(())
}
