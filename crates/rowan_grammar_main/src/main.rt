//! The program `rowan_grammar`: looks at grammars, and writes what they give.
//!
//!     rowan_grammar check GRAMMAR..
//!     rowan_grammar write GRAMMAR FOLDER
//!     rowan_grammar diff GRAMMAR FOLDER
#![tactic(auto)]

mod folder;

use crate::folder::{Folder, is_in_the_way, is_other};
use anyhow::{Context, Error, Result, bail};
use rowan_grammar::{Written, generate};
use std::process::ExitCode;
use std::{env, fs};

const USAGE: &str =
    "usage: rowan_grammar check GRAMMAR.. | write GRAMMAR FOLDER | diff GRAMMAR FOLDER";

/// How a command ended, from the best to the worst. The number is the status.
#[derive(Clone, Copy, PartialEq, Eq, PartialOrd, Ord)]
enum End {
    Well = 0,
    Wrong = 1,
    Failed = 2,
}

fn main(rt: HostRuntime) -> ExitCode {
    let end = match run(&rt) {
        Ok(end) => end,
        Err(error) => failed(&rt, &error),
    };
    ExitCode::from(end as u8)
}

fn failed(rt: &HostRuntime, error: &Error) -> End {
    // Where standard error takes no line either, the status alone tells.
    let _ = eprintln!(rt; "rowan_grammar: {error:#}");
    End::Failed
}

/// Does what the words behind the program's name ask for.
fn run(rt: &HostRuntime) -> Result<End> {
    let words: Vec<String> = env::args(rt)?.skip(1).collect(rt.alloc())?;
    let Some((command, rest)) = words.as_slice().split_first() else {
        bail!("{USAGE}");
    };
    match (command.as_str(), rest) {
        ("check", [_, ..]) => Ok(check_all(rt, rest)),
        ("write", [grammar, folder]) => write(rt, grammar.as_str(), folder.as_str()),
        ("diff", [grammar, folder]) => diff(rt, grammar.as_str(), folder.as_str()),
        _ => bail!("{USAGE}"),
    }
}

/// Prints what is wrong with each of the grammars, and how much those have that can be used. Goes
/// on behind one that cannot be read.
fn check_all(rt: &HostRuntime, names: &[String]) -> End {
    let mut worst = End::Well;
    for name in names.iter() {
        let end = match check(rt, name.as_str()) {
            Ok(end) => end,
            Err(error) => failed(rt, &error),
        };
        worst = worst.max(end);
    }
    worst
}

fn check(rt: &HostRuntime, name: &str) -> Result<End> {
    let text = read(rt, name)?;
    let made = rowan_grammar::check(rt.alloc(), text.as_str(), name).context(format_args!(
        "reading {name}"
    ))?;
    print!(rt; "{}", made.messages)?;
    if made.has_errors {
        return Ok(End::Wrong);
    }
    let kinds = made.summary.kinds;
    let wrappers = made.summary.wrappers;
    let calls = made.summary.calls;
    println!(rt; "{name}: kinds {kinds}, wrappers {wrappers}, accessors {calls}")?;
    Ok(End::Well)
}

fn read(rt: &HostRuntime, name: &str) -> Result<String> {
    let text = fs::read_to_string(rt, name).context(format_args!("reading {name}"))?;
    Ok(text)
}

/// What a grammar gives. Prints what is wrong with it.
fn made_by(rt: &HostRuntime, name: &str) -> Result<Written> {
    let text = read(rt, name)?;
    let made = generate(rt.alloc(), text.as_str(), name).context(format_args!("reading {name}"))?;
    print!(rt; "{}", made.messages)?;
    Ok(made)
}

/// Writes the files of a grammar into the folder of a crate, and removes those that it no longer
/// gives: all of them, or none where one of another grammar or by hand stands in the way, or where
/// one cannot be written.
fn write(rt: &HostRuntime, name: &str, folder: &str) -> Result<End> {
    let made = made_by(rt, name)?;
    if made.has_errors {
        return Ok(End::Wrong);
    }
    let folder = Folder { rt, name: folder };
    let old = folder.old_texts(made.files.as_slice())?;
    for (file, old) in made.files.iter().zip(old.iter()) {
        if is_in_the_way(file, old.as_str()) {
            bail!("{}/{} was not written for {name}", folder.name, file.path);
        }
    }
    let mut changed = Vec::new(rt.alloc());
    for (file, old) in made.files.iter().zip(old.iter()) {
        if is_other(file, old.as_str()) {
            changed.push(file)?;
        }
    }
    folder.replace(changed.as_slice())?;
    Ok(End::Well)
}

/// Prints the names of the files in the folder of a crate that are not what the grammar gives, or
/// that it gives no longer.
fn diff(rt: &HostRuntime, name: &str, folder: &str) -> Result<End> {
    let made = made_by(rt, name)?;
    if made.has_errors {
        return Ok(End::Wrong);
    }
    let folder = Folder { rt, name: folder };
    let old = folder.old_texts(made.files.as_slice())?;
    let mut end = End::Well;
    for (file, old) in made.files.iter().zip(old.iter()) {
        if is_other(file, old.as_str()) {
            end = End::Wrong;
            println!(rt; "{}/{} is not what {name} gives", folder.name, file.path)?;
        }
    }
    Ok(end)
}
