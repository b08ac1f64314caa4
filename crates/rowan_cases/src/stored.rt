//! The stored answers that an argument names, and whether the answers of today are equal to them.

use crate::case_file::CaseFile;
use crate::compare::{Comparison, compare};
use crate::operand;
use crate::program_run::StoredRun;
use crate::runner::{self, Caches, Kept};
use anyhow::{Context, Result};
use std::alloc::Global;
use std::fs;
use std::rt::Files;

/// Compares what an argument names. The answers are to be equal to the stored ones, but after
/// `other:` they are to differ.
pub fn is_as_wanted(rt: &(impl Files + Print + AllocGlobal), argument: &str) -> Result<bool> {
    match argument.strip_prefix("other:") {
        Some(name) => Ok(!is_equal(rt, name)?),
        None => is_equal(rt, argument),
    }
}

/// Compares what a name stands for, and prints what was found: `NAME` is a case file,
/// `shared:LIMIT:NAME` one whose cases share a cache, `FOLDER.run` whole runs of the program, and
/// `FOLDER.COMMAND` texts with what the program prints of them.
fn is_equal(rt: &(impl Files + Print + AllocGlobal), argument: &str) -> Result<bool> {
    if let Some(shared) = argument.strip_prefix("shared:") {
        let (limit, name) = shared.split_once(':').context("a limit is missing")?;
        let caches = Caches::Shared(operand::number(limit)? as usize);
        return is_case_file_equal(rt, argument, name, caches);
    }
    match argument.split_once('.') {
        Some((folder, ending)) => are_runs_equal(rt, folder, ending),
        None => is_case_file_equal(rt, argument, argument, Caches::OfCases),
    }
}

/// Compares the answers to a case file.
fn is_case_file_equal(
    rt: &(impl Files + Print + AllocGlobal),
    argument: &str,
    name: &str,
    caches: Caches,
) -> Result<bool> {
    let text = read_text(rt, name, "case")?;
    let wanted = read_text(rt, name, "out")?;
    let (comparison, kept) = compare_answers(
        rt.alloc(),
        text.as_str(),
        wanted.as_str(),
        caches,
    ).context(format_args!("answering {name}.case"))?;
    println!(rt; "{argument}: {comparison}{kept}")?;
    Ok(matches!(comparison, Comparison::Equal(_)))
}

fn compare_answers<'a>(
    alloc: Global,
    text: &str,
    wanted: &'a str,
    caches: Caches,
) -> Result<(Comparison<'a>, Kept)> {
    let file = CaseFile::parse(alloc, text)?;
    let (answers, kept) = runner::answers_of(alloc, &file, caches)?;
    Ok((compare(alloc, answers.as_slice(), wanted)?, kept))
}

/// Compares runs of the program, one for each name that the folder's index lists.
fn are_runs_equal(
    rt: &(impl Files + Print + AllocGlobal),
    folder: &str,
    ending: &str,
) -> Result<bool> {
    let index = format!(in rt.alloc(); "{folder}/index")?;
    let names = read_text(rt, index.as_str(), "txt")?;
    let mut equal = 0usize;
    for name in names.as_str().lines() {
        if !is_run_equal(rt, folder, ending, name)? {
            return Ok(false);
        }
        equal = equal.saturating_add(1);
    }
    println!(rt; "{folder}.{ending}: {equal} answers equal")?;
    Ok(true)
}

fn is_run_equal(
    rt: &(impl Files + Print + AllocGlobal),
    folder: &str,
    ending: &str,
    name: &str,
) -> Result<bool> {
    let path = format!(in rt.alloc(); "{folder}/{name}")?;
    let stored = match ending {
        "run" => StoredRun::read(rt, path.as_str())?,
        command => StoredRun::read_command(rt, path.as_str(), command)?,
    };
    match stored.first_difference(rt.alloc())? {
        Some(part) => {
            println!(rt; "{folder}.{ending}: {name} has another {part}")?;
            Ok(false)
        }
        None => Ok(true),
    }
}

/// The file `NAME.ENDING`.
pub fn read_text(rt: &(impl Files + AllocGlobal), name: &str, ending: &str) -> Result<String> {
    let path = format!(in rt.alloc(); "{name}.{ending}")?;
    fs::read_to_string(rt, path.as_str()).context(format_args!("reading {path}"))
}

/// The bytes of the file `NAME.ENDING`, which may be no text.
pub fn read_bytes(rt: &(impl Files + AllocGlobal), name: &str, ending: &str) -> Result<Vec<u8>> {
    let path = format!(in rt.alloc(); "{name}.{ending}")?;
    fs::read(rt, path.as_str()).context(format_args!("reading {path}"))
}
