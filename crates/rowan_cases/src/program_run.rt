//! Stored runs of the program rowan, and how they come out today, over an input and an output in
//! memory.

use crate::stored::{read_bytes, read_text};
use anyhow::{Context, Result};
use std::alloc::{AllocError, Global};
use std::fmt;
use std::rt::Files;

/// What the program is given in a run, and what it must answer.
#[derive(Drop)]
pub struct StoredRun {
    args: Vec<String>,
    input: Vec<u8>,
    outcome: Outcome,
}

/// What a run of the program leaves behind.
#[derive(Drop)]
struct Outcome {
    /// All that it wrote to standard output.
    output: Vec<u8>,
    /// Its line on standard error without the line's end; empty where it wrote none.
    line: String,
    status: u8,
}

/// A part of an outcome.
#[derive(Clone, Copy)]
pub enum Part {
    Output,
    Line,
    Status,
}

impl fmt::Display for Part {
    fn fmt<W: fmt::Write>(&self, f: &mut fmt::Formatter<W>) -> fmt::Result {
        match self {
            Part::Output => write!(f, "output"),
            Part::Line => write!(f, "line on standard error"),
            Part::Status => write!(f, "status"),
        }
    }
}

impl StoredRun {
    /// Reads a run with any arguments, of which each part of the outcome is stored.
    pub fn read(rt: &(impl Files + AllocGlobal), name: &str) -> Result<StoredRun> {
        Ok(StoredRun {
            args: read_args(rt, name)?,
            input: read_bytes(rt, name, "in")?,
            outcome: Outcome {
                output: read_bytes(rt, name, "out")?,
                line: read_line(rt, name, "err")?,
                status: read_status(rt, name)?,
            },
        })
    }

    /// Reads a run with one command, which prints what is stored under its name and ends well.
    pub fn read_command(
        rt: &(impl Files + AllocGlobal),
        name: &str,
        command: &str,
    ) -> Result<StoredRun> {
        let alloc = rt.alloc();
        Ok(StoredRun {
            args: vec![in alloc; String::from_str(alloc, command)?]?,
            input: read_bytes(rt, name, "in")?,
            outcome: Outcome {
                output: read_bytes(rt, name, command)?,
                line: String::new(alloc),
                status: 0,
            },
        })
    }

    /// Makes the run once more, and gives the first part of its outcome that is another one today.
    pub fn first_difference(&self, alloc: Global) -> Result<Option<Part>, AllocError> {
        let outcome = Outcome::of(alloc, self.args.as_slice(), self.input.as_slice())?;
        if outcome.output.as_slice() != self.outcome.output.as_slice() {
            return Ok(Some(Part::Output));
        }
        if outcome.line.as_str() != self.outcome.line.as_str() {
            return Ok(Some(Part::Line));
        }
        if outcome.status != self.outcome.status {
            return Ok(Some(Part::Status));
        }
        Ok(None)
    }
}

/// The words of the file `NAME.args`, one a line.
fn read_args(rt: &(impl Files + AllocGlobal), name: &str) -> Result<Vec<String>> {
    let mut args = Vec::new(rt.alloc());
    for word in read_text(rt, name, "args")?.as_str().lines() {
        args.push(String::from_str(rt.alloc(), word)?)?;
    }
    Ok(args)
}

/// The line of a file without what ends it.
fn read_line(rt: &(impl Files + AllocGlobal), name: &str, ending: &str) -> Result<String> {
    let line = read_text(rt, name, ending)?;
    Ok(String::from_str(rt.alloc(), line.as_str().trim_end())?)
}

/// The number in the file `NAME.status`.
fn read_status(rt: &(impl Files + AllocGlobal), name: &str) -> Result<u8> {
    let status = read_line(rt, name, "status")?;
    status
        .as_str()
        .parse::<u8>()
        .context(format_args!("reading {name}.status"))
}

impl Outcome {
    /// Runs the program with these arguments.
    fn of(alloc: Global, args: &[String], input: &[u8]) -> Result<Outcome, AllocError> {
        let mut unread = input;
        let mut output = Vec::new(alloc);
        let (line, status) = match rowan_program::run(alloc, args, &mut unread, &mut output) {
            Ok(()) => ("", 0),
            Err(stop) => (stop.line(), stop.status()),
        };
        Ok(Outcome {
            output,
            line: String::from_str(alloc, line)?,
            status,
        })
    }
}
