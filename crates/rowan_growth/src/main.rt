//! Makes a call of the libraries at a tree of a shape and a size, so that its instructions can be
//! counted: `bench/growth` runs this program at two sizes.
#![tactic(auto)]

mod cursors;
mod edits;
mod greens;
mod moves;
mod rules;
mod texts;
mod tools;
mod trees;
mod typed;
mod wrappers;

use anyhow::{Result, bail};
use rowan::Fault;
use std::env;
use std::process::ExitCode;
use trees::{Shape, Tree};

const HELP: &str = "\
usage: rowan_growth CALL SHAPE SIZE TIMES

Makes a tree of about SIZE tokens, a second one that shares nothing with it, and a cursor at its
root. Then makes the call so many times, and prints the sum of the numbers that came of it. A SHAPE is
wide, flat, deep, empty or shared. bench/growth has the calls.";

fn main(rt: HostRuntime) -> ExitCode {
    match run(&rt) {
        Ok(()) => ExitCode::SUCCESS,
        Err(why) => {
            let _ = eprintln!(rt; "rowan_growth: {why}");
            ExitCode::FAILURE
        }
    }
}

fn run(rt: &HostRuntime) -> Result<()> {
    let words: Vec<String> = env::args(rt)?.skip(1).collect(rt.alloc())?;
    let [call, shape, size, times] = words.as_slice() else {
        println!(rt; "{HELP}")?;
        return Ok(());
    };
    let Some(shape) = Shape::from_word(shape.as_str()) else {
        bail!("there is no such shape");
    };
    let (Ok(size), Ok(times)) = (
        size.as_str().parse::<usize>(),
        times.as_str().parse::<usize>(),
    ) else {
        bail!("a number is missing");
    };
    let tree = Tree::new(rt.alloc(), shape, size)?;
    let mut sum: u64 = 0;
    for _ in 0..times {
        let Some(number) = make(call.as_str(), &tree)? else {
            bail!("there is no such call");
        };
        sum = sum.wrapping_add(number);
    }
    println!(rt; "{sum}")?;
    Ok(())
}

/// Makes a call once. `None` if there is no call of that name.
fn make(call: &str, tree: &Tree) -> Result<Option<u64>, Fault> {
    if let Some(number) = greens::make(call, tree)? {
        return Ok(Some(number));
    }
    if let Some(number) = cursors::make(call, tree)? {
        return Ok(Some(number));
    }
    if let Some(number) = moves::make(call, tree)? {
        return Ok(Some(number));
    }
    if let Some(number) = texts::make(call, tree)? {
        return Ok(Some(number));
    }
    if let Some(number) = typed::make(call, tree)? {
        return Ok(Some(number));
    }
    if let Some(number) = edits::make(call, tree)? {
        return Ok(Some(number));
    }
    if let Some(number) = wrappers::make(call, tree)? {
        return Ok(Some(number));
    }
    if let Some(number) = rules::make(call, tree)? {
        return Ok(Some(number));
    }
    tools::make(call, tree)
}
