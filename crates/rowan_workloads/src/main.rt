//! The jobs that programs over syntax trees wait for, on inputs that are drawn from a number: each makes its inputs, does its work by
//! public calls, and prints a digest of all that came out. Without arguments it prints how it is called.
#![tactic(auto)]

mod build;
mod digest;
mod document;
mod draws;
mod edit;
mod extremes;
mod look;
mod parse;
mod print;

use anyhow::{Result, bail};
use digest::Digest;
use draws::Draws;
use rowan::Fault;
use std::alloc::Global;
use std::env;
use std::process::ExitCode;

const HELP: &str = "\
usage: rowan_workloads parse|build|look|edit|print|extremes SEED [ROUNDS]
       rowan_workloads all SEED ROUNDS

parse     reads the files of a project, each with a cache of its own or with one that all share
build     builds trees of another language by builder calls, with checkpoints and many different names
look      makes a cursor at the root of each tree, walks, searches by place, resolves pointers and reads texts
edit      edits documents: token by token in a trace, list by list with a cursor at each new root, and many lists at once
print     runs the program on texts: the tree, its JSON, and the numbers that the expressions read
extremes  a node with very many children, lists in each other to a great depth, and parentheses without order
all       all of these, with so many rounds each";

/// A job that is waited for.
#[derive(Clone, Copy, Debug)]
enum Job {
    Parse,
    Build,
    Look,
    Edit,
    Print,
    Extremes,
}

impl Job {
    const ALL: [Job; 6] = [
        Job::Parse,
        Job::Build,
        Job::Look,
        Job::Edit,
        Job::Print,
        Job::Extremes,
    ];

    /// The job of that name.
    fn from_word(word: &str) -> Option<Job> {
        match word {
            "parse" => Some(Job::Parse),
            "build" => Some(Job::Build),
            "look" => Some(Job::Look),
            "edit" => Some(Job::Edit),
            "print" => Some(Job::Print),
            "extremes" => Some(Job::Extremes),
            _ => None,
        }
    }

    /// How many rounds take a second or more: with them each size of input comes equally often.
    fn rounds(self) -> usize {
        match self {
            Job::Parse => 300,
            Job::Build => 256,
            Job::Look => 84,
            Job::Edit => 90,
            Job::Print => 153,
            Job::Extremes => 35,
        }
    }

    /// Does so many rounds, and answers the digest of what came out.
    fn run(self, alloc: Global, seed: u64, rounds: usize) -> Result<u64, Fault> {
        let mut draws = Draws::new(seed);
        let mut digest = Digest::new();
        match self {
            Job::Parse => parse::run(alloc, &mut draws, rounds, &mut digest)?,
            Job::Build => build::run(alloc, &mut draws, rounds, &mut digest)?,
            Job::Look => look::run(alloc, &mut draws, rounds, &mut digest)?,
            Job::Edit => edit::run(alloc, &mut draws, rounds, &mut digest)?,
            Job::Print => print::run(alloc, &mut draws, rounds, &mut digest)?,
            Job::Extremes => extremes::run(alloc, &mut draws, rounds, &mut digest)?,
        }
        Ok(digest.value())
    }
}

fn main(rt: HostRuntime) -> ExitCode {
    match run(&rt) {
        Ok(()) => ExitCode::SUCCESS,
        Err(why) => {
            let _ = eprintln!(rt; "rowan_workloads: {why}");
            ExitCode::FAILURE
        }
    }
}

fn run(rt: &HostRuntime) -> Result<()> {
    let words: Vec<String> = env::args(rt)?.skip(1).collect(rt.alloc())?;
    let Some(word) = words.first() else {
        println!(rt; "{HELP}")?;
        return Ok(());
    };
    let Some(seed) = number_at(words.as_slice(), 1) else {
        bail!("a seed is missing");
    };
    let rounds = number_at(words.as_slice(), 2);
    if word.as_str() == "all" {
        for job in Job::ALL {
            tell(rt, job, seed, rounds)?;
        }
        return Ok(());
    }
    match Job::from_word(word.as_str()) {
        Some(job) => tell(rt, job, seed, rounds),
        None => bail!("there is no such job"),
    }
}

/// The word at a place, as a number.
fn number_at(words: &[String], place: usize) -> Option<u64> {
    words.get(place)?.as_str().parse::<u64>().ok()
}

/// Does a job, and prints its digest.
fn tell(rt: &HostRuntime, job: Job, seed: u64, rounds: Option<u64>) -> Result<()> {
    let rounds = match rounds {
        Some(rounds) => rounds as usize,
        None => job.rounds(),
    };
    let digest = job.run(rt.alloc(), seed, rounds)?;
    println!(rt; "{job:?} {digest:016x}")?;
    Ok(())
}
