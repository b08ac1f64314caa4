//! The program `rowan`: reads a text on standard input, and prints what its one argument asks for.
#![tactic(auto)]

use rowan_program::Stop;
use std::io::ErrorKind;
use std::process::ExitCode;
use std::{env, io};

fn main(rt: HostRuntime) -> ExitCode {
    let Err(stop) = run(&rt) else {
        return ExitCode::SUCCESS;
    };
    // Where standard error takes no line either, the status alone tells.
    let _ = eprintln!(rt; "{}", stop.line());
    ExitCode::from(stop.status())
}

/// Runs the program with the words behind its name. One that is no text is no command.
fn run(rt: &HostRuntime) -> Result<(), Stop> {
    let args = match env::args(rt) {
        Ok(args) => args,
        Err(error) if error.kind() == ErrorKind::InvalidData => return Err(Stop::Usage),
        Err(_) => return Err(Stop::NoMemory),
    };
    let words: Vec<String> = args.skip(1).collect(rt.alloc())?;
    rowan_program::run(rt.alloc(), &words, &mut rt.reader(), &mut io::writer(rt))
}
