//! The lines: a case, a phase, a value, a call with its answer.
ghost use Rattle.std.specs.Prelude.{IfOk};

use rowan::Fault;
use std::alloc::{AllocError, Global};
use std::fmt::{self, Debug, Display};
use std::io;

/// What a case does just now, which says whether a refusal may come.
#[derive(Clone, Copy)]
pub enum Phase {
    /// It makes values. The call whose request is refused answers `Memory`.
    Making,
    /// It moves, walks, searches and reads texts in values that are made. Nothing asks for memory.
    Moving,
    /// It drops values. A drop may ask for memory, and does without what is refused.
    Dropping,
}

impl Display for Phase {
    fn fmt<W: fmt::Write>(&self, f: &mut fmt::Formatter<W>) -> fmt::Result {
        f.write_str(match self {
            Phase::Making => "making",
            Phase::Moving => "moving",
            Phase::Dropping => "dropping",
        })
    }
}

/// Which part of a trace, a replay or a session was refused for memory.
#[derive(Clone, Copy, PartialEq)]
pub enum Part {
    /// All of it: it answered `Memory`.
    Whole,
    /// The call of that number, from 0.
    Call(usize),
    /// The step of that number, from 0.
    Step(usize),
    /// The root of a session's tree, or the room for its reports.
    End,
}

impl Display for Part {
    fn fmt<W: fmt::Write>(&self, f: &mut fmt::Formatter<W>) -> fmt::Result {
        match self {
            Part::Whole => Ok(()),
            Part::Call(number) => write!(f, ", in call {number}"),
            Part::Step(number) => write!(f, ", in step {number}"),
            Part::End => f.write_str(", in its end"),
        }
    }
}

/// Why a case was given up.
#[derive(Clone, Copy)]
pub enum Stop {
    /// A line was not printed.
    Unprinted,
    /// A call was refused that had to be accepted.
    Refused(Fault),
}

impl From<Fault> for Stop {
    fn from(fault: Fault) -> Stop {
        Stop::Refused(fault)
    }
}

impl From<AllocError> for Stop {
    fn from(_error: AllocError) -> Stop {
        Stop::Refused(Fault::Memory)
    }
}

impl From<io::Error> for Stop {
    fn from(_error: io::Error) -> Stop {
        Stop::Unprinted
    }
}

impl Display for Stop {
    fn fmt<W: fmt::Write>(&self, f: &mut fmt::Formatter<W>) -> fmt::Result {
        match self {
            Stop::Unprinted => f.write_str("a line was not printed"),
            Stop::Refused(fault) => write!(f, "{fault}"),
        }
    }
}

/// Prints the answers of calls. It takes no memory itself.
#[derive(Clone, Copy)]
pub struct Transcript<'a> {
    rt: &'a HostRuntime,
}

impl<'a> Transcript<'a> {
    /// A transcript on standard output.
    pub fn new(rt: &'a HostRuntime) -> Transcript<'a> {
        Transcript { rt }
    }

    /// The allocator whose requests may be refused.
    pub fn alloc(&self) -> Global {
        self.rt.alloc()
    }

    /// Says which case begins.
    pub fn case(&self, name: &str) -> Result<(), Stop> {
        Ok(println!(self.rt; "case {name}")?)
    }

    /// Says what the case does from now on.
    pub fn phase(&self, phase: Phase) -> Result<(), Stop> {
        Ok(println!(self.rt; "{phase}")?)
    }

    /// Says what a value is.
    pub fn tell<T: Debug>(&self, name: &str, value: &T) -> Result<(), Stop> {
        Ok(println!(self.rt; "{name}: {value:?}")?)
    }

    /// Says how a value is shown.
    pub fn show<T: Display>(&self, name: &str, value: &T) -> Result<(), Stop> {
        Ok(println!(self.rt; "{name}: {value}")?)
    }

    /// Drops a value apart from what is made: the requests of its drop need no answer.
    pub fn drop_apart<T: Drop>(&self, value: T) -> Result<(), Stop> {
        self.phase(Phase::Dropping)?;
        drop(value);
        self.phase(Phase::Making)
    }

    /// Says that a part of a call was refused for memory.
    pub fn tell_refusal(&self, call: &str, part: Part) -> Result<(), Stop> {
        Ok(println!(self.rt; "{call}{part}: {:?}", Fault::Memory)?)
    }

    /// Says what a call answered.
    pub fn tell_answer<C: Display + Copy>(
        &self,
        call: C,
        answer: Result<(), Fault>,
    ) -> Result<(), Stop> {
        match answer {
            Ok(()) => println!(self.rt; "{call}: done")?,
            Err(fault) => println!(self.rt; "{call}: {fault:?}")?,
        }
        Ok(())
    }
}

/// Makes a call, once more where it is refused for memory, and says what it answers. The name of a
/// call that drops large values, too, ends in `with drops`, for these requests need no answer. That
/// of a call on TOML's numbers with underscores ends in `with underscores`: where room for their
/// digits is refused it does without.
///
/// Errors: what the call answers the second time; `Unprinted` where a line is not printed.
pub fn ask<T: Drop, F: Fn() -> Result<T, Fault>>(
    log: &Transcript<'_>,
    name: &str,
    call: F,
) -> Result<T, Stop>
    requires { F.IsAlwaysCallable call }
    ensures made { IfOk result (λ value. F.post call (Ok value)) }
{
    if let Ok(value) = call() {
        log.tell_answer(name, Ok(()))?;
        return Ok(value);
    }
    log.tell_answer(name, Err(Fault::Memory))?;
    let value = call()?;
    log.tell_answer(name, Ok(()))?;
    Ok(value)
}
