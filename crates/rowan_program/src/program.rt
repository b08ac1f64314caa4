//! The program `rowan`: what its arguments ask for, what it reads and writes, and why it stops.
ghost use Rattle.std.specs.Prelude.{◌≡◌, ◌≢◌, ◌↔◌, ◌<◌, ◌≤◌, [], ◌++◌, length, take, Ok, Err, IfOk};
ghost use Rattle.std.specs.Prelude.{IfErr, IfSome, IfNone, OnOk, IsUtf8, string_bytes, vec_len};
ghost use Rattle.std.specs.Io.KnownBytes.{Appends, Consumes, IsAtEnd};
ghost use Rattle.rowan_table.specs.Moves.{cursor_at};
ghost use Rattle.rowan_program.specs.Program.{AsksFor, IsCommandLine, IsReadWhole, ReadsAll};
ghost use Rattle.rowan_program.specs.Program.{ReadsTooMany, IsShown, Shows, IsAnswered, StopsFor};
ghost use Rattle.rowan_program.specs.Program.{longest_input, value_line, value_lines_at, json_line_at};
ghost use Rattle.rowan_program.specs.Program.{status_of, line_of};

use rowan::{Fault, GreenNode, SyntaxNode};
use rowan_tool::sexp::{self, Lang, Parse, Root};
use std::alloc::{AllocError, Global};
use std::io::{ErrorKind, Read, Write};

/// The most bytes that an input may have, as every offset in a tree has 32 bits.
const MAX_INPUT: usize = u32::MAX as usize;

/// How many bytes one read asks for.
const READ_SIZE: usize = 64 * 1024;

/// What the arguments ask for.
#[derive(Clone, Copy, PartialEq, Eq, Debug)]
pub enum Command {
    /// `tree`: prints the tree of the input, which is read as s-expressions.
    Tree,
    /// `eval`: prints a line for each expression of the input: the number that it reads, or `none`.
    Eval,
    /// `json`: prints the tree of the input as JSON, on one line.
    Json,
}

impl Command {
    /// The command that the words ask for, if they are one.
    fn from_args(args: &[String]) -> Option<Command>
        ensures some { IfSome result (λ command. AsksFor args.now command) }
        ensures none { IfNone result (¬ IsCommandLine args.now) }
    {
        if args.len() != 1 {
            return None;
        }
        match args[0].as_str() {
            "tree" => Some(Command::Tree),
            "eval" => Some(Command::Eval),
            "json" => Some(Command::Json),
            _ => None,
        }
    }
}

/// Why the program stopped.
#[derive(Clone, Copy, PartialEq, Eq, Debug)]
pub enum Stop {
    /// The arguments are no command. Nothing was read.
    Usage,
    /// A read failed.
    CannotRead,
    /// The whole input was read, and it is no text.
    NotUtf8,
    /// More than 4,294,967,295 bytes were read, and the rest was not.
    TooLong,
    /// Memory was refused.
    NoMemory,
    /// A write failed. Some of the output may have been written before it.
    CannotWrite,
}

impl Stop {
    /// The status that the program ends with.
    pub fn status(self) -> u8
        ensures { result ≡ status_of self }
    {
        match self {
            Stop::Usage => 2,
            _ => 1,
        }
    }

    /// The line for standard error, without its newline.
    pub fn line(self) -> &'static str
        ensures { result.now ≡ line_of self }
    {
        match self {
            Stop::Usage => "usage: rowan tree|json|eval",
            Stop::CannotRead => "rowan: cannot read standard input",
            Stop::NotUtf8 => "rowan: input is not UTF-8",
            Stop::TooLong => "rowan: text too long",
            Stop::NoMemory => "rowan: out of memory",
            Stop::CannotWrite => "rowan: cannot write standard output",
        }
    }
}

impl From<AllocError> for Stop {
    ghost use Rattle.rowan_program.specs.declared.program.Stop.TheVariants.{NoMemory};

    ghost from_gives = { λ _ stop. stop ≡ NoMemory };

    fn from(_error: AllocError) -> Stop {
        Stop::NoMemory
    }
}

/// Does what the arguments ask for, the words after the program's name: reads the whole input,
/// prints it into memory, and writes that.
///
/// Stops with `Usage` where the arguments are no command, which is looked at before anything is
/// read; with `CannotRead` after a read that failed; with `TooLong` once more than 4,294,967,295
/// bytes were read, whatever they are; with `NotUtf8` where they are no text; with `NoMemory` where
/// memory is refused; and with `CannotWrite` after a write that failed. Only then may something
/// have been written.
pub fn run<R: Read, W: Write>(
    alloc: Global,
    args: &[String],
    input: &mut R,
    output: &mut W,
) -> Result<(), Stop>
    ensures usage { (result ≡ Err Stop.Usage) ↔ (¬ IsCommandLine args.now) }
    ensures unread { result ≡ Err Stop.Usage → input.new ≡ input.old }
    ensures unwritten { IfErr result (λ stop. stop ≢ Stop.CannotWrite → output.new ≡ output.old) }

    // Of an input whose bytes are known.
    ensures too_long { result ≡ Err Stop.TooLong →
        ReadsTooMany (R.remaining input.old) (R.remaining input.new) }
    ensures not_utf8 { result ≡ Err Stop.NotUtf8 →
        ReadsAll (λ bytes. ¬ IsUtf8 bytes) (R.remaining input.old) (R.remaining input.new) }
    ensures cannot_write { result ≡ Err Stop.CannotWrite →
        ReadsAll IsUtf8 (R.remaining input.old) (R.remaining input.new) }
    ensures read { OnOk result (ReadsAll IsUtf8 (R.remaining input.old) (R.remaining input.new)) }

    // Of an output whose bytes are known, too.
    ensures written { OnOk result (IsAnswered args.now (R.remaining input.old)
        (W.contents output.old) (W.contents output.new)) }
{
    let Some(command) = Command::from_args(args) else {
        return Err(Stop::Usage);
    };
    let text = text_of(read_all(alloc, input)?)?;
    match answer(alloc, command, text.as_str()) {
        Ok(answer) => write_whole(output, answer.as_str()),
        Err(fault) => Err(stop_for(fault)),
    }
}

/// Why the program stops where a text has no answer.
fn stop_for(fault: Fault) -> Stop
    requires { fault ≢ Fault.Memory → fault ≡ Fault.TextTooLong }
    ensures { StopsFor fault result }
{
    match fault {
        Fault::Memory => Stop::NoMemory,
        Fault::TextTooLong => Stop::TooLong,
        _ => unreachable!(),
    }
}

/// What the command prints for the text.
fn answer(alloc: Global, command: Command, text: &str) -> Result<String, Fault>
    ensures ok { IfOk result (λ shown. IsShown command text.now (string_bytes shown)) }
    ensures err { IfErr result (λ fault. fault ≢ Fault.Memory →
        (fault ≡ Fault.TextTooLong) × (longest_input < length text.now)) }
{
    let parse = sexp::parse(alloc, text)?;
    answer_of(alloc, command, &parse)
}

/// What the command prints of the tree.
fn answer_of(alloc: Global, command: Command, parse: &Parse) -> Result<String, Fault>
    ensures ok { IfOk result (λ shown. Shows command parse.now (string_bytes shown)) }
    ensures err { IfErr result (λ fault. fault ≡ Fault.Memory) }
{
    match command {
        Command::Tree => SyntaxNode::<Lang>::debug_tree_of(alloc, parse.green()),
        Command::Eval => value_lines(alloc, &parse.root(alloc)?),
        Command::Json => json_line(alloc, parse.green()),
    }
}

/// The JSON of a tree, and a newline.
fn json_line(alloc: Global, root: &GreenNode) -> Result<String, Fault>
    ensures ok { IfOk result (λ line. string_bytes line ≡ json_line_at (cursor_at root.now [])) }
    ensures err { IfErr result (λ fault. fault ≡ Fault.Memory) }
{
    let mut line = SyntaxNode::<Lang>::to_json_string_of(alloc, root)?;
    line.push_str("\n")?;
    Ok(line)
}

/// A line for each expression of a text, in order: the number that it reads, or `none`.
fn value_lines(alloc: Global, root: &Root) -> Result<String, Fault>
    ensures ok { IfOk result (λ lines. string_bytes lines ≡ value_lines_at root.now) }
    ensures err { IfErr result (λ fault. fault ≡ Fault.Memory) }
{
    let mut lines = String::new(alloc);
    for sexp in root.sexps() {
        push_value_line(&mut lines, sexp?.eval()?)?;
    }
    Ok(lines)
}

/// Adds the line of a value.
fn push_value_line(lines: &mut String, value: Option<i64>) -> Result<(), AllocError>
    ensures { OnOk result (string_bytes lines.new ≡ string_bytes lines.old ++ value_line value) }
{
    match value {
        Some(number) => writeln!(lines, "{number}"),
        None => lines.push_str("none\n"),
    }
}

/// Reads the input to its end.
fn read_all<R: Read>(alloc: Global, input: &mut R) -> Result<Vec<u8>, Stop>
    ensures ok { IfOk result (λ bytes. vec_len bytes ≤ longest_input) }
    ensures all { IfOk result (λ bytes. IfSome (R.remaining input.old) (λ all.
        (all ≡ bytes.items) × IsReadWhole all (R.remaining input.new))) }
    ensures err { IfErr result (λ stop. stop ≢ Stop.CannotRead → stop ≢ Stop.NoMemory →
        (stop ≡ Stop.TooLong)
        × ReadsTooMany (R.remaining input.old) (R.remaining input.new)) }
{
    let mut buffer = [0; READ_SIZE];
    let mut bytes = Vec::new(alloc);
    loop {
        let count = read_some(input, &mut buffer)?;
        if count == 0 {
            return Ok(bytes);
        }
        if count > MAX_INPUT - bytes.len() {
            return Err(Stop::TooLong);
        }
        bytes.extend_from_slice(&buffer[..count])?;
    }
}

/// One read, made again where a signal interrupts it.
fn read_some<R: Read>(input: &mut R, buffer: &mut [u8]) -> Result<usize, Stop>
    ensures bound { IfOk result (λ count. count ≤ length buffer.new) }
    ensures ok { IfOk result (λ count.
        Consumes (R.remaining input.old) (R.remaining input.new) (take count buffer.new)) }
    ensures end { result ≡ Ok 0 → 0 < length buffer.old → IsAtEnd (R.remaining input.new) }
    ensures err { IfErr result (λ stop. stop ≡ Stop.CannotRead) }
{
    for _ in 0..u64::MAX {
        match input.read(buffer) {
            Ok(count) => return Ok(count),
            Err(error) if error.kind() == ErrorKind::Interrupted => {}
            Err(_) => return Err(Stop::CannotRead),
        }
    }
    Err(Stop::CannotRead)
}

/// The bytes as text, in their own memory.
fn text_of(bytes: Vec<u8>) -> Result<String, Stop>
    ensures ok { IfOk result (λ text. string_bytes text ≡ bytes.items) }
    ensures err { IfErr result (λ stop. (stop ≡ Stop.NotUtf8) × ¬ IsUtf8 bytes.items) }
{
    match String::from_utf8(bytes) {
        Ok(text) => Ok(text),
        Err(_) => Err(Stop::NotUtf8),
    }
}

/// Writes the whole text.
fn write_whole<W: Write>(output: &mut W, text: &str) -> Result<(), Stop>
    ensures ok { OnOk result (Appends (W.contents output.old) (W.contents output.new) text.now) }
    ensures err { IfErr result (λ stop. stop ≡ Stop.CannotWrite) }
{
    if output.write_all(text.as_bytes()).is_err() || output.flush().is_err() {
        return Err(Stop::CannotWrite);
    }
    Ok(())
}
