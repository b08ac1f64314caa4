//! The program, over readers and writers that may fail.
use crate::streams::{FailingReader, FailingWriter, words};
use rowan_program::{Stop, run};
use std::alloc::{AllocError, Global};
use std::io::ErrorKind;
use std::test::Fail;

/// How a run with one word ended.
fn outcome(
    alloc: Global,
    command: &str,
    input: &mut FailingReader<'_>,
    output: &mut FailingWriter,
) -> Result<(), Stop> {
    match words(alloc, &[command]) {
        Ok(args) => run(alloc, args.as_slice(), input, output),
        Err(_) => Err(Stop::NoMemory),
    }
}

const LIST: &str = "(+ 1 2)";

const LIST_TREE: &str = r#"ROOT@0..7
  LIST@0..7
    L_PAREN@0..1 "("
    ATOM@1..2
      WORD@1..2 "+"
    WHITESPACE@2..3 " "
    ATOM@3..4
      WORD@3..4 "1"
    WHITESPACE@4..5 " "
    ATOM@5..6
      WORD@5..6 "2"
    R_PAREN@6..7 ")"
"#;

const ONE: &str = "1";

const ONE_JSON: &str = "{\"children\":[{\"children\":[\
    {\"kind\":\"WORD\",\"text\":\"1\",\"text_range\":[0,1]}],\
    \"kind\":\"ATOM\",\"text_range\":[0,1]}],\
    \"kind\":\"ROOT\",\"text_range\":[0,1]}\n";

/// A command, its input, and what it writes.
const ANSWERS: [(&str, &str, &str); 3] = [
    ("tree", LIST, LIST_TREE),
    ("json", ONE, ONE_JSON),
    ("eval", LIST, "3\n"),
];

/// How many bytes a stream moves at a time.
const SHORT: [usize; 2] = [1, 3];

/// How many calls move so many bytes.
fn calls(bytes: usize, most: usize) -> usize {
    bytes.div_ceil(most.max(1))
}

/// Whether a command over an input stops so and writes this.
fn answers(
    alloc: Global,
    command: &str,
    mut input: FailingReader<'_>,
    expected: Result<(), Stop>,
    text: &str,
) -> bool {
    let mut output = FailingWriter::sound(alloc, input.most);
    outcome(alloc, command, &mut input, &mut output) == expected
        && output.written.as_slice() == text.as_bytes()
}

/// Whether a command answers as without a failure where any one read is interrupted, and stops
/// where any one fails.
fn stands_each_read(
    alloc: Global,
    (command, text, shown): (&str, &str, &str),
    most: usize,
) -> bool {
    let bytes = text.as_bytes();
    // the last read finds the end
    for reads in 0..=calls(bytes.len(), most) {
        let interrupted = FailingReader::new(bytes, most, reads, ErrorKind::Interrupted);
        let failed = FailingReader::new(bytes, most, reads, ErrorKind::PermissionDenied);
        if !answers(alloc, command, interrupted, Ok(()), shown)
            || !answers(alloc, command, failed, Err(Stop::CannotRead), "")
        {
            return false;
        }
    }
    answers(
        alloc,
        command,
        FailingReader::sound(bytes, most),
        Ok(()),
        shown,
    )
}

#[test]
fn reads_again_or_stops_at_each_read(rt: HostRuntime) {
    for answer in ANSWERS {
        for most in SHORT {
            assert!(rt;
                stands_each_read(rt.alloc(), answer, most),
                "{}, {most} bytes",
                answer.0
            );
        }
    }
}

/// How a command ends whose write or flush fails in this way after so many, and how many bytes of
/// its answer it wrote; none where it wrote others.
fn after_writes(
    alloc: Global,
    (command, text, shown): (&str, &str, &str),
    most: usize,
    writes: usize,
    kind: ErrorKind,
) -> Option<(Result<(), Stop>, usize)> {
    let mut input = FailingReader::sound(text.as_bytes(), 1_000);
    let mut output = FailingWriter::new(alloc, most, writes, kind);
    let outcome = outcome(alloc, command, &mut input, &mut output);
    let written = output.written.as_slice();
    if shown.as_bytes().starts_with(written) {
        Some((outcome, written.len()))
    } else {
        None
    }
}

/// Whether a command goes on where any one write is interrupted, and stops where any one fails,
/// with what was written before.
fn stands_each_write(alloc: Global, answer: (&str, &str, &str), most: usize) -> bool {
    let len = answer.2.len();
    for writes in 0..calls(len, most) {
        let interrupted = after_writes(alloc, answer, most, writes, ErrorKind::Interrupted);
        let failed = after_writes(alloc, answer, most, writes, ErrorKind::BrokenPipe);
        let before = writes.saturating_mul(most);
        if interrupted != Some((Ok(()), len)) || failed != Some((Err(Stop::CannotWrite), before)) {
            return false;
        }
    }
    // the flush
    let failed = after_writes(alloc, answer, most, calls(len, most), ErrorKind::BrokenPipe);
    failed == Some((Err(Stop::CannotWrite), len))
}

#[test]
fn writes_again_or_stops_at_each_write(rt: HostRuntime) {
    for answer in ANSWERS {
        for most in SHORT {
            assert!(rt;
                stands_each_write(rt.alloc(), answer, most),
                "{}, {most} bytes",
                answer.0
            );
        }
        // a writer that takes nothing
        let none = after_writes(rt.alloc(), answer, 0, usize::MAX, ErrorKind::BrokenPipe);
        assert!(rt; none == Some((Err(Stop::CannotWrite), 0)), "{}", answer.0);
    }
}

/// Bytes that are no text.
const NO_TEXTS: [&[u8]; 8] = [
    b"\xff",
    b"a\xc3",
    b"(\xe2\x82",
    b"(a) \xf0\x9d\x84",
    b"\xed\xa0\x80",
    b"\xc0\xaf",
    b"\xf4\x90\x80\x80",
    b"\xff\xfe(\x00)\x00",
];

#[test]
fn refuses_bytes_that_are_no_text(rt: HostRuntime) {
    for bytes in NO_TEXTS {
        for (command, _, _) in ANSWERS {
            for most in SHORT {
                let input = FailingReader::sound(bytes, most);
                assert!(rt; answers(rt.alloc(), command, input, Err(Stop::NotUtf8), ""));
            }
        }
    }
}

/// Arguments that ask for nothing.
const NO_COMMANDS: [&[&str]; 7] = [
    &[],
    &[""],
    &["Tree"],
    &["tree "],
    &["tree", "tree"],
    &["-", "tree"],
    &["tree", ""],
];

/// Whether the program refuses these arguments, and neither reads nor writes.
fn is_usage(alloc: Global, list: &[&str]) -> Result<bool, AllocError> {
    let args = words(alloc, list)?;
    let mut input = FailingReader::new(LIST.as_bytes(), 3, 0, ErrorKind::PermissionDenied);
    let mut output = FailingWriter::new(alloc, 3, 0, ErrorKind::BrokenPipe);
    let outcome = run(alloc, args.as_slice(), &mut input, &mut output);
    Ok(outcome == Err(Stop::Usage) && input.left == 0 && output.left == 0)
}

#[test]
fn refuses_other_arguments(rt: HostRuntime) -> Result<(), Fail> {
    for list in NO_COMMANDS {
        assert!(rt; is_usage(rt.alloc(), list)?);
    }
    Ok(())
}

/// Why the program stops, with its status and its line on standard error.
const STOPS: [(Stop, u8, &str); 6] = [
    (Stop::Usage, 2, "usage: rowan tree|json|eval"),
    (Stop::CannotRead, 1, "rowan: cannot read standard input"),
    (Stop::NotUtf8, 1, "rowan: input is not UTF-8"),
    (Stop::TooLong, 1, "rowan: text too long"),
    (Stop::NoMemory, 1, "rowan: out of memory"),
    (Stop::CannotWrite, 1, "rowan: cannot write standard output"),
];

#[test]
fn program_refusals(rt: HostRuntime) {
    for (stop, status, line) in STOPS {
        assert!(rt; stop.status() == status);
        assert!(rt; stop.line() == line);
    }
}
