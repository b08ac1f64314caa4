use json_syntax::{parse, parse_to_depth};
use rowan::Fault;
use rowan_parser::{SyntaxError, render, render_up_to};
use std::alloc::Global;
use std::test::Fail;

/// Texts with their errors, which were worked out by hand: the bytes at which each stands, and what
/// was expected there. Arrays and objects may stand 2 deep.
const ERRORS: [(&str, &str); 16] = [
    ("{\"a\": [1, -2.5e3, null,],} // end", ""),
    ("", "0..0 expected a value\n"),
    ("nul", "0..3 expected `true`, `false` or `null`\n"),
    ("[1,, 2]", "3..4 expected an element\n"),
    ("[1 é, 2]", "3..5 expected `,` or `]`\n"),
    (
        "[: 1, 2]",
        "1..2 expected a value\n3..4 expected `,` or `]`\n",
    ),
    ("{\"a\" 1}", "4..4 expected `:`\n"),
    ("{\"a\": , \"b\": 2}", "6..7 expected a value\n"),
    ("{1: 2, \"b\": 3}", "1..2 expected a name in quotes\n"),
    ("{\"a\": 1 2, \"b\": 3}", "8..9 expected `,` or `}`\n"),
    ("{\"a\": [1}", "8..8 expected `,` or `]`\n"),
    ("[1", "2..2 expected `,` or `]`\n"),
    ("\"a\n", "0..2 expected a value\n"),
    ("1 /* a", "2..6 expected the end of the text\n"),
    ("] 1", "0..1 expected a value\n"),
    (
        "[{\"a\":[]}]",
        "6..7 expected no more nesting\n10..10 expected `,` or `}`\n",
    ),
];

pub fn list(alloc: Global, errors: &[SyntaxError]) -> Result<String, Fault> {
    let mut out = String::new(alloc);
    for error in errors {
        writeln!(out, "{:?} {}", error.range, error.message)?;
    }
    Ok(out)
}

#[test]
fn texts_have_their_errors(rt: HostRuntime) -> Result<(), Fail> {
    for (text, errors) in ERRORS {
        let parse = parse_to_depth(rt.alloc(), text, 2)?;
        let found = list(rt.alloc(), parse.errors.as_slice())?;
        assert!(rt; found.as_str() == errors, "{text}: {found}");
    }
    Ok(())
}

const PRINTED: &str = "error: expected a value
 --> notes:2:7
  |
2 |     \"日\": @ ]
  |           ^

1 more error
";

/// The page of `rowan_parser` shows this text with its errors.
const SHOWN: &str = "{\"a\": , \"b\": [1 2]}";

const SHOWN_ERRORS: &str = "error: expected a value
 --> notes.json:1:7
  |
1 | {\"a\": , \"b\": [1 2]}
  |       ^

error: expected `,` or `]`
 --> notes.json:1:17
  |
1 | {\"a\": , \"b\": [1 2]}
  |                 ^

";

#[test]
fn the_page_shows_what_is_printed(rt: HostRuntime) -> Result<(), Fail> {
    let parse = parse(rt.alloc(), SHOWN)?;
    let printed = render(rt.alloc(), parse.errors(), SHOWN, "notes.json")?;
    assert!(rt; printed.as_str() == SHOWN_ERRORS, "{printed}");
    Ok(())
}

#[test]
fn errors_are_printed_under_their_lines(rt: HostRuntime) -> Result<(), Fail> {
    let text = "{\n\t\"日\": @ ]";
    let parse = parse_to_depth(rt.alloc(), text, 2)?;
    let printed = render_up_to(rt.alloc(), parse.errors.as_slice(), text, "notes", 1)?;
    assert!(rt; printed.as_str() == PRINTED, "{printed}");
    Ok(())
}
