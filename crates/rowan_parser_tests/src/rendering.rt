use rowan::{TextRange, TextSize};
use rowan_parser::{LineIndex, Renderer, Severity, SyntaxError, render, render_up_to};
use std::alloc::Global;
use std::test::Fail;

/// Texts, the range of an error in each, and the place, the line and the carets, worked out by
/// hand.
const SHOWN: [(&str, (u32, u32), &str); 16] = [
    (
        "{ \"a\": ,",
        (7, 8),
        "1:8\n  |\n1 | { \"a\": ,\n  |        ^\n",
    ),
    ("one two", (4, 7), "1:5\n  |\n1 | one two\n  |     ^^^\n"),
    // Behind a token, at the end of the text, and in an empty one.
    ("let x", (3, 3), "1:4\n  |\n1 | let x\n  |    ^\n"),
    ("let x", (5, 5), "1:6\n  |\n1 | let x\n  |      ^\n"),
    ("a\n", (2, 2), "2:1\n  |\n2 | \n  | ^\n"),
    ("", (0, 0), "1:1\n  |\n1 | \n  | ^\n"),
    // A tab is four spaces wide, also under a caret.
    (
        "\tx\ty",
        (3, 4),
        "1:4\n  |\n1 |     x    y\n  |          ^\n",
    ),
    ("x\ty", (1, 2), "1:2\n  |\n1 | x    y\n  |  ^^^^\n"),
    // Wide characters, one that takes no column, and a family that is one sign of two columns.
    ("日本 ]", (7, 8), "1:4\n  |\n1 | 日本 ]\n  |      ^\n"),
    ("日本", (3, 6), "1:2\n  |\n1 | 日本\n  |   ^^\n"),
    ("e\u{301} ]", (4, 5), "1:4\n  |\n1 | e\u{301} ]\n  |   ^\n"),
    (
        "👨\u{200d}👩\u{200d}👧 ]",
        (19, 20),
        "1:7\n  |\n1 | 👨\u{200d}👩\u{200d}👧 ]\n  |    ^\n",
    ),
    // Control characters are shown by their pictures.
    (
        "\u{1b}[31m\u{7}\0\rb\u{7f}\u{9b}\u{202e}]",
        (15, 16),
        "1:13\n  |\n1 | ␛[31m␇␀␍b␡\u{fffd}\u{fffd}]\n  |             ^\n",
    ),
    // Lines with other ends: in the line, on its end, and behind one.
    ("a\r\nbc\r\nd", (3, 5), "2:1\n  |\n2 | bc\n  | ^^\n"),
    ("a\r\nbc\r\nd", (5, 7), "2:3\n  |\n2 | bc\n  |   ^\n"),
    // Within a character.
    ("a日b", (2, 4), "1:2\n  |\n1 | a日b\n  |  ^^\n"),
];

fn error_at(alloc: Global, start: u32, end: u32) -> Result<SyntaxError, Fail> {
    let message = String::from_str(alloc, "no")?;
    let (start, end) = (TextSize::from(start), TextSize::from(end.max(start)));
    Ok(SyntaxError {
        message,
        range: TextRange::new(start, end),
    })
}

fn shown(alloc: Global, text: &str, range: (u32, u32)) -> Result<String, Fail> {
    let errors = vec![in alloc; error_at(alloc, range.0, range.1)?]?;
    Ok(render(alloc, errors.as_slice(), text, "a")?)
}

#[test]
fn a_range_has_its_line_and_carets(rt: HostRuntime) -> Result<(), Fail> {
    for (text, range, place) in SHOWN {
        let printed = shown(rt.alloc(), text, range)?;
        let wanted = format!(in rt.alloc(); "error: no\n --> a:{place}\n")?;
        assert!(rt; printed.as_str() == wanted.as_str(), "{printed}");
    }
    Ok(())
}

/// Ranges that go over lines.
const LINES: [(&str, (u32, u32), &str); 4] = [
    (
        "[1, /* a\nb\nz",
        (4, 12),
        " --> a:1:5\n  |\n1 |   [1, /* a\n  |  _____^\n... |\n3 | | z\n  | |_^\n\n",
    ),
    (
        "\ta\n日本",
        (1, 6),
        " --> a:1:2\n  |\n1 |       a\n  |  _____^\n2 | | 日本\n  | |__^\n\n",
    ),
    // The last byte ends a line.
    (
        "a\n\n",
        (0, 3),
        " --> a:1:1\n  |\n1 |   a\n  |  _^\n2 | | \n  | |_^\n\n",
    ),
    (
        "\n\n\n\n\n\n\n\na\nb",
        (8, 11),
        "  --> a:9:1\n   |\n9  |   a\n   |  _^\n10 | | b\n   | |_^\n\n",
    ),
];

#[test]
fn a_range_over_lines_has_its_ends(rt: HostRuntime) -> Result<(), Fail> {
    for (text, range, lines) in LINES {
        let printed = shown(rt.alloc(), text, range)?;
        let wanted = format!(in rt.alloc(); "error: no\n{lines}")?;
        assert!(rt; printed.as_str() == wanted.as_str(), "{printed}");
    }
    Ok(())
}

fn repeated(alloc: Global, part: &str, times: usize) -> Result<String, Fail> {
    let mut text = String::new(alloc);
    for _ in 0..times {
        text.push_str(part)?;
    }
    Ok(text)
}

const CROPPED: &str = "error: no
 --> a:1:101
  |
1 | ...aaaaaaaaaaaaaaaaaaaaaaaaaaaaaaaaaaaaaaaaaaaaaaaaaaaaaaaaaaaaaaaaaaaaaaaaaaaaaaaaaaaaaaaaaaaaaaaaaaaaaaa...
  |                                                      ^^^

";

#[test]
fn a_long_line_is_cropped(rt: HostRuntime) -> Result<(), Fail> {
    let line = repeated(rt.alloc(), "a", 160)?;
    let printed = shown(rt.alloc(), line.as_str(), (100, 103))?;
    assert!(rt; !printed.as_str().contains("..."));
    let line = repeated(rt.alloc(), "a", 161)?;
    let printed = shown(rt.alloc(), line.as_str(), (100, 103))?;
    assert!(rt; printed.as_str() == CROPPED, "{printed}");
    Ok(())
}

/// How many errors there are, how many are printed, and what stands at the end.
const COUNTS: [(u32, usize, &str); 5] = [
    (0, 0, ""),
    (1, 1, "^\n\n"),
    (20, 20, "^\n\n"),
    (21, 20, "^\n\n1 more error\n"),
    (25, 20, "^\n\n5 more errors\n"),
];

fn errors_in(alloc: Global, count: u32) -> Result<Vec<SyntaxError>, Fail> {
    let mut errors = Vec::new(alloc);
    for place in 0..count {
        errors.push(error_at(alloc, place, place)?)?;
    }
    Ok(errors)
}

#[test]
fn twenty_errors_are_printed(rt: HostRuntime) -> Result<(), Fail> {
    let text = repeated(rt.alloc(), "\n", 30)?;
    for (count, shown, end) in COUNTS {
        let errors = errors_in(rt.alloc(), count)?;
        let printed = render(rt.alloc(), errors.as_slice(), text.as_str(), "a")?;
        assert!(rt; printed.as_str().ends_with(end), "{printed}");
        assert!(rt; printed.as_str().matches("error: no\n").count() == shown);
    }
    let errors = errors_in(rt.alloc(), 25)?;
    let printed = render_up_to(rt.alloc(), errors.as_slice(), text.as_str(), "a", 25)?;
    assert!(rt; printed.as_str().matches("error: no\n").count() == 25);
    assert!(rt; printed.as_str().ends_with("^\n\n"));
    Ok(())
}

/// A thousand errors, the last of them first, in one line of a million bytes.
#[test]
fn many_errors_of_one_long_line(rt: HostRuntime) -> Result<(), Fail> {
    let text = repeated(rt.alloc(), "abcdefg日", 100_000)?;
    let mut errors = Vec::new(rt.alloc());
    for place in 0..1000_u32 {
        errors.push(error_at(rt.alloc(), 999_007 - 1000 * place, 999_010 - 1000 * place)?)?;
    }
    let printed = render_up_to(rt.alloc(), errors.as_slice(), text.as_str(), "a", 1000)?;
    assert!(rt; printed.as_str().starts_with("error: no\n --> a:1:799208\n"));
    assert!(rt; printed.as_str().matches("| ...").count() == 999);
    Ok(())
}

const NOTED: &str = "warning: the name ␇ stands twice
 --> a␛:2:1
  |
2 | x = 2
  | ^

note: it stands first here
 --> a␛:1:1
  |
1 | x = 1
  | ^

";

#[test]
fn a_note_shows_a_second_place(rt: HostRuntime) -> Result<(), Fail> {
    let index = LineIndex::new(rt.alloc(), "x = 1\nx = 2\n")?;
    let renderer = Renderer {
        index: &index,
        name: "a\u{1b}",
    };
    let (first, second) = (error_at(rt.alloc(), 0, 1)?, error_at(rt.alloc(), 6, 7)?);
    let mut out = String::new(rt.alloc());
    let message = "the name \u{7} stands twice";
    renderer.diagnostic(&mut out, Severity::Warning, message, second.range)?;
    let message = "it stands first here";
    renderer.diagnostic(&mut out, Severity::Note, message, first.range)?;
    assert!(rt; out.as_str() == NOTED, "{out}");
    Ok(())
}
