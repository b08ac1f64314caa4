//! What only strict JSON refuses, and how deep a parse goes.
use crate::json::errors::list;
use json_syntax::{MAX_DEPTH, Options, parse_to_depth, parse_with_options};
use rowan::Fault;
use std::alloc::Global;
use std::test::Fail;

/// Texts without an error in JSON with comments, and their errors in strict JSON.
const ERRORS: [(&str, &str); 11] = [
    ("// note\n1", "0..7 expected no comment\n"),
    ("[1, /* a */ 2]", "4..11 expected no comment\n"),
    ("1 //", "2..4 expected no comment\n"),
    ("[1,]", "2..3 expected no trailing comma\n"),
    ("{\"a\": 1 , }", "8..9 expected no trailing comma\n"),
    (
        "[1, /* a */ ]",
        "4..11 expected no comment\n2..3 expected no trailing comma\n",
    ),
    (
        r#"["\ud834"]"#,
        "1..9 expected both halves of a surrogate pair\n",
    ),
    (
        r#"["\udd1e"]"#,
        "1..9 expected both halves of a surrogate pair\n",
    ),
    (
        r#"["\ud834a\udd1e"]"#,
        "1..16 expected both halves of a surrogate pair\n",
    ),
    (
        r#"["\ud834\n"]"#,
        "1..11 expected both halves of a surrogate pair\n",
    ),
    (
        r#"["\ud834\ud834\udd1e"]"#,
        "1..21 expected both halves of a surrogate pair\n",
    ),
];

#[test]
fn strict_json_has_more_errors(rt: HostRuntime) -> Result<(), Fail> {
    for (text, errors) in ERRORS {
        let parse = parse_with_options(rt.alloc(), text, Options::default())?;
        assert!(rt; parse.errors.is_empty(), "{text}");
        let parse = parse_with_options(rt.alloc(), text, Options::strict())?;
        let found = list(rt.alloc(), parse.errors.as_slice())?;
        assert!(rt; found.as_str() == errors, "{text}: {found}");
    }
    Ok(())
}

/// One option alone says nothing of the others.
#[test]
fn each_option_stands_alone(rt: HostRuntime) -> Result<(), Fail> {
    let text = "[\"\\udd1e\", 1, /* a */ ]";
    let strict = Options::strict();
    let with_comments = Options {
        allows_comments: true,
        ..strict
    };
    let with_commas = Options {
        allows_trailing_commas: true,
        ..strict
    };
    let with_halves = Options {
        allows_lone_surrogates: true,
        ..strict
    };
    for options in [with_comments, with_commas, with_halves] {
        let parse = parse_with_options(rt.alloc(), text, options)?;
        assert!(rt; parse.errors.len() == 2, "{text}: {options:?}");
    }
    Ok(())
}

/// The errors of so many arrays in one another.
fn errors_of(alloc: Global, levels: usize, depth: usize) -> Result<String, Fault> {
    let open = "[".repeat(alloc, levels)?;
    let close = "]".repeat(alloc, levels)?;
    let text = format!(in alloc; "{open}{close}")?;
    let parse = parse_to_depth(alloc, text.as_str(), depth)?;
    list(alloc, parse.errors.as_slice())
}

#[test]
fn no_depth_is_more_than_the_limit(rt: HostRuntime) -> Result<(), Fail> {
    let errors = errors_of(rt.alloc(), MAX_DEPTH, usize::MAX)?;
    assert!(rt; errors.is_empty(), "{errors}");
    let errors = errors_of(rt.alloc(), 2049, usize::MAX)?;
    let deeper = "2048..2049 expected no more nesting\n4098..4098 expected `,` or `]`\n";
    assert!(rt; errors.as_str() == deeper, "{errors}");
    Ok(())
}

/// The levels of objects take the most stack.
#[test]
fn too_many_levels_leave_stack(rt: HostRuntime) -> Result<(), Fail> {
    let openings = [("[", 1_000_000), ("{\"a\":", 10_000), ("[{\"a\":", 10_000)];
    for (opening, count) in openings {
        let text = opening.repeat(rt.alloc(), count)?;
        let parse = parse_to_depth(rt.alloc(), text.as_str(), usize::MAX)?;
        assert!(rt; parse.errors.len() == 2, "{opening}");
        let kept = parse.green.to_string(rt.alloc())?;
        assert!(rt; kept.as_str() == text.as_str(), "{opening}");
    }
    Ok(())
}
