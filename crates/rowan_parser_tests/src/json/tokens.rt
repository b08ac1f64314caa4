//! What is wrong with a token, in each dialect.
use crate::json::errors::list;
use json_syntax::{Options, parse_with_options};
use std::test::Fail;

/// Texts with their errors in any dialect: the bytes of the token, and what is wrong with it.
const ERRORS: [(&str, &str); 24] = [
    ("[-0, 10.25, 1e5, -3E+7, 2.0e-1]", ""),
    (r#"["\"\\\/\b\f\n\r\t", "\u00e9\uD834\udd1E"]"#, ""),
    ("-", "0..1 expected a digit after `-`\n"),
    ("[1, -a]", "4..6 expected a digit after `-`\n"),
    ("01", "0..2 expected no leading zero\n"),
    ("[-00.5]", "1..6 expected no leading zero\n"),
    ("1.", "0..2 expected a digit after `.`\n"),
    ("1.e5", "0..4 expected a digit after `.`\n"),
    ("1e", "0..2 expected a digit in the exponent\n"),
    ("1E+", "0..3 expected a digit in the exponent\n"),
    ("1.2.3", "0..5 expected the end of the number\n"),
    ("0x1F", "0..4 expected the end of the number\n"),
    (
        "[1-2, 3px]",
        "1..4 expected the end of the number\n6..9 expected the end of the number\n",
    ),
    (
        r#" "\q""#,
        "1..5 expected `\"`, `\\`, `/`, `b`, `f`, `n`, `r`, `t` or `u` after `\\`\n",
    ),
    (
        "\"\\é\"",
        "0..5 expected `\"`, `\\`, `/`, `b`, `f`, `n`, `r`, `t` or `u` after `\\`\n",
    ),
    (
        r#""\u12""#,
        "0..6 expected four hexadecimal digits after `\\u`\n",
    ),
    (
        r#""\u12\"""#,
        "0..8 expected four hexadecimal digits after `\\u`\n",
    ),
    (
        r#""\u00g0""#,
        "0..8 expected four hexadecimal digits after `\\u`\n",
    ),
    (
        "{\"a\tb\": 1}",
        "1..6 expected no control character in a string\n",
    ),
    (
        "\"\u{0}\u{1f}\u{7f}\"",
        "0..5 expected no control character in a string\n",
    ),
    (
        "\"\t\\q\"",
        "0..5 expected no control character in a string\n",
    ),
    ("[1,\u{c}2]", "3..4 expected no form feed\n"),
    (
        "\u{c}\u{c} 1\u{c}",
        "0..2 expected no form feed\n4..5 expected no form feed\n",
    ),
    (
        "[2 3, 01]",
        "6..8 expected no leading zero\n3..4 expected `,` or `]`\n",
    ),
];

#[test]
fn tokens_have_their_errors(rt: HostRuntime) -> Result<(), Fail> {
    for (text, errors) in ERRORS {
        for options in [Options::default(), Options::strict()] {
            let parse = parse_with_options(rt.alloc(), text, options)?;
            let found = list(rt.alloc(), parse.errors.as_slice())?;
            assert!(rt; found.as_str() == errors, "{text}: {found}");
        }
    }
    Ok(())
}
