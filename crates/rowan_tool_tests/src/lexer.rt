//! The lexer of s-expressions.
use rowan_tool::sexp::SyntaxKind::{self, L_PAREN, R_PAREN, WHITESPACE, WORD};
use rowan_tool::sexp::lex;
use std::test::Fail;

/// Texts with their tokens.
const TABLE: [(&str, &[(SyntaxKind, &str)]); 7] = [
    ("", &[]),
    ("()", &[(L_PAREN, "("), (R_PAREN, ")")]),
    (
        "(+ (* 15 2) 62)",
        &[
            (L_PAREN, "("),
            (WORD, "+"),
            (WHITESPACE, " "),
            (L_PAREN, "("),
            (WORD, "*"),
            (WHITESPACE, " "),
            (WORD, "15"),
            (WHITESPACE, " "),
            (WORD, "2"),
            (R_PAREN, ")"),
            (WHITESPACE, " "),
            (WORD, "62"),
            (R_PAREN, ")"),
        ],
    ),
    (
        "a\u{3000}b",
        &[(WORD, "a"), (WHITESPACE, "\u{3000}"), (WORD, "b")],
    ),
    (" \n\t", &[(WHITESPACE, " \n\t")]),
    ("é日本", &[(WORD, "é日本")]),
    (
        "))((",
        &[
            (R_PAREN, ")"),
            (R_PAREN, ")"),
            (L_PAREN, "("),
            (L_PAREN, "("),
        ],
    ),
];

#[test]
fn tokens_of_a_table(rt: HostRuntime) -> Result<(), Fail> {
    for (text, expected) in TABLE {
        assert!(rt; lex(rt.alloc(), text)?.as_slice() == expected);
    }
    Ok(())
}
