//! The kinds of s-expressions.
use rowan::{Language, SyntaxKind as RawKind};
use rowan_tool::sexp::{Lang, SyntaxKind};

/// The kinds with their raw kinds and names.
const KINDS: [(u16, SyntaxKind, &str); 8] = [
    (0, SyntaxKind::L_PAREN, "L_PAREN"),
    (1, SyntaxKind::R_PAREN, "R_PAREN"),
    (2, SyntaxKind::WORD, "WORD"),
    (3, SyntaxKind::WHITESPACE, "WHITESPACE"),
    (4, SyntaxKind::ERROR, "ERROR"),
    (5, SyntaxKind::LIST, "LIST"),
    (6, SyntaxKind::ATOM, "ATOM"),
    (7, SyntaxKind::ROOT, "ROOT"),
];

#[test]
fn kinds_have_their_numbers_and_names(rt: HostRuntime) {
    for (raw, kind, name) in KINDS {
        assert!(rt; Lang::kind_from_raw(RawKind(raw)) == kind);
        assert!(rt; Lang::kind_to_raw(kind) == RawKind(raw));
        assert!(rt; Lang::kind_name(kind) == name);
    }
}

#[test]
fn other_numbers_are_errors(rt: HostRuntime) {
    for raw in [8, 9, 255, 256, 65535] {
        assert!(rt; Lang::kind_from_raw(RawKind(raw)) == SyntaxKind::ERROR);
    }
}
