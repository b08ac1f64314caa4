//! Strings.
use crate::script::trees::Case;

pub const STRINGS: [Case; 5] = [
    Case {
        text: "\"a$b ${x + \"c${1}\"}\\n\"",
        tree: NESTED,
        errors: "",
    },
    Case {
        text: "\"${ { a } }\" + \"$\"",
        tree: BRACES,
        errors: "",
    },
    Case {
        text: "f(\"ab\n\"c\"",
        tree: UNCLOSED,
        errors: UNCLOSED_ERRORS,
    },
    Case {
        text: "{\n\"${a b\n}",
        tree: UNCLOSED_HOLE,
        errors: "6..6 expected `}`\n",
    },
    Case {
        text: "\"\\q\\\"é\\é\"",
        tree: ESCAPES,
        errors: ESCAPES_ERRORS,
    },
];

const NESTED: &str = r#"ROOT@0..22
  TEXT@0..22
    OPEN_QUOTE@0..1 "\""
    STRING_TEXT@1..5 "a$b "
    HOLE@5..19
      HOLE_OPEN@5..7 "${"
      BINARY@7..18
        REFERENCE@7..8
          NAME@7..8 "x"
        WHITESPACE@8..9 " "
        PLUS@9..10 "+"
        WHITESPACE@10..11 " "
        TEXT@11..18
          OPEN_QUOTE@11..12 "\""
          STRING_TEXT@12..13 "c"
          HOLE@13..17
            HOLE_OPEN@13..15 "${"
            LITERAL@15..16
              NUMBER@15..16 "1"
            HOLE_CLOSE@16..17 "}"
          CLOSE_QUOTE@17..18 "\""
      HOLE_CLOSE@18..19 "}"
    ESCAPE@19..21 "\\n"
    CLOSE_QUOTE@21..22 "\""
"#;

const BRACES: &str = r#"ROOT@0..18
  BINARY@0..18
    TEXT@0..12
      OPEN_QUOTE@0..1 "\""
      HOLE@1..11
        HOLE_OPEN@1..3 "${"
        WHITESPACE@3..4 " "
        BLOCK@4..9
          L_BRACE@4..5 "{"
          WHITESPACE@5..6 " "
          REFERENCE@6..7
            NAME@6..7 "a"
          WHITESPACE@7..8 " "
          R_BRACE@8..9 "}"
        WHITESPACE@9..10 " "
        HOLE_CLOSE@10..11 "}"
      CLOSE_QUOTE@11..12 "\""
    WHITESPACE@12..13 " "
    PLUS@13..14 "+"
    WHITESPACE@14..15 " "
    TEXT@15..18
      OPEN_QUOTE@15..16 "\""
      STRING_TEXT@16..17 "$"
      CLOSE_QUOTE@17..18 "\""
"#;

const UNCLOSED: &str = r#"ROOT@0..9
  CALL@0..5
    REFERENCE@0..1
      NAME@0..1 "f"
    ARGUMENTS@1..5
      L_PAREN@1..2 "("
      TEXT@2..5
        OPEN_QUOTE@2..3 "\""
        STRING_TEXT@3..5 "ab"
  WHITESPACE@5..6 "\n"
  TEXT@6..9
    OPEN_QUOTE@6..7 "\""
    STRING_TEXT@7..8 "c"
    CLOSE_QUOTE@8..9 "\""
"#;

const UNCLOSED_ERRORS: &str = "3..5 this string does not end in its line
5..5 expected `,` or `)`
";

const UNCLOSED_HOLE: &str = r#"ROOT@0..10
  BLOCK@0..10
    L_BRACE@0..1 "{"
    WHITESPACE@1..2 "\n"
    TEXT@2..8
      OPEN_QUOTE@2..3 "\""
      HOLE@3..8
        HOLE_OPEN@3..5 "${"
        REFERENCE@5..6
          NAME@5..6 "a"
        WHITESPACE@6..7 " "
        ERROR@7..8
          NAME@7..8 "b"
    WHITESPACE@8..9 "\n"
    R_BRACE@9..10 "}"
"#;

const ESCAPES: &str = r#"ROOT@0..11
  TEXT@0..11
    OPEN_QUOTE@0..1 "\""
    ESCAPE@1..3 "\\q"
    ESCAPE@3..5 "\\\""
    STRING_TEXT@5..7 "é"
    ESCAPE@7..10 "\\é"
    CLOSE_QUOTE@10..11 "\""
"#;

const ESCAPES_ERRORS: &str = "1..3 there is no such escape
7..10 there is no such escape
";
