//! Errors, and where the grammar goes on behind them.
use crate::script::trees::Case;

pub const ERRORS: [Case; 6] = [
    Case {
        text: "let x =\nlet y = 2 3 )",
        tree: NO_OPERAND,
        errors: NO_OPERAND_ERRORS,
    },
    Case {
        text: "f(1, 2\nlet y = (3;",
        tree: NO_CLOSING,
        errors: NO_CLOSING_ERRORS,
    },
    Case {
        text: "f(a b, = c, d)\nfn (x) {}",
        tree: LISTS,
        errors: LISTS_ERRORS,
    },
    Case {
        text: "f((((1))))\nx",
        tree: TOO_DEEP,
        errors: "4..5 this is nested too deeply\n",
    },
    Case {
        text: "}\nfn f() {\n  x\n",
        tree: BRACES,
        errors: BRACES_ERRORS,
    },
    Case {
        text: "union U { a: b: T; 1 }",
        tree: FIELDS,
        errors: FIELDS_ERRORS,
    },
];

const NO_OPERAND: &str = r#"ROOT@0..21
  LET@0..7
    LET_KW@0..3 "let"
    WHITESPACE@3..4 " "
    NAME@4..5 "x"
    WHITESPACE@5..6 " "
    EQ@6..7 "="
  WHITESPACE@7..8 "\n"
  LET@8..17
    LET_KW@8..11 "let"
    WHITESPACE@11..12 " "
    NAME@12..13 "y"
    WHITESPACE@13..14 " "
    EQ@14..15 "="
    WHITESPACE@15..16 " "
    LITERAL@16..17
      NUMBER@16..17 "2"
  WHITESPACE@17..18 " "
  LITERAL@18..19
    NUMBER@18..19 "3"
  WHITESPACE@19..20 " "
  ERROR@20..21
    R_PAREN@20..21 ")"
"#;

const NO_OPERAND_ERRORS: &str = "7..7 expected an expression
17..17 expected `;` or a new line
19..19 expected `;` or a new line
";

const NO_CLOSING: &str = r#"ROOT@0..18
  CALL@0..6
    REFERENCE@0..1
      NAME@0..1 "f"
    ARGUMENTS@1..6
      L_PAREN@1..2 "("
      LITERAL@2..3
        NUMBER@2..3 "1"
      COMMA@3..4 ","
      WHITESPACE@4..5 " "
      LITERAL@5..6
        NUMBER@5..6 "2"
  WHITESPACE@6..7 "\n"
  LET@7..17
    LET_KW@7..10 "let"
    WHITESPACE@10..11 " "
    NAME@11..12 "y"
    WHITESPACE@12..13 " "
    EQ@13..14 "="
    WHITESPACE@14..15 " "
    GROUP@15..17
      L_PAREN@15..16 "("
      LITERAL@16..17
        NUMBER@16..17 "3"
  SEMICOLON@17..18 ";"
"#;

const NO_CLOSING_ERRORS: &str = "6..6 expected `,` or `)`
17..17 expected `)`
";

const LISTS: &str = r#"ROOT@0..24
  CALL@0..14
    REFERENCE@0..1
      NAME@0..1 "f"
    ARGUMENTS@1..14
      L_PAREN@1..2 "("
      REFERENCE@2..3
        NAME@2..3 "a"
      WHITESPACE@3..4 " "
      REFERENCE@4..5
        NAME@4..5 "b"
      COMMA@5..6 ","
      WHITESPACE@6..7 " "
      ERROR@7..10
        EQ@7..8 "="
        WHITESPACE@8..9 " "
        NAME@9..10 "c"
      COMMA@10..11 ","
      WHITESPACE@11..12 " "
      REFERENCE@12..13
        NAME@12..13 "d"
      R_PAREN@13..14 ")"
  WHITESPACE@14..15 "\n"
  FUNCTION@15..24
    FN_KW@15..17 "fn"
    WHITESPACE@17..18 " "
    PARAMETERS@18..21
      L_PAREN@18..19 "("
      PARAMETER@19..20
        NAME@19..20 "x"
      R_PAREN@20..21 ")"
    WHITESPACE@21..22 " "
    BLOCK@22..24
      L_BRACE@22..23 "{"
      R_BRACE@23..24 "}"
"#;

const LISTS_ERRORS: &str = "3..3 expected `,` or `)`
6..6 expected an expression
17..17 expected a name
20..20 expected `:`
";

const TOO_DEEP: &str = r#"ROOT@0..12
  CALL@0..10
    REFERENCE@0..1
      NAME@0..1 "f"
    ARGUMENTS@1..10
      L_PAREN@1..2 "("
      GROUP@2..9
        L_PAREN@2..3 "("
        GROUP@3..8
          L_PAREN@3..4 "("
          ERROR@4..7
            L_PAREN@4..5 "("
            NUMBER@5..6 "1"
            R_PAREN@6..7 ")"
          R_PAREN@7..8 ")"
        R_PAREN@8..9 ")"
      R_PAREN@9..10 ")"
  WHITESPACE@10..11 "\n"
  REFERENCE@11..12
    NAME@11..12 "x"
"#;

const BRACES: &str = r#"ROOT@0..15
  ERROR@0..1
    R_BRACE@0..1 "}"
  WHITESPACE@1..2 "\n"
  FUNCTION@2..14
    FN_KW@2..4 "fn"
    WHITESPACE@4..5 " "
    NAME@5..6 "f"
    PARAMETERS@6..8
      L_PAREN@6..7 "("
      R_PAREN@7..8 ")"
    WHITESPACE@8..9 " "
    BLOCK@9..14
      L_BRACE@9..10 "{"
      WHITESPACE@10..13 "\n  "
      REFERENCE@13..14
        NAME@13..14 "x"
  WHITESPACE@14..15 "\n"
"#;

const BRACES_ERRORS: &str = "0..1 this closes nothing
9..10 this `{` has no `}`
";

const FIELDS: &str = r#"ROOT@0..22
  UNION@0..22
    UNION_KW@0..5 "union"
    WHITESPACE@5..6 " "
    NAME@6..7 "U"
    WHITESPACE@7..8 " "
    L_BRACE@8..9 "{"
    WHITESPACE@9..10 " "
    FIELD@10..14
      NAME@10..11 "a"
      COLON@11..12 ":"
      WHITESPACE@12..13 " "
      TYPE_NAME@13..14
        NAME@13..14 "b"
    ERROR@14..17
      COLON@14..15 ":"
      WHITESPACE@15..16 " "
      NAME@16..17 "T"
    ERROR@17..20
      SEMICOLON@17..18 ";"
      WHITESPACE@18..19 " "
      NUMBER@19..20 "1"
    WHITESPACE@20..21 " "
    R_BRACE@21..22 "}"
"#;

const FIELDS_ERRORS: &str = "14..14 expected `,` or a new line
17..18 expected a field
";
