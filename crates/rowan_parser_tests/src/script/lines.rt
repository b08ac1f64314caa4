//! Lines, contextual keywords and comments.
use crate::script::trees::Case;

pub const LINES: [Case; 7] = [
    Case {
        text: "let x = 1\nx + 2\n",
        tree: TWO_LINES,
        errors: "",
    },
    Case {
        text: "1 +\n 2\n+ 3; 4",
        tree: BEHIND_AN_OPERATOR,
        errors: "7..8 expected a statement\n",
    },
    Case {
        text: "(1\n+ 2)\nf\n(a)",
        tree: IN_BRACKETS,
        errors: "",
    },
    Case {
        text: "fn f() {\n  return\n  1\n}",
        tree: RETURN,
        errors: "",
    },
    Case {
        text: "let union = 1\nunion + 2\nunion U { a: T\nb: U, }",
        tree: UNION,
        errors: "",
    },
    Case {
        text: "// licence\n\n// doc\nfn f(a: T) { }",
        tree: COMMENTS,
        errors: "",
    },
    Case {
        text: "x // note\n// doc\nunion U {}",
        tree: REMARK,
        errors: "",
    },
];

const TWO_LINES: &str = r#"ROOT@0..16
  LET@0..9
    LET_KW@0..3 "let"
    WHITESPACE@3..4 " "
    NAME@4..5 "x"
    WHITESPACE@5..6 " "
    EQ@6..7 "="
    WHITESPACE@7..8 " "
    LITERAL@8..9
      NUMBER@8..9 "1"
  WHITESPACE@9..10 "\n"
  BINARY@10..15
    REFERENCE@10..11
      NAME@10..11 "x"
    WHITESPACE@11..12 " "
    PLUS@12..13 "+"
    WHITESPACE@13..14 " "
    LITERAL@14..15
      NUMBER@14..15 "2"
  WHITESPACE@15..16 "\n"
"#;

const BEHIND_AN_OPERATOR: &str = r#"ROOT@0..13
  BINARY@0..6
    LITERAL@0..1
      NUMBER@0..1 "1"
    WHITESPACE@1..2 " "
    PLUS@2..3 "+"
    WHITESPACE@3..5 "\n "
    LITERAL@5..6
      NUMBER@5..6 "2"
  WHITESPACE@6..7 "\n"
  ERROR@7..10
    PLUS@7..8 "+"
    WHITESPACE@8..9 " "
    NUMBER@9..10 "3"
  SEMICOLON@10..11 ";"
  WHITESPACE@11..12 " "
  LITERAL@12..13
    NUMBER@12..13 "4"
"#;

const IN_BRACKETS: &str = r#"ROOT@0..13
  GROUP@0..7
    L_PAREN@0..1 "("
    BINARY@1..6
      LITERAL@1..2
        NUMBER@1..2 "1"
      WHITESPACE@2..3 "\n"
      PLUS@3..4 "+"
      WHITESPACE@4..5 " "
      LITERAL@5..6
        NUMBER@5..6 "2"
    R_PAREN@6..7 ")"
  WHITESPACE@7..8 "\n"
  REFERENCE@8..9
    NAME@8..9 "f"
  WHITESPACE@9..10 "\n"
  GROUP@10..13
    L_PAREN@10..11 "("
    REFERENCE@11..12
      NAME@11..12 "a"
    R_PAREN@12..13 ")"
"#;

const RETURN: &str = r#"ROOT@0..23
  FUNCTION@0..23
    FN_KW@0..2 "fn"
    WHITESPACE@2..3 " "
    NAME@3..4 "f"
    PARAMETERS@4..6
      L_PAREN@4..5 "("
      R_PAREN@5..6 ")"
    WHITESPACE@6..7 " "
    BLOCK@7..23
      L_BRACE@7..8 "{"
      WHITESPACE@8..11 "\n  "
      RETURN@11..17
        RETURN_KW@11..17 "return"
      WHITESPACE@17..20 "\n  "
      LITERAL@20..21
        NUMBER@20..21 "1"
      WHITESPACE@21..22 "\n"
      R_BRACE@22..23 "}"
"#;

const UNION: &str = r#"ROOT@0..46
  LET@0..13
    LET_KW@0..3 "let"
    WHITESPACE@3..4 " "
    NAME@4..9 "union"
    WHITESPACE@9..10 " "
    EQ@10..11 "="
    WHITESPACE@11..12 " "
    LITERAL@12..13
      NUMBER@12..13 "1"
  WHITESPACE@13..14 "\n"
  BINARY@14..23
    REFERENCE@14..19
      NAME@14..19 "union"
    WHITESPACE@19..20 " "
    PLUS@20..21 "+"
    WHITESPACE@21..22 " "
    LITERAL@22..23
      NUMBER@22..23 "2"
  WHITESPACE@23..24 "\n"
  UNION@24..46
    UNION_KW@24..29 "union"
    WHITESPACE@29..30 " "
    NAME@30..31 "U"
    WHITESPACE@31..32 " "
    L_BRACE@32..33 "{"
    WHITESPACE@33..34 " "
    FIELD@34..38
      NAME@34..35 "a"
      COLON@35..36 ":"
      WHITESPACE@36..37 " "
      TYPE_NAME@37..38
        NAME@37..38 "T"
    WHITESPACE@38..39 "\n"
    FIELD@39..43
      NAME@39..40 "b"
      COLON@40..41 ":"
      WHITESPACE@41..42 " "
      TYPE_NAME@42..43
        NAME@42..43 "U"
    COMMA@43..44 ","
    WHITESPACE@44..45 " "
    R_BRACE@45..46 "}"
"#;

const COMMENTS: &str = r#"ROOT@0..33
  COMMENT@0..10 "// licence"
  WHITESPACE@10..12 "\n\n"
  FUNCTION@12..33
    COMMENT@12..18 "// doc"
    WHITESPACE@18..19 "\n"
    FN_KW@19..21 "fn"
    WHITESPACE@21..22 " "
    NAME@22..23 "f"
    PARAMETERS@23..29
      L_PAREN@23..24 "("
      PARAMETER@24..28
        NAME@24..25 "a"
        COLON@25..26 ":"
        WHITESPACE@26..27 " "
        TYPE_NAME@27..28
          NAME@27..28 "T"
      R_PAREN@28..29 ")"
    WHITESPACE@29..30 " "
    BLOCK@30..33
      L_BRACE@30..31 "{"
      WHITESPACE@31..32 " "
      R_BRACE@32..33 "}"
"#;

const REMARK: &str = r#"ROOT@0..27
  REFERENCE@0..1
    NAME@0..1 "x"
  WHITESPACE@1..2 " "
  REMARK@2..9 "// note"
  WHITESPACE@9..10 "\n"
  UNION@10..27
    COMMENT@10..16 "// doc"
    WHITESPACE@16..17 "\n"
    UNION_KW@17..22 "union"
    WHITESPACE@22..23 " "
    NAME@23..24 "U"
    WHITESPACE@24..25 " "
    L_BRACE@25..26 "{"
    R_BRACE@26..27 "}"
"#;
