//! Operators, types and calls.
use crate::script::trees::Case;

pub const OPERATORS: [Case; 5] = [
    Case {
        text: "let x: List<List<Int>>= a>>b",
        tree: SHIFT_AND_TYPES,
        errors: "",
    },
    Case {
        text: "1 + 2 * 3 << 4 - 5 < 6",
        tree: POWERS,
        errors: "",
    },
    Case {
        text: "a >= b == c",
        tree: CHAIN,
        errors: "0..6 a comparison stands in another one only in parentheses\n",
    },
    Case {
        text: "a > = b",
        tree: APART,
        errors: "3..3 expected an expression\n",
    },
    Case {
        text: "f(a, g(1),)(b)",
        tree: CALLS,
        errors: "",
    },
];

const SHIFT_AND_TYPES: &str = r#"ROOT@0..28
  LET@0..28
    LET_KW@0..3 "let"
    WHITESPACE@3..4 " "
    NAME@4..5 "x"
    COLON@5..6 ":"
    WHITESPACE@6..7 " "
    TYPE_NAME@7..22
      NAME@7..11 "List"
      TYPE_ARGUMENTS@11..22
        LT@11..12 "<"
        TYPE_NAME@12..21
          NAME@12..16 "List"
          TYPE_ARGUMENTS@16..21
            LT@16..17 "<"
            TYPE_NAME@17..20
              NAME@17..20 "Int"
            GT@20..21 ">"
        GT@21..22 ">"
    EQ@22..23 "="
    WHITESPACE@23..24 " "
    BINARY@24..28
      REFERENCE@24..25
        NAME@24..25 "a"
      SHR@25..27 ">>"
      REFERENCE@27..28
        NAME@27..28 "b"
"#;

const POWERS: &str = r#"ROOT@0..22
  BINARY@0..22
    BINARY@0..18
      BINARY@0..9
        LITERAL@0..1
          NUMBER@0..1 "1"
        WHITESPACE@1..2 " "
        PLUS@2..3 "+"
        WHITESPACE@3..4 " "
        BINARY@4..9
          LITERAL@4..5
            NUMBER@4..5 "2"
          WHITESPACE@5..6 " "
          STAR@6..7 "*"
          WHITESPACE@7..8 " "
          LITERAL@8..9
            NUMBER@8..9 "3"
      WHITESPACE@9..10 " "
      SHL@10..12 "<<"
      WHITESPACE@12..13 " "
      BINARY@13..18
        LITERAL@13..14
          NUMBER@13..14 "4"
        WHITESPACE@14..15 " "
        MINUS@15..16 "-"
        WHITESPACE@16..17 " "
        LITERAL@17..18
          NUMBER@17..18 "5"
    WHITESPACE@18..19 " "
    LT@19..20 "<"
    WHITESPACE@20..21 " "
    LITERAL@21..22
      NUMBER@21..22 "6"
"#;

const CHAIN: &str = r#"ROOT@0..11
  BINARY@0..11
    BINARY@0..6
      REFERENCE@0..1
        NAME@0..1 "a"
      WHITESPACE@1..2 " "
      GT_EQ@2..4 ">="
      WHITESPACE@4..5 " "
      REFERENCE@5..6
        NAME@5..6 "b"
    WHITESPACE@6..7 " "
    EQ_EQ@7..9 "=="
    WHITESPACE@9..10 " "
    REFERENCE@10..11
      NAME@10..11 "c"
"#;

const APART: &str = r#"ROOT@0..7
  BINARY@0..3
    REFERENCE@0..1
      NAME@0..1 "a"
    WHITESPACE@1..2 " "
    GT@2..3 ">"
  WHITESPACE@3..4 " "
  ERROR@4..7
    EQ@4..5 "="
    WHITESPACE@5..6 " "
    NAME@6..7 "b"
"#;

const CALLS: &str = r#"ROOT@0..14
  CALL@0..14
    CALL@0..11
      REFERENCE@0..1
        NAME@0..1 "f"
      ARGUMENTS@1..11
        L_PAREN@1..2 "("
        REFERENCE@2..3
          NAME@2..3 "a"
        COMMA@3..4 ","
        WHITESPACE@4..5 " "
        CALL@5..9
          REFERENCE@5..6
            NAME@5..6 "g"
          ARGUMENTS@6..9
            L_PAREN@6..7 "("
            LITERAL@7..8
              NUMBER@7..8 "1"
            R_PAREN@8..9 ")"
        COMMA@9..10 ","
        R_PAREN@10..11 ")"
    ARGUMENTS@11..14
      L_PAREN@11..12 "("
      REFERENCE@12..13
        NAME@12..13 "b"
      R_PAREN@13..14 ")"
"#;
