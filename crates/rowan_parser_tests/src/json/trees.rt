use json_syntax::{Json, parse};
use rowan::SyntaxNode;
use std::test::Fail;

const WHOLE: &str = r#"ROOT@0..34
  COMMENT@0..7 "// note"
  WHITESPACE@7..8 "\n"
  OBJECT@8..34
    L_BRACE@8..9 "{"
    MEMBER@9..23
      STRING@9..12 "\"a\""
      COLON@12..13 ":"
      WHITESPACE@13..14 " "
      ARRAY@14..23
        L_BRACKET@14..15 "["
        LITERAL@15..16
          NUMBER@15..16 "1"
        COMMA@16..17 ","
        WHITESPACE@17..18 " "
        LITERAL@18..22
          WORD@18..22 "true"
        R_BRACKET@22..23 "]"
    WHITESPACE@23..24 " "
    COMMA@24..25 ","
    WHITESPACE@25..26 " "
    MEMBER@26..33
      STRING@26..29 "\"b\""
      COLON@29..30 ":"
      WHITESPACE@30..31 " "
      OBJECT@31..33
        L_BRACE@31..32 "{"
        R_BRACE@32..33 "}"
    R_BRACE@33..34 "}"
"#;

const DAMAGED: &str = r#"ROOT@0..14
  ARRAY@0..12
    L_BRACKET@0..1 "["
    ERROR@1..2
      UNKNOWN@1..2 "@"
    COMMA@2..3 ","
    WHITESPACE@3..4 " "
    OBJECT@4..9
      L_BRACE@4..5 "{"
      MEMBER@5..8
        ERROR@5..6
          WORD@5..6 "x"
        WHITESPACE@6..7 " "
        LITERAL@7..8
          NUMBER@7..8 "1"
      R_BRACE@8..9 "}"
    COMMA@9..10 ","
    WHITESPACE@10..11 " "
    R_BRACKET@11..12 "]"
  WHITESPACE@12..13 " "
  ERROR@13..14
    NUMBER@13..14 "2"
"#;

const UNCLOSED: &str = r#"ROOT@0..10
  OBJECT@0..10
    L_BRACE@0..1 "{"
    MEMBER@1..10
      STRING@1..4 "\"a\""
      COLON@4..5 ":"
      WHITESPACE@5..6 " "
      ARRAY@6..10
        L_BRACKET@6..7 "["
        LITERAL@7..8
          NUMBER@7..8 "1"
        WHITESPACE@8..9 " "
        ERROR@9..10
          NUMBER@9..10 "2"
"#;

/// Texts with their trees, which were worked out by hand.
const TREES: [(&str, &str); 4] = [
    ("", "ROOT@0..0\n"),
    ("// note\n{\"a\": [1, true] , \"b\": {}}", WHOLE),
    ("[@, {x 1}, ] 2", DAMAGED),
    ("{\"a\": [1 2", UNCLOSED),
];

#[test]
fn texts_have_their_trees(rt: HostRuntime) -> Result<(), Fail> {
    for (text, tree) in TREES {
        let root: SyntaxNode<Json> = parse(rt.alloc(), text)?.syntax(rt.alloc())?;
        let printed = root.debug_tree(rt.alloc())?;
        assert!(rt; printed.as_str() == tree, "{printed}");
    }
    Ok(())
}
