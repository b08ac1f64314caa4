use arithmetic_syntax::{Arithmetic, parse};
use rowan::SyntaxNode;
use std::test::Fail;

const TREE: &str = r#"ROOT@0..13
  SUM@0..11
    LITERAL@0..2
      NUMBER@0..2 "12"
    SPACE@2..3 " "
    PLUS@3..4 "+"
    SPACE@4..5 " "
    PRODUCT@5..11
      LITERAL@5..6
        NUMBER@5..6 "2"
      SPACE@6..7 " "
      STAR@7..8 "*"
      SPACE@8..9 " "
      GROUP@9..11
        OPEN@9..10 "("
        LITERAL@10..11
          NUMBER@10..11 "3"
  ERROR@11..13
    ERROR@11..13 "é"
"#;

#[test]
fn an_open_group_and_a_strange_character_are_parsed(rt: HostRuntime) -> Result<(), Fail> {
    let parse = parse(rt.alloc(), "12 + 2 * (3é")?;
    let root: SyntaxNode<Arithmetic> = parse.syntax(rt.alloc())?;
    let printed = root.debug_tree(rt.alloc())?;
    assert!(rt; printed.as_str() == TREE, "{printed}");
    assert_eq!(rt; parse.errors.len(), 1);
    Ok(())
}

#[test]
fn no_text_is_lost(rt: HostRuntime) -> Result<(), Fail> {
    for text in ["", "1*2+3*4", ") (1 + 2) * 3", "((\t", "+**+"] {
        let parse = parse(rt.alloc(), text)?;
        assert!(rt; parse.green.to_string(rt.alloc())?.as_str() == text);
    }
    Ok(())
}
