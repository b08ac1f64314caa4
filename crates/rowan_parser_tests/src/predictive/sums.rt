//! Sums and products as chains: the same trees as the parser by precedences.
use arithmetic_syntax::{Arithmetic, Kind, next_token};
use rowan::{Fault, Language, SyntaxNode};
use rowan_parser::{Parse, Trivia, token_set};
use rowan_predictive::{Grammar, Rule, Start, operators_at};
use std::alloc::Global;
use std::test::Fail;

// sum = product ('+' product)*, product = operand ('*' operand)*, operand = NUMBER | '(' sum ')'
const RULES: [Rule; 20] = [
    Rule::Chain(1),
    Rule::Seq(5, 2),
    Rule::Star(3),
    Rule::Wrap(10, 4),
    Rule::Seq(11, 5),
    Rule::Chain(6),
    Rule::Seq(10, 7),
    Rule::Star(8),
    Rule::Wrap(9, 9),
    Rule::Seq(12, 10),
    Rule::Choice(13, 14),
    Rule::Token(2),
    Rule::Token(3),
    Rule::Node(7, 15),
    Rule::Node(8, 16),
    Rule::Token(1),
    Rule::Seq(17, 18),
    Rule::Token(4),
    Rule::Seq(0, 19),
    Rule::Token(5),
];

fn parse(alloc: Global, grammar: &Grammar, text: &str) -> Result<Parse, Fault> {
    let trivia = Trivia {
        kinds: token_set![Kind::Space],
        attached: &[],
    };
    let start = Start {
        root: Arithmetic::kind_to_raw(Kind::Root),
        rule: 0,
        error: Arithmetic::kind_to_raw(Kind::Error),
        words: &["", "a number", "`+`", "`*`", "`(`", "`)`"],
    };
    grammar.parse(alloc, text, next_token, trivia, start)
}

#[test]
fn operators_are_left_associative(rt: HostRuntime) -> Result<(), Fail> {
    let grammar = Grammar::new(rt.alloc(), &RULES)?;
    for text in [
        "1",
        "1 + 2",
        "1+2+3",
        "1 + 2 * 3 * 4 + (5 + 6) * 7",
        "((1))",
    ] {
        let parsed = parse(rt.alloc(), &grammar, text)?;
        let wanted = arithmetic_syntax::parse(rt.alloc(), text)?;
        assert!(rt; parsed.errors.is_empty(), "{text}");
        assert!(rt; parsed.green == wanted.green, "{text}");
    }
    Ok(())
}

const TREE: &str = r#"ROOT@0..12
  SUM@0..10
    LITERAL@0..1
      NUMBER@0..1 "1"
    PLUS@1..2 "+"
    GROUP@2..10
      OPEN@2..3 "("
      LITERAL@3..4
        NUMBER@3..4 "2"
      SPACE@4..5 " "
      ERROR@5..8
        NUMBER@5..6 "3"
        SPACE@6..7 " "
        NUMBER@7..8 "4"
      SPACE@8..9 " "
      CLOSE@9..10 ")"
  ERROR@10..12
    CLOSE@10..11 ")"
    CLOSE@11..12 ")"
"#;

#[test]
fn skipped_tokens_stand_in_one_node(rt: HostRuntime) -> Result<(), Fail> {
    let grammar = Grammar::new(rt.alloc(), &RULES)?;
    let parsed = parse(rt.alloc(), &grammar, "1+(2 3 4 )))")?;
    let root: SyntaxNode<Arithmetic> = parsed.syntax(rt.alloc())?;
    let printed = root.debug_tree(rt.alloc())?;
    assert!(rt; printed.as_str() == TREE, "{printed}");
    assert_eq!(rt; parsed.errors.len(), 2);
    Ok(())
}

/// Of each rule that is a chain of operators the kind of its nodes, the operand and the operator.
#[test]
fn chains_of_operators_are_found(rt: HostRuntime) -> Result<(), Fail> {
    let mut found = String::new(rt.alloc());
    for number in 0..RULES.len() {
        if let Some(chain) = operators_at(&RULES, number) {
            write!(
                found,
                "{number}: {} {} {}; ",
                chain.kind, chain.operand, chain.operator
            )?;
        }
    }
    assert_eq!(rt; found.as_str(), "0: 10 5 11; 5: 9 10 12; ");
    Ok(())
}
