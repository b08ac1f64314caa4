//! Rules that are no grammar, and why.
use rowan_predictive::{Grammar, Rule, conflicts_of};
use std::test::Fail;

#[test]
fn rules_are_refused_with_a_cause(rt: HostRuntime) -> Result<(), Fail> {
    let alloc = rt.alloc();
    let both = [Rule::Choice(1, 2), Rule::Node(9, 2), Rule::Token(1)];
    let left = [Rule::Choice(1, 2), Rule::Seq(0, 2), Rule::Token(1)];
    let endless = [Rule::Seq(1, 0), Rule::Token(1)];
    let follows = [Rule::Seq(1, 2), Rule::Optional(2), Rule::Token(1)];
    let empty = [Rule::Star(1), Rule::Empty];
    let missing = [Rule::Node(9, 1)];
    let large = [Rule::Token(128)];
    for (rules, wanted) in [
        (
            both.as_slice(),
            "token 1 begins rules 1 and 2, and rule 0 is one of them",
        ),
        (left.as_slice(), "rules begin with each other: [1, 0]"),
        (
            endless.as_slice(),
            "rules need each other without an end: [0]",
        ),
        (
            follows.as_slice(),
            "token 1 begins rule 1, which may be left out, and may stand behind it",
        ),
        (empty.as_slice(), "rule 0 may be empty in two ways"),
        (
            missing.as_slice(),
            "rule 0 names rule 1, which is not there",
        ),
        (
            large.as_slice(),
            "rule 0 takes a token of kind 128, and kinds of tokens are below 128",
        ),
    ] {
        match Grammar::new(alloc, rules) {
            Ok(_) => assert!(rt; false, "{wanted}"),
            Err(error) => {
                let shown = format!(in alloc; "{error}")?;
                assert_eq!(rt; shown.as_str(), wanted);
            }
        }
    }
    Ok(())
}

const TOLD: &str = "\
token 1 begins rules 4 and 5, and rule 0 is one of them
rule 2 may be empty in two ways
";

/// All that is wrong is told at once, of choices in choices what is chosen in the end.
#[test]
fn conflicts_name_what_is_chosen(rt: HostRuntime) -> Result<(), Fail> {
    let rules = [
        Rule::Choice(1, 5),
        Rule::Choice(3, 4),
        Rule::Star(6),
        Rule::Token(2),
        Rule::Token(1),
        Rule::Node(9, 7),
        Rule::Empty,
        Rule::Seq(4, 2),
    ];
    let mut told = String::new(rt.alloc());
    for error in conflicts_of(rt.alloc(), &rules)?.iter() {
        writeln!(told, "{error}")?;
    }
    assert_eq!(rt; told.as_str(), TOLD);
    Ok(())
}
