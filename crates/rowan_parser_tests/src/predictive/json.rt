//! JSON as rules: the same trees as the parser by hand.
use json_syntax::{JsonLexer, Kind, Options, parse_with_options};
use rowan::{Fault, Language};
use rowan_parser::{Parse, Trivia, token_set};
use rowan_predictive::{Grammar, Rule, Start};
use std::alloc::Global;
use std::test::Fail;

const RULES: [Rule; 31] = [
    Rule::Choice(1, 2),
    Rule::Node(15, 3),
    Rule::Choice(4, 5),
    Rule::Choice(6, 7),
    Rule::Node(14, 9),
    Rule::Node(12, 10),
    Rule::Token(2),
    Rule::Choice(8, 11),
    Rule::Token(3),
    Rule::Seq(12, 13),
    Rule::Seq(14, 15),
    Rule::Token(4),
    Rule::Token(7),
    Rule::Seq(16, 17),
    Rule::Token(5),
    Rule::Seq(18, 19),
    Rule::Optional(20),
    Rule::Token(8),
    Rule::Optional(21),
    Rule::Token(6),
    Rule::Seq(0, 22),
    Rule::Seq(23, 24),
    Rule::Star(25),
    Rule::Node(13, 26),
    Rule::Star(27),
    Rule::Seq(28, 0),
    Rule::Seq(6, 29),
    Rule::Seq(28, 23),
    Rule::Token(9),
    Rule::Seq(30, 0),
    Rule::Token(10),
];

fn parse(alloc: Global, grammar: &Grammar, text: &str) -> Result<Parse, Fault> {
    let lexer = JsonLexer {
        options: Options::strict(),
    };
    let trivia = Trivia {
        kinds: token_set![Kind::Whitespace, Kind::Comment],
        attached: &[],
    };
    let words = [
        "", "", "a string", "a number", "a word", "`{`", "`}`", "`[`", "`]`", "`,`", "`:`", "",
    ];
    let start = Start {
        root: json_syntax::Json::kind_to_raw(Kind::Root),
        rule: 0,
        error: json_syntax::Json::kind_to_raw(Kind::Error),
        words: &words,
    };
    grammar.parse(alloc, text, lexer, trivia, start)
}

#[test]
fn valid_texts_have_the_same_tree(rt: HostRuntime) -> Result<(), Fail> {
    let grammar = Grammar::new(rt.alloc(), &RULES)?;
    for text in [
        "1",
        "[]",
        "{}",
        " [1, \"a\" , [true,[null]]] ",
        "{\"a\": {\"b\": [1, {}]}, \"c\": 2}\n",
    ] {
        let parsed = parse(rt.alloc(), &grammar, text)?;
        let wanted = parse_with_options(rt.alloc(), text, Options::strict())?;
        assert!(rt; parsed.errors.is_empty(), "{text}");
        assert!(rt; parsed.green == wanted.green, "{text}");
    }
    Ok(())
}

#[test]
fn errors_say_what_is_expected(rt: HostRuntime) -> Result<(), Fail> {
    let grammar = Grammar::new(rt.alloc(), &RULES)?;
    for (text, wanted) in [
        ("[1 2]", "3..4 expected `]` or `,`;"),
        ("[1 2 3]", "3..4 expected `]` or `,`;"),
        ("[1", "2..2 expected `]`;"),
        (
            "[,]",
            "1..2 expected a string, a number, a word, `{`, `[` or `]`;",
        ),
        ("1 2 3", "2..3 expected the end of the text;"),
        (
            "{\"a\" 1, 2: 3}",
            "5..6 expected `:`;8..9 expected a string;",
        ),
    ] {
        let parsed = parse(rt.alloc(), &grammar, text)?;
        let mut shown = String::new(rt.alloc());
        for error in parsed.errors() {
            let one = format!(in rt.alloc(); "{:?} {};", error.range, error.message)?;
            shown.push_str(one.as_str())?;
        }
        assert_eq!(rt; shown.as_str(), wanted);
        assert!(rt; parsed.green.to_string(rt.alloc())?.as_str() == text);
    }
    Ok(())
}
