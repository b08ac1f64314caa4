//! A small programming language, whose parser is written from its grammar.
use little_syntax::kinds::TEXTS;
use little_syntax::{Kind, Little, LittleParser};
use rowan::{Fault, Language, NodeOrToken, SyntaxNodeRef, WalkEvent};
use rowan_parser::Parse;
use std::alloc::Global;
use std::test::Fail;

/// Texts without errors, and their trees.
const TREES: [(&str, &str); 9] = [
    ("", "(PROGRAM)"),
    (
        "1 + 2 * 3 - 4;",
        "(PROGRAM (EXPR_STATEMENT (SUM (SUM (LITERAL 1) + (PRODUCT (LITERAL 2) * (LITERAL 3))) - \
        (LITERAL 4)) ;))",
    ),
    (
        "a < b == c;",
        "(PROGRAM (EXPR_STATEMENT (COMPARISON (COMPARISON (VARIABLE a) < (VARIABLE b)) == \
        (VARIABLE c)) ;))",
    ),
    (
        "a = b = !c < 1;",
        "(PROGRAM (EXPR_STATEMENT (ASSIGNMENT (VARIABLE a) = (ASSIGNMENT (VARIABLE b) = \
        (COMPARISON (PREFIX ! (VARIABLE c)) < (LITERAL 1)))) ;))",
    ),
    (
        "-f(1)(x, y,)();",
        "(PROGRAM (EXPR_STATEMENT (PREFIX - (CALL (CALL (CALL (VARIABLE f) (ARGUMENTS ( (LITERAL 1) ))) \
        (ARGUMENTS ( (VARIABLE x) , (VARIABLE y) , ))) (ARGUMENTS ( )))) ;))",
    ),
    (
        "let x = (1 + 2) == 3; // a note",
        "(PROGRAM (LET_STATEMENT let x = (COMPARISON (GROUP ( (SUM (LITERAL 1) + (LITERAL 2)) )) == \
        (LITERAL 3)) ;))",
    ),
    (
        "if a { b; } else if c { } else { d; }",
        "(PROGRAM (IF_STATEMENT if (VARIABLE a) (BLOCK { (EXPR_STATEMENT (VARIABLE b) ;) }) else \
        (IF_STATEMENT if (VARIABLE c) (BLOCK { }) else (BLOCK { (EXPR_STATEMENT (VARIABLE d) ;) \
        }))))",
    ),
    (
        "fn f(a, b,) { let x = a; { x; } }",
        "(PROGRAM (FUNCTION fn f (PARAMETERS ( a , b , )) (BLOCK { (LET_STATEMENT let x = \
        (VARIABLE a) ;) (BLOCK { (EXPR_STATEMENT (VARIABLE x) ;) }) })))",
    ),
    (
        "fn f() { if x { f(); } }",
        "(PROGRAM (FUNCTION fn f (PARAMETERS ( )) (BLOCK { (IF_STATEMENT if (VARIABLE x) (BLOCK { \
        (EXPR_STATEMENT (CALL (VARIABLE f) (ARGUMENTS ( ))) ;) })) })))",
    ),
];

/// Texts with errors, their trees and the errors.
const DAMAGED: [(&str, &str, &str); 6] = [
    (
        "let = 1;",
        "(PROGRAM (LET_STATEMENT let = (LITERAL 1) ;))",
        "4..5 expected a name\n",
    ),
    (
        "1 +;",
        "(PROGRAM (EXPR_STATEMENT (SUM (LITERAL 1) +) ;))",
        "3..4 expected a number, a name, `(`, `-` or `!`\n",
    ),
    (
        "f(1",
        "(PROGRAM (EXPR_STATEMENT (CALL (VARIABLE f) (ARGUMENTS ( (LITERAL 1)))))",
        "3..3 expected `)`\n",
    ),
    (
        "} x;",
        "(PROGRAM (ERROR }) (EXPR_STATEMENT (VARIABLE x) ;))",
        "0..1 expected a number, a name, `let`, `fn`, `if`, `(`, `{`, `-` or `!`\n",
    ),
    (
        "f(1 ? ?, 2);",
        "(PROGRAM (EXPR_STATEMENT (CALL (VARIABLE f) (ARGUMENTS ( (LITERAL 1) (ERROR ? ?) , \
        (LITERAL 2) ))) ;))",
        "4..5 expected `(`, `)`, `{`, `,`, `;`, `=`, `==`, `<`, `+`, `-`, `*` or `/`\n",
    ),
    (
        "if x y; { z;",
        "(PROGRAM (IF_STATEMENT if (VARIABLE x) (BLOCK (EXPR_STATEMENT (VARIABLE y) ;) (BLOCK { \
        (EXPR_STATEMENT (VARIABLE z) ;)))))",
        "5..6 expected `(`, `)`, `{`, `,`, `;`, `=`, `==`, `<`, `+`, `-`, `*` or `/`\n\
        12..12 expected `}`\n",
    ),
];

/// The tree of a text: each node in parentheses with its kind before it, and the texts of tokens that
/// are no trivia.
fn printed(alloc: Global, parse: &Parse) -> Result<String, Fault> {
    let root = parse.syntax(alloc)?;
    let root: SyntaxNodeRef<'_, Little> = root.as_ref();
    let mut out = String::new(alloc);
    for event in root.preorder_with_tokens() {
        match event {
            WalkEvent::Enter(NodeOrToken::Node(node)) => {
                out.push_str(if out.is_empty() { "(" } else { " (" })?;
                out.push_str(Little::kind_name(node.kind()))?;
            }
            WalkEvent::Enter(NodeOrToken::Token(token)) => {
                if !matches!(token.kind(), Kind::Whitespace | Kind::Comment) {
                    out.push(' ')?;
                    out.push_str(token.text())?;
                }
            }
            WalkEvent::Leave(NodeOrToken::Node(_)) => out.push(')')?,
            WalkEvent::Leave(_) => {}
        }
    }
    Ok(out)
}

fn listed(alloc: Global, parse: &Parse) -> Result<String, Fault> {
    let mut out = String::new(alloc);
    for error in parse.errors.iter() {
        writeln!(out, "{:?} {}", error.range, error.message)?;
    }
    Ok(out)
}

#[test]
fn texts_of_the_language_have_no_errors(rt: HostRuntime) -> Result<(), Fail> {
    let parser = LittleParser::new(rt.alloc())?;
    for (text, tree) in TREES {
        let parse = parser.parse(rt.alloc(), text)?;
        let found = printed(rt.alloc(), &parse)?;
        assert!(rt; found.as_str() == tree, "{text}: {found}");
        assert!(rt; parse.errors.is_empty(), "{text}");
    }
    Ok(())
}

/// Whether a text has this tree and these errors, and its tree the text.
fn is_read_as(
    alloc: Global,
    parser: &LittleParser,
    text: &str,
    tree: &str,
    errors: &str,
) -> Result<bool, Fault> {
    let parse = parser.parse(alloc, text)?;
    let found = printed(alloc, &parse)?;
    let told = listed(alloc, &parse)?;
    let kept = parse.green.to_string(alloc)?;
    Ok(found.as_str() == tree && told.as_str() == errors && kept.as_str() == text)
}

#[test]
fn errors_say_what_is_expected(rt: HostRuntime) -> Result<(), Fail> {
    let parser = LittleParser::new(rt.alloc())?;
    for (text, tree, errors) in DAMAGED {
        let is_as_wanted = is_read_as(rt.alloc(), &parser, text, tree, errors)?;
        assert!(rt; is_as_wanted, "{text}");
    }
    Ok(())
}

/// Each text that a token always has is found, and of signs the longest.
#[test]
fn the_longest_sign_is_found(rt: HostRuntime) -> Result<(), Fail> {
    for (text, kind) in TEXTS {
        let found = match Kind::from_keyword(text) {
            Some(word) => Some((word, text.len())),
            None => Kind::from_start(text),
        };
        assert!(rt; found == Some((kind, text.len())), "{text}");
    }
    for (text, wanted) in [
        ("==", Some((Kind::Equal, 2))),
        ("===", Some((Kind::Equal, 2))),
        ("=1", Some((Kind::Assign, 1))),
        ("<", Some((Kind::Less, 1))),
        ("let", None),
        ("", None),
    ] {
        assert!(rt; Kind::from_start(text) == wanted, "{text}");
    }
    Ok(())
}
