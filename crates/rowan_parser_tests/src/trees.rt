use arithmetic_syntax::{Arithmetic, Kind, next_token};
use rowan::{Fault, Language, SyntaxKind, SyntaxNode, TextRange, TextSize};
use rowan_parser::{
    CompletedMarker, Event, Parser, Source, Token, Trivia, build_tree, parse, run, token_set,
};
use std::alloc::Global;
use std::test::Fail;

const LITERAL: SyntaxKind = SyntaxKind(7);

const GROUP: SyntaxKind = SyntaxKind(8);

const SUM: SyntaxKind = SyntaxKind(10);

/// Ends where none is open, a node that does not end, a node around one that ended, and no event
/// for the second number.
const TREES: [(&[Event], &str); 4] = [
    (&[Event::Close, Event::Token, Event::Close], FLAT),
    (
        &[
            Event::Open(LITERAL, 0),
            Event::Token,
            Event::Close,
            Event::Open(GROUP, 0),
            Event::Token,
        ],
        UNCLOSED,
    ),
    (
        &[
            Event::Open(LITERAL, 3),
            Event::Token,
            Event::Close,
            Event::Around(SUM, 0),
            Event::Token,
            Event::Close,
        ],
        AROUND,
    ),
    (
        &[Event::Nothing, Event::Open(LITERAL, 9), Event::Token],
        LEFT_OUT,
    ),
];

const FLAT: &str = r#"ROOT@0..6
  SPACE@0..1 " "
  NUMBER@1..2 "1"
  SPACE@2..4 "  "
  NUMBER@4..5 "2"
  SPACE@5..6 " "
"#;

const UNCLOSED: &str = r#"ROOT@0..6
  SPACE@0..1 " "
  LITERAL@1..2
    NUMBER@1..2 "1"
  GROUP@2..5
    SPACE@2..4 "  "
    NUMBER@4..5 "2"
  SPACE@5..6 " "
"#;

const AROUND: &str = r#"ROOT@0..6
  SPACE@0..1 " "
  SUM@1..5
    LITERAL@1..2
      NUMBER@1..2 "1"
    SPACE@2..4 "  "
    NUMBER@4..5 "2"
  SPACE@5..6 " "
"#;

const LEFT_OUT: &str = r#"ROOT@0..6
  SPACE@0..1 " "
  LITERAL@1..2
    NUMBER@1..2 "1"
  SPACE@2..4 "  "
  NUMBER@4..5 "2"
  SPACE@5..6 " "
"#;

fn token(kind: Kind, text: &str) -> Token<'_> {
    Token {
        kind: Arithmetic::kind_to_raw(kind),
        text,
    }
}

/// The printed tree of events over two numbers. Spaces before a group belong to it.
fn printed(alloc: Global, events: &[Event]) -> Result<String, Fault> {
    let tokens = [
        token(Kind::Space, " "),
        token(Kind::Number, "1"),
        token(Kind::Space, "  "),
        token(Kind::Number, "2"),
        token(Kind::Space, " "),
    ];
    let trivia = Trivia {
        kinds: token_set![Kind::Space],
        attached: &[(GROUP, token_set![Kind::Space])],
    };
    let source = Source {
        root_kind: Arithmetic::kind_to_raw(Kind::Root),
        tokens: &tokens,
        trivia,
        events,
    };
    let root: SyntaxNode<Arithmetic> = SyntaxNode::new_root(alloc, build_tree(alloc, &source)?)?;
    root.debug_tree(alloc)
}

#[test]
fn events_have_their_trees(rt: HostRuntime) -> Result<(), Fail> {
    for (events, tree) in TREES {
        let printed = printed(rt.alloc(), events)?;
        assert!(rt; printed.as_str() == tree, "{printed}");
    }
    Ok(())
}

/// Parses by the lexer of sums and products.
fn tree_by<'text, G: FnOnce(&mut Parser<'text, Arithmetic>)>(
    alloc: Global,
    text: &'text str,
    grammar: G,
) -> Result<String, Fault>
    requires { G.IsAlwaysCallable grammar }
{
    let trivia = Trivia {
        kinds: token_set![Kind::Space],
        attached: &[],
    };
    let parse = parse(alloc, text, next_token, trivia, Kind::Root, grammar)?;
    let root: SyntaxNode<Arithmetic> = parse.syntax(alloc)?;
    root.debug_tree(alloc)
}

fn literal(p: &mut Parser<Arithmetic>) -> CompletedMarker {
    let literal = p.start();
    p.bump();
    p.complete(literal, Kind::Literal)
}

/// A sum of which the plus sign is taken as a space.
fn sum(p: &mut Parser<Arithmetic>) {
    let left = literal(p);
    let sum = p.precede(left);
    p.bump_as(Kind::Space);
    let right = literal(p);
    let product = p.precede(right);
    p.bump();
    literal(p);
    p.complete(product, Kind::Product);
    p.complete(sum, Kind::Sum);
}

const SUM_TREE: &str = r#"ROOT@0..9
  SUM@0..9
    LITERAL@0..1
      NUMBER@0..1 "1"
    SPACE@1..2 " "
    SPACE@2..3 "+"
    SPACE@3..4 " "
    PRODUCT@4..9
      LITERAL@4..5
        NUMBER@4..5 "2"
      SPACE@5..6 " "
      STAR@6..7 "*"
      SPACE@7..8 " "
      LITERAL@8..9
        NUMBER@8..9 "3"
"#;

#[test]
fn a_token_of_another_kind_moves_no_other(rt: HostRuntime) -> Result<(), Fail> {
    let printed = tree_by(rt.alloc(), "1 + 2 * 3", sum)?;
    assert!(rt; printed.as_str() == SUM_TREE, "{printed}");
    Ok(())
}

/// Tokens as one leaf, with the space between two of them and none before the first.
fn glued(p: &mut Parser<Arithmetic>) {
    p.bump();
    p.bump_glued(Kind::Literal, 2);
    p.bump_glued(Kind::Sum, 9);
}

const GLUED: &str = r#"ROOT@0..9
  NUMBER@0..1 "1"
  SPACE@1..2 " "
  LITERAL@2..5 "+ 2"
  SPACE@5..6 " "
  SUM@6..9 "* 3"
"#;

#[test]
fn glued_tokens_are_one_leaf(rt: HostRuntime) -> Result<(), Fail> {
    let printed = tree_by(rt.alloc(), "1 + 2 * 3", glued)?;
    assert!(rt; printed.as_str() == GLUED, "{printed}");
    Ok(())
}

/// The outer node is completed first, so its end is the inner one's.
fn crossed(p: &mut Parser<Arithmetic>) {
    let sum = p.start();
    p.bump();
    let group = p.start();
    p.bump();
    p.complete(sum, Kind::Sum);
    p.bump();
    p.complete(group, Kind::Group);
}

const CROSSED: &str = r#"ROOT@0..3
  SUM@0..3
    NUMBER@0..1 "1"
    GROUP@1..2
      PLUS@1..2 "+"
    NUMBER@2..3 "2"
"#;

#[test]
fn each_end_is_that_of_the_innermost_node(rt: HostRuntime) -> Result<(), Fail> {
    let printed = tree_by(rt.alloc(), "1+2", crossed)?;
    assert!(rt; printed.as_str() == CROSSED, "{printed}");
    Ok(())
}

/// A run makes no tree, and has what one is built of.
#[test]
fn a_run_has_the_tokens_and_events_of_the_tree(rt: HostRuntime) -> Result<(), Fail> {
    let trivia = Trivia {
        kinds: token_set![Kind::Space],
        attached: &[],
    };
    let ran = run(rt.alloc(), "1 + 2 * 3", next_token, trivia, sum)?;
    assert!(rt; ran.errors.is_empty());
    let source = Source {
        root_kind: Arithmetic::kind_to_raw(Kind::Root),
        tokens: ran.tokens.as_slice(),
        trivia,
        events: ran.events.as_slice(),
    };
    let green = build_tree(rt.alloc(), &source)?;
    let root: SyntaxNode<Arithmetic> = SyntaxNode::new_root(rt.alloc(), green)?;
    let printed = root.debug_tree(rt.alloc())?;
    assert!(rt; printed.as_str() == SUM_TREE, "{printed}");
    Ok(())
}

/// A line's end is a space, too.
fn spaced_token(rest: &str) -> (SyntaxKind, usize) {
    if rest.as_bytes().first() == Some(&b'\n') {
        return (Arithmetic::kind_to_raw(Kind::Space), 1);
    }
    next_token(rest)
}

/// Takes `++` as one token, and a last `7` as a group; complains of what begins a line.
fn looks(p: &mut Parser<Arithmetic>) {
    for _ in 0..p.tokens_left() {
        if p.newline_before() {
            let text = p.text();
            p.error_formatted(format!(in p.alloc(); "{text} begins a line"));
        }
        if p.at_glued(&[Kind::Plus, Kind::Plus]) {
            p.bump_glued(Kind::Star, 2);
        } else if p.at_contextual("7") && p.nth_text(1).is_empty() {
            p.bump_as(Kind::Group);
        } else {
            p.bump();
        }
    }
}

const LOOKS: &str = r#"ROOT@0..12
  NUMBER@0..1 "1"
  SPACE@1..2 " "
  STAR@2..4 "++"
  SPACE@4..5 " "
  PLUS@5..6 "+"
  SPACE@6..7 " "
  PLUS@7..8 "+"
  SPACE@8..9 "\n"
  NUMBER@9..10 "7"
  SPACE@10..11 " "
  GROUP@11..12 "7"
"#;

#[test]
fn texts_and_what_stands_between_tokens_are_seen(rt: HostRuntime) -> Result<(), Fail> {
    let trivia = Trivia {
        kinds: token_set![Kind::Space],
        attached: &[],
    };
    let parse = parse(
        rt.alloc(),
        "1 ++ + +\n7 7",
        spaced_token,
        trivia,
        Kind::Root,
        looks,
    )?;
    let root: SyntaxNode<Arithmetic> = parse.syntax(rt.alloc())?;
    let printed = root.debug_tree(rt.alloc())?;
    assert!(rt; printed.as_str() == LOOKS, "{printed}");
    assert!(rt; parse.errors.len() == 1);
    assert!(rt; parse.errors[0].message.as_str() == "7 begins a line");
    assert!(rt; parse.errors[0].range == TextRange::new(TextSize::from(9), TextSize::from(10)));
    Ok(())
}
