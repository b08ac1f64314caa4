//! A language whose nodes have parts that are alike, on trees with parts missing and parts twice.
use grammar_small::nodes::{
    Condition, ConditionRef, Fn, FnRef, Number, NumberRef, Option as End, OptionRef as EndRef,
    Range, RangeRef, Sum, SumRef,
};
use grammar_small::{Kind, Small, T};
use rowan::ast::{AstNode, AstNodeRef, AstToken, AstTokenRef};
use rowan::builder::CacheHome;
use rowan::{
    Fault, GreenNode, GreenNodeBuilder, Language, SyntaxKind, SyntaxNode, SyntaxToken,
    SyntaxTokenRef,
};
use std::alloc::Global;
use std::test::Fail;

/// A tree, and the texts of the parts of its root; where one is missing, `_`.
///
/// In the tree a capital letter and a bracket open a node, and a closing bracket ends it. What else
/// stands there are tokens.
type Case = (&'static str, &'static str);

/// `lhs`, `op`, `rhs`.
const SUMS: [Case; 6] = [
    ("S[L[1]+L[2]]", "1;+;2;"),
    ("S[+L[2]]", "2;+;_;"),
    ("S[L[1]-]", "1;-;_;"),
    ("S[]", "_;_;_;"),
    ("S[L[1]+-L[2]L[3]]", "1;+;2;"),
    ("S[A[L[1]]L[2]L[3]]", "2;_;3;"),
];

/// `from`, `..`, `to`.
const RANGES: [Case; 4] = [
    ("R[1:2]", "1;..;2;"),
    ("R[:2]", "2;..;_;"),
    ("R[:]", "_;..;_;"),
    ("R[1:2::3]", "1;..;2;"),
];

/// `condition`, `then_branch`, `else_branch`.
const CONDITIONS: [Case; 5] = [
    ("C[?L[1]B[{}]!B[{L[2]}]]", "1;{};{2};"),
    ("C[?B[{}]B[{L[1]}]]", "{};{1};_;"),
    ("C[?L[1]L[2]!C[?L[3]]]", "1;_;if3;"),
    ("C[?L[1]B[{}]!L[2]]", "1;{};_;"),
    ("C[?]", "_;_;_;"),
];

/// `callee`, and then each of `args`.
const CALLS: [Case; 4] = [
    ("F[L[1](A[L[2]],A[L[3]])]", "1;2;3;"),
    ("F[B[{}]L[1]A[L[2]]]", "{};2;"),
    ("F[S[L[1]](A[B[{}]])]", "_;{};"),
    ("F[]", "_;"),
];

/// `string_token`, `type_`, `some_token`, `token_token`.
const ENDS: [Case; 3] = [
    ("O[v=F[L[1]]s]", "v;1;s;_;"),
    ("O[F[L[1]]F[L[2]]tts]", "_;1;s;t;"),
    ("O[]", "_;_;_;_;"),
];

fn node_kind(letter: char) -> Kind {
    match letter {
        'L' => Kind::Literal,
        'S' => Kind::Sum,
        'R' => Kind::Range,
        'F' => Kind::Fn,
        'A' => Kind::Self_,
        'B' => Kind::List,
        'C' => Kind::Condition,
        'O' => Kind::Option,
        _ => Kind::Error,
    }
}

fn token(letter: char) -> (Kind, &'static str) {
    match letter {
        '1' => (Kind::Number, "1"),
        '2' => (Kind::Number, "2"),
        '3' => (Kind::Number, "3"),
        '+' => (T![+], "+"),
        '-' => (T![-], "-"),
        ':' => (T![..], ".."),
        '?' => (T![if], "if"),
        '!' => (T![else], "else"),
        '(' => (T!['('], "("),
        ')' => (T![')'], ")"),
        '{' => (T!['{'], "{"),
        '}' => (T!['}'], "}"),
        ',' => (T![,], ","),
        '=' => (T![=], "="),
        'v' => (Kind::String, "v"),
        's' => (Kind::Some, "s"),
        't' => (Kind::Token_, "t"),
        _ => (Kind::Space, " "),
    }
}

fn make<H: CacheHome>(builder: &mut GreenNodeBuilder<'_, H>, letter: char) -> Result<(), Fault> {
    if letter.is_ascii_uppercase() {
        return builder.start_node(Small::kind_to_raw(node_kind(letter)));
    }
    if letter == '[' {
        return Ok(());
    }
    if letter == ']' {
        return builder.finish_node();
    }
    let (kind, text) = token(letter);
    builder.token(Small::kind_to_raw(kind), text)
}

fn tree(alloc: Global, letters: &str) -> Result<GreenNode, Fault> {
    let mut builder = GreenNodeBuilder::new(alloc);
    for letter in letters.chars() {
        make(&mut builder, letter)?;
    }
    Ok(builder.finish()?)
}

fn root<N: AstNode<Language = Small>>(alloc: Global, letters: &str) -> Result<N, Fault> {
    let root: SyntaxNode<Small> = SyntaxNode::new_root(alloc, tree(alloc, letters)?)?;
    N::cast(root).ok_or(Fault::NotFound)
}

fn add<N: AstNode<Language = Small> + Drop>(
    out: &mut String,
    found: Option<N>,
) -> Result<(), Fault> {
    match found {
        Some(node) => write!(out, "{};", node.syntax())?,
        None => out.push_str("_;")?,
    }
    Ok(())
}

fn add_ref<'tree, N: AstNodeRef<'tree, Language = Small>>(
    out: &mut String,
    found: Option<N>,
) -> Result<(), Fault> {
    match found {
        Some(node) => write!(out, "{};", node.syntax())?,
        None => out.push_str("_;")?,
    }
    Ok(())
}

fn add_token(out: &mut String, found: Option<SyntaxToken<Small>>) -> Result<(), Fault> {
    match found {
        Some(token) => write!(out, "{};", token.text())?,
        None => out.push_str("_;")?,
    }
    Ok(())
}

fn add_token_ref(out: &mut String, found: Option<SyntaxTokenRef<'_, Small>>) -> Result<(), Fault> {
    match found {
        Some(token) => write!(out, "{};", token.text())?,
        None => out.push_str("_;")?,
    }
    Ok(())
}

fn sum_parts(out: &mut String, sum: &Sum) -> Result<(), Fault> {
    add(out, sum.lhs()?)?;
    add_token(out, sum.op()?)?;
    add(out, sum.rhs()?)
}

fn sum_parts_ref(out: &mut String, sum: SumRef<'_>) -> Result<(), Fault> {
    add_ref(out, sum.lhs())?;
    add_token_ref(out, sum.op())?;
    add_ref(out, sum.rhs())
}

fn range_parts(out: &mut String, range: &Range) -> Result<(), Fault> {
    add_token(out, range.from()?)?;
    add_token(out, range.dots_token()?)?;
    add_token(out, range.to()?)
}

fn range_parts_ref(out: &mut String, range: RangeRef<'_>) -> Result<(), Fault> {
    add_token_ref(out, range.from())?;
    add_token_ref(out, range.dots_token())?;
    add_token_ref(out, range.to())
}

fn condition_parts(out: &mut String, condition: &Condition) -> Result<(), Fault> {
    add(out, condition.condition()?)?;
    add(out, condition.then_branch()?)?;
    add(out, condition.else_branch()?)
}

fn condition_parts_ref(out: &mut String, condition: ConditionRef<'_>) -> Result<(), Fault> {
    add_ref(out, condition.condition())?;
    add_ref(out, condition.then_branch())?;
    add_ref(out, condition.else_branch())
}

fn call_parts(out: &mut String, call: &Fn) -> Result<(), Fault> {
    add(out, call.callee()?)?;
    for argument in call.args() {
        add(out, Some(argument?))?;
    }
    Ok(())
}

fn call_parts_ref(out: &mut String, call: FnRef<'_>) -> Result<(), Fault> {
    add_ref(out, call.callee())?;
    for argument in call.args() {
        add_ref(out, Some(argument))?;
    }
    Ok(())
}

fn end_parts(out: &mut String, end: &End) -> Result<(), Fault> {
    add_token(out, end.string_token()?)?;
    add(out, end.type_()?)?;
    add_token(out, end.some_token()?)?;
    add_token(out, end.token_token()?)
}

fn end_parts_ref(out: &mut String, end: EndRef<'_>) -> Result<(), Fault> {
    add_token_ref(out, end.string_token())?;
    add_ref(out, end.type_())?;
    add_token_ref(out, end.some_token())?;
    add_token_ref(out, end.token_token())
}

/// Whether a text is the same one twice: of the owned parts, and of the borrowed ones.
fn is_twice(text: &str, one: &str) -> bool {
    text.strip_prefix(one) == Some(one)
}

fn sum_gives(alloc: Global, letters: &str, want: &str) -> Result<bool, Fault> {
    let sum: Sum = root(alloc, letters)?;
    let mut out = String::new(alloc);
    sum_parts(&mut out, &sum)?;
    sum_parts_ref(&mut out, sum.as_ref())?;
    Ok(is_twice(out.as_str(), want))
}

fn range_gives(alloc: Global, letters: &str, want: &str) -> Result<bool, Fault> {
    let range: Range = root(alloc, letters)?;
    let mut out = String::new(alloc);
    range_parts(&mut out, &range)?;
    range_parts_ref(&mut out, range.as_ref())?;
    Ok(is_twice(out.as_str(), want))
}

fn condition_gives(alloc: Global, letters: &str, want: &str) -> Result<bool, Fault> {
    let condition: Condition = root(alloc, letters)?;
    let mut out = String::new(alloc);
    condition_parts(&mut out, &condition)?;
    condition_parts_ref(&mut out, condition.as_ref())?;
    Ok(is_twice(out.as_str(), want))
}

fn call_gives(alloc: Global, letters: &str, want: &str) -> Result<bool, Fault> {
    let call: Fn = root(alloc, letters)?;
    let mut out = String::new(alloc);
    call_parts(&mut out, &call)?;
    call_parts_ref(&mut out, call.as_ref())?;
    Ok(is_twice(out.as_str(), want))
}

fn end_gives(alloc: Global, letters: &str, want: &str) -> Result<bool, Fault> {
    let end: End = root(alloc, letters)?;
    let mut out = String::new(alloc);
    end_parts(&mut out, &end)?;
    end_parts_ref(&mut out, end.as_ref())?;
    Ok(is_twice(out.as_str(), want))
}

#[test]
fn parts_of_sums(rt: HostRuntime) -> Result<(), Fail> {
    for (letters, want) in SUMS {
        assert!(rt; sum_gives(rt.alloc(), letters, want)?, "{letters}");
    }
    Ok(())
}

#[test]
fn parts_of_ranges(rt: HostRuntime) -> Result<(), Fail> {
    for (letters, want) in RANGES {
        assert!(rt; range_gives(rt.alloc(), letters, want)?, "{letters}");
    }
    Ok(())
}

#[test]
fn parts_of_conditions(rt: HostRuntime) -> Result<(), Fail> {
    for (letters, want) in CONDITIONS {
        assert!(rt; condition_gives(rt.alloc(), letters, want)?, "{letters}");
    }
    Ok(())
}

#[test]
fn parts_of_calls(rt: HostRuntime) -> Result<(), Fail> {
    for (letters, want) in CALLS {
        assert!(rt; call_gives(rt.alloc(), letters, want)?, "{letters}");
    }
    Ok(())
}

#[test]
fn parts_of_ends(rt: HostRuntime) -> Result<(), Fail> {
    for (letters, want) in ENDS {
        assert!(rt; end_gives(rt.alloc(), letters, want)?, "{letters}");
    }
    Ok(())
}

#[test]
fn tokens_with_content(rt: HostRuntime) -> Result<(), Fail> {
    let range: Range = root(rt.alloc(), "R[1:2]")?;
    let token = range.to()?.ok_or(Fault::NotFound)?;
    let number = Number::cast(token).ok_or(Fault::NotFound)?;
    assert!(rt; number.text() == "2");
    assert!(rt; number.as_ref().text() == "2");
    let dots = range.as_ref().dots_token().ok_or(Fault::NotFound)?;
    assert!(rt; NumberRef::cast(dots).is_none());
    Ok(())
}

#[test]
fn kinds_of_texts(rt: HostRuntime) {
    assert!(rt; Kind::from_keyword("else") == Some(T![else]));
    assert!(rt; Kind::from_keyword("v").is_none());
    assert!(rt; T![if].is_keyword() && !T![if].is_punct());
    assert!(rt; T![..].is_punct() && !Kind::Number.is_punct());
}
