//! A language like TOML, on the tree of one line.
use grammar_sample::kinds::{ROOT, TRIVIA};
use grammar_sample::nodes::{
    Array, ArrayRef, Composed, ComposedRef, Document, Entry, EntryRef, IntegerLiteral, KeyPart,
    Literal, Value, ValueRef,
};
use grammar_sample::{Kind, Sample};
use rowan::ast::{AstNode, AstNodeRef};
use rowan::builder::CacheHome;
use rowan::{Fault, GreenNode, GreenNodeBuilder, Language, SyntaxKind, SyntaxNode};
use std::alloc::Global;
use std::test::Fail;

type Node = SyntaxNode<Sample>;

/// A part of a tree.
#[derive(Clone, Copy)]
enum Part {
    Open(Kind),
    Leaf(Kind, &'static str),
    Close,
}

/// `key = [1, 20]`
const LINE: [Part; 19] = [
    Part::Open(Kind::Document),
    Part::Open(Kind::Entry),
    Part::Open(Kind::Key),
    Part::Open(Kind::BareKey),
    Part::Leaf(Kind::Name, "key"),
    Part::Close,
    Part::Close,
    Part::Leaf(Kind::Whitespace, " "),
    Part::Leaf(Kind::Equals, "="),
    Part::Open(Kind::Array),
    Part::Leaf(Kind::LeftBracket, "["),
    Part::Open(Kind::IntegerLiteral),
    Part::Leaf(Kind::Integer, "1"),
    Part::Close,
    Part::Leaf(Kind::Comma, ","),
    Part::Open(Kind::IntegerLiteral),
    Part::Leaf(Kind::Integer, "20"),
    Part::Close,
    Part::Leaf(Kind::RightBracket, "]"),
];

fn make<H: CacheHome>(builder: &mut GreenNodeBuilder<'_, H>, part: Part) -> Result<(), Fault> {
    match part {
        Part::Open(kind) => builder.start_node(Sample::kind_to_raw(kind)),
        Part::Leaf(kind, text) => builder.token(Sample::kind_to_raw(kind), text),
        Part::Close => builder.finish_node(),
    }
}

fn tree(alloc: Global) -> Result<GreenNode, Fault> {
    let mut builder = GreenNodeBuilder::new(alloc);
    for part in LINE.iter() {
        make(&mut builder, *part)?;
    }
    for _ in 0..3 {
        builder.finish_node()?;
    }
    Ok(builder.finish()?)
}

fn document(alloc: Global) -> Result<Document, Fault> {
    let root: Node = SyntaxNode::new_root(alloc, tree(alloc)?)?;
    Document::cast(root).ok_or(Fault::NotFound)
}

fn entry(alloc: Global) -> Result<Entry, Fault> {
    match document(alloc)?.entries().next() {
        Some(entry) => entry,
        None => Err(Fault::NotFound),
    }
}

fn array(alloc: Global) -> Result<Array, Fault> {
    match entry(alloc)?.value()? {
        Some(Value::Composed(Composed::Array(array))) => Ok(array),
        _ => Err(Fault::NotFound),
    }
}

fn shown(alloc: Global, node: &Node) -> Result<String, Fault> {
    Ok(format!(in alloc; "{node}")?)
}

#[test]
fn numbers_and_names(rt: HostRuntime) {
    for (raw, kind, name) in [
        (0, Kind::Whitespace, "WHITESPACE"),
        (19, Kind::Error, "ERROR"),
        (31, Kind::IntegerLiteral, "INTEGER_LITERAL"),
        (32, Kind::FloatLiteral, "FLOAT_LITERAL"),
        (39, Kind::Arguments, "ARGUMENTS"),
    ] {
        assert!(rt; Sample::kind_from_raw(SyntaxKind(raw)) == kind);
        assert!(rt; Sample::kind_to_raw(kind) == SyntaxKind(raw));
        assert!(rt; Sample::kind_name(kind) == name);
    }
}

#[test]
fn other_numbers_are_errors(rt: HostRuntime) {
    for raw in [40, 63, 64, 65535] {
        assert!(rt; Sample::kind_from_raw(SyntaxKind(raw)) == Kind::Error);
    }
}

#[test]
fn trivia_and_root(rt: HostRuntime) {
    assert!(rt; TRIVIA.len() == 3);
    assert!(rt; ROOT == Kind::Document);
}

#[test]
fn one_token(rt: HostRuntime) -> Result<(), Fail> {
    let entry = entry(rt.alloc())?;
    let equals = entry.equals_token()?.ok_or(Fault::NotFound)?;
    assert!(rt; equals.kind() == Kind::Equals);
    assert!(rt; entry.note()?.is_none());
    Ok(())
}

#[test]
fn one_child(rt: HostRuntime) -> Result<(), Fail> {
    let alloc = rt.alloc();
    let key = entry(alloc)?.key()?.ok_or(Fault::NotFound)?;
    assert!(rt; shown(alloc, key.syntax())?.as_str() == "key");
    let part = key.key_parts().next();
    assert!(rt; matches!(&part, Some(Ok(KeyPart::BareKey(_)))));
    Ok(())
}

#[test]
fn many_children(rt: HostRuntime) -> Result<(), Fail> {
    let alloc = rt.alloc();
    let values = array(alloc)?.values();
    let mut texts = String::new(alloc);
    for value in values {
        texts.push_str(shown(alloc, value?.syntax())?.as_str())?;
        texts.push(';')?;
    }
    assert!(rt; texts.as_str() == "1;20;");
    Ok(())
}

fn array_in<'tree>(entry: EntryRef<'tree>) -> Option<ArrayRef<'tree>> {
    match entry.value() {
        Some(ValueRef::Composed(ComposedRef::Array(array))) => Some(array),
        _ => None,
    }
}

#[test]
fn borrowed_parts(rt: HostRuntime) -> Result<(), Fail> {
    let alloc = rt.alloc();
    let entry = entry(alloc)?;
    let borrowed = entry.as_ref();
    assert!(rt; borrowed.equals_token().is_some());
    assert!(rt; borrowed.note().is_none());
    let key = borrowed.key().ok_or(Fault::NotFound)?;
    let mut texts = format!(in alloc; "{};", key.syntax())?;
    let array = array_in(borrowed).ok_or(Fault::NotFound)?;
    for value in array.values() {
        write!(texts, "{};", value.syntax())?;
    }
    assert!(rt; texts.as_str() == "key;1;20;");
    assert!(rt; array.to_owned()?.as_ref() == array);
    Ok(())
}

#[test]
fn choices_of_their_parts(rt: HostRuntime) -> Result<(), Fail> {
    let value = Value::from(Composed::from(array(rt.alloc())?));
    assert!(rt; matches!(&value, Value::Composed(Composed::Array(_))));
    assert!(rt; value.clone()? == value);
    Ok(())
}

#[test]
fn other_kinds_do_not_cast(rt: HostRuntime) {
    assert!(rt; !Value::can_cast(Kind::Entry));
    assert!(rt; Value::can_cast(Kind::InlineTable));
    assert!(rt; Literal::can_cast(Kind::MomentLiteral));
    assert!(rt; !IntegerLiteral::can_cast(Kind::FloatLiteral));
}
