//! Edits JSON with comments from standard input. Each argument edits what the one before it made:
//! `rename:OLD:NEW`, `set:NAME:VALUE`, `delete:NAME`, `wrap`, `sort`, `format`; names have quotes.
#![tactic(auto)]

use anyhow::{Result, bail};
use itertools::Itertools;
use json_syntax::nodes::{LiteralRef, MemberRef, ObjectRef};
use json_syntax::{Json, Kind};
use rowan::ast::AstNodeRef;
use rowan::{Direction, SyntaxNode, SyntaxNodeRef, TypedElementRefCalls};
use rowan_edit::{EditError, Piece, Refusal, SyntaxEditor};
use std::{env, io};

type Node<'tree> = SyntaxNodeRef<'tree, Json>;

type Editor = SyntaxEditor<Json>;

fn main(rt: HostRuntime) -> Result<()> {
    let alloc = rt.alloc();
    let text = io::read_to_string(alloc, rt.reader())?;
    let mut tree = match json_syntax::parse(alloc, text.as_str())?.ok() {
        Ok(tree) => tree,
        Err(errors) => bail!("{}", rowan_parser::render(alloc, &errors, &text, "input")?),
    };
    for word in env::args(&rt)?.skip(1) {
        if word.as_str() == "format" {
            tree = json_format::formatted(alloc, &tree)?;
            continue;
        }
        let root: SyntaxNode<Json> = SyntaxNode::new_root(alloc, tree)?;
        let mut editor = SyntaxEditor::new(alloc, root.as_ref())?;
        let mut words = word.splitn(3, ':');
        match (words.next(), words.next(), words.next()) {
            (Some("rename"), Some(old), Some(new)) => rename(&mut editor, root.as_ref(), old, new),
            (Some("set"), Some(name), Some(value)) => set(&mut editor, root.as_ref(), name, value),
            (Some("delete"), Some(name), None) => delete(&mut editor, root.as_ref(), name),
            (Some("wrap"), None, None) => wrap(&mut editor, root.as_ref()),
            (Some("sort"), None, None) => sort(&mut editor, root.as_ref()),
            _ => bail!("no such edit"),
        }?;
        tree = editor.finish()?.green;
    }
    Ok(print!(rt; "{tree}")?)
}

fn name_of<'tree>(member: MemberRef<'tree>) -> &'tree str {
    member.name().map_or("", |name| name.text())
}

fn member_of<'tree>(root: Node<'tree>, name: &str) -> Result<MemberRef<'tree>, EditError> {
    let mut members = root.descendants().filter_map(|node| MemberRef::cast(node));
    let found = members.find(|member| name_of(*member) == name);
    found.ok_or(EditError::Refused(Refusal::NotFound))
}

fn rename(editor: &mut Editor, root: Node<'_>, old: &str, new: &str) -> Result<(), EditError> {
    let members = root.descendants().filter_map(|node| MemberRef::cast(node));
    let names = members.filter_map(|member| member.name());
    let mut found = names.filter(|name| name.text() == old);
    found.try_for_each(|name| editor.set_text(name, new))
}

/// Puts the value that is parsed from a text in place of another.
fn put(editor: &mut Editor, old: Node<'_>, text: &str) -> Result<(), EditError> {
    let alloc = editor.allocator();
    let parse = |text: &str| json_syntax::parse(alloc, text).map(|p| (p.green, p.errors.len()));
    let new = editor.from_text(text, parse, |kind| kind != Kind::Root)?;
    editor.replace(old, new)
}

fn set(editor: &mut Editor, root: Node<'_>, name: &str, value: &str) -> Result<(), EditError> {
    let old = member_of(root, name)?.value();
    let old = old.ok_or(EditError::Refused(Refusal::NotFound))?;
    put(editor, old.syntax(), value)
}

/// Deletes a member, and what stands between it and the next one: a comma, a comment.
fn delete(editor: &mut Editor, root: Node<'_>, name: &str) -> Result<(), EditError> {
    let member = member_of(root, name)?.syntax();
    editor.delete(member)?;
    let behind = member.siblings_with_tokens(Direction::Next).skip(1);
    let mut gone = behind.take_while(|next| !matches!(next.kind(), Kind::Member | Kind::RBrace));
    gone.try_for_each(|next| editor.delete(next))
}

/// Puts each number into an array of its own.
fn wrap(editor: &mut Editor, root: Node<'_>) -> Result<(), EditError> {
    let literals = root.descendants().filter_map(|node| LiteralRef::cast(node));
    let mut numbers = literals.filter(|literal| literal.number_token().is_some());
    numbers.try_for_each(|literal| {
        let number = literal.syntax();
        let array = format!(in editor.allocator(); "[{number}]")?;
        put(editor, number, array.as_str())
    })
}

/// Sorts the members of each object by their names. What stands between them stays there.
fn sort(editor: &mut Editor, root: Node<'_>) -> Result<(), EditError> {
    for object in root.descendants().filter_map(|node| ObjectRef::cast(node)) {
        let members = object.members();
        let mut sorted = members.sorted_by_key(editor.allocator(), |member| name_of(*member))?;
        let object = object.syntax();
        let mut pieces = Vec::new(editor.allocator());
        for old in object.children_with_tokens() {
            let new = old.into_node().and_then(|_| sorted.next());
            pieces.push(Piece::Old(new.map_or(old.index(), |member| member.syntax().index())))?;
        }
        editor.replace_children(object, pieces)?;
    }
    Ok(())
}
