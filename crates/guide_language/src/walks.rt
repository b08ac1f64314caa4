//! What a program asks of settings, by cursors that borrow from the tree.
ghost use Rattle.std.specs.Prelude.{Contains, IfSome};
ghost use Rattle.rowan.specs.Moves.{children};
ghost use Rattle.rowan.specs.Refs.{node_place};
ghost use Rattle.guide_language.specs.Places.{StandsIn};

use crate::kinds::{Kind, Settings};
use crate::nodes::{EntryRef, SectionRef};
use rowan::ast::AstNodeRef;
use rowan::{SyntaxNodeRef, TextSize};

pub type Node<'tree> = SyntaxNodeRef<'tree, Settings>;

/// The first entry at a path: `port` is one before all sections, `server.port` one of the section
/// `server`.
pub fn get<'tree>(root: Node<'tree>, path: &str) -> Option<Node<'tree>>
    ensures { IfSome result (λ found. StandsIn (node_place root.entry) (node_place found)) }
{
    match path.split_once('.') {
        None => entry_in(root, path),
        Some((section, key)) => entry_in(section_in(root, section)?, key),
    }
}

/// The first section with a name.
fn section_in<'tree>(root: Node<'tree>, name: &str) -> Option<Node<'tree>>
    ensures { IfSome result (λ found.
        Contains (children (node_place root.entry)) (node_place found)) }
{
    root.children().find(|node| node.kind() == Kind::Section && section_name(*node) == Some(name))
}

/// The first entry with a key among the children of a node.
fn entry_in<'tree>(parent: Node<'tree>, key: &str) -> Option<Node<'tree>>
    ensures { IfSome result (λ found.
        Contains (children (node_place parent.entry)) (node_place found)) }
{
    parent.children().find(|node| node.kind() == Kind::Entry && key_of(*node) == Some(key))
}

/// The name in the header of a section.
pub fn section_name<'tree>(node: Node<'tree>) -> Option<&'tree str> {
    let header = SectionRef::cast(node)?.header()?;
    Some(header.name_token()?.text())
}

/// The key of an entry.
pub fn key_of<'tree>(node: Node<'tree>) -> Option<&'tree str> {
    Some(EntryRef::cast(node)?.key_token()?.text())
}

/// The entry with a byte of the text, or that ends there. An editor shows what it knows of it.
pub fn entry_at<'tree>(root: Node<'tree>, offset: TextSize) -> Option<EntryRef<'tree>> {
    if !root.text_range().contains_inclusive(offset) {
        return None;
    }
    let token = root.token_at_offset(offset).left_biased()?;
    token
        .parent_ancestors()
        .find_map(|node| EntryRef::cast(node))
}
