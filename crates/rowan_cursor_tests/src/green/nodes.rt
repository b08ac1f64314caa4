//! Green nodes and their elements.
use crate::green::fixture::{displays, leaf, node, token, tree, word};
use crate::green::utility_types::debugs;
use rowan_green::{GreenElement, GreenElementRef, GreenNode, SyntaxKind};
use std::alloc::{AllocError, Global};
use std::iter;
use std::test::Fail;

#[test]
fn node_has_its_kind_and_length(rt: HostRuntime) -> Result<(), Fail> {
    let tree = tree(rt.alloc())?;
    assert!(rt; tree.kind() == SyntaxKind(9));
    assert!(rt; u32::from(tree.text_len()) == 5);
    assert!(rt; tree.children().len() == 3);
    Ok(())
}

#[test]
fn a_node_is_made_from_one_child(rt: HostRuntime) -> Result<(), Fail> {
    let child = leaf(rt.alloc(), 1, "a")?;
    let once = GreenNode::new(rt.alloc(), SyntaxKind(4), iter::once(child))?;
    assert!(rt; word(rt.alloc(), 4, "a") == Ok(once));
    Ok(())
}

#[test]
fn a_node_is_made_from_no_child(rt: HostRuntime) -> Result<(), Fail> {
    let empty = GreenNode::new(rt.alloc(), SyntaxKind(4), iter::empty::<GreenElement>())?;
    assert!(rt; u32::from(empty.text_len()) == 0);
    assert!(rt; displays(rt.alloc(), &empty, "") == Ok(true));
    assert!(rt; node(rt.alloc(), 4, Vec::new(rt.alloc())) == Ok(empty));
    Ok(())
}

#[test]
fn nodes_display_their_text_and_show_their_fields(rt: HostRuntime) -> Result<(), Fail> {
    let tree = tree(rt.alloc())?;
    assert!(rt; displays(rt.alloc(), &tree, "(abé") == Ok(true));
    let shown = "GreenNode { kind: SyntaxKind(9), text_len: 5, n_children: 3 }";
    assert!(rt; debugs(rt.alloc(), &tree, shown) == Ok(true));
    Ok(())
}

/// Whether an element, owned and lent, has this kind and length and displays this text.
fn is_shown(
    alloc: Global,
    element: &GreenElement,
    kind: u16,
    text: &str,
) -> Result<bool, AllocError> {
    let lent = element.as_ref();
    let is_alike = element.kind() == SyntaxKind(kind)
        && lent.kind() == SyntaxKind(kind)
        && u32::from(element.text_len()) as usize == text.len()
        && u32::from(lent.text_len()) as usize == text.len();
    Ok(is_alike && displays(alloc, element, text)?)
}

#[test]
fn elements_are_nodes_or_tokens(rt: HostRuntime) -> Result<(), Fail> {
    let node = GreenElement::from(tree(rt.alloc())?);
    let token = leaf(rt.alloc(), 3, "é")?;
    assert!(rt; is_shown(rt.alloc(), &node, 9, "(abé") == Ok(true));
    assert!(rt; is_shown(rt.alloc(), &token, 3, "é") == Ok(true));
    assert!(rt; node != token);
    Ok(())
}

#[test]
fn a_lent_node_becomes_owned(rt: HostRuntime) -> Result<(), Fail> {
    let tree = tree(rt.alloc())?;
    let owned = GreenElementRef::from(&tree).to_owned()?;
    assert!(rt; owned == GreenElement::from(tree));
    Ok(())
}

#[test]
fn a_lent_token_becomes_owned(rt: HostRuntime) -> Result<(), Fail> {
    let token = token(rt.alloc(), 3, "é")?;
    let owned = GreenElementRef::from(&token).to_owned()?;
    assert!(rt; owned == GreenElement::from(token));
    Ok(())
}
