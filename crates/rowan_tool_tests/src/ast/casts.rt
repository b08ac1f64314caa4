//! Nodes in wrappers, and pointers to these.
use super::wrappers::{AnyNode, EvenNode};
use super::{Node, child_of, root_of};
use crate::language::{Numbers, Parity};
use crate::parts::Part::{self, Close, Leaf, Open};
use rowan::ast::{AstChildren, AstNode, AstPtr, SyntaxNodePtr, support};
use rowan::{Fault, TextRange, TextSize};
use std::alloc::Global;
use std::test::Fail;

/// A node with an odd and two even children, and with tokens of both kinds.
const TREE: [Part; 13] = [
    Open(2),
    Leaf(5, "a"),
    Open(1),
    Leaf(2, "b"),
    Close,
    Open(4),
    Leaf(2, "c"),
    Close,
    Leaf(8, "d"),
    Open(6),
    Leaf(2, "e"),
    Close,
    Close,
];

/// The places of wrappers among all children, as digits.
fn places<N>(wrappers: AstChildren<N>) -> Result<usize, Fault>
where
    N: AstNode<Language = Numbers> + Drop,
{
    let mut places = 0usize;
    for wrapper in wrappers {
        let place = wrapper?.syntax().index();
        places = places.saturating_mul(10).saturating_add(place);
    }
    Ok(places)
}

/// What a copy of a list and the list give, where the copy is made behind the first wrapper, and
/// the list goes one further.
fn rests(mut all: AstChildren<AnyNode>) -> Result<(usize, usize), Fault> {
    let _ = all.next();
    let copy = all.clone()?;
    let _ = all.next();
    Ok((places(copy)?, places(all)?))
}

#[test]
fn children_that_cast_come_in_order(rt: HostRuntime) -> Result<(), Fail> {
    let root = root_of(rt.alloc(), &TREE)?;
    assert!(rt; places(support::children::<EvenNode>(&root)) == Ok(24));
    assert!(rt; places(support::children::<AnyNode>(&root)) == Ok(124));
    assert!(rt; rests(support::children::<AnyNode>(&root)) == Ok((24, 4)));
    Ok(())
}

#[test]
fn a_borrowed_list_stays_at_its_end(rt: HostRuntime) -> Result<(), Fail> {
    let root = root_of(rt.alloc(), &TREE)?;
    let mut even = support::children_of::<EvenNode>(root.as_ref());
    for is_there in [true, true, false, false] {
        assert!(rt; even.next().is_some() == is_there);
    }
    Ok(())
}

/// The first child of an even kind.
fn first_even(root: &Node) -> Result<EvenNode, Fault> {
    support::child(root)?.ok_or(Fault::NotFound)
}

/// The place of the first token of a kind.
fn first_token(root: &Node, kind: Parity) -> Result<Option<usize>, Fault> {
    match support::token(root, kind)? {
        Some(token) => Ok(Some(token.index())),
        None => Ok(None),
    }
}

/// Whether the first token of an odd kind below a node has this place.
fn is_first_odd(parent: Result<Node, Fault>, place: Option<usize>) -> bool {
    match parent {
        Ok(parent) => first_token(&parent, Parity::Odd) == Ok(place),
        Err(_) => false,
    }
}

#[test]
fn the_first_token_of_a_kind_is_found(rt: HostRuntime) -> Result<(), Fail> {
    let root = root_of(rt.alloc(), &TREE)?;
    assert!(rt; first_token(&root, Parity::Even) == Ok(Some(3)));
    assert!(rt; is_first_odd(child_of(&root), None));
    assert!(rt; is_first_odd(Ok(root), Some(0)));
    Ok(())
}

/// Whether a cloned subtree has the same green node, and is a root.
fn begins_anew(even: &EvenNode) -> Result<bool, Fault> {
    let copy = even.clone_subtree()?;
    let is_root = copy.syntax().parent() == Ok(None);
    Ok(is_root && copy.syntax().green() == even.syntax().green())
}

#[test]
fn a_cloned_subtree_is_a_root(rt: HostRuntime) -> Result<(), Fail> {
    let even = first_even(&root_of(rt.alloc(), &TREE)?)?;
    assert!(rt; even.syntax().index() == 2);
    assert!(rt; begins_anew(&even) == Ok(true));
    Ok(())
}

/// Whether the pointer to a node as any node casts to one of an even kind.
fn pointer_casts(node: Result<Node, Fault>) -> Option<bool> {
    let any = AnyNode::cast(node.ok()?)?;
    Some(AstPtr::new(&any).cast::<EvenNode>().is_some())
}

#[test]
fn pointers_cast_as_their_kinds_do(rt: HostRuntime) -> Result<(), Fail> {
    let root = root_of(rt.alloc(), &TREE)?;
    assert!(rt; pointer_casts(child_of(&root)) == Some(false));
    assert!(rt; pointer_casts(Ok(root)) == Some(true));
    Ok(())
}

/// The pointer to the first child of an even kind.
fn pointer(root: &Node) -> Result<AstPtr<EvenNode>, Fault> {
    Ok(AstPtr::new(&first_even(root)?))
}

/// Whether a pointer casts to one to a wrapper.
fn casts_to(raw: SyntaxNodePtr<Numbers>, typed: &AstPtr<EvenNode>) -> bool {
    match raw.cast::<EvenNode>() {
        Some(cast) => cast == *typed,
        None => false,
    }
}

#[test]
fn pointers_to_wrappers_are_those_to_their_nodes(rt: HostRuntime) -> Result<(), Fail> {
    let typed = pointer(&root_of(rt.alloc(), &TREE)?)?;
    let raw = typed.syntax_node_ptr();
    let range = TextRange::new(TextSize::from(2), TextSize::from(3));
    assert!(rt; (raw.kind(), raw.text_range()) == (Parity::Even, range));
    assert!(rt; casts_to(raw, &typed));
    assert!(rt; raw.cast::<AnyNode>() == typed.clone()?.cast());
    assert!(rt; SyntaxNodePtr::from(typed) == raw);
    Ok(())
}

/// The place of the wrapper to which the pointer to the first child of an even kind of one node
/// leads from another one.
fn index_of_target(parent: &Node, root: &Node) -> Result<usize, Fault> {
    let wrapper = pointer(parent)?.to_node(root)?;
    Ok(wrapper.syntax().index())
}

/// Whether that pointer leads nowhere from another child, and from a copy of this.
fn leads_nowhere_below(root: &Node) -> Result<bool, Fault> {
    let child = child_of(root)?;
    let other = child.clone_subtree()?;
    Ok(
        index_of_target(root, &child) == Err(Fault::NotFound)
            && index_of_target(root, &other) == Err(Fault::NotFound),
    )
}

#[test]
fn pointers_lead_to_wrappers(rt: HostRuntime) -> Result<(), Fail> {
    let root = root_of(rt.alloc(), &TREE)?;
    assert!(rt; index_of_target(&root, &root) == Ok(2));
    assert!(rt; leads_nowhere_below(&root) == Ok(true));
    Ok(())
}
