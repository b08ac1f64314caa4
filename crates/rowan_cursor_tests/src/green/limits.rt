//! The greatest length of a tree's text.
use crate::green::fixture::{leaf, levels_of_copies, node, word};
use crate::limits::length;
use rowan_green::{Fault, GreenElement, GreenNode};
use std::alloc::Global;
use std::test::Fail;

/// A node whose text has 2 to this power bytes, over nodes that each hold the one below twice.
fn power(alloc: Global, exponent: u32) -> Result<GreenElement, Fault> {
    let byte = GreenElement::from(word(alloc, 9, "a")?);
    levels_of_copies(alloc, exponent, 2, byte)
}

/// A node of this kind whose text is as long as a text may be, 4,294,967,295 bytes. Its children
/// have 1, 2, 4 bytes and so on up to 2^31.
pub fn longest(alloc: Global, kind: u16) -> Result<GreenNode, Fault> {
    let mut nodes = Vec::new(alloc);
    for exponent in 0..32 {
        nodes.push(power(alloc, exponent)?)?;
    }
    node(alloc, kind, nodes)
}

/// The length of the text of a power.
fn length_of_power(alloc: Global, exponent: u32) -> Result<u32, Fault> {
    Ok(u32::from(power(alloc, exponent)?.text_len()))
}

#[test]
fn length_limits(rt: HostRuntime) {
    assert!(rt; length(longest(rt.alloc(), 9)) == Ok(4_294_967_295));
    assert!(rt; length_of_power(rt.alloc(), 31) == Ok(2_147_483_648));
    assert!(rt; length_of_power(rt.alloc(), 32) == Err(Fault::TextTooLong));
}

/// The length with this text in place of the first child.
fn replaced(alloc: Global, node: &GreenNode, text: &str) -> Result<u32, Fault> {
    length(node.replace_child(0, leaf(alloc, 1, text)?))
}

#[test]
fn replacements_keep_to_the_limit(rt: HostRuntime) -> Result<(), Fail> {
    let longest = longest(rt.alloc(), 9)?;
    for (text, len) in [
        ("", Ok(4_294_967_294)),
        ("b", Ok(4_294_967_295)),
        ("bc", Err(Fault::TextTooLong)),
    ] {
        assert!(rt; replaced(rt.alloc(), &longest, text) == len);
    }
    assert!(rt; 0 < longest.children().len());
    assert!(rt; length(longest.remove_child(0)) == Ok(4_294_967_294));
    Ok(())
}

/// The length with this text as one more child, by a call for one child.
fn inserted(alloc: Global, node: &GreenNode, index: usize, text: &str) -> Result<u32, Fault> {
    if node.children().len() < index {
        return Err(Fault::NotFound);
    }
    length(node.insert_child(index, leaf(alloc, 1, text)?))
}

/// The same by a call for several children.
fn spliced(alloc: Global, node: &GreenNode, index: usize, text: &str) -> Result<u32, Fault> {
    if node.children().len() < index {
        return Err(Fault::NotFound);
    }
    length(node.splice_children(index..index, [leaf(alloc, 1, text)?]))
}

/// Where a text is inserted, the text, and the length with it.
const INSERTED: [(usize, &str, Result<u32, Fault>); 4] = [
    (0, "", Ok(4_294_967_295)),
    (0, "a", Err(Fault::TextTooLong)),
    (32, "", Ok(4_294_967_295)),
    (32, "a", Err(Fault::TextTooLong)),
];

#[test]
fn nothing_is_inserted_past_the_limit(rt: HostRuntime) -> Result<(), Fail> {
    let longest = longest(rt.alloc(), 9)?;
    for (index, text, len) in INSERTED {
        assert!(rt; inserted(rt.alloc(), &longest, index, text) == len);
        assert!(rt; spliced(rt.alloc(), &longest, index, text) == len);
    }
    Ok(())
}
