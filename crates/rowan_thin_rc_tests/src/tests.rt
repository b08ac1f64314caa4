use super::*;
use rowan_thin_rc::Open;

fn leaf_sum(node: &Node) -> u64 {
    let mut sum = 0u64;
    for child in node.children() {
        if let Child::Leaf(k) = child {
            sum = sum.wrapping_add(*k as u64);
        }
    }
    sum
}

#[test]
fn leaves_come_back(rt: HostRuntime) -> Result<(), AllocError> {
    let alloc = rt.alloc();
    let mut list = Loose::with_capacity(alloc, 10)?;
    for k in 0..10u32 {
        list.push(Child::Leaf(k))?;
    }
    let head = Head {
        kind: 7,
        text_len: 9,
    };
    let first = list.len().min(3);
    let node = Node::from_last(alloc, head, &mut list, first)?;
    assert!(rt; list.len() == 3);
    assert!(rt; node.children().len() == 7);
    assert!(rt; leaf_sum(&node) == 42);
    assert!(rt; node.head().kind == 7);
    assert!(rt; node.head().text_len == 9);
    let copy = node.clone()?;
    drop(node);
    assert!(rt; leaf_sum(&copy) == 42);
    Ok(())
}

#[test]
fn empty_nodes_are_nodes(rt: HostRuntime) -> Result<(), AllocError> {
    let alloc = rt.alloc();
    let mut list = Loose::with_capacity(alloc, 2)?;
    let head = Head {
        kind: 1,
        text_len: 0,
    };
    let node = Node::from_last(alloc, head, &mut list, 0)?;
    assert!(rt; node.children().len() == 0);
    drop(node);
    Ok(())
}

#[test]
fn deep_trees_are_dropped(rt: HostRuntime) -> Result<(), AllocError> {
    let alloc = rt.alloc();
    let mut list = Loose::with_capacity(alloc, 2)?;
    let head = Head {
        kind: 1,
        text_len: 0,
    };
    for k in 0..300_000u32 {
        list.push(Child::Leaf(k))?;
        let node = Node::from_last(alloc, head, &mut list, 0)?;
        list.push(Child::Node(node))?;
    }
    assert!(rt; list.len() == 1);
    Ok(())
}

#[test]
fn a_block_grows_and_is_closed(rt: HostRuntime) -> Result<(), AllocError> {
    let head = Head {
        kind: 3,
        text_len: 18,
    };
    let Some(block) = Open::with_capacity(rt.alloc(), 2, 2, 2) else {
        return Err(AllocError);
    };
    let mut block = block;
    block.list.push_reserved(Child::Leaf(5));
    block.list.push_reserved(Child::Leaf(6));
    if block.resize(3, 2, 2).is_err() {
        let data = block.close(head, 2, 2);
        drop(Node { data });
        return Err(AllocError);
    }
    block.list.push_reserved(Child::Leaf(7));
    let data = block.close(head, 2, 2);
    let node = Node { data };
    assert!(rt; node.children().len() == 3);
    assert!(rt; leaf_sum(&node) == 18);
    assert!(rt; node.head().kind == 3);
    drop(node);
    Ok(())
}

#[test]
fn no_block_is_too_large(rt: HostRuntime) -> Result<(), AllocError> {
    match Open::<Head, Child, Global>::with_capacity(rt.alloc(), 0x1_0000_0000, 2, 2) {
        None => Ok(()),
        Some(block) => {
            block.free(2, 2);
            Err(AllocError)
        }
    }
}

/// A node over the leaves 0, 1 and so on.
fn over_leaves(alloc: Global, count: u32) -> Result<Node, AllocError> {
    let mut list = Loose::with_capacity(alloc, 4)?;
    for k in 0..count {
        list.push(Child::Leaf(k))?;
    }
    let head = Head {
        kind: 1,
        text_len: 0,
    };
    Node::from_last(alloc, head, &mut list, 0)
}

#[test]
fn a_block_is_the_same_as_that_of_its_clones_alone(rt: HostRuntime) -> Result<(), AllocError> {
    let node = over_leaves(rt.alloc(), 3)?;
    let copy = node.clone()?;
    let equal = over_leaves(rt.alloc(), 3)?;
    assert!(rt; node.data.same_block(&node.data));
    assert!(rt; node.data.same_block(&copy.data));
    assert!(rt; copy.data.same_block(&node.data));
    assert!(rt; !node.data.same_block(&equal.data));
    assert!(rt; !equal.data.same_block(&copy.data));
    Ok(())
}

#[test]
fn a_block_that_was_asked_about_keeps_its_owners(rt: HostRuntime) -> Result<(), AllocError> {
    let node = over_leaves(rt.alloc(), 3)?;
    let copy = node.clone()?;
    assert!(rt; node.data.same_block(&copy.data));
    drop(copy);
    assert!(rt; leaf_sum(&node) == 3);
    let again = node.clone()?;
    drop(node);
    assert!(rt; again.data.same_block(&again.data));
    assert!(rt; leaf_sum(&again) == 3);
    Ok(())
}
