//! A number that depends on all that was added to it, in order.
use rowan::{GreenNode, GreenToken, NodeOrToken, SyntaxKind, TextRange, TextSize};
use std::alloc::{AllocError, Global};

/// A digest of 64 bits. It shows that two versions answer alike, and keeps no secret.
#[derive(Drop)]
pub struct Digest {
    state: u64,
}

impl Digest {
    pub fn new() -> Digest {
        Digest {
            state: 0xcbf2_9ce4_8422_2325,
        }
    }

    pub fn value(&self) -> u64 {
        self.state
    }

    pub fn add(&mut self, number: u64) {
        let mixed = (self.state ^ number).wrapping_mul(0x9fb2_1c65_1e98_df25);
        self.state = mixed ^ (mixed >> 32);
    }

    pub fn add_range(&mut self, range: TextRange) {
        self.add(u64::from(u32::from(range.start())));
        self.add_size(range.len());
    }

    pub fn add_size(&mut self, size: TextSize) {
        self.add(u64::from(u32::from(size)));
    }

    /// Adds what a place in a tree is: its kind and its range.
    pub fn add_place(&mut self, kind: SyntaxKind, range: TextRange) {
        self.add_element(kind, u32::from(range.start()), range.len());
    }

    /// Adds a kind, a start and a length.
    pub fn add_element(&mut self, kind: SyntaxKind, start: u32, len: TextSize) {
        self.add((u64::from(kind.0) << 32) | u64::from(u32::from(len)));
        self.add(u64::from(start));
    }

    /// Adds all bytes of a text, eight at a time.
    pub fn add_text(&mut self, text: &[u8]) {
        self.add(text.len() as u64);
        let (eights, rest) = text.as_chunks::<8>();
        for eight in eights {
            self.add(u64::from_le_bytes(*eight));
        }
        let mut last: u64 = 0;
        for byte in rest {
            last = (last << 8) | u64::from(*byte);
        }
        self.add(last);
    }

    fn add_token(&mut self, token: &GreenToken, start: u32) {
        self.add_element(token.kind(), start, token.text_len());
        self.add_text(token.text().as_bytes());
    }

    fn add_node(&mut self, node: &GreenNode, start: u32) {
        self.add_element(node.kind(), start, node.text_len());
        self.add(node.children().len() as u64);
    }

    /// Adds all of a tree in the order of its text: the kind, the range and the number of children
    /// of each node, and the kind, the range and the text of each token.
    pub fn add_tree(&mut self, alloc: Global, tree: &GreenNode) -> Result<(), AllocError> {
        let mut unfinished = Vec::new(alloc);
        self.add_node(tree, 0);
        unfinished.push(Unfinished {
            node: tree,
            start: 0,
            next: 0,
        })?;
        for _ in 0..u64::MAX {
            let Some(parent) = unfinished.pop() else {
                break;
            };
            let Unfinished { node, start, next } = parent;
            let found = self.add_as_far_as_a_node(node, start, next);
            if let Some((index, inner, inner_start)) = found {
                unfinished.push(Unfinished {
                    node,
                    start,
                    next: index.saturating_add(1),
                })?;
                unfinished.push(Unfinished {
                    node: inner,
                    start: inner_start,
                    next: 0,
                })?;
            }
        }
        Ok(())
    }

    /// Adds the children of a node from an index on, as far as the first that is a node. Answers
    /// its index, itself, and where it starts; or nothing, where only tokens were left.
    fn add_as_far_as_a_node<'tree>(
        &mut self,
        parent: &'tree GreenNode,
        parent_start: u32,
        first: usize,
    ) -> Option<(usize, &'tree GreenNode, u32)> {
        for index in first..usize::MAX {
            let Some((offset, child)) = parent.child_ref(index) else {
                break;
            };
            let start = parent_start.wrapping_add(u32::from(offset));
            match child {
                NodeOrToken::Node(node) => {
                    self.add_node(node, start);
                    return Some((index, node, start));
                }
                NodeOrToken::Token(token) => self.add_token(token, start),
            }
        }
        None
    }

    /// Adds the nodes on the way to an offset, with all children of each: what an edit there made.
    pub fn add_way_to(&mut self, tree: &GreenNode, offset: TextSize) {
        let mut node = tree;
        let mut start: u32 = 0;
        for _ in 0..u64::MAX {
            let Some((inner, inner_start)) = self.add_children(node, start, u32::from(offset))
            else {
                break;
            };
            node = inner;
            start = inner_start;
        }
    }

    /// Adds a node and all its children. Answers the node among them that has an offset, and where
    /// it starts.
    fn add_children<'tree>(
        &mut self,
        parent: &'tree GreenNode,
        parent_start: u32,
        offset: u32,
    ) -> Option<(&'tree GreenNode, u32)> {
        self.add_node(parent, parent_start);
        let mut on_the_way = None;
        for index in 0..usize::MAX {
            let Some((rel_offset, child)) = parent.child_ref(index) else {
                break;
            };
            let start = parent_start.wrapping_add(u32::from(rel_offset));
            match child {
                NodeOrToken::Node(node) => {
                    self.add_node(node, start);
                    if start <= offset && offset - start < u32::from(node.text_len()) {
                        on_the_way = Some((node, start));
                    }
                }
                NodeOrToken::Token(token) => self.add_token(token, start),
            }
        }
        on_the_way
    }

    /// Adds a node, and its children about an index.
    pub fn add_children_about(&mut self, node: &GreenNode, index: usize) {
        self.add_node(node, 0);
        for index in index.saturating_sub(2)..index.saturating_add(3) {
            if let Some((offset, child)) = node.child_ref(index) {
                match child {
                    NodeOrToken::Node(node) => self.add_node(node, u32::from(offset)),
                    NodeOrToken::Token(token) => self.add_token(token, u32::from(offset)),
                }
            }
        }
    }
}

/// A node some of whose children were added.
#[derive(Drop)]
struct Unfinished<'tree> {
    node: &'tree GreenNode,
    /// Where the text of the node starts.
    start: u32,
    /// The index of the first child that was not added.
    next: usize,
}
