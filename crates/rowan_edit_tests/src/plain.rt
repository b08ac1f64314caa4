//! A plain model of an edited tree: its elements in the order of the tree, each with its depth.
use crate::drawn::{Instead, Step};
use crate::fixture::{LIST, ROOT, WORD};
use rowan::{Fault, GreenNode, NodeOrToken, SyntaxKind};
use rowan_edit::{Edited, Placed, TreeCursor};
use std::alloc::Global;
use std::mem;

/// Where an element comes from: which element of the old tree it is, or which edit put it in, or
/// that it was put into another order or is in something that was.
#[derive(Clone, Copy, PartialEq)]
enum Origin {
    Old(usize),
    New(usize),
    Moved,
}

/// An element: how many nodes stand above it, its kind, and its text if it is a token.
#[derive(Clone, Copy)]
struct Item {
    depth: usize,
    kind: SyntaxKind,
    text: &'static str,
    origin: Origin,
}

/// The elements of the tree that is edited, `LIST[tree "fg" tree]`, with their paths.
const OLD: [(&[usize], SyntaxKind, &str); 18] = [
    (&[], LIST, ""),
    (&[0], ROOT, ""),
    (&[0, 0], WORD, "a"),
    (&[0, 1], LIST, ""),
    (&[0, 1, 0], WORD, "b"),
    (&[0, 1, 1], LIST, ""),
    (&[0, 1, 2], WORD, "cd"),
    (&[0, 2], WORD, ""),
    (&[0, 3], WORD, "e"),
    (&[1], WORD, "fg"),
    (&[2], ROOT, ""),
    (&[2, 0], WORD, "a"),
    (&[2, 1], LIST, ""),
    (&[2, 1, 0], WORD, "b"),
    (&[2, 1, 1], LIST, ""),
    (&[2, 1, 2], WORD, "cd"),
    (&[2, 2], WORD, ""),
    (&[2, 3], WORD, "e"),
];

/// The elements, and room for those that a step makes of them.
#[derive(Drop)]
pub struct Plain {
    items: Vec<Item>,
    next: Vec<Item>,
}

impl Plain {
    /// The tree with steps made, which stand in the order of their places.
    pub fn made(alloc: Global, steps: &[Step]) -> Result<Plain, Fault> {
        let mut plain = Plain {
            items: Vec::new(alloc),
            next: Vec::new(alloc),
        };
        plain.make_all(steps)?;
        Ok(plain)
    }

    /// Makes steps in the old tree, from the last place to the first.
    fn make_all(&mut self, steps: &[Step]) -> Result<(), Fault> {
        for (number, (path, kind, text)) in OLD.into_iter().enumerate() {
            self.items.push(Item {
                depth: path.len(),
                kind,
                text,
                origin: Origin::Old(number),
            })?;
        }
        for (number, step) in steps.iter().enumerate().rev() {
            self.make(*step, number)?;
        }
        Ok(())
    }

    fn make(&mut self, step: Step, number: usize) -> Result<(), Fault> {
        let node = self.find(step.path);
        let from = self.child(node, step.first);
        let to = self.child(node, step.last);
        self.next.clear();
        push_range(&mut self.next, &self.items, 0, from, false)?;
        let pushed = match step.instead {
            Instead::Words(words) => self.push_words(step.path.len(), words, number),
            Instead::Order(indexes) => self.push_order(node, indexes),
        };
        pushed?;
        push_range(&mut self.next, &self.items, to, self.items.len(), false)?;
        mem::swap(&mut self.items, &mut self.next);
        Ok(())
    }

    /// Puts the children of a node that stand at these indexes there, in this order.
    fn push_order(&mut self, node: usize, indexes: &[usize]) -> Result<(), Fault> {
        for index in indexes {
            let from = self.child(node, *index);
            let to = self.child(node, index.wrapping_add(1));
            push_range(&mut self.next, &self.items, from, to, true)?;
        }
        Ok(())
    }

    /// Puts the words of an edit there, below a node of this depth.
    fn push_words(
        &mut self,
        depth: usize,
        words: &[&'static str],
        number: usize,
    ) -> Result<(), Fault> {
        for word in words {
            self.next.push(Item {
                depth: depth.wrapping_add(1),
                kind: WORD,
                text: *word,
                origin: Origin::New(number),
            })?;
        }
        Ok(())
    }

    /// The index of the element at a path; if none is there, of one that stands less deep.
    fn find(&self, path: &[usize]) -> usize {
        let mut at = 0;
        for index in path {
            at = self.child(at, *index);
        }
        at
    }

    /// The index of a child of an element; or behind the element, if it has no more children.
    fn child(&self, node: usize, index: usize) -> usize {
        let Some(top) = self.items.get(node) else {
            return self.items.len();
        };
        let depth = top.depth.wrapping_add(1);
        let mut left = index;
        for (at, item) in self.items.iter().enumerate() {
            if at > node && item.depth < depth {
                return at;
            }
            if at > node && item.depth == depth {
                if left == 0 {
                    return at;
                }
                left = left.wrapping_sub(1);
            }
        }
        self.items.len()
    }

    /// Whether the element at a path comes from there.
    fn stands_at(&self, path: &[usize], origin: Origin) -> bool {
        match self.items.get(self.find(path)) {
            Some(item) => item.origin == origin && item.depth == path.len(),
            None => false,
        }
    }

    fn has(&self, origin: Origin) -> bool {
        for item in &self.items {
            if item.origin == origin {
                return true;
            }
        }
        false
    }

    /// Whether a tree has these elements.
    pub fn is_shape_of(&self, alloc: Global, green: &GreenNode) -> bool {
        let mut cursor = TreeCursor::new(alloc, green);
        let mut same = true;
        let mut moved = Ok(true);
        for item in &self.items {
            same = same && moved == Ok(true) && is_at(*item, &cursor);
            moved = advance(&mut cursor);
        }
        same && moved == Ok(false)
    }

    /// Whether each element of the old tree is where the model has it.
    pub fn has_moved(&self, alloc: Global, edited: &Edited) -> bool {
        for (number, (path, _, _)) in OLD.into_iter().enumerate() {
            let origin = Origin::Old(number);
            let Ok(moved) = edited.moved_path(alloc, path) else {
                return false;
            };
            let same = match moved {
                Some(moved) => self.stands_at(moved.as_slice(), origin),
                None => !self.has(origin),
            };
            if !same {
                return false;
            }
        }
        true
    }

    /// Whether the elements of each edit are where the model has them.
    pub fn has_placed(&self, edited: &Edited, count: usize) -> bool {
        for number in 0..count {
            let same = match edited.placed(number) {
                Some(placed) => self.has_new(number, &placed),
                None => false,
            };
            if !same {
                return false;
            }
        }
        edited.placed(count).is_none()
    }

    /// Whether the elements of an edit, and no others, stand in a place.
    fn has_new(&self, number: usize, placed: &Placed<'_>) -> bool {
        let parent = self.find(placed.parent);
        let depth = placed.parent.len().wrapping_add(1);
        let mut next = placed.children.start;
        for (at, item) in self.items.iter().enumerate() {
            if item.origin == Origin::New(number) {
                if item.depth != depth || self.child(parent, next) != at {
                    return false;
                }
                next = next.wrapping_add(1);
            }
        }
        next == placed.children.end
    }
}

/// Puts the elements from one index to another behind others. They may stand in another order there
/// than in the old tree.
fn push_range(
    next: &mut Vec<Item>,
    items: &[Item],
    from: usize,
    to: usize,
    moved: bool,
) -> Result<(), Fault> {
    for item in items.iter().take(to).skip(from) {
        let origin = if moved { Origin::Moved } else { item.origin };
        next.push(Item { origin, ..*item })?;
    }
    Ok(())
}

fn is_at(item: Item, cursor: &TreeCursor<'_>) -> bool {
    let text = match cursor.element() {
        NodeOrToken::Node(_) => "",
        NodeOrToken::Token(token) => token.text(),
    };
    cursor.depth() == item.depth && cursor.kind() == item.kind && text == item.text
}

/// Goes to the next element in the order of the tree, and from the last one to the root.
pub fn advance(cursor: &mut TreeCursor<'_>) -> Result<bool, Fault> {
    if cursor.goto_first_child()? {
        return Ok(true);
    }
    for _ in 0..cursor.depth() {
        if cursor.goto_next_sibling() {
            return Ok(true);
        }
        cursor.goto_parent();
    }
    Ok(false)
}
