//! Filling a table: node by node, from the root on, in one pass.
ghost use Rattle.std.specs.Prelude.{◌≡◌, ◌≤◌, IfOk, length};
ghost use Rattle.rowan_green.specs.Term.{node_children};

use super::Table;
use super::count::is_past_numbers;
use super::entry::Entry;
use super::nodes::{Nodes, give_back, reserve_one};
use rowan_green::green::{GreenElement, GreenNode};
use rowan_green::link::Link;
use rowan_green::text::TextSize;
use rowan_green::utility_types::NodeOrToken;
use std::alloc::{AllocError, Global};
use std::iter;
use std::mem::size_of;

// For how many bytes of text a table asks for room at first, at least.
const MIN_FIRST_BYTES: usize = 16;

// And at most: for 25 MB of memory.
const MAX_FIRST_BYTES: usize = 1 << 21;

// How many entries a table has at most: so many numbers of 32 bits stand for one.
pub(super) const MAX_ENTRIES: usize = u32::MAX as usize;

// From how many entries on the tree is counted before there is room for more of them.
const COUNTED_FROM: usize = 1 << 16;

// For how many nodes that wait a table has room at first, while it is filled.
const FIRST_WAITING: usize = 64;

/// A node that has an entry, but no place among the nodes yet, and whose children have no entries.
#[derive(Clone, Copy)]
pub(super) struct Waiting<'a> {
    node: &'a GreenNode,
    // Where its text starts, and the number of its entry.
    start: TextSize,
    number: u32,
}

// Beside a table its nodes wait while it is filled, so they have to be small.
const _: () = prove!(size_of::<Waiting<'_>>() == 16);

/// A table that is still to be filled. The nodes that have entries and no places stand in a list
/// and wait, and the last of them is the next. A node's block is read once, when its turn comes:
/// then it gets its place in the table's list of nodes, which its entry names, and its children
/// get entries, behind all others. Those of them that are nodes wait with the first one last, so
/// each subtree is gone through as a whole before what stands behind it: nodes get their places,
/// and their children entries, in the order of the text, in which a walk reads them. Those that
/// wait are siblings of the nodes on one path.
#[derive(Drop)]
pub(super) struct Draft<'a> {
    entries: Vec<Entry>,
    nodes: Nodes,
    waiting: Vec<Waiting<'a>>,
    root: &'a GreenNode,
    alloc: Global,
}

impl<'a> Draft<'a> {
    ghost use Rattle.std.specs.Prelude.{◌≡◌, ◌+◌, ◌<◌, ◌≤◌, IfOk, OnOk, IfSome, IsNone, length};
    ghost use Rattle.std.specs.List.Sorted.{IsPermutation};
    ghost use Rattle.rowan_green.specs.Term.{node_children};
    ghost use Rattle.rowan_table.specs.DraftView.{IsFilled, IsFilledWith, HasTheirs, IsTaken};
    ghost use Rattle.rowan_table.specs.DraftView.{IsDone, IsNextIndex, AddsChild, HasRoom, IsKept};
    ghost use Rattle.rowan_table.specs.DraftView.{TakesPlace, draft_root, draft_root_with};
    ghost use Rattle.rowan_table.specs.DraftView.{size_left, size_left_with};
    ghost use Rattle.rowan_table.specs.TableView.{root_of, entry_limit};
    ghost use Rattle.std.specs.Vec.{vec_len, vec_capacity};

    /// The entry of the root alone.
    pub(super) fn new(alloc: Global, root: &'a GreenNode) -> Result<Draft<'a>, AllocError>
        ensures draft { IfOk result IsFilled }
        ensures children { IfOk result HasTheirs }
        ensures root { IfOk result (λ draft. draft_root draft ≡ root.now) }
    {
        let bytes = first_bytes(root.text_len());
        let mut draft = Draft {
            // Three nodes and tokens in four bytes, and one of them a node, are more than most
            // trees have.
            entries: Vec::with_capacity(alloc, bytes - bytes / 4)?,
            nodes: Nodes::with_capacity(alloc, bytes / 4)?,
            waiting: Vec::with_capacity(alloc, FIRST_WAITING)?,
            root,
            alloc,
        };
        let start = TextSize::from(0);
        draft.waiting.push_reserved(Waiting {
            node: root,
            start,
            number: 0,
        });
        draft.entries.push_reserved(Entry {
            start,
            parent: 0,
            node: Link::none(),
        });
        Ok(draft)
    }

    /// Takes out the next node that waits.
    pub(super) fn next(&mut self) -> Option<Waiting<'a>>
        ensures some { IfSome result (IsTaken self.old self.new) }
        ensures none { IsNone result → IsDone self.old self.new }
    {
        self.waiting.pop()
    }

    // Makes room for the children of a node: for their entries, and for those that are nodes to
    // wait. Where there is enough room, this calls nothing.
    fn reserve(&mut self, node: &GreenNode) -> Result<(), AllocError>
        ensures kept { IsKept self.old self.new }
        ensures room { OnOk result (HasRoom self.new (length (node_children node.now))) }
    {
        let count = node.children().len();
        if self.entries.capacity() - self.entries.len() < count {
            self.grow(count)?;
        }
        if self.waiting.capacity() - self.waiting.len() < count {
            self.reserve_waiting(node)?;
        }
        Ok(())
    }

    // Makes room for those children of a node to wait that are nodes, and for it and all that wait
    // then among the nodes.
    #[inline(never)]
    fn reserve_waiting(&mut self, node: &GreenNode) -> Result<(), AllocError>
        ensures kept { IsKept self.old self.new }
        ensures entries { self.new.entries ≡ self.old.entries }
    {
        let places = count_nodes(node).saturating_add(1);
        self.waiting.reserve(places)?;
        self.nodes.reserve(self.waiting.len() + places)
    }

    // Makes room for so many entries more. A tree that has more nodes and tokens than there are
    // numbers is refused here as soon as a count level by level finds that out, long before it has
    // so many entries: a few nodes that are shared can be a tree of any size. The count goes on for
    // a part of the steps that the entries took so far, and where there are more of them than bytes
    // of text for as many steps again, so that it never takes longer than they did.
    #[cold]
    #[inline(never)]
    fn grow(&mut self, additional: usize) -> Result<(), AllocError>
        ensures kept { IsKept self.old self.new }
        ensures room { OnOk result
            (vec_len self.new.entries + additional ≤ vec_capacity self.new.entries) }
    {
        let made = self.entries.len();
        if made >= COUNTED_FROM {
            let text_len = u32::from(self.root.text_len()) as usize;
            let steps = made / 16 + made.saturating_sub(text_len);
            if let Ok(true) = is_past_numbers(self.alloc, self.root, steps) {
                return Err(AllocError);
            }
        }
        self.entries.reserve(additional)
    }

    /// Gives the node that was the next its place, and its children their entries. Refused, too,
    /// where there are no more numbers.
    pub(super) fn push_children(&mut self, parent: &Waiting<'a>) -> Result<(), AllocError>
        requires draft { IsFilledWith self.old parent.now }
        requires children { HasTheirs self.old }
        ensures draft { OnOk result (IsFilled self.new) }
        ensures children { OnOk result (HasTheirs self.new) }
        ensures root { OnOk result (draft_root self.new ≡ draft_root_with self.old parent.now) }
        ensures less { OnOk result (size_left self.new < size_left_with self.old parent.now) }
    {
        let first_child = self.entries.len();
        let count = parent.node.children().len();
        let Some(end) = first_child.checked_add(count) else {
            return Err(AllocError);
        };
        if end > MAX_ENTRIES {
            return Err(AllocError);
        }
        self.reserve(parent.node)?;
        let green = owner_of(parent.node)?;
        self.entries[parent.number as usize].node = Link::to(self.nodes.len() as u32);
        self.nodes.push(green, first_child as u32)?;
        let waited = self.waiting.len();
        for index in 0..count {
            self.push_child(parent, index)?;
        }
        self.turn_round(waited);
        Ok(())
    }

    // Turns those round that wait from a place in their list on, so that the first of them is the
    // next.
    fn turn_round(&mut self, place: usize)
        requires { place ≤ length self.old.waiting.items }
        ensures waiting { IsPermutation self.old.waiting.items self.new.waiting.items }
        ensures entries { self.new.entries.items ≡ self.old.entries.items }
        ensures nodes { self.new.nodes ≡ self.old.nodes }
    {
        self.waiting[place..].reverse();
    }

    // Adds the entry of the child at an index of a node, for which there is room. The child's
    // number is the next. Mostly there is room to wait, too, so this calls nothing.
    #[inline(always)]
    fn push_child(&mut self, parent: &Waiting<'a>, index: usize) -> Result<(), AllocError>
        requires draft { IsFilled self.old }
        requires place { IsNextIndex self.old parent.now index }
        requires index { index < length (node_children parent.now.node.now) }
        requires number { length self.old.entries.items < entry_limit }
        requires room { HasRoom self.old 1 }
        ensures added { OnOk result (AddsChild self.old self.new parent.now.node.now index) }
        ensures room { OnOk result (TakesPlace self.old self.new) }
    {
        let Some(found) = parent.node.child_ref(index) else {
            unreachable!();
        };
        let start = TextSize::from(u32::from(parent.start) + u32::from(found.0));
        match found.1 {
            NodeOrToken::Node(node) => {
                let number = self.entries.len() as u32;
                reserve_one(&mut self.waiting)?;
                self.waiting.push_reserved(Waiting {
                    node,
                    start,
                    number,
                });
                self.entries.push_reserved(Entry {
                    start,
                    parent: parent.number,
                    node: Link::none(),
                });
            }
            NodeOrToken::Token(_) => self.entries.push_reserved(Entry {
                start,
                parent: parent.number,
                node: Link::none(),
            }),
        }
        Ok(())
    }

    /// The nodes that have their places, where the filling was refused.
    pub(super) fn into_nodes(self) -> Nodes {
        let Draft { nodes, .. } = self;
        nodes
    }

    /// The table, where no node waits.
    pub(super) fn finish(self) -> Table
        requires draft { IsFilled self }
        requires children { HasTheirs self }
        requires done { length self.waiting.items ≡ 0 }
        ensures { root_of result ≡ draft_root self.entry }
    {
        let Draft {
            mut entries,
            mut nodes,
            ..
        } = self;
        give_back(&mut entries);
        nodes.give_back();
        Table { entries, nodes }
    }
}

// How many children of a node are nodes.
fn count_nodes(node: &GreenNode) -> usize
    ensures { result ≤ length (node_children node.now) }
{
    let mut nodes = 0;
    for index in 0..node.children().len() {
        if let Some((_, NodeOrToken::Node(_))) = node.child_ref(index) {
            nodes += 1;
        }
    }
    nodes
}

// One more owner of a node, or, where the count of its owners is full, one of a node with the same
// children, which has a count of its own.
#[inline(always)]
fn owner_of(node: &GreenNode) -> Result<GreenNode, AllocError>
    ensures { IfOk result (λ owner. owner ≡ node.now) }
{
    match node.clone() {
        Ok(owner) => Ok(owner),
        Err(_) => twin_of(node),
    }
}

#[inline(never)]
fn twin_of(node: &GreenNode) -> Result<GreenNode, AllocError>
    ensures { IfOk result (λ twin. twin ≡ node.now) }
{
    match node.splice_children(0..0, iter::empty::<GreenElement>()) {
        Ok(twin) => Ok(twin),
        Err(_) => Err(AllocError),
    }
}

// For how many bytes of text a table asks for room at first: for all of a text, so that its lists
// need not grow. They do where the text has more nodes and tokens than there is room for, or more
// bytes.
fn first_bytes(text_len: TextSize) -> usize
    ensures { 16 ≤ result }
{
    (u32::from(text_len) as usize).clamp(MIN_FIRST_BYTES, MAX_FIRST_BYTES)
}
