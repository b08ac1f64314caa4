//! The nodes of a table.
ghost use Rattle.std.specs.Prelude.{◌≡◌, ◌<◌, ◌++◌, ◌∷◌, [], length, slice_get, Some, IfOk, OnOk};
ghost use Rattle.std.specs.Prelude.{OnErr};
ghost use Rattle.std.specs.Vec.{vec_len, vec_capacity};
ghost use Rattle.rowan_table.specs.Nodes.{Inner, inner};

use rowan_green::green::GreenNode;
use std::alloc::{AllocError, Global};
use std::marker::Model;

/// The nodes of a tree, each with the number of its first child. These stand in two lists, and so
/// take 12 bytes for each node, where one list of both would take 16.
#[derive(Drop)]
pub struct Nodes {
    greens: Vec<GreenNode>,
    first_children: Vec<u32>,
}

impl Model for Nodes {
    ghost use Rattle.std.specs.Prelude.{◌≡◌, List, length};
    ghost use Rattle.std.specs.Coded.{coded_list};
    ghost use Rattle.rowan_table.specs.Nodes.{Inner, inners, coded_inner};

    ghost Value = { List Inner };

    ghost coded = { coded_list coded_inner };

    ghost view = { λ n. inners n.greens.items n.first_children.items };

    ghost invariant = { λ n. length n.first_children.items ≡ length n.greens.items };
}

impl Nodes {
    /// None, with room for so many.
    pub(super) fn with_capacity(alloc: Global, capacity: usize) -> Result<Nodes, AllocError>
        ensures { IfOk result (λ nodes. nodes ≡ []) }
    {
        Ok(Nodes {
            greens: Vec::with_capacity(alloc, capacity)?,
            first_children: Vec::with_capacity(alloc, capacity)?,
        })
    }

    /// How many there are.
    pub(super) fn len(&self) -> usize
        ensures { result ≡ length self.now }
    {
        self.greens.len()
    }

    /// A node, by its number among them.
    pub(super) fn green(&self, node: usize) -> &GreenNode
        requires { node < length self.now }
        ensures { (found : Inner) → slice_get self.now node ≡ Some found
            → result.now ≡ found.green }
    {
        &self.greens[node]
    }

    /// The number of its first child.
    pub(super) fn first_child(&self, node: usize) -> usize
        requires { node < length self.now }
        ensures { (found : Inner) → slice_get self.now node ≡ Some found
            → result ≡ found.first_child }
    {
        self.first_children[node] as usize
    }

    /// Makes room for so many more.
    pub(super) fn reserve(&mut self, additional: usize) -> Result<(), AllocError>
        ensures { self.new ≡ self.old }
    {
        self.greens.reserve(additional)?;
        self.first_children.reserve(additional)
    }

    /// Adds a node. A refused call leaves them as they were.
    pub(super) fn push(&mut self, green: GreenNode, first_child: u32) -> Result<(), AllocError>
        ensures ok { OnOk result (self.new ≡ self.old ++ inner green first_child ∷ []) }
        ensures unchanged { OnErr result (self.new ≡ self.old) }
    {
        reserve_one(&mut self.greens)?;
        reserve_one(&mut self.first_children)?;
        self.greens.push_reserved(green);
        self.first_children.push_reserved(first_child);
        Ok(())
    }

    /// Gives back what is left over.
    pub(super) fn give_back(&mut self)
        ensures { self.new ≡ self.old }
    {
        give_back(&mut self.greens);
        give_back(&mut self.first_children);
    }
}

/// Makes room for one item more. Where there is room, this calls nothing.
pub(super) fn reserve_one<T>(list: &mut Vec<T>) -> Result<(), AllocError>
    ensures items { list.new.items ≡ list.old.items }
    ensures room { OnOk result (vec_len list.new < vec_capacity list.new) }
{
    if list.len() == list.capacity() {
        list.reserve(1)?;
    }
    Ok(())
}

/// Gives back what a list has left over, where it fills less than half of its room. Else the room
/// stays: a block that got smaller would make the allocator take the one of the next table from the
/// system again, page by page.
pub(super) fn give_back<T>(list: &mut Vec<T>)
    ensures { list.new.items ≡ list.old.items }
{
    if list.len() < list.capacity() / 2 {
        list.shrink_to_fit();
    }
}
