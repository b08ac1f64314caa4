//! Another order of a node's children.
ghost use Rattle.std.specs.Prelude.{◌≡◌, ◌++◌, IfOk, IfErr, OnOk};
ghost use Rattle.std.specs.List.{list_all};
ghost use Rattle.rowan_green.specs.Term.{node_children};
ghost use Rattle.rowan_edit.specs.Pieces.{is_within, piece_in, named_in};

use rowan_green::fault::Fault;
use rowan_green::green::{GreenElement, GreenNode};
use std::alloc::Global;

/// A child of a node whose children are put into another order.
#[derive(Drop)]
pub enum Piece {
    /// A new element.
    New(GreenElement),
    /// The child that stands at an index now, among all children, with all edits inside of it.
    Old(usize),
}

impl Piece {
    /// Whether this is a new element or one of so many children.
    fn is_within(&self, count: usize) -> bool
        ensures { result ≡ is_within count self.now }
    {
        match self {
            Piece::New(_) => true,
            Piece::Old(index) => *index < count,
        }
    }
}

/// Whether all pieces are new elements or some of so many children.
pub(crate) fn are_within(pieces: &[Piece], count: usize) -> bool
    ensures { result ≡ list_all (is_within count) pieces.now }
{
    pieces.iter().all(|piece| piece.is_within(count))
}

/// The elements that pieces are among the children of a node. Refused only for want of memory.
pub(crate) fn named_in(
    alloc: Global,
    node: &GreenNode,
    pieces: Vec<Piece>,
) -> Result<Vec<GreenElement>, Fault>
    ensures ok { IfOk result (λ v. v.items ≡ named_in (node_children node.now) pieces.items) }
    ensures err { IfErr result (λ e. e ≡ Fault.Memory) }
{
    let mut elements = Vec::new(alloc);
    elements.reserve_exact(pieces.len())?;
    for piece in pieces {
        push_named(&mut elements, node, piece)?;
    }
    Ok(elements)
}

/// Puts the element that a piece is behind others, if there is one.
fn push_named(elements: &mut Vec<GreenElement>, node: &GreenNode, piece: Piece) -> Result<(), Fault>
    ensures ok { OnOk result (elements.new.items
        ≡ elements.old.items ++ piece_in (node_children node.now) piece) }
    ensures err { IfErr result (λ e. e ≡ Fault.Memory) }
{
    let index = match piece {
        Piece::New(element) => {
            elements.push(element)?;
            return Ok(());
        }
        Piece::Old(index) => index,
    };
    let Some((_, child)) = node.child_ref(index) else {
        return Ok(());
    };
    elements.push(child.to_owned()?)?;
    Ok(())
}
