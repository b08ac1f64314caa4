//! Where new elements go.
ghost use Rattle.std.specs.Prelude.{◌≡◌};
ghost use Rattle.rowan_edit.specs.declared.position.Position.TheVariants.{FirstChild, LastChild};
ghost use Rattle.rowan_edit.specs.Positions.{IsBefore, IsAfter};

use crate::as_element::AsElement;
use rowan::{SyntaxElementRef, SyntaxNodeRef};

/// A gap between the children of a node, or before the first or behind the last of them.
#[derive_where(Clone, Copy)]
pub enum Position<'tree, L> {
    /// The gap before an element.
    BeforeElement(SyntaxElementRef<'tree, L>),
    /// The gap behind an element.
    AfterElement(SyntaxElementRef<'tree, L>),
    /// The gap before the first child of a node.
    FirstChild(SyntaxNodeRef<'tree, L>),
    /// The gap behind the last child of a node.
    LastChild(SyntaxNodeRef<'tree, L>),
}

impl<'tree, L> Position<'tree, L> {
    /// The gap before an element.
    pub fn before<E: AsElement<'tree, L>>(element: E) -> Position<'tree, L>
        ensures { IsBefore result (E.element element) }
    {
        Position::BeforeElement(element.as_element())
    }

    /// The gap behind an element.
    pub fn after<E: AsElement<'tree, L>>(element: E) -> Position<'tree, L>
        ensures { IsAfter result (E.element element) }
    {
        Position::AfterElement(element.as_element())
    }

    /// The gap before the first child of a node.
    pub fn first_child_of(parent: SyntaxNodeRef<'tree, L>) -> Position<'tree, L>
        ensures { result ≡ FirstChild parent.entry }
    {
        Position::FirstChild(parent)
    }

    /// The gap behind the last child of a node.
    pub fn last_child_of(parent: SyntaxNodeRef<'tree, L>) -> Position<'tree, L>
        ensures { result ≡ LastChild parent.entry }
    {
        Position::LastChild(parent)
    }
}
