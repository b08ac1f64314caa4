//! Why an edit is not taken.
ghost use Rattle.std.specs.Prelude.{◌≡◌};
ghost use Rattle.rowan_changes.specs.declared.refusal.Refusal.TheVariants.{Memory};

use std::alloc::{AllocError, AllocFailed};
use thiserror::Error;

/// Why an editor does not take an edit. After a refusal the editor is as it was before the call.
#[derive(Clone, Copy, PartialEq, Eq, Debug, Error)]
pub enum Refusal {
    /// An edit that was taken before takes away an element that this one would take away, too, or
    /// one of the two edits lies inside of what the other takes away; or one of the two gives a node
    /// other children, and the other is an edit of these children, gives the node others, too, or
    /// takes away the node or something around it.
    #[error("an edit that was taken before takes away the same element, or one around it or in it")]
    Conflict,
    /// The tree has no such node, or the node has no such children.
    #[error("the tree has no such place")]
    NotFound,
    /// The edit would take the root away or stand beside it.
    #[error("the root has no parent; take another root in its place")]
    Root,
    /// The element is one of a tree whose root is not equal to that of the tree that is edited.
    #[error("the element is one of another tree")]
    OtherTree,
    /// The allocator refused to grow.
    #[error("out of memory")]
    Memory,
}

impl From<AllocError> for Refusal {
    ghost from_gives = { λ _ e. e ≡ Memory };

    fn from(_error: AllocError) -> Refusal {
        Refusal::Memory
    }
}

impl<T: Drop> From<AllocFailed<T>> for Refusal {
    ghost from_gives = { λ _ e. e ≡ Memory };

    fn from(_error: AllocFailed<T>) -> Refusal {
        Refusal::Memory
    }
}
