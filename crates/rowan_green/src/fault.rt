ghost use Rattle.std.specs.Prelude.{◌≡◌};
ghost use Rattle.rowan_green.specs.Fault.{fault_number};
ghost use Rattle.rowan_green.specs.declared.fault.Fault.TheVariants.{Memory};

use std::alloc::{AllocError, AllocFailed};
use thiserror::Error;

/// Why a call was refused. After a refusal every builder, tree and cursor is as it was before the
/// call.
#[derive(Clone, Copy, PartialEq, Eq, Debug, Error)]
pub enum Fault {
    /// The text of a token, or the texts of a node's children together, have more than
    /// 4,294,967,295 bytes.
    #[error("a text is longer than 4294967295 bytes")]
    TextTooLong,
    /// A node would have more than 4,294,967,295 children.
    #[error("a node has more than 4294967295 children")]
    TooManyChildren,
    /// A wrap asks for a checkpoint above the number of finished elements.
    #[error("the checkpoint is past the elements that the builder holds; take a new one")]
    CheckpointPast,
    /// A wrap asks for a checkpoint that lies before the innermost open node.
    #[error("the checkpoint is before the innermost open node; finish that node first")]
    CheckpointBefore,
    /// `finish_node` was called with no open node.
    #[error("no node is open; each finish_node closes one start_node")]
    NothingOpen,
    /// `finish` was called where the builder does not hold exactly one finished element.
    #[error("the builder does not hold exactly one finished element; put all of them into one root node")]
    NotOneElement,
    /// `finish` was called where the only element is a token.
    #[error("the only element is a token; put it into a root node")]
    NotANode,
    /// A replacement has another kind than what it replaces.
    #[error("a replacement must have the kind of what it replaces")]
    OtherKind,
    /// A pointer or a range names no element of the tree.
    #[error("the tree has no such element")]
    NotFound,
    /// The allocator refused to grow.
    #[error("out of memory")]
    Memory,
    /// A script names a mark that was not taken.
    #[error("the script names a mark that it has not taken")]
    UnknownMark,
    /// A text that has to be one balanced list is not.
    #[error("the text is not one balanced list")]
    NotOneList,
}

impl Fault {
    /// The number of the refusal, from 1 to 12, in the order of the variants.
    pub fn number(self) -> u8
        ensures { result ≡ fault_number self }
    {
        match self {
            Fault::TextTooLong => 1,
            Fault::TooManyChildren => 2,
            Fault::CheckpointPast => 3,
            Fault::CheckpointBefore => 4,
            Fault::NothingOpen => 5,
            Fault::NotOneElement => 6,
            Fault::NotANode => 7,
            Fault::OtherKind => 8,
            Fault::NotFound => 9,
            Fault::Memory => 10,
            Fault::UnknownMark => 11,
            Fault::NotOneList => 12,
        }
    }
}

impl From<AllocError> for Fault {
    ghost from_gives = { λ _ e. e ≡ Memory };

    fn from(_error: AllocError) -> Fault {
        Fault::Memory
    }
}

impl<T: Drop> From<AllocFailed<T>> for Fault {
    ghost from_gives = { λ _ e. e ≡ Memory };

    fn from(_error: AllocFailed<T>) -> Fault {
        Fault::Memory
    }
}
