//! Why an edit, an element or an edited tree is not made.
ghost use Rattle.std.specs.Prelude.{◌≡◌};
ghost use Rattle.rowan_changes.specs.declared.edit_error.EditError.TheVariants.{Refused, Failed};

use crate::refusal::Refusal;
use rowan_green::fault::Fault;
use std::alloc::{AllocError, AllocFailed};
use thiserror::Error;

/// Why a call of an editor or of a maker is refused: one error, so that one `?` serves for all of
/// them.
#[derive(Clone, Copy, PartialEq, Eq, Debug, Error)]
pub enum EditError {
    /// An editor does not take an edit.
    #[error("{0}")]
    Refused(Refusal),
    /// A tree, a node or a token is not made, or an allocation failed.
    #[error("{0}")]
    Failed(Fault),
    /// A parser complains of a text of which an element was to be made.
    #[error("the text of a new element has errors")]
    TextHasErrors,
    /// Nothing in a text is of the kind of which an element was to be made.
    #[error("the text of a new element has no node of its kind")]
    NoSuchNode,
}

impl From<Refusal> for EditError {
    ghost from_gives = { λ refusal e. e ≡ Refused refusal };

    fn from(refusal: Refusal) -> EditError {
        EditError::Refused(refusal)
    }
}

impl From<Fault> for EditError {
    ghost from_gives = { λ fault e. e ≡ Failed fault };

    fn from(fault: Fault) -> EditError {
        EditError::Failed(fault)
    }
}

impl From<AllocError> for EditError {
    ghost use Rattle.rowan_green.specs.declared.fault.Fault.TheVariants.{Memory};

    ghost from_gives = { λ _ e. e ≡ Failed Memory };

    fn from(_error: AllocError) -> EditError {
        EditError::Failed(Fault::Memory)
    }
}

impl<T: Drop> From<AllocFailed<T>> for EditError {
    ghost use Rattle.rowan_green.specs.declared.fault.Fault.TheVariants.{Memory};

    ghost from_gives = { λ _ e. e ≡ Failed Memory };

    fn from(_error: AllocFailed<T>) -> EditError {
        EditError::Failed(Fault::Memory)
    }
}
