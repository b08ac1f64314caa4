//! Why a text is not formatted.
ghost use Rattle.std.specs.Prelude.{◌≡◌};
ghost use Rattle.toml_format.specs.declared.error.FormatError.TheVariants.{Failed};

use rowan::Fault;
use std::alloc::{AllocError, AllocFailed};
use thiserror::Error;

/// Why a text is not formatted.
#[derive(Clone, Copy, PartialEq, Eq, Debug, Error)]
pub enum FormatError {
    /// A tree or a text is not made: it would pass a limit, or an allocation failed.
    #[error("{0}")]
    Failed(Fault),
    /// The text that was made does not parse to the same tree but for white space and line ends.
    #[error("formatting would change more than white space")]
    Changed,
}

impl From<Fault> for FormatError {
    ghost from_gives = { λ fault e. e ≡ Failed fault };

    fn from(fault: Fault) -> FormatError {
        FormatError::Failed(fault)
    }
}

impl From<AllocError> for FormatError {
    ghost use Rattle.rowan.specs.Types.Fault.TheVariants.{Memory};

    ghost from_gives = { λ _ e. e ≡ Failed Memory };

    fn from(_error: AllocError) -> FormatError {
        FormatError::Failed(Fault::Memory)
    }
}

impl<T: Drop> From<AllocFailed<T>> for FormatError {
    ghost use Rattle.rowan.specs.Types.Fault.TheVariants.{Memory};

    ghost from_gives = { λ _ e. e ≡ Failed Memory };

    fn from(_failed: AllocFailed<T>) -> FormatError {
        FormatError::Failed(Fault::Memory)
    }
}
