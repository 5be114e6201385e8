ghost use Rattle.zns_io.specs.declared.read_err.ReadErr.TheVariants as errors;
ghost use Rattle.std.specs.Prelude.{◌≡◌};

use crate::failed::Failed;
use std::alloc::AllocError;
use thiserror::Error;

/// Why a source wasn't read to its end.
#[derive(Clone, Copy, Debug, PartialEq, Eq, Error)]
pub enum ReadErr {
    #[error("out of memory")]
    NoMemory,
    #[error("a read failed")]
    Failed,
    /// More bytes came than were allowed.
    #[error("more bytes came than were allowed")]
    Over,
}

impl From<AllocError> for ReadErr {
    ghost from_gives = { λ _ error. error ≡ errors.NoMemory };

    fn from(_error: AllocError) -> ReadErr {
        ReadErr::NoMemory
    }
}

impl From<Failed> for ReadErr {
    ghost from_gives = { λ _ error. error ≡ errors.Failed };

    fn from(_error: Failed) -> ReadErr {
        ReadErr::Failed
    }
}
