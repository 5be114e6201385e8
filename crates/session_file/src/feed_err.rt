ghost use Rattle.session_file.specs.declared.feed_err.FeedErr.TheVariants as errors;
ghost use Rattle.std.specs.Prelude.{◌≡◌};

use std::alloc::AllocError;
use zns_io::{Failed, NoMemory};

/// Why reading a source ended.
#[derive(Clone, Copy, Debug, PartialEq, Eq)]
pub enum FeedErr {
    /// Memory ran out.
    NoMemory,

    /// A read failed.
    Failed,
}

impl From<AllocError> for FeedErr {
    ghost from_gives = { λ _ error. error ≡ errors.NoMemory };

    fn from(_error: AllocError) -> FeedErr {
        FeedErr::NoMemory
    }
}

impl From<NoMemory> for FeedErr {
    ghost from_gives = { λ _ error. error ≡ errors.NoMemory };

    fn from(_error: NoMemory) -> FeedErr {
        FeedErr::NoMemory
    }
}

impl From<Failed> for FeedErr {
    ghost from_gives = { λ _ error. error ≡ errors.Failed };

    fn from(_error: Failed) -> FeedErr {
        FeedErr::Failed
    }
}
