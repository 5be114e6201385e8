ghost use Rattle.std.specs.Prelude.{◌≡◌};
ghost use Rattle.solo_drive.specs.Ahead.{outcome_from, given_up};
ghost use Rattle.solo_drive.specs.Written.{ready_with};

use drive_book::Outcome;
use zns_types::Code;
use zone_limits::Need;

// No resource.
pub(crate) const NOTHING: Need = Need {
    active: false,
    opened: false,
    window: false,
};

/// The result of a command whose bytes moved before the book was held.
#[derive(Clone, Copy, Debug, PartialEq, Eq)]
pub struct Ready {
    /// Its status.
    pub code: Code,

    /// The first dword of its result.
    pub dw0: u32,

    /// The second dword of its result.
    pub dw1: u32,

    /// The number of bytes it read.
    pub len: u32,

    /// The resources that its zone gave back by becoming Full.
    pub freed: Need,
}

impl Ready {
    // The result of `outcome`, with the resources that its zone gave back.
    pub(crate) fn of(outcome: Outcome, freed: Need) -> Ready
        ensures { result ≡ ready_with outcome freed }
    {
        Ready {
            code: outcome.code,
            dw0: outcome.dw0,
            dw1: outcome.dw1,
            len: outcome.len,
            freed,
        }
    }

    // It answers no event request and doesn't wait.
    pub(crate) fn outcome(self) -> Outcome
        ensures { result ≡ outcome_from self }
    {
        Outcome {
            code: self.code,
            dw0: self.dw0,
            dw1: self.dw1,
            len: self.len,
            event: None,
            waits: false,
        }
    }
}

// The resources that a zone no longer uses.
pub(crate) fn given_up(before: Need, after: Need) -> Need
    ensures { result ≡ given_up before after }
{
    Need {
        active: before.active && !after.active,
        opened: before.opened && !after.opened,
        window: before.window && !after.window,
    }
}
