ghost use Rattle.std.specs.Prelude.{◌≡◌, ◌≤◌, ◌||◌, is_err};
ghost use Rattle.zns_io.specs.Calls.{is_due, calls_after};

use crate::failed::Failed;
use std::marker::Model;

/// A plan of which calls fail, by their numbers, counted from 0. It counts the calls, and those
/// that failed.
#[derive(Drop)]
pub struct CallPlan {
    failing: Vec<u32>,
    // Both counts stop at `u64::MAX`, which is the number of no call in the list.
    made: u64,
    faults: u64,
}

impl Model for CallPlan {
    ghost use Rattle.zns_io.specs.Calls.{Calls};

    ghost Value = { Calls };

    ghost view = { λ c. record { failing = c.failing.items; made = c.made; faults = c.faults } };
}

impl CallPlan {
    /// The plan before its first call. The calls whose numbers are in `failing` fail.
    pub fn new(failing: Vec<u32>) -> CallPlan
        ensures { result ≡ record { failing = failing.items; made = 0; faults = 0 } }
    {
        CallPlan {
            failing,
            made: 0,
            faults: 0,
        }
    }

    /// Counts a call, which fails if its number is in the list or if it is refused.
    pub fn count(&mut self, is_refused: bool) -> Result<(), Failed>
        ensures fails { is_err result ≡ (is_due self.old || is_refused) }
        ensures counted { self.new ≡ calls_after self.old (is_due self.old || is_refused) }
        ensures never_falls { self.old.faults ≤ self.new.faults }
    {
        let fails = self.is_due() || is_refused;
        self.made = self.made.saturating_add(1);
        if fails {
            self.faults = self.faults.saturating_add(1);
            return Err(Failed);
        }
        Ok(())
    }

    fn is_due(&self) -> bool
        ensures { result ≡ is_due self.now }
    {
        let made = self.made;
        self.failing.iter().any(|number| u64::from(*number) == made)
    }
}
