ghost use Rattle.std.specs.Prelude.{◌≡◌, ℕ, ◌<◌, ◌≤◌, List, length, take, Option, IfOk, OnErr};

use crate::failed::Failed;

/// Where bytes go.
pub trait Sink {
    ghost use Rattle.zns_io.specs.Faults.{Rose};
    ghost use Rattle.zns_io.specs.Told.{Gains};
    ghost use Rattle.std.specs.Prelude.{Result};
    ghost use Rattle.zns_io.specs.declared.failed.Failed.{Failed};

    /// The bytes taken so far, if the sink tells them.
    ghost taken: { Self → Option (List ℕ) };

    /// How many calls failed, up to `u64::MAX`.
    ghost faults: { Self → ℕ };

    /// Relates a sink and the piece that it is offered to the answer and the sink after the write.
    ghost step: { Self → List ℕ → Result ℕ Failed → Self → Type 0 };

    /// Takes some bytes from the front of `piece`, which isn't empty, and returns how many.
    fn write(&mut self, piece: &[u8]) -> Result<usize, Failed>
        requires { 0 < length piece.now }
        ensures step { step self.old piece.now result self.new }
        ensures some { IfOk result (λ n. 1 ≤ n) }
        ensures bound { IfOk result (λ n. n ≤ length piece.now) }
        ensures bytes { IfOk result
            (λ n. Gains (taken self.old) (taken self.new) (take n piece.now)) }

        ensures kept { OnErr result (taken self.new ≡ taken self.old) }
        ensures fault { OnErr result (Rose (faults self.old) (faults self.new)) }
        ensures never_falls { faults self.old ≤ faults self.new };
}
