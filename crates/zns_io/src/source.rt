ghost use Rattle.std.specs.Prelude.{◌≡◌, ℕ, ◌<◌, ◌≤◌, List, length, take, Option, IfOk, OnErr};

use crate::failed::Failed;

/// Where bytes come from.
pub trait Source {
    ghost use Rattle.std.specs.Io.{ReadsAtMost};
    ghost use Rattle.std.specs.Io.KnownBytes.{Consumes, IsAtEnd};
    ghost use Rattle.zns_io.specs.Faults.{Rose};
    ghost use Rattle.std.specs.Prelude.{Result};
    ghost use Rattle.zns_io.specs.declared.failed.Failed.{Failed};

    /// The bytes still to come, if the source tells them.
    ghost left: { Self → Option (List ℕ) };

    /// How many calls failed, up to `u64::MAX`.
    ghost faults: { Self → ℕ };

    /// Relates a source and the buffer of a read to the answer, the buffer after the read and the
    /// source after it.
    ghost step: { Self → List ℕ → Result ℕ Failed → List ℕ → Self → Type 0 };

    /// Reads some bytes into the start of `out`, which isn't empty, and returns how many. 0 means
    /// the end.
    fn read(&mut self, out: &mut [u8]) -> Result<usize, Failed>
        requires { 0 < length out.old }
        ensures step { step self.old out.old result out.new self.new }
        ensures bound { ReadsAtMost result out.new }
        ensures bytes { IfOk result
            (λ n. Consumes (left self.old) (left self.new) (take n out.new)) }
        ensures end { IfOk result (λ n. n ≡ 0 → IsAtEnd (left self.new)) }

        ensures kept { OnErr result (left self.new ≡ left self.old) }
        ensures fault { OnErr result (Rose (faults self.old) (faults self.new)) }
        ensures never_falls { faults self.old ≤ faults self.new };
}
