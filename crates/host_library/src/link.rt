ghost use Rattle.std.specs.Prelude.{◌≡◌, ℕ, ◌+◌, ◌<◌, ◌≤◌, false, List, length, Option, Some, IfOk, IfErr, OnErr, IsOk};

use sqe_codec::Sqe;
use zns_io::Bytes;

/// A connection from a host to a drive.
pub trait Link: Drop {
    ghost use Rattle.zns_types.specs.declared.fields.GeometryFields.{GeometryFields};
    ghost use Rattle.zns_io.specs.Faults.{Rose};
    ghost use Rattle.zone_model.specs.declared.act.Act.{Act};
    ghost use Rattle.zone_model.specs.Places.{command_of, is_event_request};
    ghost use Rattle.solo_drive.specs.Drives.{HasLengths, act_of};
    ghost use Rattle.host_library.specs.Links.{Answer, Gains, MayGain, IsAnswered};

    /// The geometry of the drive.
    ghost geometry: { Self → GeometryFields };

    /// The acts that the drive has served, oldest first, or `None` if the link doesn't tell them.
    ghost history: { Self → Option (List Act) };

    /// The number of sends that failed, up to `u64::MAX`.
    ghost faults: { Self → ℕ };

    /// How many of the next sends are sure not to fail. An event request may fail all the same.
    ghost sure: { Self → ℕ };

    /// What a send of an act may do: the bytes of `out` before, the answer, the bytes of `out`
    /// after, and the link that is left.
    ghost step: { Self → Act → List ℕ → Answer → List ℕ → Self → Type 0 };

    /// Sends a submission queue entry on a queue, with its host data. Returns the first completion
    /// queue entry that the drive posts for it, and the number of bytes that the command read, which
    /// are at the start of `out`.
    ///
    /// # Errors
    ///
    /// The host data, if the send fails. The drive may have served the command or not.
    fn send(
        &mut self,
        queue: u16,
        sqe: &Sqe,
        payload: Bytes,
        out: &mut [u8],
    ) -> Result<([u8; 16], u32), Bytes>
        requires queue { queue < (geometry self.old).queues }
        requires lengths { HasLengths (geometry self.old) (act_of queue sqe.now payload)
            (length out.old) }
        ensures step { step self.old (act_of queue sqe.now payload) out.old result out.new
            self.new }
        ensures geometry { geometry self.new ≡ geometry self.old }
        ensures gains { IfOk result (λ _. Gains (history self.old) (history self.new)
            (act_of queue sqe.now payload)) }
        ensures answered { IfOk result (λ r. (acts : List Act) → history self.old ≡ Some acts
            → IsAnswered (geometry self.old) acts (act_of queue sqe.now payload) r.0 r.1 out.new) }
        ensures back { IfErr result (λ bytes. bytes ≡ payload) }
        ensures may_gain { OnErr result (MayGain (history self.old) (history self.new)
            (act_of queue sqe.now payload)) }
        ensures fault { OnErr result (Rose (faults self.old) (faults self.new)) }
        ensures never_falls { faults self.old ≤ faults self.new }
        ensures less_sure { sure self.old ≤ sure self.new + 1 }
        ensures surely { 0 < sure self.old
            → is_event_request (command_of (act_of queue sqe.now payload)) ≡ false
            → IsOk result × (faults self.new ≡ faults self.old) };
}
