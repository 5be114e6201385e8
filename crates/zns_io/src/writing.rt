ghost use Rattle.std.specs.Prelude.{◌≡◌, ℕ, ◌<◌, ◌≤◌, List, OnOk, OnErr};
ghost use Rattle.zns_io.specs.Faults.{Rose};
ghost use Rattle.zns_io.specs.Told.{Gains};
ghost use Rattle.zns_io.specs.Writing.{GainsPrefix, OffersAll};

use crate::failed::Failed;
use crate::sink::Sink;

/// Writes all of `bytes`, and offers all that is left at each write.
pub fn write_all<K: Sink>(sink: &mut K, bytes: &[u8]) -> Result<(), Failed>
    ensures all { OnOk result (Gains (K.taken sink.old) (K.taken sink.new) bytes.now) }
    ensures prefix { OnErr result (GainsPrefix (K.taken sink.old) (K.taken sink.new) bytes.now) }

    // Each write is offered all that is left.
    ensures offers { OffersAll K.step sink.old bytes.now result sink.new }

    ensures fault { OnErr result (Rose (K.faults sink.old) (K.faults sink.new)) }
    ensures never_falls { K.faults sink.old ≤ K.faults sink.new }
{
    let mut rest = bytes;
    while !rest.is_empty() {
        let count = sink.write(rest)?;
        rest = &rest[count..];
    }
    Ok(())
}
