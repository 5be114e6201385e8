//! The call that sends the oldest command.
ghost use Rattle.std.specs.Prelude.{◌≡◌, ◌≢◌, ◌+◌, ◌<◌, ◌≤◌, ◌↔◌, [], ◌∷◌, List, length, Some, None, Ok, Err};
ghost use Rattle.zns_io.specs.Faults.{Rose};
ghost use Rattle.zone_model.specs.declared.act.Act.{Act};
ghost use Rattle.solo_drive.specs.Drives.{act_of};
ghost use Rattle.host_library.specs.Links.{MayGain};
ghost use Rattle.host_library.specs.Pumping.{Sends, IsTold};

use crate::done::Done;
use crate::host::Host;
use crate::host_err::HostErr;
use crate::link::Link;
use crate::pumping::{forget, settle};
use circular_buffer::HeapCircularBuffer;
use sqe_codec::Sqe;
use zns_io::Bytes;
use zone_model::Act;

// Puts an act back at the front of the ring that it came from.
fn put_back(ring: &mut HeapCircularBuffer<Act>, queue: u16, sqe: Sqe, payload: Bytes)
    requires { length ring.old.items < ring.old.capacity }
    ensures items { ring.new.items ≡ act_of queue sqe payload ∷ ring.old.items }
    ensures capacity { ring.new.capacity ≡ ring.old.capacity }
{
    let act = Act {
        queue,
        sqe,
        payload,
    };
    match ring.try_push_front(act) {
        Ok(()) => {}
        Err(_act) => unreachable!(),
    }
}

impl<L: Link> Host<L> {
    /// Sends the oldest command once. Returns its result, or `None` if no command waits. The bytes
    /// that the command read are at the start of `out`, which has at least 128 bytes. The command
    /// leaves the ring, and its zone's shadow changes as the drive changes the zone.
    ///
    /// # Errors
    ///
    /// - `LinkFault` if the link fails. The command stays the oldest, and its zone becomes Unknown.
    /// - `Torn` if the command's entry is torn. The command leaves the ring, and its zone becomes
    ///   Unknown.
    /// - `Refused` if the drive refuses the command. The command leaves the ring, and the shadow
    ///   stays as it was.
    pub fn pump(&mut self, out: &mut [u8]) -> Result<Option<Done>, HostErr>
        requires room { 128 ≤ length out.old }

        // no command waits
        ensures none { (result ≡ Ok None) ↔ (self.old.ring ≡ []) }
        ensures idle { self.old.ring ≡ [] → self.new ≡ self.old }
        ensures geometry { self.new.geometry ≡ self.old.geometry }

        // else the oldest is sent
        ensures sends { self.old.ring ≢ [] → Sends (λ act answer link. L.step self.old.link act
            out.old answer out.new link) self.old self.new result out.new }

        // what a told history says of it
        ensures told { (acts : List Act) → L.history self.old.link ≡ Some acts → (act : Act)
            → (rest : List Act) → self.old.ring ≡ act ∷ rest → result ≢ Err HostErr.LinkFault
            → IsTold self.old.geometry acts act (L.history self.new.link) result out.new }
        ensures failed { result ≡ Err HostErr.LinkFault → (act : Act) → (rest : List Act)
            → self.old.ring ≡ act ∷ rest
            → MayGain (L.history self.old.link) (L.history self.new.link) act }

        // faults
        ensures fault { result ≡ Err HostErr.LinkFault
            → Rose (L.faults self.old.link) (L.faults self.new.link) }
        ensures never_falls { L.faults self.old.link ≤ L.faults self.new.link }
        ensures less_sure { L.sure self.old.link ≤ L.sure self.new.link + 1 }
        ensures surely { 0 < L.sure self.old.link → result ≢ Err HostErr.LinkFault }
        ensures no_fault { 0 < L.sure self.old.link
            → L.faults self.new.link ≡ L.faults self.old.link }
    {
        let Some(act) = self.ring.pop_front() else {
            return Ok(None);
        };
        let Act {
            queue,
            sqe,
            payload,
        } = act;
        match self.link.send(queue, &sqe, payload, out) {
            Ok(answer) => settle(&mut self.shadows, &self.geometry, &sqe, &answer, out),
            Err(payload) => {
                forget(&mut self.shadows, &self.geometry, &sqe);
                put_back(&mut self.ring, queue, sqe, payload);
                Err(HostErr::LinkFault)
            }
        }
    }
}
