//! The calls that put a command into the ring.
ghost use Rattle.std.specs.Prelude.{◌≡◌, ◌<◌, []};
ghost use Rattle.host_library.specs.Asking.{IsData, IsCommand, blocks_in, write_at, append_to, put_at, sent_to, open_with_window, commit_to, reset_of, report_of};
ghost use Rattle.host_library.specs.Hosts.{put_gives, after_put};

use crate::asking::{COMMIT, OPEN, QUEUE, REPORT_LEN, RESET};
use crate::host::Host;
use crate::host_err::HostErr;
use crate::link::Link;
use sqe_codec::{Cmd, write};
use zns_io::Bytes;
use zns_types::Geometry;
use zone_model::Act;

// The one namespace.
const NAMESPACE: u32 = 1;

// The number of blocks of host data.
fn blocks_in(g: &Geometry, payload: &Bytes) -> u32
    requires { IsData g.now.fields payload.now }
    ensures { result ≡ blocks_in g.now.fields payload.now }
{
    (payload.as_slice().len() / g.block_len() as usize) as u32
}

impl<L: Link> Host<L> {
    // Puts a command at the ring's back.
    fn put(&mut self, command: &Cmd, payload: Bytes) -> Result<u16, HostErr>
        requires { IsCommand self.old.geometry command.now payload }
        ensures result { result ≡ put_gives self.old payload }
        ensures host { self.new ≡ after_put self.old command.now payload }
    {
        let cid = self.next;
        let act = Act {
            queue: QUEUE,
            sqe: write(command, cid),
            payload,
        };
        match self.ring.try_push_back(act) {
            Ok(()) => {
                self.next = cid.wrapping_add(1);
                Ok(cid)
            }
            Err(Act { payload, .. }) => Err(HostErr::RingFull(payload)),
        }
    }

    /// Puts a Write at the ring's back, of 1 to 65,536 whole blocks from the namespace's block `lba`
    /// on. Returns the command identifier. Identifiers count up from 0, and 0 follows 65,535.
    ///
    /// # Errors
    ///
    /// `RingFull` with the host data if the ring is full. The host then stays as it was.
    pub fn write(&mut self, lba: u64, payload: Bytes) -> Result<u16, HostErr>
        requires { IsData self.old.geometry payload }
        ensures result { result ≡ put_gives self.old payload }
        ensures host { self.new ≡ after_put self.old (write_at self.old.geometry lba payload)
            payload }
    {
        let blocks = blocks_in(&self.geometry, &payload);
        self.put(
            &Cmd::Write {
                nsid: NAMESPACE,
                slba: lba,
                blocks,
            },
            payload,
        )
    }

    /// Puts a Zone Append at the ring's back, of 1 to 65,536 whole blocks. The number of its first
    /// block comes with `Done`. Returns the command identifier.
    ///
    /// # Errors
    ///
    /// `RingFull` with the host data if the ring is full. The host then stays as it was.
    pub fn append(&mut self, zone: u32, payload: Bytes) -> Result<u16, HostErr>
        requires zone { zone < self.old.geometry.zones }
        requires payload { IsData self.old.geometry payload }
        ensures result { result ≡ put_gives self.old payload }
        ensures host { self.new ≡ after_put self.old (append_to self.old.geometry zone payload)
            payload }
    {
        let blocks = blocks_in(&self.geometry, &payload);
        let zslba = self.geometry.first(zone);
        self.put(
            &Cmd::Append {
                nsid: NAMESPACE,
                zslba,
                blocks,
            },
            payload,
        )
    }

    /// Puts a Write into a zone's random write area at the ring's back, of 1 to 65,536 whole blocks.
    /// The first is `offset` blocks after the zone's start. Returns the command identifier.
    ///
    /// # Errors
    ///
    /// `RingFull` with the host data if the ring is full. The host then stays as it was.
    pub fn window_put(&mut self, zone: u32, offset: u64, payload: Bytes) -> Result<u16, HostErr>
        requires zone { zone < self.old.geometry.zones }
        requires offset { offset < self.old.geometry.zone_size }
        requires payload { IsData self.old.geometry payload }
        ensures result { result ≡ put_gives self.old payload }
        ensures host { self.new
            ≡ after_put self.old (put_at self.old.geometry zone offset payload) payload }
    {
        let lba = self.geometry.first(zone) + offset;
        self.write(lba, payload)
    }

    // Puts a Zone Management Send to the zone of a block at the ring's back.
    fn send(&mut self, slba: u64, action: u8, option: bool) -> Result<u16, HostErr>
        requires { IsCommand self.old.geometry (sent_to slba action option) [] }
        ensures result { result ≡ put_gives self.old [] }
        ensures host { self.new ≡ after_put self.old (sent_to slba action option) [] }
    {
        let payload = Bytes::empty(self.alloc);
        self.put(
            &Cmd::Send {
                nsid: NAMESPACE,
                slba,
                action,
                all: false,
                option,
            },
            payload,
        )
    }

    /// Puts an Open of a zone with a random write area at the ring's back (Zone Management Send).
    /// Returns the command identifier.
    ///
    /// # Errors
    ///
    /// `RingFull` if the ring is full. The host then stays as it was.
    pub fn open_window(&mut self, zone: u32) -> Result<u16, HostErr>
        requires { zone < self.old.geometry.zones }
        ensures result { result ≡ put_gives self.old [] }
        ensures host { self.new
            ≡ after_put self.old (open_with_window self.old.geometry zone) [] }
    {
        let slba = self.geometry.first(zone);
        self.send(slba, OPEN, true)
    }

    /// Puts a commit of a zone's random write area at the ring's back (Zone Management Send). The
    /// last block to be committed is `last` blocks after the zone's start. Returns the command
    /// identifier.
    ///
    /// # Errors
    ///
    /// `RingFull` if the ring is full. The host then stays as it was.
    pub fn flush_to(&mut self, zone: u32, last: u64) -> Result<u16, HostErr>
        requires zone { zone < self.old.geometry.zones }
        requires offset { last < self.old.geometry.zone_size }
        ensures result { result ≡ put_gives self.old [] }
        ensures host { self.new ≡ after_put self.old (commit_to self.old.geometry zone last) [] }
    {
        let slba = self.geometry.first(zone) + last;
        self.send(slba, COMMIT, false)
    }

    /// Puts a Reset of a zone at the ring's back (Zone Management Send). Returns the command
    /// identifier.
    ///
    /// # Errors
    ///
    /// `RingFull` if the ring is full. The host then stays as it was.
    pub fn reset(&mut self, zone: u32) -> Result<u16, HostErr>
        requires { zone < self.old.geometry.zones }
        ensures result { result ≡ put_gives self.old [] }
        ensures host { self.new ≡ after_put self.old (reset_of self.old.geometry zone) [] }
    {
        let slba = self.geometry.first(zone);
        self.send(slba, RESET, false)
    }

    /// Puts a report of one zone at the ring's back (Zone Management Receive). It reads 128 bytes:
    /// the report's head of 64 and the zone's descriptor of 64. Returns the command identifier.
    ///
    /// # Errors
    ///
    /// `RingFull` if the ring is full. The host then stays as it was.
    pub fn report(&mut self, zone: u32) -> Result<u16, HostErr>
        requires { zone < self.old.geometry.zones }
        ensures result { result ≡ put_gives self.old [] }
        ensures host { self.new ≡ after_put self.old (report_of self.old.geometry zone) [] }
    {
        let slba = self.geometry.first(zone);
        let payload = Bytes::empty(self.alloc);
        self.put(
            &Cmd::Receive {
                nsid: NAMESPACE,
                slba,
                bytes: REPORT_LEN,
                action: 0,
                filter: 0,
                partial: true,
            },
            payload,
        )
    }
}
