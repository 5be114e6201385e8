ghost use Rattle.std.specs.Prelude.{◌≡◌, ◌+◌, ◌*◌, ◌<◌, ◌≤◌, [], ◌∷◌, ◌++◌, IfOk, length, map, drop, All};
ghost use Rattle.std.specs.List.{flat_map};
ghost use Rattle.drive_rules.specs.Reports.{bytes_of_all, changed_page};
ghost use Rattle.zone_cell.specs.Cells.{IsOf, fresh};
ghost use Rattle.zone_model.specs.Laws.{IsKept};
ghost use Rattle.zone_model.specs.Replies.{descriptors};
ghost use Rattle.zone_model.specs.Zones.{counts, pointer, zones};
ghost use Rattle.solo_drive.specs.Drives.{HasLengths, act_of, drive_of, history, entries_for, bytes_for, changed_zones};
ghost use Rattle.solo_drive.specs.Parts.{DriveStands};
ghost use Rattle.solo_drive.specs.Reading.{descriptor_in};

use crate::applied::Applied;
use crate::applying::apply;
use drive_book::{Book, Posted};
use sqe_codec::Sqe;
use std::alloc::Global;
use std::marker::Model;
use zns_io::{Bytes, NoMemory};
use zns_types::Geometry;
use zone_cell::ZoneCell;
use zone_descriptor::write;
use zone_limits::Limits;
use zone_model::Journal;

/// A drive that serves one command at a time, with all of its zones in memory. It keeps a journal
/// of the acts it has served, and its answers follow from them.
#[derive(Drop)]
pub struct Solo {
    geometry: Geometry,
    cells: Vec<ZoneCell>,
    book: Book,
}

impl Model for Solo {
    ghost use Rattle.solo_drive.specs.Drives.{Drive, drive_of};
    ghost use Rattle.solo_drive.specs.Parts.{DriveStands};

    ghost Value = { Drive };

    ghost view = { λ s. drive_of s.geometry.fields s.book.journal };

    ghost invariant = { λ s. DriveStands s.geometry.fields s.cells.items s.book };
}

/// The parts of a drive: its zones, in ascending order, and what it keeps besides them.
#[derive(Drop)]
pub struct Parts {
    pub cells: Vec<ZoneCell>,
    pub book: Book,
    pub geometry: Geometry,
}

// Writes the descriptors of all zones, in ascending order.
fn write_descriptors(cells: &[ZoneCell], g: &Geometry, out: &mut [u8])
    requires all { length cells.now ≡ g.now.fields.zones }
    requires of { All (IsOf g.now.fields) cells.now }
    requires room { length out.old ≡ 64 * g.now.fields.zones }
    ensures { out.new ≡ flat_map (descriptor_in g.now.fields cells.now) (zones g.now.fields) }
{
    for zone in 0..g.fields.zones as usize {
        let descriptor = cells[zone].descriptor(g);
        out[zone * 64..(zone + 1) * 64].copy_from_slice(&write(&descriptor));
    }
}

// The cells of a new drive.
fn fresh_cells(alloc: Global, g: &Geometry) -> Result<Vec<ZoneCell>, NoMemory>
    ensures { IfOk result (λ cells. cells.items ≡ map (fresh g.now.fields) (zones g.now.fields)) }
{
    let mut cells = Vec::new(alloc);
    for zone in 0..g.fields.zones {
        let cell = ZoneCell::new(alloc, g, zone)?;
        cells.push(cell)?;
    }
    Ok(cells)
}

impl Solo {
    /// A new drive: every zone is Empty, and the journal has room for `room` acts.
    pub fn new(alloc: Global, g: Geometry, room: u32) -> Result<Solo, NoMemory>
        requires room { room ≤ 262144 }
        ensures { IfOk result (λ s. s ≡ record { geometry = g.fields; acts = []; spare = room }) }
    {
        let cells = fresh_cells(alloc, &g)?;
        let book = Book::new(alloc, &g, room)?;
        Ok(Solo {
            geometry: g,
            cells,
            book,
        })
    }

    /// Serves one act: a submission queue entry from `queue`, with its host data. The act is added
    /// to the journal, and is answered as the definitions say after the acts before it, with at
    /// most two completion queue entries. The bytes that it reads go to the start of `out`; the
    /// rest of `out` is unchanged.
    pub fn submit(&mut self, queue: u16, sqe: Sqe, payload: Bytes, out: &mut [u8]) -> Posted
        requires spare { 0 < self.old.spare }
        requires queue { queue < self.old.geometry.queues }
        requires lengths { HasLengths self.old.geometry (act_of queue sqe payload)
            (length out.old) }
        ensures journal { self.new.acts ≡ self.old.acts ++ act_of queue sqe payload ∷ [] }
        ensures spare { self.new.spare + 1 ≡ self.old.spare }
        ensures geometry { self.new.geometry ≡ self.old.geometry }
        ensures entries { result.entries.items ≡ entries_for self.old (act_of queue sqe payload) }
        ensures len { result.len ≡ length (bytes_for self.old (act_of queue sqe payload)) }
        ensures read { out.new
            ≡ bytes_for self.old (act_of queue sqe payload) ++ drop result.len out.old }
        ensures kept { IsKept self.new.geometry self.new.acts }
    {
        match apply(
            &mut self.cells,
            &mut self.book,
            &self.geometry,
            queue,
            sqe,
            payload,
            out,
        ) {
            Applied::Done(posted) => posted,
            Applied::Widen { .. } => unreachable!(),
        }
    }

    /// The number of further acts there is room for.
    pub fn spare(&self) -> u32
        ensures { result ≡ self.now.spare }
    {
        self.book.journal.spare()
    }

    /// The acts served so far, the oldest first.
    pub fn journal(&self) -> &Journal
        ensures acts { result.now.acts ≡ self.now.acts }
        ensures spare { result.now.spare ≡ self.now.spare }
    {
        &self.book.journal
    }

    /// The drive's numbers.
    pub fn geometry(&self) -> &Geometry
        ensures { result.now.fields ≡ self.now.geometry }
    {
        &self.geometry
    }

    /// The number of zones that are active, that are opened, and that have a random write area.
    pub fn limits(&self) -> &Limits
        ensures { result.now ≡ counts self.now.geometry (history self.now) }
    {
        &self.book.limits
    }

    /// A zone's write pointer, in blocks from the zone's start.
    pub fn pointer(&self, zone: u32) -> u64
        requires { zone < self.now.geometry.zones }
        ensures { result ≡ pointer self.now.geometry (history self.now) zone }
    {
        self.cells[zone as usize].pointer()
    }

    /// Fills `out` with the descriptors of all zones, in ascending order, of 64 bytes each (Zoned
    /// Namespace Command Set Specification 1.1, 3.4.2.2.1).
    pub fn descriptors(&self, out: &mut [u8])
        requires { length out.old ≡ 64 * self.now.geometry.zones }
        ensures { out.new ≡ bytes_of_all (descriptors self.now.geometry (history self.now)) }
    {
        write_descriptors(&self.cells, &self.geometry, out);
    }

    /// Fills `out` with the 4,096 bytes of the Changed Zone List, and leaves the log unchanged
    /// (Zoned Namespace Command Set Specification 1.1, 4.1.4).
    pub fn page(&self, out: &mut [u8])
        requires { length out.old ≡ 4096 }
        ensures { out.new ≡ changed_page self.now.geometry (changed_zones self.now) }
    {
        self.book.log.page(&self.geometry, out);
    }

    /// Takes the drive apart.
    pub fn into_parts(self) -> Parts
        ensures stand { DriveStands result.geometry.fields result.cells.items result.book }
        ensures drive { drive_of result.geometry.fields result.book.journal ≡ self }
    {
        let Solo {
            geometry,
            cells,
            book,
        } = self;
        Parts {
            cells,
            book,
            geometry,
        }
    }

    /// Puts a drive together from its parts.
    pub fn of_parts(parts: Parts) -> Solo
        requires { DriveStands parts.geometry.fields parts.cells.items parts.book }
        ensures { result ≡ drive_of parts.geometry.fields parts.book.journal }
    {
        let Parts {
            cells,
            book,
            geometry,
        } = parts;
        Solo {
            geometry,
            cells,
            book,
        }
    }
}
