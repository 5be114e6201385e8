ghost use Rattle.std.specs.Prelude.{◌≡◌, ◌<◌, [], length};
ghost use Rattle.std.specs.List.{All};
ghost use Rattle.std.specs.List.Sorted.{IsStrictlyIncreasing};
ghost use Rattle.drive_rules.specs.Reports.{changed_page};
ghost use Rattle.changed_log.specs.Logs.{with_zone};

use crate::listing::{count, list_firsts, put_number};
use std::marker::Model;
use zns_types::Geometry;

/// The zones that excursions changed since the log was last read and cleared (Zoned Namespace
/// Command Set Specification 1.1, 4.1.4). Contracts see the rising list of their numbers, which are
/// below 4,096.
#[derive(Drop)]
pub struct ChangedLog {
    noted: [bool; 4096],
}

impl Model for ChangedLog {
    ghost use Rattle.std.specs.Prelude.{ℕ, List};
    ghost use Rattle.changed_log.specs.Logs.{marked_zones};

    ghost Value = { List ℕ };

    ghost view = { λ l. marked_zones l.noted };
}

impl ChangedLog {
    /// An empty log.
    pub fn new() -> ChangedLog
        ensures { result ≡ [] }
    {
        ChangedLog {
            noted: [false; 4096],
        }
    }

    /// Adds a zone, which may be in the log already.
    pub fn note(&mut self, zone: u32)
        requires { zone < 4096 }
        ensures zones { self.new ≡ with_zone zone self.old }
        ensures rising { IsStrictlyIncreasing self.new }
    {
        self.noted[zone as usize] = true;
    }

    /// Writes the log page Changed Zone List, of 4,096 bytes. Bytes 0 and 1 hold the number of
    /// zones, and the first block of each follows from byte 8 on, rising, 8 bytes each. With more
    /// than 511 zones the number is FFFFh, and no block is given. All zones in the log must be
    /// zones of the drive.
    pub fn page(&self, g: &Geometry, out: &mut [u8])
        requires len { length out.old ≡ 4096 }
        requires zones { All (λ z. z < g.now.fields.zones) self.now }
        ensures { out.new ≡ changed_page g.now.fields self.now }
    {
        let number = count(&self.noted);
        if number > 511 {
            put_number(out, 0xffff);
        } else {
            put_number(out, number as u16);
            list_firsts(&self.noted, g, out);
        }
    }

    /// Removes all zones, as a read that clears the log does.
    pub fn clear(&mut self)
        ensures { self.new ≡ [] }
    {
        self.noted = [false; 4096];
    }
}
