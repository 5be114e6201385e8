ghost use Rattle.std.specs.Prelude.{◌≡◌, ◌<◌, ◌^◌};
ghost use Rattle.drive_rules.specs.Shown.{shown_pointer};
ghost use Rattle.zone_cell.specs.Cells.{IsOf, descriptor_of};

use crate::cell::ZoneCell;
use zns_types::Geometry;
use zone_descriptor::Descriptor;

// Shown where the pointer has no meaning.
const NO_POINTER: u64 = u64::MAX;

impl ZoneCell {
    /// The zone's descriptor, as a report shows it.
    pub fn descriptor(&self, g: &Geometry) -> Descriptor
        requires { IsOf g.now.fields self.now }
        ensures { result ≡ descriptor_of g.now.fields self.now }
    {
        let first = g.first(self.zone());
        Descriptor {
            state: self.state(),
            attributes: self.attributes(),
            capacity: g.fields().capacity,
            first,
            pointer: self.shown_pointer(first),
        }
    }

    // The block at the pointer, or all ones where the pointer has no meaning.
    fn shown_pointer(&self, first: u64) -> u64
        requires { first < 2 ^ 32 }
        ensures { result ≡ shown_pointer self.now.state first self.now.pointer }
    {
        let state = self.state();
        if !state.is_full() && state.is_writable() {
            first + self.pointer()
        } else {
            NO_POINTER
        }
    }
}
