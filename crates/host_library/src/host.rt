ghost use Rattle.std.specs.Prelude.{◌≡◌, ◌<◌, ◌≤◌, true, false, Some, IfOk, List};
ghost use Rattle.zone_model.specs.declared.act.Act.{Act};
ghost use Rattle.zone_model.specs.Answers.{answered};
ghost use Rattle.host_library.specs.Shadows.{is_known, has_pointer, drive_shadow};
ghost use Rattle.host_library.specs.Hosts.{new_host, shadow_in};

mod calls;
mod pump;

use crate::link::Link;
use crate::shadow::Shadow;
use crate::shadows::UNKNOWN;
use circular_buffer::HeapCircularBuffer;
use std::alloc::Global;
use std::marker::Model;
use zns_io::NoMemory;
use zns_types::Geometry;
use zone_model::Act;

/// A host. Its calls put commands into a ring, and `pump` sends the oldest of them over the link.
/// Zones are counted from 0, and so are the blocks of the namespace and those of a zone.
#[derive(Drop)]
pub struct Host<L: Link> {
    link: L,
    geometry: Geometry,
    ring: HeapCircularBuffer<Act>,
    next: u16,
    shadows: Vec<Shadow>,
    alloc: Global,
}

impl<L: Link> Model for Host<L> {
    ghost use Rattle.host_library.specs.Hosts.{Hosted, HostStands};

    ghost Value = { Hosted L };

    ghost view = { λ h. record {
      link = h.link;
      geometry = h.geometry.fields;
      ring = h.ring.items;
      next = h.next;
      shadows = h.shadows.items;
    } };

    ghost invariant = { λ h. HostStands (L.geometry h.link) (L.history h.link) h.geometry.fields
        h.ring.items h.ring.capacity h.shadows.items };
}

impl<L: Link> Host<L> {
    /// A host of the drive at the other end of a link. It uses queue 1, its ring holds as many
    /// commands as a queue has entries (`g.fields.depth`), and every zone is Unknown.
    ///
    /// # Errors
    ///
    /// `NoMemory` if there is no memory for the ring or for the shadows.
    pub fn new(alloc: Global, link: L, g: Geometry) -> Result<Host<L>, NoMemory>
        requires queues { 2 ≤ g.fields.queues }
        requires geometry { L.geometry link ≡ g.fields }
        ensures { IfOk result (λ h. h ≡ new_host link g.fields) }
    {
        let ring = HeapCircularBuffer::with_capacity(alloc, usize::from(g.fields.depth))?;
        let shadows = vec![in alloc; UNKNOWN; g.fields.zones as usize]?;
        Ok(Host {
            link,
            geometry: g,
            ring,
            next: 0,
            shadows,
            alloc,
        })
    }

    /// What the host knows of a zone. A zone is known from a report of it that succeeded until the
    /// link fails at a command of the zone, or the command's entry is torn. If the link tells its
    /// history, what the host knows is true of the drive.
    pub fn shadow(&self, zone: u32) -> Shadow
        requires { zone < self.now.geometry.zones }
        ensures exact { result ≡ shadow_in self.now.shadows zone }
        ensures drive { (acts : List Act) → L.history self.now.link ≡ Some acts
            → is_known result.stage ≡ true
            → result ≡ drive_shadow self.now.geometry (answered self.now.geometry acts) zone }
        ensures no_pointer { has_pointer result.stage ≡ false → result.pointer ≡ 0 }
    {
        self.shadows[zone as usize]
    }

    /// Returns the link.
    pub fn into_link(self) -> L
        ensures { result ≡ self.link }
    {
        let Host { link, .. } = self;
        link
    }
}
