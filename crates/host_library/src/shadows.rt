ghost use Rattle.std.specs.Prelude.{◌≡◌, ◌/◌, ◌^◌, ◌<◌, ◌≤◌, ◌==◌, ◌&&◌, false};
ghost use Rattle.zrwa_commit.specs.Least.{least_multiple};
ghost use Rattle.host_library.specs.Shadows.{is_active_stage, has_pointer, shadow_at, IsShadow, unknown, IsInZone, shadow_shown, filled_to, pointer_after, shadow_after};

use crate::shadow::Shadow;
use crate::stage::Stage;
use drive_rules::Deed;
use zns_types::Geometry;
use zone_descriptor::read;

/// The shadow of a zone of which nothing is known.
pub(crate) const UNKNOWN: Shadow = Shadow {
    stage: Stage::Unknown,
    window: false,
    pointer: 0,
};

const EMPTY: Shadow = Shadow {
    stage: Stage::Empty,
    window: false,
    pointer: 0,
};

const FULL: Shadow = Shadow {
    stage: Stage::Full,
    window: false,
    pointer: 0,
};

// Whether a zone has a random write area: it is active, and bit 3 of its Zone Attributes is set.
fn has_window(stage: Stage, attributes: u8) -> bool
    ensures { result ≡ (is_active_stage stage && (attributes / 8 == 1)) }
{
    match stage {
        Stage::Active => attributes / 8 == 1,
        _ => false,
    }
}

/// The shadow of a zone, from its descriptor.
pub(crate) fn shadow_shown(g: &Geometry, zone: u32, bytes: &[u8; 64]) -> Shadow
    requires { zone < g.now.fields.zones }
    ensures exact { result ≡ shadow_shown g.now.fields zone bytes.now }
    ensures plain { IsShadow g.now.fields result }
{
    let Ok(descriptor) = read(bytes) else {
        return UNKNOWN;
    };
    let stage = Stage::of(descriptor.state);
    let window = has_window(stage, descriptor.attributes);
    let offset = descriptor.pointer.saturating_sub(g.first(zone));
    Shadow::new(stage, window, offset.min(g.fields().capacity))
}

// The least multiple of the granule at or after an offset, or 0 if there is no granule.
fn granule_from(g: &Geometry, offset: u64) -> u64
    requires { offset < 2 ^ 33 }
    ensures { result ≡ least_multiple g.now.fields.granule offset }
{
    let granule = u64::from(g.fields().granule);
    if granule == 0 {
        return 0;
    }
    (offset + granule - 1) / granule * granule
}

impl Shadow {
    // A shadow in a stage. It has a pointer only if the zone has one.
    fn new(stage: Stage, window: bool, pointer: u64) -> Shadow
        ensures exact { result ≡ shadow_at stage window pointer }
        ensures within { result.pointer ≤ pointer }
        ensures hidden { has_pointer result.stage ≡ false → result.pointer ≡ 0 }
    {
        let pointer = match stage {
            Stage::Empty | Stage::Active => pointer,
            _ => 0,
        };
        Shadow {
            stage,
            window,
            pointer,
        }
    }

    // An active zone with its pointer at an offset, or a full one if that is the capacity.
    fn filled_to(g: &Geometry, window: bool, pointer: u64) -> Shadow
        ensures exact { result ≡ filled_to g.now.fields window pointer }
        ensures plain { IsShadow g.now.fields result }
    {
        if pointer >= g.fields().capacity {
            return FULL;
        }
        Shadow {
            stage: Stage::Active,
            window,
            pointer,
        }
    }

    // The pointer after a write of `blocks` blocks from the offset `from` on.
    fn pointer_after(self, g: &Geometry, from: u64, blocks: u32) -> u64
        requires plain { IsShadow g.now.fields self }
        requires offset { from < g.now.fields.zone_size }
        ensures { result ≡ pointer_after g.now.fields self from blocks }
    {
        if self.window {
            let end = from + u64::from(blocks);
            granule_from(
                g,
                self.pointer
                    .max(end.saturating_sub(u64::from(g.fields().window))),
            )
        } else {
            self.pointer + u64::from(blocks)
        }
    }

    /// The shadow after a deed was done to its zone.
    pub(crate) fn after(self, g: &Geometry, deed: Deed) -> Shadow
        requires plain { IsShadow g.now.fields self }
        requires offsets { IsInZone g.now.fields deed }
        ensures exact { result ≡ shadow_after g.now.fields deed self }
        ensures plain { IsShadow g.now.fields result }
    {
        match deed {
            Deed::Write { from, blocks } => {
                let pointer = self.pointer_after(g, from, blocks);
                Shadow::filled_to(g, self.window, pointer)
            }
            Deed::Append { blocks } => {
                Shadow::filled_to(g, self.window, self.pointer + u64::from(blocks))
            }
            Deed::Open { window } => Shadow {
                stage: Stage::Active,
                window: self.window || window,
                pointer: self.pointer,
            },
            Deed::Commit { last } => Shadow::filled_to(g, self.window, last + 1),
            Deed::Reset => EMPTY,
            _ => self,
        }
    }
}
