ghost use Rattle.std.specs.Prelude.{◌≡◌, ◌<◌, None, IfSome};
ghost use Rattle.zns_types.specs.Rows.{first_holding};
ghost use Rattle.sqe_codec.specs.Ranges.{HasRanges};
ghost use Rattle.drive_rules.specs.Tables.{front_rows};
ghost use Rattle.drive_rules.specs.Aims.{aim_of, sweep_of};

use crate::deed::Deed;
use crate::sent::sent_deed;
use sqe_codec::Cmd;
use zns_types::Geometry;

/// A deed, and the zone that it is done to.
#[derive(Clone, Copy, Debug, PartialEq, Eq)]
pub struct Aim {
    pub zone: u32,
    pub deed: Deed,
}

/// The deed that a command asks for on one zone, and that zone.
pub fn aim_of(g: &Geometry, command: Cmd) -> Option<Aim>
    requires ranges { HasRanges command }
    requires passes { first_holding (front_rows g.now.fields command) ≡ None }
    ensures aim { result ≡ aim_of g.now.fields command }
    ensures within { IfSome result (λ aim. aim.zone < g.now.fields.zones) }
{
    let (lba, deed) = match command {
        Cmd::Write { slba, blocks, .. } => {
            let from = g.offset_of(slba);
            (slba, Deed::Write { from, blocks })
        }
        Cmd::Append { zslba, blocks, .. } => (zslba, Deed::Append { blocks }),
        Cmd::Send {
            slba,
            action,
            all,
            option,
            ..
        } => {
            if all {
                return None;
            }
            (slba, sent_deed(action, option, g.offset_of(slba))?)
        }
        Cmd::Excursion { slba, kind, .. } => (slba, Deed::Excursion { kind }),
        _ => return None,
    };
    Some(Aim {
        zone: g.zone_of(lba),
        deed,
    })
}

/// The deed that a command asks for on every zone whose state takes it.
pub fn sweep_of(command: Cmd) -> Option<Deed>
    ensures { result ≡ sweep_of command }
{
    match command {
        Cmd::Send {
            action,
            all,
            option,
            ..
        } => {
            if all {
                sent_deed(action, option, 0)
            } else {
                None
            }
        }
        _ => None,
    }
}
