//! The commands of a host: the zone that each is about, and how it changes the zone's shadow.
ghost use Rattle.std.specs.Prelude.{◌≡◌, ◌<◌, ◌≤◌, Some, IfSome, length};
ghost use Rattle.host_library.specs.Shadows.{IsShadow, IsInZone};
ghost use Rattle.host_library.specs.Asking.{zone_at, zone_about, deed_of, shadow_led, shadow_done};

use crate::shadow::Shadow;
use crate::shadows::{UNKNOWN, shadow_shown};
use drive_rules::Deed;
use sqe_codec::Cmd;
use zns_types::Geometry;

/// The queue that a host uses.
pub(crate) const QUEUE: u16 = 1;

/// The bytes of a report of one zone: its head of 64 bytes, and a descriptor.
pub(crate) const REPORT_LEN: u64 = 128;

/// The Zone Send Actions that a host uses (Zone Management Send command).
pub(crate) const OPEN: u8 = 0x03;

pub(crate) const RESET: u8 = 0x04;

pub(crate) const COMMIT: u8 = 0x11;

// The zone of a block, or `None` past the namespace.
fn zone_at(g: &Geometry, lba: u64) -> Option<u32>
    ensures exact { result ≡ zone_at g.now.fields lba }
    ensures within { IfSome result (λ zone. zone < g.now.fields.zones) }
{
    if lba < g.blocks() {
        Some(g.zone_of(lba))
    } else {
        None
    }
}

/// The zone that a command is about, or `None` for a write past the namespace.
pub(crate) fn zone_about(g: &Geometry, command: Cmd) -> Option<u32>
    ensures exact { result ≡ zone_about g.now.fields command }
    ensures within { IfSome result (λ zone. zone < g.now.fields.zones) }
{
    match command {
        Cmd::Write { slba, blocks, .. } => {
            let end = slba.checked_add(u64::from(blocks))?;
            if end > g.blocks() {
                return None;
            }
            zone_at(g, slba)
        }
        Cmd::Append { zslba, .. } => zone_at(g, zslba),
        Cmd::Send { slba, .. } | Cmd::Receive { slba, .. } => zone_at(g, slba),
        _ => None,
    }
}

// What a command does to its zone.
fn deed_of(g: &Geometry, command: Cmd) -> Option<Deed>
    ensures exact { result ≡ deed_of g.now.fields command }
    ensures in_zone { IfSome result (IsInZone g.now.fields) }
{
    match command {
        Cmd::Write { slba, blocks, .. } => Some(Deed::Write {
            from: g.offset_of(slba),
            blocks,
        }),
        Cmd::Append { blocks, .. } => Some(Deed::Append { blocks }),
        Cmd::Send {
            slba,
            action,
            option,
            ..
        } => match action {
            OPEN => Some(Deed::Open { window: option }),
            RESET => Some(Deed::Reset),
            COMMIT => Some(Deed::Commit {
                last: g.offset_of(slba),
            }),
            _ => None,
        },
        _ => None,
    }
}

// The shadow of a zone after a command's deed, if it has one. A shadow that wasn't known stays
// unknown.
fn shadow_led(g: &Geometry, deed: Option<Deed>, shadow: Shadow) -> Shadow
    requires plain { IsShadow g.now.fields shadow }
    requires in_zone { IfSome deed (IsInZone g.now.fields) }
    ensures exact { result ≡ shadow_led g.now.fields deed shadow }
    ensures plain { IsShadow g.now.fields result }
{
    let Some(deed) = deed else {
        return shadow;
    };
    if shadow.stage.is_known() {
        shadow.after(g, deed)
    } else {
        UNKNOWN
    }
}

/// The shadow of a command's zone after the command succeeded. What the command read is at the
/// start of `out`.
pub(crate) fn shadow_done(
    g: &Geometry,
    command: Cmd,
    zone: u32,
    out: &[u8],
    shadow: Shadow,
) -> Shadow
    requires zone { zone_about g.now.fields command ≡ Some zone }
    requires within { zone < g.now.fields.zones }
    requires room { 128 ≤ length out.now }
    requires plain { IsShadow g.now.fields shadow }
    ensures exact { result ≡ shadow_done g.now.fields command out.now shadow }
    ensures plain { IsShadow g.now.fields result }
{
    if let Cmd::Receive { .. } = command {
        let mut bytes = [0; 64];
        bytes.copy_from_slice(&out[64..128]);
        return shadow_shown(g, zone, &bytes);
    }
    shadow_led(g, deed_of(g, command), shadow)
}
