//! What an answered command does to the shadows.
ghost use Rattle.std.specs.Prelude.{◌≡◌, ◌≤◌, false, [], length, Err};
ghost use Rattle.sqe_codec.specs.Commands.{command, cid_of};
ghost use Rattle.host_library.specs.declared.host_err.HostErr.TheVariants as error;
ghost use Rattle.host_library.specs.Asking.{zone_about, shadow_done};
ghost use Rattle.host_library.specs.Hosts.{HasShadows};
ghost use Rattle.host_library.specs.Pumping.{verdict_of, pumped, with_changed, shadows_after};

use crate::asking::{shadow_done, zone_about};
use crate::done::Done;
use crate::host_err::HostErr;
use crate::shadow::Shadow;
use crate::shadows::UNKNOWN;
use sqe_codec::{Cmd, Sqe, cid, read};
use zns_types::{Code, Geometry};

/// Forgets the zone that a command is about: its shadow becomes Unknown.
pub(crate) fn forget(shadows: &mut [Shadow], g: &Geometry, sqe: &Sqe)
    requires shadows { HasShadows g.now.fields shadows.old }
    ensures exact { shadows.new ≡ shadows_after g.now.fields (command false sqe.now.bytes)
        (Err error.LinkFault) [] shadows.old }
    ensures shadows { HasShadows g.now.fields shadows.new }
{
    if let Some(zone) = zone_about(g, read(sqe, false)) {
        shadows[zone as usize] = UNKNOWN;
    }
}

// Updates the shadow of a command's zone after the command succeeded.
fn follow(shadows: &mut [Shadow], g: &Geometry, command: Cmd, out: &[u8])
    requires shadows { HasShadows g.now.fields shadows.old }
    requires room { 128 ≤ length out.now }
    ensures exact { shadows.new ≡ with_changed (zone_about g.now.fields command)
        (shadow_done g.now.fields command out.now) shadows.old }
    ensures shadows { HasShadows g.now.fields shadows.new }
{
    if let Some(zone) = zone_about(g, command) {
        let shadow = shadows[zone as usize];
        shadows[zone as usize] = shadow_done(g, command, zone, out, shadow);
    }
}

/// Reads the entry of an answer to a command, and updates the shadow of the command's zone.
pub(crate) fn settle(
    shadows: &mut [Shadow],
    g: &Geometry,
    sqe: &Sqe,
    answer: &([u8; 16], u32),
    out: &[u8],
) -> Result<Option<Done>, HostErr>
    requires shadows { HasShadows g.now.fields shadows.old }
    requires room { 128 ≤ length out.now }
    ensures verdict { result ≡ pumped (verdict_of (cid_of sqe.now.bytes) answer.now.0
        answer.now.1) }
    ensures exact { shadows.new ≡ shadows_after g.now.fields (command false sqe.now.bytes)
        (verdict_of (cid_of sqe.now.bytes) answer.now.0 answer.now.1) out.now shadows.old }
    ensures shadows { HasShadows g.now.fields shadows.new }
{
    let entry = &answer.0;
    let Ok(cqe) = cqe_codec::read(entry) else {
        forget(shadows, g, sqe);
        return Err(HostErr::Torn(entry[15]));
    };
    if cqe.code != Code::SUCCESS {
        return Err(HostErr::Refused(cqe.code));
    }
    follow(shadows, g, read(sqe, false), out);
    Ok(Some(Done {
        cid: cid(sqe),
        dw0: cqe.dw0,
        dw1: cqe.dw1,
        len: answer.1,
    }))
}
