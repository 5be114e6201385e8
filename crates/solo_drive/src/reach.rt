ghost use Rattle.std.specs.Prelude.{◌≡◌, ◌≤◌, ◌==◌};
ghost use Rattle.sqe_codec.specs.Commands.{command};
ghost use Rattle.zone_model.specs.Reach.{zone_with, zones_with, reach_of};
ghost use Rattle.solo_drive.specs.Reaching.{zones_of};

use sqe_codec::{Cmd, Sqe, read};
use zns_types::Geometry;

/// The zones that a command may read or change, apart from one that it closes to make room.
#[derive(Clone, Copy, Debug, PartialEq, Eq)]
pub enum Reach {
    Nothing,

    /// From the first zone to the last, inclusive.
    Range(u32, u32),

    All,
}

// The zone of a block, if the namespace has the block.
fn one(g: &Geometry, lba: u64) -> Reach
    ensures { zones_of g.now.fields result ≡ zone_with g.now.fields lba }
{
    if lba >= g.blocks() {
        return Reach::Nothing;
    }
    let zone = g.zone_of(lba);
    Reach::Range(zone, zone)
}

// The zones of `blocks` blocks, if the namespace has them all.
fn all_of(g: &Geometry, slba: u64, blocks: u32) -> Reach
    requires { 1 ≤ blocks }
    ensures { zones_of g.now.fields result ≡ zones_with g.now.fields slba blocks }
{
    let count = u64::from(blocks);
    if count > g.blocks() || slba > g.blocks() - count {
        return Reach::Nothing;
    }
    Reach::Range(g.zone_of(slba), g.zone_of(slba + count - 1))
}

/// The zones that the command of a submission queue entry may read or change: `All` for exactly a
/// Zone Management Send with Select All and a report.
pub fn reach_of(g: &Geometry, queue: u16, sqe: &Sqe) -> Reach
    ensures { zones_of g.now.fields result
        ≡ reach_of g.now.fields (command (queue == 0) sqe.now.bytes) }
{
    match read(sqe, queue == 0) {
        Cmd::Write { slba, blocks, .. } => all_of(g, slba, blocks),
        Cmd::Read { slba, blocks, .. } => all_of(g, slba, blocks),
        Cmd::Append { zslba, .. } => one(g, zslba),
        Cmd::Send { slba, all, .. } => { if all { Reach::All } else { one(g, slba) } }
        Cmd::Receive { .. } => Reach::All,
        Cmd::Excursion { slba, .. } => one(g, slba),
        _ => Reach::Nothing,
    }
}
