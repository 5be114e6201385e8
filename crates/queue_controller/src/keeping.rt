//! Serving several commands under one taking of lock words: a queue keeps the words of a command's
//! zones for further commands of the same reach. Once another zone had to give way, it keeps the
//! words of all zones, which serve commands of any reach.
ghost use Rattle.std.specs.Prelude.{◌≡◌, ◌<◌, true, length};
ghost use Rattle.solo_drive.specs.Drives.{act_of};
ghost use Rattle.solo_drive.specs.Reaching.{zones_of};
ghost use Rattle.zone_desk.specs.Sights.{with_cells};
ghost use Rattle.zone_desk.specs.Passes.{knowing};
ghost use Rattle.queue_controller.specs.Words.{AreInRow};
ghost use Rattle.queue_controller.specs.Keeping.{Holds, MayGoOn, kept_zones, rested, Serve};
ghost use Rattle.queue_controller.specs.Keeping.{HeldFewOrKept, HaveCause};
ghost use Rattle.queue_controller.specs.Serving.{Serves, IsPosted};

use crate::gate::Gate;
use crate::serving::serve_here;
use crate::words::take_zones;
use solo_drive::{Applied, Posted, Reach, reach_of};
use sqe_codec::Sqe;
use std::sync::Wait;
use zns_io::Bytes;
use zone_desk::{Desk, QueuePass};

// The most commands that a queue serves under one taking of its zones' words. Other queues may be
// waiting for them.
const MOST: u32 = 256;

/// The words that a queue keeps from one command to the next.
#[derive(Clone, Copy)]
pub(crate) enum KeptWords {
    Nothing,

    /// The words of the zones of a reach. They serve commands of the same reach.
    Zones(Reach),

    /// The words of all zones, taken for a command for which another zone had to give way. They
    /// serve every command, and the next one mostly needs them too.
    All,
}

/// The words that a queue keeps, and how many more commands it may serve under them.
#[derive(Clone, Copy)]
pub(crate) struct Kept {
    pub(crate) words: KeptWords,
    pub(crate) left: u32,
}

impl Kept {
    /// No words are kept.
    pub(crate) fn nothing() -> Kept
        ensures { result.words ≡ KeptWords.Nothing }
    {
        Kept {
            words: KeptWords::Nothing,
            left: 0,
        }
    }

    // Words that were just taken for a command. It counts as the first under them.
    fn taken(words: KeptWords) -> Kept
        ensures { result.words ≡ words }
    {
        Kept {
            words,
            left: MOST - 1,
        }
    }

    // Whether one more command, of this reach, may be served under the kept words.
    fn goes_on(&self, reach: Reach) -> bool
        ensures serves { result ≡ true → Serve self.now.words reach }
        ensures some { result ≡ true → 0 < self.now.left }
    {
        self.left > 0
            && match self.words {
                KeptWords::Nothing => false,
                KeptWords::Zones(zones) => zones == reach,
                KeptWords::All => true,
            }
    }
}

// Makes sure that the pass has words that serve a command of a reach: the kept ones, or new ones
// once all others are given back.
fn take_up<R: Wait>(rt: &R, desk: &Desk, pass: &mut QueuePass, kept: &mut Kept, reach: Reach)
    requires holds { Holds desk.now (kept_zones desk.now.geometry kept.old.words) pass.old }
    requires row { AreInRow desk.now.geometry (zones_of desk.now.geometry reach) }
    ensures pass { pass.new ≡ knowing pass.old (with_cells pass.old.sight pass.new.sight.cells) }
    ensures serve { Serve kept.new.words reach }
    ensures all { kept.new.words ≡ KeptWords.All → kept.old.words ≡ KeptWords.All }
    ensures holds { Holds desk.now (kept_zones desk.now.geometry kept.new.words) pass.new }
{
    if kept.goes_on(reach) {
        kept.left -= 1;
        return;
    }
    desk.put_back(pass);
    take_zones(rt, desk, pass, reach);
    *kept = Kept::taken(KeptWords::Zones(reach));
}

/// Serves one command of the pass's queue as `serve` does, under the kept words if they serve it.
/// Keeps the words under which it served the command.
pub(crate) fn serve_keeping<R: Wait, G: Gate>(
    rt: &R,
    desk: &Desk,
    pass: &mut QueuePass,
    kept: &mut Kept,
    sqe: Sqe,
    payload: Bytes,
    out: &mut [u8],
    gate: &G,
) -> Posted
    requires { MayGoOn desk.now kept.old.words pass.old sqe payload (length out.old) }
    ensures holds { Holds desk.now (kept_zones desk.now.geometry kept.new.words) pass.new }
    ensures served { Serves (rested pass.old.sight) (act_of pass.old.sight.queue sqe payload)
        (IsPosted desk.now.geometry (act_of pass.old.sight.queue sqe payload)
        result out.old out.new)
        (rested pass.new.sight) }
    ensures few { HeldFewOrKept desk.now.geometry kept.old.words
        (act_of pass.old.sight.queue sqe payload) pass.old.sight pass.new.sight }
    ensures all { kept.new.words ≡ KeptWords.All → HaveCause desk.now.geometry kept.old.words
        (act_of pass.old.sight.queue sqe payload) pass.new.sight }
{
    gate.before(pass.queue(), pass.served());
    let reach = reach_of(desk.geometry(), pass.queue(), &sqe);
    take_up(rt, desk, pass, kept, reach);
    match serve_here(rt, desk, pass, sqe, payload, out, gate) {
        Applied::Done(posted) => posted,
        Applied::Widen { payload } => {
            take_zones(rt, desk, pass, Reach::All);
            *kept = Kept::taken(KeptWords::All);
            match serve_here(rt, desk, pass, sqe, payload, out, gate) {
                Applied::Done(posted) => posted,
                Applied::Widen { .. } => unreachable!(),
            }
        }
    }
}
