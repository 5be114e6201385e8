ghost use Rattle.std.specs.Prelude.{◌≡◌, ◌≤◌, [], All, length, IfOk, OnOk, not, count_by};
ghost use Rattle.zone_model.specs.Places.{took};
ghost use Rattle.zone_model.specs.Answers.{answered};
ghost use Rattle.zone_model.specs.Sessions.{IsAct};
ghost use Rattle.solo_drive.specs.Drives.{history};
ghost use Rattle.zns_program.specs.Serving.{TellsSuccess};
ghost use Rattle.zns_program.specs.Summaries.{pointers, totals, lines_of, summary};

use crate::serving::serve_act;
use session_file::Session;
use solo_drive::Solo;
use std::alloc::Global;
use zns_io::{Bytes, NoMemory};
use zns_types::Code;
use zone_model::{Act, Reply};

/// What became of a session's commands, and what the drive then holds.
#[derive(Clone, Copy)]
pub struct Totals {
    pub commands: u32,

    /// Commands that succeeded.
    pub success: u32,

    /// Commands that were refused.
    pub refused: u32,

    /// Active zones.
    pub active: u32,

    /// Open zones.
    pub opened: u32,

    /// Zones that have a random write area.
    pub windows: u32,

    /// The sum of all write pointers, each in blocks from the start of its zone.
    pub pointers: u64,
}

// How many commands succeeded, and how many were refused.
#[derive(Clone, Copy)]
struct Counts {
    success: u32,
    refused: u32,
}

// Whether the act with this reply succeeded. An event request that waits has no entry yet and
// counts as a success.
fn took(reply: &Reply) -> bool
    ensures { TellsSuccess reply.now result }
{
    match reply.entries.first() {
        Some(entry) => entry.code == Code::SUCCESS,
        None => true,
    }
}

// Serves acts in order, and counts the successes and refusals.
fn serve_acts(alloc: Global, drive: &mut Solo, acts: Vec<Act>) -> Result<Counts, NoMemory>
    requires fresh { drive.old.acts ≡ [] }
    requires room { drive.old.spare ≡ length acts.items }
    requires few { length acts.items ≤ 262144 }
    requires acts { All (IsAct drive.old.geometry) acts.items }
    ensures acts { OnOk result (drive.new.acts ≡ acts.items) }
    ensures geometry { drive.new.geometry ≡ drive.old.geometry }
    ensures success { IfOk result (λ n. n.success ≡ count_by took (history drive.new)) }
    ensures refused { IfOk result
        (λ n. n.refused ≡ count_by (λ p. not (took p)) (history drive.new)) }
{
    let mut success = 0;
    let mut refused = 0;
    for act in acts {
        let reply = serve_act(alloc, drive, act)?;
        let took = took(&reply);
        success += u32::from(took);
        refused += u32::from(!took);
    }
    Ok(Counts { success, refused })
}

// The sum of all write pointers.
fn pointers_of(drive: &Solo) -> u64
    ensures { result ≡ pointers drive.now.geometry (history drive.now) }
{
    let mut sum = 0;
    for zone in 0..drive.geometry().fields().zones {
        sum += drive.pointer(zone);
    }
    sum
}

// Serves a session and sums it up.
fn sum_up(alloc: Global, session: Session) -> Result<Totals, NoMemory>
    ensures { IfOk result
        (λ t. t ≡ totals session.geometry (answered session.geometry session.acts)) }
{
    let (geometry, acts) = session.into_parts();
    let commands = acts.len();
    let mut drive = Solo::new(alloc, geometry, commands)?;
    let counts = serve_acts(alloc, &mut drive, acts.into_vec())?;
    let limits = drive.limits();
    Ok(Totals {
        commands,
        success: counts.success,
        refused: counts.refused,
        active: limits.active,
        opened: limits.opened,
        windows: limits.windows,
        pointers: pointers_of(&drive),
    })
}

// The text of the totals, a line for each.
fn lines_of(alloc: Global, totals: &Totals) -> Result<Bytes, NoMemory>
    ensures { IfOk result (λ b. b ≡ lines_of totals.now) }
{
    let mut text = String::new(alloc);
    writeln!(text, "commands {}", totals.commands)?;
    writeln!(text, "success {}", totals.success)?;
    writeln!(text, "refused {}", totals.refused)?;
    writeln!(text, "active {}", totals.active)?;
    writeln!(text, "open {}", totals.opened)?;
    writeln!(text, "windows {}", totals.windows)?;
    writeln!(text, "pointers {}", totals.pointers)?;
    Ok(Bytes::from_vec(text.into_bytes()))
}

/// The summary of a session that is served in the order of its file.
#[tactic(auto, unfolding(crate::specs::Summaries::summary))]
pub fn summarize(alloc: Global, session: Session) -> Result<Bytes, NoMemory>
    ensures { IfOk result (λ b. b ≡ summary session) }
{
    let totals = sum_up(alloc, session)?;
    lines_of(alloc, &totals)
}
