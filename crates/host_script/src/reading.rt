//! Reading a script.
ghost use Rattle.std.specs.Prelude.{◌≡◌, ◌≤◌, ◌<◌, ◌+◌, ◌^◌, IfOk, OnOk, IfErr, MatchResult, Some, length, drop};
ghost use Rattle.std.specs.List.{filter_map};
ghost use Rattle.text_lines.specs.Cuts.{lines_in};
ghost use Rattle.session_file.specs.Places.{geometry_in, count_in};
ghost use Rattle.session_file.specs.Faults.{NoneBroken, FirstBroken, IsFirstOf, OutOfMemory};
ghost use Rattle.host_script.specs.Lines.{line_in as the_line_in, data_len};
ghost use Rattle.host_script.specs.Spelling.{Scripted, IsScript, script_text};
ghost use Rattle.host_script.specs.ScriptRules.{host_rows, line_rows, lines_rows, script_rows};

use crate::line::Line;
use crate::script::Script;
use crate::spelled::line_in;
use session_file::{FileErr, HEADER_LEN, Header, Reason, Which, read_header};
use std::alloc::Global;
use text_lines::first_line;
use zns_types::Geometry;

// The most lines of a script.
const MOST_LINES: u32 = 262_144;

// The most bytes of host data that a script's lines send.
const MOST_SENT: u64 = 1 << 27;

// A host needs a queue besides the admin queue.
const FEWEST_QUEUES: u16 = 2;

// How far a script has been read.
#[derive(Clone, Copy)]
struct Progress {
    // The number of the next line, from 0.
    number: u32,

    // The offset of its first byte.
    at: usize,

    // The bytes of host data of the lines before it.
    sent: u64,
}

// The error that something is wrong at an offset.
fn bad(reason: Reason, offset: usize) -> FileErr
    ensures { result ≡ FileErr.Bad reason offset }
{
    FileErr::Bad {
        reason,
        offset: offset as u64,
    }
}

// Checks what a script's header has to keep beyond a session's: there are at least two queues, and
// no commands follow, since a script has lines in their place.
#[tactic(auto, unfolding(crate::specs::ScriptRules::host_rows))]
fn check_header(bytes: &[u8], header: &Header) -> Result<(), FileErr>
    requires geometry { header.now.geometry.fields ≡ geometry_in bytes.now }
    requires commands { header.now.commands ≡ count_in bytes.now }
    ensures passed { OnOk result (NoneBroken (host_rows bytes.now)) }
    ensures broken { IfErr result (FirstBroken (host_rows bytes.now)) }
{
    if header.geometry.fields().queues < FEWEST_QUEUES {
        return Err(bad(Reason::Header, 48));
    }
    if header.commands != 0 {
        return Err(bad(Reason::Header, 52));
    }
    Ok(())
}

// The line that a text spells and the progress after it, or the first rule that the text breaks.
#[tactic(auto, unfolding(crate::specs::ScriptRules::line_rows))]
fn check_line(
    alloc: Global,
    g: &Geometry,
    text: &[u8],
    before: Progress,
) -> Result<(Line, Progress), FileErr>
    requires number { before.number ≤ 262144 }
    requires at { before.at + length text.now < 2 ^ 64 }
    requires sent { before.sent ≤ 2 ^ 27 }
    ensures line { IfOk result (λ r. the_line_in g.now.fields text.now ≡ Some r.0) }
    ensures number { IfOk result (λ r. r.1.number ≡ before.number + 1) }
    ensures few { IfOk result (λ r. r.1.number ≤ 262144) }
    ensures at { IfOk result (λ r. r.1.at ≡ before.at + length text.now) }
    ensures sent { IfOk result (λ r. r.1.sent ≡ before.sent + data_len g.now.fields r.0) }
    ensures few_sent { IfOk result (λ r. r.1.sent ≤ 2 ^ 27) }
    ensures passed { OnOk result
        (NoneBroken (line_rows g.now.fields before.number before.at before.sent text.now)) }
    ensures broken { IfErr result
        (IsFirstOf (line_rows g.now.fields before.number before.at before.sent text.now)) }
{
    if before.number >= MOST_LINES {
        return Err(FileErr::Large {
            which: Which::Commands,
            number: u64::from(MOST_LINES) + 1,
        });
    }
    let Some(line) = line_in(alloc, g, text)? else {
        return Err(bad(Reason::HostLine, before.at));
    };
    let sent = before.sent + u64::from(line.data_len(g));
    if sent > MOST_SENT {
        return Err(FileErr::Large {
            which: Which::Sent,
            number: sent,
        });
    }
    let after = Progress {
        number: before.number + 1,
        at: before.at + text.len(),
        sent,
    };
    Ok((line, after))
}

// The lines after the header.
fn read_lines(alloc: Global, g: &Geometry, bytes: &[u8]) -> Result<Vec<Line>, FileErr>
    requires header { 64 ≤ length bytes.now }
    ensures lines { IfOk result (λ lines. lines.items
        ≡ filter_map (the_line_in g.now.fields) (lines_in (drop 64 bytes.now))) }
    ensures passed { OnOk result
        (NoneBroken (lines_rows g.now.fields 0 64 0 (lines_in (drop 64 bytes.now)))) }
    ensures broken { IfErr result
        (IsFirstOf (lines_rows g.now.fields 0 64 0 (lines_in (drop 64 bytes.now)))) }
{
    let mut lines = Vec::new(alloc);
    let mut progress = Progress {
        number: 0,
        at: HEADER_LEN,
        sent: 0,
    };
    while progress.at < bytes.len() {
        let text = first_line(&bytes[progress.at..]);
        let (line, next) = check_line(alloc, g, text, progress)?;
        lines.push(line)?;
        progress = next;
    }
    Ok(lines)
}

/// Reads a script from its bytes.
///
/// # Errors
///
/// `Bad` or `Large` for the first rule of a script that the bytes break, with its place or its
/// number, or `NoMemory` if there is no memory for the lines.
pub fn read(alloc: Global, bytes: &[u8]) -> Result<Script, FileErr>
    ensures script { IfOk result IsScript }
    ensures spelled { IfOk result (λ s. bytes.now ≡ script_text s) }
    ensures complete { (s : Scripted) → IsScript s → bytes.now ≡ script_text s
        → MatchResult result (λ r. r ≡ s) OutOfMemory }
    ensures passed { OnOk result (NoneBroken (script_rows bytes.now)) }
    ensures broken { IfErr result (IsFirstOf (script_rows bytes.now)) }
{
    let header = read_header(bytes)?;
    check_header(bytes, &header)?;
    let lines = read_lines(alloc, &header.geometry, bytes)?;
    Ok(Script::new(header.geometry, lines))
}
