//! Serving a script: each line's command is sent and answered before the next line's.
ghost use Rattle.std.specs.Prelude.{◌≡◌, ◌+◌, ◌<◌, ◌≤◌, ◌++◌, [], ◌∷◌, All, IfOk, OnOk, length};
ghost use Rattle.std.specs.String.{string_bytes};
ghost use Rattle.zone_model.specs.declared.act.Act.{Act};
ghost use Rattle.zone_model.specs.Answers.{answered};
ghost use Rattle.host_library.specs.Hosts.{after_put};
ghost use Rattle.host_script.specs.Lines.{IsLine, data_of};
ghost use Rattle.host_script.specs.Scripts.{command_of_line, act_of_line, answer_line, scripted};
ghost use Rattle.host_script.specs.Serving.{IsOutcome, answer_of, acts_of_host, IsIdle, IsSent};

use crate::answering::put_outcome;
use crate::line::Line;
use crate::script::Script;
use host_library::{Done, Host, HostErr, LoopLink};
use solo_drive::Solo;
use std::alloc::Global;
use zns_io::{Bytes, NoMemory};
use zns_types::{Code, Geometry};

// Puts the command of a line into the ring, which is empty and so has room for it.
fn ask(alloc: Global, host: &mut Host<LoopLink>, g: &Geometry, line: Line) -> Result<(), NoMemory>
    requires geometry { host.old.geometry ≡ g.now.fields }
    requires line { IsLine g.now.fields line }
    ensures { OnOk result (host.new ≡ after_put host.old (command_of_line g.now.fields line)
        (data_of g.now.fields line)) }
{
    let data = Bytes::filled(alloc, line.data_len(g), line.byte())?;
    let _ = match line {
        Line::Write { lba, .. } => host.write(lba, data),
        Line::Append { zone, .. } => host.append(zone, data),
        Line::Put { zone, offset, .. } => host.window_put(zone, offset, data),
        Line::Open { zone } => host.open_window(zone),
        Line::Flush { zone, last } => host.flush_to(zone, last),
        Line::Reset { zone } => host.reset(zone),
        Line::Report { zone } => host.report(zone),
    };
    Ok(())
}

// The outcome of a command, from the host's answer.
fn outcome_of(answer: &Result<Option<Done>, HostErr>) -> Result<Done, Code>
    requires { IsOutcome answer.now }
    ensures { answer.now ≡ answer_of result }
{
    match answer {
        Ok(Some(done)) => Ok(*done),
        Err(HostErr::Refused(code)) => Err(*code),
        _ => unreachable!(),
    }
}

// Sends the one command that waits. The drive has room for it, so it is answered.
fn send(host: &mut Host<LoopLink>, out: &mut [u8; 128]) -> Result<Done, Code>
    requires waits { length host.old.ring ≡ 1 }
    requires spare { 0 < host.old.link.drive.spare }
    ensures { (act : Act) → host.old.ring ≡ act ∷ []
        → IsSent host.old host.new act result out.new }
{
    let answer = host.pump(out);
    outcome_of(&answer)
}

// Serves a line, and writes its answer.
fn serve_line(
    alloc: Global,
    host: &mut Host<LoopLink>,
    g: &Geometry,
    line: Line,
    text: &mut String,
) -> Result<(), NoMemory>
    requires geometry { host.old.geometry ≡ g.now.fields }
    requires idle { IsIdle host.old }
    requires spare { 0 < host.old.link.drive.spare }
    requires line { IsLine g.now.fields line }
    ensures geometry { OnOk result (host.new.geometry ≡ host.old.geometry) }
    ensures idle { OnOk result (IsIdle host.new) }
    ensures spare { OnOk result (host.old.link.drive.spare ≤ host.new.link.drive.spare + 1) }
    ensures acts { OnOk result (acts_of_host host.new ≡ acts_of_host host.old
        ++ act_of_line g.now.fields (length (acts_of_host host.old)) line ∷ []) }
    ensures text { OnOk result (string_bytes text.new ≡ string_bytes text.old
        ++ answer_line g.now.fields (answered g.now.fields (acts_of_host host.old))
        (length (acts_of_host host.old)) line) }
{
    let mut out = [0; 128];
    ask(alloc, host, g, line)?;
    let outcome = send(host, &mut out);
    put_outcome(alloc, text, g, line, outcome, &out)
}

// Serves lines in order, on a new drive with room for them, and returns the text of their answers.
fn serve_lines(
    alloc: Global,
    host: &mut Host<LoopLink>,
    g: &Geometry,
    lines: Vec<Line>,
) -> Result<String, NoMemory>
    requires geometry { host.old.geometry ≡ g.now.fields }
    requires idle { IsIdle host.old }
    requires fresh { acts_of_host host.old ≡ [] }
    requires spare { length lines.items ≤ host.old.link.drive.spare }
    requires lines { All (IsLine g.now.fields) lines.items }
    ensures { IfOk result (λ text. string_bytes text ≡ scripted g.now.fields lines.items) }
{
    let mut text = String::new(alloc);
    for line in lines {
        serve_line(alloc, host, g, line, &mut text)?;
    }
    Ok(text)
}

/// Serves the lines of a script on a new drive, and returns the answers as text, a line for each.
/// The drive has room for all of the commands, so no send fails.
///
/// # Errors
///
/// `NoMemory` if there is no memory for the drive, for host data or for the text.
pub fn serve(alloc: Global, script: Script) -> Result<Bytes, NoMemory>
    ensures { IfOk result (λ text. text ≡ scripted script.geometry script.lines) }
{
    let (geometry, lines) = script.into_parts();
    let drive = Solo::new(alloc, geometry, lines.len() as u32)?;
    let mut host = Host::new(alloc, LoopLink::new(drive), geometry)?;
    let text = serve_lines(alloc, &mut host, &geometry, lines)?;
    Ok(Bytes::from_vec(text.into_bytes()))
}
