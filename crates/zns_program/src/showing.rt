ghost use Rattle.std.specs.Prelude.{◌≡◌, ◌++◌, IfOk, OnOk};
ghost use Rattle.std.specs.String.{string_bytes};
ghost use Rattle.zns_program.specs.Showing.{drive_line, name_of, act_line, act_lines, shown};

use session_file::Session;
use sqe_codec::{Cmd, cid, read};
use std::alloc::Global;
use zns_io::{Bytes, NoMemory};
use zns_types::Geometry;
use zone_model::{Act, Acts};

// The name of a command.
fn name_of(cmd: &Cmd) -> &'static str
    ensures { result.now ≡ name_of cmd.now }
{
    match cmd {
        Cmd::Flush { .. } => "Flush",
        Cmd::Write { .. } => "Write",
        Cmd::Read { .. } => "Read",
        Cmd::Append { .. } => "Append",
        Cmd::Send { .. } => "Send",
        Cmd::Receive { .. } => "Receive",
        Cmd::Identify { .. } => "Identify",
        Cmd::GetLog { .. } => "GetLog",
        Cmd::SetFeature { .. } => "SetFeature",
        Cmd::GetFeature { .. } => "GetFeature",
        Cmd::Event => "Event",
        Cmd::Excursion { .. } => "Excursion",
        Cmd::Unknown { .. } => "Unknown",
    }
}

// Appends the line of a drive's numbers.
fn put_drive(text: &mut String, g: &Geometry, acts: u32) -> Result<(), NoMemory>
    ensures { OnOk result (string_bytes text.new
        ≡ string_bytes text.old ++ drive_line g.now.fields acts) }
{
    let fields = g.fields();
    write!(
        text,
        "zones {} size {} capacity {} block {} ",
        fields.zones,
        fields.zone_size,
        fields.capacity,
        g.block_len()
    )?;
    write!(
        text,
        "active {} open {} windows {} granule {} window {} ",
        fields.active_limit, fields.open_limit, fields.windows, fields.granule, fields.window
    )?;
    writeln!(
        text,
        "queues {} depth {} commands {acts}",
        fields.queues, fields.depth
    )?;
    Ok(())
}

// Appends the line of an act, by its number from 0.
fn put_act(alloc: Global, text: &mut String, number: u32, act: &Act) -> Result<(), NoMemory>
    ensures { OnOk result (string_bytes text.new
        ≡ string_bytes text.old ++ act_line number act.now) }
{
    let name = name_of(&read(&act.sqe, act.queue == 0));
    let entry = hex::encode(alloc, act.sqe.bytes.as_slice())?;
    writeln!(
        text,
        "{number} queue {} cid {} {name} {entry}",
        act.queue,
        cid(&act.sqe)
    )?;
    Ok(())
}

// Appends the lines of acts.
fn put_acts(alloc: Global, text: &mut String, acts: &Acts) -> Result<(), NoMemory>
    ensures { OnOk result (string_bytes text.new
        ≡ string_bytes text.old ++ act_lines 0 acts.now.acts) }
{
    for number in 0..acts.len() {
        put_act(alloc, text, number, acts.act(number))?;
    }
    Ok(())
}

/// The text that shows a session.
#[tactic(auto, unfolding(crate::specs::Showing::shown))]
pub fn show(alloc: Global, session: &Session) -> Result<Bytes, NoMemory>
    ensures { IfOk result (λ b. b ≡ shown session.now) }
{
    let acts = session.acts();
    let mut text = String::new(alloc);
    put_drive(&mut text, session.geometry(), acts.len())?;
    put_acts(alloc, &mut text, acts)?;
    Ok(Bytes::from_vec(text.into_bytes()))
}
