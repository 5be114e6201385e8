//! Writing the answer to a line.
ghost use Rattle.std.specs.Prelude.{◌≡◌, ◌+◌, ◌*◌, ◌^◌, ◌<◌, ◌++◌, false, OnOk, length, slice_index};
ghost use Rattle.std.specs.Fmt.{digits};
ghost use Rattle.std.specs.String.{string_bytes};
ghost use Rattle.zns_types.specs.Fields.{bit, field};
ghost use Rattle.zone_descriptor.specs.Descriptors.{state_number};
ghost use Rattle.host_script.specs.Scripts.{flag, offset_text, descriptor_line, report_line, done_line, refused_line};
ghost use Rattle.host_script.specs.Lines.{IsLine};
ghost use Rattle.host_script.specs.Serving.{outcome_line};

use crate::line::Line;
use byteorder::{ByteOrder, LittleEndian};
use host_library::Done;
use std::alloc::Global;
use zns_io::NoMemory;
use zns_types::{Code, Geometry};

// Writes a pointer field as an offset from a zone's first block. All ones mean that there is none.
fn put_offset(text: &mut String, first: u64, field: u64) -> Result<(), NoMemory>
    ensures { OnOk result (string_bytes text.new
        ≡ string_bytes text.old ++ offset_text first field) }
{
    if field == u64::MAX {
        write!(text, "-")?;
    } else {
        write!(text, "{}", field.saturating_sub(first))?;
    }
    Ok(())
}

// Writes the state that a descriptor shows, as a hexadecimal digit.
fn put_state(text: &mut String, descriptor: &[u8]) -> Result<(), NoMemory>
    requires { length descriptor.now ≡ 64 }
    ensures { OnOk result (string_bytes text.new
        ≡ string_bytes text.old ++ digits 16 false (state_number descriptor.now)) }
{
    let state = descriptor[1] >> 4;
    write!(text, "{state:x}")?;
    Ok(())
}

// Whether a descriptor shows a random write area, as a digit.
fn window_in(descriptor: &[u8]) -> &'static str
    requires { length descriptor.now ≡ 64 }
    ensures { result.now ≡ flag (bit 3 (slice_index descriptor.now 2)) }
{
    if (descriptor[2] >> 3) & 1 == 1 {
        "1"
    } else {
        "0"
    }
}

// The pointer field of a descriptor.
fn pointer_in(descriptor: &[u8]) -> u64
    requires { length descriptor.now ≡ 64 }
    ensures { result ≡ field 24 8 descriptor.now }
{
    LittleEndian::read_u64(&descriptor[24..])
}

// Writes the line of a zone with this descriptor.
fn put_descriptor(
    text: &mut String,
    g: &Geometry,
    zone: u32,
    descriptor: &[u8],
) -> Result<(), NoMemory>
    requires zone { zone < g.now.fields.zones }
    requires whole { length descriptor.now ≡ 64 }
    ensures { OnOk result (string_bytes text.new
        ≡ string_bytes text.old ++ descriptor_line g.now.fields zone descriptor.now) }
{
    write!(text, "{zone} ")?;
    put_state(text, descriptor)?;
    let window = window_in(descriptor);
    write!(text, " {window} ")?;
    put_offset(text, g.first(zone), pointer_in(descriptor))?;
    writeln!(text)?;
    Ok(())
}

// Writes the line of a report of one zone, whose descriptor follows the report's head of 64 bytes.
fn put_report(text: &mut String, g: &Geometry, zone: u32, report: &[u8]) -> Result<(), NoMemory>
    requires zone { zone < g.now.fields.zones }
    requires whole { length report.now ≡ 128 }
    ensures { OnOk result (string_bytes text.new
        ≡ string_bytes text.old ++ report_line g.now.fields zone report.now) }
{
    put_descriptor(text, g, zone, &report[64..])
}

// Writes the line of a command that was done, from its result and from what it read.
fn put_done(
    text: &mut String,
    g: &Geometry,
    line: Line,
    done: Done,
    read: &[u8],
) -> Result<(), NoMemory>
    requires line { IsLine g.now.fields line }
    requires whole { length read.now ≡ 128 }
    ensures { OnOk result (string_bytes text.new ≡ string_bytes text.old
        ++ done_line g.now.fields line (done.dw0 + 2 ^ 32 * done.dw1) read.now) }
{
    match line {
        Line::Append { .. } => {
            let lba = u64::from(done.dw0) + (u64::from(done.dw1) << 32);
            writeln!(text, "ok {lba}")?;
            Ok(())
        }
        Line::Report { zone } => put_report(text, g, zone, read),
        _ => {
            writeln!(text, "ok")?;
            Ok(())
        }
    }
}

// Writes the line of a command that was refused.
fn put_refused(alloc: Global, text: &mut String, code: Code) -> Result<(), NoMemory>
    ensures { OnOk result (string_bytes text.new ≡ string_bytes text.old ++ refused_line code) }
{
    let sc = hex::encode(alloc, [code.sc].as_slice())?;
    writeln!(text, "refused {} {sc}", code.sct)?;
    Ok(())
}

/// Writes the line of a command at the end of a text: what was done and what was read, or the
/// status of a refusal.
pub(crate) fn put_outcome(
    alloc: Global,
    text: &mut String,
    g: &Geometry,
    line: Line,
    outcome: Result<Done, Code>,
    read: &[u8],
) -> Result<(), NoMemory>
    requires line { IsLine g.now.fields line }
    requires whole { length read.now ≡ 128 }
    ensures { OnOk result (string_bytes text.new ≡ string_bytes text.old
        ++ outcome_line g.now.fields line outcome read.now) }
{
    match outcome {
        Ok(done) => put_done(text, g, line, done, read),
        Err(code) => put_refused(alloc, text, code),
    }
}
