ghost use Rattle.std.specs.Prelude.{◌≡◌, ◌≤◌, length, IfOk, IfErr};
ghost use Rattle.std.specs.List.{flat_map};
ghost use Rattle.byteorder.specs.Endian.{little_bytes};
ghost use Rattle.cqe_codec.specs.Entries.{entry_bytes};
ghost use Rattle.session_file.specs.Results.{IsShort, part_of};
ghost use Rattle.zns_program.specs.Differences.{StandAt, DiffersFrom};

use byteorder::{ByteOrder, LittleEndian};
use cqe_codec::{Cqe, write};
use zone_model::Reply;

/// The offset in the input at which the two first differ, or one of them ends.
#[derive(Clone, Copy, Debug, PartialEq, Eq)]
pub struct Difference {
    pub offset: usize,
}

/// Compares `made` with the input from `at` on. Returns the offset after it.
pub fn compare(input: &[u8], at: usize, made: &[u8]) -> Result<usize, Difference>
    requires { at ≤ length input.now }
    ensures same { IfOk result (StandAt input.now at made.now) }
    ensures differs { IfErr result (λ d. DiffersFrom input.now at made.now d.offset) }
{
    // Comparing slices is faster than going byte by byte, and most are equal.
    if input[at..].starts_with(made) {
        return Ok(at + made.len());
    }
    let mut at = at;
    for byte in made {
        if at >= input.len() || input[at] != *byte {
            return Err(Difference { offset: at });
        }
        at += 1;
    }
    Ok(at)
}

// Compares a number of two bytes.
fn compare_u16(input: &[u8], at: usize, number: u16) -> Result<usize, Difference>
    requires { at ≤ length input.now }
    ensures same { IfOk result (StandAt input.now at (little_bytes 2 number)) }
    ensures differs { IfErr result
        (λ d. DiffersFrom input.now at (little_bytes 2 number) d.offset) }
{
    let mut made = [0; 2];
    LittleEndian::write_u16(&mut made, number);
    compare(input, at, &made)
}

// Compares a number of four bytes.
fn compare_u32(input: &[u8], at: usize, number: u32) -> Result<usize, Difference>
    requires { at ≤ length input.now }
    ensures same { IfOk result (StandAt input.now at (little_bytes 4 number)) }
    ensures differs { IfErr result
        (λ d. DiffersFrom input.now at (little_bytes 4 number) d.offset) }
{
    let mut made = [0; 4];
    LittleEndian::write_u32(&mut made, number);
    compare(input, at, &made)
}

// Compares entries, 16 bytes each.
fn compare_entries(input: &[u8], at: usize, entries: &[Cqe]) -> Result<usize, Difference>
    requires { at ≤ length input.now }
    ensures same { IfOk result (StandAt input.now at (flat_map entry_bytes entries.now)) }
    ensures differs { IfErr result
        (λ d. DiffersFrom input.now at (flat_map entry_bytes entries.now) d.offset) }
{
    let mut at = at;
    for entry in entries {
        at = compare(input, at, &write(entry))?;
    }
    Ok(at)
}

/// Compares a reply: its entries and the bytes that it read, each after their number.
pub fn compare_reply(input: &[u8], at: usize, reply: &Reply) -> Result<usize, Difference>
    requires at { at ≤ length input.now }
    requires short { IsShort reply.now }
    ensures same { IfOk result (StandAt input.now at (part_of reply.now)) }
    ensures differs { IfErr result (λ d. DiffersFrom input.now at (part_of reply.now) d.offset) }
{
    let entries = reply.entries.as_slice();
    let read = reply.read.as_slice();
    let at = compare_u16(input, at, entries.len() as u16)?;
    let at = compare_entries(input, at, entries)?;
    let at = compare_u32(input, at, read.len() as u32)?;
    compare(input, at, read)
}
