ghost use Rattle.std.specs.Prelude.{◌≡◌, ◌≤◌, IfOk, OnOk, IfErr, None, Some, length};
ghost use Rattle.session_file.specs.Places.{geometry_in, count_in};
ghost use Rattle.session_file.specs.FileRules.{start_rows, end_rows, header_rows, in_header, over_limit, place_of};
ghost use Rattle.session_file.specs.Faults.{NoneBroken, FirstBroken};

use crate::fields::{u16_at, u32_at, u64_at};
use crate::file_err::{FileErr, Reason, Which, bad, large};
use zns_types::{Field, GeomErr, Geometry, GeometryFields};

/// The length of a header in bytes.
pub const HEADER_LEN: usize = 64;

/// The most commands that a session can have.
const MOST_COMMANDS: u32 = 262_144;

/// What a header says.
#[derive(Clone, Copy)]
pub struct Header {
    pub geometry: Geometry,
    pub commands: u32,
}

// The offset in the header of a number of the drive.
fn place_in_header(field: Field) -> usize
    ensures { result ≡ place_of field }
{
    match field {
        Field::BlockExp => 8,
        Field::Mdts => 9,
        Field::Zasl => 10,
        Field::Flags => 11,
        Field::Zones => 12,
        Field::ZoneSize => 16,
        Field::Capacity => 24,
        Field::Granule => 44,
        Field::Window => 46,
        Field::Queues => 48,
        Field::Depth => 50,
    }
}

// The error for a number that fits no drive.
fn bad_number(field: Field) -> FileErr
    ensures { result ≡ FileErr.Bad Reason.Header (place_of field) }
{
    bad(Reason::Header, place_in_header(field))
}

// The error for a number over its limit.
fn large_number(field: Field, number: u64) -> FileErr
    ensures { result ≡ over_limit field number }
{
    let which = match field {
        Field::Zones => Which::Zones,
        Field::ZoneSize => Which::ZoneSize,
        Field::Queues => Which::Queues,
        Field::Depth => Which::Depth,
        _ => return bad_number(field),
    };
    large(which, number)
}

impl From<GeomErr> for FileErr {
    ghost use Rattle.std.specs.Prelude.{◌≡◌};
    ghost use Rattle.session_file.specs.FileRules.{in_header};

    ghost from_gives = { λ broken e. e ≡ in_header broken };

    fn from(broken: GeomErr) -> FileErr {
        if broken.large {
            large_number(broken.field, broken.number)
        } else {
            bad_number(broken.field)
        }
    }
}

// Checks that there are 64 bytes and that they begin as a session does.
#[tactic(auto, unfolding(crate::specs::FileRules::start_rows))]
fn check_start(bytes: &[u8]) -> Result<(), FileErr>
    ensures passed { OnOk result (NoneBroken (start_rows bytes.now)) }
    ensures whole { OnOk result (64 ≤ length bytes.now) }
    ensures broken { IfErr result (FirstBroken (start_rows bytes.now)) }
{
    if bytes.len() < HEADER_LEN {
        return Err(bad(Reason::Short, bytes.len()));
    }
    if &bytes[..8] != b"ZNSQ0001".as_slice() {
        return Err(bad(Reason::Magic, 0));
    }
    Ok(())
}

// The numbers of the drive.
#[tactic(auto, unfolding(crate::specs::Places::geometry_in))]
fn geometry_fields(bytes: &[u8]) -> GeometryFields
    requires { 64 ≤ length bytes.now }
    ensures { result ≡ geometry_in bytes.now }
{
    GeometryFields {
        block_exp: bytes[8],
        mdts: bytes[9],
        zasl: bytes[10],
        flags: bytes[11],
        zones: u32_at(bytes, 12),
        zone_size: u64_at(bytes, 16),
        capacity: u64_at(bytes, 24),
        active_limit: u32_at(bytes, 32),
        open_limit: u32_at(bytes, 36),
        windows: u32_at(bytes, 40),
        granule: u16_at(bytes, 44),
        window: u16_at(bytes, 46),
        queues: u16_at(bytes, 48),
        depth: u16_at(bytes, 50),
    }
}

// The number of commands. Also checks that zeros follow it.
#[tactic(auto, unfolding(crate::specs::FileRules::end_rows, crate::specs::Places::count_in))]
fn check_end(bytes: &[u8]) -> Result<u32, FileErr>
    requires { 64 ≤ length bytes.now }
    ensures passed { OnOk result (NoneBroken (end_rows bytes.now)) }
    ensures commands { IfOk result (λ n. n ≡ count_in bytes.now) }
    ensures few { IfOk result (λ n. n ≤ 262144) }
    ensures broken { IfErr result (FirstBroken (end_rows bytes.now)) }
{
    let commands = u32_at(bytes, 52);
    if commands > MOST_COMMANDS {
        return Err(large(Which::Commands, u64::from(commands)));
    }
    if u64_at(bytes, 56) != 0 {
        return Err(bad(Reason::Header, 56));
    }
    Ok(commands)
}

/// Reads the first 64 bytes of a session. An error names the first broken rule.
pub fn read_header(bytes: &[u8]) -> Result<Header, FileErr>
    ensures geometry { IfOk result (λ h. h.geometry.fields ≡ geometry_in bytes.now) }
    ensures commands { IfOk result (λ h. h.commands ≡ count_in bytes.now) }
    ensures few { IfOk result (λ h. h.commands ≤ 262144) }
    ensures whole { OnOk result (64 ≤ length bytes.now) }
    ensures passed { OnOk result (NoneBroken (header_rows bytes.now)) }
    ensures broken { IfErr result (FirstBroken (header_rows bytes.now)) }
{
    check_start(bytes)?;
    let geometry = Geometry::new(geometry_fields(bytes))?;
    let commands = check_end(bytes)?;
    Ok(Header { geometry, commands })
}
