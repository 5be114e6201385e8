ghost use Rattle.std.specs.Prelude.{◌≡◌, ◌++◌, ◌<◌, ◌^◌, OnOk, IfOk, All, length};
ghost use Rattle.std.specs.List.{flat_map};
ghost use Rattle.zone_model.specs.declared.act.Act.{Act};
ghost use Rattle.zone_model.specs.Sessions.{header_bytes, record_bytes, spells};
ghost use Rattle.session_file.specs.Headers.{start_bytes, zones_bytes, limits_bytes, windows_bytes};

use crate::putting::{put_u16, put_u32, put_u64};
use crate::session::Session;
use std::alloc::Global;
use zns_io::{Bytes, NoMemory};
use zns_types::GeometryFields;
use zone_model::{Act, Acts};

// Appends the start of a header: its text, and the numbers of one byte.
fn put_start(file: &mut Vec<u8>, g: &GeometryFields) -> Result<(), NoMemory>
    ensures { OnOk result (file.new.items ≡ file.old.items ++ start_bytes g.now) }
{
    file.extend_from_slice(b"ZNSQ0001")?;
    file.extend_from_slice(&[g.block_exp, g.mdts, g.zasl, g.flags])?;
    Ok(())
}

// Appends the number and the sizes of the zones.
fn put_zones(file: &mut Vec<u8>, g: &GeometryFields) -> Result<(), NoMemory>
    ensures { OnOk result (file.new.items ≡ file.old.items ++ zones_bytes g.now) }
{
    put_u32(file, g.zones)?;
    put_u64(file, g.zone_size)?;
    put_u64(file, g.capacity)?;
    Ok(())
}

// Appends how many zones may be active, be open, and have a random write area.
fn put_limits(file: &mut Vec<u8>, g: &GeometryFields) -> Result<(), NoMemory>
    ensures { OnOk result (file.new.items ≡ file.old.items ++ limits_bytes g.now) }
{
    put_u32(file, g.active_limit)?;
    put_u32(file, g.open_limit)?;
    put_u32(file, g.windows)?;
    Ok(())
}

// Appends the sizes of random write areas, and the queues.
fn put_windows(file: &mut Vec<u8>, g: &GeometryFields) -> Result<(), NoMemory>
    ensures { OnOk result (file.new.items ≡ file.old.items ++ windows_bytes g.now) }
{
    put_u16(file, g.granule)?;
    put_u16(file, g.window)?;
    put_u16(file, g.queues)?;
    put_u16(file, g.depth)?;
    Ok(())
}

/// Appends the header of a session of `acts` acts.
pub fn put_header(file: &mut Vec<u8>, g: &GeometryFields, acts: u32) -> Result<(), NoMemory>
    ensures { OnOk result (file.new.items ≡ file.old.items ++ header_bytes g.now acts) }
{
    put_start(file, g)?;
    put_zones(file, g)?;
    put_limits(file, g)?;
    put_windows(file, g)?;
    put_u32(file, acts)?;
    file.extend_from_slice(&[0; 8])?;
    Ok(())
}

// Appends the record of an act.
fn put_act(file: &mut Vec<u8>, act: &Act) -> Result<(), NoMemory>
    requires { length act.now.payload < 2 ^ 32 }
    ensures { OnOk result (file.new.items ≡ file.old.items ++ record_bytes act.now) }
{
    let payload = act.payload.as_slice();
    put_u16(file, act.queue)?;
    file.extend_from_slice(&[0; 2])?;
    put_u32(file, payload.len() as u32)?;
    file.extend_from_slice(&act.sqe.bytes)?;
    file.extend_from_slice(payload)?;
    Ok(())
}

/// Appends the records of acts in order.
pub fn put_acts(file: &mut Vec<u8>, acts: &Acts) -> Result<(), NoMemory>
    requires { All (λ (a : Act). length a.payload < 2 ^ 32) acts.now.acts }
    ensures { OnOk result (file.new.items
        ≡ file.old.items ++ flat_map record_bytes acts.now.acts) }
{
    for number in 0..acts.len() {
        put_act(file, acts.act(number))?;
    }
    Ok(())
}

/// The bytes of a session.
pub fn write(alloc: Global, session: &Session) -> Result<Bytes, NoMemory>
    ensures { IfOk result (spells session.now) }
{
    let mut file = Vec::new(alloc);
    let acts = session.acts();
    put_header(&mut file, session.geometry().fields(), acts.len())?;
    put_acts(&mut file, acts)?;
    Ok(Bytes::from_vec(file))
}
