ghost use Rattle.std.specs.Prelude.{◌≡◌, ◌++◌, OnOk};
ghost use Rattle.byteorder.specs.Endian.{little_bytes};

use byteorder::{ByteOrder, LittleEndian};
use zns_io::NoMemory;

/// Appends `number` in two bytes, little-endian.
pub fn put_u16(file: &mut Vec<u8>, number: u16) -> Result<(), NoMemory>
    ensures { OnOk result (file.new.items ≡ file.old.items ++ little_bytes 2 number) }
{
    let mut bytes = [0; 2];
    LittleEndian::write_u16(&mut bytes, number);
    file.extend_from_slice(&bytes)?;
    Ok(())
}

/// Appends `number` in four bytes, little-endian.
pub fn put_u32(file: &mut Vec<u8>, number: u32) -> Result<(), NoMemory>
    ensures { OnOk result (file.new.items ≡ file.old.items ++ little_bytes 4 number) }
{
    let mut bytes = [0; 4];
    LittleEndian::write_u32(&mut bytes, number);
    file.extend_from_slice(&bytes)?;
    Ok(())
}

/// Appends `number` in eight bytes, little-endian.
pub fn put_u64(file: &mut Vec<u8>, number: u64) -> Result<(), NoMemory>
    ensures { OnOk result (file.new.items ≡ file.old.items ++ little_bytes 8 number) }
{
    let mut bytes = [0; 8];
    LittleEndian::write_u64(&mut bytes, number);
    file.extend_from_slice(&bytes)?;
    Ok(())
}
