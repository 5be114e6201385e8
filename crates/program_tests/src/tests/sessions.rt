use std::alloc::Global;
use std::test::Fail;
use zns_io::Bytes;

// A command's record: what its entry says beside the namespace, which is 1, and the length of its
// host data, which is full of one byte.
#[derive(Clone, Copy)]
pub struct Record {
    pub queue: u8,
    pub opcode: u8,
    pub cid: u16,
    // dwords 10 and 11, 12, and 13
    pub place: u64,
    pub length: u32,
    pub action: u32,
    pub data: u32,
    pub byte: u8,
}

pub const RECORD: Record = Record {
    queue: 1,
    opcode: 0,
    cid: 0,
    place: 0,
    length: 0,
    action: 0,
    data: 0,
    byte: 0x11,
};

// Appends the record of a command.
pub fn push(alloc: Global, file: &mut Vec<u8>, record: Record) -> Result<(), Fail> {
    file.extend_from_slice(&[record.queue, 0, 0, 0])?;
    file.extend_from_slice(&record.data.to_le_bytes())?;
    file.extend_from_slice(&[record.opcode, 0])?;
    file.extend_from_slice(&record.cid.to_le_bytes())?;
    file.extend_from_slice(&[1, 0, 0, 0])?;
    file.extend_from_slice(&[0; 32])?;
    file.extend_from_slice(&record.place.to_le_bytes())?;
    file.extend_from_slice(&record.length.to_le_bytes())?;
    file.extend_from_slice(&record.action.to_le_bytes())?;
    file.extend_from_slice(&[0; 8])?;
    let data = Bytes::filled(alloc, record.data, record.byte)?;
    file.extend_from_slice(data.as_slice())?;
    Ok(())
}

// The header of a session of one command. The drive has 4 zones of 64 blocks of 512 bytes, 48 of
// which can be written; 3 zones may be active and 2 opened; 1 may have a random write area of 8
// blocks, which moves by granules of 4.
const HEADER: [u8; 64] = [
    0x5a, 0x4e, 0x53, 0x51, 0x30, 0x30, 0x30, 0x31, 9, 0, 0, 0, 4, 0, 0, 0, 64, 0, 0, 0, 0, 0, 0,
    0, 48, 0, 0, 0, 0, 0, 0, 0, 3, 0, 0, 0, 2, 0, 0, 0, 1, 0, 0, 0, 4, 0, 8, 0, 2, 0, 64, 0, 1, 0,
    0, 0, 0, 0, 0, 0, 0, 0, 0, 0,
];

// The session of one Write of one block.
pub fn one_write(alloc: Global) -> Result<Vec<u8>, Fail> {
    let mut file = Vec::from_slice(alloc, &HEADER)?;
    let write = Record {
        opcode: 0x01,
        cid: 1,
        data: 512,
        ..RECORD
    };
    push(alloc, &mut file, write)?;
    Ok(file)
}
