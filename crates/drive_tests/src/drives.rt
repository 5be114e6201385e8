ghost use Rattle.std.specs.Prelude.{◌<◌, IfOk, length};
ghost use Rattle.sqe_codec.specs.Ranges.{IsWritable};
ghost use Rattle.solo_drive.specs.Drives.{HasLengths, act_of};

use byteorder::{ByteOrder, LittleEndian};
use cqe_codec::Cqe;
use drive_book::Posted;
use solo_drive::Solo;
use sqe_codec::{Cmd, Sqe, reply_len, transfer_len, write};
use std::alloc::Global;
use std::test::Fail;
use zns_io::Bytes;
use zns_types::{Geometry, GeometryFields, SMALL_DRIVE};

// A command to try on zone 1.
#[derive(Clone, Copy)]
enum Tried {
    // Writes its first block.
    Write,

    // Reads its first block.
    Read,

    // The controller finishes it.
    Finish,
}

fn command_of(tried: Tried) -> Cmd
    ensures { IsWritable result }
{
    let (nsid, kind, blocks) = (1, 1, 1);
    let slba = 64;
    match tried {
        Tried::Write => Cmd::Write { nsid, slba, blocks },
        Tried::Read => Cmd::Read { nsid, slba, blocks },
        Tried::Finish => Cmd::Excursion { nsid, slba, kind },
    }
}

// The input to a drive.
#[derive(Drop)]
struct Request {
    queue: u16,
    sqe: Sqe,
    payload: Bytes,
    out: Vec<u8>,
}

// Each byte of the host data is 11h. The output buffer is filled with EEh.
fn request_for(alloc: Global, g: &Geometry, tried: Tried) -> Result<Request, Fail>
    ensures { IfOk result (λ r. HasLengths g.now.fields (act_of r.queue r.sqe r.payload)
        (length r.out.items)) }
{
    let queue = match tried {
        Tried::Finish => 0,
        _ => 1,
    };
    let sqe = write(&command_of(tried), 7);
    let payload = Bytes::filled(alloc, transfer_len(g, queue == 0, &sqe), 0x11)?;
    let out = vec![in alloc; 0xee; reply_len(g, queue == 0, &sqe) as usize]?;
    Ok(Request {
        queue,
        sqe,
        payload,
        out,
    })
}

// Serves `tried`, and returns what it posts and the output buffer.
fn serve(alloc: Global, drive: &mut Solo, tried: Tried) -> Result<Option<(Posted, Vec<u8>)>, Fail> {
    let Request {
        queue,
        sqe,
        payload,
        mut out,
    } = request_for(alloc, drive.geometry(), tried)?;
    if queue >= drive.geometry().fields().queues || drive.spare() == 0 {
        return Ok(None);
    }
    let posted = drive.submit(queue, sqe, payload, &mut out);
    Ok(Some((posted, out)))
}

// The only entry, and the bytes that were read.
fn told(answer: &Option<(Posted, Vec<u8>)>) -> Option<(Cqe, &[u8])> {
    let (posted, out) = answer.as_ref()?;
    match posted.entries.as_slice() {
        [entry] if posted.len as usize <= out.len() => {
            Some((*entry, &out[..posted.len as usize]))
        }
        _ => None,
    }
}

// Success on queue `sqid`, with its head at `head`.
fn success(sqid: u16, head: u16) -> Cqe {
    Cqe {
        head,
        sqid,
        cid: 7,
        phase: true,
        ..Cqe::default()
    }
}

// The number of active zones, and the pointer of a zone, if there is one.
fn counted(drive: &Solo, zone: u32) -> (u32, Option<u64>) {
    let pointer = if zone < drive.geometry().fields().zones {
        Some(drive.pointer(zone))
    } else {
        None
    };
    (drive.limits().active, pointer)
}

// The descriptors of all zones.
fn descriptors_of(alloc: Global, drive: &Solo) -> Result<Vec<u8>, Fail> {
    let zones = drive.geometry().fields().zones as usize;
    let mut out = vec![in alloc; 0xee; 64 * zones]?;
    drive.descriptors(&mut out);
    Ok(out)
}

// A drive that is taken apart and put together again still serves, and shows the zone that the
// controller finished: by its descriptor, and in the Changed Zone List.
#[test]
fn a_drive_of_parts_serves_on(rt: HostRuntime) -> Result<(), Fail> {
    let alloc = rt.alloc();
    let mut drive = Solo::new(alloc, Geometry::new(SMALL_DRIVE)?, 32)?;
    let written = serve(alloc, &mut drive, Tried::Write)?;
    assert_eq!(rt; told(&written), Some((success(1, 1), [].as_slice())));
    assert_eq!(rt; counted(&drive, 1), (1, Some(1)));
    let finished = serve(alloc, &mut drive, Tried::Finish)?;
    assert_eq!(rt; told(&finished), Some((success(0, 1), [].as_slice())));
    let mut drive = Solo::of_parts(drive.into_parts());
    let read = serve(alloc, &mut drive, Tried::Read)?;
    assert_eq!(rt; told(&read), Some((success(1, 2), [0x11; 512].as_slice())));
    assert_eq!(rt; (drive.spare(), drive.journal().len()), (29, 3));
    assert_eq!(rt; counted(&drive, 1), (0, Some(48)));
    let shown = descriptors_of(alloc, &drive)?;
    assert!(rt; shown.len() == 256);
    assert_eq!(rt; (shown[65], shown[66], shown[129]), (0xe0, 1, 0x10));
    let mut page = [0xee; 4096];
    drive.page(&mut page);
    assert_eq!(rt; LittleEndian::read_u64(&page), 1);
    assert_eq!(rt; LittleEndian::read_u64(&page[8..]), 64);
    Ok(())
}
