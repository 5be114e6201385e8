ghost use Rattle.std.specs.Prelude.{◌≡◌, ◌++◌, ◌<◌, ◌≤◌, ◌^◌, OnOk, IfOk, All, length, map};
ghost use Rattle.std.specs.List.{flat_map};
ghost use Rattle.byteorder.specs.Endian.{little_bytes};
ghost use Rattle.cqe_codec.specs.Entries.{entry_bytes};
ghost use Rattle.zone_model.specs.Sessions.{own_order, order_bytes, reply_part};
ghost use Rattle.session_file.specs.Results.{part_of, IsShort, result_parts};

use crate::putting::{put_u16, put_u32};
use cqe_codec::{Cqe, write as write_entry};
use std::alloc::Global;
use zns_io::{Bytes, NoMemory};
use zone_model::{Acts, Journal, Replies, Reply};

// Appends the queues of the acts in the order served, two bytes each.
fn put_queues(file: &mut Vec<u8>, journal: &Journal) -> Result<(), NoMemory>
    ensures { OnOk result (file.new.items
        ≡ file.old.items ++ flat_map (little_bytes 2) (own_order journal.now.acts)) }
{
    for number in 0..journal.len() {
        put_u16(file, journal.queue(number))?;
    }
    Ok(())
}

// Appends the order in which the acts were served.
fn put_order(file: &mut Vec<u8>, journal: &Journal) -> Result<(), NoMemory>
    ensures { OnOk result (file.new.items
        ≡ file.old.items ++ order_bytes (own_order journal.now.acts)) }
{
    file.extend_from_slice(b"ZNSR0001")?;
    put_u32(file, journal.len())?;
    put_queues(file, journal)?;
    Ok(())
}

// Appends the queues of the acts in their own order, two bytes each.
fn put_own_queues(file: &mut Vec<u8>, acts: &Acts) -> Result<(), NoMemory>
    ensures { OnOk result (file.new.items
        ≡ file.old.items ++ flat_map (little_bytes 2) (own_order acts.now.acts)) }
{
    for number in 0..acts.len() {
        put_u16(file, acts.act(number).queue)?;
    }
    Ok(())
}

/// Appends the order of acts that are served in their own order.
pub fn put_own_order(file: &mut Vec<u8>, acts: &Acts) -> Result<(), NoMemory>
    ensures { OnOk result (file.new.items
        ≡ file.old.items ++ order_bytes (own_order acts.now.acts)) }
{
    file.extend_from_slice(b"ZNSR0001")?;
    put_u32(file, acts.len())?;
    put_own_queues(file, acts)?;
    Ok(())
}

// Appends entries, 16 bytes each.
fn put_entries(file: &mut Vec<u8>, entries: &[Cqe]) -> Result<(), NoMemory>
    ensures { OnOk result (file.new.items ≡ file.old.items ++ flat_map entry_bytes entries.now) }
{
    for entry in entries {
        file.extend_from_slice(&write_entry(entry))?;
    }
    Ok(())
}

/// Appends a reply: its entries and the bytes that it read, each after their number.
pub fn put_part(file: &mut Vec<u8>, entries: &[Cqe], read: &[u8]) -> Result<(), NoMemory>
    requires few { length entries.now < 2 ^ 16 }
    requires short { length read.now < 2 ^ 32 }
    ensures { OnOk result (file.new.items ≡ file.old.items ++ reply_part entries.now read.now) }
{
    put_u16(file, entries.len() as u16)?;
    put_entries(file, entries)?;
    put_u32(file, read.len() as u32)?;
    file.extend_from_slice(read)?;
    Ok(())
}

// Appends a reply.
fn put_reply(file: &mut Vec<u8>, reply: &Reply) -> Result<(), NoMemory>
    requires { IsShort reply.now }
    ensures { OnOk result (file.new.items ≡ file.old.items ++ part_of reply.now) }
{
    put_part(file, reply.entries.as_slice(), reply.read.as_slice())
}

// Appends all replies in order.
fn put_replies(file: &mut Vec<u8>, replies: &Replies) -> Result<(), NoMemory>
    requires { All IsShort replies.now.replies }
    ensures { OnOk result (file.new.items
        ≡ file.old.items ++ flat_map part_of replies.now.replies) }
{
    for number in 0..replies.len() {
        put_reply(file, replies.reply(number))?;
    }
    Ok(())
}

/// The result file of acts that were served: their order, the replies to them, the descriptors of
/// all zones, of 64 bytes each, and the page of changed zones, of 4,096 bytes.
#[tactic(auto, unfolding(crate::specs::Results::result_parts))]
pub fn write_result(
    alloc: Global,
    journal: &Journal,
    replies: &Replies,
    descriptors: &[u8],
    page: &[u8],
) -> Result<Bytes, NoMemory>
    requires one_each { length replies.now.replies ≡ length journal.now.acts }
    requires short { All IsShort replies.now.replies }
    ensures { IfOk result (λ b. b ≡ result_parts
        (own_order journal.now.acts) replies.now.replies descriptors.now page.now) }
{
    let mut file = Vec::new(alloc);
    put_order(&mut file, journal)?;
    put_replies(&mut file, replies)?;
    file.extend_from_slice(descriptors)?;
    file.extend_from_slice(page)?;
    Ok(Bytes::from_vec(file))
}
