ghost use Rattle.std.specs.Prelude.{◌≡◌, ◌+◌, ◌*◌, ◌≤◌, ◌<◌, IfOk, OnOk, [], ◌∷◌, ◌++◌, All, length};
ghost use Rattle.zone_model.specs.Replies.{descriptors};
ghost use Rattle.drive_rules.specs.Reports.{bytes_of_all, changed_page};
ghost use Rattle.zone_model.specs.Sessions.{IsAct, own_order, reply_part, replies_bytes, result_bytes};
ghost use Rattle.solo_drive.specs.Drives.{history, changed_zones, entries_for, bytes_for};
ghost use Rattle.zns_program.specs.Sessions.{IsOwnResult};
ghost use Rattle.zns_program.specs.Serving.{IsReply, AreReplies};

use session_file::{ResultFile, Session, write_result};
use solo_drive::Solo;
use sqe_codec::reply_len;
use std::alloc::Global;
use std::mem::forget;
use zns_io::{Bytes, NoMemory};
use zone_model::{Act, Replies, Reply};

/// Serves one act.
pub fn serve_act(alloc: Global, drive: &mut Solo, act: Act) -> Result<Reply, NoMemory>
    requires spare { 0 < drive.old.spare }
    requires act { IsAct drive.old.geometry act }
    ensures acts { OnOk result (drive.new.acts ≡ drive.old.acts ++ act ∷ []) }
    ensures spare { OnOk result (drive.new.spare + 1 ≡ drive.old.spare) }
    ensures geometry { drive.new.geometry ≡ drive.old.geometry }
    ensures reply { IfOk result (IsReply drive.old.geometry (history drive.old) act) }
{
    let Act {
        queue,
        sqe,
        payload,
    } = act;
    let len = reply_len(drive.geometry(), queue == 0, &sqe);
    let mut out = vec![in alloc; 0; len as usize]?;
    let posted = drive.submit(queue, sqe, payload, &mut out);
    out.truncate(posted.len as usize);
    Ok(Reply {
        entries: posted.entries,
        read: Bytes::from_vec(out),
    })
}

// Grows `room` to at least `len` bytes.
fn make_room(room: &mut Vec<u8>, len: usize) -> Result<(), NoMemory>
    ensures { OnOk result (len ≤ length room.new.items) }
{
    if room.len() < len {
        room.resize(len, 0)?;
    }
    Ok(())
}

// Serves one act, and appends its reply to a result. What it reads goes into `room` first, which is
// reused for each act.
fn serve_into(
    drive: &mut Solo,
    act: Act,
    room: &mut Vec<u8>,
    file: &mut ResultFile,
) -> Result<(), NoMemory>
    requires spare { 0 < drive.old.spare }
    requires act { IsAct drive.old.geometry act }
    ensures acts { OnOk result (drive.new.acts ≡ drive.old.acts ++ act ∷ []) }
    ensures spare { OnOk result (drive.new.spare + 1 ≡ drive.old.spare) }
    ensures geometry { drive.new.geometry ≡ drive.old.geometry }
    ensures file { OnOk result (file.new
        ≡ file.old ++ reply_part (entries_for drive.old act) (bytes_for drive.old act)) }
{
    let Act {
        queue,
        sqe,
        payload,
    } = act;
    make_room(room, reply_len(drive.geometry(), queue == 0, &sqe) as usize)?;
    let posted = drive.submit(queue, sqe, payload, room);
    file.put(posted.entries.as_slice(), &room[..posted.len as usize])
}

// Serves acts in order, and appends their replies to a result.
fn serve_acts(
    alloc: Global,
    drive: &mut Solo,
    acts: Vec<Act>,
    file: &mut ResultFile,
) -> Result<(), NoMemory>
    requires fresh { drive.old.acts ≡ [] }
    requires room { drive.old.spare ≡ length acts.items }
    requires acts { All (IsAct drive.old.geometry) acts.items }
    ensures acts { OnOk result (drive.new.acts ≡ acts.items) }
    ensures geometry { drive.new.geometry ≡ drive.old.geometry }
    ensures file { OnOk result (file.new
        ≡ file.old ++ replies_bytes drive.old.geometry [] acts.items) }
{
    let mut room = Vec::new(alloc);
    for act in acts {
        serve_into(drive, act, &mut room, file)?;
    }
    Ok(())
}

/// The descriptors of all zones of a drive.
pub fn descriptors_of(alloc: Global, drive: &Solo) -> Result<Vec<u8>, NoMemory>
    ensures { IfOk result
        (λ v. v.items ≡ bytes_of_all (descriptors drive.now.geometry (history drive.now))) }
{
    let zones = drive.geometry().fields().zones as usize;
    let mut out = vec![in alloc; 0; 64 * zones]?;
    drive.descriptors(&mut out);
    Ok(out)
}

/// The page of a drive's changed zones.
pub fn page_of(alloc: Global, drive: &Solo) -> Result<Vec<u8>, NoMemory>
    ensures { IfOk result
        (λ v. v.items ≡ changed_page drive.now.geometry (changed_zones drive.now)) }
{
    let mut out = vec![in alloc; 0; 4096]?;
    drive.page(&mut out);
    Ok(out)
}

// The result file of a drive that served acts, by their replies.
pub(crate) fn result_of(alloc: Global, drive: &Solo, replies: &Replies) -> Result<Bytes, NoMemory>
    requires { AreReplies drive.now.geometry drive.now.acts replies.now.replies }
    ensures { IfOk result
        (λ b. b ≡ result_bytes drive.now.geometry (own_order drive.now.acts) drive.now.acts) }
{
    let descriptors = descriptors_of(alloc, drive)?;
    let page = page_of(alloc, drive)?;
    write_result(alloc, drive.journal(), replies, &descriptors, &page)
}

/// The whole result file of a session, served in the order of its file.
pub fn serve(alloc: Global, session: Session) -> Result<Bytes, NoMemory>
    ensures { IfOk result (IsOwnResult session) }
{
    let (geometry, acts) = session.into_parts();
    let mut drive = Solo::new(alloc, geometry, acts.len())?;
    let mut file = ResultFile::new(alloc, &acts)?;
    serve_acts(alloc, &mut drive, acts.into_vec(), &mut file)?;
    let descriptors = descriptors_of(alloc, &drive)?;
    let page = page_of(alloc, &drive)?;
    // The program ends soon, and gives back all memory at once.
    forget(drive);
    file.finish(&descriptors, &page)
}
