ghost use Rattle.std.specs.Prelude.{◌≡◌, ◌+◌, ◌*◌, ◌≤◌, ◌<◌, ◌^◌, [], IfOk, IfErr, OnOk, All, length};
ghost use Rattle.std.specs.Io.KnownBytes.{IsAtEnd};
ghost use Rattle.zone_model.specs.Sessions.{IsAct, IsSession, IsOrder, replies_bytes, order_bytes};
ghost use Rattle.session_file.specs.Results.{IsShort, part_of};
ghost use Rattle.zns_program.specs.Tails.{StaysIn, ComeNext, ComeOthers, ComeOtherwise, StopsBy};
ghost use Rattle.zns_program.specs.Checking.{drive_bytes, bytes_after_order};
ghost use Rattle.zns_program.specs.Making.{GivesOutput};
ghost use Rattle.zns_program.specs.declared.task.Task.TheVariants as the_task;
ghost use Rattle.zns_program.specs.Answers.{Answers, IsConfirmedBy, CallsFrom};

use crate::compare_err::CompareErr;
use crate::comparing::{Difference, compare, compare_reply};
use crate::merging::in_order;
use crate::serving::{descriptors_of, page_of, serve_act};
use crate::status::Status;
use crate::streaming::begun_from;
use crate::tail::Tail;
use session_file::{Order, Session, read_order_after};
use solo_drive::Solo;
use std::alloc::Global;
use std::mem::forget;
use zns_io::{Bytes, Source};
use zone_model::{Act, Reply};

// The output if a result is that of its session.
const SAME: &[u8] = b"same\n";

// The length of a result's bytes before the queues of its order.
const FRONT_LEN: usize = 12;

// The length of a reply without its entries and the bytes that it read.
const NUMBERS_LEN: usize = 6;

// The length of an entry in bytes.
const ENTRY_LEN: usize = 16;

// The length in bytes of an order of `acts` acts: the front, and two bytes for each queue.
fn order_len(acts: u32) -> usize
    ensures { result ≡ 12 + 2 * acts }
{
    FRONT_LEN + 2 * acts as usize
}

// The length of a reply in bytes.
fn reply_len(reply: &Reply) -> usize
    ensures { result ≡ length (part_of reply.now) }
{
    NUMBERS_LEN + ENTRY_LEN * reply.entries.len() + reply.read.as_slice().len()
}

// A difference by its offset in the input, from its offset in the held bytes.
fn differs(tail: &Tail, difference: Difference) -> CompareErr
    requires { difference.offset ≤ length tail.now.held }
    ensures { result ≡ CompareErr.Differs (tail.now.at + difference.offset) }
{
    CompareErr::Differs {
        offset: tail.at() + difference.offset as u64,
    }
}

// Compares bytes with what comes next in the input, and takes it.
fn take_bytes<S: Source>(
    alloc: Global,
    source: &mut S,
    tail: &mut Tail,
    made: &[u8],
) -> Result<(), CompareErr>
    ensures stays { StaysIn (S.left source.old) (S.left source.new) tail.old tail.new }
    ensures same { OnOk result (ComeNext (S.left source.old) tail.old tail.new made.now) }
    ensures stops { IfErr result (StopsBy (S.faults source.old) (S.faults source.new) tail.new
        (ComeOthers (S.left source.old) tail.old made.now)) }
    ensures never_falls { S.faults source.old ≤ S.faults source.new }
{
    tail.fill(alloc, source, made.len())?;
    match compare(tail.held(), 0, made) {
        Ok(end) => {
            tail.skip(end);
            Ok(())
        }
        Err(difference) => Err(differs(tail, difference)),
    }
}

// Compares a reply with what comes next in the input, and takes it.
fn take_reply<S: Source>(
    alloc: Global,
    source: &mut S,
    tail: &mut Tail,
    reply: &Reply,
) -> Result<(), CompareErr>
    requires { IsShort reply.now }
    ensures stays { StaysIn (S.left source.old) (S.left source.new) tail.old tail.new }
    ensures same { OnOk result (ComeNext (S.left source.old) tail.old tail.new
        (part_of reply.now)) }
    ensures stops { IfErr result (StopsBy (S.faults source.old) (S.faults source.new) tail.new
        (ComeOthers (S.left source.old) tail.old (part_of reply.now))) }
    ensures never_falls { S.faults source.old ≤ S.faults source.new }
{
    tail.fill(alloc, source, reply_len(reply))?;
    match compare_reply(tail.held(), 0, reply) {
        Ok(end) => {
            tail.skip(end);
            Ok(())
        }
        Err(difference) => Err(differs(tail, difference)),
    }
}

// Serves acts in order, and compares each reply with what comes next in the input.
fn take_replies<S: Source>(
    alloc: Global,
    source: &mut S,
    tail: &mut Tail,
    drive: &mut Solo,
    acts: Vec<Act>,
) -> Result<(), CompareErr>
    requires fresh { drive.old.acts ≡ [] }
    requires room { drive.old.spare ≡ length acts.items }
    requires acts { All (IsAct drive.old.geometry) acts.items }
    ensures acts { OnOk result (drive.new.acts ≡ acts.items) }
    ensures geometry { drive.new.geometry ≡ drive.old.geometry }
    ensures stays { StaysIn (S.left source.old) (S.left source.new) tail.old tail.new }
    ensures same { OnOk result (ComeNext (S.left source.old) tail.old tail.new
        (replies_bytes drive.old.geometry [] acts.items)) }
    ensures stops { IfErr result (StopsBy (S.faults source.old) (S.faults source.new) tail.new
        (ComeOthers (S.left source.old) tail.old
        (replies_bytes drive.old.geometry [] acts.items))) }
    ensures never_falls { S.faults source.old ≤ S.faults source.new }
{
    for act in acts {
        let reply = serve_act(alloc, drive, act)?;
        take_reply(alloc, source, tail, &reply)?;
    }
    Ok(())
}

// Compares the state of a drive after its acts with what comes next in the input.
fn take_drive<S: Source>(
    alloc: Global,
    source: &mut S,
    tail: &mut Tail,
    drive: &Solo,
) -> Result<(), CompareErr>
    ensures stays { StaysIn (S.left source.old) (S.left source.new) tail.old tail.new }
    ensures same { OnOk result (ComeNext (S.left source.old) tail.old tail.new
        (drive_bytes drive.now.geometry drive.now.acts)) }
    ensures stops { IfErr result (StopsBy (S.faults source.old) (S.faults source.new) tail.new
        (ComeOthers (S.left source.old) tail.old
        (drive_bytes drive.now.geometry drive.now.acts))) }
    ensures never_falls { S.faults source.old ≤ S.faults source.new }
{
    let descriptors = descriptors_of(alloc, drive)?;
    take_bytes(alloc, source, tail, &descriptors)?;
    let page = page_of(alloc, drive)?;
    take_bytes(alloc, source, tail, &page)
}

// Compares what a session gives in an order, without the order itself, with what comes next in the
// input.
fn take_session<S: Source>(
    alloc: Global,
    source: &mut S,
    tail: &mut Tail,
    session: Session,
    order: &Order,
) -> Result<(), CompareErr>
    requires { IsOrder session.acts order.now }
    ensures stays { StaysIn (S.left source.old) (S.left source.new) tail.old tail.new }
    ensures same { OnOk result (ComeNext (S.left source.old) tail.old tail.new
        (bytes_after_order session order.now)) }
    ensures stops { IfErr result (StopsBy (S.faults source.old) (S.faults source.new) tail.new
        (ComeOthers (S.left source.old) tail.old (bytes_after_order session order.now))) }
    ensures never_falls { S.faults source.old ≤ S.faults source.new }
{
    let (geometry, acts) = session.into_parts();
    let room = acts.len();
    let acts = in_order(alloc, geometry.fields.queues, acts.into_vec(), order)?;
    let mut drive = Solo::new(alloc, geometry, room)?;
    take_replies(alloc, source, tail, &mut drive, acts)?;
    let same = take_drive(alloc, source, tail, &drive);
    // The program ends soon, which frees all memory at once.
    forget(drive);
    same
}

// Compares what a session gives in an order, without the order itself, with the rest of the input.
fn take_rest<S: Source>(
    alloc: Global,
    source: &mut S,
    tail: &mut Tail,
    session: Session,
    order: &Order,
) -> Result<(), CompareErr>
    requires { IsOrder session.acts order.now }
    ensures stays { StaysIn (S.left source.old) (S.left source.new) tail.old tail.new }
    ensures same { OnOk result (ComeNext (S.left source.old) tail.old tail.new
        (bytes_after_order session order.now)) }
    ensures all { OnOk result (tail.new.held ≡ []) }
    ensures end { OnOk result (IsAtEnd (S.left source.new)) }
    ensures short { OnOk result (tail.new.at ≤ 2 ^ 29) }
    ensures stops { IfErr result (StopsBy (S.faults source.old) (S.faults source.new) tail.new
        (ComeOtherwise (S.left source.old) tail.old (bytes_after_order session order.now))) }
    ensures never_falls { S.faults source.old ≤ S.faults source.new }
{
    take_session(alloc, source, tail, session, order)?;
    tail.fill(alloc, source, 1)?;
    if !tail.held().is_empty() {
        return Err(CompareErr::Differs { offset: tail.at() });
    }
    Ok(())
}

// Reads and takes the order of a session's acts that comes next in the input.
fn take_order<S: Source>(
    alloc: Global,
    source: &mut S,
    tail: &mut Tail,
    session: &Session,
) -> Result<Order, Status>
    ensures stays { StaysIn (S.left source.old) (S.left source.new) tail.old tail.new }
    ensures session { IsSession session.now }
    ensures order { IfOk result (IsOrder session.now.acts) }
    ensures named { IfOk result (λ order. ComeNext (S.left source.old) tail.old tail.new
        (order_bytes order)) }
    ensures stops { IfErr result (Answers (S.faults source.old) (S.faults source.new)
        (CallsFrom (S.left source.old) tail.old session.now)) }
    ensures never_falls { S.faults source.old ≤ S.faults source.new }
{
    tail.fill(alloc, source, order_len(session.acts().len()))?;
    let order = read_order_after(alloc, tail.held(), tail.at(), session)?;
    tail.skip(order_len(order.len()));
    Ok(order)
}

// Checks the rest of the input against what a session gives in the order that comes next.
fn check_rest<S: Source>(
    alloc: Global,
    source: &mut S,
    tail: &mut Tail,
    session: Session,
) -> Result<(), Status>
    ensures stays { StaysIn (S.left source.old) (S.left source.new) tail.old tail.new }
    ensures same { OnOk result (IsConfirmedBy (S.left source.old) (S.left source.new)
        tail.old tail.new session) }
    ensures stops { IfErr result (Answers (S.faults source.old) (S.faults source.new)
        (CallsFrom (S.left source.old) tail.old session)) }
    ensures never_falls { S.faults source.old ≤ S.faults source.new }
{
    let order = take_order(alloc, source, tail, &session)?;
    take_rest(alloc, source, tail, session, &order)?;
    Ok(())
}

/// Checks that a source gives a session and then its result in the order that the result names.
/// Returns the text that says so. Neither is held as a whole.
pub fn check_from<S: Source>(alloc: Global, source: &mut S) -> Result<Bytes, Status>
    ensures { GivesOutput the_task.Check (S.left source.old) (S.left source.new)
        (S.faults source.old) (S.faults source.new) result }
{
    let (session, mut tail) = begun_from(alloc, source)?;
    match check_rest(alloc, source, &mut tail, session) {
        Ok(()) => Ok(Bytes::of(alloc, SAME)?),
        Err(status) => {
            // The rest may still be too long or unreadable, and that is reported first.
            tail.drain(alloc, source)?;
            Err(status)
        }
    }
}
