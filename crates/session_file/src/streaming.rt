ghost use Rattle.std.specs.Prelude.{◌≡◌, ◌+◌, ◌<◌, ◌≤◌, ◌^◌, [], ◌++◌, true, length, IfOk, OnErr, IsErrOf, IfSome, All};
ghost use Rattle.std.specs.List.{flat_map};
ghost use Rattle.std.specs.Io.KnownBytes.{IsAtEnd};
ghost use Rattle.zns_io.specs.Faults.{Rose};
ghost use Rattle.zns_io.specs.Reading.{ReadsFrontUpTo};
ghost use Rattle.zone_model.specs.Sessions.{IsAct, HasWidths, header_bytes, record_bytes, sent_bytes, asked_bytes, spelling};
ghost use Rattle.session_file.specs.Streams.{GoesOn, StopsWithin, IsNext, taken_bytes, Begins, BeginsAfter, Gives};

use crate::feed::{Feed, PIECE};
use crate::feed_err::FeedErr;
use crate::given::{Begun, First, Given};
use crate::header::{HEADER_LEN, Header, read_header};
use crate::records::{Progress, RECORD_LEN, check_record, read_act};
use crate::session::Session;
use crate::writing::{put_acts, put_header, write};
use std::alloc::Global;
use zns_io::{Bytes, NoMemory, Source};
use zns_types::Geometry;
use zone_model::{Act, Acts};

// The most bytes that a record can need: no session is longer than this.
const MOST_HELD: usize = 1 << 28;

// The most bytes held before the header is taken, so that at most one piece follows it.
const MOST_FIRST: usize = HEADER_LEN + PIECE;

/// A record that was taken: its act, and how far the session is read after it.
#[derive(Drop)]
pub struct Taken {
    pub act: Act,
    pub after: Progress,
}

// The records that were taken, the bytes of host data in them, and whether they are all of the
// session's.
#[derive(Drop)]
struct Records {
    acts: Acts,
    sent: u64,
    all: bool,
}

// Takes the next record. Returns none if what comes next breaks a rule of records.
fn take_record<S: Source>(
    alloc: Global,
    source: &mut S,
    feed: &mut Feed,
    g: &Geometry,
    before: Progress,
) -> Result<Option<Taken>, FeedErr>
    requires held { length feed.old ≤ 2 ^ 28 + 65536 }
    requires sent { before.sent ≤ 2 ^ 27 }
    requires asked { before.asked ≤ 2 ^ 27 }
    ensures goes_on { IfOk result (λ t. GoesOn
        (S.left source.old) (S.left source.new) feed.old (taken_bytes t ++ feed.new)) }
    ensures stops { OnErr result
        (GoesOn (S.left source.old) (S.left source.new) feed.old feed.new) }
    ensures next { IfOk result (λ t. IfSome t (IsNext g.now.fields before)) }
    ensures held { length feed.new ≤ 2 ^ 28 + 65536 }
    ensures fault { IsErrOf result FeedErr.Failed
        → Rose (S.faults source.old) (S.faults source.new) }
    ensures never_falls { S.faults source.old ≤ S.faults source.new }
{
    let start = Progress { at: 0, ..before };
    while feed.rest().len() < MOST_HELD {
        if let Ok(after) = check_record(g, feed.rest(), start) {
            let act = read_act(alloc, feed.rest(), 0, after.at)?;
            feed.skip(after.at);
            return Ok(Some(Taken { act, after }));
        }
        if !feed.more(alloc, source, PIECE)? {
            return Ok(None);
        }
    }
    Ok(None)
}

// Takes `commands` records, or those before the first that breaks a rule.
fn take_records<S: Source>(
    alloc: Global,
    source: &mut S,
    feed: &mut Feed,
    g: &Geometry,
    commands: u32,
) -> Result<Records, FeedErr>
    requires held { length feed.old ≤ 2 ^ 28 + 65536 }
    requires few { commands ≤ 262144 }
    ensures goes_on { IfOk result (λ r. GoesOn (S.left source.old) (S.left source.new)
        feed.old (flat_map record_bytes r.acts.acts ++ feed.new)) }
    ensures stops { OnErr result
        (StopsWithin (S.left source.old) (S.left source.new) feed.old) }
    ensures acts { IfOk result (λ r. All (IsAct g.now.fields) r.acts.acts) }
    ensures few_sent { IfOk result (λ r. sent_bytes r.acts.acts ≤ 2 ^ 27) }
    ensures sent { IfOk result (λ r. r.sent ≡ sent_bytes r.acts.acts) }
    ensures asked { IfOk result (λ r. asked_bytes g.now.fields r.acts.acts ≤ 2 ^ 27) }
    ensures most { IfOk result (λ r. length r.acts.acts ≤ commands) }
    ensures all { IfOk result (λ r. r.all ≡ true → length r.acts.acts ≡ commands) }
    ensures held { length feed.new ≤ 2 ^ 28 + 65536 }
    ensures fault { IsErrOf result FeedErr.Failed
        → Rose (S.faults source.old) (S.faults source.new) }
    ensures never_falls { S.faults source.old ≤ S.faults source.new }
{
    let mut acts = Acts::new(alloc, commands)?;
    let mut before = Progress {
        at: 0,
        sent: 0,
        asked: 0,
    };
    for _number in 0..commands {
        match take_record(alloc, source, feed, g, before)? {
            Some(Taken { act, after }) => {
                acts.push(act);
                before = after;
            }
            None => {
                let sent = before.sent;
                return Ok(Records {
                    acts,
                    sent,
                    all: false,
                });
            }
        }
    }
    let sent = before.sent;
    Ok(Records {
        acts,
        sent,
        all: true,
    })
}

// Rebuilds the bytes that were read: those of the header and the acts, then `rest`.
fn read_bytes(alloc: Global, header: &Header, acts: &Acts, rest: &[u8]) -> Result<Bytes, NoMemory>
    requires acts { All (IsAct header.now.geometry.fields) acts.now.acts }
    requires sent { sent_bytes acts.now.acts ≤ 2 ^ 27 }
    ensures { IfOk result (λ b. b ≡ header_bytes header.now.geometry.fields header.now.commands
        ++ (flat_map record_bytes acts.now.acts ++ rest.now)) }
{
    let mut file = Vec::new(alloc);
    put_header(&mut file, header.geometry.fields(), header.commands)?;
    put_acts(&mut file, acts)?;
    file.extend_from_slice(rest)?;
    Ok(Bytes::from_vec(file))
}

// Whether nothing is held and the source has ended.
fn has_ended<S: Source>(alloc: Global, source: &mut S, feed: &mut Feed) -> Result<bool, FeedErr>
    ensures goes_on { GoesOn (S.left source.old) (S.left source.new) feed.old feed.new }
    ensures held { length feed.new ≤ length feed.old + 65536 }
    ensures empty { IfOk result (λ ended. ended ≡ true → feed.new ≡ []) }
    ensures end { IfOk result (λ ended. ended ≡ true → IsAtEnd (S.left source.new)) }
    ensures fault { IsErrOf result FeedErr.Failed
        → Rose (S.faults source.old) (S.faults source.new) }
    ensures never_falls { S.faults source.old ≤ S.faults source.new }
{
    if !feed.rest().is_empty() {
        return Ok(false);
    }
    let some = feed.more(alloc, source, PIECE)?;
    Ok(!some)
}

// What a source begins with, once its header was taken.
fn begin_after<S: Source>(
    alloc: Global,
    source: &mut S,
    feed: Feed,
    header: Header,
) -> Result<First, FeedErr>
    requires held { length feed ≤ 65600 }
    requires few { header.commands ≤ 262144 }
    requires widths { HasWidths header.geometry.fields }
    ensures begins { IfOk result (BeginsAfter (S.left source.old) (S.left source.new)
        (header_bytes header.geometry.fields header.commands) feed) }
    ensures stops { OnErr result (StopsWithin (S.left source.old) (S.left source.new) feed) }
    ensures fault { IsErrOf result FeedErr.Failed
        → Rose (S.faults source.old) (S.faults source.new) }
    ensures never_falls { S.faults source.old ≤ S.faults source.new }
{
    let mut rest = feed;
    let records = take_records(alloc, source, &mut rest, &header.geometry, header.commands)?;
    if records.all {
        let len = HEADER_LEN as u64 + RECORD_LEN as u64 * u64::from(header.commands) + records.sent;
        let session = Session::new(header.geometry, records.acts);
        return Ok(First::Session(Begun { session, len, rest }));
    }
    let bytes = read_bytes(alloc, &header, &records.acts, rest.rest())?;
    Ok(First::Other(bytes))
}

/// Reads a source to the end of the session that it begins with, and at most one piece further. The
/// host data of the acts is kept once; the bytes of the session aren't kept. If the source doesn't
/// begin with a session, returns what was read.
pub fn begin_from<S: Source>(alloc: Global, source: &mut S) -> Result<First, FeedErr>
    ensures begins { IfOk result (Begins (S.left source.old) (S.left source.new)) }
    ensures stops { OnErr result
        (ReadsFrontUpTo (S.left source.old) (S.left source.new) (2 ^ 29)) }
    ensures fault { IsErrOf result FeedErr.Failed
        → Rose (S.faults source.old) (S.faults source.new) }
    ensures never_falls { S.faults source.old ≤ S.faults source.new }
{
    let mut feed = Feed::new(alloc);
    feed.fill(alloc, source, HEADER_LEN, MOST_FIRST)?;
    match read_header(feed.rest()) {
        Ok(header) => {
            feed.skip(HEADER_LEN);
            begin_after(alloc, source, feed, header)
        }
        Err(_) => Ok(First::Other(Bytes::of(alloc, feed.rest())?)),
    }
}

// The bytes of a session, and then `rest`.
fn spelled(alloc: Global, session: &Session, rest: &[u8]) -> Result<Bytes, NoMemory>
    ensures { IfOk result (λ b. b ≡ spelling session.now ++ rest.now) }
{
    let mut file = write(alloc, session)?.into_vec();
    file.extend_from_slice(rest)?;
    Ok(Bytes::from_vec(file))
}

/// Reads a source to the end of a session, and to the end of the source if nothing comes after it.
/// The host data of the acts is kept once; the whole input isn't kept. If the source isn't just a
/// session, returns what was read.
pub fn read_from<S: Source>(alloc: Global, source: &mut S) -> Result<Given, FeedErr>
    ensures gives { IfOk result (Gives (S.left source.old) (S.left source.new)) }
    ensures stops { OnErr result
        (ReadsFrontUpTo (S.left source.old) (S.left source.new) (2 ^ 29)) }
    ensures fault { IsErrOf result FeedErr.Failed
        → Rose (S.faults source.old) (S.faults source.new) }
    ensures never_falls { S.faults source.old ≤ S.faults source.new }
{
    let (session, mut rest) = match begin_from(alloc, source)? {
        First::Session(begun) => (begun.session, begun.rest),
        First::Other(bytes) => return Ok(Given::Front(bytes)),
    };
    if has_ended(alloc, source, &mut rest)? {
        return Ok(Given::Whole(session));
    }
    Ok(Given::Front(spelled(alloc, &session, rest.rest())?))
}
