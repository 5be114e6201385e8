ghost use Rattle.std.specs.Prelude.{◌≤◌, ◌^◌, ◌++◌, ◌≡◌, ℕ, List, Option, length, IfOk, IfErr};
ghost use Rattle.std.specs.Io.KnownBytes.{Consumes};
ghost use Rattle.zns_program.specs.declared.task.Task.{Task};
ghost use Rattle.zns_program.specs.Tasks.{MakesSession};
ghost use Rattle.zns_program.specs.Making.{GivesInput, GivesSession, GivesOutput, EndsBefore};
ghost use Rattle.zns_program.specs.Answers.{IsBegun};

use crate::plain::GREATEST_INPUT;
use crate::serving::serve;
use crate::showing::show;
use crate::status::Status;
use crate::tail::Tail;
use crate::task::Task;
use session_file::{Feed, FeedErr, First, Given, Session, begin_from, read, read_from, read_front};
use std::alloc::Global;
use zns_io::{Bytes, NoMemory, Source, read_all};

// Joins `front` and `rest`.
fn joined(front: Bytes, rest: &[u8]) -> Result<Bytes, NoMemory>
    ensures { IfOk result (λ b. b ≡ front ++ rest.now) }
{
    let mut all = front.into_vec();
    all.extend_from_slice(rest)?;
    Ok(Bytes::from_vec(all))
}

/// The whole input: `front`, which was read already, and all that the source still gives.
pub fn input_after<S: Source>(alloc: Global, front: Bytes, source: &mut S) -> Result<Bytes, Status>
    requires { length front ≤ 2 ^ 29 }
    ensures input { (t : Task) (first : Option (List ℕ)) → ¬ (MakesSession t)
        → Consumes first (S.left source.old) front
        → GivesInput t first (S.left source.new)
        (S.faults source.old) (S.faults source.new) result }
    ensures never_falls { S.faults source.old ≤ S.faults source.new }
{
    let limit = GREATEST_INPUT - front.as_slice().len() as u64;
    let rest = read_all(alloc, source, limit)?;
    Ok(joined(front, rest.as_slice())?)
}

// The session that an input spells whose front was read already.
fn session_after<S: Source>(alloc: Global, front: Bytes, source: &mut S) -> Result<Session, Status>
    requires { length front ≤ 2 ^ 29 }
    ensures { (first : Option (List ℕ)) → Consumes first (S.left source.old) front
        → GivesSession first (S.left source.new)
        (S.faults source.old) (S.faults source.new) result }
{
    let input = input_after(alloc, front, source)?;
    Ok(read(alloc, input.as_slice())?)
}

/// The session that a source gives. The whole input isn't held, unless it's not a session.
pub fn session_from<S: Source>(alloc: Global, source: &mut S) -> Result<Session, Status>
    ensures { GivesSession (S.left source.old) (S.left source.new)
        (S.faults source.old) (S.faults source.new) result }
{
    match read_from(alloc, source) {
        Ok(Given::Whole(session)) => Ok(session),
        Ok(Given::Front(front)) => session_after(alloc, front, source),
        Err(FeedErr::NoMemory) => Err(Status::NoMemory),
        Err(FeedErr::Failed) => Err(Status::ReadFault),
    }
}

/// The result of the session that a source gives.
pub fn one_from<S: Source>(alloc: Global, source: &mut S) -> Result<Bytes, Status>
    ensures { GivesOutput Task.One (S.left source.old) (S.left source.new)
        (S.faults source.old) (S.faults source.new) result }
{
    let session = session_from(alloc, source)?;
    Ok(serve(alloc, session)?)
}

/// The text that shows the session that a source gives.
pub fn text_from<S: Source>(alloc: Global, source: &mut S) -> Result<Bytes, Status>
    ensures { GivesOutput Task.Show (S.left source.old) (S.left source.new)
        (S.faults source.old) (S.faults source.new) result }
{
    let session = session_from(alloc, source)?;
    Ok(show(alloc, &session)?)
}

// The session that an input begins with whose front was read already, and the rest of the input.
fn begun_after<S: Source>(
    alloc: Global,
    front: Bytes,
    source: &mut S,
) -> Result<(Session, Tail), Status>
    requires { length front ≤ 2 ^ 29 }
    ensures begun { (first : Option (List ℕ)) → Consumes first (S.left source.old) front
        → IfOk result (λ r. IsBegun first (S.left source.new) r.0 r.1) }
    ensures ends { (first : Option (List ℕ)) → Consumes first (S.left source.old) front
        → IfErr result (EndsBefore Task.Check first (S.left source.new)
        (S.faults source.old) (S.faults source.new)) }
    ensures never_falls { S.faults source.old ≤ S.faults source.new }
{
    let input = input_after(alloc, front, source)?;
    let (session, at) = read_front(alloc, input.as_slice())?;
    let mut rest = Feed::from_vec(input.into_vec());
    rest.skip(at as usize);
    Ok((session, Tail::new(rest, at)))
}

/// The session that a source begins with, and the rest of the input.
pub fn begun_from<S: Source>(alloc: Global, source: &mut S) -> Result<(Session, Tail), Status>
    ensures begun { IfOk result (λ r. IsBegun (S.left source.old) (S.left source.new) r.0 r.1) }
    ensures ends { IfErr result (EndsBefore Task.Check (S.left source.old) (S.left source.new)
        (S.faults source.old) (S.faults source.new)) }
    ensures never_falls { S.faults source.old ≤ S.faults source.new }
{
    match begin_from(alloc, source) {
        Ok(First::Session(begun)) => Ok((begun.session, Tail::new(begun.rest, begun.len))),
        Ok(First::Other(front)) => begun_after(alloc, front, source),
        Err(FeedErr::NoMemory) => Err(Status::NoMemory),
        Err(FeedErr::Failed) => Err(Status::ReadFault),
    }
}
