ghost use Rattle.std.specs.Prelude.{◌≡◌, ◌<◌, length};

use super::*;
use arrayvec::ArrayVec;
use cqe_codec::Cqe;
use sqe_codec::{Cmd, write};
use std::process::Abort;
use std::test::Fail;
use zns_io::Bytes;
use zns_types::{Code, Geometry, GeometryFields, SMALL_DRIVE};
use zone_model::Act;

// Two queues of two entries each.
const FIELDS: GeometryFields = GeometryFields {
    active_limit: 0,
    open_limit: 0,
    windows: 0,
    granule: 0,
    window: 0,
    depth: 2,
    ..SMALL_DRIVE
};

const DONE: Code = Code::SUCCESS;

fn entry(head: u16, sqid: u16, cid: u16, phase: bool, code: Code) -> Cqe {
    Cqe {
        head,
        sqid,
        cid,
        phase,
        code,
        dnr: code.dnr(),
        ..Cqe::default()
    }
}

// Posts one act of one of two queues.
fn post(
    rt: &impl Abort,
    tallies: &mut Tallies,
    queue: u16,
    cid: u16,
    outcome: Outcome,
) -> Result<ArrayVec<Cqe, 2>, Fail>
    requires all { length tallies.old ≡ 2 }
    requires queue { queue < 2 }
    ensures all { length tallies.new ≡ 2 }
{
    let g = Geometry::new(FIELDS)?;
    let own = tallies.of(queue);
    assert!(rt; own.acts < 99 && own.entries < 99);
    let admin = tallies.of(0);
    assert!(rt; admin.acts < 99 && admin.entries < 99);
    Ok(tallies.post(&g, queue, cid, &outcome))
}

#[test]
fn each_queue_has_its_own_heads_and_phases(rt: HostRuntime) -> Result<(), Fail> {
    let mut tallies = Tallies::new(rt.alloc(), 2)?;
    let full = Code::ZONE_FULL;
    let rows = [
        (1, 10, DONE, 1, true),
        (1, 11, DONE, 0, true),
        (1, 12, full, 1, false),
        (0, 10, DONE, 1, true),
        (1, 13, DONE, 0, false),
        (1, 14, full, 1, true),
        (0, 11, DONE, 0, true),
    ];
    for (queue, cid, code, head, phase) in rows {
        let entries = post(&rt, &mut tallies, queue, cid, Outcome::refused(code))?;
        let own = entry(head, queue, cid, phase, code);
        assert_eq!(rt; entries.as_slice(), [own].as_slice());
    }
    Ok(())
}

#[test]
fn the_event_comes_after_the_excursion(rt: HostRuntime) -> Result<(), Fail> {
    let mut tallies = Tallies::new(rt.alloc(), 2)?;
    let waits = Outcome {
        waits: true,
        ..Outcome::done()
    };
    let none = post(&rt, &mut tallies, 0, 3, waits)?;
    assert!(rt; none.is_empty());
    let first = post(&rt, &mut tallies, 0, 5, Outcome::done())?;
    assert_eq!(rt; first.as_slice(), [entry(0, 0, 5, true, DONE)].as_slice());
    let told = Outcome {
        event: Some(3),
        ..Outcome::done()
    };
    let both = post(&rt, &mut tallies, 0, 6, told)?;
    let event = Cqe {
        dw0: 0x00bf_ef02,
        dw1: 1,
        ..entry(1, 0, 3, false, DONE)
    };
    let own = entry(1, 0, 6, true, DONE);
    assert_eq!(rt; both.as_slice(), [own, event].as_slice());
    Ok(())
}

#[test]
fn a_book_gains_each_act(rt: HostRuntime) -> Result<(), Fail> {
    let g = Geometry::new(FIELDS)?;
    let mut book = Book::new(rt.alloc(), &g, 3)?;
    let act = Act {
        queue: 1,
        sqe: write(&Cmd::Flush { nsid: 2 }, 9),
        payload: Bytes::empty(rt.alloc()),
    };
    let posted = book.post(&g, act, Outcome::refused(Code::INVALID_NAMESPACE));
    let own = entry(1, 1, 9, true, Code::INVALID_NAMESPACE);
    assert_eq!(rt; posted.entries.as_slice(), [own].as_slice());
    assert_eq!(rt; posted.len, 0);
    assert_eq!(rt; book.journal.len(), 1);
    assert_eq!(rt; book.journal.spare(), 2);
    book.events.enable(true);
    assert_eq!(rt; book.note_excursion(2), None);
    Ok(())
}
