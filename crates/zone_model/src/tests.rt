use super::*;
use arrayvec::ArrayVec;
use cqe_codec::Cqe;
use sqe_codec::Sqe;
use std::alloc::Global;
use std::test::Fail;
use zns_io::Bytes;

// An act with an all-zero entry and no host data.
fn act(alloc: Global, queue: u16) -> Act {
    Act {
        queue,
        sqe: Sqe { bytes: [0; 64] },
        payload: Bytes::empty(alloc),
    }
}

#[test]
fn acts_come_in_order(rt: HostRuntime) -> Result<(), Fail> {
    let alloc = rt.alloc();
    let mut acts = Acts::new(alloc, 3)?;
    assert!(rt; acts.is_empty());
    acts.push(act(alloc, 2));
    acts.push(act(alloc, 1));
    assert_eq!(rt; (acts.len(), acts.spare(), acts.is_empty()), (2, 1, false));
    assert_eq!(rt; (acts.act(0).queue, acts.act(1).queue), (2, 1));
    assert_eq!(rt; acts.into_vec().len(), 2);
    Ok(())
}

#[test]
fn a_journal_tells_queues(rt: HostRuntime) -> Result<(), Fail> {
    let alloc = rt.alloc();
    let mut journal = Journal::new(alloc, 2)?;
    assert!(rt; journal.is_empty());
    journal.push(act(alloc, 2));
    journal.push(act(alloc, 1));
    assert_eq!(rt;
        (journal.len(), journal.spare(), journal.is_empty()),
        (2, 0, false)
    );
    assert_eq!(rt; (journal.queue(0), journal.queue(1)), (2, 1));
    assert_eq!(rt; journal.into_vec().len(), 2);
    Ok(())
}

#[test]
fn replies_come_in_order(rt: HostRuntime) -> Result<(), Fail> {
    let alloc = rt.alloc();
    let mut replies = Replies::new(alloc, 2)?;
    assert!(rt; replies.is_empty());
    for posts in [false, true] {
        let mut entries = ArrayVec::new();
        if posts {
            entries.push(Cqe::default());
        }
        let read = Bytes::empty(alloc);
        if replies.spare() > 0 {
            replies.push(Reply { entries, read });
        }
    }
    assert_eq!(rt;
        (replies.len(), replies.spare(), replies.is_empty()),
        (2, 0, false)
    );
    assert_eq!(rt; replies.reply(1).entries.len(), 1);
    assert_eq!(rt; replies.into_vec().len(), 2);
    Ok(())
}
