ghost use Rattle.std.specs.Prelude.{◌≡◌, ◌<◌, ◌≤◌};
ghost use Rattle.std.specs.List.{All};

use super::*;
use byteorder::{ByteOrder, LittleEndian};
use std::test::Fail;
use zns_types::{Geometry, GeometryFields};

// 600 zones of `blocks` blocks each.
fn zones_of(blocks: u64) -> GeometryFields
    ensures { result.zones ≡ 600 }
{
    GeometryFields {
        block_exp: 9,
        mdts: 0,
        zasl: 0,
        flags: 0,
        zones: 600,
        zone_size: blocks,
        capacity: 1,
        active_limit: 0,
        open_limit: 0,
        windows: 0,
        granule: 0,
        window: 0,
        queues: 2,
        depth: 64,
    }
}

// A log of the first `zones` zones.
fn noted(zones: u32) -> ChangedLog
    requires few { zones ≤ 600 }
    ensures below { All (λ z. z < 600) result }
{
    let mut log = ChangedLog::new();
    for zone in 0..zones {
        log.note(zone);
    }
    log
}

// The page of a log, where each zone has `blocks` blocks.
fn page_of(log: &ChangedLog, blocks: u64) -> Result<[u8; 4096], Fail>
    requires below { All (λ z. z < 600) log.now }
{
    let g = Geometry::new(zones_of(blocks))?;
    let mut page = [0xaa; 4096];
    log.page(&g, &mut page);
    Ok(page)
}

#[test]
fn zones_that_are_too_many_are_not_listed(rt: HostRuntime) -> Result<(), Fail> {
    let page = page_of(&noted(512), 1)?;
    assert_eq!(rt; &page[..2], [0xff, 0xff].as_slice());
    assert!(rt; page[2..].iter().all(|byte| *byte == 0));
    Ok(())
}

#[test]
fn zones_that_fit_are_listed(rt: HostRuntime) -> Result<(), Fail> {
    let page = page_of(&noted(511), 1)?;
    assert_eq!(rt; &page[..8], [0xff, 0x01, 0, 0, 0, 0, 0, 0].as_slice());
    for zone in 0..511 {
        assert_eq!(rt; LittleEndian::read_u64(&page[8 + 8 * zone..]), zone as u64);
    }
    Ok(())
}

#[test]
fn a_zone_is_listed_once(rt: HostRuntime) -> Result<(), Fail> {
    let mut log = ChangedLog::new();
    log.note(3);
    log.note(1);
    log.note(3);
    let page = page_of(&log, 64)?;
    assert_eq!(rt;
        &page[..16],
        [2, 0, 0, 0, 0, 0, 0, 0, 64, 0, 0, 0, 0, 0, 0, 0].as_slice()
    );
    assert_eq!(rt;
        &page[16..32],
        [192, 0, 0, 0, 0, 0, 0, 0, 0, 0, 0, 0, 0, 0, 0, 0].as_slice()
    );
    log.clear();
    let empty = page_of(&log, 64)?;
    assert!(rt; empty.iter().all(|byte| *byte == 0));
    Ok(())
}

#[test]
fn four_requests_wait(rt: HostRuntime) -> Result<(), Fail> {
    let mut events = Events::new();
    for cid in [7, 5, 9, 3] {
        assert_eq!(rt; events.wait(cid), Waited::Kept);
    }
    assert_eq!(rt; events.wait(4), Waited::Limit);
    assert_eq!(rt; events.fire(), None);
    events.enable(true);
    assert!(rt; events.enabled());
    for cid in [7, 5, 9, 3] {
        assert_eq!(rt; events.fire(), Some(cid));
        assert_eq!(rt; events.fire(), None);
        events.read_clear();
    }
    assert_eq!(rt; events.fire(), None);
    assert_eq!(rt; events.wait(8), Waited::Fired);
    Ok(())
}

#[test]
fn an_event_waits_for_a_request(rt: HostRuntime) -> Result<(), Fail> {
    let mut events = Events::new();
    events.enable(true);
    assert_eq!(rt; events.fire(), None);
    events.enable(false);
    assert_eq!(rt; events.wait(6), Waited::Fired);
    events.enable(true);
    assert_eq!(rt; events.wait(1), Waited::Kept);
    assert_eq!(rt; events.fire(), None);
    events.read_clear();
    assert_eq!(rt; events.fire(), Some(1));
    events.read_clear();
    assert_eq!(rt; events.fire(), None);
    events.read_clear();
    assert_eq!(rt; events.wait(2), Waited::Kept);
    Ok(())
}
