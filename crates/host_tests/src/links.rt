//! A link of a crate above the library.
ghost use Rattle.std.specs.Prelude.{None};

use host_library::{Host, HostErr, Link, Stage};
use sqe_codec::Sqe;
use std::test::Fail;
use zns_io::Bytes;
use zns_types::{Geometry, SMALL_DRIVE};

// A link that doesn't tell its history, and answers with an entry whose More bit is set.
#[derive(Drop)]
struct TornLink {
    geometry: Geometry,
}

impl Link for TornLink {
    ghost geometry = { λ link. link.geometry.fields };

    ghost history = { λ _. None };

    ghost faults = { λ _. 0 };

    ghost sure = { λ _. 0 };

    ghost step = { λ _ _ _ _ _ _. Unit {0} };

    fn send(
        &mut self,
        _queue: u16,
        _sqe: &Sqe,
        _payload: Bytes,
        _out: &mut [u8],
    ) -> Result<([u8; 16], u32), Bytes> {
        let mut entry = [0; 16];
        entry[15] = 0x40;
        Ok((entry, 0))
    }
}

#[test]
fn a_torn_entry_is_told(rt: HostRuntime) -> Result<(), Fail> {
    let g = Geometry::new(SMALL_DRIVE)?;
    let mut host = Host::new(rt.alloc(), TornLink { geometry: g }, g)?;
    let mut out = [0; 128];
    assert!(rt; host.report(0).is_ok());
    assert!(rt; matches!(host.pump(&mut out), Err(HostErr::Torn(64))));
    assert!(rt; matches!(host.pump(&mut out), Ok(None)));
    assert_eq!(rt; host.shadow(0).stage, Stage::Unknown);
    Ok(())
}
