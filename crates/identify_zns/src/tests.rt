use super::*;
use std::test::Fail;
use zns_types::{Geometry, GeometryFields, SMALL_DRIVE};

#[test]
fn pages_hold_their_fields(rt: HostRuntime) -> Result<(), Fail> {
    let g = Geometry::new(SMALL_DRIVE)?;
    let mut page = vec![in rt.alloc(); 0xff; 4096]?;
    let out = page.as_mut_slice();
    let rows = [
        (
            0x00,
            0x02,
            0,
            10,
            [0, 1, 0, 0, 0, 0, 0, 0, 192, 0].as_slice(),
        ),
        (0x00, 0x00, 128, 132, [0, 0, 9, 0].as_slice()),
        (
            0x01,
            0x00,
            512,
            520,
            [0x66, 0x44, 0, 0, 1, 0, 0, 0].as_slice(),
        ),
        (
            0x05,
            0x02,
            0,
            12,
            [0, 0, 2, 0, 2, 0, 0, 0, 1, 0, 0, 0].as_slice(),
        ),
        (0x05, 0x02, 44, 53, [1, 0, 0, 0, 4, 0, 8, 0, 1].as_slice()),
        (
            0x05,
            0x02,
            2816,
            2825,
            [64, 0, 0, 0, 0, 0, 0, 0, 0].as_slice(),
        ),
    ];
    for (cns, csi, place, end, bytes) in rows {
        assert_eq!(rt; fill(cns, csi, &g, out), Ok(()));
        assert_eq!(rt; out.get(place..end), Some(bytes), "at {place} of {cns}");
    }
    assert_eq!(rt; fill(0x05, 0x00, &g, out), Err(IdErr::Unknown));
    Ok(())
}

#[test]
fn no_limit_is_all_ones(rt: HostRuntime) -> Result<(), Fail> {
    let mut fields = SMALL_DRIVE;
    fields.active_limit = 0;
    fields.open_limit = 0;
    let g = Geometry::new(fields)?;
    let mut page = vec![in rt.alloc(); 0; 4096]?;
    assert_eq!(rt; fill(0x05, 0x02, &g, &mut page), Ok(()));
    let shown = ZonedPage {
        cross: false,
        mar: u32::MAX,
        mor: u32::MAX,
        windows: 1,
        granule: 4,
        window: 8,
        explicit: true,
        zone_size: 64,
    };
    assert_eq!(rt; read_zoned(&page), shown);
    Ok(())
}

#[test]
fn the_zoned_controller_shows_one_byte(rt: HostRuntime) -> Result<(), Fail> {
    let mut page = vec![in rt.alloc(); 0xff; 4096]?;
    for zasl in [0, 3, 16] {
        let g = Geometry::new(GeometryFields {
            zasl,
            ..SMALL_DRIVE
        })?;
        assert_eq!(rt; fill(0x06, 0x02, &g, &mut page), Ok(()));
        let wanted = Some((&zasl, [0; 4095].as_slice()));
        assert_eq!(rt; page.split_first(), wanted);
    }
    Ok(())
}
