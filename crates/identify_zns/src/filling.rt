ghost use Rattle.std.specs.Prelude.{◌≡◌, ◌↔◌, Some, None, Err, OnOk, OnErr, length};
ghost use Rattle.identify_zns.specs.Layout.{page};
ghost use Rattle.identify_zns.specs.Pages.{namespace_fields, controller_fields, zoned_namespace_fields, zoned_controller_fields, page_of, zero_based, characteristics, capabilities, zoned_page, shown};

use crate::layout::{clear, put};
use zns_types::{Geometry, GeometryFields};

/// Why there is no page.
#[derive(Clone, Copy, Debug, PartialEq, Eq)]
pub enum IdErr {
    /// No page has this structure (CNS) and command set (CSI).
    Unknown,
}

fn fill_namespace(g: &Geometry, out: &mut [u8])
    requires { length out.old ≡ 4096 }
    ensures { out.new ≡ page (namespace_fields g.now.fields) }
{
    let fields = g.fields();
    let capacity = u64::from(fields.zones) * fields.capacity;
    clear(out);
    put(out, 0, &g.blocks().to_le_bytes());
    put(out, 8, &capacity.to_le_bytes());
    put(out, 16, &capacity.to_le_bytes());
    put(out, 33, &[1]);
    put(out, 130, &[fields.block_exp]);
}

fn fill_controller(g: &Geometry, out: &mut [u8])
    requires { length out.old ≡ 4096 }
    ensures { out.new ≡ page (controller_fields g.now.fields) }
{
    clear(out);
    put(out, 77, &[g.fields().mdts]);
    put(out, 80, &0x0002_0000u32.to_le_bytes());
    put(out, 92, &0x0800_0000u32.to_le_bytes());
    put(out, 259, &[3]);
    put(out, 512, &[0x66]);
    put(out, 513, &[0x44]);
    put(out, 516, &1u32.to_le_bytes());
}

// A limit as a page shows it: less one, or all ones if there is none.
fn zero_based(limit: u32) -> u32
    ensures { result ≡ zero_based limit }
{
    limit.wrapping_sub(1)
}

// The bits that say whether reads may cross zones, and whether there are random write areas.
fn characteristics(fields: &GeometryFields) -> u16
    ensures { result ≡ characteristics fields.now }
{
    u16::from(fields.flags % 2 == 1) + 2 * u16::from(fields.windows != 0)
}

// The bit that says whether a command can commit random write areas.
fn capabilities(fields: &GeometryFields) -> u8
    ensures { result ≡ capabilities fields.now }
{
    u8::from(fields.windows != 0)
}

fn fill_zoned_namespace(fields: GeometryFields, out: &mut [u8])
    requires { length out.old ≡ 4096 }
    ensures page { out.new ≡ page (zoned_namespace_fields fields) }
    ensures shown { zoned_page out.new ≡ shown fields }
{
    clear(out);
    put(out, 2, &characteristics(&fields).to_le_bytes());
    put(out, 4, &zero_based(fields.active_limit).to_le_bytes());
    put(out, 8, &zero_based(fields.open_limit).to_le_bytes());
    put(out, 44, &fields.windows.to_le_bytes());
    put(out, 48, &fields.granule.to_le_bytes());
    put(out, 50, &fields.window.to_le_bytes());
    put(out, 52, &[capabilities(&fields)]);
    put(out, 2816, &fields.zone_size.to_le_bytes());
}

fn fill_zoned_controller(g: &Geometry, out: &mut [u8])
    requires { length out.old ≡ 4096 }
    ensures { out.new ≡ page (zoned_controller_fields g.now.fields) }
{
    clear(out);
    put(out, 0, &[g.fields().zasl]);
}

/// Writes the page of a structure (CNS) and a command set (CSI) into `out`.
pub fn fill(cns: u8, csi: u8, g: &Geometry, out: &mut [u8]) -> Result<(), IdErr>
    requires { length out.old ≡ 4096 }
    ensures filled { OnOk result (page_of cns csi g.now.fields ≡ Some out.new) }
    ensures unknown { (result ≡ Err IdErr.Unknown) ↔ (page_of cns csi g.now.fields ≡ None) }
    ensures kept { OnErr result (out.new ≡ out.old) }

    // What a host reads in the zoned namespace's page is what the drive is.
    ensures shown { cns ≡ 0x05 → csi ≡ 0x02 → zoned_page out.new ≡ shown g.now.fields }
{
    match (cns, csi) {
        (0x00, _) => fill_namespace(g, out),
        (0x01, _) => fill_controller(g, out),
        (0x05, 0x02) => fill_zoned_namespace(*g.fields(), out),
        (0x06, 0x02) => fill_zoned_controller(g, out),
        _ => return Err(IdErr::Unknown),
    }
    Ok(())
}
