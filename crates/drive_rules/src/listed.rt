ghost use Rattle.std.specs.Prelude.{◌≡◌, is_some};
ghost use Rattle.identify_zns.specs.Pages.{page_of};
ghost use Rattle.zns_types.specs.declared.fields.GeometryFields.{GeometryFields};

/// Whether there is an Identify page with these numbers.
pub fn is_listed(cns: u8, csi: u8) -> bool
    ensures { (g : GeometryFields) → result ≡ is_some (page_of cns csi g) }
{
    match cns {
        0x00 | 0x01 => true,
        0x05 | 0x06 => csi == 0x02,
        _ => false,
    }
}
