ghost use Rattle.zns_types.specs.Geometry.{IsGeometry};

use crate::field::GeomErr;
use crate::fields::GeometryFields;
use crate::rules::first_broken;

/// The numbers of a drive, which keep all rules of a session's header. Blocks are logical blocks;
/// zones and blocks are counted from 0.
#[derive(Clone, Copy, Debug)]
pub struct Geometry {
    pub fields: GeometryFields,
    pub ghost valid: { IsGeometry fields },
}

impl Geometry {
    ghost use Rattle.std.specs.Prelude.{◌≡◌, ◌≤◌, ◌<◌, ◌^◌, Some, None, IfOk, IfErr, IsOk};
    ghost use Rattle.zns_types.specs.Geometry.{block_len, all_blocks, greatest_transfer, first, zone_of, offset_of};
    ghost use Rattle.zns_types.specs.Rules.{rules};
    ghost use Rattle.zns_types.specs.Rows.{first_holding};

    /// The drive of these fields, or the first rule that they break.
    pub fn new(fields: GeometryFields) -> Result<Geometry, GeomErr>
        ensures fields { IfOk result (λ g. g.fields ≡ fields) }
        ensures broken { IfErr result (λ e. first_holding (rules fields) ≡ Some e) }
        ensures kept { first_holding (rules fields) ≡ None → IsOk result }
        ensures unbroken { IfOk result (λ _. first_holding (rules fields) ≡ None) }
        ensures valid { IsGeometry fields → IsOk result }
    {
        match first_broken(&fields) {
            Some(broken) => Err(broken),
            None => Ok(Geometry { fields }),
        }
    }

    /// The numbers, field by field.
    pub fn fields(&self) -> &GeometryFields
        ensures { result.now ≡ self.now.fields }
    {
        &self.fields
    }

    /// The length of a block, in bytes: 512 or 4,096.
    pub fn block_len(&self) -> u32
        ensures exact { result ≡ block_len self.now.fields }
        ensures some { 512 ≤ result }
        ensures small { result ≤ 4096 }
    {
        1 << self.fields.block_exp
    }

    /// The number of blocks of the namespace.
    pub fn blocks(&self) -> u64
        ensures exact { result ≡ all_blocks self.now.fields }
        ensures small { result < 2 ^ 32 }
    {
        u64::from(self.fields.zones) * self.fields.zone_size
    }

    /// The first block of a zone, as a block number of the namespace (Zoned Namespace Command Set
    /// Specification 1.1, 2.1: the zone start logical block address).
    pub fn first(&self, zone: u32) -> u64
        requires { zone < self.now.fields.zones }
        ensures { result ≡ first self.now.fields zone }
    {
        u64::from(zone) * self.fields.zone_size
    }

    /// The number of the zone that holds a block of the namespace.
    pub fn zone_of(&self, lba: u64) -> u32
        requires { lba < all_blocks self.now.fields }
        ensures exact { result ≡ zone_of self.now.fields lba }
        ensures within { result < self.now.fields.zones }
    {
        (lba / self.fields.zone_size) as u32
    }

    /// The offset of a block in its zone, in blocks from the zone's start.
    pub fn offset_of(&self, lba: u64) -> u64
        ensures exact { result ≡ offset_of self.now.fields lba }
        ensures within { result < self.now.fields.zone_size }
    {
        lba % self.fields.zone_size
    }

    /// The most bytes that one command may move: 65,536 blocks, or less if `mdts` says so (Base
    /// Specification 2.0, 5.17.2.1).
    pub fn greatest_transfer(&self) -> u64
        ensures { result ≡ greatest_transfer self.now.fields }
    {
        let blocks = 65_536 * u64::from(self.block_len());
        if self.fields.mdts == 0 {
            blocks
        } else {
            blocks.min(1 << (12 + self.fields.mdts))
        }
    }
}
