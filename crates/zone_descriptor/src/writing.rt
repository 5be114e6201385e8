ghost use Rattle.std.specs.Prelude.{◌≡◌, ℕ, ◌*◌, ◌^◌, ◌<◌, [], ◌∷◌, ◌++◌, replicate};
ghost use Rattle.byteorder.specs.Endian.{little_bytes};
ghost use Rattle.zone_descriptor.specs.Descriptors.{descriptor_bytes, sequential, Describes};

use crate::descriptor::{Descriptor, SEQUENTIAL};
use byteorder::{ByteOrder, LittleEndian};

// A descriptor of these fields, one after another.
fn fields(state: u8, attributes: u8, capacity: u64, first: u64, pointer: u64) -> [u8; 64]
    requires { state < 2 ^ 4 }
    ensures { result
        ≡ (sequential ∷ 16 * state ∷ attributes ∷ []) ++ replicate 5 0 ++ little_bytes 8 capacity
        ++ little_bytes 8 first ++ little_bytes 8 pointer ++ replicate 32 0 }
{
    let mut bytes = [0; 64];
    bytes[0] = SEQUENTIAL;
    bytes[1] = state << 4;
    bytes[2] = attributes;
    LittleEndian::write_u64(&mut bytes[8..], capacity);
    LittleEndian::write_u64(&mut bytes[16..], first);
    LittleEndian::write_u64(&mut bytes[24..], pointer);
    bytes
}

/// The bytes of a descriptor. Reserved bits are zero.
pub fn write(descriptor: &Descriptor) -> [u8; 64]
    ensures bytes { result ≡ descriptor_bytes descriptor.now }
    ensures describes { descriptor.now.attributes < 2 ^ 4 → Describes result descriptor.now }
{
    fields(
        descriptor.state.number(),
        descriptor.attributes,
        descriptor.capacity,
        descriptor.first,
        descriptor.pointer,
    )
}
