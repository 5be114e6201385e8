ghost use Rattle.std.specs.Prelude.{◌≡◌, ◌≢◌, ◌≤◌, ℕ, ◌+◌, length, IfOk, IfErr, Ok, Err, slice_index};
ghost use Rattle.zns_types.specs.Fields.{field};
ghost use Rattle.zns_types.specs.States.{number_of};
ghost use Rattle.zone_descriptor.specs.Descriptors.{descriptor_bytes, type_of, state_number, sequential, IsNoState, Describes, Refuses, FitsDescriptor};
ghost use Rattle.zone_descriptor.specs.declared.descriptor.Descriptor.{Descriptor};

use crate::desc_err::DescErr;
use crate::descriptor::{Descriptor, SEQUENTIAL};
use byteorder::{ByteOrder, LittleEndian};
use zns_types::State;

// The number in the eight bytes from `place` on.
fn number_at(bytes: &[u8], place: usize) -> u64
    requires entry { length bytes.now ≡ 64 }
    requires within { place + 8 ≤ 64 }
    ensures { result ≡ field place 8 bytes.now }
{
    LittleEndian::read_u64(&bytes[place..])
}

// The fields of a descriptor whose state is known.
fn fields_of(bytes: &[u8; 64], state: State) -> Descriptor
    requires sequential { type_of bytes.now ≡ sequential }
    requires state { state_number bytes.now ≡ number_of state }
    ensures describes { Describes bytes.now result }
    ensures only { (d : Descriptor) → Describes bytes.now d → d.state ≡ state → result ≡ d }
{
    Descriptor {
        state,
        attributes: bytes[2] & 0xf,
        capacity: number_at(bytes, 8),
        first: number_at(bytes, 16),
        pointer: number_at(bytes, 24),
    }
}

/// The fields of a descriptor. Reserved bits are ignored.
pub fn read(bytes: &[u8; 64]) -> Result<Descriptor, DescErr>
    ensures describes { IfOk result (Describes bytes.now) }
    ensures only { (d : Descriptor) → Describes bytes.now d → result ≡ Ok d }
    ensures written { (d : Descriptor) → FitsDescriptor d → descriptor_bytes d ≡ bytes.now
        → result ≡ Ok d }
    ensures refuses { IfErr result (Refuses bytes.now) }
    ensures other_type { type_of bytes.now ≢ sequential
        → result ≡ Err (DescErr.TypeNot2 (slice_index bytes.now 0)) }
    ensures other_state { type_of bytes.now ≡ sequential → IsNoState (state_number bytes.now)
        → result ≡ Err (DescErr.StateUnknown (slice_index bytes.now 1)) }
{
    if bytes[0] & 0xf != SEQUENTIAL {
        return Err(DescErr::TypeNot2(bytes[0]));
    }
    let Some(state) = State::of_number(bytes[1] >> 4) else {
        return Err(DescErr::StateUnknown(bytes[1]));
    };
    Ok(fields_of(bytes, state))
}
