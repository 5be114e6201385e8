ghost use Rattle.std.specs.Prelude.{◌≡◌, ◌+◌, ◌≤◌, length, max, vec_len, vec_capacity};
ghost use Rattle.zone_cell.specs.Kept.{laid};

use zns_io::pad;

/// Writes `payload` into `bytes` at `place`, overwriting or extending them. If `place` is past the
/// end, the gap is filled with zeros. There is room for all of it, so no memory is allocated.
pub(crate) fn lay(bytes: &mut Vec<u8>, place: usize, payload: &[u8])
    requires room { place + length payload.now ≤ vec_capacity bytes.old }
    ensures laid { bytes.new.items ≡ laid place payload.now bytes.old.items }
    ensures len { vec_len bytes.new ≡ max (vec_len bytes.old) (place + length payload.now) }
    ensures room { vec_capacity bytes.old ≤ vec_capacity bytes.new }
{
    pad(bytes, place);
    let over = payload.len().min(bytes.len() - place);
    bytes[place..place + over].copy_from_slice(&payload[..over]);
    bytes.extend_from_slice(&payload[over..]).unwrap();
}
