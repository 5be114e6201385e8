ghost use Rattle.std.specs.Prelude.{◌≡◌, ◌≤◌, max, vec_len, vec_capacity};
ghost use Rattle.zns_io.specs.Padding.{padded};

// Zeros are copied from here, a piece at a time.
const ZEROS: [u8; 4096] = [0; 4096];

/// Appends zeros to `bytes` until its length is `len`. There is room for them, so no memory is
/// allocated.
pub fn pad(bytes: &mut Vec<u8>, len: usize)
    requires { len ≤ vec_capacity bytes.old }
    ensures padded { bytes.new.items ≡ padded len bytes.old.items }
    ensures len { vec_len bytes.new ≡ max (vec_len bytes.old) len }
    ensures room { vec_capacity bytes.old ≤ vec_capacity bytes.new }
{
    while bytes.len() < len {
        let count = (len - bytes.len()).min(ZEROS.len());
        bytes.extend_from_slice(&ZEROS[..count]).unwrap();
    }
}
