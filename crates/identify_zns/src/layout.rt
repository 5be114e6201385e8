ghost use Rattle.std.specs.Prelude.{◌≡◌, ◌+◌, ◌≤◌, length, replicate};
ghost use Rattle.identify_zns.specs.Layout.{overwritten};

/// Makes all bytes zero.
pub fn clear(out: &mut [u8])
    ensures { out.new ≡ replicate (length out.old) 0 }
{
    out.fill(0);
}

/// Copies `bytes` into `out` from byte `place` on.
#[tactic(auto, unfolding(crate::specs::Layout::overwritten))]
pub fn put(out: &mut [u8], place: usize, bytes: &[u8])
    requires { place + length bytes.now ≤ length out.old }
    ensures { out.new ≡ overwritten out.old place bytes.now }
{
    out[place..place + bytes.len()].copy_from_slice(bytes);
}
