ghost use Rattle.std.specs.Prelude.{◌≡◌, ◌≤◌, ◌<◌, ◌+◌, ◌*◌, ◌^◌, length};
ghost use Rattle.zns_types.specs.Fields.{bits, dword, long};

use byteorder::{ByteOrder, LittleEndian};

/// Dword `k` of an entry.
pub fn dword_at(bytes: &[u8], k: usize) -> u32
    requires entry { length bytes.now ≡ 64 }
    requires within { k < 16 }
    ensures { result ≡ dword k bytes.now }
{
    LittleEndian::read_u32(&bytes[4 * k..])
}

/// The number in dwords `k` and `k + 1` of an entry, its low half first.
pub fn long_at(bytes: &[u8], k: usize) -> u64
    requires entry { length bytes.now ≡ 64 }
    requires within { k < 15 }
    ensures value { result ≡ long k bytes.now }
    ensures halves { dword k bytes.now + 2 ^ 32 * dword (k + 1) bytes.now ≡ result }
{
    LittleEndian::read_u64(&bytes[4 * k..])
}

/// The bits of a dword from `high` down to `low`.
pub fn bits_of(word: u32, high: u32, low: u32) -> u32
    requires order { low ≤ high }
    requires within { high < 32 }
    ensures { result ≡ bits high low word }
{
    ((u64::from(word) >> low) % (1 << (high + 1 - low))) as u32
}
