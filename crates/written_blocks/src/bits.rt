ghost use Rattle.std.specs.Prelude.{◌≡◌, ℕ, ◌-◌, ◌*◌, ◌^◌, ◌<◌, ◌≤◌, ◌||◌, length, count_by};
ghost use Rattle.std.specs.List.{range_with_len};
ghost use Rattle.written_blocks.specs.Marks.{is_set, lies_within};

// A word in which the bits from `low` up to but not including `high` are set.
fn mask(low: usize, high: usize) -> u64
    requires some { low < high }
    requires within { high ≤ 64 }
    ensures { result ≡ 2 ^ high - 2 ^ low }
{
    u64::MAX >> (64 - (high - low)) << low
}

/// Sets the bits of the blocks from `from` up to but not including `to`, a word at a time.
pub fn set_bits(words: &mut [u64], from: usize, to: usize)
    requires order { from ≤ to }
    requires within { to ≤ 64 * length words.old }
    ensures { (block : ℕ) → is_set words.new block
        ≡ (lies_within from to block || is_set words.old block) }
{
    let mut at = from;
    while at < to {
        let low = at % 64;
        let high = (to - (at - low)).min(64);
        words[at / 64] |= mask(low, high);
        at += high - low;
    }
}

/// How many bits of the blocks from `from` up to but not including `to` are set, counted a word at
/// a time.
pub fn count_bits(words: &[u64], from: usize, to: usize) -> usize
    requires order { from ≤ to }
    requires within { to ≤ 64 * length words.now }
    ensures exact { result ≡ count_by (is_set words.now) (range_with_len from (to - from)) }
    ensures bound { result ≤ to - from }
{
    let mut set = 0;
    let mut at = from;
    while at < to {
        let low = at % 64;
        let high = (to - (at - low)).min(64);
        set += (words[at / 64] & mask(low, high)).count_ones() as usize;
        at += high - low;
    }
    set
}
