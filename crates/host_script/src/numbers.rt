//! The numbers of a line.
ghost use Rattle.std.specs.Prelude.{◌≡◌};
ghost use Rattle.text_lines.specs.Decimals.{number_in as the_number};
ghost use Rattle.host_script.specs.Lines.{below, zone_in, offset_in, blocks_in, byte_in};

use text_lines::number_in;
use zns_types::Geometry;

// The number below a limit that a word spells.
fn below(limit: u64, word: &[u8]) -> Option<u64>
    ensures { result ≡ below limit (the_number word.now) }
{
    number_in(word).filter(|number| *number < limit)
}

/// The zone of a drive that a word names.
pub(crate) fn zone_in(g: &Geometry, word: &[u8]) -> Option<u32>
    ensures { result ≡ zone_in g.now.fields word.now }
{
    match below(u64::from(g.fields().zones), word) {
        Some(zone) => Some(zone as u32),
        None => None,
    }
}

/// The offset in a zone that a word names.
pub(crate) fn offset_in(g: &Geometry, word: &[u8]) -> Option<u64>
    ensures { result ≡ offset_in g.now.fields word.now }
{
    below(g.fields().zone_size, word)
}

/// The number of blocks, from 1 to 65,536, that a word names.
pub(crate) fn blocks_in(word: &[u8]) -> Option<u32>
    ensures { result ≡ blocks_in word.now }
{
    match number_in(word) {
        Some(blocks @ 1..=65_536) => Some(blocks as u32),
        _ => None,
    }
}

/// The byte that a word names.
pub(crate) fn byte_in(word: &[u8]) -> Option<u8>
    ensures { result ≡ byte_in word.now }
{
    match below(1 << 8, word) {
        Some(byte) => Some(byte as u8),
        None => None,
    }
}
