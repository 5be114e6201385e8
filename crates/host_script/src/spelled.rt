//! The line that a text spells.
ghost use Rattle.std.specs.Prelude.{◌≡◌, ◌↔◌, ◌≤◌, Some, IfOk, length, map, codes};
ghost use Rattle.std.specs.Str.{bytes_eq};
ghost use Rattle.host_script.specs.declared.line.Line.{Line as LineValue};
ghost use Rattle.host_script.specs.Lines.{IsLine, line_text, line_of_one, line_of_two, line_of_three, line_of_four, line_of, line_in};

use crate::line::Line;
use crate::numbers::{blocks_in, byte_in, offset_in, zone_in};
use std::alloc::Global;
use text_lines::{number_in, unended, words_in};
use zns_io::NoMemory;
use zns_types::Geometry;

// One more word than the longest line has, so that longer lines are noticed.
const MOST_WORDS: usize = 6;

// Whether a word is this text.
fn is(word: &[u8], text: &[u8]) -> bool
    ensures { result ≡ bytes_eq word.now text.now }
{
    word == text
}

// The line of a letter and one number.
fn line_of_one(g: &Geometry, letter: &[u8], zone: &[u8]) -> Option<Line>
    ensures { result ≡ line_of_one g.now.fields letter.now zone.now }
{
    if is(letter, b"o") {
        let zone = zone_in(g, zone)?;
        Some(Line::Open { zone })
    } else if is(letter, b"r") {
        let zone = zone_in(g, zone)?;
        Some(Line::Reset { zone })
    } else if is(letter, b"d") {
        let zone = zone_in(g, zone)?;
        Some(Line::Report { zone })
    } else {
        None
    }
}

// The line of a letter and two numbers.
fn line_of_two(g: &Geometry, letter: &[u8], zone: &[u8], last: &[u8]) -> Option<Line>
    ensures { result ≡ line_of_two g.now.fields letter.now zone.now last.now }
{
    if !is(letter, b"f") {
        return None;
    }
    let zone = zone_in(g, zone)?;
    let last = offset_in(g, last)?;
    Some(Line::Flush { zone, last })
}

// The line of a letter and three numbers.
fn line_of_three(
    g: &Geometry,
    letter: &[u8],
    place: &[u8],
    blocks: &[u8],
    byte: &[u8],
) -> Option<Line>
    ensures { result ≡ line_of_three g.now.fields letter.now place.now blocks.now byte.now }
{
    if is(letter, b"w") {
        let lba = number_in(place)?;
        let blocks = blocks_in(blocks)?;
        let byte = byte_in(byte)?;
        Some(Line::Write { lba, blocks, byte })
    } else if is(letter, b"a") {
        let zone = zone_in(g, place)?;
        let blocks = blocks_in(blocks)?;
        let byte = byte_in(byte)?;
        Some(Line::Append { zone, blocks, byte })
    } else {
        None
    }
}

// The line of a letter and four numbers.
fn line_of_four(
    g: &Geometry,
    letter: &[u8],
    zone: &[u8],
    offset: &[u8],
    blocks: &[u8],
    byte: &[u8],
) -> Option<Line>
    ensures { result
        ≡ line_of_four g.now.fields letter.now zone.now offset.now blocks.now byte.now }
{
    if !is(letter, b"p") {
        return None;
    }
    let zone = zone_in(g, zone)?;
    let offset = offset_in(g, offset)?;
    let blocks = blocks_in(blocks)?;
    let byte = byte_in(byte)?;
    Some(Line::Put {
        zone,
        offset,
        blocks,
        byte,
    })
}

// The line that words spell.
#[tactic(auto, unfolding(crate::specs::Lines::line_of))]
fn line_of(g: &Geometry, words: &[&[u8]]) -> Option<Line>
    ensures { result ≡ line_of g.now.fields (map (λ word. word.now) words.now) }
{
    match words {
        [letter, zone] => line_of_one(g, letter, zone),
        [letter, zone, last] => line_of_two(g, letter, zone, last),
        [letter, place, blocks, byte] => line_of_three(g, letter, place, blocks, byte),
        [letter, zone, offset, blocks, byte] => {
            line_of_four(g, letter, zone, offset, blocks, byte)
        }
        _ => None,
    }
}

/// The line that a text spells, if it spells one.
pub(crate) fn line_in(alloc: Global, g: &Geometry, text: &[u8]) -> Result<Option<Line>, NoMemory>
    ensures same { IfOk result (λ line. line ≡ line_in g.now.fields text.now) }
    ensures exactly { IfOk result (λ line. (l : LineValue) → (line ≡ Some l)
        ↔ (IsLine g.now.fields l × (text.now ≡ line_text l))) }
{
    let Some(text) = unended(text) else {
        return Ok(None);
    };
    let words = words_in(alloc, text, MOST_WORDS)?;
    Ok(line_of(g, &words))
}
