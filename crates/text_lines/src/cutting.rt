//! Cutting a text into lines, and a line into words.
ghost use Rattle.std.specs.Prelude.{◌≡◌, IfOk, map, take};
ghost use Rattle.std.specs.Option.{option_map};
ghost use Rattle.text_lines.specs.Cuts.{first_line, unended, words_in};

use std::alloc::{AllocError, Global};

/// The first line of a text: the bytes up to and including the first line feed, or all of them if
/// there is none.
pub fn first_line(text: &[u8]) -> &[u8]
    ensures { result.now ≡ first_line text.now }
{
    match text.iter().position(|byte| *byte == b'\n') {
        Some(at) => &text[..at + 1],
        None => text,
    }
}

/// A line without the line feed at its end, or `None` if it doesn't end with one.
pub fn unended(line: &[u8]) -> Option<&[u8]>
    ensures { option_map (λ text. text.now) result ≡ unended line.now }
{
    match line {
        [text @ .., b'\n'] => Some(text),
        _ => None,
    }
}

/// The first words of a text, at most `most` of them. A word is what stands between two spaces, and
/// may be empty.
pub fn words_in(alloc: Global, text: &[u8], most: usize) -> Result<Vec<&[u8]>, AllocError>
    ensures { IfOk result (λ words. map (λ word. word.now) words.items
        ≡ take most (words_in text.now)) }
{
    text.split(|byte| *byte == b' ').take(most).collect(alloc)
}
