ghost use Rattle.std.specs.Prelude.{◌≡◌, ◌↔◌, IsTrue};
ghost use Rattle.text_lines.specs.Decimals.{number_in, BeginsOtherwise};

// Whether a word begins as no printed number does: with a sign, or with a zero before something
// else.
fn begins_otherwise(word: &[u8]) -> bool
    ensures { IsTrue result ↔ BeginsOtherwise word.now }
{
    matches!(word, [b'+', ..] | [b'0', _, ..])
}

/// The number that a word spells in decimal digits, if it spells one. There is no sign and there
/// are no leading zeros, so each number has only one spelling.
pub fn number_in(word: &[u8]) -> Option<u64>
    ensures { result ≡ number_in word.now }
{
    if begins_otherwise(word) {
        return None;
    }
    match str::from_utf8(word) {
        Ok(text) => text.parse().ok(),
        Err(_) => None,
    }
}
