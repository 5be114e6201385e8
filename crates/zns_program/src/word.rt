ghost use Rattle.std.specs.Prelude.{◌≡◌, ℕ, ◌<◌, ◌^◌, ◌↔◌, IfOk, IsTrue, Some};
ghost use Rattle.std.specs.Fmt.{decimal};
ghost use Rattle.text_lines.specs.Decimals.{number_in};

use std::alloc::Global;
use std::marker::Model;
use text_lines::number_in;
use zns_io::{Bytes, NoMemory};

/// A word of the command line, as its bytes.
#[derive(Drop)]
pub struct Word {
    text: Bytes,
}

impl Model for Word {
    ghost use Rattle.std.specs.Prelude.{ℕ, List};

    ghost Value = { List ℕ };

    ghost view = { λ w. w.text };
}

impl Word {
    /// The word that a text spells.
    ///
    /// # Errors
    ///
    /// Memory runs out.
    pub fn of(alloc: Global, text: &str) -> Result<Word, NoMemory>
        ensures { IfOk result (λ w. w ≡ text.now) }
    {
        let text = Bytes::of(alloc, text.as_bytes())?;
        Ok(Word { text })
    }

    /// Whether the word is `text`.
    pub fn is(&self, text: &str) -> bool
        ensures { IsTrue result ↔ (self.now ≡ text.now) }
    {
        self.text.as_slice() == text.as_bytes()
    }

    /// The 64-bit number that the word spells in decimal digits without leading zeros, if it spells
    /// one.
    pub fn number(&self) -> Option<u64>
        ensures same { result ≡ number_in self.now }
        ensures exactly { (n : ℕ)
            → (result ≡ Some n) ↔ ((self.now ≡ decimal n) × (n < 2 ^ 64)) }
    {
        number_in(self.text.as_slice())
    }
}
