//! A word of the command line.
ghost use Rattle.std.specs.Prelude.{◌≡◌, ℕ, List};
ghost use Rattle.std.specs.String.{string_bytes};
ghost use Rattle.def_text.specs.Word.{key_of};

use ms_text::key_spelled;
use ms_tree::Key;
use std::marker::Model;

/// A word of the command line. Contracts see it as the bytes of its text.
#[derive(Debug, Drop)]
pub struct Word {
    text: String,
}

impl Model for Word {
    ghost Value = { List ℕ };

    ghost view = { λ w. string_bytes w.text };
}

impl Word {
    /// The word of this text, which it takes over. Takes no memory.
    pub fn new(text: String) -> Word
        ensures { result ≡ string_bytes text }
    {
        Word { text }
    }

    /// Its text. Takes no memory.
    pub fn as_str(&self) -> &str
        ensures { result.now ≡ self.now }
    {
        self.text.as_str()
    }

    /// The key that it spells by 66 hexadecimal digits of either case, or `None` where it spells none. Takes no memory.
    pub fn key(&self) -> Option<Key>
        ensures { result ≡ key_of self.now }
    {
        key_spelled(self.text.as_str().as_bytes())
    }
}
