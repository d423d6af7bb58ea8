ghost use Rattle.std.specs.Prelude.{◌≡◌};

use std::marker::Model;

/// A key that records are compared with in byte order. Contracts see its bytes, which stand in a word.
#[derive(Debug, Drop)]
pub struct SearchKey<'a> {
    text: &'a str,
}

impl<'a> Model for SearchKey<'a> {
    ghost use Rattle.std.specs.Prelude.{List, ℕ};

    ghost Value = { List ℕ };

    ghost view = { λ key. key.text.now };
}

impl<'a> SearchKey<'a> {
    /// The key of a text.
    pub fn new(text: &'a str) -> SearchKey<'a>
        ensures { result ≡ text.now }
    {
        SearchKey { text }
    }

    /// Its bytes.
    pub(crate) fn as_bytes(&self) -> &[u8]
        ensures { result.now ≡ self.now }
    {
        self.text.as_bytes()
    }
}
