//! A string of UTF-8 that contracts see as its bytes.

ghost use Rattle.std.specs.Prelude.{◌≡◌, string_bytes};

use std::convert::AsStr;
use std::marker::Model;

/// A text in UTF-8, as an argument of the command line. Clauses see its bytes.
#[derive(Debug, Drop)]
pub struct Text {
    string: String,
}

impl Model for Text {
    ghost use Rattle.std.specs.Prelude.{List, ℕ, string_bytes};

    ghost Value = { List ℕ };

    ghost view = { λ text. string_bytes text.string };
}

impl Text {
    /// The text of a string. Takes no memory.
    pub fn new(string: String) -> Text
        ensures value { result ≡ string_bytes string }
    {
        Text { string }
    }

    /// The text.
    pub fn as_str(&self) -> &str
        ensures value { result.now ≡ self.now }
    {
        self.string.as_str()
    }

    /// The string that the text was made from. Takes no memory.
    pub fn into_string(self) -> String
        ensures value { string_bytes result ≡ self }
    {
        self.string
    }
}

impl AsStr for Text {
    ghost text = { λ text. text };

    fn as_str(&self) -> &str {
        Text::as_str(self)
    }
}
