//! A list of bytes that contracts see as a list.

ghost use Rattle.std.specs.Prelude.{◌≡◌};

use std::marker::Model;

/// A list of bytes, as a name or a text of a script. Clauses see the list.
#[derive(Debug, Drop)]
pub struct Bytes {
    bytes: Vec<u8>,
}

impl Model for Bytes {
    ghost use Rattle.std.specs.Prelude.{List, ℕ};

    ghost Value = { List ℕ };

    ghost view = { λ bytes. bytes.bytes.items };
}

impl Bytes {
    /// The bytes of a vector. Takes no memory.
    pub fn new(bytes: Vec<u8>) -> Bytes
        ensures value { result ≡ bytes.items }
    {
        Bytes { bytes }
    }

    /// The bytes.
    pub fn as_slice(&self) -> &[u8]
        ensures value { result.now ≡ self.now }
    {
        self.bytes.as_slice()
    }

    /// The vector that the bytes were made from. Takes no memory.
    pub fn into_vec(self) -> Vec<u8>
        ensures value { result.items ≡ self }
    {
        self.bytes
    }
}
