//! Names in a text, each ended by a byte 10.
ghost use Rattle.std.specs.Prelude.{◌≡◌, ◌==◌, ◌+◌, ◌<◌, ◌∷◌, length, drop, position};
ghost use Rattle.std.specs.Bool.{OnTrue, OnFalse};
ghost use Rattle.ct_words.specs.NameList.{names_in};
ghost use Rattle.ct_words.specs.Storage.{bucket};

/// The byte that ends a name.
const END: u8 = 10;

/// The number of buckets, about as many as a table has names.
pub(crate) const BUCKETS: usize = 64;

// The index of the first byte that ends a name.
fn end_of(text: &[u8]) -> Option<usize>
    ensures end { result ≡ position (λ byte. byte == 10) text.now }
{
    text.iter().position(|byte| *byte == END)
}

/// The first name of the text.
pub(crate) fn first_name(text: &[u8]) -> &[u8]
    requires named { 0 < length (names_in text.now) }
    ensures first { names_in text.now ≡ result.now ∷ names_in (drop (length result.now + 1) text.now) }
    ensures ended { length result.now < length text.now }
{
    let Some(end) = end_of(text) else {
        return text;
    };
    &text[..end]
}

/// The bucket of a name.
pub(crate) fn bucket_of(name: &[u8]) -> usize
    ensures bucket { result ≡ bucket name.now }
    ensures below { result < 64 }
{
    let last = match name.last() {
        Some(byte) => *byte as usize,
        None => 0,
    };
    (name.len() + last) % BUCKETS
}

/// Whether the two texts are the same.
pub(crate) fn equal_bytes(name: &[u8], text: &[u8]) -> bool
    ensures same { OnTrue result (name.now ≡ text.now) }
    ensures other { OnFalse result (name.now ≡ text.now → ⊥) }
{
    name == text
}
