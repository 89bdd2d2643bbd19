//! Which texts cannot be declared, whatever is declared already.
ghost use Rattle.std.specs.Prelude.{◌↔◌, map, IsTrue};
ghost use Rattle.ct_sorts.specs.Availability.{HasByte, IsListed, IsUnfit, core_words};

/// The name of the first constructor of Bool.
pub(crate) const TRUE: &[u8] = b"true";

/// The name of the second constructor of Bool.
pub(crate) const FALSE: &[u8] = b"false";

/// The words of the core theory.
const CORE_WORDS: [&[u8]; 10] = [
    TRUE,
    FALSE,
    b"not",
    b"and",
    b"or",
    b"xor",
    b"=>",
    b"=",
    b"distinct",
    b"ite",
];

/// Whether the name is one of the words.
pub(crate) fn is_listed(words: &[&[u8]], name: &[u8]) -> bool
    ensures listed { IsTrue result ↔ IsListed (map (λ word. word.now) words.now) name.now }
{
    words.contains(&name)
}

/// Whether the name is a word of the core theory.
pub(crate) fn is_core_word(name: &[u8]) -> bool
    ensures core { IsTrue result ↔ IsListed core_words name.now }
{
    is_listed(&CORE_WORDS, name)
}

/// Whether the byte stands in the text.
fn has_byte(text: &[u8], byte: u8) -> bool
    ensures has { IsTrue result ↔ HasByte text.now byte }
{
    text.contains(&byte)
}

/// Whether the name is reserved for the solver, or is no name at all.
pub(crate) fn is_unfit(name: &[u8]) -> bool
    ensures unfit { IsTrue result ↔ IsUnfit name.now }
{
    matches!(name.first(), Some(b'@' | b'.')) || has_byte(name, b'|') || has_byte(name, b'\\')
}
