//! Words that the language reserves, and names that are simple symbols.
ghost use Rattle.std.specs.Prelude.{◌≡◌};
ghost use Rattle.ct_sexpr.specs.Written.{is_reserved, forms_symbol, is_simple};

use crate::byte_class::is_word_byte;

/// The words that the language reserves (SMT-LIB 2.7, section 3.1), without the names of commands.
const RESERVED_WORDS: [&[u8]; 14] = [
    b"!",
    b"_",
    b"as",
    b"BINARY",
    b"DECIMAL",
    b"exists",
    b"forall",
    b"HEXADECIMAL",
    b"lambda",
    b"let",
    b"match",
    b"NUMERAL",
    b"par",
    b"STRING",
];

/// Whether the bytes are a word that the language reserves. A simple symbol with these bytes is no
/// name.
pub fn is_reserved(name: &[u8]) -> bool
    ensures reserved { result ≡ is_reserved name.now }
{
    RESERVED_WORDS.contains(&name)
}

/// Whether the bytes form a symbol: word bytes, of which the first is no digit.
fn forms_symbol(name: &[u8]) -> bool
    ensures forms { result ≡ forms_symbol name.now }
{
    match name {
        [] => false,
        [first, ..] => !first.is_ascii_digit() && name.iter().all(|byte| is_word_byte(*byte)),
    }
}

/// Whether the name is written as a simple symbol: its bytes form a symbol that is not reserved.
pub fn is_simple(name: &[u8]) -> bool
    ensures canonical { result ≡ is_simple name.now }
{
    forms_symbol(name) && !is_reserved(name)
}
