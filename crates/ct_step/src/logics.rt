//! The names of logics.
ghost use Rattle.std.specs.Prelude.{◌≡◌, ◌↔◌, ◌≤◌, ℕ, List, ◌∷◌, ◌++◌, length, drop, map, Some, option_map, IfSome, IsTrue};
ghost use Rattle.std.specs.List.{concat};
ghost use Rattle.ct_words.specs.NameList.{IsListed};
ghost use Rattle.ct_words.specs.Words.{unrestricted_logic_names, logic_part_names};
ghost use Rattle.ct_step.specs.Logics.{AreParts, IsSplit, IsCombined, IsLogic, unquantified, first_of};

/// The parts of the names of logics: arrays, functions, bit vectors, floating point, datatypes, strings, and kinds of arithmetic.
/// `AX` comes before `A`, with which it begins.
const PARTS: [&[u8]; 15] = [
    b"AX", b"A", b"UF", b"BV", b"FP", b"DT", b"S", b"IDL", b"RDL", b"LIA", b"LRA", b"LIRA", b"NIA",
    b"NRA", b"NIRA",
];

/// What stands before the parts where formulas have no quantifiers.
const UNQUANTIFIED: &[u8] = b"QF_";

/// Whether there is a logic of the name: `ALL`, `ALL_SUPPORTED`, or different parts one after another, with `QF_` before them or
/// without.
pub(crate) fn is_logic(name: &[u8]) -> bool
    ensures logic { IsTrue result ↔ IsLogic name.now }
{
    is_unrestricted(name) || is_combined(name) || is_unquantified(name)
}

// Whether the name is that of a logic without parts.
fn is_unrestricted(name: &[u8]) -> bool
    ensures unrestricted { IsTrue result ↔ IsListed unrestricted_logic_names name.now }
{
    name == b"ALL".as_slice() || name == b"ALL_SUPPORTED".as_slice()
}

// Whether the name is `QF_` with parts after it.
fn is_unquantified(name: &[u8]) -> bool
    ensures unquantified { IsTrue result ↔ ((rest : List ℕ) × (name.now ≡ unquantified ++ rest) × IsCombined rest) }
{
    name.starts_with(UNQUANTIFIED) && is_combined(&name[UNQUANTIFIED.len()..])
}

// Whether the name is different parts, one at least, one after another.
fn is_combined(name: &[u8]) -> bool
    ensures combined { IsTrue result ↔ IsCombined name.now }
{
    !name.is_empty() && is_split(name)
}

// Whether the name is different parts, one after another.
fn is_split(name: &[u8]) -> bool
    ensures split { IsTrue result ↔ IsSplit name.now }
{
    let mut left = name;
    while let Some(part) = first_part(left) {
        let others = &left[part.len()..];
        if has_part(others, part) {
            return false;
        }
        left = others;
    }
    left.is_empty()
}

// Whether the part is one of those that the name is.
fn has_part(name: &[u8], wanted: &[u8]) -> bool
    ensures has { (parts : List (List ℕ)) → AreParts parts → concat parts ≡ name.now → IsTrue result ↔ IsListed parts wanted.now }
{
    let mut left = name;
    while let Some(part) = first_part(left) {
        if part == wanted {
            return true;
        }
        left = &left[part.len()..];
    }
    false
}

// The part with which the name begins, which is the only one with parts after it.
fn first_part(name: &[u8]) -> Option<&'static [u8]>
    ensures part { IfSome result (λ part. IsListed logic_part_names part.now) }
    ensures begins { IfSome result (λ part. name.now ≡ part.now ++ drop (length part.now) name.now) }
    ensures within { IfSome result (λ part. (1 ≤ length part.now) × (length part.now ≤ length name.now)) }
    ensures only { (part : List ℕ) (parts : List (List ℕ)) → AreParts (part ∷ parts) → concat (part ∷ parts) ≡ name.now
        → option_map (λ part. part.now) result ≡ Some part }
{
    first_of(&PARTS, name)
}

// The first of the words with which the bytes begin.
fn first_of<'a>(words: &[&'a [u8]], bytes: &[u8]) -> Option<&'a [u8]>
    ensures first { option_map (λ word. word.now) result ≡ first_of (map (λ word. word.now) words.now) bytes.now }
{
    let mut left = words;
    while let [word, others @ ..] = left {
        if bytes.starts_with(word) {
            return Some(word);
        }
        left = others;
    }
    None
}
