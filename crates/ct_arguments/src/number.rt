//! Parses the number of blocks of a generated script, and the number of a check.

ghost use Rattle.std.specs.Prelude.{◌≡◌};
ghost use Rattle.ct_arguments.specs.Arguments.{block_count, check_number};

/// The most blocks that a generated script may have.
const MOST_BLOCKS: u64 = 2000;

/// The number that the text writes in decimal digits alone, from 1 to 2,000. Leading zeros are
/// accepted, any number of them.
pub fn block_count(text: &str) -> Option<u64>
    ensures count { result ≡ block_count text.now }
{
    if text.as_bytes().first() == Some(&b'+') {
        return None;
    }
    match text.parse::<u64>() {
        Ok(count) if count >= 1 && count <= MOST_BLOCKS => Some(count),
        _ => None,
    }
}

/// The number that the text writes in decimal digits alone, from 1 to 2^64 - 1. Leading zeros are
/// accepted, any number of them.
pub fn check_number(text: &str) -> Option<u64>
    ensures number { result ≡ check_number text.now }
{
    if text.as_bytes().first() == Some(&b'+') {
        return None;
    }
    match text.parse::<u64>() {
        Ok(number) if number >= 1 => Some(number),
        _ => None,
    }
}
