//! Where bytes stand: whitespace passed over, lines and columns counted.

ghost use Rattle.std.specs.Prelude.{◌≡◌, ◌+◌, ◌^◌, ◌<◌, ◌≤◌, length};
ghost use Rattle.ct_sexpr.specs.Whitespace as whitespace;
ghost use Rattle.ct_input.specs.Source as source;

/// The byte that ends a line.
const LINE_FEED: u8 = 10;

/// What is left after the whitespace and comments at the start of the bytes (SMT-LIB 2.7, section 3.1).
pub(crate) fn after_whitespace(bytes: &[u8]) -> &[u8]
    ensures value { result.now ≡ whitespace.after_whitespace bytes.now }
    ensures within { length result.now ≤ length bytes.now }
{
    let mut rest = bytes;
    let mut in_comment = false;
    while let [byte, others @ ..] = rest {
        if in_comment {
            in_comment = !ends_comment(*byte);
        } else if *byte == b';' {
            in_comment = true;
        } else if !is_whitespace(*byte) {
            return rest;
        }
        rest = others;
    }
    rest
}

// Whether a comment ends before the byte.
fn ends_comment(byte: u8) -> bool
    ensures value { result ≡ whitespace.ends_comment byte }
{
    byte == LINE_FEED || byte == b'\r'
}

// Tab, line feed, carriage return or space.
fn is_whitespace(byte: u8) -> bool
    ensures value { result ≡ whitespace.is_whitespace byte }
{
    byte == b'\t' || byte == LINE_FEED || byte == b'\r' || byte == b' '
}

/// How many lines end in the bytes.
pub(crate) fn line_feeds(bytes: &[u8]) -> u64
    ensures value { result ≡ whitespace.line_feeds bytes.now }
    ensures within { result ≤ length bytes.now }
{
    let mut rest = bytes;
    let mut count = 0;
    while let [byte, others @ ..] = rest {
        if *byte == LINE_FEED {
            count += 1;
        }
        rest = others;
    }
    count
}

/// The column after the bytes, which begin at a column.
pub(crate) fn column_after(column: u64, bytes: &[u8]) -> u64
    requires few { column + length bytes.now < 2 ^ 64 }
    ensures value { result ≡ source.column_after column bytes.now }
{
    let mut rest = bytes;
    let mut at = column;
    while let [byte, others @ ..] = rest {
        if *byte == LINE_FEED {
            at = 1;
        } else {
            at += 1;
        }
        rest = others;
    }
    at
}
