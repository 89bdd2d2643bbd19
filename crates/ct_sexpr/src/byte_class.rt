//! What a byte may be: whitespace, a byte of a word, a delimiter.

ghost use Rattle.std.specs.Prelude.{◌≡◌};
ghost use Rattle.ct_sexpr.specs.Whitespace.{is_whitespace, ends_comment};
ghost use Rattle.ct_sexpr.specs.Atom.{is_word_byte, begins_word};
ghost use Rattle.ct_sexpr.specs.Token.{begins_atom};

/// Whether the byte is a tab, a line feed, a carriage return or a space.
pub(crate) fn is_whitespace(byte: u8) -> bool
    ensures space { result ≡ is_whitespace byte }
{
    matches!(byte, b'\t' | b'\n' | b'\r' | b' ')
}

/// Whether a comment ends before the byte.
pub(crate) fn ends_comment(byte: u8) -> bool
    ensures ends { result ≡ ends_comment byte }
{
    byte == b'\n' || byte == b'\r'
}

/// Whether the byte may stand in a word: a letter, a digit or one of the marks.
pub(crate) fn is_word_byte(byte: u8) -> bool
    ensures word { result ≡ is_word_byte byte }
{
    byte.is_ascii_alphanumeric() || b"~!@$%^&*_-+=<>.?/".contains(&byte)
}

/// Whether a word, a keyword or a literal begins with the byte.
pub(crate) fn begins_word(byte: u8) -> bool
    ensures begins { result ≡ begins_word byte }
{
    is_word_byte(byte) || byte == b':' || byte == b'#'
}

/// Whether an atom begins with the byte.
pub(crate) fn begins_atom(byte: u8) -> bool
    ensures begins { result ≡ begins_atom byte }
{
    begins_word(byte) || byte == b'"' || byte == b'|'
}
