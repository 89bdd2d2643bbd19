//! The numbers of the errors.
ghost use Rattle.std.specs.Prelude.{◌≡◌};
ghost use Rattle.ct_words.specs.Words.{error_names};
ghost use Rattle.ct_words.specs.Errors.{error_text};

use crate::name_table::NameTable;
use crate::words::ERROR_TEXTS;

/// The numbers of the errors, which have gaps.
const ERROR_NUMBERS: [u16; ERROR_TEXTS] = [
    1, 2, 3, 4, 5, 6, 11, 12, 13, 14, 15, 16, 17, 18, 19, 20, 21, 22, 23, 24, 25, 26, 27, 28, 29,
    30, 31, 41, 42, 43, 44, 45, 46, 47, 51, 52, 53, 54, 55, 56, 57, 58, 59,
];

/// The text of the error with this number, in the table of error texts: 1 to 6, 11 to 31, 41 to 47 and 51 to 59. Any
/// other number has the empty text.
pub fn error_text(texts: &NameTable<ERROR_TEXTS>, number: u16) -> &[u8]
    requires table { texts.now ≡ error_names }
    ensures text { result.now ≡ error_text number }
{
    for (index, known) in ERROR_NUMBERS.iter().enumerate() {
        if *known == number {
            return texts.name(index);
        }
    }
    b""
}
