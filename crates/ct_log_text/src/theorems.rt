//! Theorems about texts of derivations. Each is the contract of a function that does nothing.
ghost use Rattle.std.specs.Prelude.{◌≡◌, ◌≤◌, ℕ, true, [], ◌∷◌, Ok, Some};
ghost use Rattle.std.specs.List.{list_all};
ghost use Rattle.ct_sexpr.specs.Expression.{Expression, Expressions, list, nesting};
ghost use Rattle.ct_sexpr.specs.Reading.{nesting_limit, BeginsCommand};
ghost use Rattle.ct_sexpr.specs.Readable.{IsReadable};
ghost use Rattle.ct_sexpr.specs.Written.{canonical};
ghost use Rattle.ct_sorts.specs.Declarations.{Declarations};
ghost use Rattle.ct_sorts.specs.Consistent.{IsConsistent};
ghost use Rattle.ct_log.specs.Recorded.{Recorded};
ghost use Rattle.ct_log_text.specs.Reading.{ReadOutcome, Reads, number_of};
ghost use Rattle.ct_log_text.specs.Written.{expression_of_record, text_of};
ghost use Rattle.ct_log_text.specs.Writable.{CanBeRead, is_writable};

use ct_sexpr::{spaced_texts, written_texts};
use ct_sorts::{naming, shapes};
use ct_terms::one_lasting_sort;

/// Theorems on derivations that are written and read back. The function does nothing.
///
/// What is written of a record that fits the declarations, with the number of a check, is read as
/// that record and that number. The numbers of its terms are those of terms of its table, its
/// literals are over Boolean terms that are no negations, terms and places that are not written are
/// 0, numbers are below 2^64, and it nests within the limit of what is read, which sorts with
/// arguments may pass. Of a record that was read all but the last two hold: its lines can be written.
///
/// A list has one reading: one record, or one first item that is refused with one number of an error.
pub fn reads_back()
    ensures same_record { (d : Declarations) (k : ℕ) (rec : Recorded) → IsConsistent d → CanBeRead d k rec
        → Reads d (expression_of_record d k rec) (Ok rec) }
    ensures same_number { (d : Declarations) (k : ℕ) (rec : Recorded) → CanBeRead d k rec
        → number_of (expression_of_record d k rec) ≡ Some k }
    ensures writable { (d : Declarations) (e : Expression) (rec : Recorded) → Reads d e (Ok rec)
        → list_all (is_writable rec.terms) rec.lines ≡ true }
    ensures one_outcome { (d : Declarations) (e : Expression) (one other : ReadOutcome) → IsConsistent d
        → Reads d e one → Reads d e other → one ≡ other }
{
    naming();
    shapes();
    one_lasting_sort();
}

/// Theorems on how a reader reads the text of a derivation. The function does nothing.
///
/// The text with one item a line, of a readable list that nests within the limit, is read as the
/// list, with names quoted only where they need to be, and nothing is left. So the text of a record
/// that can be written is read as its expression.
pub fn text_is_read()
    ensures text_is_read { (es : Expressions) → IsReadable (list es) → nesting (list es) ≤ nesting_limit
        → BeginsCommand (text_of (list es)) (canonical (list es)) [] }
    ensures derivation_is_read { (d : Declarations) (k : ℕ) (rec : Recorded) → IsConsistent d → CanBeRead d k rec
        → BeginsCommand (text_of (expression_of_record d k rec)) (expression_of_record d k rec) [] }
{
    spaced_texts();
    written_texts();
}
