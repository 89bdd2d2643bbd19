//! Theorems about texts that are read and written.

ghost use Rattle.std.specs.Prelude.{◌≡◌, ◌↔◌, ℕ, true, ◌<◌, ◌≤◌, ◌⊎◌, List, [], ◌∷◌, ◌++◌, length, drop, slice_get, Some};
ghost use Rattle.ct_sexpr.specs.Whitespace.{after_whitespace, line_of_rest};
ghost use Rattle.ct_sexpr.specs.Expression.{Expression, Expressions, list, tokens_of, nesting, nesting_of_each};
ghost use Rattle.ct_sexpr.specs.Token.{left_parenthesis, right_parenthesis, begins_atom, AreTokens};
ghost use Rattle.ct_sexpr.specs.ErrorNumber.{closes_nothing, ends_inside, nests_too_deep, atom_outside};
ghost use Rattle.ct_sexpr.specs.Reading.{nesting_limit, BeginsCommand, HasError, HasDefiniteError, IsUnfinished, IsWhitespace, HasNoCommand};
ghost use Rattle.ct_sexpr.specs.Atom.{Atom};
ghost use Rattle.ct_sexpr.specs.Written.{written_name, written_atom, written, canonical_atom, canonical};
ghost use Rattle.ct_sexpr.specs.Readable.{HasForm, IsReadable, name_of_atom};
ghost use Rattle.ct_sexpr.specs.Spaced.{is_spacing, IsSpaced};
ghost use Rattle.ct_sexpr.specs.Nested.{IsItem};
ghost use Rattle.ct_sexpr.specs.Unread.{Unread};
ghost use Rattle.ct_sexpr.specs.Answer.{GivesCommand};
ghost use Rattle.ct_sexpr.specs.View.{expression_of, expressions_of};
ghost use Rattle.ct_sexpr.specs.declared.sexpr.Sexpr.{Sexpr};
ghost use Rattle.ct_sexpr.specs.Text.{Located, Ending, lexical, Reads, EndingSoFar, waiting, refused, ReadsSoFar};

/// Theorems on reading the first command of bytes, for proofs about scripts. The function does nothing.
///
/// Bytes that may go on begin with exactly one command, or are unfinished, or an error in them is
/// definite, and only one of the three. Where the input ends after unfinished bytes, they are
/// whitespace and comments alone, or have an error; a definite error is one there, too. Bytes have
/// one error at most, whose number is 1 to 6 and whose position is an end of them; whitespace and
/// comments alone have neither a command nor an error. A command is a list, and takes one byte at
/// least from the start. A command and a definite error stay what they are, at their position,
/// whatever bytes come after them. Whitespace and comments alone, and bytes with no other error
/// than that the input ends inside a command, can be completed to one command.
pub fn one_reading()
    ensures one_of_three { (bytes : List ℕ) → ((e : Expression) × (rest : List ℕ) × BeginsCommand bytes e rest)
        ⊎ (IsUnfinished bytes ⊎ ((code : ℕ) × (suffix : List ℕ) × HasDefiniteError bytes code suffix)) }
    ensures one_command { (bytes : List ℕ) (e f : Expression) (r s : List ℕ) → BeginsCommand bytes e r → BeginsCommand bytes f s → (f ≡ e) × (s ≡ r) }
    ensures one_error { (bytes : List ℕ) (c d : ℕ) (p q : List ℕ) → HasError bytes c p → HasError bytes d q → (d ≡ c) × (q ≡ p) }
    ensures unfinished_has_no_command { (bytes : List ℕ) → IsUnfinished bytes → HasNoCommand bytes }
    ensures error_has_no_command { (bytes : List ℕ) (code : ℕ) (suffix : List ℕ) → HasError bytes code suffix → HasNoCommand bytes }
    ensures whitespace_has_no_command { (bytes : List ℕ) → IsWhitespace bytes → HasNoCommand bytes }
    ensures error_is_no_whitespace { (bytes : List ℕ) (code : ℕ) (suffix : List ℕ) → HasError bytes code suffix → IsWhitespace bytes → ⊥ }
    ensures not_both { (bytes : List ℕ) (code : ℕ) (suffix : List ℕ) → IsUnfinished bytes → HasDefiniteError bytes code suffix → ⊥ }
    ensures at_end { (bytes : List ℕ) → IsUnfinished bytes → IsWhitespace bytes ⊎ ((code : ℕ) × (suffix : List ℕ) × HasError bytes code suffix) }
    ensures definite_is_error { (bytes : List ℕ) (code : ℕ) (suffix : List ℕ) → HasDefiniteError bytes code suffix → HasError bytes code suffix }
    ensures numbers { (bytes : List ℕ) (code : ℕ) (suffix : List ℕ) → HasError bytes code suffix → (1 ≤ code) × (code ≤ 6) }
    ensures command_is_a_list { (bytes : List ℕ) (e : Expression) (rest : List ℕ) → BeginsCommand bytes e rest → (es : Expressions) × (e ≡ list es) }
    ensures command_is_a_prefix { (bytes : List ℕ) (e : Expression) (rest : List ℕ) → BeginsCommand bytes e rest
        → (prefix : List ℕ) × (bytes ≡ prefix ++ rest) × (0 < length prefix) }
    ensures goes_on { (bytes : List ℕ) → IsWhitespace bytes ⊎ HasError bytes ends_inside [] → (tail : List ℕ) × (e : Expression) × BeginsCommand (bytes ++ tail) e [] }
    ensures command_stays { (bytes : List ℕ) (e : Expression) (rest tail : List ℕ) → BeginsCommand bytes e rest → BeginsCommand (bytes ++ tail) e (rest ++ tail) }
    ensures error_stays { (bytes : List ℕ) (code : ℕ) (suffix tail : List ℕ) → HasDefiniteError bytes code suffix → HasDefiniteError (bytes ++ tail) code (suffix ++ tail) }
    ensures error_is_an_end { (bytes : List ℕ) (code : ℕ) (suffix : List ℕ) → HasError bytes code suffix → (prefix : List ℕ) × (bytes ≡ prefix ++ suffix) }
    ensures whitespace_is_a_prefix { (bytes : List ℕ) → (prefix : List ℕ) × (bytes ≡ prefix ++ after_whitespace bytes) }
{}

/// Theorems on the position of an error by its number, for proofs about scripts. The function does nothing.
///
/// A closing parenthesis outside all parentheses and an atom outside them stand at the start of the
/// bytes, after whitespace and comments; that the input ends inside parentheses stands at its end;
/// and what nests too deep is an opening parenthesis.
pub fn error_positions()
    ensures closing_position { (bytes suffix : List ℕ) → HasError bytes closes_nothing suffix
        → (remaining : List ℕ) × (suffix ≡ right_parenthesis ∷ remaining) × (after_whitespace bytes ≡ suffix) }
    ensures ending_position { (bytes suffix : List ℕ) → HasError bytes ends_inside suffix → suffix ≡ [] }
    ensures opening_position { (bytes suffix : List ℕ) → HasError bytes nests_too_deep suffix → (remaining : List ℕ) × (suffix ≡ left_parenthesis ∷ remaining) }
    ensures outside_position { (bytes suffix : List ℕ) → HasError bytes atom_outside suffix
        → (b : ℕ) × (remaining : List ℕ) × (suffix ≡ b ∷ remaining) × (begins_atom b ≡ true) × (after_whitespace bytes ≡ suffix) }
{}

/// Theorems on reading whole texts, for proofs about scripts. The function does nothing.
///
/// A text has exactly one reading, and a text that may go on has exactly one reading so far. The
/// pieces in which a text comes do not matter. The command that bytes begin with is the first of
/// each text that begins with these bytes, on its line, and the commands of what is left follow; a
/// definite error in bytes ends each such text, on its line. So a text that is refused so far is
/// read so whatever comes after it, and where a text waits, its commands so far are the first, on
/// their lines, whatever comes after it, and whether the longer text ends or may go on.
pub fn one_text()
    ensures one_text { (line : ℕ) (bytes : List ℕ) (cs ds : List Located) (x y : Ending) → Reads line bytes cs x → Reads line bytes ds y → (ds ≡ cs) × (y ≡ x) }
    ensures some_text { (line : ℕ) (bytes : List ℕ) → (cs : List Located) × (x : Ending) × Reads line bytes cs x }
    ensures one_so_far { (line : ℕ) (bytes : List ℕ) (cs ds : List Located) (x y : EndingSoFar) → ReadsSoFar line bytes cs x → ReadsSoFar line bytes ds y → (ds ≡ cs) × (y ≡ x) }
    ensures some_so_far { (line : ℕ) (bytes : List ℕ) → (cs : List Located) × (x : EndingSoFar) × ReadsSoFar line bytes cs x }
    ensures first_command { (line : ℕ) (bytes tail : List ℕ) (e : Expression) (rest : List ℕ) (cs : List Located) (x : Ending)
        → BeginsCommand bytes e rest → Reads (line_of_rest line bytes rest) (rest ++ tail) cs x
        → Reads line (bytes ++ tail) (record { command = e; line = line_of_rest line bytes (after_whitespace bytes) } ∷ cs) x }
    ensures first_so_far { (line : ℕ) (bytes tail : List ℕ) (e : Expression) (rest : List ℕ) (cs : List Located) (x : EndingSoFar)
        → BeginsCommand bytes e rest → ReadsSoFar (line_of_rest line bytes rest) (rest ++ tail) cs x
        → ReadsSoFar line (bytes ++ tail) (record { command = e; line = line_of_rest line bytes (after_whitespace bytes) } ∷ cs) x }
    ensures definite_error { (line : ℕ) (bytes tail : List ℕ) (code : ℕ) (suffix : List ℕ)
        → HasDefiniteError bytes code suffix → Reads line (bytes ++ tail) [] (lexical code (line_of_rest line bytes suffix)) }
    ensures error_so_far { (line : ℕ) (bytes tail : List ℕ) (code : ℕ) (suffix : List ℕ)
        → HasDefiniteError bytes code suffix → ReadsSoFar line (bytes ++ tail) [] (refused code (line_of_rest line bytes suffix)) }
    ensures refused_so_far { (line : ℕ) (bytes tail : List ℕ) (cs : List Located) (code at : ℕ)
        → ReadsSoFar line bytes cs (refused code at) → Reads line (bytes ++ tail) cs (lexical code at) }
    ensures refused_goes_on { (line : ℕ) (bytes tail : List ℕ) (cs : List Located) (code at : ℕ)
        → ReadsSoFar line bytes cs (refused code at) → ReadsSoFar line (bytes ++ tail) cs (refused code at) }
    ensures waiting_so_far { (line : ℕ) (bytes tail : List ℕ) (cs ds : List Located) (x : Ending)
        → ReadsSoFar line bytes cs waiting → Reads line (bytes ++ tail) ds x → (es : List Located) × (ds ≡ cs ++ es) }
    ensures waiting_goes_on { (line : ℕ) (bytes tail : List ℕ) (cs ds : List Located) (y : EndingSoFar)
        → ReadsSoFar line bytes cs waiting → ReadsSoFar line (bytes ++ tail) ds y → (es : List Located) × (ds ≡ cs ++ es) }
{}

/// Theorems on printed expressions, for proofs about texts that are printed and read back. The function does nothing.
///
/// An expression is readable where each atom in it has the form of its kind. The command that bytes
/// begin with is readable and nests within the limit, and what is written of a readable list that
/// nests within the limit is that command and nothing else, with symbols quoted only where they
/// need to be. Two readable expressions have one text exactly where they are the same but for
/// quoting that is not needed; here nesting does not matter, and atoms are meant, too. Quoting that
/// is not needed change no name, as `a` and `|a|` are one, and a name has one text, however it was
/// written.
pub fn written_texts()
    ensures command_is_readable { (bytes : List ℕ) (e : Expression) (rest : List ℕ) → BeginsCommand bytes e rest → IsReadable e × (nesting e ≤ nesting_limit) }
    ensures list_is_read { (es : Expressions) → IsReadable (list es) → nesting (list es) ≤ nesting_limit → BeginsCommand (written (list es)) (canonical (list es)) [] }
    ensures same_text { (e f : Expression) → IsReadable e → IsReadable f → (written e ≡ written f) ↔ (canonical e ≡ canonical f) }
    ensures one_name { (a : Atom) → name_of_atom (canonical_atom a) ≡ name_of_atom a }
    ensures name_text { (a : Atom) (name : List ℕ) → HasForm a → name_of_atom a ≡ Some name → written_atom a ≡ written_name name }
{}

/// Theorems on nesting, for functions that recur over an expression. The function does nothing.
///
/// Each item of a list nests less than the list, also by its index among the items in memory; the
/// items from an index on nest no deeper than all; and a command that a reader gives nests within
/// the limit. So `nesting` is a measure, for a function that calls itself on items.
pub fn nested_lists()
    ensures item_nests_less { (e : Expression) (es : Expressions) → IsItem e es
        → nesting e < nesting (list es) }
    ensures item_in_memory { (items : List Sexpr) (index : ℕ) (item : Sexpr)
        → slice_get items index ≡ Some item → IsItem (expression_of item) (expressions_of items) }
    ensures suffix_nests { (items : List Sexpr) (n : ℕ)
        → nesting_of_each (expressions_of (drop n items)) ≤ nesting_of_each (expressions_of items) }
    ensures given_nests { (old new : Unread) (e : Expression) (line : ℕ)
        → GivesCommand old new e line → nesting e ≤ nesting_limit }
{}

/// Theorems on whitespace and comments between tokens (SMT-LIB 2.7, section 3.1), for proofs about texts that are read.
/// The function does nothing.
///
/// A list is read as a command exactly where its tokens are and it nests within the limit, whatever
/// whitespace and comments stand between them. Whitespace and whole comments before other bytes
/// change nothing of how these are read. So a text of a list with any of them between the tokens,
/// as one whose items stand on lines of their own, is read as the same expression as the text with
/// single spaces, which is one of these texts.
pub fn spaced_texts()
    ensures command_has_tokens { (es : Expressions) (bytes rest : List ℕ)
        → BeginsCommand bytes (list es) rest
        ↔ (AreTokens (tokens_of (list es)) bytes rest × (nesting (list es) ≤ nesting_limit)) }
    ensures spacing_is_passed { (space tail : List ℕ) → is_spacing space ≡ true
        → after_whitespace (space ++ tail) ≡ after_whitespace tail }
    ensures spacing_before { (space bytes : List ℕ) (e : Expression) (rest : List ℕ)
        → is_spacing space ≡ true → BeginsCommand bytes e rest
        → BeginsCommand (space ++ bytes) e rest }
    ensures spaced_is_read { (es : Expressions) (text : List ℕ)
        → IsReadable (list es) → nesting (list es) ≤ nesting_limit → IsSpaced (list es) text
        → BeginsCommand text (canonical (list es)) [] }
    ensures written_is_spaced { (e : Expression) → IsSpaced e (written e) }
{}
