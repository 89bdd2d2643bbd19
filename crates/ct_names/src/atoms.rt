//! Names and words in expressions.
ghost use Rattle.std.specs.Prelude.{◌≡◌, None, Some, MatchOption};
ghost use Rattle.ct_sexpr.specs.Atom.{symbol};
ghost use Rattle.ct_sexpr.specs.Readable.{name_of_atom};
ghost use Rattle.ct_sexpr.specs.View.{expression_of};
ghost use Rattle.ct_sorts.specs.Declarations.{Declarations};
ghost use Rattle.ct_names.specs.Parts.{name_of};
ghost use Rattle.ct_names.specs.Elaboration.{part_of};
ghost use Rattle.ct_names.specs.Forms.{is_word};
ghost use Rattle.ct_names.specs.Bounds.{held_name};

use ct_sexpr::{Sexpr, is_reserved};

/// The name that an expression is: a symbol that is not a reserved word; none for every other expression. It is for
/// names of variables, symbols and sorts alike (SMT-LIB 2.7, section 3.1).
pub fn name_of(expr: &Sexpr) -> Option<&[u8]>
    ensures name { (d : Declarations) → MatchOption result (name_of (part_of d
        (expression_of expr.now)) ≡ None)
        (λ name. name_of (part_of d (expression_of expr.now)) ≡ Some name.now) }
    ensures held { (d : Declarations) → held_name result ≡ name_of (part_of d
        (expression_of expr.now)) }
{
    match expr {
        Sexpr::Symbol(word) => simple_name(word.as_slice()),
        Sexpr::Quoted(name) => Some(name.as_slice()),
        Sexpr::Keyword(_)
        | Sexpr::Text(_)
        | Sexpr::Numeral(_)
        | Sexpr::Decimal(_)
        | Sexpr::Binary(_)
        | Sexpr::Hex(_)
        | Sexpr::List(_) => None,
    }
}

// The name that a simple symbol is.
fn simple_name(word: &[u8]) -> Option<&[u8]>
    ensures name { MatchOption result (name_of_atom (symbol word.now) ≡ None)
        (λ name. name_of_atom (symbol word.now) ≡ Some name.now) }
{
    if is_reserved(word) {
        return None;
    }
    Some(word)
}

/// Whether the expression is this word, written as a simple symbol. It tells the reserved words `_`
/// and `as` inside of a list.
pub fn is_word(word: &[u8], expr: &Sexpr) -> bool
    ensures word { (d : Declarations) → result ≡ is_word word.now (part_of d
        (expression_of expr.now)) }
{
    match expr {
        Sexpr::Symbol(own) => own.as_slice() == word,
        Sexpr::Quoted(_)
        | Sexpr::Keyword(_)
        | Sexpr::Text(_)
        | Sexpr::Numeral(_)
        | Sexpr::Decimal(_)
        | Sexpr::Binary(_)
        | Sexpr::Hex(_)
        | Sexpr::List(_) => false,
    }
}
