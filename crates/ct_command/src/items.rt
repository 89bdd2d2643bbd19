//! Names, words, keywords, numerals, strings and lists among expressions.
ghost use Rattle.std.specs.Prelude.{◌≡◌, Option, None, Some, MatchOption};
ghost use Rattle.ct_sexpr.specs.Atom.{symbol};
ghost use Rattle.ct_sexpr.specs.Readable.{name_of_atom};
ghost use Rattle.ct_sexpr.specs.View.{expression_of};
ghost use Rattle.ct_command.specs.Items.{name_of, word_of, numeral_of, keyword_of, text_of, is_text, items_of};
ghost use Rattle.ct_command.specs.Seen.{bytes_seen, items_seen};

use ct_sexpr::{Sexpr, is_reserved};

/// The name that an expression is: a symbol that is not a reserved word.
pub fn name_of(expr: &Sexpr) -> Option<&[u8]>
    ensures name { name_of (expression_of expr.now) ≡ bytes_seen result }
{
    match expr {
        Sexpr::Symbol(word) => simple_name(word.as_slice()),
        Sexpr::Quoted(name) => Some(name.as_slice()),
        Sexpr::Keyword(_)
        | Sexpr::Text(_)
        | Sexpr::Numeral(_)
        | Sexpr::Decimal(_)
        | Sexpr::Binary(_)
        | Sexpr::Hex(_)
        | Sexpr::List(_) => None,
    }
}

// The name that a simple symbol is.
fn simple_name(word: &[u8]) -> Option<&[u8]>
    ensures name { name_of_atom (symbol word.now) ≡ bytes_seen result }
{
    if is_reserved(word) {
        return None;
    }
    Some(word)
}

/// The word that an expression is, written as a simple symbol.
pub(crate) fn word_of(expr: &Sexpr) -> Option<&[u8]>
    ensures word { word_of (expression_of expr.now) ≡ bytes_seen result }
{
    match expr {
        Sexpr::Symbol(word) => Some(word.as_slice()),
        Sexpr::Quoted(_)
        | Sexpr::Keyword(_)
        | Sexpr::Text(_)
        | Sexpr::Numeral(_)
        | Sexpr::Decimal(_)
        | Sexpr::Binary(_)
        | Sexpr::Hex(_)
        | Sexpr::List(_) => None,
    }
}

/// The number that an expression is.
pub(crate) fn numeral_of(expr: &Sexpr) -> Option<u128>
    ensures numeral { numeral_of (expression_of expr.now) ≡ result }
{
    match expr {
        Sexpr::Numeral(value) => Some(*value),
        Sexpr::Symbol(_)
        | Sexpr::Quoted(_)
        | Sexpr::Keyword(_)
        | Sexpr::Text(_)
        | Sexpr::Decimal(_)
        | Sexpr::Binary(_)
        | Sexpr::Hex(_)
        | Sexpr::List(_) => None,
    }
}

/// The keyword that an expression is, with its colon.
pub(crate) fn keyword_of(expr: &Sexpr) -> Option<&[u8]>
    ensures keyword { keyword_of (expression_of expr.now) ≡ bytes_seen result }
{
    match expr {
        Sexpr::Keyword(word) => Some(word.as_slice()),
        Sexpr::Symbol(_)
        | Sexpr::Quoted(_)
        | Sexpr::Text(_)
        | Sexpr::Numeral(_)
        | Sexpr::Decimal(_)
        | Sexpr::Binary(_)
        | Sexpr::Hex(_)
        | Sexpr::List(_) => None,
    }
}

/// What a string literal says, where the expression is one.
pub(crate) fn text_of(expr: &Sexpr) -> Option<&[u8]>
    ensures text { text_of (expression_of expr.now) ≡ bytes_seen result }
{
    match expr {
        Sexpr::Text(content) => Some(content.as_slice()),
        Sexpr::Symbol(_)
        | Sexpr::Quoted(_)
        | Sexpr::Keyword(_)
        | Sexpr::Numeral(_)
        | Sexpr::Decimal(_)
        | Sexpr::Binary(_)
        | Sexpr::Hex(_)
        | Sexpr::List(_) => None,
    }
}

/// Whether an expression is a string literal.
pub(crate) fn is_text(expr: &Sexpr) -> bool
    ensures text { is_text (expression_of expr.now) ≡ result }
{
    match expr {
        Sexpr::Text(_) => true,
        Sexpr::Symbol(_)
        | Sexpr::Quoted(_)
        | Sexpr::Keyword(_)
        | Sexpr::Numeral(_)
        | Sexpr::Decimal(_)
        | Sexpr::Binary(_)
        | Sexpr::Hex(_)
        | Sexpr::List(_) => false,
    }
}

/// The items of a list.
#[tactic(auto, using(crate::proofs::Rows::items_of_list))]
pub(crate) fn items_of(expr: &Sexpr) -> Option<&[Sexpr]>
    ensures items { items_of (expression_of expr.now) ≡ items_seen result }
{
    match expr {
        Sexpr::List(items) => Some(items.as_slice()),
        Sexpr::Symbol(_)
        | Sexpr::Quoted(_)
        | Sexpr::Keyword(_)
        | Sexpr::Text(_)
        | Sexpr::Numeral(_)
        | Sexpr::Decimal(_)
        | Sexpr::Binary(_)
        | Sexpr::Hex(_) => None,
    }
}
