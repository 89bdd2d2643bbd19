//! Expressions as they were read.

ghost use Rattle.std.specs.Prelude.{◌≡◌, ◌≢◌, ◌<◌, ℕ, List, IfSome, IfNone};
ghost use Rattle.ct_sexpr.specs.Expression.{Expressions, word, list, nesting, nesting_of_each};
ghost use Rattle.ct_sexpr.specs.View.{expression_of, expressions_of};

use crate::bytes::Bytes;

/// An expression as it was read (SMT-LIB 2.7, sections 3.1 and 3.2).
#[derive(Debug, Drop)]
pub enum Sexpr {
    /// A simple symbol.
    Symbol(Bytes),
    /// A quoted symbol, without the `|` around it.
    Quoted(Bytes),
    /// A keyword, with its colon.
    Keyword(Bytes),
    /// What a string says: without its marks, and with each mark inside it once.
    Text(Bytes),
    /// The value of a numeral.
    Numeral(u128),
    /// A decimal, as it was written.
    Decimal(Bytes),
    /// A binary literal, as it was written, from `#b` on.
    Binary(Bytes),
    /// A hexadecimal literal, as it was written, from `#x` on.
    Hex(Bytes),
    /// A list in parentheses.
    List(Vec<Sexpr>),
}

impl Sexpr {
    /// The bytes of a simple symbol.
    pub fn as_symbol(&self) -> Option<&[u8]>
        ensures found { IfSome result (λ bytes. expression_of self.now ≡ word bytes.now) }
        ensures none { IfNone result ((bytes : List ℕ) → expression_of self.now ≢ word bytes) }
    {
        match self {
            Sexpr::Symbol(bytes) => Some(bytes.as_slice()),
            Sexpr::Quoted(_)
            | Sexpr::Keyword(_)
            | Sexpr::Text(_)
            | Sexpr::Numeral(_)
            | Sexpr::Decimal(_)
            | Sexpr::Binary(_)
            | Sexpr::Hex(_)
            | Sexpr::List(_) => None,
        }
    }

    /// The items of a list. They nest less than the list: `nested_lists` says more, for a function
    /// that calls itself on them.
    #[tactic(auto, using(crate::proofs::Rows::expression_of_list))]
    pub fn as_list(&self) -> Option<&[Sexpr]>
        ensures found { IfSome result (λ items. expression_of self.now ≡ list (expressions_of items.now)) }
        ensures nests_less { IfSome result (λ items.
            nesting_of_each (expressions_of items.now) < nesting (expression_of self.now)) }
        ensures none { IfNone result ((items : Expressions) → expression_of self.now ≢ list items) }
    {
        match self {
            Sexpr::List(items) => Some(items.as_slice()),
            Sexpr::Symbol(_)
            | Sexpr::Quoted(_)
            | Sexpr::Keyword(_)
            | Sexpr::Text(_)
            | Sexpr::Numeral(_)
            | Sexpr::Decimal(_)
            | Sexpr::Binary(_)
            | Sexpr::Hex(_) => None,
        }
    }
}
