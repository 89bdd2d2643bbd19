//! Resolves names and patterns in expressions: symbols, sorts, variables in scope, and the forms of binders. Its definitions
//! say what whole expressions mean.
//!
//! Design choices:
//!
//! **A name alone and a list of one.** A name alone that takes arguments is error 22, as in a pattern. A list of one item, such
//! as `(nil)`, has no form and is error 28 if the name takes no argument, and error 22 if it takes some. A head that names
//! nothing, or a variable, is error 21. A reserved word alone is error 28.
//!
//! **`true` and `false`.** They are found as constructors: `(true)` is error 28, `(true p)` error 22, `(as true Bool)` is
//! accepted. As patterns they are error 25, and in testers error 28.
//!
//! **`as`.** `(as f S)` qualifies a constructor, function or definition. If f is an operator or a selector, it is error 21.
//!
//! **The order of errors in `match`.** What is no pattern at all (a numeral, a nested list, `()`, a reserved word other than
//! `_` as a variable) has no form, so error 28 comes before the errors of the matched term. Other errors of a pattern come when
//! the pattern is reached, in the order 21, 25, 22, 28 (no variables after a constructor), 27. Bool is error 28 before all
//! cases. Error 26 comes last, and cases after one that is certain to match are still checked.
//!
//! **Variables in patterns.** `|_|` is an ordinary variable: it binds and may not be repeated. Patterns and testers find
//! constructors even if a variable of that name hides them elsewhere.
//!
//! **`:named`.** An annotation with `:named` inside a term is error 28. Other attributes are ignored, whatever their values.
//! The label of an assertion is removed before its term is elaborated, if the attributes have their form. If not, as in
//! `(! t :named a b)`, everything stays, and is error 28.
#![tactic(auto)]

mod atoms;
mod error;
mod forms;
mod needs;
mod operator;
mod patterns;
mod refusals;
mod repeats;
mod sorts;
mod stack;
mod stop;
mod symbols;
mod variables;

pub use atoms::{is_word, name_of};
pub use error::CheckError;
pub use forms::{are_attributes, are_bindings, are_cases};
pub use needs::Needs;
pub use operator::CoreOperator;
pub use patterns::{bound_names, bounds, matchable, pattern};
pub use refusals::{
    FOREIGN_PATTERN, NOT_EXHAUSTIVE, OUT_OF_SCOPE, REPEATED_VARIABLE, TOO_MANY_VALUES,
    UNDETERMINED, UNKNOWN_SORT, UNKNOWN_SYMBOL, WRONG_COUNT, WRONG_SORT,
};
pub use repeats::has_repeated;
pub use sorts::{field_sort, named_sort, sort_at, written_sort};
pub use stack::Variables;
pub use stop::Stop;
pub use symbols::{
    argument_count, argument_sorts, ctor_named, is_of_bool, operator_of, result_sort, symbol_named,
    tester_named,
};
pub use variables::{BoundVariable, Found, Param, parameters};
